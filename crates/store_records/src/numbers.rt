//! Numbers, seven bits a byte, the lowest first, in the shortest form.

ghost use Rattle.std.specs.Prelude.{◌≡◌, ◌++◌, ◌∷◌, [], OnOk};
ghost use Rattle.cat_model.specs.Spelling.{number_bytes, option_bytes};
ghost use Rattle.command_codec.specs.Reading.{Gives, option_at};
ghost use Rattle.store_records.specs.RecordReading.{server_at};

use cat_model::{Bytes, Memory};
use command_codec::{ReadError, read_flag, read_number};

/// Puts one byte last.
pub fn put_byte(out: &mut Bytes, byte: u8) -> Result<(), Memory>
    ensures { OnOk result (out.new ≡ out.old ++ byte ∷ []) }
{
    out.extend(&[byte])
}

/// Puts a number last.
pub fn put_number(out: &mut Bytes, number: u64) -> Result<(), Memory>
    ensures { OnOk result (out.new ≡ out.old ++ number_bytes number) }
{
    let mut rest = number;
    while rest >= 128 {
        put_byte(out, 128 + (rest % 128) as u8)?;
        rest /= 128;
    }
    put_byte(out, rest as u8)
}

/// Puts the number of a server last, or that there is none.
pub fn put_server(out: &mut Bytes, server: Option<u32>) -> Result<(), Memory>
    ensures { OnOk result (out.new ≡ out.old ++ option_bytes number_bytes server) }
{
    match server {
        None => put_byte(out, 0),
        Some(server) => {
            put_byte(out, 1)?;
            put_number(out, u64::from(server))
        }
    }
}

/// The number of a server, or that there is none.
pub fn read_server(bytes: &[u8]) -> Result<(Option<u32>, &[u8]), ReadError>
    ensures { Gives (λ x. (x.0, x.1.now)) result (option_at server_at bytes.now) }
{
    let (given, rest) = read_flag(bytes)?;
    if !given {
        return Ok((None, rest));
    }
    let (server, rest) = read_number(0, 4_294_967_295, rest)?;
    Ok((Some(server as u32), rest))
}
