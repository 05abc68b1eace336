//! The parts of which a spelling is made: numbers, texts, flags, identifiers and lists.

ghost use Rattle.std.specs.Prelude.{◌≡◌, OnOk};
ghost use Rattle.std.specs.List.{fold};
ghost use Rattle.cat_model.specs.Spelling.{flag_bytes, id_bytes, list_bytes, number_bytes, option_bytes, text_bytes};

use crate::out::Out;
use cat_model::{Bytes, Text, Texts};

/// Seven bits a byte, the lowest first.
pub fn put_number<O: Out>(out: &mut O, number: u64) -> Result<(), O::Fault>
    ensures { OnOk result (O.seen out.new ≡ fold O.after (O.seen out.old) (number_bytes number)) }
{
    let mut rest = number;
    while rest >= 128 {
        out.put_byte(128 + (rest % 128) as u8)?;
        rest /= 128;
    }
    out.put_byte(rest as u8)
}

fn put_bytes<O: Out>(out: &mut O, bytes: &[u8]) -> Result<(), O::Fault>
    ensures { OnOk result (O.seen out.new ≡ fold O.after (O.seen out.old) (text_bytes bytes.now)) }
{
    put_number(out, bytes.len() as u64)?;
    out.put(bytes)
}

pub fn put_text<O: Out>(out: &mut O, text: &Text) -> Result<(), O::Fault>
    ensures { OnOk result (O.seen out.new ≡ fold O.after (O.seen out.old) (text_bytes text.now)) }
{
    put_bytes(out, text.as_str().as_bytes())
}

pub fn put_value<O: Out>(out: &mut O, value: &Bytes) -> Result<(), O::Fault>
    ensures { OnOk result (O.seen out.new ≡ fold O.after (O.seen out.old) (text_bytes value.now)) }
{
    put_bytes(out, value.as_slice())
}

pub fn put_texts<O: Out>(out: &mut O, texts: &Texts) -> Result<(), O::Fault>
    ensures { OnOk result (O.seen out.new ≡ fold O.after (O.seen out.old) (list_bytes text_bytes texts.now)) }
{
    let texts = texts.as_slice();
    put_number(out, texts.len() as u64)?;
    for text in texts {
        put_text(out, text)?;
    }
    Ok(())
}

pub fn put_flag<O: Out>(out: &mut O, flag: bool) -> Result<(), O::Fault>
    ensures { OnOk result (O.seen out.new ≡ fold O.after (O.seen out.old) (flag_bytes flag)) }
{
    out.put_byte(if flag { 1 } else { 0 })
}

/// The upper half first.
#[tactic(auto, unfolding(cat_model::specs::Spelling::id_bytes))]
pub fn put_id<O: Out>(out: &mut O, id: u128) -> Result<(), O::Fault>
    ensures { OnOk result (O.seen out.new ≡ fold O.after (O.seen out.old) (id_bytes id)) }
{
    let upper = (id / (1 << 64)) as u64;
    let lower = (id % (1 << 64)) as u64;
    out.put(&upper.to_be_bytes())?;
    out.put(&lower.to_be_bytes())
}

pub fn put_session<O: Out>(out: &mut O, session: Option<u128>) -> Result<(), O::Fault>
    ensures { OnOk result (O.seen out.new ≡ fold O.after (O.seen out.old) (option_bytes id_bytes session)) }
{
    match session {
        None => out.put_byte(0),
        Some(id) => {
            out.put_byte(1)?;
            put_id(out, id)
        }
    }
}
