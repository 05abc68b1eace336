use crate::faults::fault_of;
use anyhow::Result;
use cat_model::{Bytes, Command, Memory};
use command_codec::{DecodeFault, decode, encode, encoded_len};
use std::alloc::Global;

/// Whether the bytes spell a command in bounds that has just this spelling, of the length that is counted, and each
/// shorter front of them is cut off.
pub fn is_spelled(alloc: Global, line: &str) -> Result<bool> {
    let digits = line.split_whitespace().next().unwrap_or("");
    let bytes = hex::decode(alloc, digits)?;
    let spelling = bytes.as_slice();
    Ok(is_read(alloc, spelling)? && is_each_front_cut(alloc, spelling))
}

// Whether a command is read from the whole spelling, and is in bounds and written so.
fn is_read(alloc: Global, spelling: &[u8]) -> Result<bool> {
    let (command, length) = decode(alloc, spelling)?;
    let is_spelling = is_spelling_of(alloc, spelling, &command);
    drop(command); // Before any early return.
    Ok(is_spelling? && length == spelling.len())
}

// Whether the command is in bounds and has this spelling, of the length that is counted.
fn is_spelling_of(alloc: Global, spelling: &[u8], command: &Command) -> Result<bool, Memory> {
    Ok(
        command.in_bounds()
            && encoded_len(command) == spelling.len() as u64
            && is_written(alloc, command, spelling)?,
    )
}

// Whether the command is written so.
fn is_written(alloc: Global, command: &Command, spelling: &[u8]) -> Result<bool, Memory> {
    let mut out = Bytes::new(alloc, &[])?;
    encode(alloc, command, &mut out)?;
    Ok(out.as_slice() == spelling)
}

fn is_each_front_cut(alloc: Global, spelling: &[u8]) -> bool {
    for end in 0..spelling.len() {
        if fault_of(alloc, &spelling[..end]) != Some(DecodeFault::Cut) {
            return false;
        }
    }
    true
}
