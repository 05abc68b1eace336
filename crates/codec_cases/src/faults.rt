use anyhow::{Result, anyhow};
use command_codec::{DecodeFault, decode};
use std::alloc::Global;

/// Whether the fault of the bytes is the one that the line tells.
pub fn is_told(alloc: Global, line: &str) -> Result<bool> {
    let mut words = line.split_whitespace();
    let digits = words.next().unwrap_or("");
    let told = told_fault(words.next().unwrap_or(""))?;
    Ok(fault_of_digits(alloc, digits)? == Some(told))
}

// The fault that the word tells: `cut`, or the place of the first bad byte.
fn told_fault(told: &str) -> Result<DecodeFault> {
    if told == "cut" {
        return Ok(DecodeFault::Cut);
    }
    match told.parse() {
        Ok(at) => Ok(DecodeFault::Bad { at }),
        Err(_) => Err(anyhow!("no place: {told}")),
    }
}

// The fault of the bytes that the digits say, of which `-` is none at all.
fn fault_of_digits(alloc: Global, digits: &str) -> Result<Option<DecodeFault>> {
    if digits == "-" {
        return Ok(fault_of(alloc, &[]));
    }
    let bytes = hex::decode(alloc, digits)?;
    Ok(fault_of(alloc, bytes.as_slice()))
}

/// Why the bytes begin with no command, if so.
pub fn fault_of(alloc: Global, bytes: &[u8]) -> Option<DecodeFault> {
    decode(alloc, bytes).err()
}
