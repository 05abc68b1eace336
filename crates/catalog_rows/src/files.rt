//! The files of rows.

use anyhow::{Context, Result};
use std::fs;

// The path of a row's file of this kind.
fn path(rt: &HostRuntime, name: &str, kind: &str) -> Result<String> {
    Ok(format!(in rt.alloc(); "{name}.{kind}")?)
}

/// The bytes of a row's file of this kind.
pub fn read_bytes(rt: &HostRuntime, name: &str, kind: &str) -> Result<Vec<u8>> {
    let path = path(rt, name, kind)?;
    Ok(fs::read(rt, &path).context(path)?)
}

/// The text of a row's file of this kind.
pub fn read_text(rt: &HostRuntime, name: &str, kind: &str) -> Result<String> {
    let path = path(rt, name, kind)?;
    Ok(fs::read_to_string(rt, &path).context(path)?)
}

/// The status with which a row should end, which is its file's only text.
pub fn read_status(rt: &HostRuntime, name: &str) -> Result<u8> {
    let text = read_text(rt, name, "status")?;
    Ok(text.as_str().trim().parse()?)
}
