use crate::files::{read_bytes, read_status, read_text};
use crate::in_full::in_full;
use anyhow::Result;

/// A worked script, the text that it writes, and the status with which it ends.
#[derive(Drop)]
pub struct Row {
    pub script: Vec<u8>,
    pub text: String,
    pub status: u8,
}

/// Reads the files of the row.
pub fn read_row(rt: &HostRuntime, name: &str) -> Result<Row> {
    Ok(Row {
        script: read_bytes(rt, name, "script")?,
        text: read_text(rt, name, "out")?,
        status: read_status(rt, name)?,
    })
}

/// Reads the files of the row, whose script and text are written short.
pub fn read_long_row(rt: &HostRuntime, name: &str) -> Result<Row> {
    Ok(Row {
        script: read_in_full(rt, name, "script")?.into_bytes(),
        text: read_in_full(rt, name, "out")?,
        status: read_status(rt, name)?,
    })
}

// The text of a file that is written short, in full.
fn read_in_full(rt: &HostRuntime, name: &str, kind: &str) -> Result<String> {
    let short = read_text(rt, name, kind)?;
    in_full(rt.alloc(), short.as_str())
}
