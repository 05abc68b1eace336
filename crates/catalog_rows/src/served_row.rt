use crate::files::{read_bytes, read_status, read_text};
use anyhow::{Context, Result};

/// A worked connection: the bytes that come, and those that should be written to it.
#[derive(Drop)]
pub struct Connection {
    pub heard: Vec<u8>,
    pub said: Vec<u8>,
}

/// A worked run of a server: its command line, the job that is refused (0: none), its connections, the text that it
/// writes, and the status with which it ends.
#[derive(Drop)]
pub struct ServedRow {
    pub words: String,
    pub refused: u64,
    pub connections: Vec<Connection>,
    pub text: String,
    pub status: u8,
}

/// Reads the files of the row.
pub fn read_served(rt: &HostRuntime, name: &str) -> Result<ServedRow> {
    let (words, refused) = read_words(rt, name)?;
    let connections = read_connections(rt, name, words.as_str())?;
    Ok(ServedRow {
        words,
        refused,
        connections,
        text: read_text(rt, name, "out")?,
        status: read_status(rt, name)?,
    })
}

// The command line of a row, and the job that is refused.
fn read_words(rt: &HostRuntime, name: &str) -> Result<(String, u64)> {
    let words = read_text(rt, name, "words")?;
    let (line, refused) = words.as_str().split_once('\n').context("no refused job")?;
    Ok((format!(in rt.alloc(); "{line}")?, refused.trim().parse()?))
}

// The connections of a row, of which the last word says how many there are.
fn read_connections(rt: &HostRuntime, name: &str, words: &str) -> Result<Vec<Connection>> {
    let mut connections = Vec::new(rt.alloc());
    for number in 1..=count_of(words)? {
        connections.push(read_connection(rt, name, number)?)?;
    }
    Ok(connections)
}

// The number that is the last word.
fn count_of(words: &str) -> Result<u32> {
    let last = words.split(' ').last().context("no words")?;
    Ok(last.parse()?)
}

// The connection of this number of a row.
fn read_connection(rt: &HostRuntime, name: &str, number: u32) -> Result<Connection> {
    let heard = format!(in rt.alloc(); "in{number}")?;
    let said = format!(in rt.alloc(); "said{number}")?;
    Ok(Connection {
        heard: read_bytes(rt, name, heard.as_str())?,
        said: read_bytes(rt, name, said.as_str())?,
    })
}
