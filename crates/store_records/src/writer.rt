//! Records of a journal as bytes.

ghost use Rattle.std.specs.Prelude.{◌≡◌, ◌≤◌, ◌<◌, ◌++◌, IfOk, MatchOption, length, OnErr, OnOk};
ghost use Rattle.cat_model.specs.Spelling.{list_bytes, text_bytes};
ghost use Rattle.store_records.specs.declared.records.Record.TheVariants as calls;
ghost use Rattle.store_records.specs.Records.{entry_bytes, payload, record_bytes};

use crate::numbers::{put_byte, put_number, put_server};
use crate::records::Record;
use cat_model::{Bytes, Entry, List, Memory};
use command_codec::encode;
use std::alloc::Global;

// A payload has at most so many bytes.
const MOST_BYTES: usize = 100_000_000;

fn no_bytes(alloc: Global) -> Bytes
    ensures { length result ≡ 0 }
{
    Bytes::from(Vec::new(alloc))
}

// Puts an entry last.
#[tactic(auto, unfolding(crate::specs::Records::entry_bytes))]
fn put_entry(alloc: Global, out: &mut Bytes, entry: &Entry) -> Result<(), Memory>
    ensures { OnOk result (out.new ≡ out.old ++ entry_bytes entry.now) }
{
    put_number(out, entry.term)?;
    put_number(out, entry.number)?;
    encode(alloc, &entry.command, out)
}

/// Puts the number of entries and the entries last.
pub fn put_entries(alloc: Global, out: &mut Bytes, entries: &List<Entry>) -> Result<(), Memory>
    ensures { OnOk result (out.new ≡ out.old ++ list_bytes entry_bytes entries.now) }
{
    let entries = entries.as_slice();
    put_number(out, entries.len() as u64)?;
    for entry in entries {
        put_entry(alloc, out, entry)?;
    }
    Ok(())
}

fn vote_payload(alloc: Global, term: u64, vote: Option<u32>) -> Result<Bytes, Memory>
    ensures { IfOk result (λ bytes. bytes ≡ payload (calls.Vote term vote)) }
{
    let mut out = no_bytes(alloc);
    put_byte(&mut out, 1)?;
    put_number(&mut out, term)?;
    put_server(&mut out, vote)?;
    Ok(out)
}

fn store_payload(alloc: Global, index: u64, entries: &List<Entry>) -> Result<Bytes, Memory>
    ensures { IfOk result (λ bytes. bytes ≡ payload (calls.Store index entries.now)) }
{
    let mut out = no_bytes(alloc);
    put_byte(&mut out, 2)?;
    put_number(&mut out, index)?;
    put_entries(alloc, &mut out, entries)?;
    Ok(out)
}

// The payload behind its length.
fn framed(alloc: Global, payload: &Bytes) -> Result<Bytes, Memory>
    ensures { IfOk result (λ bytes. bytes ≡ text_bytes payload.now) }
{
    let mut out = no_bytes(alloc);
    put_number(&mut out, payload.len() as u64)?;
    out.extend(payload.as_slice())?;
    Ok(out)
}

/// The spelling of a `Vote`.
pub fn vote_record(alloc: Global, term: u64, vote: Option<u32>) -> Result<Bytes, Memory>
    ensures { IfOk result (λ bytes. bytes ≡ record_bytes (calls.Vote term vote)) }
{
    let payload = vote_payload(alloc, term, vote)?;
    framed(alloc, &payload)
}

/// The spelling of a `Store`, or `None` where its payload is longer than a payload may be.
pub fn store_record(
    alloc: Global,
    index: u64,
    entries: &List<Entry>,
) -> Result<Option<Bytes>, Memory>
    ensures { IfOk result (λ found. MatchOption found
        (100000000 < length (payload (calls.Store index entries.now)))
        (λ bytes. (length (payload (calls.Store index entries.now)) ≤ 100000000) × (bytes ≡ record_bytes (calls.Store index entries.now)))) }
{
    let payload = store_payload(alloc, index, entries)?;
    if payload.len() > MOST_BYTES {
        return Ok(None);
    }
    Ok(Some(framed(alloc, &payload)?))
}

fn payload_of(alloc: Global, item: &Record) -> Result<Bytes, Memory>
    ensures { IfOk result (λ bytes. bytes ≡ payload item.now) }
{
    match item {
        Record::Vote { term, vote } => vote_payload(alloc, *term, *vote),
        Record::Store { index, entries } => store_payload(alloc, *index, entries),
    }
}

/// Puts the spelling of the record last. After lack of memory `out` is as before.
pub fn write_record(alloc: Global, item: &Record, out: &mut Bytes) -> Result<(), Memory>
    requires { length (payload item.now) ≤ 100000000 }
    ensures ok { OnOk result (out.new ≡ out.old ++ record_bytes item.now) }
    ensures err { OnErr result (out.new ≡ out.old) }
{
    let payload = payload_of(alloc, item)?;
    let bytes = framed(alloc, &payload)?;
    out.extend(bytes.as_slice())
}
