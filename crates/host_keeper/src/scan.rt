//! Where a journal goes wrong.

use crate::faults::Fault;
use outside::Failed;
use server_journal::Journal;
use std::alloc::{AllocError, Global};
use store_records::{Record, RecordFault, read_record};

// How many bytes are read at once.
const PIECE: usize = 65_536;

// The bytes of a journal, all of them.
fn read_all<J: Journal>(
    alloc: Global,
    journal: &mut J,
) -> Result<Result<Vec<u8>, Failed>, AllocError> {
    let mut bytes = Vec::new(alloc);
    let mut piece = vec![in alloc; 0u8; PIECE]?;
    for _ in 0..u64::MAX {
        match journal.read(bytes.len() as u64, piece.as_mut_slice()) {
            Ok(0) => return Ok(Ok(bytes)),
            Ok(count) => bytes.extend_from_slice(&piece[..count])?,
            Err(Failed) => return Ok(Err(Failed)),
        }
    }
    Err(AllocError)
}

// How long the log is after this record, if it may stand behind a log of this length.
fn length_after(length: u64, record: &Record) -> Option<u64> {
    match record {
        Record::Vote { .. } => Some(length),
        Record::Store { index, entries } => {
            let before = index.checked_sub(1)?;
            if before > length {
                return None;
            }
            before.checked_add(entries.len() as u64)
        }
    }
}

// The place of the first record that no server has written.
fn foreign_in(alloc: Global, bytes: &[u8]) -> Result<Option<u64>, AllocError> {
    let mut at = 0;
    let mut length = 0;
    // Each record has a byte.
    for _ in 0..bytes.len() {
        let Some(rest) = bytes.get(at..) else {
            return Ok(None);
        };
        match read_record(alloc, rest) {
            Ok((record, size)) => {
                let after = length_after(length, &record);
                drop(record);
                let Some(after) = after else {
                    return Ok(Some(at as u64));
                };
                length = after;
                at = at.saturating_add(size);
            }
            Err(RecordFault::Cut) => return Ok(None),
            Err(RecordFault::Bad { at: _ }) => return Ok(Some(at as u64)),
            Err(RecordFault::Memory) => return Err(AllocError),
        }
    }
    Ok(None)
}

/// What is wrong with a journal with which no server could begin, if that can be told.
pub(crate) fn fault_in<J: Journal>(alloc: Global, journal: &mut J) -> Option<Fault> {
    match read_all(alloc, journal) {
        Ok(Ok(bytes)) => {
            let at = foreign_in(alloc, bytes.as_slice()).ok()??;
            Some(Fault::Foreign { at })
        }
        Ok(Err(Failed)) => Some(Fault::Unread),
        Err(AllocError) => None,
    }
}
