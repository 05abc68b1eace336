//! Records of a journal, read from bytes.

ghost use Rattle.std.specs.Prelude.{◌≡◌, ℕ, length, IfOk, Ok, Err};
ghost use Rattle.command_codec.specs.Reading.{Gives};
ghost use Rattle.store_records.specs.declared.records.Record.{Record};
ghost use Rattle.store_records.specs.RecordReading.{Begins, IsCut, IsWrong, UnlessMemory, answer_of, framed_at, record_at};

use crate::fault::RecordFault;
use crate::fields::read_payload;
use crate::records::Record;
use command_codec::{Fault, ReadError, cut, read_number};
use std::alloc::Global;

// The payload of so many bytes, and what is behind it.
#[tactic(auto, unfolding(crate::specs::RecordReading::framed_at))]
fn read_framed(alloc: Global, size: usize, bytes: &[u8]) -> Result<(Record, &[u8]), ReadError>
    ensures { Gives (λ x. (x.0, x.1.now)) result (framed_at size bytes.now) }
{
    let there = size.min(bytes.len());
    let (front, behind) = bytes.split_at(there);
    match read_payload(alloc, front) {
        Ok((record, after)) => {
            if after.is_empty() && there == size {
                return Ok((record, behind));
            }
            Err(ReadError::Fault(Fault::Bad {
                left: after.len() + 1 + behind.len(),
            }))
        }
        Err(ReadError::Memory) => Err(ReadError::Memory),
        Err(ReadError::Fault(Fault::Cut)) => {
            if there < size {
                return Err(cut());
            }
            Err(ReadError::Fault(Fault::Bad {
                left: 1 + behind.len(),
            }))
        }
        Err(ReadError::Fault(Fault::Bad { left })) => Err(ReadError::Fault(Fault::Bad {
            left: left + behind.len(),
        })),
    }
}

#[tactic(auto, unfolding(crate::specs::RecordReading::record_at))]
fn read_one(alloc: Global, bytes: &[u8]) -> Result<(Record, &[u8]), ReadError>
    ensures { Gives (λ x. (x.0, x.1.now)) result (record_at bytes.now) }
{
    let (size, rest) = read_number(3, 100_000_000, bytes)?;
    read_framed(alloc, size as usize, rest)
}

/// The record whose spelling begins the input, and the spelling's length in bytes. It takes memory in proportion to
/// the bytes that it reads, whatever counts they state.
pub fn read_record(alloc: Global, input: &[u8]) -> Result<(Record, usize), RecordFault>
    ensures exact { UnlessMemory result (answer_of (length input.now) (record_at input.now)) }
    ensures ok { IfOk result (λ found. Begins found.0 found.1 input.now) }
    ensures cut { result ≡ Err RecordFault.Cut → IsCut input.now }
    ensures bad { (at : ℕ) → result ≡ Err (RecordFault.Bad at) → IsWrong input.now }

    // Each comes wherever it can, unless memory runs out.
    ensures whenever_ok { (found : Record) (size : ℕ) → Begins found size input.now → UnlessMemory result (Ok (found, size)) }
    ensures whenever_cut { IsCut input.now → UnlessMemory result (Err RecordFault.Cut) }
{
    match read_one(alloc, input) {
        Ok((record, rest)) => Ok((record, input.len() - rest.len())),
        Err(ReadError::Memory) => Err(RecordFault::Memory),
        Err(ReadError::Fault(Fault::Cut)) => Err(RecordFault::Cut),
        Err(ReadError::Fault(Fault::Bad { left })) => Err(RecordFault::Bad {
            at: input.len() - left,
        }),
    }
}
