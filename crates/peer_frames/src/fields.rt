//! The fields of bodies, read from bytes.

ghost use Rattle.command_codec.specs.Reading.{Gives, list_at};
ghost use Rattle.store_records.specs.RecordReading.{entry_at};
ghost use Rattle.peer_frames.specs.Reading.{sender_at};

use crate::frame::Peers;
use cat_model::{Entry, List};
use command_codec::{ReadError, bad, cut, read_number};
use std::alloc::Global;
use store_records::read_some_entries;

/// The number of another server.
pub fn read_sender(peers: Peers, bytes: &[u8]) -> Result<(u32, &[u8]), ReadError>
    ensures { Gives (λ x. (x.0, x.1.now)) result (sender_at peers bytes.now) }
{
    let Some((first, rest)) = bytes.split_first() else {
        return Err(cut());
    };
    let sender = u32::from(*first);
    if sender < 1 || peers.servers < sender || sender == peers.id {
        return Err(bad(bytes));
    }
    Ok((sender, rest))
}

/// The entries of an Append.
pub fn read_entries(alloc: Global, bytes: &[u8]) -> Result<(List<Entry>, &[u8]), ReadError>
    ensures { Gives (λ x. (x.0, x.1.now)) result (list_at 64 entry_at bytes.now) }
{
    let (count, rest) = read_number(0, 64, bytes)?;
    read_some_entries(alloc, count, rest)
}
