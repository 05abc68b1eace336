//! How many bytes messages take, counted without taking memory. Each count goes onto a total, which stops at the greatest
//! number of 64 bits.

ghost use Rattle.std.specs.Prelude.{◌≡◌, ◌+◌};
ghost use Rattle.raft_model.specs.Limits.{command_bytes, entries_bytes};
ghost use Rattle.raft_model.specs.World.{message_bytes};
ghost use Rattle.raft_world.specs.Weights.{capped};

use cat_model::{Command, Entry};
use command_codec::encoded_len;
use raft_model::Message;

fn add_command(total: u64, command: &Command) -> u64
    ensures { result ≡ capped (total + command_bytes command.now) }
{
    total.saturating_add(encoded_len(command))
}

fn add_entries(total: u64, entries: &[Entry]) -> u64
    ensures { result ≡ capped (total + entries_bytes entries.now) }
{
    let mut total = total;
    for entry in entries {
        total = add_command(total, &entry.command);
    }
    total
}

/// How many bytes a message takes, or the greatest number of 64 bits where it takes more.
pub fn message_bytes(message: &Message) -> u64
    ensures { result ≡ capped (message_bytes message.now) }
{
    match message {
        Message::Append { entries, .. } => add_entries(64, entries.as_slice()),
        _ => 64,
    }
}
