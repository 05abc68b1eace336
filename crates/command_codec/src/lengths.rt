//! How many bytes a spelling has, counted without taking memory.

ghost use Rattle.std.specs.Prelude.{◌≡◌, ◌+◌, length};
ghost use Rattle.cat_model.specs.Bounds.{InBounds};
ghost use Rattle.cat_model.specs.Spelling.{spelling};
ghost use Rattle.command_codec.specs.Counts.{capped};

use crate::encoder::put_command;
use crate::out::Out;
use cat_model::Command;
use std::convert::Infallible;

// How many bytes it took. The count stops at the greatest number of 64 bits.
#[derive(Drop)]
struct Counter {
    count: u64,
}

/// A counter keeps none of the bytes.
impl Out for Counter {
    type Fault = Infallible;

    type Seen = u64;

    ghost seen = { λ c. c.count };

    ghost after = { λ count byte. capped (count + 1) };

    fn put(&mut self, bytes: &[u8]) -> Result<(), Infallible> {
        self.count = self.count.saturating_add(bytes.len() as u64);
        Ok(())
    }

    fn put_byte(&mut self, byte: u8) -> Result<(), Infallible> {
        self.count = self.count.saturating_add(1);
        Ok(())
    }
}

/// How many bytes `encode` puts for the command, or the greatest number of 64 bits where those are more, which no
/// command in bounds has.
pub fn encoded_len(command: &Command) -> u64
    ensures counted { result ≡ capped (length (spelling command.now)) }
    ensures exact { InBounds command.now → result ≡ length (spelling command.now) }
{
    let mut counter = Counter { count: 0 };
    match put_command(&mut counter, command) {
        Ok(()) => counter.count,
        Err(never) => match never {},
    }
}
