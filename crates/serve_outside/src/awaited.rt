//! How long a connection waits for its client.

use std::time::Duration;

/// What the next read of a connection waits for.
#[derive(Clone, Copy, Debug, PartialEq, Eq)]
pub enum Awaited {
    /// The first byte of a next message.
    Message,
    /// More of a message that has begun.
    Rest,
}

/// How long a connection waits, at most, before it takes its client for gone. None of them is zero.
#[derive(Clone, Copy, Debug, PartialEq, Eq)]
pub struct Limits {
    /// For the first byte of a next message.
    pub message: Duration,
    /// For more of a message that has begun.
    pub rest: Duration,
    /// For a client that does not take what is written to it.
    pub write: Duration,
}

/// For a next message: an hour.
const MESSAGE_SECONDS: u64 = 3_600;

/// For more of a message, and for a client that does not take what is written to it: ten minutes.
const REST_SECONDS: u64 = 600;

impl Limits {
    /// An hour between messages, and ten minutes within one and in a write.
    pub fn usual() -> Limits {
        Limits {
            message: Duration::from_secs(MESSAGE_SECONDS),
            rest: Duration::from_secs(REST_SECONDS),
            write: Duration::from_secs(REST_SECONDS),
        }
    }

    pub(crate) fn of(&self, what: Awaited) -> Duration {
        match what {
            Awaited::Message => self.message,
            Awaited::Rest => self.rest,
        }
    }
}
