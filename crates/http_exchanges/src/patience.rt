//! How long a request waits before it looks whether its reply is there.

ghost use Rattle.std.specs.Prelude.{◌≤◌, ◌<◌};

use crate::cluster::Ask;
use cat_model::{Asked, Request};

/// How long a read waits that says nothing of it: five minutes.
const USUAL_MS: u64 = 300_000;

/// How long a read waits at most: ten minutes.
const MOST_MS: u64 = 600_000;

/// How long a request waits before it looks again that waits for no index, or longer than its wait.
const PAUSE_MS: u64 = 20;

/// After how many milliseconds of waiting the link is asked whether its client has gone.
const LOOK_MS: u64 = 5_000;

/// Until when a request waits for others to wake it, by the clock of turns. From then on it looks again and again.
#[derive(Clone, Copy)]
pub(crate) struct Patience {
    until: u64,
}

// For how many milliseconds a request may be held for an index, as it asks for it.
fn wait_of(asked: &Asked) -> u64
    ensures { result ≤ 600000 }
{
    match asked {
        Asked::Good(
            Request::Read {
                min: 1..,
                wait_ms: 0,
                ..
            },
        ) => USUAL_MS,
        Asked::Good(
            Request::Read {
                min: 1..,
                wait_ms,
                ..
            },
        ) => (*wait_ms).min(MOST_MS),
        _ => 0,
    }
}

/// Until when a request waits that asks at this time.
pub(crate) fn patience_of(ask: &Ask, now: u64) -> Patience {
    Patience {
        until: now.saturating_add(wait_of(&ask.asked)),
    }
}

impl Patience {
    /// Whether its time is over, so that it looks for its reply.
    pub(crate) fn is_over(self, now: u64) -> bool {
        now >= self.until
    }

    /// For how many milliseconds it waits, at this time, before it looks for its reply or its client.
    pub(crate) fn left(self, now: u64) -> u64
        ensures { (0 < result) × (result ≤ 5000) }
    {
        self.until.saturating_sub(now).max(PAUSE_MS).min(LOOK_MS)
    }
}
