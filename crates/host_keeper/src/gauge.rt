//! How full a log is, and what was said of that.

ghost use Rattle.std.specs.Prelude.{◌≡◌};
ghost use Rattle.host_keeper.specs.Fills.{fill_of as fill_of_log, news, said_after};

use file_keeper::{MOST_BYTES, MOST_ENTRIES};

// From so many entries or bytes on a log is nearly full: 90 % of the most.
const NEARLY_ENTRIES: u64 = 235_930;

const NEARLY_BYTES: u64 = 60_397_978;

// With less room than for so many bytes a log is full: that is less than an end of a session and the state of a check may
// need, with the names in them.
const LEAST_ROOM: u64 = 1_024;

/// How full a log is.
#[derive(Clone, Copy, Debug, PartialEq, Eq)]
pub enum Fill {
    /// It has 90 % of the entries, or of the bytes, that it may have.
    Nearly,
    /// It has all of the entries, or less than 1,024 bytes of room.
    Full,
}

/// What was said of how full a log is.
#[derive(Clone, Copy, Debug, PartialEq, Eq)]
pub struct Gauge {
    said: Option<Fill>,
}

// How full a log is that has so many entries, and so many bytes of commands.
fn fill_of(entries: u64, bytes: u64) -> Option<Fill>
    ensures { result ≡ fill_of_log entries bytes }
{
    if entries >= MOST_ENTRIES as u64 || bytes > MOST_BYTES - LEAST_ROOM {
        return Some(Fill::Full);
    }
    if entries >= NEARLY_ENTRIES || bytes >= NEARLY_BYTES {
        return Some(Fill::Nearly);
    }
    None
}

impl Gauge {
    /// Nothing was said.
    pub fn new() -> Gauge
        ensures { result ≡ record { said = None } }
    {
        Gauge { said: None }
    }

    /// Takes note of a log with so many entries and so many bytes of commands, and says what is new of it: each fill once,
    /// and none below one that was said.
    pub fn tell(&mut self, entries: u64, bytes: u64) -> Option<Fill>
        ensures fill { result ≡ news self.old.said (fill_of_log entries bytes) }
        ensures said { self.new ≡ record { said = said_after self.old.said (fill_of_log entries bytes) } }
    {
        let fill = fill_of(entries, bytes)?;
        match (self.said, fill) {
            (None, _) | (Some(Fill::Nearly), Fill::Full) => {
                self.said = Some(fill);
                Some(fill)
            }
            (Some(_), _) => None,
        }
    }
}
