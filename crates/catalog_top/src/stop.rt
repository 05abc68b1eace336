//! Why a run stops, and with which status.

ghost use Rattle.std.specs.Prelude.{◌≡◌};
ghost use Rattle.catalog_top.specs.Status.{status_of as status_number};

use crate::input::ReadFail;
use outside::KeepFail;
use script_player::Report;
use thiserror::Error;

/// How a run ended: with its report, or why there is none.
pub type Outcome = Result<Report, Stop>;

/// Why a run has no report.
#[derive(Clone, Copy, Debug, PartialEq, Eq, Error)]
pub enum Stop {
    #[error("the words ask for nothing that is known; --help says what there is")]
    Words,
    #[error("a line of the script is refused")]
    Line,
    #[error("standard input cannot be read")]
    Source,
    #[error("standard output cannot be written")]
    Sink,
    #[error("the listener failed, or cannot listen at the port, which another program may use")]
    Listener,
    #[error("the script is too long")]
    Limit,
    #[error("out of memory")]
    Memory,
    #[error("the durable store of a server cannot be made or read")]
    Store,
    #[error("the port for questions of names cannot be bound, which another program may use")]
    Datagrams,
}

impl Stop {
    ghost use Rattle.std.specs.Prelude.{◌≡◌};
    ghost use Rattle.catalog_top.specs.Status.{number_of};

    /// The status with which the program ends: 2 wrong words, 3 a refused line, 4 the source failed, 5 the sink failed, 6 the
    /// listener failed, 7 a script above a limit, 8 out of memory, 9 a durable store could not be made or read, 10 the port
    /// for questions of names could not be bound.
    pub fn number(self) -> u8
        ensures { result ≡ number_of self }
    {
        match self {
            Stop::Words => 2,
            Stop::Line => 3,
            Stop::Source => 4,
            Stop::Sink => 5,
            Stop::Listener => 6,
            Stop::Limit => 7,
            Stop::Memory => 8,
            Stop::Store => 9,
            Stop::Datagrams => 10,
        }
    }
}

impl From<ReadFail> for Stop {
    ghost use Rattle.std.specs.Prelude.{◌≡◌};
    ghost use Rattle.catalog_top.specs.Status.{stop_of_read};

    ghost from_gives = { λ fail stop. stop ≡ stop_of_read fail };

    fn from(fail: ReadFail) -> Stop {
        match fail {
            ReadFail::Failed => Stop::Source,
            ReadFail::Memory => Stop::Memory,
        }
    }
}

impl From<KeepFail> for Stop {
    ghost use Rattle.std.specs.Prelude.{◌≡◌};
    ghost use Rattle.catalog_top.specs.Status.{stop_of_write};

    ghost from_gives = { λ fail stop. stop ≡ stop_of_write fail };

    fn from(fail: KeepFail) -> Stop {
        match fail {
            KeepFail::Failed => Stop::Sink,
            KeepFail::Memory => Stop::Memory,
        }
    }
}

impl From<http_front::Stop> for Stop {
    ghost use Rattle.std.specs.Prelude.{◌≡◌};
    ghost use Rattle.catalog_top.specs.Status.{stop_of_server};

    ghost from_gives = { λ why stop. stop ≡ stop_of_server why };

    fn from(why: http_front::Stop) -> Stop {
        match why {
            http_front::Stop::Listener => Stop::Listener,
            http_front::Stop::Sink => Stop::Sink,
            http_front::Stop::Keepers => Stop::Store,
            http_front::Stop::Datagrams => Stop::Datagrams,
            http_front::Stop::Memory => Stop::Memory,
        }
    }
}

/// The status with which the program ends: 0 where there is a report, and else the number of why there is none.
pub fn status_of(outcome: &Outcome) -> u8
    ensures { result ≡ status_number outcome.now }
{
    match outcome {
        Ok(_) => 0,
        Err(stop) => stop.number(),
    }
}
