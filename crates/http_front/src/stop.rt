//! Why a server broke off.

use outside::KeepFail;
use thiserror::Error;

/// Why a server broke off.
#[derive(Clone, Copy, Debug, PartialEq, Eq, Error)]
pub enum Stop {
    /// The listener failed. If it did so at a connection, the last line is written.
    #[error("the listener failed")]
    Listener,
    #[error("the sink failed")]
    Sink,
    /// A durable store could not be made, or not be read. Nothing is written, and nothing was listened on.
    #[error("a durable store could not be made or read")]
    Keepers,
    /// The port for questions of names could not be bound. Nothing is written or served.
    #[error("the port for questions of names could not be bound")]
    Datagrams,
    /// There was no memory, for the server or for one of its connections.
    #[error("out of memory")]
    Memory,
}

impl From<KeepFail> for Stop {
    ghost use Rattle.std.specs.Prelude.{◌≡◌};
    ghost use Rattle.http_front.specs.Served.{stop_of_write};

    ghost from_gives = { λ fail stop. stop ≡ stop_of_write fail };

    fn from(fail: KeepFail) -> Stop {
        match fail {
            KeepFail::Failed => Stop::Sink,
            KeepFail::Memory => Stop::Memory,
        }
    }
}
