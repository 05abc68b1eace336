ghost use Rattle.std.specs.Prelude.{◌≡◌};

use std::io;
use thiserror::Error;

/// Why no server can begin with its file.
#[derive(Debug, Drop, Error)]
pub enum Fault {
    #[error("it cannot be opened: {0}")]
    Unopened(io::Error),
    #[error("another process has it open")]
    Taken,
    /// The folder was made for fewer servers, or a file of it was lost.
    #[error("it is not there, though other servers have kept something in the folder")]
    Missing,
    /// The folder was made for more servers.
    #[error("it is there, though there is to be no such server")]
    Surplus,
    #[error("it cannot be read")]
    Unread,
    #[error("what begins at byte {at} is no record of a server, and is not cut short either")]
    Foreign { at: u64 },
}

/// A file with which no server can begin, and why.
#[derive(Debug, Drop, Error)]
#[error("server-{server}.journal: {fault}")]
pub struct Refusal {
    pub server: u32,
    pub fault: Fault,
}

impl Refusal {
    pub(crate) fn unopened(server: u32, fault: io::Error) -> Refusal
        ensures { result ≡ record { server = server; fault = Fault.Unopened fault } }
    {
        Refusal {
            server,
            fault: Fault::Unopened(fault),
        }
    }

    // Whether there was no memory to open the file.
    pub(crate) fn is_want_of_memory(&self) -> bool {
        match &self.fault {
            Fault::Unopened(fault) => fault.kind() == io::ErrorKind::OutOfMemory,
            _ => false,
        }
    }
}
