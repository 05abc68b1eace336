ghost use Rattle.std.specs.Prelude.{◌≡◌};
ghost use Rattle.http_exchanges.specs.Serving.{is_short};

use http_wire::Rejection;

/// Why a connection ended.
#[derive(Clone, Copy, Debug, PartialEq, Eq)]
pub enum Cause {
    /// The client's bytes ended, or its last request asks to close.
    Closed,
    /// What stands behind the last request is refused.
    Refused(Rejection),
    ReadFault,
    WriteFault,
    /// The client went away while its last request waited.
    Left,
    /// There was no memory, or no number for one more request.
    Memory,
}

impl Cause {
    /// Whether the connection ended for lack of memory.
    pub fn is_short(self) -> bool
        ensures { result ≡ is_short self }
    {
        match self {
            Cause::Memory => true,
            Cause::Closed
            | Cause::Refused(_)
            | Cause::ReadFault
            | Cause::WriteFault
            | Cause::Left => false,
        }
    }
}
