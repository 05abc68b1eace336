//! What brings frames to other processes.

ghost use Rattle.std.specs.Prelude.{◌≡◌};
ghost use Rattle.node_service.specs.Dialers.{DialerState, brought};

use cat_model::Bytes;
use outside::KeepFail;

/// Bytes for a port of 127.0.0.1.
#[derive(Debug, Drop)]
pub struct Piece {
    pub port: u16,
    pub bytes: Bytes,
}

/// What brings bytes to ports of 127.0.0.1. It counts the calls that failed, up to 2^64 - 1.
pub trait Dialer: Drop {
    /// All that it tells.
    ghost state: { Self → DialerState };

    /// Brings the whole piece to the port, behind those that it took for that port before.
    fn send(&mut self, port: u16, piece: &[u8]) -> Result<(), KeepFail>
        ensures { state self.new ≡ brought (record { port = port; bytes = piece.now }) result (state self.old) };
}
