//! The slots that held requests stand in.

ghost use Rattle.std.specs.Prelude.{◌≡◌, ◌==◌, ℕ, IfNone, IfSome, false, is_some};
ghost use Rattle.std.specs.Option.{option_copied};
ghost use Rattle.cluster_requests.specs.Contents.{stand_of};
ghost use Rattle.cluster_requests.specs.Counts.{slot_waits};
ghost use Rattle.cluster_requests.specs.Held.{number_held, pending_of, slot_ended, slot_number, slot_restood};

use crate::pending::{Pending, Stand};

/// The slot of a request that is held, or of one that was dropped and whose slot was not swept out yet.
#[derive(Drop)]
pub enum HeldSlot {
    Held(Pending),
    LetGo { number: u64 },
}

impl HeldSlot {
    /// The request, if it is held.
    pub fn pending(&self) -> Option<&Pending>
        ensures { option_copied result ≡ pending_of self.now }
    {
        match self {
            HeldSlot::Held(pending) => Some(pending),
            HeldSlot::LetGo { .. } => None,
        }
    }

    /// The server at which its request waits for an index, which was looked for and was not there.
    pub(crate) fn waits_at(&self) -> Option<u32>
        ensures some { IfSome result (λ server. (i : ℕ) → slot_waits i self.now ≡ (server == i)) }
        ensures none { IfNone result ((i : ℕ) → slot_waits i self.now ≡ false) }
    {
        match self.pending() {
            Some(pending) => pending.waits_at(),
            None => None,
        }
    }

    /// Whether its request is held.
    pub(crate) fn is_held(&self) -> bool
        ensures { result ≡ is_some (pending_of self.now) }
    {
        matches!(self, HeldSlot::Held(_))
    }

    /// The number of its request, which may have been dropped.
    pub(crate) fn number(&self) -> u64
        ensures { result ≡ slot_number self.now }
    {
        match self {
            HeldSlot::Held(pending) => pending.number(),
            HeldSlot::LetGo { number } => *number,
        }
    }

    /// The number of its request, if it is held.
    pub(crate) fn held_number(&self) -> Option<u64>
        ensures { result ≡ number_held self.now }
    {
        match self {
            HeldSlot::Held(pending) => Some(pending.number()),
            HeldSlot::LetGo { .. } => None,
        }
    }

    /// Its request waits for something else, where it has this number.
    pub(crate) fn restand(&mut self, number: u64, stand: Stand)
        ensures { self.new ≡ slot_restood number (stand_of stand) self.old }
    {
        match self {
            HeldSlot::Held(pending) => pending.restand(number, stand),
            HeldSlot::LetGo { .. } => {}
        }
    }

    /// Its request is to be closed, where this server holds it, which restarted in the event with this number.
    pub(crate) fn end(&mut self, server: u32, event: u64)
        ensures { self.new ≡ slot_ended server event self.old }
    {
        match self {
            HeldSlot::Held(pending) => pending.end(server, event),
            HeldSlot::LetGo { .. } => {}
        }
    }
}
