// Rooms where those sleep whose tickets are not called yet.
ghost use Rattle.std.specs.Prelude.{◌≡◌, vec_len};

use crossbeam_utils::CachePadded;
use crossbeam_utils::sync::{EventCount, Key};
use std::alloc::{AllocError, Global};

// The number of wait queues. It divides 2^64, so that the rooms go on in turn where the tickets begin again at 0.
const ROOMS: usize = 1_024;

/// The rooms of a lock. A ticket's room is told by the rest that it leaves.
#[derive(Drop)]
pub(crate) struct WaitingRooms {
    rooms: Vec<CachePadded<EventCount>>,
    ghost many: { vec_len rooms ≡ 1024 },
}

impl WaitingRooms {
    /// Empty rooms.
    pub(crate) fn new(alloc: Global) -> Result<WaitingRooms, AllocError> {
        let mut rooms = Vec::with_capacity(alloc, ROOMS)?;
        for _ in 0..ROOMS {
            rooms.push(CachePadded::new(EventCount::new()))?;
        }
        Ok(WaitingRooms { rooms })
    }

    /// Enters the room of a ticket. Whoever enters then looks once more whether the ticket is called, and sleeps in the
    /// room by `wait` of the key, or drops the key.
    pub(crate) fn enter(&self, ticket: u64) -> Key<'_> {
        self.room_of(ticket).prepare_wait()
    }

    /// Wakes those in the room of a ticket, if there are any.
    pub(crate) fn wake(&self, ticket: u64) {
        self.room_of(ticket).notify_all();
    }

    fn room_of(&self, ticket: u64) -> &EventCount {
        &self.rooms[(ticket % ROOMS as u64) as usize]
    }
}
