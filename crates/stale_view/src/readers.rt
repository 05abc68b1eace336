//! The readers that the viewers of a pair share.

ghost use Rattle.std.specs.Prelude.{◌≡◌, [], IfOk};
ghost use Rattle.std.specs.Arc.{arc_value};

use crate::history::Front;
use crate::names::PairName;
use crate::rule::{SideReader, SideWriter};
use cat_model::Memory;
use crossbeam_queue::RuledArrayQueue;
use crossbeam_queue::protocol::Free;
use std::alloc::Global;
use std::sync::Arc;

/// A place for one reader, which is there while nobody reads by it.
#[derive(Drop)]
pub(crate) struct Slot<J: PairName> {
    queue: RuledArrayQueue<SideReader<J>, (), Free>,
}

/// The readers of a pair, each in a place of its own, and the beginning of its history that has nothing in it.
#[derive(Drop)]
pub struct Readers<J: PairName> {
    slots: Vec<Slot<J>>,
    pub(crate) empty: Front,
}

impl<J: PairName> Slot<J> {
    fn new(alloc: Global, reader: SideReader<J>) -> Result<Slot<J>, Memory> {
        let (queue, pass) = RuledArrayQueue::ruled(alloc, 1)?;
        drop(pass);
        let slot = Slot { queue };
        slot.put(reader);
        Ok(slot)
    }

    // The reader, if nobody reads by it.
    fn take(&self) -> Option<SideReader<J>> {
        let mut pass = self.queue.pass();
        self.queue.try_pop_as::<Free>(&mut pass)
    }

    /// Puts back the reader that was taken. There is room for it, and nobody else puts anything here.
    pub(crate) fn put(&self, reader: SideReader<J>) {
        let mut pass = self.queue.pass();
        drop(self.queue.try_push_as::<Free>(&mut pass, reader));
    }
}

impl<J: PairName> Readers<J> {
    /// So many readers of what the writer shows.
    pub(crate) fn new(
        alloc: Global,
        writer: &SideWriter<J>,
        empty: &Front,
        places: u32,
    ) -> Result<Arc<Readers<J>, Global>, Memory>
        ensures { IfOk result (λ r. (arc_value r).empty ≡ empty.now) }
    {
        let mut slots = Vec::new(alloc);
        for _ in 0..places {
            match writer.factory().reader() {
                Ok(reader) => slots.push(Slot::new(alloc, reader)?)?,
                Err(_) => return Err(Memory),
            }
        }
        let readers = Readers {
            slots,
            empty: empty.again(),
        };
        Ok(Arc::new(alloc, readers)?)
    }

    /// A reader by which nobody reads, with its place.
    pub(crate) fn take(&self) -> Option<(&Slot<J>, SideReader<J>)> {
        for slot in self.slots.iter() {
            if let Some(reader) = slot.take() {
                return Some((slot, reader));
            }
        }
        None
    }
}
