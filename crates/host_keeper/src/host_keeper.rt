use cat_model::{Entry, Kept, List};
use file_keeper::FileKeeper;
use outside::{KeepFail, Keeper, MemKeeper};
use server_journal::Journal;
use std::alloc::Global;

/// A durable store of a server.
#[derive(Drop)]
pub enum HostKeeper<J: Journal> {
    /// It is lost when the process ends.
    Memory(MemKeeper),
    /// It outlives the process.
    File(FileKeeper<J>),
}

impl<J: Journal> Keeper for HostKeeper<J> {
    ghost use Rattle.host_keeper.specs.Stores.{armed_of, faults_of, held_of, sure_of};

    ghost held = { λ s. held_of s };

    ghost faults = { λ s. faults_of s };

    ghost armed = { λ s. armed_of s };

    ghost sure = { λ s. sure_of s };

    fn load(&mut self, alloc: Global) -> Result<Kept, KeepFail> {
        match self {
            HostKeeper::Memory(keeper) => keeper.load(alloc),
            HostKeeper::File(keeper) => keeper.load(alloc),
        }
    }

    fn save_vote(&mut self, alloc: Global, term: u64, vote: Option<u32>) -> Result<(), KeepFail> {
        match self {
            HostKeeper::Memory(keeper) => keeper.save_vote(alloc, term, vote),
            HostKeeper::File(keeper) => keeper.save_vote(alloc, term, vote),
        }
    }

    fn store_from(
        &mut self,
        alloc: Global,
        index: u64,
        entries: &List<Entry>,
    ) -> Result<(), KeepFail> {
        match self {
            HostKeeper::Memory(keeper) => keeper.store_from(alloc, index, entries),
            HostKeeper::File(keeper) => keeper.store_from(alloc, index, entries),
        }
    }

    fn fail_at(&mut self, nth: u32) {
        match self {
            HostKeeper::Memory(keeper) => keeper.fail_at(nth),
            HostKeeper::File(keeper) => keeper.fail_at(nth),
        }
    }
}
