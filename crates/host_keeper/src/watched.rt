//! Durable stores whose logs are watched: standard error says once that one is nearly full, and once that it is full.

ghost use Rattle.std.specs.Prelude.{◌≡◌};

use crate::gauge::{Fill, Gauge};
use crate::tally::Tally;
use cat_model::{Entry, Kept, List};
use file_keeper::{MOST_BYTES, MOST_ENTRIES};
use outside::{KeepFail, Keeper};
use serve_outside::{Folder, Keepers};
use std::alloc::Global;

// What is known of the log of this server, and was said of it.
#[derive(Drop)]
struct Watch<R> {
    rt: R,
    server: u32,
    tally: Tally,
    gauge: Gauge,
    // There was no memory to count its entries: nothing is said until all are counted anew.
    lost: bool,
}

impl<R: Eprint> Watch<R> {
    // Takes note of entries that were stored from the index on.
    fn note(&mut self, index: u64, entries: &[Entry]) {
        if self.tally.replace(index, entries).is_err() {
            self.lost = true;
        }
        if self.lost {
            return;
        }
        let fill = self.gauge.tell(self.tally.entries(), self.tally.bytes());
        if let Some(fill) = fill {
            self.say(fill);
        }
    }

    // Takes note of a log that was read.
    fn begin(&mut self, log: &[Entry]) {
        self.lost = false;
        self.note(1, log);
    }

    // Says on standard error how full the log is. Where that fails there is nobody left to tell.
    fn say(&self, fill: Fill) {
        let server = self.server;
        let entries = self.tally.entries();
        let bytes = self.tally.bytes();
        let (is, then) = match fill {
            Fill::Nearly => ("90 % full", "a full log takes no writes"),
            Fill::Full => ("full", "it takes no more writes"),
        };
        let _ = eprintln!(self.rt;
            "catalogd: the log of server {server} is {is}: {entries} of {MOST_ENTRIES} entries, {bytes} of {MOST_BYTES} bytes; {then}"
        );
    }
}

/// A durable store that says on standard error when its log is nearly full, and when it is full.
#[derive(Drop)]
pub struct WatchedKeeper<K, R> {
    keeper: K,
    watch: Watch<R>,
}

impl<K: Keeper + Drop, R: Eprint + Drop> WatchedKeeper<K, R> {
    // The store of this server, which was not read yet.
    fn new(alloc: Global, rt: R, server: u32, keeper: K) -> WatchedKeeper<K, R>
        ensures { result.keeper ≡ keeper }
    {
        let watch = Watch {
            rt,
            server,
            tally: Tally::new(alloc),
            gauge: Gauge::new(),
            lost: false,
        };
        WatchedKeeper { keeper, watch }
    }

    // The store that was watched.
    fn into_keeper(self) -> K
        ensures { result ≡ self.keeper }
    {
        self.keeper
    }
}

impl<K: Keeper + Drop, R: Eprint + Drop> Keeper for WatchedKeeper<K, R> {
    ghost held = { λ s. K.held s.keeper };

    ghost faults = { λ s. K.faults s.keeper };

    ghost armed = { λ s. K.armed s.keeper };

    ghost sure = { λ s. K.sure s.keeper };

    fn load(&mut self, alloc: Global) -> Result<Kept, KeepFail> {
        let kept = self.keeper.load(alloc)?;
        self.watch.begin(kept.log.as_slice());
        Ok(kept)
    }

    fn save_vote(&mut self, alloc: Global, term: u64, vote: Option<u32>) -> Result<(), KeepFail> {
        self.keeper.save_vote(alloc, term, vote)
    }

    fn store_from(
        &mut self,
        alloc: Global,
        index: u64,
        entries: &List<Entry>,
    ) -> Result<(), KeepFail> {
        self.keeper.store_from(alloc, index, entries)?;
        self.watch.note(index, entries.as_slice());
        Ok(())
    }

    fn fail_at(&mut self, nth: u32) {
        self.keeper.fail_at(nth)
    }
}

/// Makes the stores that others make, and watches their logs.
#[derive(Drop)]
pub struct WatchedKeepers<M, R> {
    keepers: M,
    rt: R,
}

impl<M, R> WatchedKeepers<M, R> {
    /// What makes stores as these do, and says on standard error how full their logs are.
    pub fn new(keepers: M, rt: R) -> WatchedKeepers<M, R>
        ensures { result ≡ record { keepers = keepers; rt = rt } }
    {
        WatchedKeepers { keepers, rt }
    }

    /// What makes the stores.
    pub fn keepers(&self) -> &M
        ensures { result.now ≡ self.now.keepers }
    {
        &self.keepers
    }
}

impl<M: Keepers, R: Eprint + Copy + Drop + Send + 'static> Keepers for WatchedKeepers<M, R> {
    type K = WatchedKeeper<M::K, R>;

    ghost faults = { λ k. M.faults k.keepers };

    ghost made = { λ k. M.made k.keepers };

    fn make(
        &mut self,
        alloc: Global,
        folder: &Option<Folder<'_>>,
        server: u32,
    ) -> Result<WatchedKeeper<M::K, R>, KeepFail> {
        let keeper = self.keepers.make(alloc, folder, server)?;
        Ok(WatchedKeeper::new(alloc, self.rt, server, keeper))
    }

    fn close(&mut self, server: u32, store: WatchedKeeper<M::K, R>) {
        self.keepers.close(server, store.into_keeper())
    }
}
