ghost use Rattle.std.specs.Prelude.{◌≡◌, ◌↔◌, ◌<◌, ◌≤◌, ℕ, List, [], ◌∷◌, ◌++◌, map, Option, None, Some, true, IfOk, OnErr, OnOk, IsErrOf, IsTrue, MatchResult};
ghost use Rattle.std.specs.Option.{ForSome};
ghost use Rattle.cat_model.specs.Keeping.{nothing_kept};
ghost use Rattle.outside.specs.Causes.{Rose, counted};
ghost use Rattle.outside.specs.InMemory.{is_listed};
ghost use Rattle.outside.specs.Keepers.{KeepHasCause};
ghost use Rattle.outside.specs.KeepersInMemory.{empty_store};
ghost use Rattle.serve_outside.specs.Stores.{KeepsLimits, Made, also_made, made_empty, made_for};

use cat_model::{List, Memory, Text};
use outside::{KeepFail, Keeper, MemKeeper, is_listed};
use std::alloc::Global;
use std::marker::Model;

/// The name of a folder, which a word of the command line gives.
#[derive(Drop)]
pub struct Folder<'a> {
    name: &'a str,
}

impl<'a> Model for Folder<'a> {
    ghost use Rattle.std.specs.Prelude.{ℕ, List};

    ghost Value = { List ℕ };

    ghost view = { λ f. f.name.now };
}

impl<'a> Folder<'a> {
    pub fn new(name: &'a str) -> Folder<'a>
        ensures { result ≡ name.now }
    {
        Folder { name }
    }

    pub fn name(&self) -> &'a str
        ensures { result.now ≡ self.now }
    {
        self.name
    }
}

/// What makes the durable stores of servers.
pub trait Keepers {
    /// A store that it makes.
    type K: Keeper + Drop + Send + 'static;

    /// How often a call has failed, and each store that came back once more if it has failed.
    ghost faults: { Self → ℕ };

    /// The stores that it made, in order, where it tells them.
    ghost made: { Self → Option (List Made) };

    /// Makes the store of this server. Without a folder it holds nothing, and fails nowhere; with one it holds what was
    /// kept there. After an error none was made.
    fn make(
        &mut self,
        alloc: Global,
        folder: &Option<Folder<'_>>,
        server: u32,
    ) -> Result<Self::K, KeepFail>
        ensures unused { IfOk result (λ store. (Self.K.armed store ≡ 0) × (Self.K.faults store ≡ 0)) }
        ensures limits { IfOk result (λ store. ForSome (Self.K.held store) KeepsLimits) }
        ensures empty { folder.now ≡ None → IfOk result (λ store. (Self.K.held store ≡ Some nothing_kept) × (Self.K.sure store ≡ true)) }
        ensures told { MatchResult result (λ store. made self.new ≡ also_made (made self.old) (made_for folder.now server (Self.K.held store) (Self.K.armed store) (Self.K.faults store) (Self.K.sure store))) (λ _. made self.new ≡ made self.old) }
        ensures cause { KeepHasCause (faults self.old) (faults self.new) result };

    /// Takes back a store of this server, over which it could not begin. If it has failed, that counts here too.
    fn close(&mut self, server: u32, store: Self::K)
        ensures counted { 0 < Self.K.faults store → Rose (faults self.old) (faults self.new) }
        ensures later { faults self.old ≤ faults self.new }
        ensures same { made self.new ≡ made self.old };
}

/// Makes each store that it is asked for, empty and in memory, and tells none of them.
#[derive(Clone, Copy, Debug, PartialEq, Eq)]
pub struct SureKeepers {
    faults: u64,
}

impl SureKeepers {
    /// What has taken no store back yet.
    pub fn new() -> SureKeepers
        ensures { result ≡ record { faults = 0 } }
    {
        SureKeepers { faults: 0 }
    }
}

impl Keepers for SureKeepers {
    ghost use Rattle.std.specs.Prelude.{None};

    type K = MemKeeper;

    ghost faults = { λ k. k.faults };

    ghost made = { λ _. None };

    fn make(
        &mut self,
        alloc: Global,
        _folder: &Option<Folder<'_>>,
        _server: u32,
    ) -> Result<MemKeeper, KeepFail> {
        Ok(MemKeeper::new(alloc, List::new(alloc)))
    }

    fn close(&mut self, _server: u32, store: MemKeeper) {
        drop(store);
        self.faults = self.faults.saturating_add(1);
    }
}

/// A store that was made for a server, in a folder or in none.
#[derive(Debug, Drop)]
pub struct MadeStore {
    pub folder: Option<Text>,
    pub server: u32,
}

// The folder's name, to be kept.
fn name_of(alloc: Global, folder: &Option<Folder<'_>>) -> Result<Option<Text>, Memory>
    ensures { IfOk result (λ name. name ≡ folder.now) }
{
    match folder {
        Some(folder) => match Text::new(alloc, folder.name()) {
            Ok(name) => Ok(Some(name)),
            Err(Memory) => Err(Memory),
        },
        None => Ok(None),
    }
}

/// Makes stores, empty and in memory, but for the calls with the given numbers, counted from 1, which fail. A call that
/// finds no memory has no number.
#[derive(Drop)]
pub struct MemKeepers {
    failing: List<u64>,
    calls: u64,
    faults: u64,
    made: List<MadeStore>,
}

impl MemKeepers {
    /// What has made no store yet. It takes no memory.
    pub fn new(alloc: Global, failing: List<u64>) -> MemKeepers
        ensures { result ≡ record { failing = failing; calls = 0; faults = 0; made = [] } }
    {
        MemKeepers {
            failing,
            calls: 0,
            faults: 0,
            made: List::new(alloc),
        }
    }

    /// The stores that it made, in order.
    pub fn made(&self) -> &[MadeStore]
        ensures { result.now ≡ self.now.made }
    {
        self.made.as_slice()
    }

    // Notes a store that is made.
    fn note(
        &mut self,
        alloc: Global,
        folder: &Option<Folder<'_>>,
        server: u32,
    ) -> Result<(), Memory>
        ensures made { OnOk result (self.new ≡ record self.old { made = self.old.made ++ record { folder = folder.now; server = server } ∷ [] }) }
        ensures same { OnErr result (self.new ≡ self.old) }
    {
        let folder = name_of(alloc, folder)?;
        self.made.push(MadeStore { folder, server })
    }

    // Makes a store, which its caller may find empty.
    fn make_empty(
        &mut self,
        alloc: Global,
        folder: &Option<Folder<'_>>,
        server: u32,
    ) -> Result<MemKeeper, KeepFail>
        ensures empty { IfOk result (λ store. store ≡ empty_store) }
        ensures told { MatchResult result (λ _. self.new.made ≡ self.old.made ++ record { folder = folder.now; server = server } ∷ []) (λ _. self.new.made ≡ self.old.made) }
        ensures cause { KeepHasCause self.old.faults self.new.faults result }
        ensures fails { IsErrOf result KeepFail.Failed ↔ IsTrue (is_listed self.old.failing (counted self.old.calls)) }
        ensures memory { IsErrOf result KeepFail.Memory → self.new ≡ self.old }
        ensures ok_calls { OnOk result (self.new.calls ≡ counted self.old.calls) }
        ensures failed_calls { IsErrOf result KeepFail.Failed → self.new.calls ≡ counted self.old.calls }
        ensures failing { self.new.failing ≡ self.old.failing }
    {
        let call = self.calls.saturating_add(1);
        if is_listed(&self.failing, call) {
            self.calls = call;
            self.faults = self.faults.saturating_add(1);
            return Err(KeepFail::Failed);
        }
        if self.note(alloc, folder, server).is_err() {
            return Err(KeepFail::Memory);
        }
        self.calls = call;
        Ok(MemKeeper::new(alloc, List::new(alloc)))
    }
}

impl Keepers for MemKeepers {
    ghost use Rattle.std.specs.Prelude.{Some, map};
    ghost use Rattle.serve_outside.specs.Stores.{made_empty};

    type K = MemKeeper;

    ghost faults = { λ k. k.faults };

    ghost made = { λ k. Some (map (λ m. made_empty m.folder m.server) k.made) };

    fn make(
        &mut self,
        alloc: Global,
        folder: &Option<Folder<'_>>,
        server: u32,
    ) -> Result<MemKeeper, KeepFail>
        ensures empty { IfOk result (λ store. store ≡ empty_store) }
        ensures told { MatchResult result (λ _. self.new.made ≡ self.old.made ++ record { folder = folder.now; server = server } ∷ []) (λ _. self.new.made ≡ self.old.made) }
        ensures cause { KeepHasCause self.old.faults self.new.faults result }

        // The listed calls fail, and no other.
        ensures fails { IsErrOf result KeepFail.Failed ↔ IsTrue (is_listed self.old.failing (counted self.old.calls)) }
        ensures memory { IsErrOf result KeepFail.Memory → self.new ≡ self.old }
        ensures ok_calls { OnOk result (self.new.calls ≡ counted self.old.calls) }
        ensures failed_calls { IsErrOf result KeepFail.Failed → self.new.calls ≡ counted self.old.calls }
        ensures failing { self.new.failing ≡ self.old.failing }
    {
        self.make_empty(alloc, folder, server)
    }

    fn close(&mut self, _server: u32, store: MemKeeper) {
        drop(store);
        self.faults = self.faults.saturating_add(1);
    }
}
