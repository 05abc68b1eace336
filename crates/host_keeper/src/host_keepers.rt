ghost use Rattle.std.specs.Prelude.{◌≡◌, ◌+◌, ◌≤◌, None, Some, true, IfOk, IsErrOf, MatchResult};
ghost use Rattle.std.specs.Option.{ForSome, option_map};
ghost use Rattle.cat_model.specs.Keeping.{nothing_kept};
ghost use Rattle.outside.specs.Causes.{Rose, counted};
ghost use Rattle.outside.specs.Keepers.{KeepHasCause};
ghost use Rattle.file_keeper.specs.Journal.{kept_of};
ghost use Rattle.serve_outside.specs.Stores.{KeepsLimits, also_made, made_for};
ghost use Rattle.host_keeper.specs.Folders.{Fits, Tells, bytes_in, first_of};
ghost use Rattle.host_keeper.specs.Stores.{armed_of, faults_of, held_of, sure_of, untold};

use crate::faults::Refusal;
use crate::files::JournalFiles;
use crate::folder::open_journal;
use crate::host_keeper::HostKeeper;
use crate::scan::fault_in;
use crate::stores::over;
use cat_model::List;
use outside::{KeepFail, MemKeeper};
use serve_outside::{Folder, Keepers};
use std::alloc::Global;

/// Makes the stores of so many servers: in memory without a folder, and with one in its files. The folder is made where it
/// is not there. One that another process has open is refused, and one that shows that it was made for another number of
/// servers.
#[derive(Drop)]
pub struct HostKeepers<F> {
    alloc: Global,
    files: F,
    servers: u32,
    // The first file with which no server could begin.
    refusal: Option<Refusal>,
    faults: u64,
}

impl<F> HostKeepers<F> {
    /// What makes stores of these servers. It has made none yet.
    pub fn new(alloc: Global, files: F, servers: u32) -> HostKeepers<F>
        ensures { result ≡ record { alloc = alloc; files = files; servers = servers; refusal = None; faults = 0 } }
    {
        HostKeepers {
            alloc,
            files,
            servers,
            refusal: None,
            faults: 0,
        }
    }

    /// The first file with which no server could begin, if there was any.
    pub fn refusal(&self) -> Option<&Refusal>
        ensures { option_map (λ r. r.now) result ≡ self.now.refusal }
    {
        self.refusal.as_ref()
    }

    // Counts a fault, and remembers the first file that shows why.
    fn count(&mut self, refusal: Option<Refusal>)
        ensures counts { self.new ≡ record self.old { refusal = first_of self.old.refusal refusal; faults = counted self.old.faults } }
        ensures later { (self.old.faults ≤ self.new.faults) × (self.new.faults ≤ self.old.faults + 1) }
    {
        self.faults = self.faults.saturating_add(1);
        if self.refusal.is_none() {
            self.refusal = refusal;
        }
    }

    // What comes of a file that was refused.
    fn refuse(&mut self, refusal: Refusal) -> KeepFail
        ensures failed { result ≡ KeepFail.Failed → Rose self.old.faults self.new.faults × (self.new.refusal ≡ first_of self.old.refusal (Some refusal)) }
        ensures memory { result ≡ KeepFail.Memory → self.new ≡ self.old }
        ensures later { (self.old.faults ≤ self.new.faults) × (self.new.faults ≤ self.old.faults + 1) }
    {
        if refusal.is_want_of_memory() {
            return KeepFail::Memory;
        }
        self.count(Some(refusal));
        KeepFail::Failed
    }
}

impl<F: JournalFiles> Keepers for HostKeepers<F>
where
    F::J: Send + 'static,
{
    ghost use Rattle.host_keeper.specs.Stores.{untold};

    type K = HostKeeper<F::J>;

    ghost faults = { λ k. k.faults };

    ghost made = { λ _. untold };

    fn make(
        &mut self,
        alloc: Global,
        folder: &Option<Folder<'_>>,
        server: u32,
    ) -> Result<HostKeeper<F::J>, KeepFail>
        ensures unused { IfOk result (λ store. (armed_of store ≡ 0) × (faults_of store ≡ 0)) }
        ensures limits { IfOk result (λ store. ForSome (held_of store) KeepsLimits) }
        ensures empty { folder.now ≡ None → IfOk result (λ store. (held_of store ≡ Some nothing_kept) × (sure_of store ≡ true)) }
        ensures told { MatchResult result (λ store. untold ≡ also_made untold (made_for folder.now server (held_of store) (armed_of store) (faults_of store) (sure_of store))) (λ _. untold ≡ untold) }
        ensures cause { KeepHasCause self.old.faults self.new.faults result }

        // With a folder the store holds what stands in the file of its server, and the folder fits so many servers.
        ensures kept { IfOk result (λ store. ForSome folder.now (λ name. ForSome (F.files self.old.files) (λ all. held_of store ≡ kept_of (bytes_in (all name server))))) }
        ensures fits { IfOk result (λ _. ForSome folder.now (λ name. ForSome (F.files self.old.files) (λ all. Fits (all name) server self.old.servers))) }

        // A file that is refused has the fault that is told, unless one was told before.
        ensures refused { IsErrOf result KeepFail.Failed → ForSome folder.now (λ name. ForSome (F.files self.old.files) (λ all. Tells (all name) self.old.servers self.old.refusal self.new.refusal)) }
        ensures memory { IsErrOf result KeepFail.Memory → self.new ≡ self.old }
    {
        let Some(folder) = folder else {
            return Ok(HostKeeper::Memory(MemKeeper::new(alloc, List::new(alloc))));
        };
        match open_journal(&self.files, alloc, folder.name(), server, self.servers) {
            Ok(journal) => Ok(HostKeeper::File(over(journal))),
            Err(refusal) => Err(self.refuse(refusal)),
        }
    }

    fn close(&mut self, server: u32, store: HostKeeper<F::J>) {
        let fault = match store {
            HostKeeper::Memory(keeper) => {
                drop(keeper);
                None
            }
            HostKeeper::File(keeper) => {
                let mut journal = keeper.into_journal();
                fault_in(self.alloc, &mut journal)
            }
        };
        self.count(fault.map(|fault| Refusal { server, fault }));
    }
}
