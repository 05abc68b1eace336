ghost use Rattle.std.specs.Prelude.{◌≡◌, ◌↔◌, [], ◌∷◌, ◌++◌, IsErrOf, IsTrue, OnErr, OnOk, Some};
ghost use Rattle.outside.specs.Causes.{counted};
ghost use Rattle.outside.specs.InMemory.{is_listed as is_listed_of};
ghost use Rattle.node_service.specs.Dialers.{brought};

use crate::dialer::{Dialer, Piece};
use cat_model::{Bytes, List};
use outside::{KeepFail, is_listed};
use std::alloc::Global;

/// A dialer in memory, which keeps the pieces that it took. A call that finds no memory has no number.
#[derive(Drop)]
pub struct MemDialer {
    alloc: Global,
    // The numbers of the calls that fail, counted from 1.
    failing: List<u64>,
    calls: u64,
    faults: u64,
    took: Vec<Piece>,
}

impl MemDialer {
    /// A dialer whose calls with these numbers, counted from 1, fail.
    pub fn new(alloc: Global, failing: List<u64>) -> MemDialer
        ensures state { ⟦<MemDialer as Dialer>⟧.state result ≡ record { faults = 0; took = Some [] } }
        ensures calls { (result.failing ≡ failing) × (result.calls ≡ 0) }
    {
        MemDialer {
            alloc,
            failing,
            calls: 0,
            faults: 0,
            took: Vec::new(alloc),
        }
    }

    /// The pieces that it took, in order.
    pub fn took(&self) -> &[Piece]
        ensures { Some result.now ≡ (⟦<MemDialer as Dialer>⟧.state self.now).took }
    {
        self.took.as_slice()
    }

    // Keeps a piece.
    fn keep(&mut self, port: u16, piece: &[u8]) -> Result<(), KeepFail>
        ensures memory { OnErr result ((result ≡ Err KeepFail.Memory) × (self.new.took.items ≡ self.old.took.items)) }
        ensures kept { OnOk result (self.new.took.items ≡ self.old.took.items ++ record { port = port; bytes = piece.now } ∷ []) }
        ensures rest { (self.new.failing ≡ self.old.failing) × (self.new.calls ≡ self.old.calls) × (self.new.faults ≡ self.old.faults) }
    {
        let Ok(bytes) = Bytes::new(self.alloc, piece) else {
            return Err(KeepFail::Memory);
        };
        if self.took.push(Piece { port, bytes }).is_err() {
            return Err(KeepFail::Memory);
        }
        Ok(())
    }
}

impl Dialer for MemDialer {
    ghost use Rattle.std.specs.Prelude.{Some};

    ghost state = { λ d. record { faults = d.faults; took = Some d.took.items } };

    fn send(&mut self, port: u16, piece: &[u8]) -> Result<(), KeepFail>
        ensures brought { ⟦<MemDialer as Dialer>⟧.state self.new ≡ brought (record { port = port; bytes = piece.now }) result (⟦<MemDialer as Dialer>⟧.state self.old) }

        // The listed calls fail, and no other but for lack of memory, which has no number.
        ensures fails { IsErrOf result KeepFail.Failed ↔ IsTrue (is_listed_of self.old.failing (counted self.old.calls)) }
        ensures calls { IsErrOf result KeepFail.Memory → self.new.calls ≡ self.old.calls }
        ensures rest { self.new.failing ≡ self.old.failing }
    {
        let call = self.calls.saturating_add(1);
        if is_listed(&self.failing, call) {
            self.calls = call;
            self.faults = self.faults.saturating_add(1);
            return Err(KeepFail::Failed);
        }
        self.keep(port, piece)?;
        self.calls = call;
        Ok(())
    }
}
