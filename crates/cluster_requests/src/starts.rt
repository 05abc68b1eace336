//! What the acts of requests did, which only proofs read.

ghost use Rattle.std.specs.Prelude.{◌≡◌, List, [], ◌∷◌};
ghost use Rattle.std.specs.Borrow.{ftrue};
ghost use Rattle.cluster_requests.specs.declared.pending.Start.{Start as SpecStart};

use crate::pending::Start;
use std::marker::Model;

/// What the acts of requests did, the last one first. It takes no memory, and its calls do nothing at run time.
#[derive(Drop)]
pub struct Starts {
    pub(crate) ghost items: { List SpecStart },
}

impl Model for Starts {
    ghost also_owns = { λ _. ftrue };
}

impl Starts {
    /// No act.
    pub fn new() -> Starts
        ensures { result.items ≡ [] }
    {
        Starts {}
    }

    /// One act more.
    pub fn with(&self, start: &Start) -> Starts
        ensures { result.items ≡ start.now ∷ self.now.items }
    {
        let _ = start;
        Starts {}
    }
}
