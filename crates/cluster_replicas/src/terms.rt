//! The terms of what a server has applied.

ghost use Rattle.std.specs.Prelude.{◌≡◌, length};
ghost use Rattle.std.specs.Option.{option_map};
ghost use Rattle.raft_model.specs.Log.{entry_at, last_term, term_at};
ghost use Rattle.raft_world.specs.Steps.{IsNumber};
ghost use Rattle.cluster_rules.specs.Cluster.{server_of};
ghost use Rattle.cluster_replicas.specs.EntryTerms.{term_of};

use crate::servers::Servers;
use cat_model::Entry;
use outside::Keeper;

// The term of an entry that may be there, and 0 where there is none.
fn term_of(found: Option<&Entry>) -> u64
    ensures { result ≡ term_of (option_map (λ entry. entry.now) found.entry) }
{
    match found {
        None => 0,
        Some(entry) => entry.term,
    }
}

impl<K: Keeper> Servers<K> {
    /// The entry at a position that a server has applied, if it has applied so many.
    pub fn applied_entry(&self, s: u32, position: u64) -> Option<&Entry>
        requires { IsNumber s self.now.world }
        ensures { option_map (λ entry. entry.now) result ≡ entry_at position (server_of self.now.servers s).applied }
    {
        if position > self.applied(s) {
            return None;
        }
        self.world.node(s).entry(position)
    }

    /// The term of the entry at a position that a server has applied, and 0 at position 0 and past those.
    #[tactic(auto, using(crate::proofs::Placed::term_there))]
    pub fn term_at(&self, s: u32, position: u64) -> u64
        requires { IsNumber s self.now.world }
        ensures { result ≡ term_at position (server_of self.now.servers s).applied }
    {
        term_of(self.applied_entry(s, position))
    }

    /// The term of the entry that a server applied last, and 0 where it has applied none.
    pub fn last_term(&self, s: u32) -> u64
        requires { IsNumber s self.now.world }
        ensures { result ≡ last_term (server_of self.now.servers s).applied }
    {
        self.term_at(s, self.applied(s))
    }
}
