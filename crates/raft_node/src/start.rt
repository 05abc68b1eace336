//! How a server begins, and begins again.

ghost use Rattle.std.specs.Prelude.{◌≡◌, ◌⊎◌, IfErr, IfOk, OnErr, OnOk};
ghost use Rattle.std.specs.Option.{ForSome};
ghost use Rattle.raft_model.specs.Step.{RestartFails, RestartWorks, Starts};
ghost use Rattle.raft_node.specs.Nodes.{KeepsLimits};
ghost use Rattle.raft_node.specs.Steps.{FailsToLoad, stored};

use crate::counted::Counted;
use crate::node::Node;
use crate::state::State;
use cat_model::{Memory, Role};
use outside::{KeepFail, Keeper};
use std::alloc::Global;

impl<K: Keeper + Drop> Node<K> {
    /// Server `id`, from 1, of so many servers begins with what its store holds: as a follower that has committed
    /// nothing. Where the store can't be read, it is handed back.
    pub fn start(
        alloc: Global,
        id: u32,
        servers: u32,
        mut keeper: K,
    ) -> Result<Node<K>, (K, KeepFail)>
        requires { ForSome (K.held keeper) KeepsLimits }
        ensures ok { IfOk result (λ node. Starts id servers (stored (K.held keeper) (K.armed keeper) (K.faults keeper) (K.sure keeper)) node) }
        ensures err { IfErr result (λ why. FailsToLoad why.1 (stored (K.held keeper) (K.armed keeper) (K.faults keeper) (K.sure keeper)) (stored (K.held why.0) (K.armed why.0) (K.faults why.0) (K.sure why.0))) }
    {
        match keeper.load(alloc) {
            Ok(kept) => Ok(Node {
                keeper,
                state: State {
                    id,
                    servers,
                    term: kept.term,
                    vote: kept.vote,
                    commit: 0,
                    role: Role::Follower,
                    leader: None,
                    halted: false,
                    votes: Vec::new(alloc),
                    round: 0,
                    next: Vec::new(alloc),
                    matched: Vec::new(alloc),
                    acked: Vec::new(alloc),
                },
                log: kept.log,
                counted: Counted::none(),
            }),
            Err(fail) => Err((keeper, fail)),
        }
    }

    /// Reads the store anew: the node is a follower that has committed nothing. Where the store fails, it halts, and
    /// where there is no memory, it is as before.
    pub fn restart(&mut self, alloc: Global) -> Result<(), Memory>
        ensures ok { OnOk result (RestartWorks self.old self.new ⊎ RestartFails self.old self.new) }
        ensures memory { OnErr result (self.new ≡ self.old) }
    {
        match self.keeper.load(alloc) {
            Ok(kept) => {
                self.state.begin(kept.term, kept.vote);
                self.log = kept.log;
                self.counted = Counted::none();
                Ok(())
            }
            Err(KeepFail::Failed) => {
                self.state.halt();
                self.state.commit = 0;
                Ok(())
            }
            Err(KeepFail::Memory) => Err(Memory),
        }
    }
}
