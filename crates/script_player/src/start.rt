ghost use Rattle.std.specs.Prelude.{◌≡◌, IfOk, length};
ghost use Rattle.run_rules.specs.Holds.{IsFirstStart};
ghost use Rattle.script_player.specs.Stage.{IsOpening};

use crate::openings::Opening;
use cat_model::Memory;
use cluster_interface::{ClusterInterface, empty_stores};
use outside::MemKeeper;
use std::alloc::Global;

// The servers and agents that an opening asks for, over empty stores in memory. Such stores are read without fail, but
// for lack of memory.
pub fn start<S: ClusterInterface<K = MemKeeper>>(
    alloc: Global,
    opening: Opening,
) -> Result<S, Memory>
    requires { IsOpening opening }
    ensures first { IfOk result (λ s. IsFirstStart (S.state s)) }
    ensures servers { IfOk result (λ s. length (S.state s).servers ≡ opening.servers) }
    ensures agents { IfOk result (λ s. length (S.state s).agents ≡ opening.agents) }
{
    let stores = empty_stores(alloc, opening.servers)?;
    match S::start(alloc, stores, opening.agents) {
        Ok(servers) => Ok(servers),
        Err((stores, _)) => {
            drop(stores);
            Err(Memory)
        }
    }
}
