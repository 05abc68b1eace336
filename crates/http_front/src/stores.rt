//! The durable stores of a server's servers.

ghost use Rattle.std.specs.Prelude.{◌≡◌, ◌⊎◌, ◌<◌, ◌≤◌, [], ◌∷◌, ◌++◌, All, Some, true, IfOk, OnOk, MatchResult, length, map, None};
ghost use Rattle.std.specs.Option.{ForSome};
ghost use Rattle.cat_model.specs.Keeping.{nothing_kept};
ghost use Rattle.outside.specs.Causes.{Rose};
ghost use Rattle.outside.specs.Keepers.{KeepHasCause};
ghost use Rattle.cluster_interface.specs.Starting.{store_of};
ghost use Rattle.serve_outside.specs.Stores.{AddsMade, KeepsLimits, made_from};
ghost use Rattle.http_front.specs.Stores.{HasOneFailed};

use crate::options::Options;
use cat_model::{List, Memory};
use outside::{KeepFail, Keeper};
use serve_outside::Keepers;
use std::alloc::Global;

/// Makes the stores of a server's servers, in the order of their numbers.
pub fn make_stores<Ks: Keepers>(
    alloc: Global,
    keepers: &mut Ks,
    options: &Options<'_>,
) -> Result<List<Ks::K>, KeepFail>
    ensures count { IfOk result (λ stores. length stores ≡ options.now.servers) }
    ensures unused { IfOk result (All (λ k. (Ks.K.armed k ≡ 0) × (Ks.K.faults k ≡ 0))) }
    ensures limits { IfOk result (All (λ k. ForSome (Ks.K.held k) KeepsLimits)) }
    ensures empty { options.now.folder ≡ None → IfOk result (All (λ k. (Ks.K.held k ≡ Some nothing_kept) × (Ks.K.sure k ≡ true))) }
    ensures made { IfOk result (λ stores. AddsMade (Ks.made keepers.old) (Ks.made keepers.new) (made_from options.now.folder 1 (map (λ k. store_of (Ks.K.held k) (Ks.K.armed k) (Ks.K.faults k) (Ks.K.sure k)) stores))) }
    ensures cause { KeepHasCause (Ks.faults keepers.old) (Ks.faults keepers.new) result }
{
    let servers = options.servers;
    let mut stores = List::new(alloc);
    let mut made = 0;
    while made < servers {
        made += 1;
        let store = keepers.make(alloc, &options.folder, made)?;
        let Ok(()) = stores.push(store) else {
            return Err(KeepFail::Memory);
        };
    }
    Ok(stores)
}

/// Gives the stores back to what made them, if one of them has failed.
pub fn give_back<Ks: Keepers>(keepers: &mut Ks, stores: List<Ks::K>)
    requires failed { HasOneFailed (map (λ k. Ks.K.faults k) stores) }
    ensures counted { Rose (Ks.faults keepers.old) (Ks.faults keepers.new) }
    ensures same { Ks.made keepers.new ≡ Ks.made keepers.old }
{
    let mut stores = stores.into_vec();
    let mut server = u32::try_from(stores.len()).unwrap_or(0);
    while let Some(store) = stores.pop() {
        keepers.close(server, store);
        server = server.saturating_sub(1);
    }
}
