//! Whether keys were removed that are still to be reaped.

ghost use Rattle.std.specs.Prelude.{◌≡◌, ◌++◌, [], ◌∷◌, List};
ghost use Rattle.std.specs.List.{list_any};
ghost use Rattle.cat_model.specs.Channels.{fires};
ghost use Rattle.cat_model.specs.Indexes.{is_reap};
ghost use Rattle.cat_model.specs.Machine.{catalog_at};
ghost use Rattle.cat_model.specs.declared.command.Command.{Command as SpecCommand};
ghost use Rattle.catalog_store.specs.Firing.{FiresJust};
ghost use Rattle.cluster_rules.specs.Offices.{has_removed};
ghost use Rattle.applied_state.specs.Removing.{is_gone};

use cat_model::{Chan, Command};
use catalog_store::Store;
use kv_table::KvTable;

// The channel is that of a key that is not there.
fn is_gone(keys: &KvTable, chan: &Chan) -> bool
    ensures { result ≡ is_gone keys.now.now.rows chan.now }
{
    match chan {
        Chan::Key(key) => keys.get(key.as_str()).is_none(),
        _ => false,
    }
}

// One of the channels is that of a key that is not there.
fn some_gone(keys: &KvTable, chans: &[Chan]) -> bool
    ensures { result ≡ list_any (is_gone keys.now.now.rows) chans.now }
{
    chans.iter().any(|chan| is_gone(keys, chan))
}

fn is_reap(command: &Command) -> bool
    ensures { result ≡ is_reap command.now }
{
    matches!(command, Command::Reap)
}

/// Whether a key was removed after the last reap, once the command is applied as the last one, which fired these
/// channels: it is no reap, and a key that it fired is not there now, so that it removed it, or one was removed before.
#[tactic(auto, using(crate::proofs::Gone::removed_now))]
pub(crate) fn has_removed(was: bool, command: &Command, chans: &[Chan], store: &Store) -> bool
    ensures { (past : List SpecCommand) → store.now ≡ past ++ command.now ∷ [] → was ≡ has_removed past → FiresJust (fires (catalog_at past) command.now (catalog_at (past ++ command.now ∷ []))) chans.now
        → result ≡ has_removed (past ++ command.now ∷ []) }
{
    !is_reap(command) && (some_gone(store.kv(), chans) || was)
}
