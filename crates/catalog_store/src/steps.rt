//! What each command does to the tables.

ghost use Rattle.std.specs.Prelude.{◌≡◌, ◌≤◌, true, IfOk, length};
ghost use Rattle.cat_model.specs.declared.command.Command.TheVariants.{SessionDestroy, Txn, Upgrade};
ghost use Rattle.catalog_store.specs.Steps.{is_on_keys, Tells};
ghost use Rattle.catalog_store.specs.States.{now_of, before_of};
ghost use Rattle.catalog_store.specs.Standing.{Ready};
ghost use Rattle.catalog_store.specs.Taken.{is_taken};
ghost use Rattle.catalog_store.specs.Whole.{ActsWhole, TablesStep};
ghost use Rattle.catalog_store.specs.Registering.{RowStep, node_of, with_rows};
ghost use Rattle.catalog_table.specs.Steps.{IsRegistration};
ghost use Rattle.catalog_store.specs.Making.{ends_none};

use crate::lost::lost_checks;
use crate::session_ends::end;
use crate::tables::Tables;
use crate::{key_commands, queries, registrations, sessions};
use cat_model::lists::joined;
use cat_model::{Applied, Chan, Command, Fired, List, Memory, Text, TxnOp};
use std::alloc::Global;

// Whether the session that is to acquire a lock is there.
fn is_holder_known(tables: &Tables, command: &Command) -> bool
    ensures { Tells result command.now tables.now.sessions.now }
{
    match command {
        Command::KvLock { session, .. } => sessions::is_known(&tables.sessions, *session),
        _ => false,
    }
}

// Applies a command on keys, a Noop or a Reap.
fn apply_key(
    alloc: Global,
    tables: &mut Tables,
    position: u64,
    command: &Command,
) -> Result<(Applied, List<Chan>), Memory>
    requires ready { Ready position (now_of tables.old) }
    requires kind { is_on_keys command.now ≡ true }
    ensures acts { IfOk result (λ d. ActsWhole position command.now (now_of tables.old) (now_of tables.new) d.0 d.1) }
    ensures before { before_of tables.new ≡ before_of tables.old }
{
    let known = is_holder_known(tables, command);
    key_commands::apply(
        alloc,
        &mut tables.kv,
        tables.version,
        position,
        known,
        command,
    )
}

// Applies a transaction.
fn apply_transaction(
    alloc: Global,
    tables: &mut Tables,
    position: u64,
    ops: &List<TxnOp>,
) -> Result<(Applied, List<Chan>), Memory>
    requires ready { Ready position (now_of tables.old) }
    requires few { length ops.now ≤ 64 }
    ensures acts { IfOk result (λ d. ActsWhole position (Txn ops.now) (now_of tables.old) (now_of tables.new) d.0 d.1) }
    ensures before { before_of tables.new ≡ before_of tables.old }
{
    key_commands::apply_txn(
        alloc,
        &mut tables.kv,
        &tables.sessions,
        tables.version,
        position,
        ops,
    )
}

// Goes on with version 2 of the machine.
fn upgrade(alloc: Global, tables: &mut Tables, position: u64) -> (Applied, List<Chan>)
    requires { Ready position (now_of tables.old) }
    ensures acts { ActsWhole position Upgrade (now_of tables.old) (now_of tables.new) result.0 result.1 }
    ensures before { before_of tables.new ≡ before_of tables.old }
{
    tables.version = 2;
    (Applied::Yes, List::new(alloc))
}

// Applies a command that ends no session.
fn apply_other(
    alloc: Global,
    tables: &mut Tables,
    position: u64,
    command: &Command,
) -> Result<(Applied, List<Chan>), Memory>
    requires ready { Ready position (now_of tables.old) }
    requires taken { is_taken command.now ≡ true }
    requires kind { ends_none command.now ≡ true }
    ensures acts { IfOk result (λ d. ActsWhole position command.now (now_of tables.old) (now_of tables.new) d.0 d.1) }
    ensures kind { ends_none command.now ≡ true }
    ensures before { before_of tables.new ≡ before_of tables.old }
{
    match command {
        Command::SessionCreate { .. } => sessions::create(alloc, tables, position, command),
        Command::QuerySet { .. } => queries::set(alloc, tables, position, command),
        Command::Txn { ops } => apply_transaction(alloc, tables, position, ops),
        Command::QueryDelete { id } => queries::delete(alloc, tables, position, *id),
        Command::Upgrade => Ok(upgrade(alloc, tables, position)),
        _ => apply_key(alloc, tables, position, command),
    }
}

// Applies a Register or a Deregister, before sessions end.
fn change_rows(
    alloc: Global,
    tables: &mut Tables,
    position: u64,
    command: &Command,
    node: &Text,
) -> Result<(Applied, List<Chan>), Memory>
    requires kind { IsRegistration command.now }
    requires node { node_of command.now ≡ node.now }
    requires ready { Ready position (now_of tables.old) }
    ensures step { IfOk result (λ d. RowStep position command.now (now_of tables.old) tables.new.catalog.now tables.new.indexes.now d.0 d.1) }
    ensures others { now_of tables.new ≡ with_rows (now_of tables.old) tables.new.catalog.now tables.new.indexes.now }
    ensures before { before_of tables.new ≡ before_of tables.old }
{
    match command {
        Command::Deregister {
            node,
            service,
            check,
        } => registrations::deregister(alloc, tables, position, node, service, check),
        _ => registrations::register(alloc, tables, position, command, node),
    }
}

// Applies a Register or a Deregister. The sessions of its node that are broken then end.
fn apply_rows(
    alloc: Global,
    tables: &mut Tables,
    position: u64,
    command: &Command,
    node: &Text,
) -> Result<(Applied, Fired), Memory>
    requires kind { IsRegistration command.now }
    requires node { node_of command.now ≡ node.now }
    requires ready { Ready position (now_of tables.old) }
    ensures step { IfOk result (λ d. TablesStep position command.now (now_of tables.old) (now_of tables.new) d.0 d.1) }
    ensures before { before_of tables.new ≡ before_of tables.old }
{
    tables.catalog.in_order();
    let lost = lost_checks(alloc, &tables.catalog, command)?;
    let (answer, chans) = change_rows(alloc, tables, position, command, node)?;
    let gone = sessions::broken_among(
        alloc,
        &tables.sessions,
        &tables.catalog,
        node,
        lost.as_slice(),
    )?;
    let ended = end(alloc, tables, position, gone.as_slice())?;
    let chans = joined(chans, ended.chans)?;
    Ok((
        answer,
        Fired {
            chans,
            freed: ended.freed,
        },
    ))
}

// Ends the session.
fn destroy(
    alloc: Global,
    tables: &mut Tables,
    position: u64,
    id: u128,
) -> Result<(Applied, Fired), Memory>
    requires ready { Ready position (now_of tables.old) }
    ensures step { IfOk result (λ d. TablesStep position (SessionDestroy id) (now_of tables.old) (now_of tables.new) d.0 d.1) }
    ensures before { before_of tables.new ≡ before_of tables.old }
{
    let gone = sessions::named(alloc, &tables.sessions, id)?;
    let fired = end(alloc, tables, position, gone.as_slice())?;
    Ok((Applied::Yes, fired))
}

/// Applies the command to the tables.
pub(crate) fn step(
    alloc: Global,
    tables: &mut Tables,
    position: u64,
    command: &Command,
) -> Result<(Applied, Fired), Memory>
    requires ready { Ready position (now_of tables.old) }
    requires kind { is_taken command.now ≡ true }
    ensures step { IfOk result (λ d. TablesStep position command.now (now_of tables.old) (now_of tables.new) d.0 d.1) }
    ensures before { before_of tables.new ≡ before_of tables.old }
{
    match command {
        Command::Register { node, .. } => apply_rows(alloc, tables, position, command, node),
        Command::Deregister { node, .. } => apply_rows(alloc, tables, position, command, node),
        Command::SessionDestroy { id } => destroy(alloc, tables, position, *id),
        _ => {
            let (answer, chans) = apply_other(alloc, tables, position, command)?;
            let freed = List::new(alloc);
            Ok((answer, Fired { chans, freed }))
        }
    }
}
