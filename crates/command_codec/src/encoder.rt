ghost use Rattle.std.specs.Prelude.{◌≡◌, ◌++◌, ◌∷◌, [], OnErr, OnOk};
ghost use Rattle.std.specs.List.{concat, fold};
ghost use Rattle.cat_model.specs.Spelling.{behavior_bytes, fields_of, number_bytes, spelling, tag_of, text_bytes, version_of};
ghost use Rattle.command_codec.specs.Kinds.{IsOnCatalog, IsOnKeys, IsOnQueries, IsOnSessions};

use crate::out::Out;
use crate::parts::{put_flag, put_id, put_number, put_session, put_text, put_texts, put_value};
use crate::records::{put_checks, put_ops, put_service_if_any};
use cat_model::{Behavior, Bytes, Command, Memory, Text};
use std::alloc::Global;

fn behavior_byte(behavior: Behavior) -> u8
    ensures { behavior_bytes behavior ≡ result ∷ [] }
{
    match behavior {
        Behavior::Release => 0,
        Behavior::Delete => 1,
    }
}

fn version_byte(command: &Command) -> u8
    ensures { result ≡ version_of command.now }
{
    match command {
        Command::Upgrade => 2,
        _ => 1,
    }
}

fn tag_byte(command: &Command) -> u8
    ensures { result ≡ tag_of command.now }
{
    match command {
        Command::Noop => 0,
        Command::Register { .. } => 1,
        Command::Deregister { .. } => 2,
        Command::KvSet { .. } => 3,
        Command::KvCas { .. } => 4,
        Command::KvLock { .. } => 5,
        Command::KvUnlock { .. } => 6,
        Command::KvDelete { .. } => 7,
        Command::KvDeleteCas { .. } => 8,
        Command::KvDeleteTree { .. } => 9,
        Command::Txn { .. } => 10,
        Command::SessionCreate { .. } => 11,
        Command::SessionDestroy { .. } => 12,
        Command::QuerySet { .. } => 13,
        Command::QueryDelete { .. } => 14,
        Command::Reap => 15,
        Command::Upgrade => 16,
    }
}

fn put_catalog_fields<O: Out>(out: &mut O, command: &Command) -> Result<(), O::Fault>
    requires { IsOnCatalog command.now }
    ensures { OnOk result (O.seen out.new ≡ fold O.after (O.seen out.old) (concat (fields_of command.now))) }
{
    match command {
        Command::Register {
            node,
            address,
            service,
            checks,
        } => {
            put_text(out, node)?;
            put_text(out, address)?;
            put_service_if_any(out, service)?;
            put_checks(out, checks)
        }
        Command::Deregister {
            node,
            service,
            check,
        } => {
            put_text(out, node)?;
            put_text(out, service)?;
            put_text(out, check)
        }
        _ => unreachable!(),
    }
}

fn put_row<O: Out>(out: &mut O, key: &Text, flags: u64, value: &Bytes) -> Result<(), O::Fault>
    ensures { OnOk result (O.seen out.new ≡ fold O.after (O.seen out.old) (concat (text_bytes key.now ∷ number_bytes flags ∷ text_bytes value.now ∷ []))) }
{
    put_text(out, key)?;
    put_number(out, flags)?;
    put_value(out, value)
}

fn put_key_fields<O: Out>(out: &mut O, command: &Command) -> Result<(), O::Fault>
    requires { IsOnKeys command.now }
    ensures { OnOk result (O.seen out.new ≡ fold O.after (O.seen out.old) (concat (fields_of command.now))) }
{
    match command {
        Command::KvSet { key, flags, value } => put_row(out, key, *flags, value),
        Command::KvCas {
            key,
            flags,
            value,
            index,
        } => {
            put_row(out, key, *flags, value)?;
            put_number(out, *index)
        }
        Command::KvLock {
            key,
            flags,
            value,
            session,
        }
        | Command::KvUnlock {
            key,
            flags,
            value,
            session,
        } => {
            put_row(out, key, *flags, value)?;
            put_id(out, *session)
        }
        Command::KvDelete { key } | Command::KvDeleteTree { prefix: key } => put_text(out, key),
        Command::KvDeleteCas { key, index } => {
            put_text(out, key)?;
            put_number(out, *index)
        }
        _ => unreachable!(),
    }
}

fn put_session_fields<O: Out>(out: &mut O, command: &Command) -> Result<(), O::Fault>
    requires { IsOnSessions command.now }
    ensures { OnOk result (O.seen out.new ≡ fold O.after (O.seen out.old) (concat (fields_of command.now))) }
{
    match command {
        Command::SessionCreate {
            id,
            name,
            node,
            checks,
            behavior,
            delay_ms,
            ttl_ms,
        } => {
            put_id(out, *id)?;
            put_text(out, name)?;
            put_text(out, node)?;
            put_texts(out, checks)?;
            out.put_byte(behavior_byte(*behavior))?;
            put_number(out, *delay_ms)?;
            put_number(out, *ttl_ms)
        }
        Command::SessionDestroy { id } => put_id(out, *id),
        _ => unreachable!(),
    }
}

fn put_query_fields<O: Out>(out: &mut O, command: &Command) -> Result<(), O::Fault>
    requires { IsOnQueries command.now }
    ensures { OnOk result (O.seen out.new ≡ fold O.after (O.seen out.old) (concat (fields_of command.now))) }
{
    match command {
        Command::QuerySet {
            id,
            create,
            name,
            session,
            service,
            only_passing,
            tags,
            dns_ttl_ms,
        } => {
            put_id(out, *id)?;
            put_flag(out, *create)?;
            put_text(out, name)?;
            put_session(out, *session)?;
            put_text(out, service)?;
            put_flag(out, *only_passing)?;
            put_texts(out, tags)?;
            put_number(out, *dns_ttl_ms)
        }
        Command::QueryDelete { id } => put_id(out, *id),
        _ => unreachable!(),
    }
}

fn put_fields<O: Out>(out: &mut O, command: &Command) -> Result<(), O::Fault>
    ensures { OnOk result (O.seen out.new ≡ fold O.after (O.seen out.old) (concat (fields_of command.now))) }
{
    match command {
        Command::Noop | Command::Reap | Command::Upgrade => Ok(()),
        Command::Register { .. } | Command::Deregister { .. } => put_catalog_fields(out, command),
        Command::KvSet { .. }
        | Command::KvCas { .. }
        | Command::KvLock { .. }
        | Command::KvUnlock { .. }
        | Command::KvDelete { .. }
        | Command::KvDeleteCas { .. }
        | Command::KvDeleteTree { .. } => put_key_fields(out, command),
        Command::Txn { ops } => put_ops(out, ops),
        Command::SessionCreate { .. } | Command::SessionDestroy { .. } => {
            put_session_fields(out, command)
        }
        Command::QuerySet { .. } | Command::QueryDelete { .. } => put_query_fields(out, command),
    }
}

/// Puts the spelling of the command last.
pub fn put_command<O: Out>(out: &mut O, command: &Command) -> Result<(), O::Fault>
    ensures { OnOk result (O.seen out.new ≡ fold O.after (O.seen out.old) (spelling command.now)) }
{
    out.put_byte(version_byte(command))?;
    out.put_byte(tag_byte(command))?;
    put_fields(out, command)
}

/// Puts the spelling of the command last. After lack of memory `out` is as before.
pub fn encode(alloc: Global, command: &Command, out: &mut Bytes) -> Result<(), Memory>
    ensures ok { OnOk result (out.new ≡ out.old ++ spelling command.now) }
    ensures err { OnErr result (out.new ≡ out.old) }
{
    let mut bytes = Vec::new(alloc);
    put_command(&mut bytes, command)?;
    out.extend(&bytes)
}
