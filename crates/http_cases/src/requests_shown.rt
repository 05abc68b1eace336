//! Requests in the words of a case. A value is the number of its bytes.

use crate::queries;
use crate::texts::{put_texts, shown, status};
use anyhow::Result;
use cat_model::{AgentOp, Command, Mode, Request};
use std::alloc::Global;

fn mode(mode: Mode) -> &'static str {
    match mode {
        Mode::Default => "default",
        Mode::Consistent => "consistent",
        Mode::Stale => "stale",
    }
}

/// `read MODE INDEX WAIT VALUE QUERY`, where VALUE is `raw` or `row`; `execute NAME LIMIT MODE`; `renew ID`; or a command
/// or an agent's operation.
pub fn request(alloc: Global, request: &Request) -> Result<String> {
    match request {
        Request::Read {
            query,
            mode: how,
            min,
            wait_ms,
            raw,
        } => {
            let how = mode(*how);
            let form = if *raw { "raw" } else { "row" };
            let mut out = format!(in alloc; "read {how} {min} {wait_ms} {form} ")?;
            queries::put_query(alloc, &mut out, query)?;
            Ok(out)
        }
        Request::Execute {
            name,
            limit,
            mode: how,
        } => {
            let name = shown(name);
            let how = mode(*how);
            Ok(format!(in alloc; "execute {name} {limit} {how}")?)
        }
        Request::Write { command } => written(alloc, command),
        Request::Renew { id } => Ok(format!(in alloc; "renew {id}")?),
        Request::Agent(op) => operation(alloc, op),
    }
}

// A command on keys as its name, its key and its numbers; any other by `other_command`.
fn written(alloc: Global, command: &Command) -> Result<String> {
    match command {
        Command::KvSet { key, flags, value } => {
            let key = shown(key);
            let bytes = value.len();
            Ok(format!(in alloc; "set {key} {flags} {bytes}")?)
        }
        Command::KvCas {
            key,
            flags,
            value,
            index,
        } => {
            let key = shown(key);
            let bytes = value.len();
            Ok(format!(in alloc; "cas {key} {flags} {bytes} {index}")?)
        }
        Command::KvLock {
            key,
            flags,
            value,
            session,
        } => {
            let key = shown(key);
            let bytes = value.len();
            Ok(format!(in alloc; "lock {key} {flags} {bytes} {session}")?)
        }
        Command::KvUnlock {
            key,
            flags,
            value,
            session,
        } => {
            let key = shown(key);
            let bytes = value.len();
            Ok(format!(in alloc; "unlock {key} {flags} {bytes} {session}")?)
        }
        Command::KvDelete { key } => {
            let key = shown(key);
            Ok(format!(in alloc; "delete {key}")?)
        }
        other => other_command(alloc, other),
    }
}

fn other_command(alloc: Global, command: &Command) -> Result<String> {
    match command {
        Command::KvDeleteCas { key, index } => {
            let key = shown(key);
            Ok(format!(in alloc; "delete-cas {key} {index}")?)
        }
        Command::KvDeleteTree { prefix } => {
            let prefix = shown(prefix);
            Ok(format!(in alloc; "delete-tree {prefix}")?)
        }
        Command::Txn { ops } => {
            let count = ops.len();
            Ok(format!(in alloc; "txn {count}")?)
        }
        Command::Register { node, address, .. } => {
            let node = shown(node);
            let address = shown(address);
            Ok(format!(in alloc; "register {node} {address}")?)
        }
        Command::Deregister {
            node,
            service,
            check,
        } => {
            let node = shown(node);
            let service = shown(service);
            let check = shown(check);
            Ok(format!(in alloc; "deregister {node} {service} {check}")?)
        }
        Command::Upgrade => Ok(String::from_str(alloc, "upgrade")?),
        other => named_by_id(alloc, other),
    }
}

// `session ID NAME NODE DELAY TTL CHECKS`, `query ID create|update NAME SERVICE`, or what removes one.
fn named_by_id(alloc: Global, command: &Command) -> Result<String> {
    match command {
        Command::SessionCreate {
            id,
            name,
            node,
            checks,
            behavior: _,
            delay_ms,
            ttl_ms,
        } => {
            let name = shown(name);
            let node = shown(node);
            let mut out = format!(in alloc; "session {id} {name} {node} {delay_ms} {ttl_ms} ")?;
            put_texts(&mut out, checks.as_slice())?;
            Ok(out)
        }
        Command::SessionDestroy { id } => Ok(format!(in alloc; "destroy {id}")?),
        Command::QuerySet {
            id,
            create,
            name,
            service,
            ..
        } => {
            let what = if *create { "create" } else { "update" };
            let name = shown(name);
            let service = shown(service);
            Ok(format!(in alloc; "query {id} {what} {name} {service}")?)
        }
        Command::QueryDelete { id } => Ok(format!(in alloc; "delete-query {id}")?),
        _ => Ok(String::from_str(alloc, "another command")?),
    }
}

// `agent`, and then what it is asked.
fn operation(alloc: Global, op: &AgentOp) -> Result<String> {
    match op {
        AgentOp::Services => Ok(String::from_str(alloc, "agent services")?),
        AgentOp::Checks => Ok(String::from_str(alloc, "agent checks")?),
        AgentOp::AddService { service, checks } => {
            let id = shown(&service.id);
            let name = shown(&service.name);
            let count = checks.len();
            Ok(format!(in alloc; "agent service {id} {name} {count}")?)
        }
        AgentOp::DropService { id } => {
            let id = shown(id);
            Ok(format!(in alloc; "agent drop-service {id}")?)
        }
        AgentOp::AddCheck { check } => {
            let id = shown(&check.id);
            let ttl = check.ttl_ms;
            Ok(format!(in alloc; "agent check {id} {ttl}")?)
        }
        AgentOp::DropCheck { id } => {
            let id = shown(id);
            Ok(format!(in alloc; "agent drop-check {id}")?)
        }
        AgentOp::Mark {
            id,
            status: new,
            output,
        } => {
            let id = shown(id);
            let new = status(*new);
            let output = shown(output);
            Ok(format!(in alloc; "agent mark {id} {new} {output}")?)
        }
    }
}
