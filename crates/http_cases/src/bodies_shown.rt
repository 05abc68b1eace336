//! What bodies ask for, in the words of a case.

use crate::texts::{put_texts, shown, status};
use anyhow::Result;
use cat_model::{AgentOp, Behavior, Command, List, NewCheck, NewService, TtlDef, TxnOp};
use json_bodies::{CheckUpdate, NewQuery, NewSession};
use std::alloc::Global;

fn put_service(alloc: Global, out: &mut String, service: &NewService) -> Result<()> {
    let id = shown(&service.id);
    let name = shown(&service.name);
    let address = shown(&service.address);
    let port = service.port;
    out.push_str(format!(in alloc; " service {id} {name} {address} {port} ")?.as_str())?;
    put_texts(out, service.tags.as_slice())
}

fn put_checks(alloc: Global, out: &mut String, checks: &[NewCheck]) -> Result<()> {
    for check in checks {
        let id = shown(&check.id);
        let name = shown(&check.name);
        let status = status(check.status);
        let service = shown(&check.service);
        out.push_str(format!(in alloc; " check {id} {name} {status} {service}")?.as_str())?;
    }
    Ok(())
}

/// `NODE ADDRESS`, then `service ID NAME ADDRESS PORT TAGS`, and `check ID NAME STATUS SERVICE` for each; or
/// `NODE SERVICE CHECK`.
pub fn command(alloc: Global, command: &Command) -> Result<String> {
    match command {
        Command::Register {
            node,
            address,
            service,
            checks,
        } => {
            let node = shown(node);
            let address = shown(address);
            let mut out = format!(in alloc; "{node} {address}")?;
            if let Some(service) = service {
                put_service(alloc, &mut out, service)?;
            }
            put_checks(alloc, &mut out, checks.as_slice())?;
            Ok(out)
        }
        Command::Deregister {
            node,
            service,
            check,
        } => {
            let node = shown(node);
            let service = shown(service);
            let check = shown(check);
            Ok(format!(in alloc; "{node} {service} {check}")?)
        }
        _ => Ok(String::from_str(alloc, "another command")?),
    }
}

/// `NAME NODE BEHAVIOR DELAY TTL CHECKS`.
pub fn session(alloc: Global, session: &NewSession) -> Result<String> {
    let name = shown(&session.name);
    let node = shown(&session.node);
    let behavior = match session.behavior {
        Behavior::Release => "release",
        Behavior::Delete => "delete",
    };
    let delay = session.delay_ms;
    let ttl = session.ttl_ms;
    let mut out = format!(in alloc; "{name} {node} {behavior} {delay} {ttl} ")?;
    put_texts(&mut out, session.checks.as_slice())?;
    Ok(out)
}

/// How many operations, and then `KEY INDEX` and the number of the value's bytes of each.
pub fn transaction(alloc: Global, ops: &List<TxnOp>) -> Result<String> {
    let count = ops.len();
    let mut out = format!(in alloc; "{count}")?;
    for op in ops.as_slice() {
        let key = shown(&op.key);
        let index = op.index;
        let bytes = op.value.len();
        out.push_str(format!(in alloc; " {key} {index} {bytes}")?.as_str())?;
    }
    Ok(out)
}

/// `NAME SERVICE any|passing TTL TAGS`, and the session's identifier where it has one.
pub fn query(alloc: Global, query: &NewQuery) -> Result<String> {
    let name = shown(&query.name);
    let service = shown(&query.service);
    let passing = if query.only_passing { "passing" } else { "any" };
    let ttl = query.dns_ttl_ms;
    let mut out = format!(in alloc; "{name} {service} {passing} {ttl} ")?;
    put_texts(&mut out, query.tags.as_slice())?;
    if let Some(session) = query.session {
        out.push_str(format!(in alloc; " {session}")?.as_str())?;
    }
    Ok(out)
}

fn put_ttl_check(alloc: Global, out: &mut String, check: &TtlDef) -> Result<()> {
    let id = shown(&check.id);
    let name = shown(&check.name);
    let service = shown(&check.service);
    let status = status(check.status);
    let ttl = check.ttl_ms;
    out.push_str(format!(in alloc; "{id};{name};{service};{status};{ttl}")?.as_str())?;
    Ok(())
}

/// `ID NAME PORT`, and then each check as `ID;NAME;SERVICE;STATUS;TTL`.
pub fn agent_service(alloc: Global, op: &AgentOp) -> Result<String> {
    let AgentOp::AddService { service, checks } = op else {
        return Ok(String::from_str(alloc, "another operation")?);
    };
    let id = shown(&service.id);
    let name = shown(&service.name);
    let port = service.port;
    let mut out = format!(in alloc; "{id} {name} {port}")?;
    for check in checks.as_slice() {
        out.push_str(" ")?;
        put_ttl_check(alloc, &mut out, check)?;
    }
    Ok(out)
}

/// `ID;NAME;SERVICE;STATUS;TTL`.
pub fn agent_check(alloc: Global, check: &TtlDef) -> Result<String> {
    let mut out = String::new(alloc);
    put_ttl_check(alloc, &mut out, check)?;
    Ok(out)
}

/// `STATUS OUTPUT`.
pub fn update(alloc: Global, update: &CheckUpdate) -> Result<String> {
    let status = status(update.status);
    let output = shown(&update.output);
    Ok(format!(in alloc; "{status} {output}")?)
}
