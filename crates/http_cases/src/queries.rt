//! Queries in the words of a case.

use crate::texts::{put_texts, shown, status};
use anyhow::Result;
use cat_model::{Query, Text, Texts};
use std::alloc::Global;

fn put_named(alloc: Global, out: &mut String, what: &str, name: &Text) -> Result<()> {
    let name = shown(name);
    out.push_str(format!(in alloc; "{what} {name}")?.as_str())?;
    Ok(())
}

fn put_service(
    alloc: Global,
    out: &mut String,
    what: &str,
    name: &Text,
    tags: &Texts,
) -> Result<()> {
    put_named(alloc, out, what, name)?;
    out.push_str(" ")?;
    put_texts(out, tags.as_slice())
}

/// The query's kind, and then its parameters.
pub fn put_query(alloc: Global, out: &mut String, query: &Query) -> Result<()> {
    match query {
        Query::Nodes => out.push_str("nodes")?,
        Query::Services => out.push_str("services")?,
        Query::Sessions => out.push_str("sessions")?,
        Query::Queries => out.push_str("queries")?,
        Query::Service { name, tags } => put_service(alloc, out, "service", name, tags)?,
        Query::HealthService {
            name,
            tags,
            passing,
        } => {
            put_service(alloc, out, "health-service", name, tags)?;
            out.push_str(if *passing { " passing" } else { " any" })?;
        }
        Query::HealthState { state } => {
            out.push_str("health-state ")?;
            out.push_str(match state {
                None => "any",
                Some(state) => status(*state),
            })?;
        }
        Query::SessionInfo { id } => out.push_str(format!(in alloc; "session {id}")?.as_str())?,
        Query::QueryInfo { id } => out.push_str(format!(in alloc; "query {id}")?.as_str())?,
        other => put_keyed(alloc, out, other)?,
    }
    Ok(())
}

fn put_keyed(alloc: Global, out: &mut String, query: &Query) -> Result<()> {
    match query {
        Query::NodeServices { node } => put_named(alloc, out, "node-services", node),
        Query::HealthChecks { name } => put_named(alloc, out, "health-checks", name),
        Query::HealthNode { node } => put_named(alloc, out, "health-node", node),
        Query::SessionsOf { node } => put_named(alloc, out, "sessions-of", node),
        Query::Key { key } => put_named(alloc, out, "key", key),
        Query::Prefix { prefix } => put_named(alloc, out, "prefix", prefix),
        Query::Keys { prefix, separator } => {
            put_named(alloc, out, "keys", prefix)?;
            let separator = shown(separator);
            out.push_str(format!(in alloc; " {separator}")?.as_str())?;
            Ok(())
        }
        _ => {
            out.push_str("another query")?;
            Ok(())
        }
    }
}
