//! Bodies, and what they ask for.

use crate::bodies_shown as shown;
use anyhow::{Result, anyhow};
use json_bodies::{
    ReadError, duration, read_agent_check, read_agent_service, read_check_update, read_deregister,
    read_query, read_register, read_session, read_transaction,
};
use std::alloc::Global;

/// What the body of a line asks for.
pub fn given(alloc: Global, said: &str) -> Result<String> {
    let (kind, text) = said.split_once(" ").unwrap_or((said, ""));
    let body = text.as_bytes();
    match kind {
        "register" => match read_register(alloc, body) {
            Ok(command) => shown::command(alloc, &command),
            Err(error) => refused(alloc, error),
        },
        "deregister" => match read_deregister(alloc, body) {
            Ok(command) => shown::command(alloc, &command),
            Err(error) => refused(alloc, error),
        },
        "session" => match read_session(alloc, body) {
            Ok(session) => shown::session(alloc, &session),
            Err(error) => refused(alloc, error),
        },
        "txn" => match read_transaction(alloc, body) {
            Ok(ops) => shown::transaction(alloc, &ops),
            Err(error) => refused(alloc, error),
        },
        "query" => match read_query(alloc, body) {
            Ok(query) => shown::query(alloc, &query),
            Err(error) => refused(alloc, error),
        },
        other => given_to_agent(alloc, other, text),
    }
}

// What the body of a request to an agent asks for, or what a duration is.
fn given_to_agent(alloc: Global, kind: &str, text: &str) -> Result<String> {
    let body = text.as_bytes();
    match kind {
        "agent-service" => match read_agent_service(alloc, body) {
            Ok(op) => shown::agent_service(alloc, &op),
            Err(error) => refused(alloc, error),
        },
        "agent-check" => match read_agent_check(alloc, body) {
            Ok(check) => shown::agent_check(alloc, &check),
            Err(error) => refused(alloc, error),
        },
        "update" => match read_check_update(alloc, body) {
            Ok(update) => shown::update(alloc, &update),
            Err(error) => refused(alloc, error),
        },
        "duration" => match duration(text) {
            Some(ms) => Ok(format!(in alloc; "{ms}")?),
            None => Ok(String::from_str(alloc, "none")?),
        },
        other => Err(anyhow!("no such kind: {other}")),
    }
}

fn refused(alloc: Global, error: ReadError) -> Result<String> {
    match error {
        ReadError::Invalid(field) => {
            let field = field.text();
            Ok(format!(in alloc; "invalid {field}")?)
        }
        ReadError::TooLarge => Ok(String::from_str(alloc, "too large")?),
        ReadError::Memory => Err(anyhow!("out of memory")),
    }
}
