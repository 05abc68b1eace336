//! Sessions and prepared queries.

ghost use Rattle.std.specs.Prelude.{◌≡◌, IfOk, map, string_bytes};
ghost use Rattle.serde_json.specs.Data.{array};
ghost use Rattle.serde_json.specs.View.{view, items_of};
ghost use Rattle.reply_body.specs.Rows.{behavior_text, duration_text, nanoseconds, session_data, id_or_none, query_data};

use crate::json::{id_text, listed};
use crate::rows::names_json;
use cat_model::{Behavior, QueryRow, SessionRow};
use serde_json::{Value, json};
use std::alloc::{AllocError, Global};

fn behavior_name(behavior: Behavior) -> &'static str
    ensures { result.now ≡ behavior_text behavior }
{
    match behavior {
        Behavior::Release => "release",
        Behavior::Delete => "delete",
    }
}

/// A time in milliseconds, which is empty where there is none.
pub(crate) fn duration(alloc: Global, ms: u64) -> Result<String, AllocError>
    ensures { IfOk result (λ text. string_bytes text ≡ duration_text ms) }
{
    if ms == 0 {
        return Ok(String::new(alloc));
    }
    if ms % 1000 == 0 {
        let seconds = ms / 1000;
        return format!(in alloc; "{seconds}s");
    }
    format!(in alloc; "{ms}ms")
}

fn delay_in_nanoseconds(ms: u64) -> u64
    ensures { result ≡ nanoseconds ms }
{
    ms.saturating_mul(1_000_000)
}

#[tactic(auto, unfolding(crate::specs::Rows::session_data))]
pub(crate) fn session_json(alloc: Global, row: &SessionRow) -> Result<Value, AllocError>
    ensures { IfOk result (λ json. view json ≡ session_data row.now) }
{
    let checks = names_json(alloc, row.checks.as_slice())?;
    let id = id_text(alloc, row.id)?;
    let ttl = duration(alloc, row.ttl_ms)?;
    json!(in alloc; {
        "Behavior": behavior_name(row.behavior),
        "Checks": checks,
        "CreateIndex": row.create,
        "ID": id.as_str(),
        "LockDelay": delay_in_nanoseconds(row.delay_ms),
        "ModifyIndex": row.modify,
        "Name": row.name.as_str(),
        "Node": row.node.as_str(),
        "TTL": ttl.as_str()
    })
}

// The identifier, or the empty text.
fn id_if_any(alloc: Global, id: Option<u128>) -> Result<String, AllocError>
    ensures { IfOk result (λ text. string_bytes text ≡ id_or_none id) }
{
    match id {
        None => Ok(String::new(alloc)),
        Some(id) => id_text(alloc, id),
    }
}

#[tactic(auto, unfolding(crate::specs::Rows::query_data))]
fn query_json(alloc: Global, row: &QueryRow) -> Result<Value, AllocError>
    ensures { IfOk result (λ json. view json ≡ query_data row.now) }
{
    let tags = names_json(alloc, row.tags.as_slice())?;
    let id = id_text(alloc, row.id)?;
    let session = id_if_any(alloc, row.session)?;
    let ttl = duration(alloc, row.dns_ttl_ms)?;
    json!(in alloc; {
        "CreateIndex": row.create,
        "DNS": { "TTL": ttl.as_str() },
        "ID": id.as_str(),
        "ModifyIndex": row.modify,
        "Name": row.name.as_str(),
        "Service": {
            "OnlyPassing": row.only_passing,
            "Service": row.service.as_str(),
            "Tags": tags
        },
        "Session": session.as_str()
    })
}

pub(crate) fn sessions_json(alloc: Global, items: &[SessionRow]) -> Result<Value, AllocError>
    ensures { IfOk result (λ json. view json ≡ array (items_of (map session_data items.now))) }
{
    listed(alloc, items, |item| session_json(alloc, item))
}

pub(crate) fn queries_json(alloc: Global, items: &[QueryRow]) -> Result<Value, AllocError>
    ensures { IfOk result (λ json. view json ≡ array (items_of (map query_data items.now))) }
{
    listed(alloc, items, |item| query_json(alloc, item))
}
