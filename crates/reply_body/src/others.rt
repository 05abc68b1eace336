//! What executions, renewals, agents' answers and delayed writes show.

ghost use Rattle.std.specs.Prelude.{◌≡◌, ◌∷◌, ◌&&◌, [], IfOk};
ghost use Rattle.std.specs.List.{position};
ghost use Rattle.serde_json.specs.Data.{array};
ghost use Rattle.serde_json.specs.View.{view, items_of};
ghost use Rattle.cat_model.specs.Keys.{same_text};
ghost use Rattle.cluster_rules.specs.Locks.{is_lock};
ghost use Rattle.reply_body.specs.Rows.{session_data};
ghost use Rattle.reply_body.specs.Bodies.{json as json_body};
ghost use Rattle.reply_body.specs.Others as spec;

use crate::catalog::healths_json;
use crate::json::{plain, written};
use crate::sessions::{duration, session_json};
use crate::shown::Shown;
use crate::writes::no;
use cat_model::{Bytes, Command, Form, Memory, Ran, SessionRow, Text, TxnOp, Verb};
use serde_json::{Value, json};
use std::alloc::{AllocError, Global};

#[tactic(auto, unfolding(crate::specs::Others::ran_data))]
fn ran_json(alloc: Global, ran: &Ran) -> Result<Value, AllocError>
    ensures { IfOk result (λ json. view json ≡ spec.ran_data ran.now) }
{
    let ttl = duration(alloc, ran.dns_ttl_ms)?;
    let nodes = healths_json(alloc, ran.nodes.as_slice(), None)?;
    json!(in alloc; {
        "DNS": { "TTL": ttl.as_str() },
        "Datacenter": "dc1",
        "Failovers": 0u32,
        "Nodes": nodes,
        "Service": ran.service.as_str()
    })
}

/// The execution of a prepared query, if there is one.
#[tactic(auto, using(crate::proofs::Plain::ran_plain))]
pub(crate) fn ran_body(alloc: Global, ran: &Option<Ran>) -> Result<Shown, Memory>
    ensures { IfOk result (λ shown. shown ≡ spec.shown_ran ran.now) }
{
    match ran {
        None => plain(alloc, 404, "Query not found"),
        Some(ran) => {
            let json = ran_json(alloc, ran)?;
            written(alloc, 200, &json)
        }
    }
}

fn renewed_json(alloc: Global, row: &SessionRow) -> Result<Value, AllocError>
    ensures { IfOk result (λ json. view json ≡ array (items_of (session_data row.now ∷ []))) }
{
    let session = session_json(alloc, row)?;
    json!(in alloc; [session])
}

/// The session that was renewed, if there is one, in a list.
#[tactic(auto, using(crate::proofs::Plain::renewed_plain))]
pub(crate) fn renewal_body(alloc: Global, row: &Option<SessionRow>) -> Result<Shown, Memory>
    ensures { IfOk result (λ shown. shown ≡ spec.shown_renewal row.now) }
{
    match row {
        None => plain(alloc, 404, "Session not found"),
        Some(row) => {
            let json = renewed_json(alloc, row)?;
            written(alloc, 200, &json)
        }
    }
}

/// An agent's rows as JSON. Nothing of a change is a plain text, as any empty body is.
pub(crate) fn agent_body(alloc: Global, body: &Bytes) -> Result<Shown, Memory>
    ensures { IfOk result (λ shown. shown ≡ spec.shown_rows_of_agent body.now) }
{
    if body.len() == 0 {
        return plain(alloc, 200, "");
    }
    Ok(Shown {
        status: 200,
        body: Bytes::new(alloc, body.as_slice())?,
        form: Form::Json,
    })
}

// The operation locks this key.
fn locks(op: &TxnOp, key: &Text) -> bool
    ensures { result ≡ (is_lock op.now.verb && same_text op.now.key key.now) }
{
    matches!(op.verb, Verb::Lock) && op.key.as_str() == key.as_str()
}

// The first operation that locks the key.
fn first_locking(key: &Text, ops: &[TxnOp]) -> Option<usize>
    ensures { result ≡ position (λ o. is_lock o.verb && same_text o.key key.now) ops.now }
{
    ops.iter().position(|op| locks(op, key))
}

// How many operations stand before it.
fn locking_place(key: &Text, ops: &[TxnOp]) -> usize
    ensures { result ≡ spec.locking_place key.now 0 ops.now }
{
    match first_locking(key, ops) {
        Some(at) => at,
        None => ops.len(),
    }
}

#[tactic(auto, unfolding(crate::specs::Others::delay_data))]
fn delay_json(alloc: Global, op: usize) -> Result<Value, AllocError>
    ensures { IfOk result (λ json. view json ≡ spec.delay_data op) }
{
    json!(in alloc; {
        "Errors": [{ "OpIndex": op, "What": "lock delay" }],
        "Results": null
    })
}

#[tactic(auto, using(crate::proofs::Plain::delay_plain))]
fn delayed(alloc: Global, key: &Text, ops: &[TxnOp]) -> Result<Shown, Memory>
    ensures { IfOk result (λ shown. shown ≡ json_body 409 (spec.delay_data (spec.locking_place key.now 0 ops.now))) }
{
    let json = delay_json(alloc, locking_place(key, ops))?;
    written(alloc, 409, &json)
}

/// A write that the lock delay of a key refused.
pub(crate) fn delay_body(alloc: Global, command: &Command, key: &Text) -> Result<Shown, Memory>
    ensures { IfOk result (λ shown. shown ≡ spec.shown_delay command.now key.now) }
{
    match command {
        Command::Txn { ops } => delayed(alloc, key, ops.as_slice()),
        _ => no(alloc),
    }
}
