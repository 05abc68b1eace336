//! What the catalog's answers to writes show.

ghost use Rattle.std.specs.Prelude.{◌≡◌, ◌++◌, IfOk, codes, false, true};
ghost use Rattle.serde_json.specs.View.{view};
ghost use Rattle.reply_body.specs.Bodies as spec;
ghost use Rattle.reply_body.specs.Writes.{id_data, shown_bool, shown_row, result_data, results_data, failure_data, shown_done, shown_refuse, shown_write, verb_text};

use crate::json::{id_text, listed, plain, written};
use crate::rows::row_json;
use crate::shown::Shown;
use cat_model::{Applied, Bytes, Command, Form, KvRow, List, Memory, Refuse, TxnResult, Verb};
use serde_json::{Value, json};
use std::alloc::{AllocError, Global};

fn yes(alloc: Global) -> Result<Shown, Memory>
    ensures { IfOk result (λ shown. shown ≡ shown_bool true) }
{
    Ok(Shown {
        status: 200,
        body: Bytes::new(alloc, b"true")?,
        form: Form::Json,
    })
}

/// That a write was not done.
pub(crate) fn no(alloc: Global) -> Result<Shown, Memory>
    ensures { IfOk result (λ shown. shown ≡ shown_bool false) }
{
    Ok(Shown {
        status: 200,
        body: Bytes::new(alloc, b"false")?,
        form: Form::Json,
    })
}

#[tactic(auto, unfolding(crate::specs::Writes::id_data))]
fn id_json(alloc: Global, id: u128) -> Result<Value, AllocError>
    ensures { IfOk result (λ json. view json ≡ id_data id) }
{
    let text = id_text(alloc, id)?;
    json!(in alloc; { "ID": text.as_str() })
}

#[tactic(auto, using(crate::proofs::Plain::id_plain))]
fn made(alloc: Global, id: u128) -> Result<Shown, Memory>
    ensures { IfOk result (λ shown. shown ≡ spec.json 200 (id_data id)) }
{
    let json = id_json(alloc, id)?;
    written(alloc, 200, &json)
}

fn done(alloc: Global, command: &Command) -> Result<Shown, Memory>
    ensures { IfOk result (λ shown. shown ≡ shown_done command.now) }
{
    match command {
        Command::SessionCreate { id, .. } => made(alloc, *id),
        Command::QuerySet { id, create, .. } => {
            if *create {
                made(alloc, *id)
            } else {
                plain(alloc, 200, "")
            }
        }
        Command::QueryDelete { .. } => plain(alloc, 200, ""),
        _ => yes(alloc),
    }
}

fn refused(alloc: Global, why: Refuse) -> Result<Shown, Memory>
    ensures { IfOk result (λ shown. shown ≡ shown_refuse why) }
{
    match why {
        Refuse::MissingNode => plain(alloc, 500, "Missing node"),
        Refuse::MissingService => plain(alloc, 500, "Missing service"),
        Refuse::MissingCheck => plain(alloc, 500, "Missing check"),
        Refuse::CriticalCheck => plain(alloc, 500, "Critical check"),
        Refuse::UnknownSession => plain(alloc, 500, "Unknown session"),
        Refuse::NameTaken => plain(alloc, 500, "Name taken"),
        Refuse::IdTaken => plain(alloc, 500, "ID taken"),
        Refuse::UnknownQuery => plain(alloc, 404, "Query not found"),
    }
}

fn verb_name(verb: Verb) -> &'static str
    ensures { result.now ≡ verb_text verb }
{
    match verb {
        Verb::Set => "set",
        Verb::Cas => "cas",
        Verb::Lock => "lock",
        Verb::Unlock => "unlock",
        Verb::Get => "get",
        Verb::GetOrEmpty => "get-or-empty",
        Verb::GetTree => "get-tree",
        Verb::CheckIndex => "check-index",
        Verb::CheckSession => "check-session",
        Verb::CheckNotExists => "check-not-exists",
        Verb::Delete => "delete",
        Verb::DeleteTree => "delete-tree",
        Verb::DeleteCas => "delete-cas",
    }
}

#[tactic(auto, unfolding(crate::specs::Writes::failure_data))]
fn failure_json(alloc: Global, op: u32, verb: Verb) -> Result<Value, AllocError>
    ensures { IfOk result (λ json. view json ≡ failure_data op verb) }
{
    let name = verb_name(verb);
    let what = format!(in alloc; "{name} failed")?;
    json!(in alloc; {
        "Errors": [{ "OpIndex": op, "What": what.as_str() }],
        "Results": null
    })
}

#[tactic(auto, using(crate::proofs::Plain::failure_plain))]
fn rolled_back(alloc: Global, op: u32, verb: Verb) -> Result<Shown, Memory>
    ensures { IfOk result (λ shown. shown ≡ spec.json 409 (failure_data op verb)) }
{
    let json = failure_json(alloc, op, verb)?;
    written(alloc, 409, &json)
}

// The row as the result shows it, with its value or without one.
fn row_of(alloc: Global, item: &TxnResult) -> Result<KvRow, AllocError>
    ensures { IfOk result (λ row. row ≡ shown_row item.now) }
{
    let row = item.row.clone()?;
    if item.with_value {
        Ok(row)
    } else {
        let value = Bytes::from(Vec::new(alloc));
        Ok(KvRow { value, ..row })
    }
}

#[tactic(auto, unfolding(crate::specs::Writes::result_data))]
fn result_json(alloc: Global, item: &TxnResult) -> Result<Value, AllocError>
    ensures { IfOk result (λ json. view json ≡ result_data item.now) }
{
    let row = row_of(alloc, item)?;
    let row = row_json(alloc, &row)?;
    json!(in alloc; { "KV": row })
}

#[tactic(auto, unfolding(crate::specs::Writes::results_data))]
fn results_json(alloc: Global, results: &[TxnResult]) -> Result<Value, AllocError>
    ensures { IfOk result (λ json. view json ≡ results_data results.now) }
{
    let list = listed(alloc, results, |item| result_json(alloc, item))?;
    json!(in alloc; { "Errors": null, "Results": list })
}

#[tactic(auto, using(crate::proofs::Plain::results_plain))]
fn results_shown(alloc: Global, results: &List<TxnResult>) -> Result<Shown, Memory>
    ensures { IfOk result (λ shown. shown ≡ spec.json 200 (results_data results.now)) }
{
    let json = results_json(alloc, results.as_slice())?;
    written(alloc, 200, &json)
}

/// What the catalog's answer to the command shows.
pub(crate) fn write_body(
    alloc: Global,
    command: &Command,
    applied: &Applied,
) -> Result<Shown, Memory>
    ensures { IfOk result (λ shown. shown ≡ shown_write command.now applied.now) }
{
    match applied {
        Applied::Done => done(alloc, command),
        Applied::Yes => yes(alloc),
        Applied::No => no(alloc),
        Applied::Results(results) => results_shown(alloc, results),
        Applied::RolledBack { op, verb } => rolled_back(alloc, *op, *verb),
        Applied::Refused(why) => refused(alloc, *why),
    }
}
