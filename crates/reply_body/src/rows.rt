//! The rows of keys and their names.

ghost use Rattle.std.specs.Prelude.{◌≡◌, IfOk};
ghost use Rattle.serde_json.specs.Data.{string};
ghost use Rattle.serde_json.specs.View.{view};
ghost use Rattle.reply_body.specs.Bodies as spec;
ghost use Rattle.row_objects.specs.Objects.{names_data};
ghost use Rattle.reply_body.specs.Reads.{shown_bytes, shown_rows, shown_value, shown_names};

use crate::json::{id_text, listed, plain, written};
use crate::shown::Shown;
use base64::engine::general_purpose::STANDARD;
use cat_model::{Bytes, Form, KvRow, Memory, Text};
use serde_json::{Value, json};
use std::alloc::{AllocError, Global};

// A value in base64, or null where it is empty.
fn value_json(alloc: Global, value: &[u8]) -> Result<Value, AllocError>
    ensures { IfOk result (λ json. view json ≡ spec.value_data value.now) }
{
    if value.is_empty() {
        Ok(Value::Null)
    } else {
        Ok(Value::String(STANDARD.encode(alloc, value)?))
    }
}

/// A row with this in place of its value.
#[tactic(auto, unfolding(crate::specs::Bodies::row_data))]
pub(crate) fn row_json(alloc: Global, row: &KvRow) -> Result<Value, AllocError>
    ensures { IfOk result (λ json. view json ≡ spec.row_data row.now) }
{
    let value = value_json(alloc, row.value.as_slice())?;
    match row.session {
        None => json!(in alloc; {
            "CreateIndex": row.create,
            "Flags": row.flags,
            "Key": row.key.as_str(),
            "LockIndex": row.lock_index,
            "ModifyIndex": row.modify,
            "Value": value
        }),
        Some(id) => {
            let session = id_text(alloc, id)?;
            json!(in alloc; {
                "CreateIndex": row.create,
                "Flags": row.flags,
                "Key": row.key.as_str(),
                "LockIndex": row.lock_index,
                "ModifyIndex": row.modify,
                "Session": session.as_str(),
                "Value": value
            })
        }
    }
}

#[tactic(auto, unfolding(crate::specs::Bodies::rows_data))]
fn rows_json(alloc: Global, rows: &[KvRow]) -> Result<Value, AllocError>
    ensures { IfOk result (λ json. view json ≡ spec.rows_data rows.now) }
{
    listed(alloc, rows, |row| row_json(alloc, row))
}

fn name_json(alloc: Global, name: &Text) -> Result<Value, AllocError>
    ensures { IfOk result (λ json. view json ≡ string name.now) }
{
    Ok(Value::String(String::from_str(alloc, name.as_str())?))
}

/// The array of these texts.
#[tactic(auto, unfolding(row_objects::specs::Objects::names_data))]
pub(crate) fn names_json(alloc: Global, names: &[Text]) -> Result<Value, AllocError>
    ensures { IfOk result (λ json. view json ≡ names_data names.now) }
{
    listed(alloc, names, |name| name_json(alloc, name))
}

/// The rows of keys, of which there is nothing to show where there are none.
#[tactic(auto, using(crate::proofs::Plain::rows_plain))]
pub(crate) fn rows_shown(alloc: Global, rows: &[KvRow]) -> Result<Shown, Memory>
    ensures { IfOk result (λ shown. shown ≡ shown_rows rows.now) }
{
    if rows.is_empty() {
        return plain(alloc, 404, "");
    }
    let json = rows_json(alloc, rows)?;
    written(alloc, 200, &json)
}

// The bytes of a value. No bytes are a plain text, as any empty body is.
fn raw_shown(alloc: Global, value: &[u8]) -> Result<Shown, Memory>
    ensures { IfOk result (λ shown. shown ≡ shown_bytes value.now) }
{
    if value.is_empty() {
        return plain(alloc, 200, "");
    }
    Ok(Shown {
        status: 200,
        body: Bytes::new(alloc, value)?,
        form: Form::Octets,
    })
}

/// The bytes of the first row's value.
pub(crate) fn value_shown(alloc: Global, rows: &[KvRow]) -> Result<Shown, Memory>
    ensures { IfOk result (λ shown. shown ≡ shown_value rows.now) }
{
    match rows.first() {
        None => plain(alloc, 404, ""),
        Some(row) => raw_shown(alloc, row.value.as_slice()),
    }
}

/// The names of keys. Where there are none, only the empty prefix shows the empty list.
#[tactic(auto, using(crate::proofs::Plain::names_plain))]
pub(crate) fn names_shown(alloc: Global, prefix: &Text, names: &[Text]) -> Result<Shown, Memory>
    ensures { IfOk result (λ shown. shown ≡ shown_names prefix.now names.now) }
{
    if names.is_empty() && prefix.len() != 0 {
        return plain(alloc, 404, "");
    }
    let json = names_json(alloc, names)?;
    written(alloc, 200, &json)
}
