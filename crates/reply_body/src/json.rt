//! Pieces of bodies.

ghost use Rattle.std.specs.Prelude.{◌≡◌, List, Bool, Result, Ok, IfOk, false, string_bytes, map, filter};
ghost use Rattle.std.specs.Fn.{FnReturnsAt};
ghost use Rattle.serde_json.specs.Data.{Data, array};
ghost use Rattle.serde_json.specs.View.{view, items_of};
ghost use Rattle.serde_json.specs.Written.{compact_text, has_float};
ghost use Rattle.reply_body.specs.Bodies as spec;

use crate::shown::Shown;
use cat_model::{Bytes, Form, Memory};
use serde_json::Value;
use std::alloc::{AllocError, Global};
use uuid::Uuid;

/// A plain text.
pub(crate) fn plain(alloc: Global, status: u16, text: &str) -> Result<Shown, Memory>
    ensures { IfOk result (λ shown. shown ≡ spec.plain status text.now) }
{
    Ok(Shown {
        status,
        body: Bytes::new(alloc, text.as_bytes())?,
        form: Form::Plain,
    })
}

/// The text of a value that has no number with a fraction.
fn text_of(alloc: Global, json: &Value) -> Result<Bytes, AllocError>
    requires { has_float (view json.now) ≡ false }
    ensures { IfOk result (λ bytes. bytes ≡ compact_text (view json.now)) }
{
    Ok(Bytes::from(json.to_vec(alloc)?))
}

/// A body of JSON, without numbers with a fraction.
pub(crate) fn written(alloc: Global, status: u16, json: &Value) -> Result<Shown, Memory>
    requires { has_float (view json.now) ≡ false }
    ensures { IfOk result (λ shown. shown ≡ spec.json status (view json.now)) }
{
    Ok(Shown {
        status,
        body: text_of(alloc, json)?,
        form: Form::Json,
    })
}

/// An identifier in the form of RFC 9562.
pub(crate) fn id_text(alloc: Global, id: u128) -> Result<String, AllocError>
    ensures { IfOk result (λ text. string_bytes text ≡ spec.id_text id) }
{
    let mut buffer = Uuid::encode_buffer();
    let text = Uuid::from_u128(id).hyphenated().encode_lower(&mut buffer);
    String::from_str(alloc, text)
}

/// The array of what is made of each item.
pub(crate) fn listed<T, F: Fn(&T) -> Result<Value, AllocError>>(
    alloc: Global,
    items: &[T],
    make: F,
) -> Result<Value, AllocError>
    requires { F.IsAlwaysCallable make }
    ensures { IfOk result (λ json. (f : T → Data) → ((x : T) (y : Value) → FnReturnsAt F.Fn make x (Ok y) → view y ≡ f x) → view json ≡ array (items_of (map f items.now))) }
{
    let mut all = Vec::new(alloc);
    for item in items {
        all.push(make(item)?)?;
    }
    Ok(Value::Array(all))
}

/// The array of what is made of each item that passes the test, in their order.
pub(crate) fn listed_where<T, P: Fn(&T) -> bool, F: Fn(&T) -> Result<Value, AllocError>>(
    alloc: Global,
    items: &[T],
    passes: P,
    make: F,
) -> Result<Value, AllocError>
    requires test { P.IsAlwaysCallable passes }
    requires make { F.IsAlwaysCallable make }
    ensures { IfOk result (λ json. (p : T → Bool) (f : T → Data) → ((x : T) (b : Bool) → FnReturnsAt P.Fn passes x b → b ≡ p x) → ((x : T) (y : Value) → FnReturnsAt F.Fn make x (Ok y) → view y ≡ f x) → view json ≡ array (items_of (map f (filter p items.now)))) }
{
    let mut kept = Vec::new(alloc);
    for item in items {
        if passes(item) {
            kept.push(make(item)?)?;
        }
    }
    Ok(Value::Array(kept))
}
