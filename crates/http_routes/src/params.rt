//! The parameters of a query.

ghost use Rattle.std.specs.Prelude.{◌≡◌, true, IfOk};
ghost use Rattle.std.specs.Char.{is_ascii_digit};
ghost use Rattle.std.specs.List.{list_all};
ghost use Rattle.std.specs.Option.{option_copied};
ghost use Rattle.json_bodies.specs.Ids.{id_parsed};
ghost use Rattle.http_routes.specs.Errors.{Gives};
ghost use Rattle.http_routes.specs.Params as spec;

use crate::{Parameter, RouteError};
use cat_model::{List, Memory, Text, Texts};
use form_urlencoded::parse;
use std::alloc::Global;
use uuid::Uuid;

/// A parameter, decoded.
#[derive(Debug, Drop)]
pub struct Pair {
    pub name: Text,
    pub value: Text,
}

/// The parameters of a query, in their order.
#[tactic(auto, using(crate::proofs::Pairs::pairs_more))]
pub(crate) fn pairs_in(alloc: Global, query: &[u8]) -> Result<List<Pair>, Memory>
    ensures { IfOk result (λ pairs. pairs ≡ spec.pairs_of query.now) }
{
    let mut pairs = List::new(alloc);
    let mut items = parse(alloc, query).into_owned();
    'items: while let Some(item) = items.next() {
        let (name, value) = item?;
        pairs.push(Pair {
            name: Text::from(name),
            value: Text::from(value),
        })?;
    }
    Ok(pairs)
}

/// The first value of the name.
pub(crate) fn first<'p>(pairs: &'p [Pair], name: &str) -> Option<&'p str>
    ensures { option_copied result ≡ spec.first_of name.now pairs.now }
{
    'pairs: for pair in pairs {
        if pair.name.as_str() == name {
            return Some(pair.value.as_str());
        }
    }
    None
}

/// All values of the name.
#[tactic(auto, using(crate::proofs::Pairs::all_named, crate::proofs::Pairs::all_other, crate::proofs::Pairs::all_end))]
pub(crate) fn all(alloc: Global, pairs: &[Pair], name: &str) -> Result<Texts, Memory>
    ensures { IfOk result (λ texts. texts ≡ spec.all_of name.now pairs.now) }
{
    let mut texts = List::new(alloc);
    'pairs: for pair in pairs {
        if pair.name.as_str() == name {
            texts.push(Text::new(alloc, pair.value.as_str())?)?;
        }
    }
    Ok(texts)
}

/// Whether the name is there.
pub(crate) fn is_there(pairs: &[Pair], name: &str) -> bool
    ensures { result ≡ spec.is_there name.now pairs.now }
{
    first(pairs, name).is_some()
}

/// Whether the flag is on.
pub(crate) fn is_on(pairs: &[Pair], name: &str) -> bool
    ensures { result ≡ spec.is_on name.now pairs.now }
{
    match first(pairs, name) {
        None => false,
        Some(value) => value != "false" && value != "0",
    }
}

/// A text, which is empty where its name is not there.
pub(crate) fn text<'p>(pairs: &'p [Pair], name: &str) -> &'p str
    ensures { result.now ≡ spec.text_at name.now pairs.now }
{
    match first(pairs, name) {
        None => "",
        Some(value) => value,
    }
}

fn is_all_digits(text: &[u8]) -> bool
    ensures { result ≡ list_all is_ascii_digit text.now }
{
    text.iter().all(|byte| byte.is_ascii_digit())
}

fn is_digits(text: &str) -> bool
    ensures { result ≡ spec.is_digits text.now }
{
    !text.is_empty() && text.len() <= 20 && is_all_digits(text.as_bytes())
}

/// The value of digits.
fn parsed(text: &str) -> Option<u64>
    requires { spec.is_digits text.now ≡ true }
    ensures { result ≡ spec.number_named text.now }
{
    text.parse::<u64>().ok()
}

/// A number of 64 bits.
#[tactic(auto, unfolding(crate::specs::Params::number_named))]
fn number_named(text: &str) -> Option<u64>
    ensures { result ≡ spec.number_named text.now }
{
    if is_digits(text) { parsed(text) } else { None }
}

/// A number, 0 where its name is not there.
#[tactic(auto, unfolding(crate::specs::Params::number_at))]
pub(crate) fn number(pairs: &[Pair], parameter: Parameter) -> Result<u64, RouteError>
    ensures { Gives result (spec.number_at parameter pairs.now) }
{
    match first(pairs, parameter.text()) {
        None => Ok(0),
        Some(value) => match number_named(value) {
            Some(number) => Ok(number),
            None => Err(RouteError::Target(parameter)),
        },
    }
}

/// The identifier of a text.
pub(crate) fn id_of(text: &str) -> Option<u128>
    ensures { result ≡ id_parsed text.now }
{
    match Uuid::parse_str(text) {
        Ok(uuid) => Some(uuid.as_u128()),
        Err(_) => None,
    }
}

/// An identifier, whose name is there.
#[tactic(auto, unfolding(crate::specs::Params::id_at))]
pub(crate) fn id(pairs: &[Pair], parameter: Parameter) -> Result<u128, RouteError>
    ensures { Gives result (spec.id_at parameter pairs.now) }
{
    match first(pairs, parameter.text()) {
        None => Err(RouteError::Target(parameter)),
        Some(value) => match id_of(value) {
            Some(id) => Ok(id),
            None => Err(RouteError::Target(parameter)),
        },
    }
}
