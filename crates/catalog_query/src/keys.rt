//! The rows of keys, and the names of keys cut after a separator.

ghost use Rattle.std.specs.Prelude.{◌≡◌, ◌++◌, true, IfOk, filter, map};
ghost use Rattle.std.specs.List.{AllByRecursion};
ghost use Rattle.cat_model.specs.Keys.{same_text, has_prefix};
ghost use Rattle.cat_model.specs.Queries.{all_names, cut_key, rows_or_absent};

use crate::names::sorted;
use cat_model::lists::{copy_of, one};
use cat_model::{Answer, List, Memory, Text, Texts};
use kv_table::KvTable;
use std::alloc::Global;

/// The row of the key, if there is one.
pub(crate) fn row_of(alloc: Global, kv: &KvTable, key: &Text) -> Result<Answer, Memory>
    ensures { IfOk result (λ x. x ≡ rows_or_absent (filter (λ r. same_text r.key key.now) kv.now.now.rows)) }
{
    match kv.get(key.as_str()) {
        None => Ok(Answer::Absent),
        Some(row) => Ok(Answer::Rows(one(alloc, copy_of(row)?)?)),
    }
}

/// The text of these three, one behind the other.
fn join_three(alloc: Global, first: &str, second: &str, third: &str) -> Result<Text, Memory>
    ensures { IfOk result (λ t. t ≡ first.now ++ second.now ++ third.now) }
{
    let mut joined = String::from_str(alloc, first)?;
    joined.push_str(second)?;
    joined.push_str(third)?;
    Ok(Text::from(joined))
}

/// The key up to and with the first separator behind the prefix.
fn cut(alloc: Global, prefix: &str, separator: &str, key: &str) -> Result<Text, Memory>
    requires { has_prefix prefix.now key.now ≡ true }
    ensures { IfOk result (λ name. name ≡ cut_key prefix.now separator.now key.now) }
{
    if separator.is_empty() {
        return Text::new(alloc, key);
    }
    let Some(rest) = key.strip_prefix(prefix) else {
        return Text::new(alloc, key);
    };
    match rest.split_once(separator) {
        None => Text::new(alloc, key),
        Some((before, _)) => join_three(alloc, prefix, before, separator),
    }
}

fn cut_each(alloc: Global, prefix: &Text, separator: &Text, keys: &[Text]) -> Result<Texts, Memory>
    requires { AllByRecursion (λ key. has_prefix prefix.now key ≡ true) keys.now }
    ensures { IfOk result (λ l. l ≡ map (cut_key prefix.now separator.now) keys.now) }
{
    let mut found = Vec::new(alloc);
    for key in keys {
        let name = cut(alloc, prefix.as_str(), separator.as_str(), key.as_str())?;
        found.push(name)?;
    }
    Ok(List::from(found))
}

/// The keys with the prefix, each cut, in byte order and each once.
pub(crate) fn names_under(
    alloc: Global,
    kv: &KvTable,
    prefix: &Text,
    separator: &Text,
) -> Result<Texts, Memory>
    ensures { IfOk result (λ l. l ≡ all_names (map (λ r. cut_key prefix.now separator.now r.key) (filter (λ r. has_prefix prefix.now r.key) kv.now.now.rows))) }
{
    let keys = kv.names(alloc, prefix.as_str())?;
    let cut = cut_each(alloc, prefix, separator, keys.as_slice())?;
    sorted(cut)
}
