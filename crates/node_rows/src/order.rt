//! Rows in the order of their keys.

ghost use Rattle.std.specs.Prelude.{◌≡◌, ◌+◌, ◌<◌, ◌≤◌, IfOk, OnErr, OnOk, length, vec_len};
ghost use Rattle.cat_model.specs.Syncs.{in_order};
ghost use Rattle.std.specs.Option.{option_copied};
ghost use Rattle.std.specs.Vec.{vec_capacity};
ghost use Rattle.cat_model.specs.Tables.{Ascends, put, row_at};
ghost use Rattle.node_rows.specs.Order.{ascends, is_before, rank};

use crate::seen::add_all;
use cat_model::Memory;
use row_table::{Probe, Row, Seen};
use std::alloc::Global;

// How many of the rows have a smaller key.
fn place_of<R: Row>(rows: &[R], new: &R) -> usize
    requires { Ascends R.cmp R.key rows.now }
    ensures rank { result ≡ rank R.cmp R.key new.now rows.now }
    ensures within { result ≤ length rows.now }
{
    rows.partition_point(|r| r.order(new).is_lt())
}

/// Puts the row in the place of the one of its key, among rows that are in the order of their keys. There is room for one
/// more, so that this takes no memory.
pub fn place_in_room<R: Row>(rows: &mut Vec<R>, new: R)
    requires order { Ascends R.cmp R.key rows.old.items }
    requires room { vec_len rows.old < vec_capacity rows.old }
    ensures rows { rows.new.items ≡ put R.cmp R.key new rows.old.items }
    ensures order { Ascends R.cmp R.key rows.new.items }
    ensures room { vec_capacity rows.old ≤ vec_capacity rows.new }
    ensures len { vec_len rows.new ≤ vec_len rows.old + 1 }
{
    let at = place_of(rows.as_slice(), &new);
    if at < rows.len() && rows[at].order(&new).is_eq() {
        rows[at] = new;
        return;
    }
    if rows.insert(at, new).is_err() {
        unreachable!()
    }
}

/// The same, where there may be no room.
pub fn place<R: Row>(rows: &mut Vec<R>, new: R) -> Result<(), Memory>
    requires { Ascends R.cmp R.key rows.old.items }
    ensures ok { OnOk result (rows.new.items ≡ put R.cmp R.key new rows.old.items) }
    ensures err { OnErr result (rows.new.items ≡ rows.old.items) }
    ensures order { Ascends R.cmp R.key rows.new.items }
{
    rows.reserve(1)?;
    place_in_room(rows, new);
    Ok(())
}

/// The row of a key, among rows that are in the order of their keys.
pub fn find_row<'a, R: Row, P: Probe<R>>(rows: &'a [R], probe: &P) -> Option<&'a R>
    requires { Ascends R.cmp R.key rows.now }
    ensures { option_copied result ≡ row_at R.cmp R.key (P.sought probe.now) rows.now }
{
    let at = rows.partition_point(|r| probe.place(r).is_lt());
    if at < rows.len() && probe.place(&rows[at]).is_eq() {
        Some(&rows[at])
    } else {
        None
    }
}

/// The same, among rows that are looked at where they stand.
pub fn found<'a, R: Row, P: Probe<R>>(rows: &[Seen<'a, R>], probe: &P) -> Option<&'a R>
    requires { Ascends R.cmp R.key rows.now }
    ensures { option_copied result ≡ row_at R.cmp R.key (P.sought probe.now) rows.now }
{
    let at = rows.partition_point(|r| probe.place(r.row()).is_lt());
    if at < rows.len() && probe.place(rows[at].row()).is_eq() {
        Some(rows[at].row())
    } else {
        None
    }
}

// The row has a smaller key than the first of these, if there is one.
fn is_before<R: Row>(row: &R, rows: &[R]) -> bool
    ensures { result ≡ is_before R.cmp R.key (R.key row.now) rows.now }
{
    match rows.first() {
        None => true,
        Some(next) => row.order(next).is_lt(),
    }
}

// Each row has a smaller key than the next one.
fn ascends<R: Row>(rows: &[R]) -> bool
    ensures { result ≡ ascends R.cmp R.key rows.now }
{
    let mut left = rows;
    while let Some((row, more)) = left.split_first() {
        if !is_before(row, more) {
            return false;
        }
        left = more;
    }
    true
}

// The rows in the order of their keys, put one by one, the last one first.
fn placed<R: Row>(alloc: Global, rows: &[R]) -> Result<Vec<R>, Memory>
    ensures { IfOk result (λ v. v.items ≡ in_order R.cmp R.key rows.now) }
{
    let mut found = Vec::new(alloc);
    let mut left = rows;
    while let Some((row, before)) = left.split_last() {
        place(&mut found, row.copy()?)?;
        left = before;
    }
    Ok(found)
}

// The rows in the order of their keys. Rows that are in order are just gone over.
fn ordered<'a, R: Row>(alloc: Global, rows: &[Seen<'a, R>]) -> Result<Vec<Seen<'a, R>>, Memory>
    ensures { IfOk result (λ v. v.items ≡ in_order R.cmp R.key rows.now) }
{
    if !ascends(rows) {
        return placed(alloc, rows);
    }
    let mut found = Vec::new(alloc);
    add_all(&mut found, rows)?;
    Ok(found)
}

/// The rows in the order of their keys, whatever their order was, each key once, with the first row that has it. Rows
/// that are in order but for the first one are just gone over.
pub fn in_order<'a, R: Row>(alloc: Global, rows: &[Seen<'a, R>]) -> Result<Vec<Seen<'a, R>>, Memory>
    ensures rows { IfOk result (λ v. v.items ≡ in_order R.cmp R.key rows.now) }
    ensures order { IfOk result (λ v. Ascends R.cmp R.key v.items) }
{
    let Some((first, more)) = rows.split_first() else {
        return Ok(Vec::new(alloc));
    };
    let mut found = ordered(alloc, more)?;
    place(&mut found, first.again())?;
    Ok(found)
}
