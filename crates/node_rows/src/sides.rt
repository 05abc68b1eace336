//! Two lists of rows side by side.

ghost use Rattle.std.specs.Prelude.{◌≡◌, ◌<◌, IfOk, length};
ghost use Rattle.cat_model.specs.Tables.{Ascends};
ghost use Rattle.node_rows.specs.Sides.{Steps, all_paired, strays};

use crate::seen::add_all;
use cat_model::Memory;
use row_table::{Row, Seen};
use std::alloc::Global;
use std::cmp::Ordering;
use std::marker::Model;

/// A row, and the row of its key in the other list.
#[derive(Drop)]
pub struct Pair<'a, R> {
    pub own: &'a R,
    pub there: Option<&'a R>,
}

impl<'a, R> Model for Pair<'a, R> {
    ghost use Rattle.std.specs.Prelude.{Option};
    ghost use Rattle.std.specs.Option.{option_copied};

    ghost Value = { R × Option R };

    ghost view = { λ p. (p.own.now, option_copied p.there) };
}

/// What two lists of rows have of each other.
#[derive(Drop)]
pub struct Sides<'a, R> {
    /// The rows of the first list.
    pub pairs: Vec<Pair<'a, R>>,
    /// The rows of the second list whose keys the first one lacks.
    pub strays: Vec<Seen<'a, R>>,
}

// Goes over the first row of the one list, or of the other, or of both where they have one key.
fn step<'b, 'a, R: Row>(
    sides: &mut Sides<'a, R>,
    left: &'b [Seen<'a, R>],
    rest: &'b [Seen<'a, R>],
) -> Result<(&'b [Seen<'a, R>], &'b [Seen<'a, R>]), Memory>
    requires some { 0 < length left.now }
    requires own { Ascends R.cmp R.key left.now }
    requires there { Ascends R.cmp R.key rest.now }
    ensures { IfOk result (λ l. Steps R.cmp R.key left.now rest.now l.0.now l.1.now sides.old.pairs.items sides.new.pairs.items sides.old.strays.items sides.new.strays.items) }
{
    let Some((row, more)) = left.split_first() else {
        unreachable!()
    };
    let own = row.row();
    let Some((first, behind)) = rest.split_first() else {
        sides.pairs.push(Pair { own, there: None })?;
        return Ok((more, rest));
    };
    match first.row().order(own) {
        Ordering::Less => {
            sides.strays.push(first.again())?;
            Ok((left, behind))
        }
        Ordering::Equal => {
            let there = Some(first.row());
            sides.pairs.push(Pair { own, there })?;
            Ok((more, behind))
        }
        Ordering::Greater => {
            sides.pairs.push(Pair { own, there: None })?;
            Ok((more, rest))
        }
    }
}

/// Goes once over two lists that are in the order of their keys.
pub fn side_by_side<'b, 'a, R: Row>(
    alloc: Global,
    own: &'b [Seen<'a, R>],
    there: &'b [Seen<'a, R>],
) -> Result<Sides<'a, R>, Memory>
    requires own { Ascends R.cmp R.key own.now }
    requires there { Ascends R.cmp R.key there.now }
    ensures pairs { IfOk result (λ s. s.pairs.items ≡ all_paired R.cmp R.key own.now there.now) }
    ensures strays { IfOk result (λ s. s.strays.items ≡ strays R.cmp R.key own.now there.now) }
{
    let mut sides = Sides {
        pairs: Vec::new(alloc),
        strays: Vec::new(alloc),
    };
    let mut left = (own, there);
    while !left.0.is_empty() {
        left = step(&mut sides, left.0, left.1)?;
    }
    add_all(&mut sides.strays, left.1)?;
    Ok(sides)
}
