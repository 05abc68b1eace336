//! The rule under which the two copies are shown: what a viewer has read begins what is shown.

ghost use Rattle.std.specs.Prelude.{◌≡◌, []};
ghost use mathlib.Core.List.{IsPrefix};
ghost use Rattle.stale_view.specs.Sides.{Stands};
ghost use Rattle.stale_view.specs.Rule.{IsShown};

use crate::names::PairName;
use crate::side::{Op, Side};
use cat_model::Command;
use crossbeam_utils::rule::{Outcome, Protocol};
use left_right::reader::Reader;
use left_right::writer::Writer;
use std::collections::LinkedList;
use std::marker::PhantomData;

/// What a viewer has read. No value of it is made.
pub type Read = LinkedList<Command>;

pub struct Rising<J: PairName> {
    of: PhantomData<J>,
}

impl<J: PairName> Protocol<Side, Read> for Rising<J> {
    ghost holds = { λ side views. IsShown J.book side views };

    ghost first = { [] };
}

/// The list is shown, and the publisher knows it.
pub struct Shows<J: PairName> {
    of: PhantomData<J>,
}

impl<J: PairName> Outcome<Side, Read> for Shows<J> {
    ghost then = { λ v x y w. (w ≡ y.store) × Stands J.book y };
}

/// The list was read, which goes on from all that had been read.
pub struct Reads<J: PairName> {
    of: PhantomData<J>,
}

impl<J: PairName> Outcome<Side, Read> for Reads<J> {
    ghost then = { λ v x y w. IsPrefix v x.store × (w ≡ x.store) × Stands J.book x };
}

pub(crate) type SideWriter<J> = Writer<Side, Op, Read, Rising<J>>;

pub(crate) type SideReader<J> = Reader<Side, Read, Rising<J>>;
