// The rule of the lock's table, and what each step on it tells the pass that makes it.
use crate::history::History;
use crate::knowledge::Knowledge;
use atomic_table::{Join, Play, Split, TableRule};
use std::snapshot::Snapshot;

pub struct Turns;

impl<S: History> TableRule<Option<S>, Knowledge<S::Item>, Snapshot<S>> for Turns {
    ghost use Rattle.turn_lock.specs.Rule.{IsKept, founder};

    ghost holds = { λ _. IsKept S.items S.opens S.takes };

    ghost first = { λ begun. founder S.opens (S.items begun.value) };
}

pub struct DrawTicket;

impl<S: History> Play<Option<S>, Knowledge<S::Item>> for DrawTicket {
    ghost use Rattle.turn_lock.specs.Rule.{Draws};

    ghost then = { Draws S.items S.opens S.takes };
}

pub struct AwaitTurn;

impl<S: History> Play<Option<S>, Knowledge<S::Item>> for AwaitTurn {
    ghost use Rattle.turn_lock.specs.Rule.{Awaits};

    ghost then = { Awaits S.items S.opens S.takes };
}

pub struct Leave;

impl<S: History> Play<Option<S>, Knowledge<S::Item>> for Leave {
    ghost use Rattle.turn_lock.specs.Rule.{Leaves};

    ghost then = { Leaves S.items S.opens S.takes };
}

pub struct SplitPass;

impl<I> Split<Knowledge<I>> for SplitPass {
    ghost use Rattle.turn_lock.specs.Rule.{left, right};

    ghost left = { left };

    ghost right = { right };
}

pub struct JoinPasses;

impl<I> Join<Knowledge<I>> for JoinPasses {
    ghost use Rattle.turn_lock.specs.Rule.{both, newcomer};

    ghost both = { both };

    ghost spent = { newcomer 0 };
}
