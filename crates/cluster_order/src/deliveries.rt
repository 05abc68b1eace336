//! Deliveries, each followed by the same message's loss.

ghost use Rattle.std.specs.Prelude.{◌≡◌, Some, IfOk, OnOk, OnErr};
ghost use Rattle.cluster_rules.specs.Reached.{lowest};
ghost use Rattle.cluster_order.specs.Evaluations.{EvaluatesIn, lacking};
ghost use Rattle.cluster_order.specs.Pairs.{HasLowest, IsPair, IsPartOfPair, IsSettled, IsPartlySettled};

use crate::events::{deliver, lose};
use crate::parts::Parts;
use cat_model::{Memory, Steps};
use std::alloc::Global;
use std::sync::ledger::Ledger;

// Delivers the message with the lowest number, and loses it.
#[tactic(none)]
fn pair<P: Parts, L: Ledger>(
    parts: &mut P,
    alloc: Global,
    number: u64,
    steps: &mut Steps<L>,
) -> Result<(), Memory>
    requires { HasLowest (Some number) (P.state parts.old) }
    ensures whole { OnOk result (IsPair (P.state parts.old) (P.state parts.new)) }
    ensures cut { OnErr result (IsPartOfPair (P.state parts.old) (P.state parts.new)) }
    ensures counted { EvaluatesIn (lacking result) steps.old steps.new (P.state parts.old) (P.state parts.new) }
{
    deliver(parts, alloc, number, steps)?;
    lose(parts, number);
    Ok(())
}

/// Delivers the message with the lowest number and loses it, again and again, at most so often. Gives how often. It
/// stops before only where no message is left.
#[tactic(none)]
pub fn settle<P: Parts, L: Ledger>(
    parts: &mut P,
    alloc: Global,
    most: u32,
    steps: &mut Steps<L>,
) -> Result<u32, Memory>
    ensures whole { IfOk result (λ pairs. IsSettled most pairs (P.state parts.old) (P.state parts.new)) }
    ensures cut { OnErr result (IsPartlySettled most (P.state parts.old) (P.state parts.new)) }
    ensures counted { EvaluatesIn (lacking result) steps.old steps.new (P.state parts.old) (P.state parts.new) }
{
    let mut pairs = 0;
    while pairs < most {
        match parts.lowest() {
            Some(number) => pair(parts, alloc, number, steps)?,
            None => break,
        }
        pairs += 1;
    }
    parts.settled(pairs);
    Ok(pairs)
}
