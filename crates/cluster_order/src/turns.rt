//! Catching up, and an event's work at its server.

ghost use Rattle.std.specs.Prelude.{◌≡◌, ◌≢◌, None, Some, Err, IfOk, IfErr, OnOk, OnErr};
ghost use Rattle.cluster_rules.specs.Due.{due, Works};
ghost use Rattle.cluster_rules.specs.Reached.{IsServerNumber, Fits};
ghost use Rattle.cluster_rules.specs.Step.{goes_to};
ghost use Rattle.cluster_order.specs.Evaluations.{EvaluatesFor, EvaluatesIn, lacking};
ghost use Rattle.cluster_order.specs.Turns.{Concludes, MadeUp, FellBehind, IsDone, IsCut, IsJustNoted, cut_after, event_of};

use crate::cut::Cut;
use crate::impulse::Impulse;
use crate::parts::Parts;
use cat_model::{Memory, Steps};
use std::alloc::Global;
use std::sync::ledger::Ledger;

// Catches up on what is still due.
fn go_on<P: Parts, L: Ledger>(
    parts: &mut P,
    alloc: Global,
    server: u32,
    steps: &mut Steps<L>,
) -> Result<(), Memory>
    requires { IsServerNumber (P.state parts.old) server }
    ensures works { Works server (P.state parts.old) (P.state parts.new) }
    ensures none { OnOk result (due server (P.state parts.new) ≡ None) }
    ensures behind { OnErr result (due server (P.state parts.new) ≢ None) }
    ensures counted { EvaluatesIn (lacking result) steps.old steps.new (P.state parts.old) (P.state parts.new) }
{
    while parts.turn(alloc, server, steps)? {}
    Ok(())
}

/// Catches up on all that is due at a server, and says whether there was something. It lacks memory only where
/// something is due.
#[tactic(none)]
pub fn make_up<P: Parts, L: Ledger>(
    parts: &mut P,
    alloc: Global,
    server: u32,
    steps: &mut Steps<L>,
) -> Result<bool, Cut>
    requires { IsServerNumber (P.state parts.old) server }
    ensures whole { IfOk result (λ was. MadeUp server was (P.state parts.old) (P.state parts.new)) }
    ensures cut { IfErr result (λ cut. FellBehind server cut (P.state parts.old) (P.state parts.new)) }
    ensures counted { EvaluatesIn (lacking result) steps.old steps.new (P.state parts.old) (P.state parts.new) }
{
    match parts.turn(alloc, server, steps) {
        Err(Memory) => Err(Cut::Before),
        Ok(false) => Ok(false),
        Ok(true) => match go_on(parts, alloc, server, steps) {
            Ok(()) => Ok(true),
            Err(Memory) => Err(Cut::Within),
        },
    }
}

/// What a cut is once something was caught up on, or not.
pub fn cut_after(was: bool) -> Cut
    ensures { result ≡ cut_after was }
{
    if was { Cut::Within } else { Cut::Before }
}

/// Catches up on what is due after an act.
pub fn finish<P: Parts, L: Ledger>(
    parts: &mut P,
    alloc: Global,
    server: u32,
    steps: &mut Steps<L>,
) -> Result<(), Cut>
    requires { IsServerNumber (P.state parts.old) server }
    ensures works { Works server (P.state parts.old) (P.state parts.new) }
    ensures none { OnOk result (due server (P.state parts.new) ≡ None) }
    ensures behind { OnErr result (due server (P.state parts.new) ≢ None) }
    ensures within { IfErr result (λ cut. cut ≡ Cut.Within) }
    ensures counted { EvaluatesIn (lacking result) steps.old steps.new (P.state parts.old) (P.state parts.new) }
{
    match go_on(parts, alloc, server, steps) {
        Ok(()) => Ok(()),
        Err(Memory) => Err(Cut::Within),
    }
}

/// What a marked event makes its server do.
#[tactic(none)]
pub fn react<P: Parts, L: Ledger>(
    parts: &mut P,
    alloc: Global,
    server: u32,
    impulse: Impulse,
    steps: &mut Steps<L>,
) -> Result<(), Cut>
    requires server { IsServerNumber (P.state parts.old) server }
    requires goes { goes_to (P.state parts.old) (event_of impulse) ≡ Some server }
    requires fits { Fits (P.state parts.old) (event_of impulse) }
    ensures whole { OnOk result (IsDone server (event_of impulse) (P.state parts.old) (P.state parts.new)) }
    ensures cut { IfErr result (λ cut. IsCut server (event_of impulse) cut (P.state parts.old) (P.state parts.new)) }
    ensures counted { EvaluatesFor (event_of impulse) result steps.old steps.new (P.state parts.old) (P.state parts.new) }
{
    let was = match make_up(parts, alloc, server, steps) {
        Ok(was) => was,
        Err(cut) => return Err(cut),
    };
    match parts.act(alloc, server, impulse) {
        Ok(()) => finish(parts, alloc, server, steps),
        Err(Cut::Before) => Err(cut_after(was)),
        Err(Cut::Within) => Err(Cut::Within),
    }
}

/// Ends an event that was noted, whole or cut short: its outs join the tray. One that has changed nothing loses its mark.
pub fn conclude<P: Parts>(parts: &mut P, done: Result<(), Cut>) -> Result<(), Memory>
    requires { done ≡ Err Cut.Before → IsJustNoted (P.state parts.old) }
    ensures { Concludes done result (P.state parts.old) (P.state parts.new) }
{
    match done {
        Ok(()) => {
            parts.shelve();
            Ok(())
        }
        Err(Cut::Before) => {
            parts.forget();
            Err(Memory)
        }
        Err(Cut::Within) => {
            parts.shelve();
            Err(Memory)
        }
    }
}
