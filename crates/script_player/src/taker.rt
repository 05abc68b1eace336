ghost use Rattle.std.specs.Prelude.{◌≡◌, ℕ, List, Option, IfOk, OnOk, OnErr, MatchResult, option_map};
ghost use Rattle.std.specs.Option.{option_copied};
ghost use Rattle.std.specs.Io.KnownBytes.{Appends};
ghost use Rattle.cluster_rules.specs.Replies as rules;
ghost use Rattle.filter_expr.specs.Expressions.{Expression, expression_of};
ghost use Rattle.script_player.specs.Run.{WritesPart};
ghost use Rattle.script_player.specs.Stage.{CountsWrite};
ghost use Rattle.script_player.specs.Text as text;

use crate::output::write_all;
use crate::text::line_of_out;
use cat_model::{Bytes, Memory};
use cluster_requests::Out;
use filter_expr::Filter;
use outside::{KeepFail, Sink};
use std::alloc::Global;

/// What takes the outs of a run, one by one.
pub trait Taker {
    /// What an out adds to what is held, through the filter of its request.
    ghost adds: { Option Expression → rules.Out → List ℕ };

    /// What it holds, where the object tells it.
    ghost held: { Self → Option (List ℕ) };

    /// How often it has failed.
    ghost faults: { Self → ℕ };

    /// Takes an out. After an error a first part of what it adds may be held.
    fn take(&mut self, alloc: Global, out: Out, filter: Option<&Filter>) -> Result<(), KeepFail>
        ensures adds { OnOk result (Appends (held self.old) (held self.new) (adds (option_map expression_of (option_copied filter.entry)) out)) }
        ensures part { OnErr result (WritesPart (held self.old) (held self.new) (adds (option_map expression_of (option_copied filter.entry)) out)) }
        ensures cause { MatchResult result (λ _. faults self.new ≡ faults self.old) (λ fail. CountsWrite fail (faults self.old) (faults self.new)) };
}

// A sink takes an out by writing its line.
impl<Si: Sink> Taker for Si {
    ghost use Rattle.script_player.specs.Text.{line_of_out};

    ghost adds = { line_of_out };

    ghost held = { λ sink. Si.held sink };

    ghost faults = { λ sink. Si.faults sink };

    #[tactic(auto, using(crate::proofs::Written::part_none))]
    fn take(&mut self, alloc: Global, out: Out, filter: Option<&Filter>) -> Result<(), KeepFail> {
        match line_of_taken(alloc, out, filter) {
            Ok(line) => write_all(self, line.as_slice()),
            Err(Memory) => Err(KeepFail::Memory),
        }
    }
}

// The line of an out, which is let go.
fn line_of_taken(alloc: Global, out: Out, filter: Option<&Filter>) -> Result<Bytes, Memory>
    ensures { IfOk result (λ line. line ≡ text.line_of_out (option_map expression_of (option_copied filter.entry)) out) }
{
    line_of_out(alloc, &out, filter)
}
