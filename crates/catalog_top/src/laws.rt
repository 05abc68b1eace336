//! Laws on how scripts end.

ghost use Rattle.std.specs.Prelude.{◌≡◌, codes, false, List, ℕ, Result, Some};
ghost use Rattle.script_player.specs.declared.report.Report.{Report as SpecReport};
ghost use Rattle.script_player.specs.Script.{script_of};
ghost use Rattle.catalog_top.specs.declared.stop.Stop.{Stop as SpecStop};
ghost use Rattle.catalog_top.specs.Ends.{EndsWell, PlaysScript};
ghost use Rattle.catalog_top.specs.Limits.{is_too_long};
ghost use Rattle.catalog_top.specs.Outside.{Input, Output};
ghost use Rattle.catalog_top.specs.Run.{NeverRefuses};

/// A law, which does nothing: a script within the limits of which no line is refused ends with a report, unless the source or
/// the sink fails, or memory runs out.
#[tactic(auto, using(crate::proofs::Complete::complete))]
pub fn whole_scripts_end_well()
    ensures { (i i' : Input) (o o' : Output) (outcome : Result SpecReport SpecStop) (bytes : List ℕ) → PlaysScript i i' o o' outcome
        → i.left ≡ Some bytes → is_too_long bytes ≡ false → NeverRefuses (script_of bytes) → EndsWell outcome }
{}

/// A law, which does nothing: of this script no line is refused, and it is within the limits. In it server 1 asks both others
/// for their votes, server 2 gives its vote, and these messages are delivered, one of them twice, and lost.
pub fn deliveries_are_not_refused()
    ensures unrefused { NeverRefuses (script_of (codes "cluster 3 0 1\ntimeout 1\ndeliver 1\ndeliver 3\ndeliver 1\ndrop 1\ndeliver 2\ndrop 3\ndrop 2\n")) }
    ensures short { is_too_long (codes "cluster 3 0 1\ntimeout 1\ndeliver 1\ndeliver 3\ndeliver 1\ndrop 1\ndeliver 2\ndrop 3\ndrop 2\n") ≡ false }
{}
