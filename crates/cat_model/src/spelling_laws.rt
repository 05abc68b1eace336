//! Laws of the spelling of commands, each the contract of a function with an empty body.

ghost use Rattle.std.specs.Prelude.{◌≡◌, ◌++◌, List, ℕ};
ghost use Rattle.cat_model.specs.declared.command.Command.{Command};
ghost use Rattle.cat_model.specs.Bounds.{InBounds, Spells};
ghost use Rattle.cat_model.specs.Spelling.{spelling};

/// Each command in bounds has exactly one spelling, and bytes spell at most one command.
#[tactic(auto, using(crate::proofs::CommandFormats::spelled_once))]
pub fn one_spelling()
    ensures spelled { (command : Command) (bytes : List ℕ) → InBounds command → Spells command (spelling command) × (Spells command bytes → bytes ≡ spelling command) }
    ensures told { (command other : Command) (bytes : List ℕ) → Spells command bytes → Spells other bytes → command ≡ other }
{}

/// No spelling begins another: where two begin the same bytes, the commands are one and the same bytes follow.
#[tactic(auto, using(crate::proofs::CommandFormats::spelling_unique))]
pub fn no_spelling_begins_another()
    ensures { (command other : Command) (rest others : List ℕ) → InBounds command → InBounds other → spelling command ++ rest ≡ spelling other ++ others → (command ≡ other) × (rest ≡ others) }
{}
