//! What reads the catalog.

ghost use Rattle.std.specs.Prelude.{◌≡◌, ◌+◌, ◌≤◌, List, IfOk};
ghost use mathlib.Core.List.{IsPrefix};
ghost use Rattle.cat_model.specs.declared.command.Command.{Command};
ghost use Rattle.dns_service.specs.Reading.{answers_at};

use cat_model::{Answer, Memory, Query, Steps};
use std::alloc::Global;
use std::sync::ledger::Ledger;

/// A reader of the catalog. What it reads may change between two reads, and only goes on.
pub trait CatalogReader {
    /// The commands that made the catalog that was last read, the first one first.
    ghost commands: { Self → List Command };

    /// Answers the query. That is one step at most.
    fn read<L: Ledger>(
        &mut self,
        alloc: Global,
        query: &Query,
        steps: &mut Steps<L>,
    ) -> Result<Answer, Memory>
        ensures grown { IsPrefix (commands self.old) (commands self.new) }
        ensures answer { IfOk result (λ a. a ≡ answers_at (commands self.new) query.now) }
        ensures cost { steps.new ≤ steps.old + 1 };
}
