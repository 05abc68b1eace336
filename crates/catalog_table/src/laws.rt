//! A law of the definitions. The function does nothing, and its contract is the law.

ghost use Rattle.std.specs.Prelude.{ℕ};
ghost use Rattle.cat_model.specs.Catalog.{Catalog};
ghost use Rattle.cat_model.specs.declared.command.Command.{Command};
ghost use Rattle.catalog_table.specs.Steps.{IsRegistration, StepsOnRows};

/// A Register or a Deregister reads and changes no other list of the catalog.
pub fn other_lists_law()
    ensures { (position : ℕ) (command : Command) (k : Catalog) → IsRegistration command → StepsOnRows position command k }
{}
