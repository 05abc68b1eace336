//! Which commands a store takes.

ghost use Rattle.std.specs.Prelude.{◌≡◌};
ghost use Rattle.catalog_store.specs.Taken.{is_taken};

use cat_model::Command;

/// A store takes such a command. A transaction in bounds has at most 64 operations.
pub fn is_taken(command: &Command) -> bool
    ensures { result ≡ is_taken command.now }
{
    match command {
        Command::Txn { ops } => ops.len() <= 64,
        _ => true,
    }
}
