//! The ends of sessions.

ghost use Rattle.std.specs.Prelude.{◌≡◌, IfOk, map};
ghost use Rattle.cluster_works.specs.Ending.{end_command};

use cat_model::{Command, Memory};
use session_ttl::Ending;
use std::alloc::Global;

/// The commands that end these sessions.
pub fn ends_of(alloc: Global, endings: &[Ending]) -> Result<Vec<Command>, Memory>
    ensures { IfOk result (λ commands. commands.items ≡ map end_command endings.now) }
{
    let commands = endings
        .iter()
        .map(|ending| Command::SessionDestroy { id: ending.id })
        .collect(alloc)?;
    Ok(commands)
}
