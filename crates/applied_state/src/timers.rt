//! The timers of a server's sessions, as it applies commands.

ghost use Rattle.session_ttl.specs.Timed.{AreTimed, AreTimedBut};
ghost use Rattle.applied_state.specs.Making.{made_ids};

use cat_model::Command;
use session_table::SessionTable;
use session_ttl::{Office, SessionTimers};

/// Sets the timer of the session that the command may have made, once it is applied.
pub(crate) fn applied(
    timers: &mut SessionTimers,
    office: &Office,
    clocks: &[u64],
    sessions: &SessionTable,
    command: &Command,
    now: u64,
)
    requires { AreTimedBut (made_ids command.now) timers.old clocks.now office.now sessions.now.now }
    ensures { AreTimed timers.new clocks.now office.now sessions.now.now }
{
    if let Command::SessionCreate { id, .. } = command {
        timers.set(office, clocks, sessions, *id, now);
    }
}
