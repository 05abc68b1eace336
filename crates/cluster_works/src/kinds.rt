//! Kinds of requests.

ghost use Rattle.std.specs.Prelude.{◌≡◌};
ghost use Rattle.cluster_rules.specs.Agents.{changes};
ghost use Rattle.cluster_rules.specs.Lasting.{is_stale};
ghost use Rattle.cluster_rules.specs.Requests.{is_stale_read, wait_of};

use cat_model::{AgentOp, Asked, Mode, Request};

/// Whether such a read is by the asked server as it stands.
pub fn is_stale(mode: Mode) -> bool
    ensures { result ≡ is_stale mode }
{
    match mode {
        Mode::Default | Mode::Consistent => false,
        Mode::Stale => true,
    }
}

/// It is a stale read or execution.
pub fn is_stale_read(asked: &Asked) -> bool
    ensures { result ≡ is_stale_read asked.now }
{
    match asked {
        Asked::Good(Request::Read { mode, .. }) => is_stale(*mode),
        Asked::Good(Request::Execute { mode, .. }) => is_stale(*mode),
        _ => false,
    }
}

/// The request changes the agent, so that a sync follows it.
pub fn changes(op: &AgentOp) -> bool
    ensures { result ≡ changes op.now }
{
    match op {
        AgentOp::Services | AgentOp::Checks => false,
        AgentOp::AddService { .. }
        | AgentOp::DropService { .. }
        | AgentOp::AddCheck { .. }
        | AgentOp::DropCheck { .. }
        | AgentOp::Mark { .. } => true,
    }
}

/// How long a read waits at most, in milliseconds.
pub fn wait_of(wait_ms: u64) -> u64
    ensures { result ≡ wait_of wait_ms }
{
    if wait_ms == 0 {
        300_000
    } else {
        wait_ms.min(600_000)
    }
}
