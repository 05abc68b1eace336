ghost use Rattle.std.specs.Prelude.{◌≡◌};
ghost use Rattle.cluster_rules.specs.Agents.{unknown};

use crate::checks::is_own;
use cat_model::AgentOp;

/// What an agent doesn't know, where it refuses a change. Its own check, under whose ID no other is added, counts as
/// unknown.
pub fn unknown(op: &AgentOp) -> &'static str
    ensures { result.now ≡ unknown op.now }
{
    match op {
        AgentOp::AddService { .. } | AgentOp::DropCheck { .. } | AgentOp::Mark { .. } => {
            "Unknown check"
        }
        AgentOp::AddCheck { check } if is_own(&check.id) => "Unknown check",
        AgentOp::AddCheck { .. }
        | AgentOp::Services
        | AgentOp::Checks
        | AgentOp::DropService { .. } => "Unknown service",
    }
}
