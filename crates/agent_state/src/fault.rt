ghost use Rattle.std.specs.Prelude.{◌≡◌};
ghost use Rattle.agent_state.specs.declared.fault.ChangeFault.TheVariants as faults;

use cat_model::Memory;
use thiserror::Error;

/// Why a change was not made.
#[derive(Clone, Copy, Debug, PartialEq, Eq, Error)]
pub enum ChangeFault {
    /// What the request names is not there, or is the agent's own check.
    #[error("unknown")]
    Unknown,
    #[error("out of memory")]
    Memory,
}

impl From<Memory> for ChangeFault {
    ghost from_gives = { λ _ fault. fault ≡ faults.Memory };

    fn from(_: Memory) -> ChangeFault {
        ChangeFault::Memory
    }
}
