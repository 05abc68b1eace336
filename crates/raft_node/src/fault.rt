ghost use Rattle.std.specs.Prelude.{◌≡◌};
ghost use Rattle.raft_node.specs.declared.fault.ProposeFault.TheVariants.{Memory};
ghost use Rattle.raft_node.specs.declared.fault.ProbeFault.TheVariants.{Memory as ProbeMemory};

use cat_model::Memory;
use thiserror::Error;

/// Why a proposal was not made. But for `Halted` the node is as before.
#[derive(Clone, Copy, Debug, PartialEq, Eq, Error)]
pub enum ProposeFault {
    /// The node runs and doesn't lead.
    #[error("this server does not lead")]
    NotLeader,
    /// The node had halted before, or its store failed in this call.
    #[error("this server has halted")]
    Halted,
    /// The log would pass a limit.
    #[error("the log is full")]
    Full,
    #[error("out of memory")]
    Memory,
}

impl From<Memory> for ProposeFault {
    ghost from_gives = { λ _ fault. fault ≡ Memory };

    fn from(_: Memory) -> ProposeFault {
        ProposeFault::Memory
    }
}

/// Why no round was begun. The node is as before.
#[derive(Clone, Copy, Debug, PartialEq, Eq, Error)]
pub enum ProbeFault {
    /// The node doesn't lead.
    #[error("this server does not lead")]
    NotLeader,
    #[error("out of memory")]
    Memory,
}

impl From<Memory> for ProbeFault {
    ghost from_gives = { λ _ fault. fault ≡ ProbeMemory };

    fn from(_: Memory) -> ProbeFault {
        ProbeFault::Memory
    }
}
