ghost use Rattle.std.specs.Prelude.{◌≡◌};
ghost use Rattle.catalog_query.specs.declared.fault.ExecuteFault.TheVariants as faults;

use cat_model::Memory;
use thiserror::Error;

/// Why a prepared query was not executed.
#[derive(Clone, Copy, Debug, PartialEq, Eq, Error)]
pub enum ExecuteFault {
    /// No query has the identifier or the name.
    #[error("query not found")]
    Unknown,
    #[error("out of memory")]
    Memory,
}

impl From<Memory> for ExecuteFault {
    ghost from_gives = { λ _ fault. fault ≡ faults.Memory };

    fn from(_: Memory) -> ExecuteFault {
        ExecuteFault::Memory
    }
}
