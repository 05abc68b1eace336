ghost use Rattle.std.specs.Prelude.{◌≡◌};
ghost use Rattle.catalog_table.specs.declared.fault.RegisterFault.TheVariants as faults;

use cat_model::Memory;
use thiserror::Error;

/// Why a registration was not done.
#[derive(Clone, Copy, Debug, PartialEq, Eq, Error)]
pub enum RegisterFault {
    /// The service of some check is neither of the node nor registered with it.
    #[error("missing service")]
    MissingService,
    /// The rows are again those of the last `keep`.
    #[error("out of memory")]
    Memory,
}

impl From<Memory> for RegisterFault {
    ghost from_gives = { λ _ fault. fault ≡ faults.Memory };

    fn from(_: Memory) -> RegisterFault {
        RegisterFault::Memory
    }
}
