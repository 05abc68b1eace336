//! Why a body is not read.

use crate::Field;
use cat_model::{Memory, Refusal, Text};
use std::alloc::{AllocError, AllocFailed, Global};

/// Why a body is not read. It takes no memory.
#[derive(Clone, Copy, Debug, PartialEq, Eq)]
pub enum ReadError {
    Invalid(Field),
    /// A value is longer than a key may have.
    TooLarge,
    Memory,
}

impl ReadError {
    ghost use Rattle.std.specs.Prelude.{◌≡◌, IfOk};
    ghost use Rattle.json_bodies.specs.Errors.{refusal_of};

    /// The refusal that a client gets.
    pub fn refusal(self, alloc: Global) -> Result<Refusal, Memory>
        ensures { IfOk result (λ refusal. refusal ≡ refusal_of self) }
    {
        match self {
            ReadError::Invalid(field) => Ok(Refusal::Invalid {
                field: Text::new(alloc, field.text())?,
            }),
            ReadError::TooLarge => Ok(Refusal::TooLarge),
            ReadError::Memory => Ok(Refusal::Memory),
        }
    }
}

impl From<Memory> for ReadError {
    ghost use Rattle.std.specs.Prelude.{◌≡◌};
    ghost use Rattle.json_bodies.specs.declared.error.ReadError.TheVariants.{Memory as Wants};

    ghost from_gives = { λ _ e. e ≡ Wants };

    fn from(_: Memory) -> ReadError {
        ReadError::Memory
    }
}

impl From<AllocError> for ReadError {
    ghost use Rattle.std.specs.Prelude.{◌≡◌};
    ghost use Rattle.json_bodies.specs.declared.error.ReadError.TheVariants.{Memory as Wants};

    ghost from_gives = { λ _ e. e ≡ Wants };

    fn from(_: AllocError) -> ReadError {
        ReadError::Memory
    }
}

impl<T: Drop> From<AllocFailed<T>> for ReadError {
    ghost use Rattle.std.specs.Prelude.{◌≡◌};
    ghost use Rattle.json_bodies.specs.declared.error.ReadError.TheVariants.{Memory as Wants};

    ghost from_gives = { λ _ e. e ≡ Wants };

    fn from(_: AllocFailed<T>) -> ReadError {
        ReadError::Memory
    }
}
