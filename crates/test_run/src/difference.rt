//! What an execution and its history differ in.

ghost use Rattle.std.specs.Prelude.{◌≡◌};
ghost use Rattle.test_run.specs.declared.difference.Difference.TheVariants.{Memory as NoMemory};

use mtc_io::Memory;
use std::alloc::{AllocError, AllocFailed};

/// What an execution and its history differ in, or why they can't be compared.
#[derive(Clone, Copy, Debug, PartialEq, Eq)]
pub enum Difference {
    Memory,
    /// A run ended with this status, which is none of its ends.
    Status(u8),
    /// The step of this number isn't allowed.
    Step(u64),
    /// A file is no journal.
    Journal,
    /// A journal has other records than the state.
    Records,
    /// A crash may leave other records than those of the state.
    CrashState,
    /// A run printed something else than what was released.
    Printed,
}

impl From<Memory> for Difference {
    ghost from_gives = { λ _ e. e ≡ NoMemory };

    fn from(_refused: Memory) -> Difference {
        Difference::Memory
    }
}

impl From<AllocError> for Difference {
    ghost from_gives = { λ _ e. e ≡ NoMemory };

    fn from(_refused: AllocError) -> Difference {
        Difference::Memory
    }
}

impl<T: Drop> From<AllocFailed<T>> for Difference {
    ghost from_gives = { λ _ e. e ≡ NoMemory };

    fn from(_refused: AllocFailed<T>) -> Difference {
        Difference::Memory
    }
}
