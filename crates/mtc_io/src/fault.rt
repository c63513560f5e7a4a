//! The two answers that have their cause outside the program.

use std::alloc::{AllocError, AllocFailed};
use std::error::Error;
use std::fmt;

/// An object that the caller passed in failed: its count of failures rose in this call.
#[derive(Clone, Copy, Debug, PartialEq, Eq)]
pub struct Failed;

impl fmt::Display for Failed {
    ghost use Rattle.std.specs.Prelude.{Some, codes};

    ghost output = { λ _. Some (codes "Failed") };

    fn fmt<W: fmt::Write>(&self, f: &mut fmt::Formatter<W>) -> fmt::Result {
        f.write_str("Failed")
    }
}

impl Error for Failed {}

/// Memory was asked for and refused. It is the one answer that no clause gives a cause for.
#[derive(Clone, Copy, Debug, PartialEq, Eq)]
pub struct Memory;

impl fmt::Display for Memory {
    ghost use Rattle.std.specs.Prelude.{Some, codes};

    ghost output = { λ _. Some (codes "Memory") };

    fn fmt<W: fmt::Write>(&self, f: &mut fmt::Formatter<W>) -> fmt::Result {
        f.write_str("Memory")
    }
}

impl Error for Memory {}

impl From<AllocError> for Memory {
    fn from(_refused: AllocError) -> Memory {
        Memory
    }
}

impl<T: Drop> From<AllocFailed<T>> for Memory {
    fn from(_refused: AllocFailed<T>) -> Memory {
        Memory
    }
}
