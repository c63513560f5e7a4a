//! What is refused of records, and of a journal that is opened.

use journal_core::OpenError;
use std::error::Error;
use std::fmt;

/// Why a record is not taken.
#[derive(Clone, Copy, Debug, PartialEq, Eq)]
pub enum Misfit {
    /// It breaks the rules.
    Unfit,
    /// It can't be taken now: memory was refused, or what the machine has in addition to its
    /// records failed. What a refused opening returns shows which.
    Memory,
}

/// Why the journal of a state machine is not opened. The records are read and tested one by one,
/// and the first fault of the file is answered, unless the disk fails or memory is refused.
#[derive(Clone, Copy, Debug, PartialEq, Eq)]
pub enum StateOpenError {
    /// The record of this number, counted from 0, breaks the rules of the machine, or there is no
    /// record.
    BadRecord(u64),
    /// The file is not read as a journal. The disk may have failed, or memory was refused.
    Open(OpenError),
}

impl fmt::Display for StateOpenError {
    ghost use Rattle.std.specs.Prelude.{Some};
    ghost use Rattle.state_journal.specs.Reasons.{state_open_text};

    ghost output = { λ why. Some (state_open_text why) };

    fn fmt<W: fmt::Write>(&self, f: &mut fmt::Formatter<W>) -> fmt::Result {
        match self {
            StateOpenError::BadRecord(number) => write!(f, "BadRecord {number}"),
            StateOpenError::Open(OpenError::NotJournal) => f.write_str("NotJournal"),
            StateOpenError::Open(OpenError::BadLength(offset)) => write!(f, "BadLength {offset}"),
            StateOpenError::Open(OpenError::CutShort(offset)) => write!(f, "CutShort {offset}"),
            StateOpenError::Open(OpenError::Failed) => f.write_str("Failed"),
            StateOpenError::Open(OpenError::Memory) => f.write_str("Memory"),
        }
    }
}

impl Error for StateOpenError {}

/// A machine that isn't begun returns what there is of its seed.
#[derive(Debug, Drop)]
pub struct NotBegun<R, E> {
    pub rest: R,
    pub why: E,
}

/// A refused opening returns the disk and what there is of the seed.
#[derive(Debug, Drop)]
pub struct StateRefused<D, R> {
    pub disk: D,
    pub rest: R,
    pub why: StateOpenError,
}
