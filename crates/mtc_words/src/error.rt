//! Why arguments are no command.

use thiserror::Error;

/// Why arguments are no command. The tests are made in this order. The number of an argument is
/// counted from 1 after the command.
#[derive(Clone, Copy, Debug, PartialEq, Eq, Error)]
pub enum WordError {
    /// There is no argument.
    #[error("NoCommand")]
    NoCommand,
    /// The first argument is no command.
    #[error("UnknownCommand")]
    UnknownCommand,
    /// The argument of this number is empty, or begins with a hyphen; or it is a journal, and so is
    /// the next one, of the same name.
    #[error("BadWord {0}")]
    BadWord(usize),
    /// There are more or fewer arguments after the command than it wants.
    #[error("WrongCount {have} {want}")]
    WrongCount { have: usize, want: usize },
    /// The argument of this number is no number, or lies outside its range.
    #[error("BadNumber {0}")]
    BadNumber(usize),
    /// The argument of this number is no anchor id.
    #[error("BadId {0}")]
    BadId(usize),
    /// The argument of this number is a journal, and ends in `.tiles`, as the name of a tile file
    /// does.
    #[error("TilesName {0}")]
    TilesName(usize),
    /// Memory was refused.
    #[error("Memory")]
    Memory,
}
