//! What a command answers, and why it is refused.

ghost use Rattle.std.specs.Prelude.{◌≡◌, string_bytes};

use mtc_io::{Bytes, Memory};
use std::alloc::AllocError;

/// How a command ended that wrote an outcome.
#[derive(Clone, Copy, Debug, PartialEq, Eq)]
pub enum Said {
    /// It did its work.
    Done,
    /// The judgement is against.
    Against,
    /// Two different strings with one hash were found.
    Collided,
}

/// Why a command was refused.
#[derive(Clone, Copy, Debug, PartialEq, Eq)]
pub enum Stopped {
    /// The arguments are no command in its form.
    BadWords,
    /// A named file isn't in its grammar.
    BadForm,
    /// The state doesn't allow it.
    NotAllowed,
    /// A named file isn't there, or that of a new journal is.
    Missing,
    /// An input, the log or its journal is over its limit.
    Beyond,
}

/// What follows the name of a reason, each with a blank before it.
#[derive(Clone, Copy, Debug)]
pub enum More {
    Nothing,
    Name(&'static str),
    Number(u64),
    Numbers(u64, u64),
    /// As `Missing NotBefore 3`.
    NameAndNumber(&'static str, u64),
    /// Each hash in 64 hexadecimal digits.
    Hashes([u8; 32], [u8; 32]),
}

/// A reason: its name, as `BadRecord`, and what follows it.
#[derive(Clone, Copy, Debug)]
pub struct Reason {
    pub name: &'static str,
    pub more: More,
}

/// A refusal. It takes no memory, and is written where the program ends.
#[derive(Clone, Copy, Debug)]
pub struct Refusal<'a> {
    pub why: Stopped,
    /// The file that it is about, if it is about one.
    pub file: Option<&'a str>,
    pub reason: Reason,
}

/// What a command answers that did its work or judged: the status, and a text for standard output.
#[derive(Debug, Drop)]
pub struct Answer {
    pub status: Said,
    pub text: Bytes,
}

impl Answer {
    /// The answer with this status and this text.
    pub fn of_text(status: Said, text: String) -> Answer
        ensures { result ≡ record { status = status; text = string_bytes text } }
    {
        Answer {
            status,
            text: Bytes::from_vec(text.into_bytes()),
        }
    }
}

/// What ends a command without an answer.
#[derive(Clone, Copy, Debug)]
pub enum Stop<'a> {
    /// It is refused.
    Refused(Refusal<'a>),
    /// The file system, or an object that it opened, failed at this file.
    Room(&'a str),
    /// The same at the file of the tiles of this journal.
    Tiles(&'a str),
    /// The command is refused: the file of the tiles of this journal doesn't have this tile, or has
    /// another one instead.
    BadTile {
        journal: &'a str,
        level: u8,
        place: u64,
    },
    /// Memory was refused.
    Memory,
}

impl<'a> From<Memory> for Stop<'a> {
    ghost use Rattle.mtc_command.specs.declared.answer.Stop.TheVariants.{Memory as NoMemory};

    ghost from_gives = { λ _ e. e ≡ NoMemory };

    fn from(_refused: Memory) -> Stop<'a> {
        Stop::Memory
    }
}

impl<'a> From<AllocError> for Stop<'a> {
    ghost use Rattle.mtc_command.specs.declared.answer.Stop.TheVariants.{Memory as NoMemory};

    ghost from_gives = { λ _ e. e ≡ NoMemory };

    fn from(_refused: AllocError) -> Stop<'a> {
        Stop::Memory
    }
}
