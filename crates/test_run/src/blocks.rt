//! What a script has begun: a name, a file or a run, and the bytes that its lines encode for it.
//!
//! If a line can't be read, or memory is refused, a call answers none; and else whether all is as
//! the line says.

use crate::texts::parted;
use std::alloc::Global;
use std::mem::replace;

/// What the bytes of the next lines are for.
#[derive(Clone, Copy)]
pub enum Begun {
    Nothing,
    Name,
    File,
    Left,
    Run,
    Kept,
}

/// What was begun, with its name, its bytes, and the calls that fail on it.
#[derive(Drop)]
pub struct Block {
    alloc: Global,
    pub begun: Begun,
    pub name: String,
    pub bytes: Vec<u8>,
    pub failing: Vec<u64>,
}

impl Block {
    pub fn new(alloc: Global) -> Block {
        Block {
            alloc,
            begun: Begun::Nothing,
            name: String::new(alloc),
            bytes: Vec::new(alloc),
            failing: Vec::new(alloc),
        }
    }

    pub fn append(&mut self, piece: &[u8]) -> Option<bool> {
        self.bytes.extend_from_slice(piece).ok()?;
        Some(true)
    }

    /// Appends what a word encodes in hexadecimal.
    pub fn append_encoded(&mut self, word: &str) -> Option<bool> {
        let bytes = hex::decode(self.alloc, word).ok()?;
        self.append(bytes.as_slice())
    }

    pub fn append_text(&mut self, text: &str, end: &str) -> Option<bool> {
        self.append(text.as_bytes())?;
        self.append(end.as_bytes())
    }

    /// Another byte at an offset: `N HEX`.
    pub fn change(&mut self, words: &str) -> Option<bool> {
        let (offset, digits) = parted(words);
        let offset = offset.parse::<usize>().ok()?;
        let new = hex::decode(self.alloc, digits).ok()?;
        match (self.bytes.get_mut(offset), new.as_slice()) {
            (Some(old), [byte]) => {
                *old = *byte;
                Some(true)
            }
            _ => Some(false),
        }
    }

    pub fn cut(&mut self, words: &str) -> Option<bool> {
        let length = words.parse::<usize>().ok()?;
        let is_longer = length < self.bytes.len();
        self.bytes.truncate(length);
        Some(is_longer)
    }

    /// Begins what has this name.
    pub fn begin(&mut self, begun: Begun, name: &str) -> Option<bool> {
        self.begun = begun;
        self.name = String::from_str(self.alloc, name).ok()?;
        Some(true)
    }

    /// Takes the name out.
    pub fn take_name(&mut self) -> String {
        replace(&mut self.name, String::new(self.alloc))
    }

    /// Takes the bytes out.
    pub fn take(&mut self) -> Vec<u8> {
        replace(&mut self.bytes, Vec::new(self.alloc))
    }

    /// Takes the calls out that fail.
    pub fn take_failing(&mut self) -> Vec<u64> {
        replace(&mut self.failing, Vec::new(self.alloc))
    }

    /// Whether a line that says more of a run, or of a file, follows one.
    pub fn is_in_place(&self, what: &str) -> bool {
        match what {
            "status" | "!" | "!=" | ">" => matches!(self.begun, Begun::Run),
            "fails" => matches!(self.begun, Begun::File),
            _ => true,
        }
    }
}
