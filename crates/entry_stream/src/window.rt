//! The bytes that were read and not yet used.

ghost use Rattle.std.specs.Prelude.{◌≡◌, ◌≤◌, [], ◌++◌, length, drop, OnOk};

use mtc_io::{Bytes, Memory};
use std::alloc::Global;
use std::marker::Model;

// Used bytes are let go as soon as there are so many: as many as the longest item has, or more.
const USED: usize = 131_072;

/// Bytes that were read and not yet used. Contracts see these bytes.
#[derive(Drop)]
pub(crate) struct Window {
    alloc: Global,
    bytes: Bytes,
    used: usize,
}

impl Model for Window {
    ghost use Rattle.std.specs.Prelude.{◌≤◌, length, drop};
    ghost use Rattle.byte_formats.specs.Types.{Text};

    ghost Value = { Text };

    ghost view = { λ w. drop w.used w.bytes };

    ghost invariant = { λ w. w.used ≤ length w.bytes };
}

impl Window {
    /// No bytes. It takes no memory.
    pub(crate) fn new(alloc: Global) -> Window
        ensures { result ≡ [] }
    {
        Window {
            alloc,
            bytes: Bytes::new(alloc),
            used: 0,
        }
    }

    /// The bytes.
    pub(crate) fn as_slice(&self) -> &[u8]
        ensures { result.now ≡ self.now }
    {
        &self.bytes.as_slice()[self.used..]
    }

    /// So many of the first bytes are used.
    pub(crate) fn pass(&mut self, count: usize)
        requires { count ≤ length self.old }
        ensures { self.new ≡ drop count self.old }
    {
        let _length = self.bytes.len();
        self.used += count;
    }

    /// Appends bytes.
    pub(crate) fn append(&mut self, piece: &[u8]) -> Result<(), Memory>
        ensures { OnOk result (self.new ≡ self.old ++ piece.now) }
    {
        self.let_go()?;
        self.bytes.append(piece)?;
        Ok(())
    }

    // Lets the used bytes go, if they are many.
    fn let_go(&mut self) -> Result<(), Memory>
        ensures { OnOk result (self.new ≡ self.old) }
    {
        if self.used >= USED {
            self.bytes = Bytes::copy_of(self.alloc, self.as_slice())?;
            self.used = 0;
        }
        Ok(())
    }
}
