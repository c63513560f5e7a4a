//! The buffer that a signature is made in.

ghost use Rattle.std.specs.Prelude.{◌≡◌, ◌+◌, ◌≤◌, [], ◌++◌, length};

use std::marker::Model;

// The bytes of the longest signature of two levels of trees of height 10.
const CAPACITY: usize = 17_748;

/// A signature in the making: up to 17,748 bytes, which is the longest signature of two levels of
/// trees of height 10. It lies where it is declared and takes no memory of its own.
#[derive(Drop)]
pub struct SigBuf {
    bytes: [u8; CAPACITY],
    length: usize,
}

impl Model for SigBuf {
    ghost use Rattle.std.specs.Prelude.{take, ◌≤◌};
    ghost use Rattle.byte_formats.specs.Types.{Text};

    ghost Value = { Text };

    ghost view = { λ s. take s.length s.bytes };

    ghost invariant = { λ s. s.length ≤ 17748 };
}

impl SigBuf {
    /// An empty buffer.
    pub fn new() -> SigBuf
        ensures { result ≡ [] }
    {
        SigBuf {
            bytes: [0; CAPACITY],
            length: 0,
        }
    }

    /// The bytes so far.
    pub fn as_slice(&self) -> &[u8]
        ensures value { result.now ≡ self.now }
        ensures short { length result.now ≤ 17748 }
    {
        &self.bytes[..self.length]
    }

    /// Empties the buffer.
    pub fn clear(&mut self)
        ensures { self.new ≡ [] }
    {
        self.length = 0;
    }

    /// Appends a piece to the bytes so far. The caller makes sure that there is capacity.
    pub fn append(&mut self, piece: &[u8])
        requires { length self.old + length piece.now ≤ 17748 }
        ensures { self.new ≡ self.old ++ piece.now }
    {
        let end = self.length + piece.len();
        self.bytes[self.length..end].copy_from_slice(piece);
        self.length = end;
    }
}
