//! What a cosigner signs.

ghost use Rattle.std.specs.Prelude.{◌≡◌, ◌+◌, ◌<◌, ◌≤◌, ◌^◌, [], ◌++◌, length};
ghost use Rattle.std.specs.Int.{w8};
ghost use Rattle.tls_wire.specs.Encoding.{vector};
ghost use Rattle.mtc_proof.specs.Inputs.{signed_text};

use std::marker::Model;

// The bytes of the longest input: the label, two ids of 255 bytes with their lengths before them,
// two numbers and a hash.
const CAPACITY: usize = 576;

const LABEL: [u8; 16] = *b"mtc-subtree/v1\n\0";

/// What a cosigner signs: at most 576 bytes, which lie where it is declared. It takes no memory of
/// its own. Contracts see it as the list of its bytes.
#[derive(Drop)]
pub struct InputBuf {
    bytes: [u8; CAPACITY],
    length: usize,
}

impl Model for InputBuf {
    ghost use Rattle.std.specs.Prelude.{take, ◌≤◌};
    ghost use Rattle.byte_formats.specs.Types.{Text};

    ghost Value = { Text };

    ghost view = { λ b. take b.length b.bytes };

    ghost invariant = { λ b. b.length ≤ 576 };
}

impl InputBuf {
    /// No bytes.
    pub fn new() -> InputBuf
        ensures { result ≡ [] }
    {
        InputBuf {
            bytes: [0; CAPACITY],
            length: 0,
        }
    }

    /// The bytes that it holds.
    pub fn as_slice(&self) -> &[u8]
        ensures { result.now ≡ self.now }
    {
        &self.bytes[..self.length]
    }

    fn clear(&mut self)
        ensures { self.new ≡ [] }
    {
        self.length = 0;
    }

    // Appends a piece to the bytes.
    fn put(&mut self, piece: &[u8])
        requires { length self.old + length piece.now ≤ 576 }
        ensures text { self.new ≡ self.old ++ piece.now }
        ensures size { length self.new ≡ length self.old + length piece.now }
    {
        let end = self.length + piece.len();
        self.bytes[self.length..end].copy_from_slice(piece);
        self.length = end;
    }

    // Appends an id to the bytes, with its length in one byte before it.
    fn put_id(&mut self, id: &[u8])
        requires short { length id.now < 2 ^ 8 }
        requires capacity { length self.old + 1 + length id.now ≤ 576 }
        ensures text { self.new ≡ self.old ++ vector w8 id.now }
        ensures size { length self.new ≡ length self.old + 1 + length id.now }
    {
        self.put(&(id.len() as u8).to_be_bytes());
        self.put(id);
    }
}

/// What the cosigner signs of the subtree `[start, end)` of the log, where `hash` is the subtree's
/// hash: the label `mtc-subtree/v1`, a line feed and a zero byte, the ids of the cosigner and of
/// the log, each after its length in one byte, start and end in eight bytes each, and the hash,
/// together at most 576 bytes (the draft on Merkle Tree Certificates, where it defines
/// `MTCSubtreeSignatureInput`). It replaces what `out` held, and takes no memory.
///
/// An id has from 1 to 255 bytes. The call doesn't test whether the interval is a subtree.
pub fn signature_input(
    cosigner: &[u8],
    log: &[u8],
    start: u64,
    end: u64,
    hash: &[u8; 32],
    out: &mut InputBuf,
)
    requires cosigner_some { 0 < length cosigner.now }
    requires cosigner_short { length cosigner.now < 2 ^ 8 }
    requires log_some { 0 < length log.now }
    requires log_short { length log.now < 2 ^ 8 }
    ensures { out.new ≡ signed_text cosigner.now log.now start end hash.now }
{
    out.clear();
    out.put(&LABEL);
    out.put_id(cosigner);
    out.put_id(log);
    out.put(&start.to_be_bytes());
    out.put(&end.to_be_bytes());
    out.put(hash);
}
