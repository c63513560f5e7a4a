//! The bytes of a journal.

ghost use Rattle.std.specs.Prelude.{◌≡◌, ◌+◌, ◌≤◌, ◌++◌, length, take, IfOk};
ghost use Rattle.journal_core.specs.Format.{tail_of, new_file_of};

use mtc_io::Memory;
use std::alloc::Global;

/// The most bytes of a body.
pub const MAX_BODY: usize = 131_072;

/// The first bytes of a journal: `mtc-journal/v1`, 0A, 00.
pub const HEADER: [u8; 16] = *b"mtc-journal/v1\n\0";

/// The most bytes of one write to a journal: of the first one of a new file, with the longest body.
pub const LONGEST_WRITE: usize = 131_094;

/// The buffer of a journal, which is all the memory that it takes.
pub(crate) fn buffer(alloc: Global) -> Result<Vec<u8>, Memory>
    ensures { IfOk result (λ v. length v.items ≡ 131094) }
{
    Ok(vec![in alloc; 0; LONGEST_WRITE]?)
}

// A piece into the buffer at an offset, after the bytes that are there.
fn put(buffer: &mut Vec<u8>, at: usize, piece: &[u8])
    requires { at + length piece.now ≤ length buffer.old.items }
    ensures length { length buffer.new.items ≡ length buffer.old.items }
    ensures prefix { take (at + length piece.now)
        buffer.new.items ≡ take at buffer.old.items ++ piece.now }
{
    buffer[at..at + piece.len()].copy_from_slice(piece);
}

/// What an append writes after the closed commit byte: the length of the body, the body and the
/// next commit byte, closed.
pub(crate) fn pack(buffer: &mut Vec<u8>, body: &[u8])
    requires capacity { 5 + length body.now ≤ length buffer.old.items }
    requires few { length body.now ≤ 131072 }
    ensures length { length buffer.new.items ≡ length buffer.old.items }
    ensures tail { take (5 + length body.now) buffer.new.items ≡ tail_of body.now }
{
    put(buffer, 0, &(body.len() as u32).to_be_bytes());
    put(buffer, 4, body);
    put(buffer, 4 + body.len(), &[0]);
}

/// What the first write of a new file holds: the header, a closed commit byte and what an append
/// writes.
pub(crate) fn pack_first(buffer: &mut Vec<u8>, body: &[u8])
    requires capacity { 22 + length body.now ≤ length buffer.old.items }
    requires few { length body.now ≤ 131072 }
    ensures length { length buffer.new.items ≡ length buffer.old.items }
    ensures first { take (22 + length body.now) buffer.new.items ≡ new_file_of body.now }
{
    put(buffer, 0, &HEADER);
    put(buffer, 16, &[0]);
    put(buffer, 17, &(body.len() as u32).to_be_bytes());
    put(buffer, 21, body);
    put(buffer, 21 + body.len(), &[0]);
}
