//! The file of `member`.

ghost use Rattle.byte_formats.specs.Readings.{Gives};
ghost use Rattle.mtc_relying.specs.Member.{member_file, member_view};

use tls_wire::{Cursor, HashesError};

/// A member file, cut into its parts.
#[derive(Clone, Copy)]
pub struct MemberFile<'a> {
    /// The entry's index in its log.
    pub index: u64,
    /// The subtree `[start, end)`.
    pub start: u64,
    pub end: u64,
    /// The subtree's hash, of 32 bytes.
    pub hash: &'a [u8],
    /// The inclusion path, from the leaf's sibling upwards.
    pub path: &'a [[u8; 32]],
    pub entry: &'a [u8],
}

// Cuts a member file into its parts. Refuses the first form that doesn't fit, with its offset, and
// a length of hashes that is no multiple of 32.
#[tactic(auto, unfolding(crate::specs::Member::member_file))]
pub fn read_member(bytes: &[u8]) -> Result<MemberFile<'_>, HashesError>
    ensures { Gives member_view result (member_file bytes.now) }
{
    let mut cursor = Cursor::new(bytes);
    let index = cursor.u64()?;
    let start = cursor.u64()?;
    let end = cursor.u64()?;
    let hash = cursor.bytes(32)?;
    let path = cursor.hashes()?;
    Ok(MemberFile {
        index,
        start,
        end,
        hash,
        path,
        entry: cursor.rest(),
    })
}
