//! Reading requests.

ghost use Rattle.byte_formats.specs.Readings.{Gives, Moves};
ghost use Rattle.cosigner_core.specs.Reading.{advance_at, advance_in, log_id_at, subtree_at};
ghost use Rattle.cosigner_core.specs.Reading.{subtree_in};
ghost use Rattle.cosigner_core.specs.Views.{advance_parts, subtree_parts};

use crate::fault::FormError;
use crate::requests::{AdvanceRequest, SubtreeRequest};
use tls_wire::Cursor;

// The id of a log.
fn log_id<'a>(cursor: &mut Cursor<'a>) -> Result<&'a [u8], FormError>
    ensures { Moves (λ id. id.now) log_id_at cursor.old result cursor.new }
{
    let id = cursor.vec8()?;
    if id.is_empty() {
        return Err(FormError::EmptyId);
    }
    Ok(id)
}

// The parts of a request to hold a larger log.
#[tactic(auto, unfolding(crate::specs::Reading::advance_at))]
fn advance<'a>(cursor: &mut Cursor<'a>) -> Result<AdvanceRequest<'a>, FormError>
    ensures { Moves advance_parts advance_at cursor.old result cursor.new }
{
    let log = log_id(cursor)?;
    let size = cursor.u64()?;
    let root = *cursor.hash()?;
    let proof = cursor.hashes()?;
    Ok(AdvanceRequest {
        log,
        size,
        root,
        proof,
    })
}

// The parts of a request to sign a subtree.
#[tactic(auto, unfolding(crate::specs::Reading::subtree_at))]
fn subtree<'a>(cursor: &mut Cursor<'a>) -> Result<SubtreeRequest<'a>, FormError>
    ensures { Moves subtree_parts subtree_at cursor.old result cursor.new }
{
    let log = log_id(cursor)?;
    let start = cursor.u64()?;
    let end = cursor.u64()?;
    let hash = *cursor.hash()?;
    let proof = cursor.hashes()?;
    Ok(SubtreeRequest {
        log,
        start,
        end,
        hash,
        proof,
    })
}

/// Reads a request to hold a larger log, without taking memory: the id of the log after its length
/// in one byte, the size in eight bytes, the root in 32, and the hashes of the proof after their
/// length in two bytes.
///
/// The first fault from the left is answered: `Short` with the offset of the id, the size, the root
/// or the vector of hashes that doesn't fit; `EmptyId` for an id of no bytes; `HashLength` where
/// the length of the hashes is no multiple of 32; `Trailing` where some bytes follow them.
#[tactic(auto, unfolding(crate::specs::Reading::advance_in))]
pub fn read_advance(bytes: &[u8]) -> Result<AdvanceRequest<'_>, FormError>
    ensures { Gives advance_parts result (advance_in bytes.now) }
{
    let mut cursor = Cursor::new(bytes);
    let request = advance(&mut cursor)?;
    if cursor.left() > 0 {
        return Err(FormError::Trailing);
    }
    Ok(request)
}

/// Reads a request to sign a subtree, without taking memory: the id of the log after its length in
/// one byte, start and end of the subtree in eight bytes each, its hash in 32, and the hashes of
/// the proof after their length in two bytes.
///
/// The first fault from the left is answered: `Short` with the offset of the id, the number, the
/// hash or the vector of hashes that doesn't fit; `EmptyId` for an id of no bytes; `HashLength`
/// where the length of the hashes is no multiple of 32; `Trailing` where some bytes follow them.
#[tactic(auto, unfolding(crate::specs::Reading::subtree_in))]
pub fn read_subtree(bytes: &[u8]) -> Result<SubtreeRequest<'_>, FormError>
    ensures { Gives subtree_parts result (subtree_in bytes.now) }
{
    let mut cursor = Cursor::new(bytes);
    let request = subtree(&mut cursor)?;
    if cursor.left() > 0 {
        return Err(FormError::Trailing);
    }
    Ok(request)
}
