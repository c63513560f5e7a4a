//! The bodies of a mirror's records.

ghost use Rattle.std.specs.Prelude.{◌≡◌, ◌+◌, ◌*◌, ◌<◌, ◌≤◌, drop, length, option_map, is_some};
ghost use Rattle.std.specs.Prelude.{IfErr, IfOk, IfSome};
ghost use Rattle.byte_formats.specs.Readings.{Moves};
ghost use Rattle.issuance_log.specs.Batches.{is_filled, leading_item, leading_items};
ghost use Rattle.issuance_log.specs.Records.{HaveShortItems, IsShort, entry_at, size_in};
ghost use Rattle.issuance_log.specs.Records.{size_record, tiled_in, tiles_record};
ghost use Rattle.tls_wire.specs.Arcs.{IsAnchorId};
ghost use Rattle.mirror_core.specs.Records.{mirror_log_in, mirror_record, mirrored_in};
ghost use Rattle.mirror_core.specs.Results.{MirrorFinds};

use crate::error::RecordError;
use mtc_io::{Bytes, Memory};
use std::alloc::Global;
use tls_wire::{AnchorId, Cursor, Short, put_u8, put_u64, put_vec8};

// The tags of the records.
const MIRROR: u8 = 0x21;

pub(crate) const BATCH: u8 = 0x22;

const TILES: u8 = 4;

/// The id in the body of a Mirror, the first record of a journal.
#[tactic(auto, unfolding(crate::specs::Records::mirror_log_in))]
pub(crate) fn read_mirror(alloc: Global, body: &[u8]) -> Result<AnchorId, RecordError>
    ensures found { MirrorFinds (λ id. id) (mirror_log_in body.now) result }
{
    let mut cursor = Cursor::new(body);
    if cursor.u8()? != MIRROR {
        return Err(RecordError::Unfit);
    }
    let id = cursor.vec8()?;
    if cursor.left() != 0 {
        return Err(RecordError::Unfit);
    }
    Ok(AnchorId::from_bytes(alloc, id)?)
}

// The entry and the key of an item.
#[tactic(auto, unfolding(issuance_log::specs::Records::entry_at))]
fn item_fields<'a>(cursor: &mut Cursor<'a>) -> Result<(&'a [u8], &'a [u8]), Short>
    ensures { Moves (λ x. (x.0.now, x.1.now)) entry_at cursor.old result cursor.new }
{
    let entry = cursor.vec16()?;
    let key = cursor.vec16()?;
    Ok((entry, key))
}

/// The item that begins these bytes, and the bytes after it.
pub(crate) fn next_item(bytes: &[u8]) -> Option<(&[u8], &[u8], &[u8])>
    ensures item { option_map (λ x. ((x.0.now, x.1.now), x.2.now)) result
        ≡ leading_item bytes.now }
    ensures size { IfSome result (λ x. 4 + length x.0.now + length x.1.now + length x.2.now
        ≡ length bytes.now) }
    ensures short { IfSome result (λ x. IsShort x.0.now × IsShort x.1.now) }
{
    let mut cursor = Cursor::new(bytes);
    match item_fields(&mut cursor) {
        Ok((entry, key)) => Some((entry, key, cursor.rest())),
        Err(_short) => None,
    }
}

// How many items begin these bytes, if nothing follows them.
fn count_items(bytes: &[u8]) -> Option<u64>
    ensures counted { IfSome result (λ count. count ≡ length (leading_items bytes.now)) }
    ensures few { IfSome result (λ count. count * 4 ≤ length bytes.now) }
    ensures whole { is_some result ≡ is_filled (leading_items bytes.now) bytes.now }
{
    let mut count = 0;
    let mut rest = bytes;
    'items: while let Some((_entry, _key, later)) = next_item(rest) {
        rest = later;
        count += 1;
    }
    if rest.is_empty() { Some(count) } else { None }
}

/// How many items the body of a Batch has, and the bytes in which they follow each other.
#[tactic(auto, unfolding(crate::specs::Records::mirrored_in))]
pub(crate) fn read_batch(body: &[u8]) -> Result<(u64, &[u8]), RecordError>
    ensures found { MirrorFinds (λ x. leading_items x.1.now) (mirrored_in body.now) result }
    ensures count { IfOk result (λ x. x.0 ≡ length (leading_items x.1.now)) }
    ensures some { IfOk result (λ x. 1 ≤ x.0) }
    ensures few { IfOk result (λ x. x.0 < 65536) }
    ensures there { IfOk result (λ x. x.1.now ≡ drop 3 body.now) }
    ensures size { IfOk result (λ x. 3 + length x.1.now ≡ length body.now) }
    ensures short { IfOk result (λ x. HaveShortItems (leading_items x.1.now)) }
    ensures long { IfOk result (λ x. 3 + x.0 * 4 ≤ length body.now) }
    ensures unfit { IfErr result (λ why. why ≡ RecordError.Unfit) }
{
    let mut cursor = Cursor::new(body);
    if cursor.u8()? != BATCH {
        return Err(RecordError::Unfit);
    }
    let count = cursor.u16()? as u64;
    let items = cursor.rest();
    match count_items(items) {
        Some(there) if there == count && count != 0 => Ok((count, items)),
        _ => Err(RecordError::Unfit),
    }
}

/// The size in the body of a Tiles.
#[tactic(auto, unfolding(issuance_log::specs::Records::size_in))]
pub(crate) fn read_tiles(body: &[u8]) -> Result<u64, RecordError>
    ensures found { MirrorFinds (λ size. size) (tiled_in body.now) result }
    ensures unfit { IfErr result (λ why. why ≡ RecordError.Unfit) }
{
    let mut cursor = Cursor::new(body);
    if cursor.u8()? != TILES {
        return Err(RecordError::Unfit);
    }
    let size = cursor.u64()?;
    if cursor.left() != 0 {
        return Err(RecordError::Unfit);
    }
    Ok(size)
}

/// The body of a Mirror.
#[tactic(auto, unfolding(crate::specs::Records::mirror_record))]
pub(crate) fn mirror_record(alloc: Global, log: &AnchorId) -> Result<Bytes, Memory>
    ensures value { IfOk result (λ body. body ≡ mirror_record log.now) }
    ensures id { IsAnchorId log.now }
{
    let id = log.as_bytes();
    let mut body = Bytes::new(alloc);
    put_u8(&mut body, MIRROR)?;
    put_vec8(&mut body, id)?;
    Ok(body)
}

/// The body of a Tiles.
#[tactic(auto, unfolding(issuance_log::specs::Records::size_record))]
pub(crate) fn tiles_record(alloc: Global, size: u64) -> Result<Bytes, Memory>
    ensures { IfOk result (λ body. body ≡ tiles_record size) }
{
    let mut body = Bytes::new(alloc);
    put_u8(&mut body, TILES)?;
    put_u64(&mut body, size)?;
    Ok(body)
}
