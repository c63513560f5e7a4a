//! Items in bytes.

ghost use Rattle.std.specs.Prelude.{◌≡◌, ◌+◌, ◌*◌, ◌≤◌, length, option_map, IfOk, IfSome};
ghost use Rattle.byte_formats.specs.Readings.{Moves};
ghost use Rattle.issuance_log.specs.Batches.{leading_item, leading_items};
ghost use Rattle.issuance_log.specs.Records.{IsShort, entry_at, size_record, tiles_record};

use mtc_io::{Bytes, Memory};
use std::alloc::Global;
use tls_wire::{Cursor, Short, put_u8, put_u64};

// The entry and the key of an item.
#[tactic(auto, unfolding(issuance_log::specs::Records::entry_at))]
fn item_fields<'a>(cursor: &mut Cursor<'a>) -> Result<(&'a [u8], &'a [u8]), Short>
    ensures { Moves (λ x. (x.0.now, x.1.now)) entry_at cursor.old result cursor.new }
{
    let entry = cursor.vec16()?;
    let key = cursor.vec16()?;
    Ok((entry, key))
}

/// The item that begins these bytes, and the bytes after it.
pub fn next_item(bytes: &[u8]) -> Option<(&[u8], &[u8], &[u8])>
    ensures item { option_map (λ x. ((x.0.now, x.1.now), x.2.now)) result
        ≡ leading_item bytes.now }
    ensures size { IfSome result (λ x. 4 + length x.0.now + length x.1.now + length x.2.now
        ≡ length bytes.now) }
    ensures short { IfSome result (λ x. IsShort x.0.now × IsShort x.1.now) }
{
    let mut cursor = Cursor::new(bytes);
    match item_fields(&mut cursor) {
        Ok((entry, key)) => Some((entry, key, cursor.rest())),
        Err(_short) => None,
    }
}

/// How many items begin these bytes.
pub fn count_items(bytes: &[u8]) -> u64
    ensures count { result ≡ length (leading_items bytes.now) }
    ensures long { result * 4 ≤ length bytes.now }
{
    let mut count = 0;
    let mut rest = bytes;
    'items: while let Some((_entry, _key, later)) = next_item(rest) {
        rest = later;
        count += 1;
    }
    count
}

// The tag of a record of a size of tiles.
const TILES: u8 = 4;

/// The body of a record of a size of tiles.
#[tactic(auto, unfolding(issuance_log::specs::Records::size_record))]
pub(crate) fn tiles_record(alloc: Global, size: u64) -> Result<Bytes, Memory>
    ensures { IfOk result (λ body. body ≡ tiles_record size) }
{
    let mut body = Bytes::new(alloc);
    put_u8(&mut body, TILES)?;
    put_u64(&mut body, size)?;
    Ok(body)
}
