//! The bodies of a log's records.

ghost use Rattle.std.specs.Prelude.{◌≡◌, ◌+◌, ◌<◌, ◌≤◌, drop, length, option_map, true, IfOk};
ghost use Rattle.std.specs.Prelude.{◌*◌, is_some, IfErr, IfSome};
ghost use Rattle.byte_formats.specs.Readings.{Moves};
ghost use Rattle.issuance_log.specs.Batches.{is_filled, leading_item, leading_items};
ghost use Rattle.issuance_log.specs.Records.{HaveShortItems, batch_in};
ghost use Rattle.issuance_log.specs.Records.{settings_at, entry_at, log_settings_with, settings_in};
ghost use Rattle.issuance_log.specs.Records.{item_in, settings_record, IsShort};
ghost use Rattle.issuance_log.specs.Records.{entry_record, size_in, size_record};
ghost use Rattle.issuance_log.specs.Results.{LogFinds};
ghost use Rattle.issuance_log.specs.Settings.{most_item, are_allowed, AreAllowed};
ghost use Rattle.tls_wire.specs.Arcs.{IsAnchorId};

use crate::error::RecordError;
use crate::settings::LogSettings;
use landmarks::{MOST_ACTIVE, MOST_ENTRIES};
use mtc_io::{Bytes, Memory};
use std::alloc::Global;
use tls_wire::{AnchorId, Cursor, Short, put_u8, put_u32, put_u64, put_vec8, put_vec16};

// The tags of the records.
const LOG: u8 = 1;

const ENTRY: u8 = 2;

pub(crate) const LANDMARK: u8 = 3;

pub(crate) const TILES: u8 = 4;

pub(crate) const SWITCH: u8 = 5;

pub(crate) const BATCH: u8 = 6;

// The settings after the tag, in their order.
#[tactic(auto, unfolding(crate::specs::Records::settings_at))]
fn settings_fields<'a>(cursor: &mut Cursor<'a>) -> Result<(&'a [u8], u32, u32), Short>
    ensures { Moves (λ x. (x.0.now, (x.1, x.2))) settings_at cursor.old result cursor.new }
{
    let id = cursor.vec8()?;
    let max_active = cursor.u32()?;
    let limit = cursor.u32()?;
    Ok((id, max_active, limit))
}

// The entry and the key after the tag.
#[tactic(auto, unfolding(crate::specs::Records::entry_at))]
fn entry_fields<'a>(cursor: &mut Cursor<'a>) -> Result<(&'a [u8], &'a [u8]), Short>
    ensures { Moves (λ x. (x.0.now, x.1.now)) entry_at cursor.old result cursor.new }
{
    let entry = cursor.vec16()?;
    let key = cursor.vec16()?;
    Ok((entry, key))
}

// The numbers may be those of a log.
fn are_allowed(max_active: u32, limit: u32) -> bool
    ensures exact { result ≡ are_allowed max_active limit }
    ensures allowed { result ≡ true → AreAllowed max_active limit }
{
    (1 <= max_active && max_active <= MOST_ACTIVE) && (2 <= limit && limit <= MOST_ENTRIES)
}

fn settings_with(
    alloc: Global,
    id: &[u8],
    max_active: u32,
    limit: u32,
) -> Result<LogSettings, RecordError>
    ensures found { LogFinds (λ s. s) (log_settings_with (id.now, (max_active, limit))) result }
    ensures allowed { IfOk result (λ s. AreAllowed s.max_active s.limit) }
{
    if !are_allowed(max_active, limit) {
        return Err(RecordError::Unfit);
    }
    let id = AnchorId::from_bytes(alloc, id)?;
    Ok(LogSettings {
        id,
        max_active,
        limit,
    })
}

/// The settings in the body of a Log, the first record of a journal.
#[tactic(auto, unfolding(crate::specs::Records::settings_in))]
pub(crate) fn read_settings(alloc: Global, body: &[u8]) -> Result<LogSettings, RecordError>
    ensures found { LogFinds (λ s. s) (settings_in body.now) result }
    ensures allowed { IfOk result (λ s. AreAllowed s.max_active s.limit) }
{
    let mut cursor = Cursor::new(body);
    if cursor.u8()? != LOG {
        return Err(RecordError::Unfit);
    }
    let (id, max_active, limit) = settings_fields(&mut cursor)?;
    if cursor.left() != 0 {
        return Err(RecordError::Unfit);
    }
    settings_with(alloc, id, max_active, limit)
}

// The entry and the key in the body of an Entry.
#[tactic(auto, unfolding(crate::specs::Records::item_in))]
fn item_in(body: &[u8]) -> Result<(&[u8], &[u8]), RecordError>
    ensures found { LogFinds (λ x. (x.0.now, x.1.now)) (item_in body.now) result }
    ensures unfit { IfErr result (λ why. why ≡ RecordError.Unfit) }
{
    let mut cursor = Cursor::new(body);
    if cursor.u8()? != ENTRY {
        return Err(RecordError::Unfit);
    }
    let item = entry_fields(&mut cursor)?;
    if cursor.left() != 0 {
        return Err(RecordError::Unfit);
    }
    Ok(item)
}

/// The entry and the key in the body of an Entry. The length of each fits two bytes.
pub(crate) fn read_item(body: &[u8]) -> Result<(&[u8], &[u8]), RecordError>
    ensures found { LogFinds (λ x. (x.0.now, x.1.now)) (item_in body.now) result }
    ensures short_entry { IfOk result (λ x. IsShort x.0.now) }
    ensures short_key { IfOk result (λ x. IsShort x.1.now) }
    ensures unfit { IfErr result (λ why. why ≡ RecordError.Unfit) }
{
    let item = item_in(body)?;
    Ok(item)
}

/// The item that begins these bytes, and the bytes after it.
pub(crate) fn next_item(bytes: &[u8]) -> Option<(&[u8], &[u8], &[u8])>
    ensures item { option_map (λ x. ((x.0.now, x.1.now), x.2.now)) result
        ≡ leading_item bytes.now }
    ensures size { IfSome result (λ x. 4 + length x.0.now + length x.1.now + length x.2.now
        ≡ length bytes.now) }
    ensures short { IfSome result (λ x. IsShort x.0.now × IsShort x.1.now) }
{
    let mut cursor = Cursor::new(bytes);
    match entry_fields(&mut cursor) {
        Ok((entry, key)) => Some((entry, key, cursor.rest())),
        Err(_short) => None,
    }
}

// How many items begin these bytes, if nothing follows them.
fn count_items(bytes: &[u8]) -> Option<u64>
    ensures counted { IfSome result (λ count. count ≡ length (leading_items bytes.now)) }
    ensures few { IfSome result (λ count. count * 4 ≤ length bytes.now) }
    ensures whole { is_some result ≡ is_filled (leading_items bytes.now) bytes.now }
{
    let mut count = 0;
    let mut rest = bytes;
    'items: while let Some((_entry, _key, later)) = next_item(rest) {
        rest = later;
        count += 1;
    }
    if rest.is_empty() { Some(count) } else { None }
}

/// How many items the body of a Batch has, and the bytes in which they follow each other.
#[tactic(auto, unfolding(crate::specs::Records::batch_in, crate::specs::Records::batch_at))]
pub(crate) fn read_batch(body: &[u8]) -> Result<(u64, &[u8]), RecordError>
    ensures found { LogFinds (λ x. leading_items x.1.now) (batch_in body.now) result }
    ensures count { IfOk result (λ x. x.0 ≡ length (leading_items x.1.now)) }
    ensures some { IfOk result (λ x. 1 ≤ x.0) }
    ensures few { IfOk result (λ x. x.0 < 65536) }
    ensures there { IfOk result (λ x. x.1.now ≡ drop 3 body.now) }
    ensures size { IfOk result (λ x. 3 + length x.1.now ≡ length body.now) }
    ensures short { IfOk result (λ x. HaveShortItems (leading_items x.1.now)) }
    ensures unfit { IfErr result (λ why. why ≡ RecordError.Unfit) }
{
    let mut cursor = Cursor::new(body);
    if cursor.u8()? != BATCH {
        return Err(RecordError::Unfit);
    }
    let count = cursor.u16()? as u64;
    let items = cursor.rest();
    match count_items(items) {
        Some(there) if there == count && count != 0 => Ok((count, items)),
        _ => Err(RecordError::Unfit),
    }
}

/// The size in the body of a Landmark, a Tiles or a Switch, by its tag.
#[tactic(auto, unfolding(crate::specs::Records::size_in))]
pub(crate) fn size_in(tag: u8, body: &[u8]) -> Result<u64, RecordError>
    ensures found { LogFinds (λ size. size) (size_in tag body.now) result }
    ensures unfit { IfErr result (λ why. why ≡ RecordError.Unfit) }
{
    let mut cursor = Cursor::new(body);
    if cursor.u8()? != tag {
        return Err(RecordError::Unfit);
    }
    let size = cursor.u64()?;
    if cursor.left() != 0 {
        return Err(RecordError::Unfit);
    }
    Ok(size)
}

/// The body of a Log.
#[tactic(auto, unfolding(crate::specs::Records::settings_record))]
pub(crate) fn settings_record(alloc: Global, settings: &LogSettings) -> Result<Bytes, Memory>
    ensures value { IfOk result (λ body. body ≡ settings_record settings.now) }
    ensures id { IsAnchorId settings.now.id }
    ensures allowed { AreAllowed settings.now.max_active settings.now.limit }
{
    let id = settings.id.as_bytes();
    let mut body = Bytes::new(alloc);
    put_u8(&mut body, LOG)?;
    put_vec8(&mut body, id)?;
    put_u32(&mut body, settings.max_active)?;
    put_u32(&mut body, settings.limit)?;
    Ok(body)
}

/// The body of an Entry. The entry and its key are within the limit for both together.
#[tactic(auto, unfolding(crate::specs::Records::entry_record))]
pub(crate) fn entry_record(alloc: Global, entry: &[u8], key: &[u8]) -> Result<Bytes, Memory>
    requires { length entry.now + length key.now ≤ most_item }
    ensures { IfOk result (λ body. body ≡ entry_record entry.now key.now) }
{
    let mut body = Bytes::new(alloc);
    put_u8(&mut body, ENTRY)?;
    put_vec16(&mut body, entry)?;
    put_vec16(&mut body, key)?;
    Ok(body)
}

/// The body of a Landmark, a Tiles or a Switch, by its tag.
#[tactic(auto, unfolding(crate::specs::Records::size_record))]
pub(crate) fn size_record(alloc: Global, tag: u8, size: u64) -> Result<Bytes, Memory>
    ensures { IfOk result (λ body. body ≡ size_record tag size) }
{
    let mut body = Bytes::new(alloc);
    put_u8(&mut body, tag)?;
    put_u64(&mut body, size)?;
    Ok(body)
}
