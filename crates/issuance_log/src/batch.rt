//! Items that are added together, and the body of their record.

ghost use Rattle.std.specs.Prelude.{◌≡◌, ◌+◌, ◌<◌, length, IfNone, IfOk, IfSome};
ghost use Rattle.issuance_log.specs.Batches.{fitting, has_large, most_listed};
ghost use Rattle.issuance_log.specs.Records.{CanBeBatch, batch_record};

use crate::record::BATCH;
use mtc_io::{Bytes, Memory};
use std::alloc::Global;
use std::marker::Model;
use tls_wire::{put_u8, put_u16, put_vec16};

// An entry and its key have at most so many bytes together.
pub(crate) const MAX_ITEM: usize = 65_535;

// The items of a Batch have at most so many bytes with their lengths: a body has 131,072, and three
// of them are the tag and the count.
const MAX_LISTED: usize = 131_069;

// The lengths of an entry and of its key.
const LENGTHS: usize = 4;

/// An entry that is to be added, and the key that belongs to it.
#[derive(Debug, Drop)]
pub struct LogItem {
    pub entry: Bytes,
    pub key: Bytes,
}

impl Model for LogItem {
    ghost use Rattle.byte_formats.specs.Types.{Text};

    ghost Value = { Text × Text };

    ghost view = { λ item. (item.entry, item.key) };
}

impl LogItem {
    // How many bytes both have together.
    fn len(&self) -> usize
        ensures { result ≡ length self.now.0 + length self.now.1 }
    {
        self.entry.as_slice().len() + self.key.as_slice().len()
    }

    // How many of these bytes are left after both with their lengths, if they fit.
    fn left_of(&self, bytes: usize) -> Option<usize>
        ensures some { IfSome result
            (λ left. 4 + length self.now.0 + length self.now.1 + left ≡ bytes) }
        ensures none { IfNone result (bytes < 4 + length self.now.0 + length self.now.1) }
    {
        let head = LENGTHS + self.entry.as_slice().len();
        let key = self.key.as_slice().len();
        if bytes < head || bytes - head < key {
            return None;
        }
        Some(bytes - head - key)
    }
}

/// How many of the first items have no more bytes together than a Batch holds.
pub(crate) fn fitting(items: &[LogItem]) -> usize
    ensures { result ≡ fitting most_listed items.now }
{
    let mut left = MAX_LISTED;
    let mut count = 0;
    for item in items {
        match item.left_of(left) {
            Some(rest) => left = rest,
            None => return count,
        }
        count += 1;
    }
    count
}

/// Whether an entry and its key have more than 65,535 bytes together.
pub(crate) fn has_large(items: &[LogItem]) -> bool
    ensures { result ≡ has_large items.now }
{
    for item in items {
        if item.len() > MAX_ITEM {
            return true;
        }
    }
    false
}

/// The body of a Batch.
#[tactic(auto, unfolding(crate::specs::Records::batch_record))]
pub(crate) fn batch_record(alloc: Global, items: &[LogItem]) -> Result<Bytes, Memory>
    requires { CanBeBatch items.now }
    ensures { IfOk result (λ body. body ≡ batch_record items.now) }
{
    let mut body = Bytes::new(alloc);
    put_u8(&mut body, BATCH)?;
    put_u16(&mut body, items.len() as u16)?;
    for item in items {
        put_vec16(&mut body, item.entry.as_slice())?;
        put_vec16(&mut body, item.key.as_slice())?;
    }
    Ok(body)
}
