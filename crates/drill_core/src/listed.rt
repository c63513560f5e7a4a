//! The items of a drill's log, as a file of entries has them.

ghost use Rattle.std.specs.Prelude.{◌≡◌, ◌<◌, ◌++◌, length, Ok, IfOk, OnOk};
ghost use Rattle.entry_list.specs.Items.{file_text, listed_text};
ghost use Rattle.entry_list.specs.Reading.{items_in};
ghost use Rattle.issuance_log.specs.Words.{LogStays};
ghost use Rattle.drill_core.specs.Listed.{IsListedAt, log_items};
ghost use Rattle.drill_core.specs.LogParties.{IsSameLog, log_shown};
ghost use Rattle.drill_core.specs.Parties.{log_seen};

use crate::log_party::{LogParty, size_of};
use disk_core::MemDisk;
use issuance_log::Log;
use mtc_io::{Bytes, Memory};
use std::alloc::Global;
use tls_wire::put_vec16;
use tree_core::TreeHash;

// The item at an index: the entry and its key, instead of what the two byte strings held.
fn read_item<H: TreeHash>(
    log: &mut Log<H, MemDisk, MemDisk>,
    index: u64,
    entry: &mut Bytes,
    key: &mut Bytes,
) -> Result<(), Memory>
    requires { index < length (log_seen log.old).entries }
    ensures item { OnOk result (IsListedAt (log_seen log.old) index entry.new key.new) }
    ensures stays { LogStays log.old log.new }
{
    log.law_sound();
    match log.entry(index, entry, key) {
        Ok(()) => Ok(()),
        Err(_) => Err(Memory),
    }
}

// Appends the item at an index to the bytes, by way of two byte strings.
fn put_item<H: TreeHash>(
    log: &mut Log<H, MemDisk, MemDisk>,
    index: u64,
    entry: &mut Bytes,
    key: &mut Bytes,
    out: &mut Bytes,
) -> Result<(), Memory>
    requires { index < length (log_seen log.old).entries }
    ensures text { OnOk result
        (out.new ≡ out.old ++ listed_text (log_items (log_seen log.old)) index) }
    ensures stays { LogStays log.old log.new }
{
    read_item(log, index, entry, key)?;
    put_vec16(out, entry.as_slice())?;
    put_vec16(out, key.as_slice())
}

// The file of all items.
fn item_file<H: TreeHash>(
    alloc: Global,
    log: &mut Log<H, MemDisk, MemDisk>,
) -> Result<Bytes, Memory>
    ensures text { IfOk result (λ text. text
        ≡ file_text (log_items (log_seen log.old)) (length (log_seen log.old).entries)) }
    ensures stays { LogStays log.old log.new }
{
    let mut out = Bytes::new(alloc);
    let mut entry = Bytes::new(alloc);
    let mut key = Bytes::new(alloc);
    for index in 0..size_of(log) {
        put_item(log, index, &mut entry, &mut key, &mut out)?;
    }
    Ok(out)
}

impl<H: TreeHash> LogParty<H> {
    /// The file of its items, which is read as these.
    pub(crate) fn listed(&mut self, alloc: Global) -> Result<Bytes, Memory>
        ensures same { IsSameLog self.old self.new }
        ensures read { IfOk result
            (λ text. items_in H.hash text ≡ Ok (log_items (log_shown self.old))) }
    {
        self.log.law_sound();
        item_file(alloc, &mut self.log)
    }
}
