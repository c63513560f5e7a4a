//! An entry and its key, read back from the journal.

ghost use Rattle.std.specs.Prelude.{◌≡◌, ◌+◌, ◌≤◌, [], length, IfSome, IfOk, IfErr, OnOk};
ghost use Rattle.std.specs.Prelude.{OnErr};
ghost use Rattle.byte_formats.specs.Types.{Text};
ghost use Rattle.disk_core.specs.Times.{OnlyReads};
ghost use Rattle.journal_core.specs.Words.{disk_of, end_of, is_broken, records};
ghost use Rattle.issuance_log.specs.Entries.{AgreesWithBody, IsNoAnswer, LogCounts};
ghost use Rattle.issuance_log.specs.ItemOffsets.{IsAtOffset};
ghost use Rattle.issuance_log.specs.Records.{IsShort};

use crate::error::LogError;
use crate::record::next_item;
use disk_core::Disk;
use journal_core::Journal;
use mtc_io::{Bytes, Memory};
use std::alloc::Global;

// An item has at most so many bytes: an entry and a key, each after its length of two bytes.
const LONGEST: u64 = 2 * (2 + 65535);

fn zeros(alloc: Global, size: usize) -> Result<Vec<u8>, Memory>
    ensures { IfOk result (λ bytes. length bytes.items ≡ size) }
{
    Ok(vec![in alloc; 0; size]?)
}

// So many bytes from an offset on.
fn read_bytes<D: Disk>(
    alloc: Global,
    journal: &mut Journal<D>,
    place: u64,
    size: usize,
) -> Result<Vec<u8>, LogError>
    requires { place + size ≤ end_of journal.old }
    ensures bytes { IfOk result (λ bytes. IfSome (records journal.old)
        (AgreesWithBody place bytes.items)) }
    ensures none { IfErr result IsNoAnswer }
    ensures records { records journal.new ≡ records journal.old }
    ensures end { end_of journal.new ≡ end_of journal.old }
    ensures broken { is_broken journal.new ≡ is_broken journal.old }
    ensures only_reads { OnlyReads D.Disk (disk_of journal.old) (disk_of journal.new) }
    ensures cause { LogCounts (D.faults (disk_of journal.old)) (D.faults (disk_of journal.new))
        result }
{
    let mut bytes = zeros(alloc, size)?;
    journal.read(place, &mut bytes)?;
    Ok(bytes)
}

// Two byte strings into two empty ones, which stay empty where memory is refused.
fn copy_both(first: &[u8], second: &[u8], entry: &mut Bytes, spki: &mut Bytes) -> Result<(), Memory>
    requires entry { entry.old ≡ [] }
    requires spki { spki.old ≡ [] }
    ensures ok { OnOk result ((entry.new ≡ first.now) × (spki.new ≡ second.now)) }
    ensures err { OnErr result ((entry.new ≡ []) × (spki.new ≡ [])) }
{
    entry.append(first)?;
    if spki.append(second).is_err() {
        entry.truncate(0);
        return Err(Memory);
    }
    Ok(())
}

/// The entry and the key at an offset inside the body of a record, into two empty byte strings.
/// They stay empty after a refusal: `Failed`, or out of memory. The latter is answered too if a
/// disk whose bytes the model doesn't know gives no item there. The disk is read once: up to the
/// offset of what comes next, which is at least where the item ends, and no further than the
/// longest item could end.
pub(crate) fn read_entry<D: Disk>(
    alloc: Global,
    journal: &mut Journal<D>,
    place: u64,
    next: u64,
    entry: &mut Bytes,
    spki: &mut Bytes,
) -> Result<(), LogError>
    requires place { place + 4 ≤ end_of journal.old }
    requires entry { entry.old ≡ [] }
    requires spki { spki.old ≡ [] }
    ensures item { OnOk result (IfSome (records journal.old) (λ list. (item : Text × Text)
        → IsAtOffset list place item → item ≡ (entry.new, spki.new))) }
    ensures short { OnOk result (IsShort entry.new × IsShort spki.new) }
    ensures err { OnErr result ((entry.new ≡ []) × (spki.new ≡ [])) }
    ensures why { IfErr result IsNoAnswer }
    ensures records { records journal.new ≡ records journal.old }
    ensures end { end_of journal.new ≡ end_of journal.old }
    ensures broken { is_broken journal.new ≡ is_broken journal.old }
    ensures only_reads { OnlyReads D.Disk (disk_of journal.old) (disk_of journal.new) }
    ensures cause { LogCounts (D.faults (disk_of journal.old)) (D.faults (disk_of journal.new))
        result }
{
    let last = next.min(journal.end());
    let size = last.saturating_sub(place).min(LONGEST) as usize;
    let bytes = read_bytes(alloc, journal, place, size)?;
    match next_item(&bytes) {
        Some((first, second, _later)) => {
            copy_both(first, second, entry, spki)?;
            Ok(())
        }
        None => Err(LogError::Memory),
    }
}
