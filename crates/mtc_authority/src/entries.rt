//! The commands `entries` and `entries-from`: what a log holds, written while it is read.

ghost use Rattle.std.specs.Prelude.{◌≡◌, ◌<◌, ◌≤◌, ◌+◌, ◌++◌, length, true, IfErr, IfSome, OnErr};
ghost use Rattle.std.specs.Prelude.{OnOk};
ghost use Rattle.issuance_log.specs.Records.{IsShort};
ghost use Rattle.issuance_log.specs.Words.{LogStays, log_disk, modelled_state, view_of};
ghost use Rattle.mtc_io.specs.Counts.{HasCause, Rose};
ghost use Rattle.mtc_io.specs.Streams.{AppendsPrefix};
ghost use Rattle.mtc_command.specs.Answers.{replied, said, stop_ending};
ghost use Rattle.mtc_command.specs.declared.answer.Said.TheVariants.{Done};
ghost use Rattle.mtc_lines.specs.Outputs.{Streams};
ghost use Rattle.entry_list.specs.Items.{file_part, listed_text};
ghost use Rattle.mtc_authority.specs.LogOutcomes.{IsItemAt, PassesOn, StopsAt, beyond};
ghost use Rattle.mtc_authority.specs.LogOutcomes.{entries_from_reply, entries_reply, items_of};
ghost use Rattle.mtc_authority.specs.Works.{HasWorkedOnLog, RepliesOnLog, lists_items, log_says};

use crate::work::Work;
use disk_core::Disk;
use issuance_log::{Log, LogError};
use mtc_command::{Reason, Stop, Stopped, refuse};
use mtc_io::{Bytes, Failed, Sink, write_all};
use mtc_lines::Written;
use std::alloc::Global;
use tls_wire::put_vec16;
use tree_core::TreeHash;

// Items are written once they have so many bytes together.
const PIECE: usize = 4096;

/// The refusal where the asked size is above that of the log.
pub fn too_many<'a>(size: u64) -> Stop<'a>
    ensures { stop_ending result ≡ replied (beyond size) }
{
    refuse(Stopped::NotAllowed, Reason::with_number("Beyond", size))
}

// The item at an index: the entry and its key, instead of what the two byte strings held.
fn read_item<'a, H: TreeHash, D: Disk>(
    journal: &'a str,
    log: &mut Log<H, D, D>,
    index: u64,
    entry: &mut Bytes,
    key: &mut Bytes,
) -> Result<(), Stop<'a>>
    requires { index < (view_of log.old).size }
    ensures item { OnOk result (IfSome (modelled_state log.old)
        (λ s. IsItemAt s index entry.new key.new)) }
    ensures short { OnOk result (IsShort entry.new × IsShort key.new) }
    ensures stops { IfErr result (λ stop. StopsAt (Rose (D.faults (log_disk log.old))
        (D.faults (log_disk log.new))) journal.now (stop_ending stop)) }
    ensures stays { LogStays log.old log.new }
{
    log.law_sound();
    match log.entry(index, entry, key) {
        Ok(()) => Ok(()),
        Err(LogError::Failed) => Err(Stop::Room(journal)),
        // The log has the item, so memory was refused.
        Err(_) => Err(Stop::Memory),
    }
}

// Appends the item at an index to the bytes: the entry and its key, each after its length of two
// bytes. They are copied by way of two byte strings, whatever these hold.
fn put_item<'a, H: TreeHash, D: Disk>(
    journal: &'a str,
    log: &mut Log<H, D, D>,
    index: u64,
    entry: &mut Bytes,
    key: &mut Bytes,
    out: &mut Bytes,
) -> Result<(), Stop<'a>>
    requires { index < (view_of log.old).size }
    ensures text { OnOk result (IfSome (modelled_state log.old)
        (λ s. out.new ≡ out.old ++ listed_text (items_of s) index)) }
    ensures stops { IfErr result (λ stop. StopsAt (Rose (D.faults (log_disk log.old))
        (D.faults (log_disk log.new))) journal.now (stop_ending stop)) }
    ensures stays { LogStays log.old log.new }
{
    read_item(journal, log, index, entry, key)?;
    put_vec16(out, entry.as_slice())?;
    put_vec16(out, key.as_slice())?;
    Ok(())
}

// Writes the bytes that are held once there are so many of them, and then holds none.
fn pass_on<O: Sink>(out: &mut O, held: &mut Bytes, least: usize) -> Result<(), Failed>
    requires { 0 < least }
    ensures passed { OnOk result
        (PassesOn (O.taken out.old) (O.taken out.new) held.old held.new) }
    ensures few { OnOk result (length held.new < least) }
    ensures some { OnErr result (0 < length held.old) }
    ensures prefix { AppendsPrefix (O.taken out.old) (O.taken out.new) held.old }
    ensures cause { HasCause (O.faults out.old) (O.faults out.new) result }
{
    if held.len() < least {
        return Ok(());
    }
    write_all(out, held.as_slice())?;
    held.truncate(0);
    Ok(())
}

// Writes so many of the items from an index on, while it reads them.
fn write_items<'a, H: TreeHash, D: Disk, O: Sink>(
    alloc: Global,
    journal: &'a str,
    log: &mut Log<H, D, D>,
    first: u64,
    count: u64,
    out: &mut O,
) -> Result<Written, Stop<'a>>
    requires { first + count ≤ (view_of log.old).size }
    ensures streams { Streams O.Sink out.old out.new (RepliesOnLog journal.now
        (λ s. said Done (file_part (items_of s) first count)) log.old log.new) result }
    ensures stays { LogStays log.old log.new }
{
    let mut entry = Bytes::new(alloc);
    let mut key = Bytes::new(alloc);
    let mut held = Bytes::new(alloc);
    for number in 0..count {
        put_item(
            journal,
            log,
            first + number,
            &mut entry,
            &mut key,
            &mut held,
        )?;
        match pass_on(out, &mut held, PIECE) {
            Ok(()) => {}
            Err(failed) => return Ok(Err(failed)),
        }
    }
    Ok(pass_on(out, &mut held, 1))
}

// The work of `entries J SIZE`.
fn entries<'a, H: TreeHash, D: Disk, O: Sink>(
    alloc: Global,
    journal: &'a str,
    log: &mut Log<H, D, D>,
    size: u64,
    out: &mut O,
) -> Result<Written, Stop<'a>>
    ensures streams { Streams O.Sink out.old out.new
        (RepliesOnLog journal.now (entries_reply size) log.old log.new) result }
    ensures stays { LogStays log.old log.new }
{
    log.law_sound();
    if log.size() < size {
        return Err(too_many(log.size()));
    }
    write_items(alloc, journal, log, 0, size, out)
}

// The work of `entries-from J FIRST SIZE`.
fn entries_from<'a, H: TreeHash, D: Disk, O: Sink>(
    alloc: Global,
    journal: &'a str,
    log: &mut Log<H, D, D>,
    first: u64,
    size: u64,
    out: &mut O,
) -> Result<Written, Stop<'a>>
    ensures streams { Streams O.Sink out.old out.new
        (RepliesOnLog journal.now (entries_from_reply first size) log.old log.new) result }
    ensures stays { LogStays log.old log.new }
{
    log.law_sound();
    if size <= first {
        return Err(refuse(Stopped::NotAllowed, Reason::named("NothingNew")));
    }
    if log.size() < size {
        return Err(too_many(log.size()));
    }
    write_items(alloc, journal, log, first, size - first, out)
}

/// Carries out a work that lists items, on the log of a journal. Its refusals come before the first
/// byte. It holds one item and at most so many bytes as are written at once.
#[tactic(auto, unfolding(crate::specs::Works::log_says))]
pub(crate) fn write_entries<'a, H: TreeHash, D: Disk, O: Sink>(
    alloc: Global,
    journal: &'a str,
    log: &mut Log<H, D, D>,
    work: Work,
    out: &mut O,
) -> Result<Written, Stop<'a>>
    requires { lists_items work ≡ true }
    ensures streams { Streams O.Sink out.old out.new
        (HasWorkedOnLog journal.now (log_says H.hash work) log.old log.new) result }
    ensures stays { LogStays log.old log.new }
{
    match work {
        Work::Entries(size) => entries(alloc, journal, log, size, out),
        Work::EntriesFrom(first, size) => entries_from(alloc, journal, log, first, size, out),
        _ => unreachable!(),
    }
}
