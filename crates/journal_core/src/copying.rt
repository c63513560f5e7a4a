//! Records of a journal, copied as they stand in it.

ghost use Rattle.std.specs.Prelude.{◌≡◌, ◌≤◌, ◌<◌, ◌+◌, ◌^◌, [], length, List, IfSome, IfOk, OnOk};
ghost use Rattle.std.specs.Io.KnownBytes.{Appends};
ghost use Rattle.mtc_io.specs.Counts.{HasCause};
ghost use Rattle.mtc_io.specs.Streams.{AppendsPrefix};
ghost use Rattle.byte_formats.specs.Types.{Text};
ghost use Rattle.disk_core.specs.Disk.{part};
ghost use Rattle.journal_core.specs.Copies.{AppendsSome, HasCopyCause, IsOnlyRead, sized};
ghost use Rattle.journal_core.specs.Copies.{sized_text};
ghost use Rattle.journal_core.specs.Ends.{StandBetween};
ghost use Rattle.journal_core.specs.Format.{AreRecordsAt, IsRecordAt, following, end_offset};
ghost use Rattle.journal_core.specs.Words.{disk_of, end_of};

use crate::error::CopyError;
use crate::journal::Journal;
use disk_core::Disk;
use mtc_io::{Failed, Sink, write_all};

// Records are copied in pieces of so many bytes.
const PIECE: usize = 4096;

// Writes a piece of the journal by way of a buffer.
fn copy_piece<D: Disk, O: Sink>(
    journal: &mut Journal<D>,
    place: u64,
    length: usize,
    out: &mut O,
) -> Result<(), CopyError>
    requires few { length ≤ 4096 }
    requires within { place + length ≤ end_of journal.old }
    ensures ok { OnOk result (IfSome (D.contents (disk_of journal.old))
        (λ bytes. Appends (O.taken out.old) (O.taken out.new) (part place length bytes))) }
    ensures prefix { IfSome (D.contents (disk_of journal.old))
        (λ bytes. AppendsPrefix (O.taken out.old) (O.taken out.new) (part place length bytes)) }
    ensures kept { IsOnlyRead journal.old journal.new }
    ensures grows { AppendsSome (O.taken out.old) (O.taken out.new) }
    ensures cause { HasCopyCause (D.faults (disk_of journal.old)) (O.faults out.old)
        (D.faults (disk_of journal.new)) (O.faults out.new) result }
{
    let mut buffer = [0; PIECE];
    let piece = &mut buffer[..length];
    match journal.read(place, piece) {
        Ok(()) => {}
        Err(Failed) => return Err(CopyError::Read),
    }
    match write_all(out, piece) {
        Ok(()) => Ok(()),
        Err(Failed) => Err(CopyError::Write),
    }
}

// Writes so many bytes of the journal, from an offset on.
fn copy<D: Disk, O: Sink>(
    journal: &mut Journal<D>,
    place: u64,
    count: u64,
    out: &mut O,
) -> Result<(), CopyError>
    requires far { end_of journal.old < 2 ^ 64 }
    requires within { place + count ≤ end_of journal.old }
    ensures ok { OnOk result (IfSome (D.contents (disk_of journal.old))
        (λ bytes. Appends (O.taken out.old) (O.taken out.new) (part place count bytes))) }
    ensures prefix { IfSome (D.contents (disk_of journal.old))
        (λ bytes. AppendsPrefix (O.taken out.old) (O.taken out.new) (part place count bytes)) }
    ensures kept { IsOnlyRead journal.old journal.new }
    ensures grows { AppendsSome (O.taken out.old) (O.taken out.new) }
    ensures cause { HasCopyCause (D.faults (disk_of journal.old)) (O.faults out.old)
        (D.faults (disk_of journal.new)) (O.faults out.new) result }
{
    let mut done = 0;
    while done < count {
        let length = (count - done).min(PIECE as u64);
        copy_piece(journal, place + done, length as usize, out)?;
        done += length;
    }
    Ok(())
}

// The length of the body after a commit byte. A disk may give any; it is no more than there can be.
fn body_size<D: Disk>(journal: &mut Journal<D>, commit_byte: u64) -> Result<u64, Failed>
    requires { commit_byte + 6 ≤ end_of journal.old }
    ensures within { IfOk result (λ size. commit_byte + 6 + size ≤ end_of journal.old) }
    ensures size { IfOk result (λ size. IfSome (D.contents (disk_of journal.old)) (λ bytes.
        (body : Text) → IsRecordAt bytes commit_byte body
        → commit_byte + 6 + length body ≤ end_of journal.old
        → size ≡ length body)) }
    ensures kept { IsOnlyRead journal.old journal.new }
    ensures cause { HasCause (D.faults (disk_of journal.old)) (D.faults (disk_of journal.new))
        result }
{
    let mut size = [0; 4];
    let most = journal.end() - commit_byte - 6;
    journal.read(commit_byte + 1, &mut size)?;
    Ok((u32::from_be_bytes(size) as u64).min(most))
}

// Writes the record after a commit byte, with its length, and answers the offset of the next commit
// byte.
fn copy_record<D: Disk, O: Sink>(
    journal: &mut Journal<D>,
    commit_byte: u64,
    out: &mut O,
) -> Result<u64, CopyError>
    requires far { end_of journal.old < 2 ^ 64 }
    requires within { commit_byte + 6 ≤ end_of journal.old }
    ensures within { IfOk result (λ next. (commit_byte < next) × (next + 1 ≤ end_of journal.old)) }
    ensures next { IfOk result (λ next. IfSome (D.contents (disk_of journal.old)) (λ bytes.
        (body : Text) → IsRecordAt bytes commit_byte body
        → commit_byte + 6 + length body ≤ end_of journal.old
        → next ≡ commit_byte + 5 + length body)) }
    ensures ok { OnOk result (IfSome (D.contents (disk_of journal.old)) (λ bytes.
        (body : Text) → IsRecordAt bytes commit_byte body
        → commit_byte + 6 + length body ≤ end_of journal.old
        → Appends (O.taken out.old) (O.taken out.new) (sized body))) }
    ensures prefix { IfSome (D.contents (disk_of journal.old)) (λ bytes.
        (body : Text) → IsRecordAt bytes commit_byte body
        → commit_byte + 6 + length body ≤ end_of journal.old
        → AppendsPrefix (O.taken out.old) (O.taken out.new) (sized body)) }
    ensures kept { IsOnlyRead journal.old journal.new }
    ensures grows { AppendsSome (O.taken out.old) (O.taken out.new) }
    ensures cause { HasCopyCause (D.faults (disk_of journal.old)) (O.faults out.old)
        (D.faults (disk_of journal.new)) (O.faults out.new) result }
{
    let size = match body_size(journal, commit_byte) {
        Ok(size) => size,
        Err(Failed) => return Err(CopyError::Read),
    };
    copy(journal, commit_byte + 1, 4 + size, out)?;
    Ok(commit_byte + 5 + size)
}

// Writes the records from a commit byte on, each with its length, up to the end of the journal.
fn copy_records<D: Disk, O: Sink>(
    journal: &mut Journal<D>,
    first: u64,
    out: &mut O,
) -> Result<(), CopyError>
    requires { first + 1 ≤ end_of journal.old }
    ensures ok { OnOk result (IfSome (D.contents (disk_of journal.old)) (λ bytes.
        (bodies : List Text) → AreRecordsAt bytes first bodies
        → end_of journal.old ≡ following first bodies + 1
        → Appends (O.taken out.old) (O.taken out.new) (sized_text bodies))) }
    ensures prefix { IfSome (D.contents (disk_of journal.old)) (λ bytes.
        (bodies : List Text) → AreRecordsAt bytes first bodies
        → end_of journal.old ≡ following first bodies + 1
        → AppendsPrefix (O.taken out.old) (O.taken out.new) (sized_text bodies)) }
    ensures kept { IsOnlyRead journal.old journal.new }
    ensures grows { AppendsSome (O.taken out.old) (O.taken out.new) }
    ensures cause { HasCopyCause (D.faults (disk_of journal.old)) (O.faults out.old)
        (D.faults (disk_of journal.new)) (O.faults out.new) result }
{
    let end = journal.end();
    let mut commit_byte = first;
    while end - commit_byte >= 6 {
        commit_byte = copy_record(journal, commit_byte, out)?;
    }
    Ok(())
}

/// Writes the records after an end, each after its length of four bytes, the highest first. It
/// writes while it reads, takes no memory, and leaves the journal as it was. It stops at the end of
/// the journal, which an append that fails leaves where it was. Whatever the disk gives, the sink
/// keeps what it took before.
///
/// Errors: `Read` where the disk fails, and `Write` where the sink does. A prefix is written then.
pub fn copy_after<D: Disk, O: Sink>(
    journal: &mut Journal<D>,
    from: u64,
    out: &mut O,
) -> Result<(), CopyError>
    requires begun { end_offset [] ≤ from }
    requires within { from ≤ end_of journal.old }
    ensures ok { OnOk result (IfSome (D.contents (disk_of journal.old)) (λ bytes.
        (bodies : List Text) → StandBetween bytes from (end_of journal.old) bodies
        → Appends (O.taken out.old) (O.taken out.new) (sized_text bodies))) }
    ensures prefix { IfSome (D.contents (disk_of journal.old)) (λ bytes.
        (bodies : List Text) → StandBetween bytes from (end_of journal.old) bodies
        → AppendsPrefix (O.taken out.old) (O.taken out.new) (sized_text bodies)) }
    ensures kept { IsOnlyRead journal.old journal.new }
    ensures grows { AppendsSome (O.taken out.old) (O.taken out.new) }
    ensures cause { HasCopyCause (D.faults (disk_of journal.old)) (O.faults out.old)
        (D.faults (disk_of journal.new)) (O.faults out.new) result }
{
    copy_records(journal, from - 1, out)
}
