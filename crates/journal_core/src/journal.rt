//! A journal that is open for more records.

ghost use Rattle.std.specs.Prelude.{◌≡◌, ◌↔◌, ◌≤◌, ◌<◌, ◌+◌, min, max, [], ◌∷◌, length, true};
ghost use Rattle.std.specs.Prelude.{false, is_some, Some, IsTrue, IsErrOf, IfSome, IfOk, OnOk};
ghost use Rattle.std.proofs.Props.{props};
ghost use Rattle.byte_formats.specs.Types.{Text};
ghost use Rattle.mtc_io.specs.Counts.{HasCause};
ghost use Rattle.disk_core.specs.Disk.{part};
ghost use Rattle.disk_core.specs.Times.{LeavesOnly, OnlyReads};
ghost use Rattle.journal_core.specs.Format.{end_offset, most_bytes, Represents};
ghost use Rattle.journal_core.specs.Format.{RepresentsEither};
ghost use Rattle.journal_core.specs.Format.{records_of};
ghost use Rattle.journal_core.specs.Durable.{IsDurable, IsDurable-prop, Represents-records-prop};

use crate::error::AppendError;
use crate::format::pack;
use crate::record::number;
use disk_core::{Disk, read_part, write_synced};
use mtc_io::Failed;

// A journal file has at most so many bytes.
const LIMIT: u64 = 1 << 33;

/// A journal on a disk: all its records are on the disk, unless an append has failed.
pub struct Journal<D: Disk> {
    pub(crate) disk: D,
    pub(crate) end: u64,
    pub(crate) broken: bool,
    pub(crate) buffer: Vec<u8>,
    ghost capacity: { length buffer.items ≡ 131094 },
    ghost there: { end ≤ D.Disk.known disk },
    ghost begun: { 17 ≤ end },
    ghost stands: { (b : Text) → D.Disk.contents disk ≡ Some b
        → Represents b (records_of b) } by { Prim.hlevel (props, Represents-records-prop) },
    ghost is_durable: { broken ≡ false → (b : Text) → D.Disk.contents disk ≡ Some b
        → IsDurable b (D.Disk.may_leave disk) end } by { Prim.hlevel (props, IsDurable-prop) },
}

// A drop in one step: a derived one is proved field by field wherever a value is dropped.
impl<D: Disk + Drop> Drop for Journal<D> {
    fn drop(self) {
        let Journal {
            disk: _,
            end: _,
            broken: _,
            buffer: _,
        } = self;
    }
}

impl<D: Disk> Journal<D> {
    ghost use Rattle.journal_core.specs.Appends.{JournalAppends};
    ghost use Rattle.journal_core.specs.Words.{disk_of, end_of, is_broken, records, AppendLeaves};
    ghost use Rattle.journal_core.specs.Words.{HoldsBody, HoldsLength, HasSize};

    /// Adds a record of 1 to 131,072 bytes. At Ok a crash leaves the records with it; at any time
    /// of the call it leaves the old records, or these and the new one. Whatever it answers, it
    /// brings the known length of the disk no further than the closed commit byte after this
    /// record.
    ///
    /// Errors, in the order of the tests: `Broken` where an earlier call answered `Failed`; `Full`
    /// where the file would pass 2^33 bytes; `Failed`. The first two make no call of the disk. It
    /// takes no memory.
    pub fn append(&mut self, body: &[u8]) -> Result<(), AppendError>
        requires some { 1 ≤ length body.now }
        requires few { length body.now ≤ 131072 }
        ensures { JournalAppends body.now self.old self.new result }
    {
        self.put(body)
    }

    /// Fills `out` with the bytes from an offset on. Its range ends at or below the end. Over the
    /// range of a body, or of a part of one, it gives that, and over the four bytes before a body
    /// its length, the highest byte first. The first body lies at offset 21, each later one 5 bytes
    /// after the end of the one before. It does so even if an append has failed.
    pub fn read(&mut self, place: u64, out: &mut [u8]) -> Result<(), Failed>
        requires { place + length out.old ≤ end_of self.old }
        ensures read { OnOk result (IfSome (D.contents (disk_of self.old))
            (λ bytes. out.new ≡ part place (length out.old) bytes)) }
        ensures body { OnOk result (IfSome (records self.old) (HoldsBody place out.new)) }
        ensures length { OnOk result (IfSome (records self.old) (HoldsLength place out.new)) }
        ensures records { records self.new ≡ records self.old }
        ensures end { end_of self.new ≡ end_of self.old }
        ensures broken { is_broken self.new ≡ is_broken self.old }
        ensures only_reads { OnlyReads D.Disk (disk_of self.old) (disk_of self.new) }
        ensures cause { HasCause (D.faults (disk_of self.old)) (D.faults (disk_of self.new))
            result }
    {
        read_part(&mut self.disk, place, out)?;
        Ok(())
    }

    /// The number in the four bytes at an offset. Before a body these are its length, at most
    /// 131,072. This holds even if an append has failed.
    pub fn read_size(&mut self, place: u64) -> Result<u32, Failed>
        requires { place + 4 ≤ end_of self.old }
        ensures size { IfOk result (λ size. IfSome (records self.old) (HasSize place size)) }
        ensures records { records self.new ≡ records self.old }
        ensures end { end_of self.new ≡ end_of self.old }
        ensures broken { is_broken self.new ≡ is_broken self.old }
        ensures only_reads { OnlyReads D.Disk (disk_of self.old) (disk_of self.new) }
        ensures cause { HasCause (D.faults (disk_of self.old)) (D.faults (disk_of self.new))
            result }
    {
        let mut length = [0; 4];
        self.read(place, &mut length)?;
        Ok(number(&length))
    }

    /// The offset after the closed commit byte. The next body would begin four bytes further on.
    pub fn end(&self) -> u64
        ensures { result ≡ end_of self.now }
    {
        self.end
    }

    /// The end after a first record of so many bytes, or that of the journal if it comes first. The
    /// call doesn't read the disk.
    pub fn end_after_first(&self, size: u64) -> u64
        requires { size ≤ 131072 }
        ensures least { end_offset [] ≤ result }
        ensures most { result ≤ end_of self.now }
        ensures end { (first : Text) → length first ≡ size
            → result ≡ min (end_offset (first ∷ [])) (end_of self.now) }
    {
        (size + 22).min(self.end)
    }

    /// The disk, for another use.
    pub fn into_disk(self) -> D
        ensures { result ≡ disk_of self }
    {
        let Journal {
            disk,
            end: _,
            broken: _,
            buffer: _,
        } = self;
        disk
    }

    fn put(&mut self, body: &[u8]) -> Result<(), AppendError>
        requires some { 1 ≤ length body.now }
        requires few { length body.now ≤ 131072 }
        ensures leaves { AppendLeaves body.now self.old self.new result }
        ensures broken { IsErrOf result AppendError.Broken ↔ IsTrue (is_broken self.old) }
        ensures full { IsErrOf result AppendError.Full ↔ (is_broken self.old ≡ false)
            × (most_bytes < end_of self.old + 5 + length body.now) }
        ensures contents { is_some (records self.new) ≡ is_some (records self.old) }
        ensures any_time { is_broken self.old ≡ false
            → IfSome (records self.old) (λ list. LeavesOnly D.Disk (disk_of self.old)
            (disk_of self.new) (RepresentsEither list body.now)) }
        ensures count { D.faults (disk_of self.old) ≤ D.faults (disk_of self.new) }
        ensures reach { D.known (disk_of self.new)
            ≤ max (end_of self.old + 5 + length body.now) (D.known (disk_of self.old)) }
    {
        if self.broken {
            return Err(AppendError::Broken);
        }
        let size = body.len() as u64 + 5;
        if self.end > LIMIT - size {
            return Err(AppendError::Full);
        }
        self.broken = true;
        pack(&mut self.buffer, body);
        write_synced(&mut self.disk, self.end, &self.buffer[..body.len() + 5])?;
        write_synced(&mut self.disk, self.end - 1, &[1])?;
        self.end += size;
        self.broken = false;
        Ok(())
    }
}
