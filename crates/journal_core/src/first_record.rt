//! The first record of a journal.

ghost use Rattle.std.specs.Prelude.{◌≡◌, ◌≢◌, ◌≤◌, ◌+◌, [], ◌∷◌, length, take, is_some, option_map};
ghost use Rattle.std.specs.Prelude.{IfSome, IfOk, IfErr, OnOk};
ghost use Rattle.mtc_io.specs.Counts.{HasCause};
ghost use Rattle.disk_core.specs.Disk.{overwritten, part, Only};
ghost use Rattle.disk_core.specs.Times.{OnlyReads};
ghost use Rattle.journal_core.specs.Format.{new_file_of};
ghost use Rattle.journal_core.specs.Starts.{HasStarted, IsNotStarted};

use crate::error::{Refused, StartError, return_rest};
use crate::format::{buffer, pack_first};
use crate::journal::Journal;
use disk_core::{Disk, read_len, write_synced};
use mtc_io::{Failed, Memory};
use std::alloc::Global;

/// The first record of a journal, packed for its disk. All the memory that the journal takes is
/// taken.
#[derive(Drop)]
pub struct FirstRecord {
    buffer: Vec<u8>,
    size: usize,
    ghost capacity: { length buffer.items ≡ 131094 },
    ghost some: { 1 ≤ size },
    ghost few: { size ≤ 131072 },
    ghost packed: { take (22 + size) buffer.items ≡ new_file_of (part 21 size buffer.items) },
}

// The header, the record after a closed commit byte, and then the commit byte.
fn write_first<D: Disk>(disk: &mut D, bytes: &[u8]) -> Result<(), Failed>
    requires some { 22 ≤ length bytes.now }
    requires few { length bytes.now ≤ 131094 }
    ensures written { OnOk result (D.contents disk.new ≡ option_map
        (λ b. overwritten 16 (1 ∷ []) (overwritten 0 bytes.now b)) (D.contents disk.old)) }
    ensures durable { OnOk result
        (IfSome (D.contents disk.new) (λ b. Only b (D.may_leave disk.new))) }
    ensures known { OnOk result (length bytes.now ≤ D.known disk.new) }
    ensures contents { is_some (D.contents disk.new) ≡ is_some (D.contents disk.old) }
    ensures cause { HasCause (D.faults disk.old) (D.faults disk.new) result }
{
    write_synced(disk, 0, bytes)?;
    write_synced(disk, 16, &[1])
}

impl FirstRecord {
    ghost use Rattle.journal_core.specs.Packed.{first_body};

    /// Packs a record of 1 to 131,072 bytes.
    pub fn pack(alloc: Global, first: &[u8]) -> Result<FirstRecord, Memory>
        requires some { 1 ≤ length first.now }
        requires few { length first.now ≤ 131072 }
        ensures { IfOk result (λ it. first_body it ≡ first.now) }
    {
        let mut buffer = buffer(alloc)?;
        pack_first(&mut buffer, first);
        Ok(FirstRecord {
            buffer,
            size: first.len(),
        })
    }

    /// Begins a journal on an empty disk, with this record. At Ok a crash leaves that record. It
    /// takes no memory.
    ///
    /// Errors, in the order of the tests: `Failed`, `NotEmpty` where the disk holds bytes. A first
    /// write that fails may leave anything on a disk that was empty; one with bytes was only read.
    /// A refusal returns the disk.
    pub fn start<D: Disk>(self, mut disk: D) -> Result<Journal<D>, Refused<D, StartError>>
        ensures ok { IfOk result (HasStarted (first_body self) disk) }
        ensures err { IfErr result (λ e. IsNotStarted D.Disk disk e.disk e.why) }
        ensures never { IfErr result (λ e. e.why ≢ StartError.Memory) }
        ensures spared { IfErr result (λ e. IfSome (D.contents disk)
            (λ b. b ≢ [] → OnlyReads D.Disk disk e.disk)) }
    {
        let length = match read_len(&mut disk) {
            Ok(length) => length,
            Err(failed) => return Err(return_rest(disk, failed.into())),
        };
        if length != 0 {
            return Err(return_rest(disk, StartError::NotEmpty));
        }
        match write_first(&mut disk, &self.buffer[..self.size + 22]) {
            Ok(()) => Ok(Journal {
                disk,
                end: self.size as u64 + 22,
                broken: false,
                buffer: self.buffer,
            }),
            Err(failed) => Err(return_rest(disk, failed.into())),
        }
    }
}

/// Packs a first record of 1 to 131,072 bytes, and begins a journal on an empty disk with it. At Ok
/// a crash leaves that record.
///
/// Errors, in the order of the tests: `Memory` for the buffer, `Failed`, `NotEmpty` where the disk
/// holds bytes. A first write that fails may leave anything on a disk that was empty; one with
/// bytes was only read. A refusal returns the disk.
pub fn start<D: Disk>(
    alloc: Global,
    disk: D,
    first: &[u8],
) -> Result<Journal<D>, Refused<D, StartError>>
    requires some { 1 ≤ length first.now }
    requires few { length first.now ≤ 131072 }
    ensures ok { IfOk result (HasStarted first.now disk) }
    ensures err { IfErr result (λ e. IsNotStarted D.Disk disk e.disk e.why) }
    ensures spared { IfErr result (λ e. IfSome (D.contents disk)
        (λ b. b ≢ [] → OnlyReads D.Disk disk e.disk)) }
{
    match FirstRecord::pack(alloc, first) {
        Ok(packed) => packed.start(disk),
        Err(Memory) => Err(return_rest(disk, StartError::Memory)),
    }
}
