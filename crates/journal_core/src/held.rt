//! Bytes of a file that are held in memory while it is read.

ghost use Rattle.std.specs.Prelude.{◌≡◌, ◌≤◌, ◌+◌, length, take, IfSome, IfOk, OnOk};
ghost use Rattle.mtc_io.specs.Counts.{HasCause};
ghost use Rattle.disk_core.specs.Disk.{part};
ghost use Rattle.disk_core.specs.Times.{OnlyReads};
ghost use Rattle.journal_core.specs.Windows.{Holds};

use crate::format::LONGEST_WRITE;
use crate::window::Window;
use disk_core::{Disk, read_part};
use mtc_io::Failed;

// Bytes from an offset on, into a prefix of the buffer.
fn read_prefix<D: Disk>(
    disk: &mut D,
    place: u64,
    count: usize,
    buffer: &mut [u8],
) -> Result<(), Failed>
    requires there { place + count ≤ D.known disk.old }
    requires capacity { count ≤ length buffer.old }
    ensures read { OnOk result (IfSome (D.contents disk.old)
        (λ b. take count buffer.new ≡ part place count b)) }
    ensures known { D.known disk.new ≡ D.known disk.old }
    ensures only_reads { OnlyReads D.Disk disk.old disk.new }
    ensures cause { HasCause (D.faults disk.old) (D.faults disk.new) result }
{
    read_part(disk, place, &mut buffer[..count])?;
    Ok(())
}

/// The offset in the window of so many bytes of the file. If not all of them are there, it reads on
/// from the first of them, as far as the buffer reaches.
pub(crate) fn hold<D: Disk>(
    disk: &mut D,
    size: u64,
    window: &mut Window,
    place: u64,
    count: usize,
) -> Result<usize, Failed>
    requires there { size ≤ D.known disk.old }
    requires within { place + count ≤ size }
    requires few { count ≤ 131094 }
    requires holds { IfSome (D.contents disk.old) (Holds window.old) }
    ensures at { IfOk result (λ i. window.new.from + i ≡ place) }
    ensures all { OnOk result (place + count ≤ window.new.to) }
    ensures holds { IfSome (D.contents disk.new) (Holds window.new) }
    ensures known { D.known disk.new ≡ D.known disk.old }
    ensures only_reads { OnlyReads D.Disk disk.old disk.new }
    ensures cause { HasCause (D.faults disk.old) (D.faults disk.new) result }
{
    if window.from <= place && place + count as u64 <= window.to {
        return Ok((place - window.from) as usize);
    }
    let length = (size - place).min(LONGEST_WRITE as u64) as usize;
    window.from = place;
    window.to = place;
    read_prefix(disk, place, length, &mut window.buffer)?;
    window.to = place + length as u64;
    Ok(0)
}
