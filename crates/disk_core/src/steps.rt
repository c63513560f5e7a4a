//! The steps that a user of a disk takes: it reads, it makes what is there durable, or it writes
//! and syncs.

ghost use Rattle.std.specs.Prelude.{◌≡◌, ◌+◌, ◌^◌, ◌<◌, ◌≤◌, max, length, is_some, option_map};
ghost use Rattle.std.specs.Prelude.{IfSome, IfOk, OnOk, MatchResult};
ghost use Rattle.byte_formats.specs.Types.{Text};
ghost use Rattle.mtc_io.specs.Counts.{Rose, HasCause};
ghost use Rattle.disk_core.specs.Disk.{overwritten, part, Torn, Only};
ghost use Rattle.disk_core.specs.Times.{LeavesOnly, OnlyReads};

use crate::disk::Disk;
use mtc_io::Failed;

/// Writes, and syncs. At Ok a crash leaves what a read gives; at any time of the call it leaves a
/// crash state from before, or one that this write has torn. Whatever it answers, it brings the
/// known length no further than the end of these bytes.
pub fn write_synced<D: Disk>(disk: &mut D, place: u64, bytes: &[u8]) -> Result<(), Failed>
    requires place { place ≤ D.known disk.old }
    requires end { place + length bytes.now < 2 ^ 63 }
    ensures written { OnOk result (D.contents disk.new ≡ option_map (overwritten place bytes.now)
        (D.contents disk.old)) }
    ensures durable { OnOk result
        (IfSome (D.contents disk.new) (λ b. Only b (D.may_leave disk.new))) }
    ensures known { OnOk result (D.known disk.new
        ≡ max (place + length bytes.now) (D.known disk.old)) }
    ensures known_kept { D.known disk.old ≤ D.known disk.new }
    ensures reach { D.known disk.new ≤ max (place + length bytes.now) (D.known disk.old) }
    ensures contents { is_some (D.contents disk.new) ≡ is_some (D.contents disk.old) }
    ensures any_time { LeavesOnly D.Disk disk.old disk.new
        (λ c. (d : Text) × D.may_leave disk.old d × Torn place bytes.now d c) }
    ensures clock { OnOk result (Rose (D.clock_at disk.old) (D.clock_at disk.new)) }
    ensures cause { HasCause (D.faults disk.old) (D.faults disk.new) result }
{
    disk.write_at(place, bytes)?;
    disk.sync()
}

/// The number of bytes, as [`Disk::len`].
pub fn read_len<D: Disk>(disk: &mut D) -> Result<u64, Failed>
    ensures length { IfOk result (λ n. IfSome (D.contents disk.old) (λ b. n ≡ length b)) }
    ensures known { MatchResult result (λ n. D.known disk.new ≡ max n (D.known disk.old))
        (λ _. D.known disk.new ≡ D.known disk.old) }
    ensures only_reads { OnlyReads D.Disk disk.old disk.new }
    ensures clock { OnOk result (Rose (D.clock_at disk.old) (D.clock_at disk.new)) }
    ensures cause { HasCause (D.faults disk.old) (D.faults disk.new) result }
{
    disk.len()
}

/// The bytes from an offset on, as [`Disk::read_at`].
pub fn read_part<D: Disk>(disk: &mut D, place: u64, out: &mut [u8]) -> Result<(), Failed>
    requires { place + length out.old ≤ D.known disk.old }
    ensures read { OnOk result (IfSome (D.contents disk.old)
        (λ b. out.new ≡ part place (length out.old) b)) }
    ensures known { D.known disk.new ≡ D.known disk.old }
    ensures only_reads { OnlyReads D.Disk disk.old disk.new }
    ensures clock { OnOk result (Rose (D.clock_at disk.old) (D.clock_at disk.new)) }
    ensures cause { HasCause (D.faults disk.old) (D.faults disk.new) result }
{
    disk.read_at(place, out)
}

/// Makes durable what was there, as [`Disk::sync`].
pub fn make_durable<D: Disk>(disk: &mut D) -> Result<(), Failed>
    ensures durable { OnOk result
        (IfSome (D.contents disk.new) (λ b. Only b (D.may_leave disk.new))) }
    ensures known { D.known disk.new ≡ D.known disk.old }
    ensures only_reads { OnlyReads D.Disk disk.old disk.new }
    ensures clock { OnOk result (Rose (D.clock_at disk.old) (D.clock_at disk.new)) }
    ensures cause { HasCause (D.faults disk.old) (D.faults disk.new) result }
{
    disk.sync()
}
