//! One record of a file.

ghost use Rattle.std.specs.Prelude.{◌≡◌, ◌≢◌, ◌≤◌, ◌<◌, ◌+◌, length, slice_index, IfSome, IfOk};
ghost use Rattle.std.specs.Prelude.{IfErr, MatchOption, MatchResult};
ghost use Rattle.std.specs.Int.{w32, to_be_bytes};
ghost use Rattle.mtc_io.specs.Counts.{HasCause};
ghost use Rattle.disk_core.specs.Disk.{part};
ghost use Rattle.disk_core.specs.Times.{OnlyReads};
ghost use Rattle.journal_core.specs.Format.{IsRecordAt, IsClosedAt};
ghost use Rattle.journal_core.specs.Opens.{HasReason, IsOfRecord};
ghost use Rattle.journal_core.specs.Windows.{Holds};

use crate::error::OpenError;
use crate::format::MAX_BODY;
use crate::held::hold;
use crate::window::Window;
use disk_core::Disk;
use mtc_io::Failed;

/// Where a body lies in the buffer of a window.
#[derive(Clone, Copy)]
pub(crate) struct Body {
    pub(crate) start: usize,
    pub(crate) size: usize,
}

fn read_commit_byte<D: Disk>(
    disk: &mut D,
    size: u64,
    window: &mut Window,
    place: u64,
) -> Result<u8, Failed>
    requires there { size ≤ D.known disk.old }
    requires within { place < size }
    requires holds { IfSome (D.contents disk.old) (Holds window.old) }
    requires exact { IfSome (D.contents disk.old) (λ b. size ≡ length b) }
    ensures commit_byte { IfOk result (λ commit_byte. IfSome (D.contents disk.old)
        (λ b. commit_byte ≡ slice_index b place)) }
    ensures holds { IfSome (D.contents disk.new) (Holds window.new) }
    ensures known { D.known disk.new ≡ D.known disk.old }
    ensures only_reads { OnlyReads D.Disk disk.old disk.new }
    ensures cause { HasCause (D.faults disk.old) (D.faults disk.new) result }
{
    let commit_byte = hold(disk, size, window, place, 1)?;
    Ok(window.buffer[commit_byte])
}

/// The number that four bytes encode, the highest first.
pub(crate) fn number(bytes: &[u8]) -> u32
    requires { length bytes.now ≡ 4 }
    ensures { to_be_bytes w32 result ≡ bytes.now }
{
    u32::from_be_bytes([bytes[0], bytes[1], bytes[2], bytes[3]])
}

// The length of the body, which follows the commit byte at the offset.
fn read_size<D: Disk>(
    disk: &mut D,
    size: u64,
    window: &mut Window,
    place: u64,
) -> Result<u32, Failed>
    requires there { size ≤ D.known disk.old }
    requires within { place + 5 ≤ size }
    requires holds { IfSome (D.contents disk.old) (Holds window.old) }
    requires exact { IfSome (D.contents disk.old) (λ b. size ≡ length b) }
    ensures size { IfOk result (λ n. IfSome (D.contents disk.old)
        (λ b. part (place + 1) 4 b ≡ to_be_bytes w32 n)) }
    ensures holds { IfSome (D.contents disk.new) (Holds window.new) }
    ensures known { D.known disk.new ≡ D.known disk.old }
    ensures only_reads { OnlyReads D.Disk disk.old disk.new }
    ensures cause { HasCause (D.faults disk.old) (D.faults disk.new) result }
{
    let commit_byte = hold(disk, size, window, place, 5)?;
    Ok(number(&window.buffer[commit_byte + 1..commit_byte + 5]))
}

// The body after an open commit byte.
fn read_body<D: Disk>(
    disk: &mut D,
    size: u64,
    window: &mut Window,
    place: u64,
) -> Result<Body, OpenError>
    requires there { size ≤ D.known disk.old }
    requires exact { IfSome (D.contents disk.old) (λ b. size ≡ length b) }
    requires open_commit_byte { IfSome (D.contents disk.old) (λ b. slice_index b place ≢ 0) }
    requires within { place < size }
    requires holds { IfSome (D.contents disk.old) (Holds window.old) }
    ensures body { IfOk result (λ body. IfSome (D.contents disk.old)
        (λ b. IsRecordAt b place (part body.start body.size window.new.buffer.items))) }
    ensures some { IfOk result (λ body. 1 ≤ body.size) }
    ensures few { IfOk result (λ body. body.size ≤ 131072) }
    ensures end { IfOk result (λ body. place + 5 + body.size ≤ size) }
    ensures inside { IfOk result (λ body. body.start + body.size ≤ 131094) }
    ensures reason { IfErr result (HasReason D.Disk disk.old disk.new place) }
    ensures kind { IfErr result IsOfRecord }
    ensures fine { MatchResult result (λ _. D.faults disk.new ≡ D.faults disk.old)
        (λ why. why ≢ OpenError.Failed → D.faults disk.new ≡ D.faults disk.old) }
    ensures holds { IfSome (D.contents disk.new) (Holds window.new) }
    ensures known { D.known disk.new ≡ D.known disk.old }
    ensures only_reads { OnlyReads D.Disk disk.old disk.new }
{
    if size - place < 5 {
        return Err(OpenError::CutShort(place));
    }
    let length = read_size(disk, size, window, place)? as usize;
    if length == 0 || length > MAX_BODY {
        return Err(OpenError::BadLength(place));
    }
    if size - place - 5 < length as u64 {
        return Err(OpenError::CutShort(place));
    }
    let commit_byte = hold(disk, size, window, place, length + 5)?;
    Ok(Body {
        start: commit_byte + 5,
        size: length,
    })
}

/// The body of the record at an offset, or none at a closed commit byte. It lies in the window
/// then.
pub(crate) fn read_record<D: Disk>(
    disk: &mut D,
    size: u64,
    window: &mut Window,
    place: u64,
) -> Result<Option<Body>, OpenError>
    requires there { size ≤ D.known disk.old }
    requires exact { IfSome (D.contents disk.old) (λ b. size ≡ length b) }
    requires holds { IfSome (D.contents disk.old) (Holds window.old) }
    ensures found { IfOk result (λ r. MatchOption r
        (IfSome (D.contents disk.old) (λ b. IsClosedAt b place))
        (λ body. IfSome (D.contents disk.old)
        (λ b. IsRecordAt b place (part body.start body.size window.new.buffer.items)))) }
    ensures within { IfOk result (λ r. MatchOption r (place < size)
        (λ body. (1 ≤ body.size) × (body.size ≤ 131072) × (place + 5 + body.size ≤ size)
        × (body.start + body.size ≤ 131094))) }
    ensures reason { IfErr result (HasReason D.Disk disk.old disk.new place) }
    ensures kind { IfErr result IsOfRecord }
    ensures fine { MatchResult result (λ _. D.faults disk.new ≡ D.faults disk.old)
        (λ why. why ≢ OpenError.Failed → D.faults disk.new ≡ D.faults disk.old) }
    ensures holds { IfSome (D.contents disk.new) (Holds window.new) }
    ensures known { D.known disk.new ≡ D.known disk.old }
    ensures only_reads { OnlyReads D.Disk disk.old disk.new }
{
    if place >= size {
        return Err(OpenError::CutShort(place));
    }
    if read_commit_byte(disk, size, window, place)? == 0 {
        return Ok(None);
    }
    let body = read_body(disk, size, window, place)?;
    Ok(Some(body))
}
