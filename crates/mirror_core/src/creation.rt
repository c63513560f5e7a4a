//! The journal of a new mirror.

ghost use Rattle.std.specs.Prelude.{◌≡◌, ◌≢◌, [], ◌∷◌, Ok, IfSome, IfOk, IfErr};
ghost use Rattle.byte_formats.specs.Types.{HashFunction};
ghost use Rattle.disk_core.specs.Times.{OnlyReads};
ghost use Rattle.journal_core.specs.Packed.{first_body};
ghost use Rattle.journal_core.specs.Starts.{HasStarted, IsNotStarted};
ghost use Rattle.mirror_core.specs.Folds.{mirror_of, new_mirror};
ghost use Rattle.mirror_core.specs.Records.{mirror_record};

use crate::record::mirror_record;
use disk_core::Disk;
use journal_core::{FirstRecord, Journal, Refused, StartError};
use mtc_io::Memory;
use std::alloc::Global;
use tls_wire::AnchorId;

/// Packs the one record of a new mirror, before there is a disk: a journal that is started with it
/// takes no further memory. The record makes the mirror with no items.
pub fn pack(alloc: Global, log: &AnchorId) -> Result<FirstRecord, Memory>
    ensures body { IfOk result (λ it. first_body it ≡ mirror_record log.now) }
    ensures valid { (h : HashFunction)
        → mirror_of h (mirror_record log.now ∷ []) ≡ Ok (new_mirror log.now) }
{
    let record = mirror_record(alloc, log)?;
    FirstRecord::pack(alloc, record.as_slice())
}

/// Begins the journal of a new mirror on an empty disk. At Ok a crash leaves the journal, and its
/// one record makes the mirror with no items.
///
/// Errors, in the order of the tests: `Memory`, `Failed`, `NotEmpty` where the disk holds bytes. A
/// refusal returns the disk; one that holds bytes was only read.
pub fn create<D: Disk>(
    alloc: Global,
    disk: D,
    log: &AnchorId,
) -> Result<Journal<D>, Refused<D, StartError>>
    ensures ok { IfOk result (HasStarted (mirror_record log.now) disk) }
    ensures err { IfErr result (λ e. IsNotStarted D.Disk disk e.disk e.why) }
    ensures spared { IfErr result (λ e. IfSome (D.contents disk)
        (λ b. b ≢ [] → OnlyReads D.Disk disk e.disk)) }
    ensures valid { (h : HashFunction)
        → mirror_of h (mirror_record log.now ∷ []) ≡ Ok (new_mirror log.now) }
{
    match pack(alloc, log) {
        Ok(packed) => packed.start(disk),
        Err(Memory) => Err(Refused {
            disk,
            why: StartError::Memory,
        }),
    }
}
