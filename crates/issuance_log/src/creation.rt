//! The journal of a new log.

ghost use Rattle.std.specs.Prelude.{◌≡◌, ◌≢◌, [], ◌∷◌, Ok, IfSome, IfOk, IfErr};
ghost use Rattle.byte_formats.specs.Types.{HashFunction};
ghost use Rattle.disk_core.specs.Times.{OnlyReads};
ghost use Rattle.journal_core.specs.Packed.{first_body};
ghost use Rattle.journal_core.specs.Starts.{HasStarted, IsNotStarted};
ghost use Rattle.issuance_log.specs.Folds.{log_of, new_log};
ghost use Rattle.issuance_log.specs.Records.{settings_record};

use crate::record::settings_record;
use crate::settings::LogSettings;
use disk_core::Disk;
use journal_core::{FirstRecord, Journal, Refused, StartError};
use mtc_io::Memory;
use std::alloc::Global;

/// Packs the one record of a new log, before there is a disk: a journal that is started with it
/// takes no further memory. The record makes the log that has the null entry alone.
pub fn pack(alloc: Global, settings: &LogSettings) -> Result<FirstRecord, Memory>
    ensures body { IfOk result (λ it. first_body it ≡ settings_record settings.now) }
    ensures valid { (h : HashFunction)
        → log_of h (settings_record settings.now ∷ []) ≡ Ok (new_log settings.now) }
{
    let record = settings_record(alloc, settings)?;
    FirstRecord::pack(alloc, record.as_slice())
}

/// Begins the journal of a new log on an empty disk. At Ok a crash leaves the journal, and its one
/// record makes the log that has the null entry alone.
///
/// Errors, in the order of the tests: `Memory`, `Failed`, `NotEmpty` where the disk holds bytes. A
/// refusal returns the disk; one that holds bytes was only read.
pub fn create<D: Disk>(
    alloc: Global,
    disk: D,
    settings: &LogSettings,
) -> Result<Journal<D>, Refused<D, StartError>>
    ensures ok { IfOk result (HasStarted (settings_record settings.now) disk) }
    ensures err { IfErr result (λ e. IsNotStarted D.Disk disk e.disk e.why) }
    ensures spared { IfErr result (λ e. IfSome (D.contents disk)
        (λ b. b ≢ [] → OnlyReads D.Disk disk e.disk)) }
    ensures valid { (h : HashFunction)
        → log_of h (settings_record settings.now ∷ []) ≡ Ok (new_log settings.now) }
{
    match pack(alloc, settings) {
        Ok(packed) => packed.start(disk),
        Err(Memory) => Err(Refused {
            disk,
            why: StartError::Memory,
        }),
    }
}
