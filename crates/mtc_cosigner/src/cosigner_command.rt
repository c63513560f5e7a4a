//! The commands on a cosigner that has a journal: the journal is opened, worked on and closed.

ghost use Rattle.std.specs.Prelude.{◌≡◌, ◌<◌, ◌^◌, [], ◌∷◌};
ghost use Rattle.mtc_command.specs.Answers.{stop_ending, ending_of};
ghost use Rattle.mtc_command.specs.Served.{HasServed};
ghost use Rattle.mtc_command.specs.Valid.{KeepsValid, ServesValidly};
ghost use Rattle.mtc_command.specs.Works.{HasWorkedOn};
ghost use Rattle.mtc_cosigner.specs.Works.{IsCosigner, cosigner_bytes_say, cosigner_outcome};
ghost use Rattle.mtc_cosigner.specs.Works.{cosigner_open_ending, cosigner_says};

use crate::work::{Work, carry_out};
use cosigner_core::{CosignerOpenError, KeylessCosigner};
use disk_core::Disk;
use journal_core::{OpenError, Refused};
use mtc_command::{Answer, Reason, Stop, Stopped, close, open_file, refuse_file};
use mtc_room::Room;
use std::alloc::Global;
use tree_core::TreeHash;

/// Why a journal isn't opened as a cosigner's.
pub fn refuse_cosigner<'a>(journal: &'a str, why: CosignerOpenError) -> Stop<'a>
    ensures { stop_ending result ≡ cosigner_open_ending journal.now why }
{
    let bad = Stopped::BadForm;
    match why {
        CosignerOpenError::BadRecord(number) => {
            refuse_file(bad, journal, Reason::with_number("BadRecord", number))
        }
        CosignerOpenError::Open(OpenError::NotJournal) => {
            refuse_file(bad, journal, Reason::named("NotJournal"))
        }
        CosignerOpenError::Open(OpenError::BadLength(offset)) => {
            refuse_file(bad, journal, Reason::with_number("BadLength", offset))
        }
        CosignerOpenError::Open(OpenError::CutShort(offset)) => {
            refuse_file(bad, journal, Reason::with_number("CutShort", offset))
        }
        CosignerOpenError::Open(OpenError::Failed) => Stop::Room(journal),
        CosignerOpenError::Open(OpenError::Memory) => Stop::Memory,
    }
}

// Opens the cosigner on a device, and works on it.
fn on_device<'a, H: TreeHash, D: Disk>(
    alloc: Global,
    disk: D,
    journal: &'a str,
    work: &Work<'_>,
) -> (D, Result<Answer, Stop<'a>>)
    ensures serves { HasWorkedOn D.Disk journal.now (cosigner_bytes_say H.hash journal.now
        (cosigner_says H.hash work.now)) disk result.0 (ending_of result.1) }
    ensures valid { ServesValidly D.Disk (IsCosigner H.hash) (cosigner_bytes_say H.hash journal.now
        (cosigner_says H.hash work.now)) disk result.0 }
{
    match KeylessCosigner::<H, D>::open(alloc, disk) {
        Ok(keyless) => carry_out(alloc, journal, keyless, work),
        Err(Refused { disk, why }) => (disk, Err(refuse_cosigner(journal, why))),
    }
}

/// Opens a journal, opens its cosigner and works on it. Whatever comes of it, the device is closed.
pub fn on_cosigner<'a, H: TreeHash, R: Room>(
    alloc: Global,
    room: &mut R,
    journal: &'a str,
    work: &Work<'_>,
) -> Result<Answer, Stop<'a>>
    requires { R.opened room.old < 2 ^ 32 }
    ensures serves { HasServed R.Room R.Dsk.Disk (journal.now ∷ []) journal.now
        (cosigner_outcome H.hash journal.now (R.file room.old journal.now)
        (cosigner_says H.hash work.now)) room.old room.new (ending_of result) }
    ensures valid { KeepsValid R.Room R.Dsk.Disk (IsCosigner H.hash) (journal.now ∷ [])
        (cosigner_outcome H.hash journal.now (R.file room.old journal.now)
        (cosigner_says H.hash work.now)) room.old room.new }
{
    let disk = open_file(room, journal)?;
    let (disk, answer) = on_device::<H, R::Dsk>(alloc, disk, journal, work);
    close(room, journal, disk);
    answer
}
