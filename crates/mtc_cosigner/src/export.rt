//! The command `export`: what others may know of a cosigner.

ghost use Rattle.std.specs.Prelude.{◌≡◌, ◌<◌, ◌^◌, [], ◌∷◌};
ghost use Rattle.cosigner_core.specs.Keyless.{keyless_owner};
ghost use Rattle.hss_keys.specs.Keys.{public_of};
ghost use Rattle.mtc_command.specs.Served.{HasServed};
ghost use Rattle.mtc_command.specs.Valid.{KeepsValid, ServesValidly};
ghost use Rattle.mtc_command.specs.Works.{HasWorkedOn};
ghost use Rattle.mtc_lines.specs.Outputs.{Streams};
ghost use Rattle.mtc_cosigner.specs.CosignerOutcomes.{export_says};
ghost use Rattle.mtc_cosigner.specs.Works.{HasWorkedOnCosigner, IsCosigner, StaysCosigner};
ghost use Rattle.mtc_cosigner.specs.Works.{cosigner_bytes_say, export_outcome};

use crate::cosigner_command::refuse_cosigner;
use cosigner_core::{ExportError, KeylessCosigner};
use disk_core::Disk;
use hss_core::PUBLIC_KEY_LEN;
use journal_core::Refused;
use mtc_command::{Stop, close, open_file};
use mtc_io::{Failed, Sink};
use mtc_lines::Written;
use mtc_room::Room;
use std::alloc::Global;
use tree_core::TreeHash;

// Writes the export of a cosigner with this public key while it reads its journal.
fn export_on<'a, H: TreeHash, D: Disk, O: Sink>(
    journal: &'a str,
    cosigner: &mut KeylessCosigner<H, D>,
    public: &[u8; PUBLIC_KEY_LEN],
    out: &mut O,
) -> Result<Written, Stop<'a>>
    requires { public.now ≡ public_of (keyless_owner cosigner.old).state.key.key }
    ensures streams { Streams O.Sink out.old out.new (HasWorkedOnCosigner D.Disk journal.now
        export_says (keyless_owner cosigner.old) (keyless_owner cosigner.new).disk) result }
    ensures valid { StaysCosigner D.Disk H.hash export_says (keyless_owner cosigner.old)
        (keyless_owner cosigner.new).disk }
{
    match cosigner.export_with(public, out) {
        Ok(()) => Ok(Ok(())),
        Err(ExportError::Read) => Err(Stop::Room(journal)),
        Err(ExportError::Write) => Ok(Err(Failed)),
    }
}

// Makes the public key of a cosigner, writes its export, and returns its device.
fn export_keyless<'a, H: TreeHash, D: Disk, O: Sink>(
    alloc: Global,
    journal: &'a str,
    mut keyless: KeylessCosigner<H, D>,
    out: &mut O,
) -> (D, Result<Written, Stop<'a>>)
    ensures streams { Streams O.Sink out.old out.new (HasWorkedOnCosigner D.Disk journal.now
        export_says (keyless_owner keyless) result.0) result.1 }
    ensures valid { StaysCosigner D.Disk H.hash export_says (keyless_owner keyless) result.0 }
{
    match keyless.public(alloc) {
        Ok(public) => {
            let written = export_on(journal, &mut keyless, &public, out);
            (keyless.into_disk(), written)
        }
        Err(_) => (keyless.into_disk(), Err(Stop::Memory)),
    }
}

// Opens the cosigner on a device, and writes its export.
fn export_device<'a, H: TreeHash, D: Disk, O: Sink>(
    alloc: Global,
    disk: D,
    journal: &'a str,
    out: &mut O,
) -> (D, Result<Written, Stop<'a>>)
    ensures streams { Streams O.Sink out.old out.new (HasWorkedOn D.Disk journal.now
        (cosigner_bytes_say H.hash journal.now export_says) disk result.0) result.1 }
    ensures valid { ServesValidly D.Disk (IsCosigner H.hash) (cosigner_bytes_say H.hash journal.now
        export_says) disk result.0 }
{
    match KeylessCosigner::<H, D>::open(alloc, disk) {
        Ok(keyless) => export_keyless(alloc, journal, keyless, out),
        Err(Refused { disk, why }) => (disk, Err(refuse_cosigner(journal, why))),
    }
}

/// The command `export S`. It writes the export to standard output while it reads the journal, in a
/// piece of memory of one size.
///
/// Answers whether all of it went out, or standard output failed at it; and if a file failed or
/// memory was refused, why it stopped. A prefix of the export may be written then; that it has done
/// with the journal all that it does is what holds with its reply too.
#[tactic(auto, unfolding(crate::specs::Works::export_outcome))]
pub fn export<'a, H: TreeHash, R: Room, O: Sink>(
    alloc: Global,
    room: &mut R,
    journal: &'a str,
    out: &mut O,
) -> Result<Written, Stop<'a>>
    requires { R.opened room.old < 2 ^ 32 }
    ensures streams { Streams O.Sink out.old out.new (HasServed R.Room R.Dsk.Disk
        (journal.now ∷ []) journal.now (export_outcome H.hash journal.now (R.file room.old))
        room.old room.new) result }
    ensures valid { KeepsValid R.Room R.Dsk.Disk (IsCosigner H.hash) (journal.now ∷ [])
        (export_outcome H.hash journal.now (R.file room.old)) room.old room.new }
{
    let disk = open_file(room, journal)?;
    let (disk, written) = export_device::<H, R::Dsk, O>(alloc, disk, journal, out);
    close(room, journal, disk);
    written
}
