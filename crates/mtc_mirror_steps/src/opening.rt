//! The journals of a cosigner and of a mirror: both are opened, the cosigner takes a step, and both
//! are closed.

ghost use Rattle.std.specs.Prelude.{◌≡◌, ◌≢◌, ◌<◌, ◌+◌, ◌^◌, ℕ};
ghost use Rattle.frame_pool.specs.Frames.{HoldsKey};
ghost use Rattle.frame_pool.specs.declared.key.TileKey.{TileKey as Key};
ghost use Rattle.cosigner_core.specs.Keyless.{keyless_owner};
ghost use Rattle.cosigner_core.specs.Openings.{CosignerIsOpened};
ghost use Rattle.mtc_room.specs.Places.{place_of};
ghost use Rattle.mtc_command.specs.Answers.{ending_of, tiles_name};
ghost use Rattle.mtc_cosigner.specs.Works.{IsReadyCosigner};
ghost use Rattle.mtc_mirror_steps.specs.StepOutcomes.{mirror_request_says, mirror_step_outcome};
ghost use Rattle.mtc_mirror_steps.specs.StepWorks.{HasServedBoth, ServesAround};

use crate::work::{MirrorRequest, carry_out};
use cosigner_core::KeylessCosigner;
use frame_pool::Pool;
use journal_core::Refused;
use mtc_command::{Answer, Stop, close, open_file, tiles_name};
use mtc_cosigner::refuse_cosigner;
use mtc_mirror::{close_mirror, open_mirror};
use mtc_room::Room;
use mtc_tiled::FRAMES;
use std::alloc::Global;
use tree_core::TreeHash;

// Opens the mirror of a journal and has a cosigner that was opened carry out its request. Whatever
// comes of it, the devices of the mirror are closed, and that of the cosigner is returned.
fn on_mirror<'a, H: TreeHash, R: Room>(
    alloc: Global,
    room: &mut R,
    cosigner_name: &'a str,
    mirror_name: &'a str,
    name: &str,
    pool: Pool,
    keyless: KeylessCosigner<H, R::Dsk>,
    request: MirrorRequest,
) -> (R::Dsk, Result<Answer, Stop<'a>>)
    requires opened { R.opened room.old + 1 < 2 ^ 32 }
    requires named { name.now ≡ tiles_name mirror_name.now }
    requires empty { (slot : ℕ) (key : Key) → HoldsKey pool slot key → ⊥ }
    requires apart { place_of R.leads_to cosigner_name.now
        ≢ place_of R.leads_to (tiles_name mirror_name.now) }
    requires ready { IsReadyCosigner (keyless_owner keyless) }
    ensures opened { R.opened room.new ≡ R.opened room.old }
    ensures serves { (disk : R.Dsk) → CosignerIsOpened R.Dsk.Disk H.hash disk
        (keyless_owner keyless) → ServesAround H.hash R.Room R.Dsk.Disk cosigner_name.now
        mirror_name.now (mirror_request_says H.hash request) room.old room.new disk result.0
        (ending_of result.1) }
{
    match open_mirror::<H, R>(alloc, room, mirror_name, name, pool) {
        Ok(mut mirror) => {
            let (disk, answer) = carry_out(
                alloc,
                cosigner_name,
                mirror_name,
                keyless,
                &mut mirror,
                request,
            );
            close_mirror::<H, R>(room, mirror_name, name, mirror);
            (disk, answer)
        }
        Err(stop) => (keyless.into_disk(), Err(stop)),
    }
}

// Opens the cosigner on a device, and then the mirror.
fn on_device<'a, H: TreeHash, R: Room>(
    alloc: Global,
    room: &mut R,
    cosigner_name: &'a str,
    mirror_name: &'a str,
    name: &str,
    pool: Pool,
    disk: R::Dsk,
    request: MirrorRequest,
) -> (R::Dsk, Result<Answer, Stop<'a>>)
    requires opened { R.opened room.old + 1 < 2 ^ 32 }
    requires named { name.now ≡ tiles_name mirror_name.now }
    requires empty { (slot : ℕ) (key : Key) → HoldsKey pool slot key → ⊥ }
    requires apart { place_of R.leads_to cosigner_name.now
        ≢ place_of R.leads_to (tiles_name mirror_name.now) }
    ensures opened { R.opened room.new ≡ R.opened room.old }
    ensures serves { ServesAround H.hash R.Room R.Dsk.Disk cosigner_name.now mirror_name.now
        (mirror_request_says H.hash request) room.old room.new disk result.0
        (ending_of result.1) }
{
    match KeylessCosigner::<H, R::Dsk>::open(alloc, disk) {
        Ok(keyless) => on_mirror::<H, R>(
            alloc,
            room,
            cosigner_name,
            mirror_name,
            name,
            pool,
            keyless,
            request,
        ),
        Err(Refused { disk, why }) => (disk, Err(refuse_cosigner(cosigner_name, why))),
    }
}

/// Opens the journal of a cosigner, then that of a mirror and the file of its tiles, which is made
/// if it isn't there, and has the cosigner carry out a request of the mirror. Whatever comes of it,
/// all is closed. No file of tiles is made beside a file that is no journal.
pub(crate) fn on_both<'a, H: TreeHash, R: Room>(
    alloc: Global,
    room: &mut R,
    cosigner_name: &'a str,
    mirror_name: &'a str,
    request: MirrorRequest,
) -> Result<Answer, Stop<'a>>
    requires opened { R.opened room.old + 2 < 2 ^ 32 }
    requires apart { place_of R.leads_to cosigner_name.now
        ≢ place_of R.leads_to (tiles_name mirror_name.now) }
    ensures { HasServedBoth H.hash R.Room R.Dsk.Disk cosigner_name.now mirror_name.now
        (mirror_step_outcome H.hash cosigner_name.now mirror_name.now
        (mirror_request_says H.hash request) (R.file room.old))
        room.old room.new (ending_of result) }
{
    let name = tiles_name(alloc, mirror_name)?;
    let pool = Pool::new(alloc, FRAMES)?;
    let disk = open_file(room, cosigner_name)?;
    let (disk, answer) = on_device::<H, R>(
        alloc,
        room,
        cosigner_name,
        mirror_name,
        &name,
        pool,
        disk,
        request,
    );
    close(room, cosigner_name, disk);
    answer
}
