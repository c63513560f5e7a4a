//! The commands `mirror-advance` and `mirror-cosign`.

ghost use Rattle.std.specs.Prelude.{◌≢◌, ◌<◌, ◌+◌, ◌^◌};
ghost use Rattle.mtc_room.specs.Places.{place_of};
ghost use Rattle.mtc_command.specs.Answers.{ending_of, tiles_name};
ghost use Rattle.mtc_mirror_steps.specs.StepOutcomes.{mirror_advance_outcome};
ghost use Rattle.mtc_mirror_steps.specs.StepOutcomes.{mirror_cosign_outcome};
ghost use Rattle.mtc_mirror_steps.specs.StepWorks.{HasServedBoth};

use crate::opening::on_both;
use crate::work::MirrorRequest;
use mtc_command::{Answer, Stop};
use mtc_room::Room;
use std::alloc::Global;
use tree_core::TreeHash;

/// The command `mirror-advance S M SIZE`: the cosigner of the journal S holds the root of the first
/// items of the mirror of the journal M.
///
/// Errors, in the order of the tests: what opening S refuses; what opening M and the file of its
/// tiles refuses; `Beyond` with the mirror's size where it has fewer items; `NotMine` with two
/// hashes where what S holds isn't of the mirror's first items; and what the cosigner refuses. A
/// failure is reported with the name of the file whose device failed. Where two names are of one
/// file, it is opened twice, and no party is found in it by one of them.
#[tactic(auto, unfolding(crate::specs::StepOutcomes::mirror_advance_outcome))]
pub fn mirror_advance<'a, H: TreeHash, R: Room>(
    alloc: Global,
    room: &mut R,
    cosigner_name: &'a str,
    mirror_name: &'a str,
    size: u64,
) -> Result<Answer, Stop<'a>>
    requires opened { R.opened room.old + 2 < 2 ^ 32 }
    requires apart { place_of R.leads_to cosigner_name.now
        ≢ place_of R.leads_to (tiles_name mirror_name.now) }
    ensures { HasServedBoth H.hash R.Room R.Dsk.Disk cosigner_name.now mirror_name.now
        (mirror_advance_outcome H.hash cosigner_name.now mirror_name.now size (R.file room.old))
        room.old room.new (ending_of result) }
{
    on_both::<H, R>(
        alloc,
        room,
        cosigner_name,
        mirror_name,
        MirrorRequest::Advance(size),
    )
}

/// The command `mirror-cosign S M START END`: the cosigner of the journal S signs a subtree of the
/// items of the mirror of the journal M.
///
/// Errors, in the order of the tests: what opening S refuses; what opening M and the file of its
/// tiles refuses; `NotMine` with two hashes where what S holds isn't of the mirror's first items;
/// `BadSubtree` where the interval is none; `Beyond` with the held size where it ends above that;
/// and what the cosigner refuses. A failure is reported as by [`mirror_advance`].
#[tactic(auto, unfolding(crate::specs::StepOutcomes::mirror_cosign_outcome))]
pub fn mirror_cosign<'a, H: TreeHash, R: Room>(
    alloc: Global,
    room: &mut R,
    cosigner_name: &'a str,
    mirror_name: &'a str,
    start: u64,
    end: u64,
) -> Result<Answer, Stop<'a>>
    requires opened { R.opened room.old + 2 < 2 ^ 32 }
    requires apart { place_of R.leads_to cosigner_name.now
        ≢ place_of R.leads_to (tiles_name mirror_name.now) }
    ensures { HasServedBoth H.hash R.Room R.Dsk.Disk cosigner_name.now mirror_name.now
        (mirror_cosign_outcome H.hash cosigner_name.now mirror_name.now start end
        (R.file room.old)) room.old room.new (ending_of result) }
{
    on_both::<H, R>(
        alloc,
        room,
        cosigner_name,
        mirror_name,
        MirrorRequest::Cosign(start, end),
    )
}
