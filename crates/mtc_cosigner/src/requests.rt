//! The commands `advance` and `cosign`: requests to a cosigner of a log.

ghost use Rattle.std.specs.Prelude.{◌≡◌, ◌≢◌, ◌<◌, ◌^◌, [], ◌∷◌, IfOk};
ghost use Rattle.cosigner_core.specs.Keyless.{keyless_owner};
ghost use Rattle.cosigner_core.specs.Views.{advance_parts, subtree_parts};
ghost use Rattle.cosigner_core.specs.Words.{cosigner_disk, cosigner_owner};
ghost use Rattle.mtc_command.specs.Answers.{stop_ending, ending_of};
ghost use Rattle.mtc_command.specs.Served.{HasServed};
ghost use Rattle.mtc_command.specs.Valid.{KeepsValid};
ghost use Rattle.mtc_cosigner.specs.CosignerOutcomes.{advance_says, advanced_text, cosign_says};
ghost use Rattle.mtc_cosigner.specs.CosignerOutcomes.{step_ending};
ghost use Rattle.mtc_cosigner.specs.Works.{HasWorkedOnCosigner, IsCosigner, IsReadyCosigner};
ghost use Rattle.mtc_cosigner.specs.Works.{StaysCosigner, advance_outcome, cosign_outcome};

use crate::cosigner_command::on_cosigner;
use crate::work::Work;
use cosigner_core::{
    AdvanceRequest, CosignError, Cosigner, FormError, KeylessCosigner, SubtreeRequest,
    read_advance, read_subtree,
};
use disk_core::Disk;
use hss_core::SigBuf;
use journal_core::AppendError;
use mtc_command::{
    Answer, INPUT_LIMIT, Reason, Said, Stop, Stopped, read_input, refuse, refuse_file,
};
use mtc_io::{Bytes, Memory};
use mtc_lines::form_reason;
use mtc_proof::ReservedSignature;
use mtc_room::Room;
use std::alloc::Global;
use tree_core::TreeHash;

/// A buffer of a signature holds no more.
pub const LONGEST_SIGNATURE: u16 = 17_748;

/// Why a cosigner that was opened just now takes no step.
pub fn refuse_step<'a>(journal: &'a str, why: CosignError) -> Stop<'a>
    requires { why ≢ CosignError.Append AppendError.Broken }
    ensures { stop_ending result ≡ step_ending journal.now why }
{
    let refused = Stopped::NotAllowed;
    match why {
        CosignError::WrongLog => refuse(refused, Reason::named("WrongLog")),
        CosignError::NotNewer(held) => refuse(refused, Reason::with_number("NotNewer", held)),
        CosignError::BadSubtree => refuse(refused, Reason::named("BadSubtree")),
        CosignError::Beyond(held) => refuse(refused, Reason::with_number("Beyond", held)),
        CosignError::BadProof => refuse(refused, Reason::named("BadProof")),
        CosignError::NeedsChild => refuse(refused, Reason::named("NeedsChild")),
        CosignError::Exhausted => refuse(refused, Reason::named("Exhausted")),
        CosignError::Append(AppendError::Full) => {
            refuse(Stopped::Beyond, Reason::named("JournalFull"))
        }
        CosignError::Append(AppendError::Failed) => Stop::Room(journal),
        CosignError::Append(AppendError::Broken) => unreachable!(),
    }
}

/// The line of a cosigner that holds a log of this size.
pub fn line_of_size(alloc: Global, size: u64) -> Result<Bytes, Memory>
    ensures { IfOk result (λ text. text ≡ advanced_text size) }
{
    Ok(Bytes::from_vec(format!(in alloc; "advanced {size}\n")?.into_bytes()))
}

/// The work of `advance S REQUEST`, which needs no key. The text is made before the record is
/// added, so that nothing takes memory after the append.
pub(crate) fn advance_on<'a, H: TreeHash, D: Disk>(
    alloc: Global,
    journal: &'a str,
    cosigner: &mut KeylessCosigner<H, D>,
    request: &AdvanceRequest<'_>,
) -> Result<Answer, Stop<'a>>
    requires { IsReadyCosigner (keyless_owner cosigner.old) }
    ensures works { HasWorkedOnCosigner D.Disk journal.now (advance_says H.hash
        (advance_parts request.now)) (keyless_owner cosigner.old)
        (keyless_owner cosigner.new).disk (ending_of result) }
    ensures valid { StaysCosigner D.Disk H.hash (advance_says H.hash (advance_parts request.now))
        (keyless_owner cosigner.old) (keyless_owner cosigner.new).disk }
{
    let text = line_of_size(alloc, request.size)?;
    match cosigner.advance(request) {
        Ok(()) => Ok(Answer {
            status: Said::Done,
            text,
        }),
        Err(why) => Err(refuse_step(journal, why)),
    }
}

/// The work of `cosign S REQUEST`. All memory is taken before the record is added, and the
/// signature is made after it.
pub(crate) fn cosign_on<'a, H: TreeHash, D: Disk>(
    alloc: Global,
    journal: &'a str,
    cosigner: &mut Cosigner<H, D>,
    request: &SubtreeRequest<'_>,
) -> Result<Answer, Stop<'a>>
    requires { IsReadyCosigner (cosigner_owner cosigner.old) }
    ensures works { HasWorkedOnCosigner D.Disk journal.now (cosign_says H.hash
        (subtree_parts request.now)) (cosigner_owner cosigner.old)
        (cosigner_disk cosigner.new) (ending_of result) }
    ensures valid { StaysCosigner D.Disk H.hash (cosign_says H.hash (subtree_parts request.now))
        (cosigner_owner cosigner.old) (cosigner_disk cosigner.new) }
{
    let reserved = ReservedSignature::new(alloc, LONGEST_SIGNATURE)?;
    let mut signature = SigBuf::new();
    match cosigner.cosign(request, &mut signature) {
        Ok(()) => Ok(Answer {
            status: Said::Done,
            text: reserved.fill(cosigner.id().as_bytes(), signature.as_slice()),
        }),
        Err(why) => Err(refuse_step(journal, why)),
    }
}

/// The command `advance S REQUEST`.
#[tactic(auto, unfolding(crate::specs::Works::advance_outcome, crate::specs::Works::cosigner_says))]
pub fn advance<'a, H: TreeHash, R: Room>(
    alloc: Global,
    room: &mut R,
    journal: &'a str,
    file: &'a str,
) -> Result<Answer, Stop<'a>>
    requires { R.opened room.old < 2 ^ 32 }
    ensures serves { HasServed R.Room R.Dsk.Disk (journal.now ∷ (file.now ∷ [])) journal.now
        (advance_outcome H.hash journal.now file.now (R.file room.old))
        room.old room.new (ending_of result) }
    ensures valid { KeepsValid R.Room R.Dsk.Disk (IsCosigner H.hash) (journal.now ∷ [])
        (advance_outcome H.hash journal.now file.now (R.file room.old)) room.old room.new }
{
    let bytes = read_input(alloc, room, file, INPUT_LIMIT)?;
    match read_advance(bytes.as_slice()) {
        Ok(request) => on_cosigner::<H, R>(alloc, room, journal, &Work::Advance(request)),
        Err(why) => Err(refuse_file(Stopped::BadForm, file, form_reason(why))),
    }
}

/// The command `cosign S REQUEST`.
#[tactic(auto, unfolding(crate::specs::Works::cosign_outcome, crate::specs::Works::cosigner_says))]
pub fn cosign<'a, H: TreeHash, R: Room>(
    alloc: Global,
    room: &mut R,
    journal: &'a str,
    file: &'a str,
) -> Result<Answer, Stop<'a>>
    requires { R.opened room.old < 2 ^ 32 }
    ensures serves { HasServed R.Room R.Dsk.Disk (journal.now ∷ (file.now ∷ [])) journal.now
        (cosign_outcome H.hash journal.now file.now (R.file room.old))
        room.old room.new (ending_of result) }
    ensures valid { KeepsValid R.Room R.Dsk.Disk (IsCosigner H.hash) (journal.now ∷ [])
        (cosign_outcome H.hash journal.now file.now (R.file room.old)) room.old room.new }
{
    let bytes = read_input(alloc, room, file, INPUT_LIMIT)?;
    match read_subtree(bytes.as_slice()) {
        Ok(request) => on_cosigner::<H, R>(alloc, room, journal, &Work::Cosign(request)),
        Err(why) => Err(refuse_file(Stopped::BadForm, file, form_reason(why))),
    }
}
