//! The cosigners of a drill.

ghost use Rattle.std.specs.Prelude.{◌≡◌, ◌<◌, ◌+◌, List, [], ◌∷◌, length, Ok, IfOk};
ghost use Rattle.byte_formats.specs.Types.{Text};
ghost use Rattle.disk_core.specs.Memory.{bytes_of, crash_states_of};
ghost use Rattle.journal_core.specs.Format.{Represents};
ghost use Rattle.cosigner_core.specs.Folds.{CosignerState, cosigner_of, holding, new_cosigner};
ghost use Rattle.drill_parties.specs.CosignerCalls.{IsCosignerWith};
ghost use Rattle.drill_parties.specs.CosignerParties.{HasMore, HasRecorded, HasSigned};
ghost use Rattle.drill_parties.specs.CosignerParties.{IsLeftByStop};
ghost use Rattle.drill_parties.specs.CosignerParties.{IsReopened};
ghost use Rattle.drill_parties.specs.CosignerParties.{cosigner_settings, secret_of};
ghost use Rattle.drill_parties.specs.CosignerViews.{cosigner_shown, cosigner_stops, records_shown};
ghost use Rattle.drill_parties.specs.Rounds.{stops_in};
ghost use Rattle.drill_parties.specs.declared.cosigner_calls.CosignerCall.TheVariants.{Cosign};

use crate::cosigner_calls::{CosignerCall, call_cosigner, open_cosigner};
use crate::cosigner_party::CosignerParty;
use crate::ids::{LOG, id_of};
use crate::stops::Stops;
use crate::turns::{Stop, Turn};
use cosigner_core::{AdvanceRequest, Cosigner, CosignerSettings, SubtreeRequest, create};
use disk_core::{Fuse, MemDisk};
use hss_core::{LmsType, OtsType, Secret, SigBuf};
use mtc_io::{Bytes, Memory};
use std::alloc::Global;
use tree_core::TreeHash;

// The secret of the cosigner `32473.N` in the drill with this number: 16 bytes of N, and the number
// four times.
#[tactic(auto, unfolding(crate::specs::CosignerParties::secret_of))]
fn secret_of(alloc: Global, last: u8, number: u64) -> Result<Secret, Memory>
    ensures { IfOk result (λ secret. secret ≡ secret_of last number) }
{
    let bytes = number.to_be_bytes();
    let mut text = Bytes::copy_of(alloc, &[last; 16])?;
    text.append_both(&bytes, &bytes)?;
    text.append_both(&bytes, &bytes)?;
    match Secret::from_slice(text.as_slice()) {
        Some(secret) => Ok(secret),
        None => unreachable!(),
    }
}

// The settings of the cosigner `32473.N`.
fn settings_of(alloc: Global, last: u8) -> Result<CosignerSettings, Memory>
    ensures { IfOk result (λ settings. settings ≡ cosigner_settings last) }
{
    Ok(CosignerSettings {
        id: id_of(alloc, last)?,
        log: id_of(alloc, LOG)?,
        lms: LmsType::H5,
        low: None,
        ots: OtsType::W4,
    })
}

// A cosigner on a device that represents its records, with the stops so far.
fn opened<H: TreeHash>(
    alloc: Global,
    disk: MemDisk,
    stops: Stops,
) -> Result<CosignerParty<H>, Memory>
    ensures state { IfOk result (λ it. (list : List Text) (s : CosignerState)
        → Represents (bytes_of disk) list → cosigner_of H.hash list ≡ Ok s
        → (cosigner_shown it ≡ s) × (records_shown it ≡ list)) }
    ensures stops { IfOk result (λ it. cosigner_stops it ≡ length stops.made.items) }
{
    Ok(CosignerParty {
        cosigner: open_cosigner(alloc, disk)?,
        stops,
    })
}

// The cosigner with its device under a fuse, and the stops so far.
fn fused<H: TreeHash>(
    alloc: Global,
    party: CosignerParty<H>,
    passes: u64,
) -> Result<(Cosigner<H, Fuse<MemDisk>>, Stops), Memory>
    ensures state { IfOk result
        (λ x. IsCosignerWith H.hash (cosigner_shown party) (records_shown party) x.0) }
    ensures stops { IfOk result (λ x. length x.1.made.items ≡ cosigner_stops party) }
{
    let (disk, stops) = party.into_disk();
    let fuse = Fuse::new(disk, passes);
    let cosigner = open_cosigner(alloc, fuse)?;
    Ok((cosigner, stops))
}

// What a call leaves of the device under the fuse, and whether it was done. It may find no memory.
fn halted<H: TreeHash>(
    cosigner: Cosigner<H, Fuse<MemDisk>>,
    call: &CosignerCall<'_>,
    out: &mut SigBuf,
) -> Result<(MemDisk, bool), Memory>
    ensures { IfOk result (λ left. (s : CosignerState) (list : List Text)
        → IsCosignerWith H.hash s list cosigner
        → IsLeftByStop H.hash call.now s list (crash_states_of left.0) out.new left.1) }
{
    let mut cosigner = cosigner;
    let done = call_cosigner(&mut cosigner, call, out)?;
    let left = cosigner.into_disk().into_inner();
    if left.failed_allocations() > 0 {
        return Err(Memory);
    }
    Ok((left, done))
}

// Makes the call under a fuse, and opens the cosigner again on a crash state of what is left:
// whether the call was done. No other function counts a stop.
fn stopped<H: TreeHash>(
    alloc: Global,
    party: CosignerParty<H>,
    call: &CosignerCall<'_>,
    stop: Stop,
    out: &mut SigBuf,
) -> Result<(CosignerParty<H>, bool), Memory>
    ensures state { IfOk result (λ it. IsReopened call.now (cosigner_shown party)
        (cosigner_shown it.0) (records_shown party) (records_shown it.0) out.new it.1) }
    ensures stops { IfOk result (λ it. cosigner_stops it.0 ≡ cosigner_stops party + 1) }
{
    let (cosigner, mut stops) = fused(alloc, party, stop.passes)?;
    let (left, done) = halted(cosigner, call, out)?;
    let crash_state = left.crash(stop.pick)?;
    stops.add(stop, done)?;
    let again = opened(alloc, crash_state, stops)?;
    Ok((again, done))
}

impl<H: TreeHash> CosignerParty<H> {
    /// A new cosigner on an empty device.
    pub(crate) fn create(alloc: Global, last: u8, number: u64) -> Result<CosignerParty<H>, Memory>
        ensures state { IfOk result (λ it. cosigner_shown it
            ≡ new_cosigner H.hash (cosigner_settings last) (secret_of last number)) }
        ensures stops { IfOk result (λ it. cosigner_stops it ≡ 0) }
    {
        let settings = settings_of(alloc, last)?;
        let secret = secret_of(alloc, last, number)?;
        let disk = MemDisk::new(alloc, Vec::new(alloc));
        match create(alloc, disk, &settings, &secret) {
            Ok(journal) => opened(alloc, journal.into_disk(), Stops::new(alloc)),
            Err(_) => Err(Memory),
        }
    }

    /// Holds the root of a larger log, with a stop or without one. After a stop the call is made
    /// again, unless its record was recovered.
    pub(crate) fn advance(
        self,
        alloc: Global,
        request: &AdvanceRequest<'_>,
        turn: Turn,
    ) -> Result<CosignerParty<H>, Memory>
        requires { (cosigner_shown self).held.size < request.now.size }
        ensures state { IfOk result (λ it. cosigner_shown it
            ≡ holding request.now.size request.now.root (cosigner_shown self)) }
        ensures grows { IfOk result (λ it. HasMore (records_shown self) (records_shown it)) }
        ensures stops { IfOk result
            (λ it. cosigner_stops it ≡ cosigner_stops self + stops_in (turn ∷ [])) }
    {
        let call = CosignerCall::Advance(*request);
        let mut out = SigBuf::new();
        let Some(stop) = turn else {
            return self.done(&call, &mut out);
        };
        let (before, _) = self.cosigner.held();
        let (mut party, _) = stopped(alloc, self, &call, stop, &mut out)?;
        if before < party.cosigner.held().0 {
            party.stops.recover();
            Ok(party)
        } else {
            party.done(&call, &mut out)
        }
    }

    /// Signs a subtree, with a stop or without one. After a stop the call is made again, unless it
    /// was done. The signature is the whole of `out`.
    pub(crate) fn cosign(
        self,
        alloc: Global,
        request: &SubtreeRequest<'_>,
        turn: Turn,
        out: &mut SigBuf,
    ) -> Result<CosignerParty<H>, Memory>
        ensures state { IfOk result (λ it. HasSigned (Cosign request.now) turn (cosigner_shown self)
            (cosigner_shown it) out.new) }
        ensures grows { IfOk result (λ it. HasMore (records_shown self) (records_shown it)) }
        ensures recorded { IfOk result (λ it. HasRecorded request.now (records_shown it)) }
        ensures stops { IfOk result
            (λ it. cosigner_stops it ≡ cosigner_stops self + stops_in (turn ∷ [])) }
    {
        let call = CosignerCall::Cosign(*request);
        let Some(stop) = turn else {
            let signed = self.done(&call, out)?;
            return Ok(signed);
        };
        let (party, done) = stopped(alloc, self, &call, stop, out)?;
        if done {
            Ok(party)
        } else {
            let again = party.done(&call, out)?;
            Ok(again)
        }
    }
}
