//! What one cosigner does in a round.

ghost use Rattle.std.specs.Prelude.{◌≡◌, ◌<◌, ◌≤◌, ◌+◌, [], ◌∷◌, length, IfOk};
ghost use Rattle.tls_wire.specs.Encoding.{AreHashes};
ghost use Rattle.drill_parties.specs.Cosigners.{IsAdvanced, IsPut, IsSigned};
ghost use Rattle.drill_parties.specs.CosignerParties.{most_of};
ghost use Rattle.drill_parties.specs.CosignerViews.{cosigner_shown, cosigner_stops};
ghost use Rattle.drill_parties.specs.Rounds.{stops_in};

use crate::cosigner_party::CosignerParty;
use crate::ids::LOG_ID;
use crate::turns::Turn;
use cosigner_core::{AdvanceRequest, SubtreeRequest};
use hss_core::SigBuf;
use mtc_io::{Bytes, Memory};
use mtc_proof::put_signature;
use std::alloc::Global;
use tree_core::TreeHash;

// The types of a hash and of a proof make hashes as long as hashes are: the clauses say it, and the
// call does nothing.
fn law_are_hashes(hash: &[u8; 32], proof: &[[u8; 32]])
    requires { length proof.now ≤ 128 }
    ensures one { length hash.now ≡ 32 }
    ensures all { AreHashes proof.now }
{
    let _few = proof.len();
}

/// The cosigner holds the root of a larger log.
pub(crate) fn advanced<H: TreeHash>(
    alloc: Global,
    party: CosignerParty<H>,
    size: u64,
    root: [u8; 32],
    proof: &[[u8; 32]],
    turn: Turn,
) -> Result<CosignerParty<H>, Memory>
    requires { (cosigner_shown party).held.size < size }
    ensures state { IfOk result (IsAdvanced size root party) }
    ensures stops { IfOk result
        (λ it. cosigner_stops it ≡ cosigner_stops party + stops_in (turn ∷ [])) }
{
    let log = LOG_ID;
    let request = AdvanceRequest {
        log: &log,
        size,
        root,
        proof,
    };
    let party = party.advance(alloc, &request, turn)?;
    Ok(party)
}

/// The cosigner signs all of a log, and the call appends its signature to the others.
pub(crate) fn signed<H: TreeHash>(
    alloc: Global,
    party: CosignerParty<H>,
    size: u64,
    hash: [u8; 32],
    proof: &[[u8; 32]],
    turn: Turn,
    signatures: &mut Bytes,
) -> Result<CosignerParty<H>, Memory>
    requires { length proof.now ≤ 128 }
    ensures state { IfOk result (IsSigned size hash party) }
    ensures put { IfOk result (λ it. IsPut size hash party signatures.old signatures.new) }
    ensures keys { IfOk result (λ it. (cosigner_shown it).key.next
        ≤ (cosigner_shown party).key.next + most_of turn) }
    ensures stops { IfOk result
        (λ it. cosigner_stops it ≡ cosigner_stops party + stops_in (turn ∷ [])) }
{
    let log = LOG_ID;
    let request = SubtreeRequest {
        log: &log,
        start: 0,
        end: size,
        hash,
        proof,
    };
    law_are_hashes(&request.hash, request.proof);
    let mut out = SigBuf::new();
    let party = party.cosign(alloc, &request, turn, &mut out)?;
    put_signature(signatures, party.cosigner.id().as_bytes(), out.as_slice())?;
    Ok(party)
}
