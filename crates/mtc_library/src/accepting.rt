//! A certificate that is accepted, with its fields and its proof, as an audit requires.

ghost use Rattle.std.specs.Prelude.{◌≡◌, Ok, Err, IfOk, IfErr};
ghost use Rattle.cert_fields.specs.Certificate.{parts_of};
ghost use Rattle.cert_fields.specs.Views.{parts};
ghost use Rattle.mtc_library.specs.Hosts.{is_for};
ghost use Rattle.mtc_proof.specs.Views.{proof_parts};
ghost use Rattle.policy_core.specs.Judgement.{judgement};
ghost use Rattle.world_core.specs.Audit.{WasJudged};

use cert_fields::{Cert, dns_names, parse};
use mtc_proof::{Proof, read_proof};
use policy_core::{Accepted, Refusal, ValidStore};
use relying_party::judge_cert;
use tree_core::TreeHash;

/// A certificate that a store accepts, and its proof.
#[derive(Clone, Copy, Debug)]
pub struct JudgedCert<'a> {
    pub accepted: Accepted,
    pub cert: Cert<'a>,
    pub proof: Proof<'a>,
}

/// Reads and judges a certificate, as [`judge`](relying_party::judge) does with the same refusals,
/// and gives what an audit of an accepted one requires.
#[tactic(auto, unfolding(policy_core::specs::Judgement::judgement))]
pub fn accept<'a, H: TreeHash>(
    bytes: &'a [u8],
    store: &ValidStore,
    now: i64,
) -> Result<JudgedCert<'a>, Refusal>
    ensures accepted { IfOk result
        (λ a. judgement H.hash bytes.now store.now now ≡ Ok a.accepted) }
    ensures read { IfOk result (λ a. parts_of bytes.now ≡ Ok (parts a.cert)) }
    ensures judged { IfOk result
        (λ a. WasJudged H.hash store.now (parts a.cert) (proof_parts a.proof) a.accepted) }
    ensures refused { IfErr result (λ why. judgement H.hash bytes.now store.now now ≡ Err why) }
{
    let cert = parse(bytes)?;
    let accepted = judge_cert::<H>(&cert, store, now)?;
    let proof = read_proof(cert.proof)?;
    Ok(JudgedCert {
        accepted,
        cert,
        proof,
    })
}

/// Whether the certificate has this dNSName (RFC 5280, section 4.2.1.6), compared byte by byte: a
/// host is given in lower case, as an authority writes it.
pub fn is_for(cert: &Cert, host: &[u8]) -> bool
    ensures { result ≡ is_for host.now (parts cert.now) }
{
    for name in dns_names(cert) {
        if name == host {
            return true;
        }
    }
    false
}
