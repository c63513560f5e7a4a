//! What is asked of a certificate's fields, before its proof is read.

ghost use Rattle.std.specs.Prelude.{◌≡◌};
ghost use Rattle.std.specs.List.{list_any};
ghost use Rattle.cert_fields.specs.Views.{parts};
ghost use Rattle.policy_core.specs.Judgement.{is_in, admitted};

use cert_fields::{Cert, MTC_PROOF, unknown_critical};
use policy_core::{Refusal, Store};
use tree_core::Span;

// The serial number lies in one of the ranges. The end of a range isn't in it.
fn is_revoked(serial: u64, ranges: &[Span]) -> bool
    ensures { result ≡ list_any (λ range. is_in serial range) ranges.now }
{
    ranges
        .iter()
        .any(|range| range.start <= serial && serial < range.end)
}

/// The algorithm, the issuer, the time in seconds since 1970-01-01T00:00:00Z, the extensions and
/// the serial number, in this order.
#[tactic(auto, unfolding(policy_core::specs::Judgement::admitted))]
pub fn admit(cert: &Cert, store: &Store, now: i64) -> Result<(), Refusal>
    ensures { result ≡ admitted store.now now (parts cert.now) }
{
    if cert.algorithm != MTC_PROOF.as_slice() {
        return Err(Refusal::Algorithm);
    }
    if cert.issuer != store.name.as_slice() {
        return Err(Refusal::UnknownLog);
    }
    if now < cert.validity.not_before {
        return Err(Refusal::NotYet);
    }
    if now > cert.validity.not_after {
        return Err(Refusal::Expired);
    }
    if unknown_critical(cert.extensions) {
        return Err(Refusal::UnknownCritical);
    }
    if is_revoked(cert.serial, store.revoked.as_slice()) {
        return Err(Refusal::Revoked);
    }
    Ok(())
}
