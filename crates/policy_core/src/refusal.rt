//! Why a certificate is refused.

use der_core::CertError;
use mtc_proof::ProofError;
use std::error::Error;
use std::fmt;
use tree_core::EvalError;

/// Why a certificate isn't accepted. The tests are made in this order.
#[derive(Clone, Copy, Debug, PartialEq, Eq)]
pub enum Refusal {
    /// The bytes aren't a certificate.
    Grammar(CertError),
    /// The algorithm isn't that of Merkle tree proofs, without parameters.
    Algorithm,
    /// The issuer isn't the store's log.
    UnknownLog,
    /// The certificate isn't valid yet.
    NotYet,
    /// The certificate isn't valid any more.
    Expired,
    /// A critical extension isn't known.
    UnknownCritical,
    /// The serial number lies in a revoked range.
    Revoked,
    /// The bytes of the signature aren't a proof.
    ProofGrammar(ProofError),
    /// The proof's path has no value at the certificate's index in the interval.
    ProofShape(EvalError),
    /// The interval is trusted with another hash than the one that the proof gives.
    LandmarkDiffers,
    /// The interval isn't trusted, and this is the first rule that isn't met, counted from 1; or
    /// there is no rule, and the number is 0.
    TooFewCosigners(u64),
}

impl fmt::Display for Refusal {
    ghost use Rattle.std.specs.Prelude.{Some};
    ghost use Rattle.policy_core.specs.Reasons.{refusal_text};

    ghost output = { λ why. Some (refusal_text why) };

    fn fmt<W: fmt::Write>(&self, f: &mut fmt::Formatter<W>) -> fmt::Result {
        match self {
            Refusal::Grammar(why) => why.fmt(f),
            Refusal::Algorithm => f.write_str("Algorithm"),
            Refusal::UnknownLog => f.write_str("UnknownLog"),
            Refusal::NotYet => f.write_str("NotYet"),
            Refusal::Expired => f.write_str("Expired"),
            Refusal::UnknownCritical => f.write_str("UnknownCritical"),
            Refusal::Revoked => f.write_str("Revoked"),
            Refusal::ProofGrammar(why) => why.fmt(f),
            Refusal::ProofShape(why) => write!(f, "ProofShape {why}"),
            Refusal::LandmarkDiffers => f.write_str("LandmarkDiffers"),
            Refusal::TooFewCosigners(rule) => write!(f, "TooFewCosigners {rule}"),
        }
    }
}

impl Error for Refusal {}

impl From<CertError> for Refusal {
    ghost use Rattle.std.specs.Prelude.{◌≡◌};
    ghost use Rattle.policy_core.specs.declared.refusal.Refusal.TheVariants.{Grammar};

    ghost from_gives = { λ fault e. e ≡ Grammar fault };

    fn from(fault: CertError) -> Refusal {
        Refusal::Grammar(fault)
    }
}

impl From<ProofError> for Refusal {
    ghost use Rattle.std.specs.Prelude.{◌≡◌};
    ghost use Rattle.policy_core.specs.declared.refusal.Refusal.TheVariants.{ProofGrammar};

    ghost from_gives = { λ fault e. e ≡ ProofGrammar fault };

    fn from(fault: ProofError) -> Refusal {
        Refusal::ProofGrammar(fault)
    }
}

impl From<EvalError> for Refusal {
    ghost use Rattle.std.specs.Prelude.{◌≡◌};
    ghost use Rattle.policy_core.specs.declared.refusal.Refusal.TheVariants.{ProofShape};

    ghost from_gives = { λ fault e. e ≡ ProofShape fault };

    fn from(fault: EvalError) -> Refusal {
        Refusal::ProofShape(fault)
    }
}
