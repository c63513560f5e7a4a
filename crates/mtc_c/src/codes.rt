//! The numbers of refusals, which the header names, and what belongs to each.

ghost use Rattle.std.specs.Prelude.{◌≡◌};
ghost use Rattle.mtc_c.specs.Codes.{cert_code, der_code, key_code, proof_code, refusal_code};
ghost use Rattle.mtc_c.specs.Codes.{shape_code, store_code};

use der_core::{CertError, DerError};
use mtc_proof::ProofError;
use policy_core::{Key, Refusal, StoreError};
use tree_core::EvalError;

/// A certificate that is too long to be read.
pub(crate) const TOO_LONG_CODE: (u32, u64) = (40, 0);

fn key_code(key: Key) -> u64
    ensures { result ≡ key_code key }
{
    match key {
        Key::LogId => 0,
        Key::CosignerId => 1,
        Key::CosignerKey => 2,
        Key::Count => 3,
        Key::Cosigners => 4,
        Key::Start => 5,
        Key::End => 6,
        Key::Hash => 7,
        Key::Table => 8,
        Key::AlgorithmFrom => 9,
    }
}

/// Why a text is no store file.
pub(crate) fn store_code(why: StoreError) -> (u32, u64)
    ensures { result ≡ store_code why }
{
    match why {
        StoreError::NotToml => (1, 0),
        StoreError::UnknownKey => (2, 0),
        StoreError::Missing(key) => (3, key_code(key)),
        StoreError::BadValue(key) => (4, key_code(key)),
        StoreError::RepeatedId => (5, 0),
        StoreError::RepeatedSubtree => (6, 0),
        StoreError::BadRange => (7, 0),
        StoreError::Memory => (0, 0),
    }
}

fn der_code(why: DerError) -> (u32, u64)
    ensures { result ≡ der_code why }
{
    match why {
        DerError::Truncated(offset) => (16, offset as u64),
        DerError::LongForm(offset) => (17, offset as u64),
        DerError::HighTag(offset) => (18, offset as u64),
        DerError::WrongTag(offset) => (19, offset as u64),
        DerError::BadInteger(offset) => (20, offset as u64),
        DerError::BadBool(offset) => (21, offset as u64),
        DerError::BadOid(offset) => (22, offset as u64),
        DerError::BadBits(offset) => (23, offset as u64),
        DerError::SetOrder(offset) => (24, offset as u64),
        DerError::Trailing(offset) => (25, offset as u64),
    }
}

/// Why bytes are no certificate.
pub(crate) fn cert_code(why: CertError) -> (u32, u64)
    ensures { result ≡ cert_code why }
{
    match why {
        CertError::Der(why) => der_code(why),
        CertError::BadVersion => (32, 0),
        CertError::BadSerial => (33, 0),
        CertError::BadTime => (34, 0),
        CertError::AlgorithmsDiffer => (35, 0),
        CertError::RepeatedExtension => (36, 0),
        CertError::UniqueId => (37, 0),
        CertError::BadExtension => (38, 0),
        CertError::BadName => (39, 0),
    }
}

/// Why the bytes of a signature are no proof.
pub(crate) fn proof_code(why: ProofError) -> (u32, u64)
    ensures { result ≡ proof_code why }
{
    match why {
        ProofError::Short(offset) => (48, offset as u64),
        ProofError::HashLength => (49, 0),
        ProofError::Trailing => (50, 0),
        ProofError::EmptyId(offset) => (51, offset as u64),
    }
}

fn shape_code(why: EvalError) -> (u32, u64)
    ensures { result ≡ shape_code why }
{
    match why {
        EvalError::BadSubtree => (70, 0),
        EvalError::Outside => (71, 0),
        EvalError::WrongLength => (72, 0),
    }
}

/// Why a certificate is refused.
pub(crate) fn refusal_code(why: Refusal) -> (u32, u64)
    ensures { result ≡ refusal_code why }
{
    match why {
        Refusal::Grammar(why) => cert_code(why),
        Refusal::Algorithm => (64, 0),
        Refusal::UnknownLog => (65, 0),
        Refusal::NotYet => (66, 0),
        Refusal::Expired => (67, 0),
        Refusal::UnknownCritical => (68, 0),
        Refusal::Revoked => (69, 0),
        Refusal::ProofGrammar(why) => proof_code(why),
        Refusal::ProofShape(why) => shape_code(why),
        Refusal::LandmarkDiffers => (73, 0),
        Refusal::TooFewCosigners(rule) => (74, rule),
    }
}
