//! The reasons of faults and of judgements against.

ghost use Rattle.std.specs.Prelude.{◌≡◌};
ghost use Rattle.mtc_command.specs.Answers.{reason_text};
ghost use Rattle.der_core.specs.Reasons.{der_fault_text, cert_fault_text};
ghost use Rattle.landmarks.specs.Reasons.{list_fault_text};
ghost use Rattle.mtc_proof.specs.Reasons.{proof_fault_text};
ghost use Rattle.policy_core.specs.Reasons.{key_text, store_fault_text, refusal_text};
ghost use Rattle.tls_wire.specs.Reasons.{hashes_fault_text};
ghost use Rattle.tree_core.specs.Reasons.{shape_text};

use der_core::{CertError, DerError};
use landmarks::ListError;
use mtc_command::Reason;
use mtc_proof::ProofError;
use policy_core::{Key, Refusal, StoreError};
use tls_wire::HashesError;
use tree_core::EvalError;

fn der_reason(fault: DerError) -> Reason
    ensures { reason_text result ≡ der_fault_text fault }
{
    match fault {
        DerError::Truncated(offset) => Reason::with_number("Truncated", offset as u64),
        DerError::LongForm(offset) => Reason::with_number("LongForm", offset as u64),
        DerError::HighTag(offset) => Reason::with_number("HighTag", offset as u64),
        DerError::WrongTag(offset) => Reason::with_number("WrongTag", offset as u64),
        DerError::BadInteger(offset) => Reason::with_number("BadInteger", offset as u64),
        DerError::BadBool(offset) => Reason::with_number("BadBool", offset as u64),
        DerError::BadOid(offset) => Reason::with_number("BadOid", offset as u64),
        DerError::BadBits(offset) => Reason::with_number("BadBits", offset as u64),
        DerError::SetOrder(offset) => Reason::with_number("SetOrder", offset as u64),
        DerError::Trailing(offset) => Reason::with_number("Trailing", offset as u64),
    }
}

// Why bytes are no certificate.
pub fn cert_reason(fault: CertError) -> Reason
    ensures { reason_text result ≡ cert_fault_text fault }
{
    match fault {
        CertError::Der(fault) => der_reason(fault),
        CertError::BadVersion => Reason::named("BadVersion"),
        CertError::BadSerial => Reason::named("BadSerial"),
        CertError::BadTime => Reason::named("BadTime"),
        CertError::AlgorithmsDiffer => Reason::named("AlgorithmsDiffer"),
        CertError::RepeatedExtension => Reason::named("RepeatedExtension"),
        CertError::UniqueId => Reason::named("UniqueId"),
        CertError::BadExtension => Reason::named("BadExtension"),
        CertError::BadName => Reason::named("BadName"),
    }
}

// Why bytes are no member file.
pub fn hashes_reason(fault: HashesError) -> Reason
    ensures { reason_text result ≡ hashes_fault_text fault }
{
    match fault {
        HashesError::Short(short) => Reason::with_number("Short", short.place as u64),
        HashesError::HashLength => Reason::named("HashLength"),
    }
}

// Why bytes are no proof.
pub fn proof_reason(fault: ProofError) -> Reason
    ensures { reason_text result ≡ proof_fault_text fault }
{
    match fault {
        ProofError::Short(offset) => Reason::with_number("Short", offset as u64),
        ProofError::HashLength => Reason::named("HashLength"),
        ProofError::Trailing => Reason::named("Trailing"),
        ProofError::EmptyId(offset) => Reason::with_number("EmptyId", offset as u64),
    }
}

fn key_name(key: Key) -> &'static str
    ensures { result.now ≡ key_text key }
{
    match key {
        Key::LogId => "LogId",
        Key::AlgorithmFrom => "AlgorithmFrom",
        Key::CosignerId => "CosignerId",
        Key::CosignerKey => "CosignerKey",
        Key::Count => "Count",
        Key::Cosigners => "Cosigners",
        Key::Start => "Start",
        Key::End => "End",
        Key::Hash => "Hash",
        Key::Table => "Table",
    }
}

// Why a file is no store.
pub fn store_reason(fault: StoreError) -> Reason
    ensures { reason_text result ≡ store_fault_text fault }
{
    match fault {
        StoreError::NotToml => Reason::named("NotToml"),
        StoreError::UnknownKey => Reason::named("UnknownKey"),
        StoreError::Missing(key) => Reason::with_name("Missing", key_name(key)),
        StoreError::BadValue(key) => Reason::with_name("BadValue", key_name(key)),
        StoreError::RepeatedId => Reason::named("RepeatedId"),
        StoreError::RepeatedSubtree => Reason::named("RepeatedSubtree"),
        StoreError::BadRange => Reason::named("BadRange"),
        StoreError::Memory => Reason::named("Memory"),
    }
}

// Why a path has no value at its index in an interval.
pub fn shape_name(why: EvalError) -> &'static str
    ensures { result.now ≡ shape_text why }
{
    match why {
        EvalError::BadSubtree => "BadSubtree",
        EvalError::Outside => "Outside",
        EvalError::WrongLength => "WrongLength",
    }
}

// Why a certificate is refused.
pub fn refusal_reason(why: Refusal) -> Reason
    ensures { reason_text result ≡ refusal_text why }
{
    match why {
        Refusal::Grammar(fault) => cert_reason(fault),
        Refusal::Algorithm => Reason::named("Algorithm"),
        Refusal::UnknownLog => Reason::named("UnknownLog"),
        Refusal::NotYet => Reason::named("NotYet"),
        Refusal::Expired => Reason::named("Expired"),
        Refusal::UnknownCritical => Reason::named("UnknownCritical"),
        Refusal::Revoked => Reason::named("Revoked"),
        Refusal::ProofGrammar(fault) => proof_reason(fault),
        Refusal::ProofShape(why) => Reason::with_name("ProofShape", shape_name(why)),
        Refusal::LandmarkDiffers => Reason::named("LandmarkDiffers"),
        Refusal::TooFewCosigners(rule) => Reason::with_number("TooFewCosigners", rule),
    }
}

// Why a file is no list of landmarks.
pub fn list_reason(why: ListError) -> Reason
    ensures { reason_text result ≡ list_fault_text why }
{
    match why {
        ListError::BadLine(number) => Reason::with_number("BadLine", number as u64),
        ListError::NotFalling(number) => Reason::with_number("NotFalling", number as u64),
        ListError::TooManyActive => Reason::named("TooManyActive"),
        ListError::BeyondLog => Reason::named("BeyondLog"),
        ListError::Memory => Reason::named("Memory"),
    }
}
