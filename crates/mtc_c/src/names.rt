//! The words of refusals and of the fields of a store, by the numbers that the header names.

ghost use Rattle.std.specs.Prelude.{◌≡◌, ◌≤◌, length, IfOk};
ghost use Rattle.byte_formats.specs.Readings.{Gives};
ghost use Rattle.mtc_c.specs.Names.{cert_words, field_name, field_words, judgement_words};
ghost use Rattle.mtc_c.specs.Names.{refusal_name, refusal_word, store_words, word_in, word_there};

use crate::status::NO_SUCH_NAME;

// Why a text is no store file; no bytes where the number says another thing.
fn store_word(number: u32) -> &'static str
    ensures exact { result.now ≡ word_in store_words number }
    ensures short { length result.now ≤ 32 }
{
    match number {
        1 => "NotToml",
        2 => "UnknownKey",
        3 => "Missing",
        4 => "BadValue",
        5 => "RepeatedId",
        6 => "RepeatedSubtree",
        7 => "BadRange",
        _ => "",
    }
}

// Why bytes are no certificate.
fn cert_word(number: u32) -> &'static str
    ensures exact { result.now ≡ word_in cert_words number }
    ensures short { length result.now ≤ 32 }
{
    match number {
        16 => "Truncated",
        17 => "LongForm",
        18 => "HighTag",
        19 => "WrongTag",
        20 => "BadInteger",
        21 => "BadBool",
        22 => "BadOid",
        23 => "BadBits",
        24 => "SetOrder",
        25 => "Trailing",
        32 => "BadVersion",
        33 => "BadSerial",
        34 => "BadTime",
        35 => "AlgorithmsDiffer",
        36 => "RepeatedExtension",
        37 => "UniqueId",
        38 => "BadExtension",
        39 => "BadName",
        40 => "TooLong",
        _ => "",
    }
}

// Why the bytes of a signature are no proof, or why a certificate is refused.
fn judgement_word(number: u32) -> &'static str
    ensures exact { result.now ≡ word_in judgement_words number }
    ensures short { length result.now ≤ 32 }
{
    match number {
        48 => "Short",
        49 => "HashLength",
        50 => "Trailing",
        51 => "EmptyId",
        64 => "Algorithm",
        65 => "UnknownLog",
        66 => "NotYet",
        67 => "Expired",
        68 => "UnknownCritical",
        69 => "Revoked",
        70 => "ProofShape BadSubtree",
        71 => "ProofShape Outside",
        72 => "ProofShape WrongLength",
        73 => "LandmarkDiffers",
        74 => "TooFewCosigners",
        _ => "",
    }
}

// The word of a refusal, as `mtc verify` prints it; no bytes where the number is that of none.
fn refusal_word(number: u32) -> &'static str
    ensures exact { result.now ≡ refusal_word number }
    ensures short { length result.now ≤ 32 }
{
    if number < 16 {
        store_word(number)
    } else if number < 48 {
        cert_word(number)
    } else {
        judgement_word(number)
    }
}

// The word of a field of a store file; no bytes where the number is that of none.
fn field_word(number: u64) -> &'static str
    ensures exact { result.now ≡ word_in field_words number }
    ensures short { length result.now ≤ 32 }
{
    match number {
        0 => "LogId",
        1 => "CosignerId",
        2 => "CosignerKey",
        3 => "Count",
        4 => "Cosigners",
        5 => "Start",
        6 => "End",
        7 => "Hash",
        8 => "Table",
        9 => "AlgorithmFrom",
        _ => "",
    }
}

// A word of no bytes is none.
fn there(word: &str) -> Result<&[u8], u32>
    ensures exact { Gives (λ name. name.now) result (word_there word.now) }
    ensures same { IfOk result (λ name. name.now ≡ word.now) }
{
    if word.is_empty() {
        Err(NO_SUCH_NAME)
    } else {
        Ok(word.as_bytes())
    }
}

/// The name of a refusal.
pub(crate) fn refusal_name(number: u32) -> Result<&'static [u8], u32>
    ensures exact { Gives (λ name. name.now) result (refusal_name number) }
    ensures short { IfOk result (λ name. length name.now ≤ 32) }
{
    there(refusal_word(number))
}

/// The name of a field of a store file.
pub(crate) fn field_name(number: u64) -> Result<&'static [u8], u32>
    ensures exact { Gives (λ name. name.now) result (field_name number) }
    ensures short { IfOk result (λ name. length name.now ≤ 32) }
{
    there(field_word(number))
}
