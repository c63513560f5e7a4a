//! The reasons of refusals.

ghost use Rattle.std.specs.Prelude.{◌≡◌, ◌++◌, codes, None, Some};
ghost use Rattle.std.specs.Fmt.{decimal};
ghost use Rattle.hex.specs.Hex.{encode_lower};
ghost use Rattle.mtc_command.specs.Answers.{reason_text, stop_ending, replied, refused};

use crate::answer::{More, Reason, Refusal, Stop, Stopped};

impl Reason {
    /// The reason of this name.
    pub fn named(name: &'static str) -> Reason
        ensures { reason_text result ≡ name.now }
    {
        Reason {
            name,
            more: More::Nothing,
        }
    }

    /// The same with a second name.
    pub fn with_name(name: &'static str, second: &'static str) -> Reason
        ensures { reason_text result ≡ name.now ++ (codes " " ++ second.now) }
    {
        Reason {
            name,
            more: More::Name(second),
        }
    }

    /// The same with a number.
    pub fn with_number(name: &'static str, number: u64) -> Reason
        ensures { reason_text result ≡ name.now ++ (codes " " ++ decimal number) }
    {
        Reason {
            name,
            more: More::Number(number),
        }
    }

    /// The same with a second name and a number.
    pub fn with_name_and_number(name: &'static str, second: &'static str, number: u64) -> Reason
        ensures { reason_text result
            ≡ name.now ++ (codes " " ++ (second.now ++ (codes " " ++ decimal number))) }
    {
        Reason {
            name,
            more: More::NameAndNumber(second, number),
        }
    }

    /// The same with two numbers.
    pub fn with_numbers(name: &'static str, first: u64, second: u64) -> Reason
        ensures { reason_text result
            ≡ name.now ++ (codes " " ++ (decimal first ++ (codes " " ++ decimal second))) }
    {
        Reason {
            name,
            more: More::Numbers(first, second),
        }
    }

    /// The same with two hashes.
    pub fn with_hashes(name: &'static str, first: [u8; 32], second: [u8; 32]) -> Reason
        ensures { reason_text result ≡ name.now
            ++ (codes " " ++ (encode_lower first ++ (codes " " ++ encode_lower second))) }
    {
        Reason {
            name,
            more: More::Hashes(first, second),
        }
    }
}

/// A refusal that is about no file.
pub fn refuse<'a>(why: Stopped, reason: Reason) -> Stop<'a>
    ensures { stop_ending result ≡ replied (refused why None (reason_text reason)) }
{
    Stop::Refused(Refusal {
        why,
        file: None,
        reason,
    })
}

/// A refusal of this file.
pub fn refuse_file<'a>(why: Stopped, file: &'a str, reason: Reason) -> Stop<'a>
    ensures { stop_ending result ≡ replied (refused why (Some file.now) (reason_text reason)) }
{
    Stop::Refused(Refusal {
        why,
        file: Some(file),
        reason,
    })
}
