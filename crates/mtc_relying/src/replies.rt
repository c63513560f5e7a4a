//! What goes to standard output.

ghost use Rattle.std.specs.Prelude.{◌≡◌, string_bytes};
ghost use Rattle.mtc_command.specs.Answers.{reason_text, ending_of};
ghost use Rattle.mtc_command.specs.Endings.{Replies};
ghost use Rattle.mtc_relying.specs.Reasons.{judged_against};

use mtc_command::{Answer, More, Reason, Said, Stop};
use mtc_io::Bytes;
use std::alloc::Global;

// The answer of a command that did its work.
pub fn done(text: String) -> Answer
    ensures { result ≡ record { status = Said.Done; text = string_bytes text } }
{
    Answer {
        status: Said::Done,
        text: Bytes::from_vec(text.into_bytes()),
    }
}

// The answer of a judgement against, for this reason.
#[tactic(auto, using(std::proofs::lemmas::List::append_assoc))]
pub fn against<'a>(alloc: Global, reason: Reason) -> Result<Answer, Stop<'a>>
    ensures { Replies (judged_against (reason_text reason)).answer (ending_of result) }
{
    let name = reason.name;
    let text = match reason.more {
        More::Nothing => format!(in alloc; "refused {name}\n")?,
        More::Name(second) => format!(in alloc; "refused {name} {second}\n")?,
        More::Number(number) => format!(in alloc; "refused {name} {number}\n")?,
        More::NameAndNumber(second, number) => {
            format!(in alloc; "refused {name} {second} {number}\n")?
        }
        More::Numbers(first, second) => format!(in alloc; "refused {name} {first} {second}\n")?,
        More::Hashes(first, second) => {
            let first = hex::encode(alloc, first)?;
            let second = hex::encode(alloc, second)?;
            format!(in alloc; "refused {name} {first} {second}\n")?
        }
    };
    Ok(Answer {
        status: Said::Against,
        text: Bytes::from_vec(text.into_bytes()),
    })
}
