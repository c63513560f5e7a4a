//! The refusal of arguments that are no command.

ghost use Rattle.std.specs.Prelude.{◌≡◌};
ghost use Rattle.mtc_command.specs.Answers.{reason_text};
ghost use Rattle.mtc_words.specs.Reasons.{word_fault_text};

use mtc_command::Reason;
use mtc_words::WordError;

// A fault of the arguments, with its numbers.
pub fn word_reason(why: WordError) -> Reason
    ensures { reason_text result ≡ word_fault_text why }
{
    match why {
        WordError::NoCommand => Reason::named("NoCommand"),
        WordError::UnknownCommand => Reason::named("UnknownCommand"),
        WordError::BadWord(index) => Reason::with_number("BadWord", index as u64),
        WordError::WrongCount { have, want } => {
            Reason::with_numbers("WrongCount", have as u64, want as u64)
        }
        WordError::TilesName(index) => Reason::with_number("TilesName", index as u64),
        WordError::BadNumber(index) => Reason::with_number("BadNumber", index as u64),
        WordError::BadId(index) => Reason::with_number("BadId", index as u64),
        WordError::Memory => Reason::named("Memory"),
    }
}
