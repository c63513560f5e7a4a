//! What `help` and `version` answer.

ghost use Rattle.mtc_command.specs.Answers.{ending_of};
ghost use Rattle.mtc_command.specs.Endings.{Replies};
ghost use Rattle.mtc_help.specs.HelpOutcome.{help_outcome, version_outcome};

use crate::listing::HELP;
use mtc_command::{Answer, Said, Stop};
use mtc_io::Bytes;
use std::alloc::Global;

const VERSION: &str = "profile 2\ndraft draft-ietf-plants-merkle-tree-certs-00\n";

/// The command `help`. It uses no file.
#[tactic(auto, unfolding(crate::specs::HelpOutcome::help_text))]
pub fn help<'a>(alloc: Global) -> Result<Answer, Stop<'a>>
    ensures { Replies help_outcome.answer (ending_of result) }
{
    Ok(Answer {
        status: Said::Done,
        text: Bytes::copy_of(alloc, HELP.as_bytes())?,
    })
}

/// The command `version`. It uses no file.
#[tactic(auto, unfolding(crate::specs::HelpOutcome::profile_text))]
pub fn version<'a>(alloc: Global) -> Result<Answer, Stop<'a>>
    ensures { Replies version_outcome.answer (ending_of result) }
{
    Ok(Answer {
        status: Said::Done,
        text: Bytes::copy_of(alloc, VERSION.as_bytes())?,
    })
}
