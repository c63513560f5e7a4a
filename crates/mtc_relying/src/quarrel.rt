//! The command `quarrel`: two signatures of a cosigner for one interval with different hashes, by
//! its export alone.

ghost use Rattle.std.specs.Prelude.{◌≡◌, ◌<◌, ◌^◌, [], ◌∷◌, IfOk, IfSome, option_map};
ghost use Rattle.cosigner_steps.specs.Steps.{AreSteps};
ghost use Rattle.mtc_command.specs.Answers.{ending_of, said};
ghost use Rattle.mtc_command.specs.Endings.{Replies};
ghost use Rattle.mtc_command.specs.Served.{HasAnswered};
ghost use Rattle.mtc_command.specs.Wanted.{Meets};
ghost use Rattle.quarrel_core.specs.Conflicts.{quarrel_of};
ghost use Rattle.mtc_relying.specs.QuarrelOutcome.{quarrel_by, quarrel_kept, quarrel_outcome};
ghost use Rattle.mtc_relying.specs.QuarrelOutcome.{quarrel_says};
ghost use Rattle.mtc_relying.specs.Views.{quarrel_reply};

use cosigner_core::{Export, ReadExportError};
use cosigner_steps::read_steps;
use mtc_command::{Answer, LIST_LIMIT, Said, Stop, Stopped, read_input, refuse_file};
use mtc_io::Memory;
use mtc_lines::export_reason;
use mtc_room::Room;
use quarrel_core::{Quarrel, quarrel as found_in};
use std::alloc::Global;
use tree_core::TreeHash;

// The answer to what was found.
fn answer_to(alloc: Global, found: Quarrel) -> Result<Answer, Memory>
    ensures { IfOk result (λ answer. said answer.status answer.text ≡ quarrel_reply found) }
{
    match found {
        Quarrel::Agree => {
            let text = format!(in alloc; "agree\n")?;
            Ok(Answer::of_text(Said::Done, text))
        }
        Quarrel::Pair {
            first,
            second,
            x,
            y,
        } => {
            let x = hex::encode(alloc, x.as_slice())?;
            let y = hex::encode(alloc, y.as_slice())?;
            let text = format!(in alloc; "quarrel {first} {second}\n{x}\n{y}\n")?;
            Ok(Answer::of_text(Said::Collided, text))
        }
    }
}

// Whether the signatures of an export agree.
fn found<H: TreeHash>(alloc: Global, kept: &Export) -> Result<Answer, Memory>
    requires { AreSteps H.hash kept.now.steps }
    ensures { IfOk result (λ answer. Meets (quarrel_by H.hash kept.now.steps
        (quarrel_of kept.now.steps)).answer (said answer.status answer.text)) }
{
    let found = found_in::<H>(alloc, kept)?;
    answer_to(alloc, found)
}

// The same of an export that may have no bytes, and then has no signatures.
fn shown<H: TreeHash>(alloc: Global, kept: Option<&Export>) -> Result<Answer, Memory>
    requires { IfSome kept (λ e. AreSteps H.hash e.now.steps) }
    ensures { IfOk result (λ answer. Meets (quarrel_kept H.hash
        (option_map (λ e. e.now) kept.entry)).answer (said answer.status answer.text)) }
{
    match kept {
        Some(kept) => found::<H>(alloc, kept),
        None => answer_to(alloc, Quarrel::Agree),
    }
}

// Reads the export, and looks for two signatures in conflict.
fn export_answer<'a, H: TreeHash>(
    alloc: Global,
    export: &'a str,
    bytes: &[u8],
) -> Result<Answer, Stop<'a>>
    ensures { Replies (quarrel_says H.hash export.now bytes.now).answer (ending_of result) }
{
    match read_steps::<H>(alloc, bytes) {
        Ok(kept) => Ok(shown::<H>(alloc, kept.as_ref())?),
        Err(ReadExportError::Memory) => Err(Stop::Memory),
        Err(why) => Err(refuse_file(Stopped::BadForm, export, export_reason(why))),
    }
}

/// The command `quarrel EXPORT`. The file is read and tested, and then its signatures are compared.
/// Of two that are in conflict it prints the numbers of their one-time keys and two different
/// strings with one hash.
pub fn quarrel<'a, H: TreeHash, R: Room>(
    alloc: Global,
    room: &mut R,
    export: &'a str,
) -> Result<Answer, Stop<'a>>
    requires { R.opened room.old < 2 ^ 32 }
    ensures { HasAnswered R.Room R.Dsk.Disk (export.now ∷ [])
        (quarrel_outcome H.hash export.now (R.file room.old)) room.old room.new
        (ending_of result) }
{
    let bytes = read_input(alloc, room, export, LIST_LIMIT)?;
    export_answer::<H>(alloc, export, bytes.as_slice())
}
