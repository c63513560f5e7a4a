//! The summary of a drill.

ghost use Rattle.std.specs.Prelude.{◌≡◌, ◌++◌, IfOk, OnOk, string_bytes};
ghost use Rattle.drill_core.specs.Counts.{IsCounted};
ghost use Rattle.mtc_command.specs.Answers.{ending_of};
ghost use Rattle.mtc_command.specs.Endings.{Replies};
ghost use Rattle.mtc_drill.specs.Summary.{drill_outcome, numbered_line, summary_text};

use drill_core::{Counts, play_drill};
use mtc_command::{Answer, Said, Stop};
use std::alloc::{AllocError, Global};
use tree_core::TreeHash;

// Appends a line of a name and a number to the text.
fn put_line(text: &mut String, name: &str, number: u64) -> Result<(), AllocError>
    ensures { OnOk result (string_bytes text.new
        ≡ string_bytes text.old ++ numbered_line name.now number) }
{
    write!(text, "{name} {number}\n")
}

// The eight lines.
fn summary(alloc: Global, number: u64, counts: &Counts) -> Result<String, AllocError>
    ensures { IfOk result (λ text. string_bytes text ≡ summary_text number counts.now) }
{
    let mut text = String::new(alloc);
    put_line(&mut text, "drill", number)?;
    put_line(&mut text, "entries", counts.entries)?;
    put_line(&mut text, "landmarks", counts.landmarks)?;
    put_line(&mut text, "signatures", counts.signatures)?;
    put_line(&mut text, "stops", counts.stops)?;
    put_line(&mut text, "verified", counts.verified)?;
    put_line(&mut text, "stands", counts.stands)?;
    put_line(&mut text, "light", counts.light)?;
    Ok(text)
}

// The answer of a drill that came to these numbers.
#[tactic(auto, using(crate::proofs::Forms::is_one))]
fn answer_of<'a>(alloc: Global, number: u64, counts: &Counts) -> Result<Answer, Stop<'a>>
    requires { IsCounted number counts.now }
    ensures { Replies (drill_outcome number).answer (ending_of result) }
{
    let text = summary(alloc, number, counts)?;
    Ok(Answer::of_text(Said::Done, text))
}

/// The command `drill NUMBER`. It plays the drill on devices in memory, and uses no file.
pub fn drill<'a, H: TreeHash>(alloc: Global, number: u64) -> Result<Answer, Stop<'a>>
    ensures { Replies (drill_outcome number).answer (ending_of result) }
{
    let played = play_drill::<H>(alloc, number)?;
    answer_of(alloc, number, &played.counts)
}
