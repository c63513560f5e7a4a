//! The command `switch`: from its size on the entries of a log name the algorithm of their key.

ghost use Rattle.std.specs.Prelude.{◌≡◌, IfOk};
ghost use Rattle.issuance_log.specs.Words.{log_tiles_disk};
ghost use Rattle.mtc_command.specs.Answers.{ending_of, stop_ending};
ghost use Rattle.mtc_authority.specs.SwitchOutcome.{MayRefuseSwitch, switch_ending, switch_says};
ghost use Rattle.mtc_authority.specs.SwitchOutcome.{switched_line};
ghost use Rattle.mtc_authority.specs.Works.{HasWorkedOnLog, IsReadyLog, StaysLog};

use disk_core::Disk;
use issuance_log::{Log, LogError};
use journal_core::AppendError;
use mtc_command::{Answer, Reason, Said, Stop, Stopped, refuse};
use mtc_io::{Bytes, Memory};
use std::alloc::Global;
use tree_core::TreeHash;

// The line of a log that was switched at this index.
fn text_of_switch(alloc: Global, index: u64) -> Result<Bytes, Memory>
    ensures { IfOk result (λ text. text ≡ switched_line index) }
{
    Ok(Bytes::from_vec(format!(in alloc; "switched {index}\n")?.into_bytes()))
}

// Why a log that was opened just now isn't switched.
fn refuse_switch<'a>(journal: &'a str, why: LogError) -> Stop<'a>
    requires { MayRefuseSwitch why }
    ensures { stop_ending result ≡ switch_ending journal.now why }
{
    match why {
        LogError::AlreadySwitched(index) => refuse(
            Stopped::NotAllowed,
            Reason::with_number("AlreadySwitched", index),
        ),
        LogError::Append(AppendError::Full) => {
            refuse(Stopped::Beyond, Reason::named("JournalFull"))
        }
        LogError::Append(AppendError::Failed) => Stop::Room(journal),
        LogError::Memory => Stop::Memory,
        _ => unreachable!(),
    }
}

/// The work of `switch J`. The text is made before the log is switched, so that nothing takes
/// memory after the append.
pub fn switch_on<'a, H: TreeHash, D: Disk>(
    alloc: Global,
    journal: &'a str,
    log: &mut Log<H, D, D>,
) -> Result<Answer, Stop<'a>>
    requires { IsReadyLog log.old }
    ensures works { HasWorkedOnLog journal.now switch_says log.old log.new (ending_of result) }
    ensures valid { StaysLog H.hash switch_says log.old log.new }
    ensures tiles { log_tiles_disk log.new ≡ log_tiles_disk log.old }
{
    log.law_unrefused_records_are_taken();
    let text = text_of_switch(alloc, log.size())?;
    match log.switch() {
        Ok(_index) => Ok(Answer {
            status: Said::Done,
            text,
        }),
        Err(why) => Err(refuse_switch(journal, why)),
    }
}
