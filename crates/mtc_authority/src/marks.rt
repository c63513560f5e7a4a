//! The commands `landmark` and `landmarks`: a landmark more, and the list of the active ones.

ghost use Rattle.std.specs.Prelude.{◌≡◌, IfOk};
ghost use Rattle.issuance_log.specs.Words.{LogStays, log_tiles_disk, view_of};
ghost use Rattle.mtc_command.specs.Answers.{ending_of, stop_ending};
ghost use Rattle.mtc_command.specs.Endings.{Replies};
ghost use Rattle.mtc_command.specs.Wanted.{exactly};
ghost use Rattle.mtc_authority.specs.LandmarkOutcomes.{MayRefuseMark, landmark_line, landmark_says};
ghost use Rattle.mtc_authority.specs.LandmarkOutcomes.{landmarks_reply, log_landmarks, mark_ending};
ghost use Rattle.mtc_authority.specs.Works.{HasWorkedOnLog, IsReadyLog, StaysLog};

use disk_core::Disk;
use issuance_log::{Log, LogError};
use journal_core::AppendError;
use landmarks::{Landmarks, of_marks, write_list};
use mtc_command::{Answer, Reason, Said, Stop, Stopped, refuse};
use mtc_io::{Bytes, Memory};
use std::alloc::Global;
use tree_core::TreeHash;

// The line of a landmark with this number and size.
fn text_of_landmark(alloc: Global, number: u64, size: u64) -> Result<Bytes, Memory>
    ensures { IfOk result (λ text. text ≡ landmark_line number size) }
{
    Ok(Bytes::from_vec(format!(in alloc; "landmark {number} {size}\n")?.into_bytes()))
}

// Why a log that was opened just now takes no landmark.
fn refuse_landmark<'a>(journal: &'a str, why: LogError) -> Stop<'a>
    requires { MayRefuseMark why }
    ensures { stop_ending result ≡ mark_ending journal.now why }
{
    match why {
        LogError::NothingNew => refuse(Stopped::NotAllowed, Reason::named("NothingNew")),
        LogError::Append(AppendError::Full) => {
            refuse(Stopped::Beyond, Reason::named("JournalFull"))
        }
        LogError::Append(AppendError::Failed) => Stop::Room(journal),
        LogError::Memory => Stop::Memory,
        _ => unreachable!(),
    }
}

/// The work of `landmark J`. The text is made before the landmark is set, so that nothing takes
/// memory after the append.
pub fn set_landmark<'a, H: TreeHash, D: Disk>(
    alloc: Global,
    journal: &'a str,
    log: &mut Log<H, D, D>,
) -> Result<Answer, Stop<'a>>
    requires { IsReadyLog log.old }
    ensures works { HasWorkedOnLog journal.now landmark_says log.old log.new (ending_of result) }
    ensures valid { StaysLog H.hash landmark_says log.old log.new }
    ensures tiles { log_tiles_disk log.new ≡ log_tiles_disk log.old }
{
    log.law_unrefused_records_are_taken();
    let number = log.marks().len() as u64 + 1;
    let text = text_of_landmark(alloc, number, log.size())?;
    match log.mark() {
        Ok(_landmark) => Ok(Answer {
            status: Said::Done,
            text,
        }),
        Err(why) => Err(refuse_landmark(journal, why)),
    }
}

// The landmarks of a log, as many of them active as it allows.
fn landmarks_in<H: TreeHash, D: Disk>(
    alloc: Global,
    log: &Log<H, D, D>,
) -> Result<Landmarks, Memory>
    ensures { IfOk result (λ l. l ≡ log_landmarks (view_of log.now)) }
{
    log.law_sound();
    of_marks(alloc, log.marks(), log.settings().max_active)
}

/// The work of `landmarks J`.
pub fn list_landmarks<'a, H: TreeHash, D: Disk>(
    alloc: Global,
    log: &mut Log<H, D, D>,
) -> Result<Answer, Stop<'a>>
    ensures reply { Replies (exactly (landmarks_reply (view_of log.old))) (ending_of result) }
    ensures stays { LogStays log.old log.new }
{
    let landmarks = landmarks_in(alloc, log)?;
    Ok(Answer {
        status: Said::Done,
        text: write_list(alloc, &landmarks)?,
    })
}
