//! The command `member`: the inclusion path of a file, evaluated.

ghost use Rattle.std.specs.Prelude.{◌≡◌, ◌<◌, ◌^◌, [], ◌∷◌};
ghost use Rattle.mtc_command.specs.Answers.{ending_of};
ghost use Rattle.mtc_command.specs.Endings.{Replies};
ghost use Rattle.mtc_command.specs.Served.{HasAnswered};
ghost use Rattle.mtc_relying.specs.Member.{member_judgement, member_view};
ghost use Rattle.mtc_relying.specs.MemberOutcome.{judgement_says, member_says, member_outcome};

mod file;

use crate::reasons::{hashes_reason, shape_name};
use crate::replies::{against, done};
use file::{MemberFile, read_member};
use mtc_command::{Answer, INPUT_LIMIT, Reason, Stop, Stopped, read_input, refuse_file};
use mtc_room::Room;
use std::alloc::Global;
use tree_core::{EvalError, TreeHash, evaluate, leaf};

// Whether the path leads from the entry to the file's hash.
#[tactic(auto, unfolding(crate::specs::Member::member_judgement))]
fn judge<H: TreeHash>(member: &MemberFile) -> Result<bool, EvalError>
    ensures { result ≡ member_judgement H.hash (member_view member.now) }
{
    let leaf = leaf::<H>(member.entry);
    let hash = evaluate::<H>(&leaf, member.index, member.start, member.end, member.path)?;
    Ok(hash.as_slice() == member.hash)
}

fn judgement_answer<'a>(
    alloc: Global,
    index: u64,
    judgement: Result<bool, EvalError>,
) -> Result<Answer, Stop<'a>>
    ensures { Replies (judgement_says index judgement).answer (ending_of result) }
{
    match judgement {
        Ok(true) => Ok(done(format!(in alloc; "member {index}\n")?)),
        Ok(false) => against(alloc, Reason::named("HashDiffers")),
        Err(why) => against(alloc, Reason::named(shape_name(why))),
    }
}

fn answer_of<'a, H: TreeHash>(
    alloc: Global,
    file: &'a str,
    bytes: &[u8],
) -> Result<Answer, Stop<'a>>
    ensures { Replies (member_says H.hash file.now bytes.now).answer (ending_of result) }
{
    match read_member(bytes) {
        Ok(member) => judgement_answer(alloc, member.index, judge::<H>(&member)),
        Err(why) => Err(refuse_file(Stopped::BadForm, file, hashes_reason(why))),
    }
}

/// The command `member FILE`.
pub fn member<'a, H: TreeHash, R: Room>(
    alloc: Global,
    room: &mut R,
    file: &'a str,
) -> Result<Answer, Stop<'a>>
    requires { R.opened room.old < 2 ^ 32 }
    ensures { HasAnswered R.Room R.Dsk.Disk (file.now ∷ [])
        (member_outcome H.hash file.now (R.file room.old)) room.old room.new (ending_of result) }
{
    let bytes = read_input(alloc, room, file, INPUT_LIMIT)?;
    answer_of::<H>(alloc, file, bytes.as_slice())
}
