//! The command `verify`: a certificate is judged by a store.

ghost use Rattle.std.specs.Prelude.{◌≡◌, ◌<◌, ◌^◌, true, [], ◌∷◌};
ghost use Rattle.mtc_words.specs.Commands.{is_time};
ghost use Rattle.mtc_command.specs.Answers.{ending_of};
ghost use Rattle.mtc_command.specs.Endings.{Replies};
ghost use Rattle.mtc_command.specs.Served.{HasAnswered};
ghost use Rattle.mtc_relying.specs.VerifyOutcome.{verdict_says, verify_says, verify_outcome};

use crate::reasons::{refusal_reason, store_reason};
use crate::replies::{against, done};
use mtc_command::{Answer, INPUT_LIMIT, Stop, Stopped, read_input, refuse_file};
use mtc_room::Room;
use policy_core::{Accepted, Refusal, StoreError, ValidStore};
use relying_party::judge;
use std::alloc::Global;
use tree_core::TreeHash;

// The answer to a judgement on the certificate of this file.
pub(crate) fn verdict_answer<'a>(
    alloc: Global,
    cert: &'a str,
    verdict: Result<Accepted, Refusal>,
) -> Result<Answer, Stop<'a>>
    ensures { Replies (verdict_says cert.now verdict).answer (ending_of result) }
{
    match verdict {
        Ok(accepted) => Ok(done(format!(in alloc; "accepted {}\n", accepted.index)?)),
        Err(why @ (Refusal::Grammar(_) | Refusal::ProofGrammar(_))) => {
            Err(refuse_file(Stopped::BadForm, cert, refusal_reason(why)))
        }
        Err(why) => against(alloc, refusal_reason(why)),
    }
}

// Reads the store, and judges by it.
fn answer_of<'a, H: TreeHash>(
    alloc: Global,
    cert: &'a str,
    store: &'a str,
    now: u64,
    bytes: &[u8],
    text: &[u8],
) -> Result<Answer, Stop<'a>>
    requires { is_time now ≡ true }
    ensures { Replies (verify_says H.hash cert.now store.now now bytes.now text.now).answer
        (ending_of result) }
{
    match ValidStore::read(alloc, text) {
        Ok(trusted) => verdict_answer(alloc, cert, judge::<H>(bytes, &trusted, now as i64)),
        Err(StoreError::Memory) => Err(Stop::Memory),
        Err(why) => Err(refuse_file(Stopped::BadForm, store, store_reason(why))),
    }
}

/// The command `verify CERT STORE NOW`. The time is in seconds since 1970-01-01T00:00:00Z.
pub fn verify<'a, H: TreeHash, R: Room>(
    alloc: Global,
    room: &mut R,
    cert: &'a str,
    store: &'a str,
    now: u64,
) -> Result<Answer, Stop<'a>>
    requires opened { R.opened room.old < 2 ^ 32 }
    requires time { is_time now ≡ true }
    ensures { HasAnswered R.Room R.Dsk.Disk (cert.now ∷ store.now ∷ [])
        (verify_outcome H.hash cert.now store.now now (R.file room.old))
        room.old room.new (ending_of result) }
{
    let bytes = read_input(alloc, room, cert, INPUT_LIMIT)?;
    let text = read_input(alloc, room, store, INPUT_LIMIT)?;
    answer_of::<H>(alloc, cert, store, now, bytes.as_slice(), text.as_slice())
}
