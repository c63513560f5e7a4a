//! The command `child`: the next lower tree of a cosigner's key.

ghost use Rattle.std.specs.Prelude.{◌≡◌, ◌≢◌, ◌<◌, ◌≤◌, ◌+◌, ◌^◌, [], ◌∷◌, ◌++◌, length, IfOk};
ghost use Rattle.std.specs.Prelude.{vec_capacity, vec_len};
ghost use Rattle.cosigner_core.specs.Keyless.{keyless_owner};
ghost use Rattle.mtc_command.specs.Answers.{stop_ending, ending_of};
ghost use Rattle.mtc_command.specs.Served.{HasServed};
ghost use Rattle.mtc_command.specs.Valid.{KeepsValid};
ghost use Rattle.mtc_cosigner.specs.CosignerOutcomes.{child_ending, child_line, child_says};
ghost use Rattle.mtc_cosigner.specs.Works.{HasWorkedOnCosigner, IsCosigner, IsReadyCosigner};
ghost use Rattle.mtc_cosigner.specs.Works.{StaysCosigner, child_outcome};

use crate::cosigner_command::on_cosigner;
use crate::work::Work;
use cosigner_core::{ChildError, KeylessCosigner};
use disk_core::Disk;
use itoa::Buffer;
use journal_core::AppendError;
use mtc_command::{Answer, Reason, Said, Stop, Stopped, refuse};
use mtc_io::{Bytes, Memory};
use mtc_room::Room;
use std::alloc::Global;
use tree_core::TreeHash;

// Why a cosigner that was opened just now makes no further lower tree.
fn refuse_child<'a>(journal: &'a str, why: ChildError) -> Stop<'a>
    requires { why ≢ ChildError.Append AppendError.Broken }
    ensures { stop_ending result ≡ child_ending journal.now why }
{
    let refused = Stopped::NotAllowed;
    match why {
        ChildError::OneLevel => refuse(refused, Reason::named("OneLevel")),
        ChildError::ChildLeft(left) => {
            refuse(refused, Reason::with_number("ChildLeft", left as u64))
        }
        ChildError::Exhausted => refuse(refused, Reason::named("Exhausted")),
        ChildError::Append(AppendError::Full) => {
            refuse(Stopped::Beyond, Reason::named("JournalFull"))
        }
        ChildError::Append(AppendError::Failed) => Stop::Room(journal),
        ChildError::Append(AppendError::Broken) => unreachable!(),
        ChildError::Memory => Stop::Memory,
    }
}

// The line of a lower tree has no more bytes: a word, a blank, ten digits and the end of the line.
const LONGEST_LINE: usize = 17;

// Memory for the line of a lower tree.
fn reserve_line(alloc: Global) -> Result<Vec<u8>, Memory>
    ensures { IfOk result (λ line. (vec_len line ≡ 0) × (17 ≤ vec_capacity line)) }
{
    Ok(Vec::with_capacity(alloc, LONGEST_LINE)?)
}

// Appends a piece within the capacity.
fn put(line: &mut Vec<u8>, piece: &[u8])
    requires { vec_len line.old + length piece.now ≤ vec_capacity line.old }
    ensures text { line.new.items ≡ line.old.items ++ piece.now }
    ensures length { vec_len line.new ≡ vec_len line.old + length piece.now }
    ensures capacity { vec_capacity line.old ≤ vec_capacity line.new }
{
    if line.extend_from_slice(piece).is_err() {
        unreachable!()
    }
}

// The line of a lower tree with this number, in the memory for it.
fn line_of_child(line: Vec<u8>, number: u32) -> Bytes
    requires { (vec_len line ≡ 0) × (17 ≤ vec_capacity line) }
    ensures { result ≡ child_line number }
{
    let mut line = line;
    let mut digits = Buffer::new();
    put(&mut line, b"child ");
    put(&mut line, digits.format(number).as_bytes());
    put(&mut line, b"\n");
    Bytes::from_vec(line)
}

/// The work of `child S`, which needs no key and makes no tree. All memory is taken before the
/// record is added.
pub(crate) fn child_on<'a, H: TreeHash, D: Disk>(
    alloc: Global,
    journal: &'a str,
    cosigner: &mut KeylessCosigner<H, D>,
) -> Result<Answer, Stop<'a>>
    requires { IsReadyCosigner (keyless_owner cosigner.old) }
    ensures works { HasWorkedOnCosigner D.Disk journal.now child_says (keyless_owner cosigner.old)
        (keyless_owner cosigner.new).disk (ending_of result) }
    ensures valid { StaysCosigner D.Disk H.hash child_says (keyless_owner cosigner.old)
        (keyless_owner cosigner.new).disk }
{
    let line = reserve_line(alloc)?;
    match cosigner.child() {
        Ok(number) => Ok(Answer {
            status: Said::Done,
            text: line_of_child(line, number),
        }),
        Err(why) => Err(refuse_child(journal, why)),
    }
}

/// The command `child S`.
#[tactic(auto, unfolding(crate::specs::Works::child_outcome, crate::specs::Works::cosigner_says))]
pub fn child<'a, H: TreeHash, R: Room>(
    alloc: Global,
    room: &mut R,
    journal: &'a str,
) -> Result<Answer, Stop<'a>>
    requires { R.opened room.old < 2 ^ 32 }
    ensures serves { HasServed R.Room R.Dsk.Disk (journal.now ∷ []) journal.now
        (child_outcome H.hash journal.now (R.file room.old)) room.old room.new (ending_of result) }
    ensures valid { KeepsValid R.Room R.Dsk.Disk (IsCosigner H.hash) (journal.now ∷ [])
        (child_outcome H.hash journal.now (R.file room.old)) room.old room.new }
{
    on_cosigner::<H, R>(alloc, room, journal, &Work::Child)
}
