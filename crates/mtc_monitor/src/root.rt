//! The command `root`: the tree hash of a file of entries.

ghost use Rattle.std.specs.Prelude.{◌≡◌, ◌<◌, ◌^◌, [], ◌∷◌, length, IfOk};
ghost use Rattle.byte_formats.specs.Types.{Text};
ghost use Rattle.entry_list.specs.Items.{ItemLists};
ghost use Rattle.entry_stream.specs.Streams.{AreItemsOf};
ghost use Rattle.mtc_command.specs.Answers.{ending_of};
ghost use Rattle.mtc_command.specs.Endings.{Replies};
ghost use Rattle.mtc_command.specs.Served.{HasAnswered};
ghost use Rattle.mtc_monitor.specs.RootOutcome.{root_outcome, root_says, root_text};

use entry_list::ItemsError;
use entry_stream::ItemFold;
use mtc_command::{Answer, LIST_LIMIT, Said, Stop, Stopped, refuse_file};
use mtc_io::{Bytes, Memory};
use mtc_lines::{checkpoint_text, items_reason};
use mtc_room::Room;
use mtc_streams::fold_input;
use std::alloc::Global;
use tree_core::TreeHash;
use tree_peaks::Peaks;

// The number of the items whose peaks these are, and the tree hash of their entries.
fn lines_of<H: TreeHash>(alloc: Global, count: u64, peaks: &Peaks<H>) -> Result<Bytes, Memory>
    ensures { IfOk result (λ text. (items : ItemLists) → count ≡ length items.entries
        → ⟦<Peaks<H> as ItemFold>⟧.has_taken peaks.now items → text ≡ root_text H.hash items) }
{
    checkpoint_text(alloc, count, &peaks.root())
}

// What was read of the entries: their number, of which the peaks are, or why they are none.
fn root_answer<'a, H: TreeHash>(
    alloc: Global,
    entries: &'a str,
    read: Result<u64, ItemsError>,
    peaks: &Peaks<H>,
) -> Result<Answer, Stop<'a>>
    ensures { (bytes : Text)
        → AreItemsOf H.hash (⟦<Peaks<H> as ItemFold>⟧.has_taken peaks.now) read bytes
        → Replies (root_says H.hash entries.now bytes).answer (ending_of result) }
{
    match read {
        Ok(count) => Ok(Answer {
            status: Said::Done,
            text: lines_of(alloc, count, peaks)?,
        }),
        Err(why) => Err(refuse_file(Stopped::BadForm, entries, items_reason(why))),
    }
}

/// The command `root ENTRIES`. No bytes are the list without entries, whose tree hash is that of no
/// bytes.
pub fn root<'a, H: TreeHash, R: Room>(
    alloc: Global,
    room: &mut R,
    entries: &'a str,
) -> Result<Answer, Stop<'a>>
    requires { R.opened room.old < 2 ^ 32 }
    ensures { HasAnswered R.Room R.Dsk.Disk (entries.now ∷ [])
        (root_outcome H.hash entries.now (R.file room.old)) room.old room.new (ending_of result) }
{
    let mut peaks: Peaks<H> = Peaks::new();
    let read = fold_input::<H, _, _>(alloc, room, entries, LIST_LIMIT, &mut peaks)?;
    root_answer(alloc, entries, read, &peaks)
}
