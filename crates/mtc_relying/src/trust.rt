//! The command `trust-landmarks`: the tables of a store that trusts the subtrees of the active
//! landmarks.

ghost use Rattle.std.specs.Prelude.{◌≡◌, ◌<◌, ◌^◌, ℕ, true, Ok, [], ◌∷◌, length};
ghost use Rattle.byte_formats.specs.Types.{Text};
ghost use Rattle.entry_list.specs.Items.{ItemLists};
ghost use Rattle.entry_stream.specs.Streams.{AreItemsOf};
ghost use Rattle.landmarks.specs.Landmarks.{LandmarkList};
ghost use Rattle.landmarks.specs.Texts.{list_of};
ghost use Rattle.mtc_words.specs.Commands.{is_active};
ghost use Rattle.mtc_command.specs.Answers.{ending_of};
ghost use Rattle.mtc_command.specs.Endings.{Replies};
ghost use Rattle.mtc_command.specs.Served.{HasAnswered};
ghost use Rattle.mtc_relying.specs.SubtreeTables.{AreSubtreesOf};
ghost use Rattle.mtc_relying.specs.TrustOutcome.{list_says, trust_outcome, trust_says};

use crate::reasons::list_reason;
use crate::subtrees::subtrees_in;
use crate::tables::SubtreeTables;
use entry_list::ItemsError;
use entry_stream::ItemFold;
use landmarks::{ListError, read_list};
use mtc_command::{Answer, INPUT_LIMIT, LIST_LIMIT, Said, Stop, Stopped, read_input, refuse_file};
use mtc_lines::items_reason;
use mtc_room::Room;
use mtc_streams::fold_input;
use std::alloc::Global;
use tree_core::TreeHash;

// Reads the list once more, of landmarks at no larger size than the number of the entries, of which
// the tables are.
fn list_answer<'a, H: TreeHash>(
    alloc: Global,
    list: &'a str,
    max_active: u32,
    text: &[u8],
    count: u64,
    tables: SubtreeTables<H>,
) -> Result<Answer, Stop<'a>>
    requires { (size : ℕ) (l : LandmarkList) → list_of text.now max_active size ≡ Ok l
        → AreSubtreesOf l tables.spans }
    ensures { (items : ItemLists) → count ≡ length items.entries
        → ⟦<SubtreeTables<H> as ItemFold>⟧.has_taken tables items
        → Replies (list_says H.hash list.now max_active text.now items.entries).answer
        (ending_of result) }
{
    match read_list(alloc, text, max_active, count) {
        Ok(_landmarks) => Ok(Answer::of_text(Said::Done, tables.into_text())),
        Err(ListError::Memory) => Err(Stop::Memory),
        Err(why) => Err(refuse_file(Stopped::BadForm, list, list_reason(why))),
    }
}

// What was read of the entries, and then the list.
fn entries_answer<'a, H: TreeHash>(
    alloc: Global,
    list: &'a str,
    max_active: u32,
    text: &[u8],
    entries: &'a str,
    counted: Result<u64, ItemsError>,
    tables: SubtreeTables<H>,
) -> Result<Answer, Stop<'a>>
    requires { (size : ℕ) (l : LandmarkList) → list_of text.now max_active size ≡ Ok l
        → AreSubtreesOf l tables.spans }
    ensures { (bytes : Text) → AreItemsOf H.hash
        (⟦<SubtreeTables<H> as ItemFold>⟧.has_taken tables) counted bytes
        → Replies (trust_says H.hash list.now max_active entries.now text.now bytes).answer
        (ending_of result) }
{
    match counted {
        Ok(count) => list_answer(alloc, list, max_active, text, count, tables),
        Err(why) => Err(refuse_file(Stopped::BadForm, entries, items_reason(why))),
    }
}

/// The command `trust-landmarks LIST MAXACTIVE ENTRIES`. The answer is as if both files were read
/// before the entries are tested, and these before the list. The entries are read as a stream.
pub fn trust_landmarks<'a, H: TreeHash, R: Room>(
    alloc: Global,
    room: &mut R,
    list: &'a str,
    max_active: u64,
    entries: &'a str,
) -> Result<Answer, Stop<'a>>
    requires opened { R.opened room.old < 2 ^ 32 }
    requires active { is_active max_active ≡ true }
    ensures { HasAnswered R.Room R.Dsk.Disk (list.now ∷ entries.now ∷ [])
        (trust_outcome H.hash list.now max_active entries.now (R.file room.old))
        room.old room.new (ending_of result) }
{
    let text = read_input(alloc, room, list, INPUT_LIMIT)?;
    let most = max_active as u32;
    let spans = subtrees_in(alloc, text.as_slice(), most)?;
    let mut tables: SubtreeTables<H> = SubtreeTables::new(alloc, spans);
    let counted = fold_input::<H, _, _>(alloc, room, entries, LIST_LIMIT, &mut tables)?;
    entries_answer(alloc, list, most, text.as_slice(), entries, counted, tables)
}
