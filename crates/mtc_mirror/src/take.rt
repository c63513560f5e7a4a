//! The command `mirror-take`: a mirror takes the new items of a file of entries.

ghost use Rattle.std.specs.Prelude.{◌≡◌, ◌<◌, ◌≤◌, ◌+◌, ◌^◌, [], ◌∷◌, ◌++◌, length, IfOk};
ghost use Rattle.std.specs.Prelude.{vec_capacity, vec_len};
ghost use Rattle.entry_list.specs.declared.error.ItemsError.{ItemsError};
ghost use Rattle.mirror_core.specs.Refusals.{pairs_of};
ghost use Rattle.mirror_core.specs.Words.{mirror_tiles_disk};
ghost use Rattle.mtc_command.specs.Answers.{ending_of, stop_ending, tiles_name};
ghost use Rattle.mtc_command.specs.Served.{OnlyReadsBeside};
ghost use Rattle.mtc_tiled.specs.Commands.{HasServedTiled};
ghost use Rattle.mtc_mirror.specs.Commands.{items_ending, mirror_take_outcome};
ghost use Rattle.mtc_mirror.specs.MirrorOutcomes.{MayRefuseItems, mirror_ending, mirrored_line};
ghost use Rattle.mtc_mirror.specs.MirrorOutcomes.{take_says};
ghost use Rattle.mtc_mirror.specs.StoredTiles.{HasMirrorTilesOf, StoresMirror};
ghost use Rattle.mtc_mirror.specs.Works.{HasWorkedOnMirror, IsMirror, IsReadyMirror, StaysMirror};
ghost use Rattle.mtc_mirror.specs.Works.{mirror_outcome};

use crate::opening::{close_mirror, open_mirror};
use disk_core::Disk;
use entry_list::{Items, ItemsError, read_items};
use frame_pool::Pool;
use itoa::Buffer;
use journal_core::AppendError;
use mirror_core::{Mirror, MirrorError};
use mtc_command::{
    Answer, LIST_LIMIT, Reason, Said, Stop, Stopped, read_input, refuse, refuse_file, tiles_name,
};
use mtc_io::{Bytes, Memory};
use mtc_lines::items_reason;
use mtc_room::Room;
use mtc_tiled::OPENING_FRAMES;
use std::alloc::Global;
use tree_core::TreeHash;

// Why a mirror that was opened just now takes no items.
fn refuse_items<'a>(journal: &'a str, why: MirrorError) -> Stop<'a>
    requires { MayRefuseItems why }
    ensures { stop_ending result ≡ mirror_ending journal.now journal.now why }
{
    let refused = Stopped::NotAllowed;
    match why {
        MirrorError::Differs(number) => refuse(refused, Reason::with_number("Differs", number)),
        MirrorError::NothingNew => refuse(refused, Reason::named("NothingNew")),
        MirrorError::TooLarge(size) => {
            refuse(Stopped::Beyond, Reason::with_number("TooLarge", size))
        }
        MirrorError::Append(AppendError::Full) => {
            refuse(Stopped::Beyond, Reason::named("JournalFull"))
        }
        MirrorError::Append(AppendError::Failed) | MirrorError::Failed => Stop::Room(journal),
        MirrorError::Memory => Stop::Memory,
        _ => unreachable!(),
    }
}

// The line of a mirror's size has no more bytes: a word, a blank, twenty digits and the end of the
// line.
const LONGEST_LINE: usize = 30;

// Memory for the line of a mirror's size.
fn reserve_line(alloc: Global) -> Result<Vec<u8>, Memory>
    ensures { IfOk result (λ line. (vec_len line ≡ 0) × (30 ≤ vec_capacity line)) }
{
    Ok(Vec::with_capacity(alloc, LONGEST_LINE)?)
}

// Appends a piece within the capacity.
fn put(line: &mut Vec<u8>, piece: &[u8])
    requires { vec_len line.old + length piece.now ≤ vec_capacity line.old }
    ensures text { line.new.items ≡ line.old.items ++ piece.now }
    ensures length { vec_len line.new ≡ vec_len line.old + length piece.now }
    ensures capacity { vec_capacity line.old ≤ vec_capacity line.new }
{
    if line.extend_from_slice(piece).is_err() {
        unreachable!()
    }
}

// The line of a mirror of this size, in the memory for it.
fn line_of_size(line: Vec<u8>, size: u64) -> Bytes
    requires { (vec_len line ≡ 0) × (30 ≤ vec_capacity line) }
    ensures { result ≡ mirrored_line size }
{
    let mut line = line;
    let mut digits = Buffer::new();
    put(&mut line, b"mirrored ");
    put(&mut line, digits.format(size).as_bytes());
    put(&mut line, b"\n");
    Bytes::from_vec(line)
}

// The work of `mirror-take M ENTRIES`. All memory but that of the record is taken before items are
// compared, and none after the append.
fn take_on<'a, H: TreeHash, D: Disk>(
    alloc: Global,
    journal: &'a str,
    mirror: &mut Mirror<H, D, D>,
    items: &Items<'_, H>,
) -> Result<Answer, Stop<'a>>
    requires { IsReadyMirror mirror.old }
    ensures works { HasWorkedOnMirror journal.now (take_says (pairs_of items.now)) mirror.old
        mirror.new (ending_of result) }
    ensures valid { StaysMirror H.hash (take_says (pairs_of items.now)) mirror.old mirror.new }
    ensures tiles { mirror_tiles_disk mirror.new ≡ mirror_tiles_disk mirror.old }
    ensures stores { StoresMirror (take_says (pairs_of items.now)) mirror.old mirror.new }
{
    mirror.law_sound();
    mirror.law_unrefused_records_are_taken();
    let _count = items.len();
    let line = reserve_line(alloc)?;
    match mirror.take(items) {
        Ok(size) => Ok(Answer {
            status: Said::Done,
            text: line_of_size(line, size),
        }),
        Err(why) => Err(refuse_items(journal, why)),
    }
}

// Opens a journal and the file of its tiles, and the mirror takes items.
fn take_items<'a, H: TreeHash, R: Room>(
    alloc: Global,
    room: &mut R,
    journal: &'a str,
    items: &Items<'_, H>,
) -> Result<Answer, Stop<'a>>
    requires { R.opened room.old + 1 < 2 ^ 32 }
    ensures served { HasServedTiled R.Room R.Dsk.Disk journal.now (HasMirrorTilesOf H.hash)
        (IsMirror H.hash) (journal.now ∷ tiles_name journal.now ∷ [])
        (mirror_outcome H.hash journal.now (R.file room.old journal.now)
        (R.file room.old (tiles_name journal.now)) (take_says (pairs_of items.now)))
        room.old room.new (ending_of result) }
    ensures only_read { OnlyReadsBeside R.Room R.Dsk.Disk room.old room.new
        (tiles_name journal.now) }
{
    let name = tiles_name(alloc, journal)?;
    let pool = Pool::new(alloc, OPENING_FRAMES)?;
    let mut mirror = open_mirror::<H, R>(alloc, room, journal, &name, pool)?;
    mirror.law_sound();
    let answer = take_on(alloc, journal, &mut mirror, items);
    close_mirror::<H, R>(room, journal, &name, mirror);
    answer
}

// Why a file is no list of items.
fn refuse_entries<'a>(file: &'a str, why: ItemsError) -> Stop<'a>
    ensures { stop_ending result ≡ items_ending file.now why }
{
    match why {
        ItemsError::Memory => Stop::Memory,
        why => refuse_file(Stopped::BadForm, file, items_reason(why)),
    }
}

/// The command `mirror-take M ENTRIES`: one record more, with as many of the new items of the file
/// as it holds. The file is read before the journal is opened. Whatever comes of it, what was
/// opened is closed.
pub fn mirror_take<'a, H: TreeHash, R: Room>(
    alloc: Global,
    room: &mut R,
    journal: &'a str,
    entries: &'a str,
) -> Result<Answer, Stop<'a>>
    requires { R.opened room.old + 1 < 2 ^ 32 }
    ensures served { HasServedTiled R.Room R.Dsk.Disk journal.now (HasMirrorTilesOf H.hash)
        (IsMirror H.hash) (journal.now ∷ tiles_name journal.now ∷ entries.now ∷ [])
        (mirror_take_outcome H.hash journal.now entries.now (R.file room.old)) room.old room.new
        (ending_of result) }
    ensures only_read { OnlyReadsBeside R.Room R.Dsk.Disk room.old room.new
        (tiles_name journal.now) }
{
    let text = read_input(alloc, room, entries, LIST_LIMIT)?;
    match read_items::<H>(alloc, text.as_slice()) {
        Ok(items) => take_items::<H, R>(alloc, room, journal, &items),
        Err(why) => Err(refuse_entries(entries, why)),
    }
}
