//! What the commands of a mirror answer where a call of a device fails.

use crate::desk::{Answer, Desk};
use crate::mirrors::NAMES;
use crate::scripts::desk_after;
use std::alloc::Global;

// A case is what comes before a command, its arguments, the journal that may get a record, and how
// many bytes the command prints and this journal has before it and after it.
type Case = (&'static str, &'static str, &'static str, [usize; 3]);

const ENTRIES: Case = (
    "file m STARTED BATCH 00",
    "mirror-entries m 8",
    "m",
    [66, 102, 102],
);

const TAKE: Case = (
    "file m STARTED BATCH 00\nfile f EIGHT 000200000000",
    "mirror-take m f",
    "m",
    [11, 102, 116],
);

const TILE: Case = (
    "file m.tiles\nfile m STARTED 0100000403 22 0100\ntimes 256 00000000\n 00",
    "mirror-tile m",
    "m",
    [10, 1060, 1074],
);

const ADVANCE: Case = (
    "file m STARTED BATCH 00\nfile s FOUNDED 00",
    "mirror-advance s m 5",
    "s",
    [11, 89, 137],
);

const COSIGN: Case = (
    "file m STARTED BATCH 00\nfile s FOUNDED ADVANCED 00",
    "mirror-cosign s m 0 4",
    "s",
    [2359, 137, 229],
);

// The mirror has stored a tile, and a path goes through it.
const COSIGN_BY_TILE: Case = (
    "file m STARTED 0100000403 22 0100\ntimes 256 00000000\n 00\nfile s FOUNDED 00\n\
     $ mirror-tile m\n| tiled 256\n$ mirror-advance s m 256\n| advanced 256",
    "mirror-cosign s m 0 128",
    "s",
    [2359, 137, 229],
);

fn length_of(desk: &Desk, name: &str) -> usize {
    desk.bytes(name).map_or(0, |bytes| bytes.len())
}

// Whether a line is about this file, which failed.
fn is_failure(line: &[u8], file: &str) -> bool {
    match line.strip_suffix(b": Failed\n") {
        Some(start) => start.ends_with(file.as_bytes()),
        None => false,
    }
}

// The status, if it is 5 with nothing out and a line about the file, or 0 with so many bytes out;
// and if the journal has its old length, or the new one.
fn status_of(
    answer: &Answer,
    file: &str,
    length: usize,
    [out, old, new]: [usize; 3],
) -> Option<u8> {
    let is_right = match answer.status {
        0 => answer.out.taken().len() == out && answer.err.taken().is_empty() && length == new,
        5 => answer.out.taken().is_empty() && is_failure(answer.err.taken(), file),
        _ => false,
    };
    if is_right && (length == old || length == new) {
        Some(answer.status)
    } else {
        None
    }
}

// The status of a case in which this call of a file fails.
fn status_in(alloc: Global, case: Case, file: &str, call: u64) -> Option<u8> {
    let (before, words, journal, lengths) = case;
    let mut desk = desk_after(alloc, NAMES, before)?;
    desk.fail(alloc, file, vec![in alloc; call].ok()?)?;
    let answer = desk.answer(alloc, words).ok()?;
    status_of(&answer, file, length_of(&desk, journal), lengths)
}

// The first of 16 calls of a file at which a case ends in another way than it has to, where it
// makes so many.
fn wrong_call(alloc: Global, case: Case, file: &str, calls: u64) -> Option<u64> {
    for call in 0..16 {
        let wanted = if call < calls { 5 } else { 0 };
        if status_in(alloc, case, file, call) != Some(wanted) {
            return Some(call);
        }
    }
    None
}

// The header and its length are read, and then a sync, the length, the header and what follows it
// open the journal. Two calls read the record with the items again: its length, and then the whole.
// Four add a record: it is written and synced, and so is its commit byte.
#[test]
fn the_journal_of_a_mirror_fails(rt: HostRuntime) {
    for (case, calls) in [
        (ENTRIES, 8),
        (TAKE, 12),
        (TILE, 10),
        (ADVANCE, 6),
        (COSIGN, 6),
    ] {
        let wrong = wrong_call(rt.alloc(), case, "m", calls);
        assert!(rt; wrong == None, "{} at {wrong:?}", case.1);
    }
}

// Tiles are synced, written and synced; or their file's length and a tile are read, and the tile
// once more for the hash of the subtree and its proof.
#[test]
fn the_tiles_of_a_mirror_fail(rt: HostRuntime) {
    for (case, calls) in [(TILE, 3), (COSIGN_BY_TILE, 3)] {
        let wrong = wrong_call(rt.alloc(), case, "m.tiles", calls);
        assert!(rt; wrong == None, "{} at {wrong:?}", case.1);
    }
}

// Four calls open the cosigner's journal, which isn't read again, and four add a record.
#[test]
fn the_journal_of_its_cosigner_fails(rt: HostRuntime) {
    for case in [ADVANCE, COSIGN] {
        let wrong = wrong_call(rt.alloc(), case, "s", 8);
        assert!(rt; wrong == None, "{} at {wrong:?}", case.1);
    }
}
