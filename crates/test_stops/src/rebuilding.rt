//! Each stop of `tile-anew`, and sixteen of the crash states of the tiles that it may leave.
//!
//! A line of a case is one of these:
//!
//! ```text
//! new BYTES       the journal of a log that has stored no tiles yet
//! old BYTES       its journal when it has recorded them
//! sha256 BYTES    the SHA-256 of the tiles, by an implementation that stands apart
//! changed N       where another byte stands in their file
//! cut N           how many bytes of it are left
//! kept N          how many bytes of the tiles each stop leaves
//! calls N         how many calls the command makes that change their file
//! ```

use crate::coded::{coded, field, journal_of, numbers};
use crate::files::Files;
use std::alloc::Global;
use tree_core::{Sha, TreeHash};

const TILES: &str = "j.tiles";

// The second of two tiles has another byte. The file is synced, that tile written, and synced.
const CHANGED_TILE: &str = "
new HEADER LONG 511*ENTRY
old HEADER LONG 511*ENTRY TILED_512
sha256 12a5e1fb8022f692556d18000b66f94b03b697af11bbf6eb3dd4e3b3778974d4
changed 8192
kept 8192
calls 3
";

// The file ends within the second tile.
const CUT_TILE: &str = "
new HEADER LONG 511*ENTRY
old HEADER LONG 511*ENTRY TILED_512
sha256 12a5e1fb8022f692556d18000b66f94b03b697af11bbf6eb3dd4e3b3778974d4
cut 16000
kept 8192
calls 3
";

// Without the file both tiles are written.
const LOST_TILES: &str = "
new HEADER LONG 511*ENTRY
old HEADER LONG 511*ENTRY TILED_512
sha256 12a5e1fb8022f692556d18000b66f94b03b697af11bbf6eb3dd4e3b3778974d4
cut 0
kept 0
calls 4
";

// The file is synced, and no tile is written.
const WHOLE_TILES: &str = "
new HEADER LONG 511*ENTRY
old HEADER LONG 511*ENTRY TILED_512
sha256 12a5e1fb8022f692556d18000b66f94b03b697af11bbf6eb3dd4e3b3778974d4
kept 16384
calls 1
";

// A log with the tiles that it has recorded: its journal, its tiles as they have to be, the bytes
// that their file has at first, and how many of these each stop leaves.
#[derive(Drop)]
struct Damaged {
    journal: Vec<u8>,
    whole: Vec<u8>,
    found: Vec<u8>,
    kept: usize,
}

// The bytes that a file has by each of sixteen picks; none where they aren't the same.
fn durable_bytes(alloc: Global, files: &mut Files, name: &str) -> Option<Vec<u8>> {
    let states = files.crash_states(name)?;
    let first = states.as_slice().first()?;
    if states.len() != 1 {
        return None;
    }
    Vec::from_slice(alloc, first.bytes.as_slice()).ok()
}

fn is_digest(bytes: &[u8], digest: &[u8]) -> bool {
    let mut running = Sha::begin();
    running.add(bytes);
    let found = running.end();
    found.as_slice() == digest
}

// The tiles of a log that has stored none yet, if they are the known ones.
fn whole_tiles(alloc: Global, case: &str) -> Option<Vec<u8>> {
    let mut files = Files::new(alloc);
    files.place("j", journal_of(alloc, case, "new")?.as_slice())?;
    if !files.run("tile j")?.is(0, b"tiled 512\n", b"") {
        return None;
    }
    let tiles = durable_bytes(alloc, &mut files, TILES)?;
    let digest = coded(alloc, field(case, "sha256"))?;
    if is_digest(tiles.as_slice(), digest.as_slice()) {
        Some(tiles)
    } else {
        None
    }
}

// The tiles with another byte, or without their end, as a case says.
fn with_damage(alloc: Global, case: &str, whole: &[u8]) -> Option<Vec<u8>> {
    let mut bytes = Vec::from_slice(alloc, whole).ok()?;
    let (places, lengths) = (
        numbers(alloc, field(case, "changed"))?,
        numbers(alloc, field(case, "cut"))?,
    );
    for place in places.iter() {
        let byte = bytes.get_mut(*place as usize)?;
        *byte ^= 1;
    }
    for length in lengths.iter() {
        bytes.truncate(*length as usize);
    }
    Some(bytes)
}

fn damaged_log(alloc: Global, case: &str) -> Option<Damaged> {
    let whole = whole_tiles(alloc, case)?;
    let found = with_damage(alloc, case, whole.as_slice())?;
    Some(Damaged {
        journal: journal_of(alloc, case, "old")?,
        whole,
        found,
        kept: field(case, "kept").parse::<usize>().ok()?,
    })
}

impl Damaged {
    // The files of the log with these tiles; an empty file of tiles isn't there.
    fn files(&self, alloc: Global, tiles: &[u8]) -> Option<Files> {
        let mut files = Files::new(alloc);
        files.place("j", self.journal.as_slice())?;
        if !tiles.is_empty() {
            files.place(TILES, tiles)?;
        }
        Some(files)
    }

    // Whether these files have the journal as it was, and each crash state of the tiles is whole.
    fn is_whole(&self, alloc: Global, files: &mut Files) -> Option<bool> {
        let journal = durable_bytes(alloc, files, "j")?;
        let tiles = durable_bytes(alloc, files, TILES)?;
        Some(
            journal.as_slice() == self.journal.as_slice()
                && tiles.as_slice() == self.whole.as_slice(),
        )
    }

    // Whether the command does its work over these tiles. What a crash left after them stays.
    fn rebuilds(&self, alloc: Global, tiles: &[u8]) -> Option<bool> {
        let mut files = self.files(alloc, tiles)?;
        let answer = files.run("tile-anew j")?;
        let rebuilt = durable_bytes(alloc, &mut files, TILES)?;
        let after = tiles.get(self.whole.len()..).unwrap_or(&[]);
        Some(
            answer.is(0, b"tiled 512\n", b"")
                && rebuilt.as_slice().starts_with(self.whole.as_slice())
                && rebuilt.as_slice().ends_with(after)
                && rebuilt.len() == self.whole.len().max(tiles.len()),
        )
    }

    // Whether each crash state of the tiles begins with those that it had, and the next run makes
    // it whole.
    fn survives(&self, alloc: Global, files: &mut Files) -> Option<bool> {
        let kept = self.whole.as_slice().get(..self.kept)?;
        let states = files.crash_states(TILES)?;
        for state in states.iter() {
            let tiles = state.bytes.as_slice();
            if !tiles.starts_with(kept) || !self.rebuilds(alloc, tiles)? {
                return Some(false);
            }
        }
        let journal = durable_bytes(alloc, files, "j")?;
        Some(journal.as_slice() == self.journal.as_slice())
    }

    // Whether a run over a device of the tiles that passes so many calls is one that stops, with
    // what it has to leave.
    fn stops(&self, alloc: Global, passes: u64) -> Option<bool> {
        let files = self.files(alloc, self.found.as_slice())?;
        let mut stopped = files.run_until("tile-anew j", TILES, passes)?;
        let reported = stopped
            .answer
            .is(5, b"", b"mtc: tile-anew: j.tiles: Failed\n");
        Some(stopped.refused > 0 && reported && self.survives(alloc, &mut stopped.files)?)
    }

    // Whether one over a device that passes so many calls does its work.
    fn ends(&self, alloc: Global, passes: u64) -> Option<bool> {
        let files = self.files(alloc, self.found.as_slice())?;
        let mut ended = files.run_until("tile-anew j", TILES, passes)?;
        let done = ended.refused == 0 && ended.answer.is(0, b"tiled 512\n", b"");
        Some(done && self.is_whole(alloc, &mut ended.files)?)
    }
}

// The first run of a case that isn't as it says: each of the stops, or the run that doesn't stop.
fn wrong_run(alloc: Global, case: &str) -> Option<u64> {
    let (Some(log), Ok(calls)) = (
        damaged_log(alloc, case),
        field(case, "calls").parse::<u64>(),
    ) else {
        return Some(0);
    };
    for passes in 0..calls {
        if log.stops(alloc, passes) != Some(true) {
            return Some(passes);
        }
    }
    if log.ends(alloc, calls) == Some(true) {
        None
    } else {
        Some(calls)
    }
}

#[test]
fn tiles_with_another_byte_are_rebuilt(rt: HostRuntime) {
    let wrong = wrong_run(rt.alloc(), CHANGED_TILE);
    assert!(rt; wrong == None, "{wrong:?}");
}

#[test]
fn tiles_that_are_cut_are_rebuilt(rt: HostRuntime) {
    let wrong = wrong_run(rt.alloc(), CUT_TILE);
    assert!(rt; wrong == None, "{wrong:?}");
}

#[test]
fn tiles_that_are_lost_are_rebuilt(rt: HostRuntime) {
    let wrong = wrong_run(rt.alloc(), LOST_TILES);
    assert!(rt; wrong == None, "{wrong:?}");
}

#[test]
fn tiles_that_are_whole_stay(rt: HostRuntime) {
    let wrong = wrong_run(rt.alloc(), WHOLE_TILES);
    assert!(rt; wrong == None, "{wrong:?}");
}
