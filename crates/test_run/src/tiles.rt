//! What `tile` and `tile-anew` answer, and what the commands on a log answer to the file of its
//! tiles.

use crate::scripts::{Outcome, outcome_after};
use crate::texts::Unread;
use std::alloc::Global;

// The journal of log 32473.1 with 2 active landmarks and at most 1,024 entries, its header and its
// first record without the commit byte after it; the record of an entry; and that of the tiles that
// 256 entries fill. The expected values are those of an implementation that was written apart from
// the program.
const NAMES: &str = r#"
name SETTINGS 6d74632d6a6f75726e616c2f76310a00010000000e010481fd59010000000200000400
name ITEM
  01000000b40200830001a003020102301931173015060a2b0601040182da4b2f010c0733323437332e31301e17
  0d3236303130313030303030305a170d3236303130383030303030305a30000420722abd12e99a5367f375aeb9
  672a8e07712e03c2add16fa8d6914d1cfa2efe0ca31b301930170603551d110101ff040d300b8209612e657861
  6d706c65002c302a300506032b6570032100000000000000000000000000000000000000000000000000000000
  0000000000
name TILED 0100000009040000000000000100
file r
| not_before = "2026-01-01T00:00:00Z"
| not_after = "2026-01-08T00:00:00Z"
| dns = ["a.example"]
| key = "MCowBQYDK2VwAyEAAAAAAAAAAAAAAAAAAAAAAAAAAAAAAAAAAAAAAAAAAAA="
file none
file j SETTINGS
times 255 ITEM
 00
"#;

const STORED: &str = r#"
# No tile is full yet, and only then is one stored; a certificate stays as it is.
gone j.tiles
$ cert j 1 0 256 none
> c
length j.tiles 0
$ tile j
| tiled 256
left j SETTINGS
times 255 ITEM
 TILED 00
length j.tiles 8192
$ cert j 1 0 256 none
> d
same c d
$ tile j
status 4
! mtc: tile: NothingNew
$ checkpoint j
| size 256
| root e789d24923f083dce0c8fdfa13328e704286fa7b60dff1e2f70a3e4763aa3391

# Entries after the tiles, up to the last one before the next tile is full, and that one.
file j SETTINGS
times 255 ITEM
 TILED
times 255 ITEM
 00
$ tile j
status 4
! mtc: tile: NothingNew
length j.tiles 8192
$ checkpoint j
| size 511
| root 09d0a129d601967da3b377af6a5f47c9c556d63063041f59c986f287216c623d
$ issue j r
| issued 511
$ cert j 1 0 512 none
> c
$ tile j
| tiled 512
length j 94599
length j.tiles 16384
$ cert j 1 0 512 none
> d
same c d
$ checkpoint j
| size 512
| root 6d0a2d1ba4e0f5fa3da1d5f3a971f52138c7c8fe6a522849b21d16b7bedf720b

# What stands after the tiles means nothing. A file of tiles that is another one is refused.
again j.tiles
 00
$ checkpoint j
| size 512
| root 6d0a2d1ba4e0f5fa3da1d5f3a971f52138c7c8fe6a522849b21d16b7bedf720b
again j.tiles
byte 16383 00
$ issue j r
status 2
! mtc: issue: j.tiles: BadTile 0 1
again j.tiles
cut 16383
$ landmarks j
status 2
! mtc: landmarks: j.tiles: BadTile 0 1
again j.tiles
byte 0 71
$ tile j
status 2
! mtc: tile: j.tiles: BadTile 0 0
file j.tiles
$ checkpoint j
status 2
! mtc: checkpoint: j.tiles: BadTile 0 0
length j 94599
length j.tiles 0

# A journal whose records are refused leaves an empty file of tiles. A file that is no journal has
# none made beside it, nor has one that isn't there, or is made.
file k 6d74632d6a6f75726e616c2f76310a00 00
$ tile k
status 2
! mtc: tile: k: BadRecord 0
left k.tiles
file m 6d74632d6a6f75726e616c2f76310a01 00
$ tile m
status 2
! mtc: tile: m: NotJournal
$ checkpoint m
status 2
! mtc: checkpoint: m: NotJournal
$ issue m r
status 2
! mtc: issue: m: NotJournal
$ cert m 1 0 256 none
status 2
! mtc: cert: m: NotJournal
left m 6d74632d6a6f75726e616c2f76310a01 00
gone m.tiles
file o 6d74632d6a6f75726e616c2f76310a
$ landmark o
status 2
! mtc: landmark: o: NotJournal
gone o.tiles
$ tile l
status 7
! mtc: tile: l: Absent
gone l.tiles
$ init-log l 32473.1 2 64
| log 32473.1
gone l.tiles
$ tile l
status 4
! mtc: tile: NothingNew

# No journal's name ends like that of a file of tiles; an input's may.
$ tile l.tiles
status 1
! mtc: tile: TilesName 1
$ init-log l.tiles 32473.1 2 64
status 1
! mtc: init-log: TilesName 1
length l.tiles 0
$ member j.tiles
status 2
! mtc: member: j.tiles: Short 0

# What stands after the last full tile isn't stored.
file n SETTINGS
times 256 ITEM
 00
$ tile n
| tiled 256
length n.tiles 8192
"#;

#[test]
fn tiles_are_stored_beside_a_log(rt: HostRuntime) {
    let outcome = outcome_after(rt.alloc(), NAMES, STORED);
    assert!(rt; outcome == Ok(Outcome::Passed(30)), "{outcome:?}");
}

// The leaf hashes of the null entry and of the item; and the record of the tiles of 512 entries.
const REBUILT: &str = r#"
name FIRST 709e80c88487a2411e1ee4dfb9f22a861492d20c4765150c0c794abd70f8147c
name LEAF 7edfd5e2318a6de081fe8ee5e0a629335e6f6fd825fbe9f7111be6a8d243d161
name BOTH 0100000009040000000000000200

# The file of the tiles is lost. They are written again, and the journal stays as it was.
file j SETTINGS
times 255 ITEM
 TILED
times 44 ITEM
 00
gone j.tiles
$ tile-anew j
| tiled 256
left j.tiles FIRST
times 255 LEAF
left j SETTINGS
times 255 ITEM
 TILED
times 44 ITEM
 00
$ cert j 1 0 256 none
> c
$ tile j
status 4
! mtc: tile: NothingNew

# It is empty, cut, or changed in its first or last byte.
file j.tiles
$ checkpoint j
status 2
! mtc: checkpoint: j.tiles: BadTile 0 0
$ tile-anew j
| tiled 256
left j.tiles FIRST
times 255 LEAF
again j.tiles
cut 100
$ tile-anew j
| tiled 256
left j.tiles FIRST
times 255 LEAF
again j.tiles
byte 0 71
$ tile-anew j
| tiled 256
left j.tiles FIRST
times 255 LEAF
again j.tiles
byte 8191 60
$ tile-anew j
| tiled 256
left j.tiles FIRST
times 255 LEAF
$ cert j 1 0 256 none
> d
same c d

# It has them all, and bytes after them stay, also of another file.
$ tile-anew j
| tiled 256
again j.tiles
 00
$ tile-anew j
| tiled 256
left j.tiles FIRST
times 255 LEAF
 00
file j.tiles
times 300 LEAF
$ tile-anew j
| tiled 256
left j.tiles FIRST
times 299 LEAF

# The second of two tiles isn't there, or is another one, or both are.
file j SETTINGS
times 255 ITEM
 TILED
times 256 ITEM
 BOTH 00
$ tile-anew j
| tiled 512
left j.tiles FIRST
times 511 LEAF
$ checkpoint j
| size 512
| root 6d0a2d1ba4e0f5fa3da1d5f3a971f52138c7c8fe6a522849b21d16b7bedf720b
again j.tiles
byte 8192 7f
$ tile-anew j
| tiled 512
left j.tiles FIRST
times 511 LEAF
file j.tiles
times 600 00
$ tile-anew j
| tiled 512
left j.tiles FIRST
times 511 LEAF

# A log that has recorded no tiles, also where they are full: its file stays as it is.
file n SETTINGS
times 300 ITEM
 00
file n.tiles deadbeef
$ tile-anew n
status 4
! mtc: tile-anew: NothingNew
left n.tiles deadbeef
$ init-log l 32473.1 2 64
| log 32473.1
$ tile-anew l
status 4
! mtc: tile-anew: NothingNew
left l.tiles

# A file that is no log.
file k 6d74632d6a6f75726e616c2f76310a00 00
$ tile-anew k
status 2
! mtc: tile-anew: k: BadRecord 0
left k.tiles
file m 6d74632d6a6f75726e616c2f76310a01 00
$ tile-anew m
status 2
! mtc: tile-anew: m: NotJournal
gone m.tiles
$ tile-anew o
status 7
! mtc: tile-anew: o: Absent
gone o.tiles
$ tile-anew j.tiles
status 1
! mtc: tile-anew: TilesName 1
"#;

#[test]
fn tiles_are_written_again(rt: HostRuntime) {
    let outcome = outcome_after(rt.alloc(), NAMES, REBUILT);
    assert!(rt; outcome == Ok(Outcome::Passed(23)), "{outcome:?}");
}

// A case is what comes before the run in which a call of the file of tiles fails, the arguments of
// this run, and what it prints where none fails.
type Case = (&'static str, &'static str, &'static str);

const TILE: Case = ("file j.tiles", "tile j", "| tiled 256");

const CERT: Case = (
    "$ tile j\n| tiled 256\nagain j.tiles",
    "cert j 1 0 256 none",
    "> c",
);

const ISSUE: Case = (
    "$ tile j\n| tiled 256\nagain j.tiles",
    "issue j r",
    "| issued 256",
);

const LOST: Case = (
    "$ tile j\n| tiled 256\nfile j.tiles",
    "tile-anew j",
    "| tiled 256",
);

// The script of a case where a call fails, and the run is made once more.
fn failing(alloc: Global, (before, words, printed): Case, call: u64) -> Option<String> {
    let command = words.split_once(' ').map_or(words, |parts| parts.0);
    format!(in alloc;
        "{before}\nfails {call}\n$ {words}\nstatus 5\n\
         ! mtc: {command}: j.tiles: Failed\n$ {words}\n{printed}\n"
    )
    .ok()
}

// The same where none fails any more.
fn passing(alloc: Global, (before, words, printed): Case, call: u64) -> Option<String> {
    format!(in alloc; "{before}\nfails {call}\n$ {words}\n{printed}\n").ok()
}

fn outcome(alloc: Global, script: Option<String>) -> Result<Outcome, Unread> {
    match script {
        Some(script) => outcome_after(alloc, NAMES, script.as_str()),
        None => Err(Unread),
    }
}

// The first call at which a case ends in another way than it has to, of so many and one more.
fn wrong_call(alloc: Global, case: Case, calls: u64) -> Option<u64> {
    let runs = if case.0.starts_with('$') { 1 } else { 0 };
    for call in 0..calls {
        if outcome(alloc, failing(alloc, case, call)) != Ok(Outcome::Passed(runs + 2)) {
            return Some(call);
        }
    }
    if outcome(alloc, passing(alloc, case, calls)) != Ok(Outcome::Passed(runs + 1)) {
        return Some(calls);
    }
    None
}

// Tiles are synced, written and synced; or their file's length and a tile are read, and the tile
// once more for a path; or the length of an empty file is read twice, and then the tile is stored.
#[test]
fn a_file_of_tiles_fails(rt: HostRuntime) {
    for (case, calls) in [(TILE, 3), (CERT, 3), (ISSUE, 2), (LOST, 5)] {
        let wrong = wrong_call(rt.alloc(), case, calls);
        assert!(rt; wrong == None, "{} at {wrong:?}", case.1);
    }
}
