//! What `switch` answers, and what the commands on a log and on certificates answer after it.

use crate::scripts::{Outcome, outcome_after};

// The journal of log 32473.1 with 2 active landmarks and at most 1,024 entries, its header and its
// first record without the commit byte after it. The records of an entry in the old form; of one
// that names the algorithm of its key, whose hash and key follow; of one that names another
// algorithm; and those of a switch at each of three sizes. The expected values are those of an
// implementation that was written apart from the program.
const NAMES: &str = r#"
name SETTINGS 6d74632d6a6f75726e616c2f76310a00010000000e010481fd59010000000200000400
name BEFORE
  0001a003020102301931173015060a2b0601040182da4b2f010c0733323437332e31301e170d32363031303130
  30303030305a170d3236303130383030303030305a3000
name ALGORITHM 300506032b6570
name AFTER
  0420722abd12e99a5367f375aeb9672a8e07712e03c2add16fa8d6914d1cfa2efe0ca31b301930170603551d11
  0101ff040d300b8209612e6578616d706c65
name KEY
  002c302a300506032b657003210000000000000000000000000000000000000000000000000000000000000000
  00
name ITEM 01000000b4020083 BEFORE AFTER KEY
name NAMED 01000000bb02008a BEFORE ALGORITHM AFTER KEY
name OTHER 01000000bb02008a BEFORE 300506032b6571 AFTER KEY
name AT_ONE 0100000009050000000000000001
name AT_TWO 0100000009050000000000000002
name AT_THREE 0100000009050000000000000003
# What certificates of both have between the serial and the proof, and these.
name FIELDS
  300c060a2b0601040182da4b2f00301931173015060a2b0601040182da4b2f010c0733323437332e31301e170d
  3236303130313030303030305a170d3236303130383030303030305a3000302a300506032b6570032100000000
  0000000000000000000000000000000000000000000000000000000000a31b301930170603551d110101ff040d
  300b8209612e6578616d706c65300c060a2b0601040182da4b2f0003
name FIRST
  3081e430819ca003020102020101 FIELDS
  350000000000000000000000000000000002002070
  9e80c88487a2411e1ee4dfb9f22a861492d20c4765150c0c794abd70f8147c0000
name SECOND
  3081c430819ca003020102020102 FIELDS
  15000000000000000002000000000000000300000000
# Stores with the hash of the entries 0 to 2, of the entry 2, and of both.
name LOG
| [log]
| id = "32473.1"
name FROM_TWO
| algorithm_from = 2
name OLD
|
| [[subtree]]
| start = 0
| end = 2
| hash = "77566825cd25f263271e3fa5341db28ed2c87945ee98f731b2aa96b9e6b11cf6"
name NEW
|
| [[subtree]]
| start = 2
| end = 3
| hash = "127755b8f2055ae8e4df80840987db57d943c95520ba1afc1ad5d18f212395b8"
file r
| not_before = "2026-01-01T00:00:00Z"
| not_after = "2026-01-08T00:00:00Z"
| dns = ["a.example"]
| key = "MCowBQYDK2VwAyEAAAAAAAAAAAAAAAAAAAAAAAAAAAAAAAAAAAAAAAAAAAA="
file none
"#;

const SWITCHED: &str = r#"
# A log of two entries is switched once.
file j SETTINGS ITEM 00
$ switch j
| switched 2
left j SETTINGS ITEM AT_TWO 00
length j 235
$ switch j
status 4
! mtc: switch: AlreadySwitched 2
left j SETTINGS ITEM AT_TWO 00
$ checkpoint j
| size 2
| root 77566825cd25f263271e3fa5341db28ed2c87945ee98f731b2aa96b9e6b11cf6

# From there on an entry names the algorithm of its key.
$ issue j r
| issued 2
left j SETTINGS ITEM AT_TWO NAMED 00
length j 427
$ checkpoint j
| size 3
| root 11ba4e5605b4a35c1a4a27b5ebc8e5b13e9e10b10cc744f6c4af8d9f4031c816
$ entries j 3
  000200000000 0083 BEFORE AFTER KEY 008a BEFORE ALGORITHM AFTER KEY
$ cert j 2 2 3 none
  SECOND
$ cert j 1 0 2 none
  FIRST
$ switch j
status 4
! mtc: switch: AlreadySwitched 2
$ landmark j
| landmark 1 3
$ light-cert j 1
  FIRST
$ light-cert j 2
  SECOND
length j 441

# A new log is switched at its first index; one that is full is switched, and issues nothing more.
file n SETTINGS 00
$ switch n
| switched 1
left n SETTINGS AT_ONE 00
$ issue n r
| issued 1
left n SETTINGS AT_ONE NAMED 00
file f 6d74632d6a6f75726e616c2f76310a00010000000e010481fd59010000000200000002 ITEM 00
$ switch f
| switched 2
$ issue f r
status 9
! mtc: issue: Full
length f 235

# What isn't switched.
$ switch k
status 7
! mtc: switch: k: Absent
file m 6d74632d6a6f75726e616c2f76310a01 00
$ switch m
status 2
! mtc: switch: m: NotJournal
"#;

const REFUSED: &str = r#"
# A switch at another size, and a second one.
file a SETTINGS ITEM AT_ONE 00
$ checkpoint a
status 2
! mtc: checkpoint: a: BadRecord 2
file b SETTINGS ITEM AT_THREE 00
$ checkpoint b
status 2
! mtc: checkpoint: b: BadRecord 2
file c SETTINGS ITEM AT_TWO AT_TWO 00
$ switch c
status 2
! mtc: switch: c: BadRecord 3
file d SETTINGS ITEM AT_TWO NAMED AT_THREE 00
$ checkpoint d
status 2
! mtc: checkpoint: d: BadRecord 4

# An entry in the other form, on either side; and one that names another algorithm.
file e SETTINGS ITEM AT_TWO ITEM 00
$ checkpoint e
status 2
! mtc: checkpoint: e: BadRecord 3
file g SETTINGS NAMED 00
$ checkpoint g
status 2
! mtc: checkpoint: g: BadRecord 1
file h SETTINGS ITEM AT_TWO OTHER 00
$ checkpoint h
status 2
! mtc: checkpoint: h: BadRecord 3

# A record with a byte less, and with one more.
file i SETTINGS ITEM 01000000080500000000000002 00
$ checkpoint i
status 2
! mtc: checkpoint: i: BadRecord 2
file l SETTINGS ITEM 010000000a05000000000000000200 00
$ checkpoint l
status 2
! mtc: checkpoint: l: BadRecord 2

# Entries beside a key whose algorithm they don't name, and beside none.
file items 000200000000 0083 BEFORE AFTER KEY 008a BEFORE 300506032b6571 AFTER KEY
$ root items
status 2
! mtc: root: items: BadItem 2
file items 000200000000 008a BEFORE ALGORITHM AFTER 0000
$ root items
status 2
! mtc: root: items: BadItem 1

# A landmark stands on either side.
file o SETTINGS ITEM 0100000009030000000000000002 AT_TWO NAMED 00
$ checkpoint o
| size 3
| root 11ba4e5605b4a35c1a4a27b5ebc8e5b13e9e10b10cc744f6c4af8d9f4031c816
file p SETTINGS ITEM AT_TWO 0100000009030000000000000002 NAMED 00
$ checkpoint p
| size 3
| root 11ba4e5605b4a35c1a4a27b5ebc8e5b13e9e10b10cc744f6c4af8d9f4031c816
"#;

const JUDGED: &str = r#"
file c FIRST
file d SECOND
file s LOG FROM_TWO OLD NEW
$ verify c s 1767225600
| accepted 1
$ verify d s 1767225600
| accepted 2

# Without the key, and with a later index, the second one's entry has the old form.
file s LOG OLD NEW
$ verify c s 1767225600
| accepted 1
$ verify d s 1767225600
status 3
| refused LandmarkDiffers
file s LOG
| algorithm_from = 3
  OLD NEW
$ verify c s 1767225600
| accepted 1
$ verify d s 1767225600
status 3
| refused LandmarkDiffers

# With an earlier one the first one's entry has the new form.
file s LOG
| algorithm_from = 1
  OLD NEW
$ verify c s 1767225600
status 3
| refused LandmarkDiffers
$ verify d s 1767225600
| accepted 2

# The keys of the table: in either order, and each that isn't one or hasn't a number.
file s
| [log]
| algorithm_from = 2
| id = "32473.1"
  NEW
$ verify d s 1767225600
| accepted 2
file s
| [log]
| algorithm_from = 2
$ verify d s 1767225600
status 2
! mtc: verify: s: Missing LogId
file s
| [log]
| algorithm_from = "2"
| id = "01"
$ verify d s 1767225600
status 2
! mtc: verify: s: BadValue LogId
file s LOG
| algorithm_from = "2"
$ verify d s 1767225600
status 2
! mtc: verify: s: BadValue AlgorithmFrom
file s LOG
| algorithm_from = -1
$ verify d s 1767225600
status 2
! mtc: verify: s: BadValue AlgorithmFrom
file s LOG
| algorithm = 2
$ verify d s 1767225600
status 2
! mtc: verify: s: UnknownKey

# An audit takes the form from the store too.
file j SETTINGS ITEM AT_TWO NAMED 00
$ entries j 3
> entries
file s LOG FROM_TWO OLD NEW
$ audit c s 1767225600 entries none
| stands 1
$ audit d s 1767225600 entries none
| stands 2
file s LOG
| algorithm_from = 1
  OLD NEW
$ audit c s 1767225600 entries none
status 3
| refused LandmarkDiffers
$ audit d s 1767225600 entries none
| stands 2
"#;

const NUMBERS: &str = r#"
file c FIRST
file d SECOND
file s LOG
| algorithm_from = 0
  OLD NEW
$ verify c s 1767225600
status 3
| refused LandmarkDiffers
$ verify d s 1767225600
| accepted 2
file s LOG
| algorithm_from = 9223372036854775807
  OLD NEW
$ verify c s 1767225600
| accepted 1
$ verify d s 1767225600
status 3
| refused LandmarkDiffers
file s LOG
| algorithm_from = 0x2
  OLD NEW
$ verify c s 1767225600
| accepted 1
$ verify d s 1767225600
| accepted 2

# What is no number of TOML, and what is another value.
file s LOG
| algorithm_from = 9223372036854775808
$ verify d s 1767225600
status 2
! mtc: verify: s: NotToml
file s LOG
| algorithm_from = 2.0
$ verify d s 1767225600
status 2
! mtc: verify: s: BadValue AlgorithmFrom
file s LOG
| algorithm_from = true
$ verify d s 1767225600
status 2
! mtc: verify: s: BadValue AlgorithmFrom
file s LOG
| algorithm_from = [2]
$ verify d s 1767225600
status 2
! mtc: verify: s: BadValue AlgorithmFrom

# It is read before the cosigners.
file s LOG
| algorithm_from = "2"
| [[cosigner]]
| id = 1
$ verify d s 1767225600
status 2
! mtc: verify: s: BadValue AlgorithmFrom
"#;

const TILED: &str = r#"
# Tiles are stored on either side of a switch.
file j SETTINGS
times 255 ITEM
  00
$ tile j
| tiled 256
$ switch j
| switched 256
$ issue j r
| issued 256
left j SETTINGS
times 255 ITEM
  0100000009040000000000000100 0100000009050000000000000100 NAMED 00
file j SETTINGS
times 255 ITEM
  0100000009040000000000000100 0100000009050000000000000100
times 256 NAMED
  00
$ tile j
| tiled 512
length j.tiles 16384
$ checkpoint j
| size 512
| root ba1b59ec6650f8c66ac6a412911e447e52b45c0e50450621477c789f1a0fe8fc

# A landmark after it holds entries of both forms.
$ landmark j
| landmark 1 512
$ light-cert j 255
> c
$ light-cert j 256
> d
$ entries j 512
> e
$ landmarks j
> l
$ trust-landmarks l 2 e
> s LOG
| algorithm_from = 256
$ verify c s 1767225600
| accepted 255
$ verify d s 1767225600
| accepted 256
"#;

#[test]
fn a_log_is_switched_once(rt: HostRuntime) {
    let outcome = outcome_after(rt.alloc(), NAMES, SWITCHED);
    assert!(rt; outcome == Ok(Outcome::Passed(18)), "{outcome:?}");
}

#[test]
fn records_beside_a_switch(rt: HostRuntime) {
    let outcome = outcome_after(rt.alloc(), NAMES, REFUSED);
    assert!(rt; outcome == Ok(Outcome::Passed(13)), "{outcome:?}");
}

#[test]
fn certificates_of_either_form(rt: HostRuntime) {
    let outcome = outcome_after(rt.alloc(), NAMES, JUDGED);
    assert!(rt; outcome == Ok(Outcome::Passed(19)), "{outcome:?}");
}

#[test]
fn tiles_around_a_switch(rt: HostRuntime) {
    let outcome = outcome_after(rt.alloc(), NAMES, TILED);
    assert!(rt; outcome == Ok(Outcome::Passed(13)), "{outcome:?}");
}

#[test]
fn numbers_of_a_store(rt: HostRuntime) {
    let outcome = outcome_after(rt.alloc(), NAMES, NUMBERS);
    assert!(rt; outcome == Ok(Outcome::Passed(11)), "{outcome:?}");
}
