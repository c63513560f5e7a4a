//! The stores that trust the subtrees of landmarks.

use crate::desk::{Answer, Desk};
use crate::scripts::{Outcome, outcome_after};
use mtc_io::{Bytes, Memory};
use std::alloc::Global;

/// What landmarks at the sizes 5 and 9 make trusted, as TABLES.
pub(crate) const TABLES: &str = r#"
name TABLES
| [[subtree]]
| start = 0
| end = 4
| hash = "f956582328eaa7dbde68fc31ba2921f9235df4f4cb6ccde43bdc178396606ec5"
|
| [[subtree]]
| start = 4
| end = 5
| hash = "7edfd5e2318a6de081fe8ee5e0a629335e6f6fd825fbe9f7111be6a8d243d161"
|
| [[subtree]]
| start = 4
| end = 8
| hash = "c67b5df0526a55f2970ebcef168f727267c6eb3af62e2cc9b3bf5317af5325b5"
|
| [[subtree]]
| start = 8
| end = 9
| hash = "7edfd5e2318a6de081fe8ee5e0a629335e6f6fd825fbe9f7111be6a8d243d161"
|
"#;

const SCRIPT: &str = r#"
# Its entry and key, each after its length of two bytes; and the item of the null entry.
name ENTRY
  00830001a003020102301931173015060a2b0601040182da4b2f010c0733323437332e31301e170d3236303130
  313030303030305a170d3236303130383030303030305a30000420722abd12e99a5367f375aeb9672a8e07712e
  03c2add16fa8d6914d1cfa2efe0ca31b301930170603551d110101ff040d300b8209612e6578616d706c65
name KEY
  002c302a300506032b657003210000000000000000000000000000000000000000000000000000000000000000
  00
name ITEM ENTRY KEY
name NULL 000200000000
name NINE NULL ITEM ITEM ITEM ITEM ITEM ITEM ITEM ITEM
# The list of two active landmarks at the sizes 5 and 9.
name LIST
| 2 2
| 9
| 5
| 0

case what is trusted
file l LIST
file e NINE
$ trust-landmarks l 2 e
  TABLES

# Entries that aren't in their form, each before a list that isn't.
name SHORT 2d
case an item that is cut
file l SHORT
file e NINE
cut 1437
$ trust-landmarks l 2 e
status 2
! mtc: trust-landmarks: e: Short 1392

case an item of one byte
file l SHORT
file e NULL 00
$ trust-landmarks l 2 e
status 2
! mtc: trust-landmarks: e: Short 6

case a key that doesn't match
file l SHORT
file e NINE
byte 161 01
$ trust-landmarks l 2 e
status 2
! mtc: trust-landmarks: e: BadItem 1

case no key beside an entry that wants one
file l SHORT
file e NULL ENTRY 0000
$ trust-landmarks l 2 e
status 2
! mtc: trust-landmarks: e: BadItem 1

case a key beside the null entry
file l SHORT
file e 00020000000105
$ trust-landmarks l 2 e
status 2
! mtc: trust-landmarks: e: BadItem 0

case a list that isn't in its form
file l SHORT
file e NINE
$ trust-landmarks l 2 e
status 2
! mtc: trust-landmarks: l: BadLine 0

case sizes that don't fall
file l
| 2 2
| 9
| 9
| 0
file e NINE
$ trust-landmarks l 5 e
status 2
! mtc: trust-landmarks: l: NotFalling 2

case more active landmarks than there are
file l
| 2 3
| 9
| 5
| 0
file e NINE
$ trust-landmarks l 5 e
status 2
! mtc: trust-landmarks: l: TooManyActive

case a zero before a size
file l
| 2 2
| 9
| 05
| 0
file e NINE
$ trust-landmarks l 5 e
status 2
! mtc: trust-landmarks: l: BadLine 2

case more active landmarks than are allowed
file l LIST
file e NINE
$ trust-landmarks l 1 e
status 2
! mtc: trust-landmarks: l: TooManyActive

case a landmark after the entries
file l LIST
file e NULL ITEM ITEM ITEM ITEM ITEM ITEM ITEM
$ trust-landmarks l 2 e
status 2
! mtc: trust-landmarks: l: BeyondLog

case no landmark
file l
| 0 0
| 0
file e
$ trust-landmarks l 1 e

case entries that don't read
file l
| 1 1
| 2
| 0
file e 00016100000001620000
$ trust-landmarks l 1 e
| [[subtree]]
| start = 0
| end = 1
| hash = "022a6979e6dab7aa5ae4c3e5e45f7e977112a7e63593820dbec1ec738a24f93c"
|
| [[subtree]]
| start = 1
| end = 2
| hash = "57eb35615d47f34ec714cacdf5fd74608a5e8e102724e80b24b287c0c27b6a31"
|

case files and words
file l LIST
file e NINE
$ trust-landmarks x 2 y
status 7
! mtc: trust-landmarks: x: Absent
$ trust-landmarks l 2 y
status 7
! mtc: trust-landmarks: y: Absent
$ trust-landmarks l 0 e
status 1
! mtc: trust-landmarks: BadNumber 2
$ trust-landmarks l 10001 e
status 1
! mtc: trust-landmarks: BadNumber 2
"#;

// What is printed is a piece of a store, by which each entry that an active landmark covers is
// accepted: those from 2 up to 9.
const COVERED: &str = r#"
case two of three landmarks are active
file r
| not_before = "2026-01-01T00:00:00Z"
| not_after = "2026-01-08T00:00:00Z"
| dns = ["a.example"]
| key = "MCowBQYDK2VwAyEAAAAAAAAAAAAAAAAAAAAAAAAAAAAAAAAAAAAAAAAAAAA="
$ init-log j 32473.1 2 64
| log 32473.1
$ issue j r
| issued 1
$ landmark j
| landmark 1 2
$ issue j r
| issued 2
$ landmark j
| landmark 2 3
$ issue j r
| issued 3
$ issue j r
| issued 4
$ issue j r
| issued 5
$ issue j r
| issued 6
$ issue j r
| issued 7
$ issue j r
| issued 8
$ landmark j
| landmark 3 9
$ landmarks j
> list
$ entries j 9
> entries
$ trust-landmarks list 2 entries
> store
| [log]
| id = "32473.1"
$ light-cert j 1
status 4
! mtc: light-cert: NotCovered
$ light-cert j 2
> cert
$ verify cert store 1767225600
| accepted 2
$ light-cert j 3
> cert
$ verify cert store 1767225600
| accepted 3
$ light-cert j 4
> cert
$ verify cert store 1767225600
| accepted 4
$ light-cert j 5
> cert
$ verify cert store 1767225600
| accepted 5
$ light-cert j 6
> cert
$ verify cert store 1767225600
| accepted 6
$ light-cert j 7
> cert
$ verify cert store 1767225600
| accepted 7
$ light-cert j 8
> cert
$ verify cert store 1767225600
| accepted 8
"#;

#[test]
fn subtrees_of_landmarks_are_trusted(rt: HostRuntime) {
    for (script, runs) in [(SCRIPT, 18), (COVERED, 30)] {
        let outcome = outcome_after(rt.alloc(), TABLES, script);
        assert!(rt; outcome == Ok(Outcome::Passed(runs)), "{outcome:?}");
    }
}

// The hash of an entry of no bytes.
const EMPTY_LEAF: &str = "6e340b9cffb37a989ca544e6bb780a2c78901d3fb33738768511a30617afa01d";

// Writes a list of 10,000 active landmarks, one after each entry of no bytes.
fn write_list(list: &mut String) -> Option<()> {
    write!(list, "10000 10000\n10000\n").ok()?;
    for number in 0..10_000u64 {
        write!(list, "{}\n", 9_999u64.saturating_sub(number)).ok()?;
    }
    Some(())
}

// Writes what it trusts.
fn write_tables(tables: &mut String) -> Option<()> {
    for number in 0..10_000u64 {
        let end = number.saturating_add(1);
        write!(
            tables,
            "[[subtree]]\nstart = {number}\nend = {end}\nhash = \"{EMPTY_LEAF}\"\n\n"
        )
        .ok()?;
    }
    Some(())
}

// Appends 10,000 items of no bytes to the bytes.
fn put_items(bytes: &mut Bytes) -> Result<(), Memory> {
    for _ in 0..10_000 {
        bytes.append(&[0, 0, 0, 0])?;
    }
    Ok(())
}

// Puts the list in its place.
fn place_list(alloc: Global, desk: &mut Desk) -> Option<()> {
    let mut list = String::new(alloc);
    write_list(&mut list)?;
    desk.place("l", Bytes::from_vec(list.into_bytes()), Vec::new(alloc))
        .ok()
}

// Puts the entries in their place.
fn place_entries(alloc: Global, desk: &mut Desk) -> Option<()> {
    let mut entries = Bytes::new(alloc);
    put_items(&mut entries).ok()?;
    desk.place("e", entries, Vec::new(alloc)).ok()
}

// What is answered to them.
fn answer(alloc: Global, desk: &mut Desk) -> Option<Answer> {
    place_list(alloc, desk)?;
    place_entries(alloc, desk)?;
    desk.answer(alloc, "trust-landmarks l 10000 e").ok()
}

// Whether what the list trusts is answered.
fn is_trusted(alloc: Global, answer: &Answer) -> bool {
    let mut tables = String::new(alloc);
    let is_written = write_tables(&mut tables).is_some();
    is_written && answer.is(0, tables.as_bytes(), b"")
}

fn is_long_list_trusted(alloc: Global) -> Option<bool> {
    let mut desk = Desk::new(alloc);
    let answer = answer(alloc, &mut desk)?;
    Some(is_trusted(alloc, &answer))
}

#[test]
fn a_long_list_is_trusted(rt: HostRuntime) {
    assert!(rt; is_long_list_trusted(rt.alloc()) == Some(true));
}
