//! What the commands on the journal of a log answer where a call of its device fails.

use crate::desk::{Answer, Desk, sink};
use crate::scripts::{Outcome, desk_after, outcome_of};
use crate::texts::owned_words;
use std::alloc::Global;

const SCRIPT: &str = r#"
# A new journal, and that with its record's commit byte closed.
name NEW 6d74632d6a6f75726e616c2f76310a00010000000e010481fd59010000000200000040 00
name CLOSED 6d74632d6a6f75726e616c2f76310a00000000000e010481fd59010000000200000040 00

# The calls of a device that is made: the length is asked for; the record is written and synced;
# the commit byte is written and synced.
case the length can't be read
fresh 0
$ init-log j 32473.1 2 64
status 5
! mtc: init-log: j: Failed
left j
$ checkpoint j
status 2
! mtc: checkpoint: j: NotJournal
$ init-log j 32473.1 2 64
status 7
! mtc: init-log: j: Exists

case the record can't be written
fresh 1
$ init-log j 32473.1 2 64
status 5
! mtc: init-log: j: Failed
left j
$ checkpoint j
status 2
! mtc: checkpoint: j: NotJournal
$ init-log j 32473.1 2 64
status 7
! mtc: init-log: j: Exists

case the record can't be synced
fresh 2
$ init-log j 32473.1 2 64
status 5
! mtc: init-log: j: Failed
left j CLOSED
$ checkpoint j
status 2
! mtc: checkpoint: j: BadRecord 0
$ init-log j 32473.1 2 64
status 7
! mtc: init-log: j: Exists

case the commit byte can't be written
fresh 3
$ init-log j 32473.1 2 64
status 5
! mtc: init-log: j: Failed
left j CLOSED
$ checkpoint j
status 2
! mtc: checkpoint: j: BadRecord 0
$ init-log j 32473.1 2 64
status 7
! mtc: init-log: j: Exists

case the commit byte can't be synced
fresh 4
$ init-log j 32473.1 2 64
status 5
! mtc: init-log: j: Failed
left j NEW
$ checkpoint j
| size 1
| root 709e80c88487a2411e1ee4dfb9f22a861492d20c4765150c0c794abd70f8147c
$ init-log j 32473.1 2 64
status 7
! mtc: init-log: j: Exists

# The calls of a checkpoint: the length and the header; then a sync, the length, the header, and all
# that stands after it. One that has failed once fails no more. Those from the seventh on are of
# the second time.
case call 0 fails
file j NEW
fails 0
$ checkpoint j
status 5
! mtc: checkpoint: j: Failed
$ checkpoint j
| size 1
| root 709e80c88487a2411e1ee4dfb9f22a861492d20c4765150c0c794abd70f8147c
left j NEW

case call 1 fails
file j NEW
fails 1
$ checkpoint j
status 5
! mtc: checkpoint: j: Failed
$ checkpoint j
| size 1
| root 709e80c88487a2411e1ee4dfb9f22a861492d20c4765150c0c794abd70f8147c
left j NEW

case call 2 fails
file j NEW
fails 2
$ checkpoint j
status 5
! mtc: checkpoint: j: Failed
$ checkpoint j
| size 1
| root 709e80c88487a2411e1ee4dfb9f22a861492d20c4765150c0c794abd70f8147c
left j NEW

case call 3 fails
file j NEW
fails 3
$ checkpoint j
status 5
! mtc: checkpoint: j: Failed
$ checkpoint j
| size 1
| root 709e80c88487a2411e1ee4dfb9f22a861492d20c4765150c0c794abd70f8147c
left j NEW

case call 4 fails
file j NEW
fails 4
$ checkpoint j
status 5
! mtc: checkpoint: j: Failed
$ checkpoint j
| size 1
| root 709e80c88487a2411e1ee4dfb9f22a861492d20c4765150c0c794abd70f8147c
left j NEW

case call 5 fails
file j NEW
fails 5
$ checkpoint j
status 5
! mtc: checkpoint: j: Failed
$ checkpoint j
| size 1
| root 709e80c88487a2411e1ee4dfb9f22a861492d20c4765150c0c794abd70f8147c
left j NEW

case call 6 fails
file j NEW
fails 6
$ checkpoint j
| size 1
| root 709e80c88487a2411e1ee4dfb9f22a861492d20c4765150c0c794abd70f8147c
$ checkpoint j
status 5
! mtc: checkpoint: j: Failed
left j NEW

case call 7 fails
file j NEW
fails 7
$ checkpoint j
| size 1
| root 709e80c88487a2411e1ee4dfb9f22a861492d20c4765150c0c794abd70f8147c
$ checkpoint j
status 5
! mtc: checkpoint: j: Failed
left j NEW

case call 8 fails
file j NEW
fails 8
$ checkpoint j
| size 1
| root 709e80c88487a2411e1ee4dfb9f22a861492d20c4765150c0c794abd70f8147c
$ checkpoint j
status 5
! mtc: checkpoint: j: Failed
left j NEW

case call 9 fails
file j NEW
fails 9
$ checkpoint j
| size 1
| root 709e80c88487a2411e1ee4dfb9f22a861492d20c4765150c0c794abd70f8147c
$ checkpoint j
status 5
! mtc: checkpoint: j: Failed
left j NEW

case call 10 fails
file j NEW
fails 10
$ checkpoint j
| size 1
| root 709e80c88487a2411e1ee4dfb9f22a861492d20c4765150c0c794abd70f8147c
$ checkpoint j
status 5
! mtc: checkpoint: j: Failed
left j NEW

case call 11 fails
file j NEW
fails 11
$ checkpoint j
| size 1
| root 709e80c88487a2411e1ee4dfb9f22a861492d20c4765150c0c794abd70f8147c
$ checkpoint j
status 5
! mtc: checkpoint: j: Failed
left j NEW
"#;

#[test]
fn devices_fail(rt: HostRuntime) {
    let outcome = outcome_of(rt.alloc(), SCRIPT);
    assert!(rt; outcome == Ok(Outcome::Passed(39)), "{outcome:?}");
}

// A request and a new journal, of which a call fails.
const READY: &str = r#"
file r
| not_before = "2026-01-01T00:00:00Z"
| not_after = "2026-01-08T00:00:00Z"
| dns = ["a.example"]
| key = "MCowBQYDK2VwAyEAAAAAAAAAAAAAAAAAAAAAAAAAAAAAAAAAAAAAAAAAAAA="
file two
| [[request]]
| not_before = "2026-01-01T00:00:00Z"
| not_after = "2026-01-08T00:00:00Z"
| dns = ["a.example"]
| key = "MCowBQYDK2VwAyEAAAAAAAAAAAAAAAAAAAAAAAAAAAAAAAAAAAAAAAAAAAA="
| [[request]]
| not_before = "2026-01-01T00:00:00Z"
| not_after = "2026-01-08T00:00:00Z"
| dns = ["a.example"]
| key = "MCowBQYDK2VwAyEAAAAAAAAAAAAAAAAAAAAAAAAAAAAAAAAAAAAAAAAAAAA="
file j 6d74632d6a6f75726e616c2f76310a00010000000e010481fd59010000000200000040 00
"#;

// A command on that journal, its line, and how long the journal is after it; if it fails, what it
// says of that.
#[derive(Clone, Copy)]
struct Appending {
    words: &'static str,
    said: &'static [u8],
    failed: &'static [u8],
    length: usize,
}

const ISSUE: Appending = Appending {
    words: "issue j r",
    said: b"issued 1\n",
    failed: b"mtc: issue: j: Failed\n",
    length: 221,
};

const ISSUE_LIST: Appending = Appending {
    words: "issue-list j two",
    said: b"issued 1\nissued 2\n",
    failed: b"mtc: issue-list: j: Failed\n",
    length: 402,
};

const LANDMARK: Appending = Appending {
    words: "landmark j",
    said: b"landmark 1 1\n",
    failed: b"mtc: landmark: j: Failed\n",
    length: 50,
};

const SWITCH: Appending = Appending {
    words: "switch j",
    said: b"switched 1\n",
    failed: b"mtc: switch: j: Failed\n",
    length: 50,
};

// The calls of the device: the length and the header are read; a sync, the length, the header and
// what follows it open the journal; the record is written and synced, and so is its commit byte.
const CALLS: u64 = 10;

// The status, if the answer and the length of the journal are as they have to be: after status 0
// the journal has the new record, and after 5 its old ones, or these and the new one.
fn status_of(answer: &Answer, length: usize, appending: &Appending) -> Option<u8> {
    let is_done = answer.is(0, appending.said, b"") && length == appending.length;
    let is_old_or_new = length == 36 || length == appending.length;
    if is_done || is_old_or_new && answer.is(5, b"", appending.failed) {
        Some(answer.status)
    } else {
        None
    }
}

// The status in a file system of which these calls of the journal's device fail.
fn status_with(
    alloc: Global,
    desk: &mut Desk,
    appending: &Appending,
    failing: Vec<u64>,
) -> Option<u8> {
    desk.fail(alloc, "j", failing)?;
    let answer = desk.answer(alloc, appending.words).ok()?;
    let length = desk.bytes("j").map_or(0, |bytes| bytes.len());
    status_of(&answer, length, appending)
}

fn put_calls(calls: &mut Vec<u64>, call: u64, count: u64) -> Option<()> {
    for following in 0..count {
        calls.push(call.saturating_add(following)).ok()?;
    }
    Some(())
}

// The calls from this one on, so many of them.
fn calls_from(alloc: Global, call: u64, count: u64) -> Option<Vec<u64>> {
    let mut calls = Vec::new(alloc);
    put_calls(&mut calls, call, count)?;
    Some(calls)
}

// The status where so many calls from this one on fail, in a file system that is rebuilt.
fn status_from(alloc: Global, appending: &Appending, call: u64, count: u64) -> Option<u8> {
    let mut desk = desk_after(alloc, READY, "")?;
    status_with(alloc, &mut desk, appending, calls_from(alloc, call, count)?)
}

// The first of the calls at which the command ends in another way than it has to, where so many
// calls fail from there on.
fn wrong_call(alloc: Global, appending: &Appending, count: u64) -> Option<u64> {
    for call in 0..2 * CALLS {
        let wanted = if call < CALLS { 5 } else { 0 };
        if status_from(alloc, appending, call, count) != Some(wanted) {
            return Some(call);
        }
    }
    None
}

// One call fails alone; or the device stops at it, so that none after it is answered.
#[test]
fn a_device_fails_an_append(rt: HostRuntime) {
    for appending in [ISSUE, ISSUE_LIST, LANDMARK, SWITCH] {
        for count in [1, 2 * CALLS] {
            let wrong = wrong_call(rt.alloc(), &appending, count);
            assert!(rt;
                wrong == None,
                "{}, {count} from {wrong:?}",
                appending.words
            );
        }
    }
}

// A log of two entries, each with a key of 4,200 bytes: with the null entry before it the first one
// goes out before the second one is read. Beside it stand what may have gone out of `entries j 3`:
// nothing; the null entry and the first one; these and 1,000 bytes more; and all of them.
const LONG_ENTRIES: &str = r#"
file q
| not_before = "2026-01-01T00:00:00Z"
| not_after = "2026-01-08T00:00:00Z"
| dns = ["a.example"]
|= key = "MIIQZDAFBgMrZXADghBZ
times 1395 41414141
| "
$ issue j q
| issued 1
file q
| not_before = "2026-01-01T00:00:00Z"
| not_after = "2026-01-08T00:00:00Z"
| dns = ["b.example"]
|= key = "MIIQZDAFBgMrZXADghBZ
times 1395 41414141
| "
$ issue j q
| issued 2
name NULL 000200000000
# The entries up to their names, with the SHA-256 of the key; and the key.
name HEAD 0083
  0001a003020102301931173015060a2b0601040182da4b2f010c0733323437332e31301e170d3236303130
  313030303030305a170d3236303130383030303030305a30000420
  5b604e55998b9ee7656c3120acb854a17f87c9c617f93afdb17d295d3f686a8e
  a31b301930170603551d110101ff040d300b8209
name KEY 1068 30821064300506032b657003821059
times 4185 00
name ONE HEAD 612e6578616d706c65 KEY
name OTHER HEAD 622e6578616d706c65 KEY
name PART OTHER
cut 1000
file nothing
file first NULL ONE
file more NULL ONE PART
file all NULL ONE OTHER
"#;

fn long_log(alloc: Global) -> Option<Desk> {
    let mut desk = desk_after(alloc, READY, LONG_ENTRIES)?;
    let calls = Vec::new(alloc);
    desk.fail(alloc, "j", calls)?;
    Some(desk)
}

// Whether a run ended with this status and this line, and wrote what this file holds.
fn wrote(desk: &Desk, answer: &Answer, status: u8, file: &str, line: &[u8]) -> bool {
    match desk.bytes(file) {
        Some(out) => answer.is(status, out, line),
        None => false,
    }
}

// The same of `entries j 3` where this call of the journal's device fails.
fn lists(alloc: Global, call: u64, status: u8, file: &str, line: &[u8]) -> Option<bool> {
    let mut desk = long_log(alloc)?;
    desk.fail(alloc, "j", vec![in alloc; call].ok()?)?;
    let answer = desk.answer(alloc, "entries j 3").ok()?;
    Some(wrote(&desk, &answer, status, file, line))
}

// The same where this call of standard output fails, which takes 1,000 bytes a call.
fn lists_to(alloc: Global, call: u64, file: &str) -> Option<bool> {
    let mut desk = long_log(alloc)?;
    let words = owned_words(alloc, "entries j 3").ok()?;
    let out = sink(alloc, 1_000, vec![in alloc; call].ok()?);
    let err = sink(alloc, 1_000, Vec::new(alloc));
    let answer = desk.run_over(alloc, words.as_slice(), out, err);
    Some(wrote(&desk, &answer, 6, file, b"mtc: entries: OutputFailed\n"))
}

// Six calls open the log, and one reads each entry but the null entry, with its key.
#[test]
fn a_device_cuts_off_a_listing(rt: HostRuntime) {
    let alloc = rt.alloc();
    for call in 0..8 {
        let file = if call < 7 { "nothing" } else { "first" };
        let is_right = lists(alloc, call, 5, file, b"mtc: entries: j: Failed\n");
        assert!(rt; is_right == Some(true), "{call}: {is_right:?}");
    }
    let is_right = lists(alloc, 8, 0, "all", b"");
    assert!(rt; is_right == Some(true), "{is_right:?}");
}

// Five calls take the null entry and the first one, which go out together.
#[test]
fn standard_output_cuts_off_a_listing(rt: HostRuntime) {
    for (call, file) in [(0, "nothing"), (5, "first"), (6, "more")] {
        let is_right = lists_to(rt.alloc(), call, file);
        assert!(rt; is_right == Some(true), "{call}: {is_right:?}");
    }
}
