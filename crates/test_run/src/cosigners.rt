//! What the commands of a cosigner answer, and what they leave of its journal.

use crate::desk::{Answer, Desk};
use crate::scripts::{Outcome, desk_after, outcome_after};
use std::alloc::Global;
use tree_core::{Sha, TreeHash};

/// Names of bytes for the scripts of a cosigner.
pub(crate) const NAMES: &str = r#"
# A secret: an identifier of 16 bytes and a seed of 32.
name SECRET
  000102030405060708090a0b0c0d0e0f
  101112131415161718191a1b1c1d1e1f202122232425262728292a2b2c2d2e2f
# The journal of cosigner 32473.2 of log 32473.1, with height 5 and width 4: its header and its
# first record without the commit byte after it.
name FOUNDED 6d74632d6a6f75726e616c2f76310a00
  0100000043110481fd59020481fd59010000000500000003 SECRET
name ROOT 77566825cd25f263271e3fa5341db28ed2c87945ee98f731b2aa96b9e6b11cf6
# The Advance to 1,024 entries with that root, from none.
name ADVANCED FOUNDED 010000002b120000000000000400 ROOT 0000
name TO_1024 0481fd59010000000000000400 ROOT 0000
# The request to sign all of them.
name ALL 0481fd590100000000000000000000000000000400 ROOT 0000
"#;

const CASES: &str = r#"
case a new cosigner
file f SECRET
$ init-cosigner s 32473.2 32473.1 5 4 f
| AAAAAQAAAAUAAAADAAECAwQFBgcICQoLDA0OD2Ya6x2F5qmT4OVbu60lZPG0Xj4bqLm0yRfpk+u9rxni
left s FOUNDED 00
$ init-cosigner s 32473.2 32473.1 5 4 f
status 7
! mtc: init-cosigner: s: Exists

case a secret that is none makes no journal
file f SECRET
cut 47
$ init-cosigner s 32473.2 32473.1 5 4 f
status 2
! mtc: init-cosigner: f: Short 0
gone s

case a secret that is not there
$ init-cosigner s 32473.2 32473.1 5 4 f
status 7
! mtc: init-cosigner: f: Absent
gone s

case a cosigner advances
file s FOUNDED 00
file a TO_1024
$ advance s a
| advanced 1024
left s ADVANCED 00
$ advance s a
status 4
! mtc: advance: NotNewer 1024
left s ADVANCED 00

case it refuses what isn't shown to it
file s ADVANCED 00
file a 0481fd59010000000000000401 ROOT 0000
$ advance s a
status 4
! mtc: advance: BadProof
file a 0481fd59020000000000000401 ROOT 0000
$ advance s a
status 4
! mtc: advance: WrongLog
file a TO_1024 00
$ advance s a
status 2
! mtc: advance: a: Trailing
file a 000000000000000401 ROOT 0000
$ advance s a
status 2
! mtc: advance: a: EmptyId
$ advance k TO
status 7
! mtc: advance: TO: Absent
left s ADVANCED 00

case it signs no subtree that it doesn't hold
file s ADVANCED 00
file t 0481fd590100000000000000000000000000000800 ROOT 0000
$ cosign s t
status 4
! mtc: cosign: Beyond 1024
file t 0481fd590100000000000000010000000000000003 ROOT 0000
$ cosign s t
status 4
! mtc: cosign: BadSubtree
file t 0481fd590100000000000000000000000000000200 ROOT 0000
$ cosign s t
status 4
! mtc: cosign: BadProof
file t 0481fd590100000000000000000000000000000002 ROOT
$ cosign s t
status 2
! mtc: cosign: t: Short 53
file t ALL 00
$ cosign s t
status 2
! mtc: cosign: t: Trailing
left s ADVANCED 00

case a journal of a log is no cosigner's
file s 6d74632d6a6f75726e616c2f76310a00010000000e010481fd5901000000020000004000
file a TO_1024
$ advance s a
status 2
! mtc: advance: s: BadRecord 0
$ advance k a
status 7
! mtc: advance: k: Absent
"#;

#[test]
fn commands_of_a_cosigner(rt: HostRuntime) {
    let outcome = outcome_after(rt.alloc(), NAMES, CASES);
    assert!(rt; outcome == Ok(Outcome::Passed(18)), "{outcome:?}");
}

// Whether these are so many bytes with this SHA-256 in hexadecimal.
pub(crate) fn are_known(alloc: Global, bytes: &[u8], (length, hash): (usize, &str)) -> bool {
    let mut running = Sha::begin();
    running.add(bytes);
    match hex::encode(alloc, &running.end()) {
        Ok(text) => text.as_str() == hash && bytes.len() == length,
        Err(_) => false,
    }
}

// What a run printed: its output, and where it ended with another status than 0 its errors.
pub(crate) fn printed(answer: &Answer) -> &[u8] {
    if answer.status == 0 {
        answer.out.taken()
    } else {
        answer.err.taken()
    }
}

// Whether `cosign` ends with this status, and what it prints and leaves in the journal is known.
pub(crate) fn cosigns(
    alloc: Global,
    desk: &mut Desk,
    status: u8,
    out: (usize, &str),
    journal: (usize, &str),
) -> Option<bool> {
    let answer = desk.answer(alloc, "cosign s t").ok()?;
    let is_left = are_known(alloc, desk.bytes("s").unwrap_or(b""), journal);
    Some(is_left && answer.status == status && are_known(alloc, printed(&answer), out))
}

const FIRST: &str = "2baa333c65571523bc7d81699d29d25cfbdbb92da4591e18b076bfa7e144d5ee";

const LAST: &str = "dd2669fe00c057b7fdac02bc6bb90cac4cff762db0887496fff7c8a1b9cdb6af";

// Of the line `mtc: cosign: Exhausted`.
const EXHAUSTED: &str = "b86cc82da67abdedf6fee20a71fa6a00810bc949aa3bfd7f4e446354f04667ac";

const JOURNAL_OF_1: &str = "53552567265e4339eee4d88ea6a385ee072f40693d3c3baf653cfcc38491b8e8";

const JOURNAL_OF_32: &str = "9cae403f8d3fddfbb4d456f9a919814416ad1f10ccc39345a8ab24bd4698a29f";

// How many of 30 runs of `cosign` end with the status 0, from the first on.
fn cosigns_more(alloc: Global, desk: &mut Desk) -> u64 {
    for count in 0..30 {
        match desk.answer(alloc, "cosign s t") {
            Ok(answer) => if answer.status != 0 {
                return count;
            },
            Err(_) => return count,
        }
    }
    30
}

// A file system with a cosigner that holds 1,024 entries, and the request for a signature of all.
fn ready(alloc: Global) -> Option<Desk> {
    desk_after(alloc, NAMES, "file t ALL\nfile s ADVANCED 00")
}

// Whether a key of height 5 signs 32 times, and is refused then.
fn signs_32_times(alloc: Global, desk: &mut Desk) -> Option<bool> {
    let first = cosigns(alloc, desk, 0, (2359, FIRST), (197, JOURNAL_OF_1))?;
    let count = cosigns_more(alloc, desk);
    let last = cosigns(alloc, desk, 0, (2359, LAST), (2057, JOURNAL_OF_32))?;
    let refused = cosigns(alloc, desk, 4, (23, EXHAUSTED), (2057, JOURNAL_OF_32))?;
    Some(first && count == 30 && last && refused)
}

fn signs_each_once(alloc: Global) -> Option<bool> {
    let mut desk = ready(alloc)?;
    signs_32_times(alloc, &mut desk)
}

// A key of height 5 signs 32 times, and each signature has its record. The 33rd is refused.
#[test]
fn each_one_time_key_signs_once(rt: HostRuntime) {
    assert!(rt; signs_each_once(rt.alloc()) == Some(true));
}

// The status, if it is 5 with nothing out, or 0 with so many bytes out; and if the journal has its
// old length, or the new one.
fn status_of(answer: &Answer, size: usize, [out, old, new]: [usize; 3]) -> Option<u8> {
    let is_right = match answer.status {
        0 => answer.out.taken().len() == out && answer.err.taken().is_empty() && size == new,
        5 => answer.out.taken().is_empty() && answer.err.taken().ends_with(b": s: Failed\n"),
        _ => false,
    };
    if is_right && (size == old || size == new) {
        Some(answer.status)
    } else {
        None
    }
}

// The status of a command in a file system of which a call of the journal's device fails.
fn status_with(
    alloc: Global,
    desk: &mut Desk,
    words: &str,
    call: u64,
    lengths: [usize; 3],
) -> Option<u8> {
    desk.fail(alloc, "s", vec![in alloc; call].ok()?)?;
    let answer = desk.answer(alloc, words).ok()?;
    let size = desk.bytes("s").map_or(0, |bytes| bytes.len());
    status_of(&answer, size, lengths)
}

// The same in a file system that is rebuilt, with this file for the journal.
fn status_in(
    alloc: Global,
    words: &str,
    journal: &str,
    call: u64,
    lengths: [usize; 3],
) -> Option<u8> {
    let mut desk = desk_after(alloc, NAMES, journal)?;
    status_with(alloc, &mut desk, words, call, lengths)
}

// The first of 16 calls at which a command ends in another way than it has to, where it makes so
// many.
pub(crate) fn wrong_call(
    alloc: Global,
    words: &str,
    journal: &str,
    calls: u64,
    lengths: [usize; 3],
) -> Option<u64> {
    for call in 0..16 {
        let wanted = if call < calls { 5 } else { 0 };
        if status_in(alloc, words, journal, call, lengths) != Some(wanted) {
            return Some(call);
        }
    }
    None
}

// Four calls open the journal: a sync, the length, the header, and what follows it. Four add a
// record: it is written and synced, and so is its commit byte.
#[test]
fn a_device_fails_a_cosigner(rt: HostRuntime) {
    let alloc = rt.alloc();
    let wrong = wrong_call(
        alloc,
        "advance s a",
        "file a TO_1024\nfile s FOUNDED 00",
        8,
        [14, 89, 137],
    );
    assert!(rt; wrong == None, "advance: {wrong:?}");
    let wrong = wrong_call(
        alloc,
        "cosign s t",
        "file t ALL\nfile s ADVANCED 00",
        8,
        [2359, 137, 197],
    );
    assert!(rt; wrong == None, "cosign: {wrong:?}");
}

// What `export` answers in a file system of which a call of the journal's device fails, and how
// long the journal is then.
fn export_with(alloc: Global, call: u64) -> Option<(Answer, usize)> {
    let mut desk = desk_after(alloc, NAMES, "file s ADVANCED 00")?;
    desk.fail(alloc, "s", vec![in alloc; call].ok()?)?;
    let answer = desk.answer(alloc, "export s").ok()?;
    let size = desk.bytes("s").map_or(0, |bytes| bytes.len());
    Some((answer, size))
}

// Whether it ends with status 5 where this call fails, and so many bytes of the whole went out.
fn is_cut_off(alloc: Global, call: u64, length: usize) -> Option<bool> {
    let (cut, size) = export_with(alloc, call)?;
    let (whole, _) = export_with(alloc, 6)?;
    let out = cut.out.taken();
    let is_failure = cut.status == 5 && cut.err.taken().ends_with(b"mtc: export: s: Failed\n");
    let is_prefix = out.len() == length && whole.out.taken().starts_with(out);
    Some(is_failure && is_prefix && size == 137)
}

// Whether all goes out where no call that is made fails.
fn is_whole(alloc: Global) -> Option<bool> {
    let (whole, size) = export_with(alloc, 6)?;
    let is_silent = whole.err.taken().is_empty();
    Some(whole.status == 0 && is_silent && whole.out.taken().len() == 119 && size == 137)
}

// Four calls open the journal, and nothing has gone out. Then the ids and the public key go out,
// and two calls copy the only record: its length is read, and then the whole.
#[test]
fn a_device_cuts_off_an_export(rt: HostRuntime) {
    let alloc = rt.alloc();
    for call in 0..6 {
        let length = if call < 4 { 0 } else { 72 };
        let is_right = is_cut_off(alloc, call, length);
        assert!(rt; is_right == Some(true), "{call}: {is_right:?}");
    }
    let is_right = is_whole(alloc);
    assert!(rt; is_right == Some(true), "{is_right:?}");
}
