//! What the commands of a cosigner with a key of two levels answer, and what they leave of its
//! journal.

use crate::cosigners::{NAMES, are_known, cosigns, printed, wrong_call};
use crate::desk::Desk;
use crate::scripts::{Outcome, desk_after, outcome_after};
use mtc_io::Bytes;
use std::alloc::{AllocError, Global};

const CASES: &str = r#"
# The journal of cosigner 32473.2 of log 32473.1, with a key of heights 5 and 5 and width 4: its
# header and its first record without the commit byte after it.
name TWO 6d74632d6a6f75726e616c2f76310a00
  0100000047150481fd59020481fd5901000000050000000500000003 SECRET
# The Advance to 1,024 entries, from none.
name UP 010000002b120000000000000400 ROOT 0000
# The Child of lower tree 0, and a Sign of all entries with one-time key 0.
name CHILD 0100000009140000000000000005
name SIGN 0100000037130000000000000000000000000000000000000400 ROOT 0000

case a new cosigner with a key of two levels
file f SECRET
$ init-cosigner2 s 32473.2 32473.1 5 5 4 f
| AAAAAgAAAAUAAAADAAECAwQFBgcICQoLDA0OD2Ya6x2F5qmT4OVbu60lZPG0Xj4bqLm0yRfpk+u9rxni
left s TWO 00
length s 93
$ init-cosigner2 s 32473.2 32473.1 5 5 4 f
status 7
! mtc: init-cosigner2: s: Exists

case the lower trees have a height of their own
file f SECRET
$ init-cosigner2 s 32473.2 32473.1 5 10 2 f
| AAAAAgAAAAUAAAACAAECAwQFBgcICQoLDA0ODypIKBUr4J5rRSOhmpiv7P3i8c9A+H3q859xS3MDVUvg
left s 6d74632d6a6f75726e616c2f76310a00
  0100000047150481fd59020481fd5901000000050000000600000002 SECRET 00
$ child s
| child 0
left s 6d74632d6a6f75726e616c2f76310a00
  0100000047150481fd59020481fd5901000000050000000600000002 SECRET
  010000000914000000000000000600

case a secret that is none makes no journal
file f SECRET
cut 47
$ init-cosigner2 s 32473.2 32473.1 5 5 4 f
status 2
! mtc: init-cosigner2: f: Short 0
file f SECRET 00
$ init-cosigner2 s 32473.2 32473.1 5 5 4 f
status 2
! mtc: init-cosigner2: f: Trailing
$ init-cosigner2 s 32473.2 32473.1 5 5 4 k
status 7
! mtc: init-cosigner2: k: Absent
gone s

case nothing is signed before there is a lower tree
file s TWO 00
file a TO_1024
file t ALL
$ advance s a
| advanced 1024
left s TWO UP 00
length s 141
$ cosign s t
status 4
! mtc: cosign: NeedsChild
left s TWO UP 00
$ child s
| child 0
left s TWO UP CHILD 00
length s 155
$ child s
status 4
! mtc: child: ChildLeft 32
left s TWO UP CHILD 00

case a wrong request is refused before a lower tree is asked for
file s TWO UP 00
file t 0481fd590100000000000000000000000000000200 ROOT 0000
$ cosign s t
status 4
! mtc: cosign: BadProof
left s TWO UP 00

case one-time keys are left
file s TWO UP CHILD SIGN 00
$ child s
status 4
! mtc: child: ChildLeft 31
left s TWO UP CHILD SIGN 00

case a lower tree before any log is held
file s TWO 00
$ child s
| child 0
left s TWO CHILD 00

case a key of one level has no lower trees
file s FOUNDED 00
$ child s
status 4
! mtc: child: OneLevel
file s ADVANCED 00
$ child s
status 4
! mtc: child: OneLevel
left s ADVANCED 00

case records out of their place
file s TWO 010000000914000000010000000500
$ child s
status 2
! mtc: child: s: BadRecord 1
file s TWO 010000000914000000000000000600
$ child s
status 2
! mtc: child: s: BadRecord 1
file s TWO CHILD 010000000914000000010000000500
$ child s
status 2
! mtc: child: s: BadRecord 2
file s TWO UP SIGN 00
$ child s
status 2
! mtc: child: s: BadRecord 2
file s FOUNDED CHILD 00
$ child s
status 2
! mtc: child: s: BadRecord 1
file s 6d74632d6a6f75726e616c2f76310a00
  0100000047150481fd59020481fd5901000000050000000700000003 SECRET 00
$ child s
status 2
! mtc: child: s: BadRecord 0
file s 6d74632d6a6f75726e616c2f76310a00010000000e010481fd5901000000020000004000
$ child s
status 2
! mtc: child: s: BadRecord 0
$ child k
status 7
! mtc: child: k: Absent

case what others may know of it
file s TWO UP CHILD SIGN 00
$ export s
> e
left e 0481fd59020481fd5901003c0000000200000005000000
  03000102030405060708090a0b0c0d0e0f
  661aeb1d85e6a993e0e55bbbad2564f1b45e3e1ba8b9b4c917e993ebbdaf19e2
  0000002b120000000000000400 ROOT 0000
  00000009140000000000000005
  00000037130000000000000000000000000000000000000400 ROOT 0000
left s TWO UP CHILD SIGN 00
"#;

#[test]
fn commands_of_a_cosigner_of_two_levels(rt: HostRuntime) {
    let outcome = outcome_after(rt.alloc(), NAMES, CASES);
    assert!(rt; outcome == Ok(Outcome::Passed(25)), "{outcome:?}");
}

// The journal of that cosigner when it holds 1,024 entries, and a request to sign all of them.
const BEGUN: &str = r#"
file t ALL
file s 6d74632d6a6f75726e616c2f76310a00
  0100000047150481fd59020481fd5901000000050000000500000003 SECRET
  010000002b120000000000000400 ROOT 000000
"#;

// How many one-time keys a lower tree has.
const LEAVES: u32 = 32;

// The first bytes of a Child and of a Sign, and what a Sign of all entries has after its number.
const CHILD: &[u8] = b"\x01\x00\x00\x00\x09\x14";

const SIGN: &[u8] = b"\x01\x00\x00\x00\x37\x13";

const ALL: &[u8] = b"\x00\x00\x00\x00\x00\x00\x00\x00\x00\x00\x00\x00\x00\x00\x04\x00\
    \x77\x56\x68\x25\xcd\x25\xf2\x63\x27\x1e\x3f\xa5\x34\x1d\xb2\x8e\
    \xd2\xc8\x79\x45\xee\x98\xf7\x31\xb2\xaa\x96\xb9\xe6\xb1\x1c\xf6\x00\x00";

// Adds the Child of this lower tree, by its number in four bytes.
fn add_child(journal: &mut Vec<u8>, number: u32) -> Result<(), AllocError> {
    journal.extend_from_slice(CHILD)?;
    journal.extend_from_slice(&number.to_be_bytes())?;
    journal.extend_from_slice(b"\x00\x00\x00\x05")
}

// Adds the Sign of all entries with this one-time key.
fn add_sign(journal: &mut Vec<u8>, number: u32) -> Result<(), AllocError> {
    journal.extend_from_slice(SIGN)?;
    journal.extend_from_slice(&number.to_be_bytes())?;
    journal.extend_from_slice(ALL)
}

// The same journal after so many signatures, with the lower trees that they take. The bytes of that
// journal are those before its last commit byte.
fn signed(alloc: Global, begun: &[u8], count: u32) -> Result<Vec<u8>, AllocError> {
    let mut journal = Vec::new(alloc);
    journal.extend_from_slice(begun)?;
    for number in 0..count {
        if number % LEAVES == 0 {
            add_child(&mut journal, number / LEAVES)?;
        }
        add_sign(&mut journal, number)?;
    }
    journal.push(0)?;
    Ok(journal)
}

// A file system with that journal.
fn desk_with(alloc: Global, count: u32) -> Option<Desk> {
    let mut desk = desk_after(alloc, NAMES, BEGUN)?;
    let (_, begun) = desk.bytes("s")?.split_last()?;
    let journal = signed(alloc, begun, count).ok()?;
    desk.place("s", Bytes::from_vec(journal), Vec::new(alloc))
        .ok()?;
    Some(desk)
}

// A signature by one-time keys 0, 31, 32 and 992.
const BY_0: &str = "e225080be4ddc76336cf20c32b3a52e57a95df688deebfe4160d1c1278e1acfa";

const BY_31: &str = "c45d9fcb3243fe52eab3a84cdeb9df4e1d786a58a94419c0a3d5808d34fc85d4";

const BY_32: &str = "f626987fc7721d39ac732ccf0dab0e927203914853b6620b727a4fcbe420fed0";

const BY_992: &str = "2f39b2c354ee831bc0b31a08c77c9c28fed4d13c8cb9c3215ebca421b08e24da";

// The journal after so many signatures.
const AFTER_1: &str = "0fb4401c0c7aefa00039a97a1c81c518bc2882512b2bbb3d6e0ff325e8c74150";

const AFTER_32: &str = "a3e6b66d8eb31a194bcf83decfb328f928a52f1e6036b63a87cd4253c3c4a377";

const AFTER_33: &str = "c3bb9bad16cd1e6f73fa07265c35bd7a62fe6500631e6853031a57cb53142692";

const AFTER_993: &str = "a4722c6057a730f8192d4f7f0dc60000fdbbe2b71ab44f77e8903d1b88003c8b";

const AFTER_ALL: &str = "751124f6336da76b8a2e5d51bbd1065ee001781c0823dfb89890342440215c8a";

// Of the lines `mtc: cosign: NeedsChild` and `mtc: cosign: Exhausted`.
const NEEDS_CHILD: &str = "ce16242da16a9a3948615b519c2f6c57e97d3f4d5419fba61adfca562d55e1bf";

const EXHAUSTED: &str = "b86cc82da67abdedf6fee20a71fa6a00810bc949aa3bfd7f4e446354f04667ac";

// Whether `child` ends with this status and this line.
fn has_child(alloc: Global, desk: &mut Desk, status: u8, line: &str) -> Option<bool> {
    let answer = desk.answer(alloc, "child s").ok()?;
    Some(answer.status == status && printed(&answer) == line.as_bytes())
}

// Whether the one-time key of a new lower tree signs, the last one does, and then none.
fn first_tree_signs(alloc: Global) -> Option<bool> {
    let mut desk = desk_with(alloc, 0)?;
    let child = has_child(alloc, &mut desk, 0, "child 0\n")?;
    let first = cosigns(alloc, &mut desk, 0, (4763, BY_0), (215, AFTER_1))?;
    let mut desk = desk_with(alloc, 31)?;
    let last = cosigns(alloc, &mut desk, 0, (4763, BY_31), (2075, AFTER_32))?;
    let refused = cosigns(alloc, &mut desk, 4, (24, NEEDS_CHILD), (2075, AFTER_32))?;
    Some(child && first && last && refused)
}

// Whether the second lower tree signs after the first.
fn second_tree_signs(alloc: Global) -> Option<bool> {
    let mut desk = desk_with(alloc, 32)?;
    let child = has_child(alloc, &mut desk, 0, "child 1\n")?;
    let next = cosigns(alloc, &mut desk, 0, (4763, BY_32), (2149, AFTER_33))?;
    let left = has_child(alloc, &mut desk, 4, "mtc: child: ChildLeft 31\n")?;
    Some(child && next && left)
}

// Whether the last lower tree is made and signs.
fn last_tree_signs(alloc: Global) -> Option<bool> {
    let mut desk = desk_with(alloc, 992)?;
    let child = has_child(alloc, &mut desk, 0, "child 31\n")?;
    let next = cosigns(alloc, &mut desk, 0, (4763, BY_992), (60169, AFTER_993))?;
    Some(child && next)
}

// Whether nothing is left after 1,024 signatures.
fn all_are_used(alloc: Global) -> Option<bool> {
    let mut desk = desk_with(alloc, 1024)?;
    let refused = cosigns(alloc, &mut desk, 4, (23, EXHAUSTED), (62029, AFTER_ALL))?;
    let child = has_child(alloc, &mut desk, 4, "mtc: child: Exhausted\n")?;
    let is_left = are_known(alloc, desk.bytes("s")?, (62029, AFTER_ALL));
    Some(refused && child && is_left)
}

// A key of heights 5 and 5 signs 32 times by each of 32 lower trees. None signs before its `child`.
#[test]
fn each_lower_tree_signs_32_times(rt: HostRuntime) {
    let alloc = rt.alloc();
    assert!(rt; first_tree_signs(alloc) == Some(true));
    assert!(rt; second_tree_signs(alloc) == Some(true));
    assert!(rt; last_tree_signs(alloc) == Some(true));
    assert!(rt; all_are_used(alloc) == Some(true));
}

// Four calls open the journal, and four add the record.
#[test]
fn a_device_fails_a_child(rt: HostRuntime) {
    let wrong = wrong_call(rt.alloc(), "child s", BEGUN, 8, [8, 141, 155]);
    assert!(rt; wrong == None, "{wrong:?}");
}
