//! What those who watch a log from outside are answered: `root`, `held`, `monitor-init`, `monitor`;
//! and what `help` and `version` print.

use crate::scripts::{Outcome, outcome_after};

// The expected values are those of an implementation that was written apart from the program.
const GIVEN: &str = r#"
# The items of the eight entries that implementations of RFC 6962 and RFC 9162 are tried on, and
# nodes over them, named by the first entry and the one after the last.
name SIX 00000000 0001000000 0001100000 000220210000 000230310000 0004404142430000
name SEVENTH 000850515253545556570000
name EIGHTH 0010606162636465666768696a6b6c6d6e6f0000
name N0_4 d37ee418976dd95753c1c73862b9398fa2a2cf9b4ff0fdfe8b30cd95209614b7
name N4_6 0ebc5d3437fbe2db158b9f126a1d118e308181031d0a949f8dededebc558ef6a
name N0_6 76e67dadbcdf1e10e1b74ddc608abd2f98dfb16fbce75277b5232a127f2087ef
name N6_8 ca854ea128ed050b41b35ffc1b87b8eb2bde461e9e3b5596ece6b9d5975a0ae0
name N0_8 5dc9da79a70659a9ad559cb701ded9a2ab9d823aad2f4960cfe370eff4604328
# The null entry, and the entry and the key of a certificate for a.example.
name TWO 000200000000
  00830001a003020102301931173015060a2b0601040182da4b2f010c0733323437332e31301e170d3236303130
  313030303030305a170d3236303130383030303030305a30000420722abd12e99a5367f375aeb9672a8e07712e
  03c2add16fa8d6914d1cfa2efe0ca31b301930170603551d110101ff040d300b8209612e6578616d706c65
  002c302a300506032b657003210000000000000000000000000000000000000000000000000000000000000000
  00
# Requests to hold these lists.
name ROOT 77566825cd25f263271e3fa5341db28ed2c87945ee98f731b2aa96b9e6b11cf6
name TO_2 0481fd59010000000000000002 ROOT 0000
name TO_6 0481fd59010000000000000006 N0_6 0000
name TO_8 0481fd59010000000000000008 N0_8
name BEHIND_6 0060 N4_6 N6_8 N0_4
# The states of no entries and of six.
name NONE
| state 32473.1 0
name KEPT
|= state 32473.1 6 d37ee418976dd95753c1c73862b9398fa2a2cf9b4ff0fdfe
|= 8b30cd95209614b7 0ebc5d3437fbe2db158b9f126a1d118e308181031d0a949f
| 8dededebc558ef6a
name WATCH
| example
"#;

const ROOTS: &str = r#"
case the root of no entries
file e
$ root e
| size 0
| root e3b0c44298fc1c149afbf4c8996fb92427ae41e4649b934ca495991b7852b855

case the root of a list
file e SIX SEVENTH EIGHTH
takes 7
$ root e
| size 8
| root 5dc9da79a70659a9ad559cb701ded9a2ab9d823aad2f4960cfe370eff4604328
left e SIX SEVENTH EIGHTH

case the root of a list with a key
file e TWO
$ root e
| size 2
| root 77566825cd25f263271e3fa5341db28ed2c87945ee98f731b2aa96b9e6b11cf6

case the root of a list of many pieces
file e
times 2000 00000000
$ root e
| size 2000
| root 174971e1778cd40579eeb7c994a20b03d2c0ef6e168a15a250efd860683be8b0

case the root of entries that are longer than a piece
file e ffff
times 65535 00
 0000 ffff
times 65535 00
 0000 ffff
times 65535 00
 0000
$ root e
| size 3
| root 00c27f00fec4de87ff11315afcd2ae9e52aea93b8a31f5d069ebb72dc253b3db

case a read that fails after a fault is reported
file e 00020000000105
fails 1
$ root e
status 5
! mtc: root: e: Failed

case a read that fails after the last item
file e SIX
fails 1
$ root e
status 5
! mtc: root: e: Failed

case what is no list of entries has no root
$ root e
status 7
! mtc: root: e: Absent
file e 0000
$ root e
status 2
! mtc: root: e: Short 2
file e 00020000000105
$ root e
status 2
! mtc: root: e: BadItem 0
"#;

#[test]
fn roots(rt: HostRuntime) {
    let outcome = outcome_after(rt.alloc(), GIVEN, ROOTS);
    assert!(rt; outcome == Ok(Outcome::Passed(10)), "{outcome:?}");
}

const HELD: &str = r#"
# What stands before the records: the two ids and the public key; and the records of an Advance and
# of a Sign of all entries.
name HEAD 0481fd59020481fd5901003c
  0000000100000005 00000003000102030405060708090a0b0c0d0e0f
  661aeb1d85e6a993e0e55bbbad2564f1b45e3e1ba8b9b4c917e993ebbdaf19e2
name WIDE 0481fd59020481fd5901003c
  0000000200000005 00000003000102030405060708090a0b0c0d0e0f
  661aeb1d85e6a993e0e55bbbad2564f1b45e3e1ba8b9b4c917e993ebbdaf19e2
name CHILD 00000009140000000000000005
name ADVANCE 0000002b120000000000000400 ROOT 0000
name SIGN 00000037130000000000000000000000000000000000000400 ROOT 0000
name PARTY
| cosigner 32473.2
| log 32473.1
| key AAAAAQAAAAUAAAADAAECAwQFBgcICQoLDA0OD2Ya6x2F5qmT4OVbu60lZPG0Xj4bqLm0yRfpk+u9rxni

case no bytes are no export
file x
$ held x
| nothing

case a cosigner that holds nothing
file x HEAD
$ held x
  PARTY
| size 0
| root e3b0c44298fc1c149afbf4c8996fb92427ae41e4649b934ca495991b7852b855
| signs 0
| left 32

case a cosigner that holds a list
file x HEAD ADVANCE
$ held x
  PARTY
| size 1024
| root 77566825cd25f263271e3fa5341db28ed2c87945ee98f731b2aa96b9e6b11cf6
| signs 0
| left 32

case a cosigner that has signed
file x HEAD ADVANCE SIGN
takes 3
$ held x
  PARTY
| size 1024
| root 77566825cd25f263271e3fa5341db28ed2c87945ee98f731b2aa96b9e6b11cf6
| signs 1
| left 31
| signed 0 0 1024 77566825cd25f263271e3fa5341db28ed2c87945ee98f731b2aa96b9e6b11cf6
left x HEAD ADVANCE SIGN

case before its first lower tree it isn't known how many keys a cosigner of two levels has
file x WIDE
$ held x
| cosigner 32473.2
| log 32473.1
| key AAAAAgAAAAUAAAADAAECAwQFBgcICQoLDA0OD2Ya6x2F5qmT4OVbu60lZPG0Xj4bqLm0yRfpk+u9rxni
| size 0
| root e3b0c44298fc1c149afbf4c8996fb92427ae41e4649b934ca495991b7852b855
| signs 0

case a cosigner of two levels has the keys of all its lower trees
file x WIDE ADVANCE CHILD SIGN
$ held x
| cosigner 32473.2
| log 32473.1
| key AAAAAgAAAAUAAAADAAECAwQFBgcICQoLDA0OD2Ya6x2F5qmT4OVbu60lZPG0Xj4bqLm0yRfpk+u9rxni
| size 1024
| root 77566825cd25f263271e3fa5341db28ed2c87945ee98f731b2aa96b9e6b11cf6
| signs 1
| left 1023
| signed 0 0 1024 77566825cd25f263271e3fa5341db28ed2c87945ee98f731b2aa96b9e6b11cf6

case what is no export says nothing
$ held x
status 7
! mtc: held: x: Absent
file x 04
$ held x
status 2
! mtc: held: x: Short 0
file x HEAD SIGN
$ held x
status 2
! mtc: held: x: BadRecord 1
"#;

#[test]
fn held(rt: HostRuntime) {
    let outcome = outcome_after(rt.alloc(), GIVEN, HELD);
    assert!(rt; outcome == Ok(Outcome::Passed(9)), "{outcome:?}");
}

const MONITORS: &str = r#"
case the state of a log without entries
$ monitor-init 32473.1
  NONE
$ monitor-init 32473.x
status 1
! mtc: monitor-init: BadId 1

case a watched name is reported
file s NONE
file w WATCH
file r TO_2
file e TWO
$ monitor s w r e
| match 1 a.example
| state 32473.1 2 77566825cd25f263271e3fa5341db28ed2c87945ee98f731b2aa96b9e6b11cf6
left s NONE

case no watched name is there
file s NONE
file w
| b.example
| xample
file r TO_2
file e TWO
$ monitor s w r e
| state 32473.1 2 77566825cd25f263271e3fa5341db28ed2c87945ee98f731b2aa96b9e6b11cf6

case two runs, the second from what the first printed
file s NONE
file w WATCH
file r TO_6
file e SIX
$ monitor s w r e
| unread 0
| unread 1
| unread 2
| unread 3
| unread 4
| unread 5
  KEPT
$ monitor s w r e
> s
file r TO_8 BEHIND_6
file e SEVENTH EIGHTH
takes 9
$ monitor s w r e
| unread 6
| unread 7
| state 32473.1 8 5dc9da79a70659a9ad559cb701ded9a2ab9d823aad2f4960cfe370eff4604328

case the commands, the profile and the draft are printed
$ version
| profile 2
| draft draft-ietf-plants-merkle-tree-certs-00
$ version 1
status 1
! mtc: version: WrongCount 1 0
$ help
> h
$ help x
status 1
! mtc: help: WrongCount 1 0
"#;

#[test]
fn monitors(rt: HostRuntime) {
    let outcome = outcome_after(rt.alloc(), GIVEN, MONITORS);
    assert!(rt; outcome == Ok(Outcome::Passed(11)), "{outcome:?}");
}

const REFUSED: &str = r#"
case files that aren't in their form, the first of them
file s
|= state 32473.1 6 d37ee418976dd95753c1c73862b9398fa2a2cf9b4ff0fdfe8b30cd95209614b7
|
file w
| *.example
file r TO_8
file e 0000
$ monitor s w r e
status 2
! mtc: monitor: s: BadLine 0
file s KEPT
$ monitor s w r e
status 2
! mtc: monitor: w: BadLine 0
file w WATCH
$ monitor s w r e
status 2
! mtc: monitor: r: Short 45
file r TO_8 BEHIND_6
$ monitor s w r e
status 2
! mtc: monitor: e: Short 2

case files that aren't there, the first of them
$ monitor s w r e
status 7
! mtc: monitor: s: Absent
file s 00
$ monitor s w r e
status 7
! mtc: monitor: w: Absent
file w 00
$ monitor s w r e
status 7
! mtc: monitor: r: Absent
file r 00
$ monitor s w r e
status 7
! mtc: monitor: e: Absent

case a read that fails after the last item is reported before a bad state
file s KEPT
file w WATCH
file r TO_8 BEHIND_6
file e SEVENTH EIGHTH
fails 1
$ monitor s w r e
status 5
! mtc: monitor: e: Failed
file s 00
file e SEVENTH EIGHTH
fails 1
$ monitor s w r e
status 5
! mtc: monitor: e: Failed
file e SEVENTH EIGHTH
$ monitor s w r e
status 2
! mtc: monitor: s: BadLine 0

case what doesn't lead on, in the order of the tests
file s KEPT
file w WATCH
file e
file r 0481fd59020000000000000006 N0_6 0000
$ monitor s w r e
status 4
! mtc: monitor: WrongLog
file r TO_6
$ monitor s w r e
status 4
! mtc: monitor: NotNewer 6
file r TO_8 0000
file e SEVENTH
$ monitor s w r e
status 4
! mtc: monitor: ItemCount 1 2
file e EIGHTH SEVENTH
$ monitor s w r e
status 4
! mtc: monitor: BadProof
file r TO_8 BEHIND_6
$ monitor s w r e
status 4
!= mtc: monitor: RootDiffers 5dc9da79a70659a9ad559cb701ded9a2ab9d823aad2f4960
!= cfe370eff4604328 d469c7f96d50825f66d3b29fba30fe2ea951927cfd75f9c2
! 589d734f4f3ac57a
left s KEPT
"#;

#[test]
fn refused(rt: HostRuntime) {
    let outcome = outcome_after(rt.alloc(), GIVEN, REFUSED);
    assert!(rt; outcome == Ok(Outcome::Passed(16)), "{outcome:?}");
}
