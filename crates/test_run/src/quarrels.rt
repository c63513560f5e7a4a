//! What `quarrel` finds in exports.

use crate::cosigners::NAMES;
use crate::scripts::{Outcome, outcome_after};

// The expected values are those of an implementation that was written apart from the program.
const QUARRELS: &str = r#"
# What stands before the records: the two ids and the public key.
name HEAD 0481fd59020481fd5901003c
  0000000100000005 00000003000102030405060708090a0b0c0d0e0f
  661aeb1d85e6a993e0e55bbbad2564f1b45e3e1ba8b9b4c917e993ebbdaf19e2
# A hash is its first byte and these.
name Z 00000000000000000000000000000000000000000000000000000000000000
# An Advance to two entries with the root 8. Signs of the first entry: of its hash 5 beside 2, by
# the first key, the second and the third; and of its hash 4 beside 3, by the second and the fourth.
name TWO 0000002b 12 0000000000000002 08 Z 0000
name FIRST 00000057 13 00000000 0000000000000000 0000000000000001 05 Z 0020 02 Z
name AGAIN 00000057 13 00000001 0000000000000000 0000000000000001 05 Z 0020 02 Z
name THIRD 00000057 13 00000002 0000000000000000 0000000000000001 05 Z 0020 02 Z
name OTHER 00000057 13 00000001 0000000000000000 0000000000000001 04 Z 0020 03 Z
name FOURTH 00000057 13 00000003 0000000000000000 0000000000000001 04 Z 0020 03 Z
# A Sign of both entries.
name BOTH 00000037 13 00000001 0000000000000000 0000000000000002 08 Z 0000
# An Advance from there to four entries, and a Sign of the hash 4 there.
name FOUR 0000004b 12 0000000000000004 14 Z 0020 0b Z
name THERE 00000077 13 00000001 0000000000000000 0000000000000001 04 Z 0040 02 Z 0c Z

case two signatures of one entry with different hashes
toy
file e HEAD TWO FIRST OTHER
$ quarrel e
status 10
| quarrel 0 1
|= 010500000000000000000000000000000000000000000000000000000000000000
|= 0200000000000000000000000000000000000000000000000000000000000000
|
|= 010400000000000000000000000000000000000000000000000000000000000000
|= 0300000000000000000000000000000000000000000000000000000000000000
|
left e HEAD TWO FIRST OTHER

case they are named by their keys
toy
file e HEAD TWO FIRST BOTH THIRD FOURTH
$ quarrel e
status 10
| quarrel 0 3
|= 010500000000000000000000000000000000000000000000000000000000000000
|= 0200000000000000000000000000000000000000000000000000000000000000
|
|= 010400000000000000000000000000000000000000000000000000000000000000
|= 0300000000000000000000000000000000000000000000000000000000000000
|

case the first is carried to four entries
toy
file e HEAD TWO FIRST FOUR THERE
$ quarrel e
status 10
| quarrel 0 1
|= 010800000000000000000000000000000000000000000000000000000000000000
|= 0b00000000000000000000000000000000000000000000000000000000000000
|
|= 010700000000000000000000000000000000000000000000000000000000000000
|= 0c00000000000000000000000000000000000000000000000000000000000000
|

case two signatures of one hash agree
toy
file e HEAD TWO FIRST AGAIN
takes 2
$ quarrel e
| agree

case an export of no bytes agrees, and one of no records
file e
file f HEAD
$ quarrel e
| agree
$ quarrel f
| agree

case what a cosigner exports agrees
file s ADVANCED 00
file r ALL
$ cosign s r
> signature
$ cosign s r
> signature
$ export s
> e
$ quarrel e
| agree

case what is no export
toy
file e HEAD TWO FIRST
cut 209
$ quarrel e
status 2
! mtc: quarrel: e: Short 119
file e HEAD TWO FIRST OTHER
byte 300 01
$ quarrel e
status 2
! mtc: quarrel: e: BadRecord 3
file e 04
$ quarrel e
status 2
! mtc: quarrel: e: Short 0
file e 00
$ quarrel e
status 2
! mtc: quarrel: e: BadId
file e HEAD TWO
byte 19 09
$ quarrel e
status 2
! mtc: quarrel: e: BadKey

case the file, and the output
toy
file e HEAD TWO FIRST AGAIN
fails 0
$ quarrel e
status 5
! mtc: quarrel: e: Failed
file f HEAD TWO FIRST AGAIN
takes 4
out-fails 1
$ quarrel f
status 6
|= agre
! mtc: quarrel: OutputFailed
$ quarrel g
status 7
! mtc: quarrel: g: Absent
$ quarrel
status 1
! mtc: quarrel: WrongCount 0 1
$ quarrel e f
status 1
! mtc: quarrel: WrongCount 2 1
"#;

#[test]
fn exports_with_signatures_in_conflict(rt: HostRuntime) {
    let outcome = outcome_after(rt.alloc(), NAMES, QUARRELS);
    assert!(rt; outcome == Ok(Outcome::Passed(20)), "{outcome:?}");
}
