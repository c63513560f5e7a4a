//! The command `export`, and `init-cosigner` over devices that fail.

use crate::cosigners::NAMES;
use crate::scripts::{Outcome, outcome_after};

const EXPORTS: &str = r#"
# What stands before the records: the two ids and the public key.
name HEAD 0481fd59020481fd5901003c
  0000000100000005 00000003000102030405060708090a0b0c0d0e0f
  661aeb1d85e6a993e0e55bbbad2564f1b45e3e1ba8b9b4c917e993ebbdaf19e2
# The records of the Advance and of a Sign of all entries.
name ADVANCE 0000002b120000000000000400 ROOT 0000
name SIGN 00000037130000000000000000000000000000000000000400 ROOT 0000

case what others may know of a new cosigner
file s FOUNDED 00
$ export s
  HEAD
left s FOUNDED 00

case what others may know of one that has signed
file s ADVANCED 01 SIGN 00
takes 7
$ export s
  HEAD ADVANCE SIGN
left s ADVANCED 01 SIGN 00

case what stands after the closed commit byte is no record
file s ADVANCED 00 SIGN 00
$ export s
  HEAD ADVANCE
left s ADVANCED 00 SIGN 00

case an export doesn't go out: the ids do, and the length of the key, each by a call of its own
file s ADVANCED 00
out-fails 5
$ export s
status 6
  0481fd59020481fd5901003c
! mtc: export: OutputFailed
left s ADVANCED 00
file s ADVANCED 00
out-fails 0
$ export s
status 6
! mtc: export: OutputFailed
left s ADVANCED 00

# Four calls open the journal, and two read the record: its length, and the whole. Six calls write
# what stands before it.
case the first of two failures is reported
file s ADVANCED 00
fails 4
out-fails 5
$ export s
status 6
  0481fd59020481fd5901003c
! mtc: export: OutputFailed
file s ADVANCED 00
fails 5
out-fails 6
$ export s
status 5
  HEAD
! mtc: export: s: Failed
left s ADVANCED 00

case what is no cosigner's journal isn't exported
$ export s
status 7
! mtc: export: s: Absent
file s 6d74632d6a6f75726e616c2f76310a00010000000e010481fd5901000000020000004000
$ export s
status 2
! mtc: export: s: BadRecord 0
file s ADVANCED 01 SIGN
$ export s
status 2
! mtc: export: s: CutShort 196
file s ADVANCED 01 00000000 00
$ export s
status 2
! mtc: export: s: BadLength 136
"#;

#[test]
fn exports(rt: HostRuntime) {
    let outcome = outcome_after(rt.alloc(), NAMES, EXPORTS);
    assert!(rt; outcome == Ok(Outcome::Passed(11)), "{outcome:?}");
}

const FRESH: &str = r#"
# The calls of a device that is made: the length is asked for; the record is written and synced;
# the commit byte is written and synced.
name CLOSED 6d74632d6a6f75726e616c2f76310a00
  0000000043110481fd59020481fd59010000000500000003 SECRET 00

case the length can't be read
file f SECRET
fresh 0
$ init-cosigner s 32473.2 32473.1 5 4 f
status 5
! mtc: init-cosigner: s: Failed
left s

case the record can't be written
file f SECRET
fresh 1
$ init-cosigner s 32473.2 32473.1 5 4 f
status 5
! mtc: init-cosigner: s: Failed
left s
$ export s
status 2
! mtc: export: s: NotJournal

case the record can't be synced
file f SECRET
fresh 2
$ init-cosigner s 32473.2 32473.1 5 4 f
status 5
! mtc: init-cosigner: s: Failed
left s CLOSED

case the commit byte can't be written
file f SECRET
fresh 3
$ init-cosigner s 32473.2 32473.1 5 4 f
status 5
! mtc: init-cosigner: s: Failed
left s CLOSED
$ export s
status 2
! mtc: export: s: BadRecord 0

case the commit byte can't be synced
file f SECRET
fresh 4
$ init-cosigner s 32473.2 32473.1 5 4 f
status 5
! mtc: init-cosigner: s: Failed
left s FOUNDED 00
$ init-cosigner s 32473.2 32473.1 5 4 f
status 7
! mtc: init-cosigner: s: Exists
"#;

#[test]
fn a_new_device_fails_a_cosigner(rt: HostRuntime) {
    let outcome = outcome_after(rt.alloc(), NAMES, FRESH);
    assert!(rt; outcome == Ok(Outcome::Passed(8)), "{outcome:?}");
}
