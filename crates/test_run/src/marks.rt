//! What the commands on landmarks answer: those that set and list them, and the one that writes
//! certificates without signatures.

use crate::scripts::{Outcome, outcome_after, outcome_of};
use crate::trust::TABLES;

const SCRIPT: &str = r#"
# The journal of log 32473.1 with 2 active landmarks and at most 64 entries: its header and its
# first record without the commit byte after it.
name SETTINGS 6d74632d6a6f75726e616c2f76310a00010000000e010481fd59010000000200000040
name REQUEST
| not_before = "2026-01-01T00:00:00Z"
| not_after = "2026-01-08T00:00:00Z"
| dns = ["a.example"]
| key = "MCowBQYDK2VwAyEAAAAAAAAAAAAAAAAAAAAAAAAAAAAAAAAAAAAAAAAAAAA="

case landmarks at the sizes 5 and 9, of which two are active
file r REQUEST
$ init-log j 32473.1 2 64
| log 32473.1
$ landmarks j
| 0 0
| 0
$ issue j r
| issued 1
$ issue j r
| issued 2
$ issue j r
| issued 3
$ issue j r
| issued 4
$ landmark j
| landmark 1 5
$ landmarks j
| 1 1
| 5
| 0
$ landmark j
status 4
! mtc: landmark: NothingNew
$ issue j r
| issued 5
$ landmarks j
| 1 1
| 5
| 0
$ issue j r
| issued 6
$ issue j r
| issued 7
$ issue j r
| issued 8
$ landmark j
| landmark 2 9
$ landmarks j
| 2 2
| 9
| 5
| 0
$ landmark j
status 4
! mtc: landmark: NothingNew
$ issue j r
| issued 9
$ landmark j
| landmark 3 10
$ landmarks j
| 3 2
| 10
| 9
| 5

case the same, of which one is active
file r REQUEST
$ init-log j 32473.1 1 64
| log 32473.1
$ issue j r
| issued 1
$ issue j r
| issued 2
$ issue j r
| issued 3
$ issue j r
| issued 4
$ landmark j
| landmark 1 5
$ issue j r
| issued 5
$ issue j r
| issued 6
$ issue j r
| issued 7
$ issue j r
| issued 8
$ landmark j
| landmark 2 9
$ landmarks j
| 2 1
| 9
| 5
$ light-cert j 3
status 4
! mtc: light-cert: NotCovered

case a landmark at the null entry alone
file j SETTINGS 00
$ landmark j
| landmark 1 1
left j SETTINGS 0100000009030000000000000001 00
$ landmark j
status 4
! mtc: landmark: NothingNew
$ landmarks j
| 1 1
| 1
| 0
left j SETTINGS 0100000009030000000000000001 00

# Words, and journals that aren't there or aren't a log's.

case a word too many
file j SETTINGS 00
$ landmark j 2
status 1
! mtc: landmark: WrongCount 2 1
$ landmarks j 2
status 1
! mtc: landmarks: WrongCount 2 1
left j SETTINGS 00

case no journal
$ landmark j
status 7
! mtc: landmark: j: Absent
$ landmarks j
status 7
! mtc: landmarks: j: Absent
gone j

case a landmark that isn't the size
file j SETTINGS 0100000009030000000000000002 00
$ landmark j
status 2
! mtc: landmark: j: BadRecord 1
$ landmarks j
status 2
! mtc: landmarks: j: BadRecord 1

case the text doesn't go out
file j SETTINGS 00
out-fails 0
$ landmark j
status 6
! mtc: landmark: OutputFailed
left j SETTINGS 0100000009030000000000000001 00
"#;

#[test]
fn landmarks_are_set_and_listed(rt: HostRuntime) {
    let outcome = outcome_of(rt.alloc(), SCRIPT);
    assert!(rt; outcome == Ok(Outcome::Passed(43)), "{outcome:?}");
}

const LIGHT: &str = r#"
name REQUEST
| not_before = "2026-01-01T00:00:00Z"
| not_after = "2026-01-08T00:00:00Z"
| dns = ["a.example"]
| key = "MCowBQYDK2VwAyEAAAAAAAAAAAAAAAAAAAAAAAAAAAAAAAAAAAAAAAAAAAA="
# The head of a store.
name LOG
| [log]
| id = "32473.1"
# The certificate of entry 6, in the interval 4 to 8.
name CERT
  3082010430819ca003020102020106300c060a2b0601040182da4b2f00301931173015060a2b0601040182da
  4b2f010c0733323437332e31301e170d3236303130313030303030305a170d3236303130383030303030305a
  3000302a300506032b6570032100000000000000000000000000000000000000000000000000000000000000
  0000a31b301930170603551d110101ff040d300b8209612e6578616d706c65300c060a2b0601040182da4b2f
  000355000000000000000004000000000000000800407edfd5e2318a6de081fe8ee5e0a629335e6f6fd825fb
  e9f7111be6a8d243d161bd0792a1e682d4b4659456d2b5149bda96321992d9771ab546e1b5ded8ccb26e0000

case certificates of a log with landmarks at 5 and 9
file r REQUEST
file store LOG TABLES
file other LOG TABLES
byte 274 65
$ init-log j 32473.1 2 64
| log 32473.1
$ issue j r
| issued 1
$ issue j r
| issued 2
$ light-cert j 1
status 4
! mtc: light-cert: NotCovered
$ issue j r
| issued 3
$ issue j r
| issued 4
$ landmark j
| landmark 1 5
$ issue j r
| issued 5
$ light-cert j 5
status 4
! mtc: light-cert: NotCovered
$ issue j r
| issued 6
$ issue j r
| issued 7
$ issue j r
| issued 8
$ landmark j
| landmark 2 9
$ light-cert j 6
  CERT
$ light-cert j 0
status 4
! mtc: light-cert: NullEntry
$ light-cert j 9
status 4
! mtc: light-cert: NoSuchEntry
$ issue j r
| issued 9
$ light-cert j 9
status 4
! mtc: light-cert: NotCovered
$ light-cert k 6
status 7
! mtc: light-cert: k: Absent
$ light-cert j 06
status 1
! mtc: light-cert: BadNumber 2
file c CERT
$ verify c store 1767225600
| accepted 6
$ verify c other 1767225600
status 3
| refused LandmarkDiffers
"#;

#[test]
fn certificates_without_signatures(rt: HostRuntime) {
    let outcome = outcome_after(rt.alloc(), TABLES, LIGHT);
    assert!(rt; outcome == Ok(Outcome::Passed(22)), "{outcome:?}");
}
