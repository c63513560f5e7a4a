//! What the commands on the journal of a log answer, and what they leave of it.

use crate::scripts::{Outcome, outcome_of};

const SCRIPT: &str = r#"
# The journal of log 32473.1 with 2 active landmarks and at most 64 entries: its header and its
# first record without the commit byte after it; an entry, and its key.
name SETTINGS 6d74632d6a6f75726e616c2f76310a00010000000e010481fd59010000000200000040
name ENTRY
  0001a003020102301931173015060a2b0601040182da4b2f010c0733323437332e31301e170d32363031303130
  30303030305a170d3236303130383030303030305a30000420722abd12e99a5367f375aeb9672a8e07712e03c2
  add16fa8d6914d1cfa2efe0ca31b301930170603551d110101ff040d300b8209612e6578616d706c65
name KEY
  002c302a300506032b657003210000000000000000000000000000000000000000000000000000000000000000
  0000
# The hash of the null entry, of the other one, and of both.
name NULL_LEAF 709e80c88487a2411e1ee4dfb9f22a861492d20c4765150c0c794abd70f8147c
name LEAF 7edfd5e2318a6de081fe8ee5e0a629335e6f6fd825fbe9f7111be6a8d243d161
name ROOT 77566825cd25f263271e3fa5341db28ed2c87945ee98f731b2aa96b9e6b11cf6
# A new journal, and that with the entry.
name NEW SETTINGS 00
name ISSUED SETTINGS 01000000b4020083 ENTRY KEY
# A request, and the same without a name.
name REQUEST
| not_before = "2026-01-01T00:00:00Z"
| not_after = "2026-01-08T00:00:00Z"
| dns = ["a.example"]
| key = "MCowBQYDK2VwAyEAAAAAAAAAAAAAAAAAAAAAAAAAAAAAAAAAAAAAAAAAAAA="
name NAMELESS
| not_before = "2026-01-01T00:00:00Z"
| not_after = "2026-01-08T00:00:00Z"
| dns = []
| key = "MCowBQYDK2VwAyEAAAAAAAAAAAAAAAAAAAAAAAAAAAAAAAAAAAAAAAAAAAA="

case a new log
$ init-log j 32473.1 2 64
| log 32473.1
left j NEW
$ init-log j 32473.1 2 64
status 7
! mtc: init-log: j: Exists
$ checkpoint k
status 7
! mtc: checkpoint: k: Absent
$ checkpoint j
| size 1
| root 709e80c88487a2411e1ee4dfb9f22a861492d20c4765150c0c794abd70f8147c
$ entries j 1
  000200000000
$ entries j 2
status 4
! mtc: entries: Beyond 1
$ entries j 0
left j NEW
gone k

case one at each end of the ranges
$ init-log j 32473.1 1 2
| log 32473.1
$ checkpoint j
| size 1
| root 709e80c88487a2411e1ee4dfb9f22a861492d20c4765150c0c794abd70f8147c

case the other end
$ init-log j 32473.1 10000 16777216
| log 32473.1
$ checkpoint j
| size 1
| root 709e80c88487a2411e1ee4dfb9f22a861492d20c4765150c0c794abd70f8147c

case a log of two entries
file j ISSUED
$ checkpoint j
| size 2
| root 77566825cd25f263271e3fa5341db28ed2c87945ee98f731b2aa96b9e6b11cf6
$ entries j 1
  000200000000
$ entries j 2
  00020000000000830001a003020102301931173015060a2b0601040182da4b2f010c0733323437332e31301e17
  0d3236303130313030303030305a170d3236303130383030303030305a30000420722abd12e99a5367f375aeb9
  672a8e07712e03c2add16fa8d6914d1cfa2efe0ca31b301930170603551d110101ff040d300b8209612e657861
  6d706c65002c302a300506032b6570032100000000000000000000000000000000000000000000000000000000
  0000000000
$ entries j 3
status 4
! mtc: entries: Beyond 2
$ entries-from j 1 2
  00830001a003020102301931173015060a2b0601040182da4b2f010c0733323437332e31301e170d3236303130
  313030303030305a170d3236303130383030303030305a30000420722abd12e99a5367f375aeb9672a8e07712e
  03c2add16fa8d6914d1cfa2efe0ca31b301930170603551d110101ff040d300b8209612e6578616d706c65002c
  302a300506032b65700321000000000000000000000000000000000000000000000000000000000000000000
$ entries-from j 0 1
  000200000000
$ entries-from j 2 2
status 4
! mtc: entries-from: NothingNew
$ entries-from j 3 3
status 4
! mtc: entries-from: NothingNew
$ entries-from j 2 1
status 4
! mtc: entries-from: NothingNew
$ entries-from j 1 3
status 4
! mtc: entries-from: Beyond 2
$ entries-from j 9223372036854775806 9223372036854775807
status 4
! mtc: entries-from: Beyond 2
left j ISSUED

case a monitor is given the later entries alone
file j ISSUED
file w
| example
$ monitor-init 32473.1
> s
$ consist j 0 1
> r
$ entries-from j 0 1
> e
$ monitor s w r e
| state 32473.1 1 709e80c88487a2411e1ee4dfb9f22a861492d20c4765150c0c794abd70f8147c
file t
| state 32473.1 1 709e80c88487a2411e1ee4dfb9f22a861492d20c4765150c0c794abd70f8147c
$ consist j 1 2
> q
$ entries-from j 1 2
> f
$ monitor t w q f
| match 1 a.example
| state 32473.1 2 77566825cd25f263271e3fa5341db28ed2c87945ee98f731b2aa96b9e6b11cf6

case an entry is issued
file j NEW
file r REQUEST
$ issue j r
| issued 1
left j ISSUED
$ checkpoint j
| size 2
| root 77566825cd25f263271e3fa5341db28ed2c87945ee98f731b2aa96b9e6b11cf6
$ consist j 2 2
status 4
! mtc: consist: NothingNew
$ subtree j 0 3 3
status 4
! mtc: subtree: Beyond 2
$ entries j 3
status 4
! mtc: entries: Beyond 2

case the request's first read fails
file j NEW
file r REQUEST
fails 0
$ issue j r
status 5
! mtc: issue: r: Failed
left j NEW

case a log that has place for one entry beside the null entry
file j NEW
file r REQUEST
$ init-log k 32473.1 1 2
| log 32473.1
$ issue k r
| issued 1
$ issue k r
status 9
! mtc: issue: Full
$ entries k 3
status 4
! mtc: entries: Beyond 2

case an entry that is too large, by a key of 65,406 bytes
file j NEW
file r
| not_before = "2026-01-01T00:00:00Z"
| not_after = "2026-01-08T00:00:00Z"
| dns = ["a.example"]
|= key = "MIL/ejAFBgMrZXADgv9vAAAA
times 21796 41414141
| "
$ issue j r
status 9
! mtc: issue: TooLarge
left j NEW

case requests to a cosigner
file j ISSUED
$ consist j 0 1
  0481fd5901 0000000000000001 NULL_LEAF 0000
$ consist j 0 2
  0481fd5901 0000000000000002 ROOT 0000
$ consist j 1 2
  0481fd59010000000000000002 ROOT 0020 LEAF
$ consist j 2 2
status 4
! mtc: consist: NothingNew
$ consist j 3 3
status 4
! mtc: consist: NothingNew
$ consist j 0 3
status 4
! mtc: consist: Beyond 2
$ subtree j 1 2 2
  0481fd590100000000000000010000000000000002 LEAF 0020 NULL_LEAF
$ subtree j 1 3 3
status 4
! mtc: subtree: BadSubtree
$ subtree j 0 3 3
status 4
! mtc: subtree: Beyond 2
$ subtree j 0 3 2
status 4
! mtc: subtree: Beyond 2
$ subtree j 0 2 1
status 4
! mtc: subtree: Beyond 1

# Words, journals and requests outside of their forms.

case a limit of one entry
$ init-log j 32473.1 2 1
status 1
! mtc: init-log: BadNumber 4
gone j

case a limit that is too large
$ init-log j 32473.1 2 16777217
status 1
! mtc: init-log: BadNumber 4
gone j

case no active landmark
$ init-log j 32473.1 0 64
status 1
! mtc: init-log: BadNumber 3
gone j

case too many active landmarks
$ init-log j 32473.1 10001 64
status 1
! mtc: init-log: BadNumber 3
gone j

case an id with a zero before an arc
$ init-log j 01 2 64
status 1
! mtc: init-log: BadId 2
gone j

case another commit byte of the first record
file j NEW
byte 16 00
$ checkpoint j
status 2
! mtc: checkpoint: j: BadRecord 0

case another bit of that commit byte
file j NEW
byte 16 80
$ checkpoint j
| size 1
| root 709e80c88487a2411e1ee4dfb9f22a861492d20c4765150c0c794abd70f8147c

case no commit byte after the record
file j NEW
cut 35
$ checkpoint j
status 2
! mtc: checkpoint: j: CutShort 35

case a record that is cut
file j NEW
cut 30
$ checkpoint j
status 2
! mtc: checkpoint: j: CutShort 16

case an empty record
file j NEW
byte 17 00
byte 18 00
byte 19 00
byte 20 00
$ checkpoint j
status 2
! mtc: checkpoint: j: BadLength 16

case a header that is cut
file j NEW
cut 15
$ checkpoint j
status 2
! mtc: checkpoint: j: NotJournal

case an empty request
file j NEW
file r
$ issue j r
status 2
! mtc: issue: r: Missing NotBefore

case a request that is no TOML
file j NEW
file r
|= dns
$ issue j r
status 2
! mtc: issue: r: NotToml

case an unknown key
file j NEW
file r
|= other = 1
$ issue j r
status 2
! mtc: issue: r: UnknownKey

case a date without a time
file j NEW
file r
|= not_before = "2026-01-01"
$ issue j r
status 2
! mtc: issue: r: BadValue NotBefore

case a request for no name
file j NEW
file r NAMELESS
$ issue j r
status 2
! mtc: issue: r: NoNames
"#;

#[test]
fn commands_on_a_log(rt: HostRuntime) {
    let outcome = outcome_of(rt.alloc(), SCRIPT);
    assert!(rt; outcome == Ok(Outcome::Passed(67)), "{outcome:?}");
}
