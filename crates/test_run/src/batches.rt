//! What `issue-list`, `certs` and `light-certs` answer.

use crate::scripts::{Outcome, outcome_after};

// SETTINGS is the header and the first record of log 32473.1, with 2 active landmarks and at most 4
// entries. ITEM is the item of the request in `one`, as in a Batch: its entry of 131 bytes and its
// key of 44, each after its length. TWO is the record of a Batch of two of them, of which the body
// has 1 + 2 + 2 * (2 + 131 + 2 + 44) = 361 bytes. Roots and certificates are those that a reader
// computes that was written apart from the program: tests/reference.
pub(crate) const NAMES: &str = r#"
name SETTINGS 6d74632d6a6f75726e616c2f76310a00010000000e010481fd59010000000200000004
name ENTRY
  0001a003020102301931173015060a2b0601040182da4b2f010c0733323437332e31301e170d32363031303130
  30303030305a170d3236303130383030303030305a30000420722abd12e99a5367f375aeb9672a8e07712e03c2
  add16fa8d6914d1cfa2efe0ca31b301930170603551d110101ff040d300b8209612e6578616d706c65
name KEY
  302a300506032b65700321000000000000000000000000000000000000000000000000000000000000000000
name ITEM 0083 ENTRY 002c KEY
name TWO 01000001690600 02 ITEM ITEM
file one
| not_before = "2026-01-01T00:00:00Z"
| not_after = "2026-01-08T00:00:00Z"
| dns = ["a.example"]
| key = "MCowBQYDK2VwAyEAAAAAAAAAAAAAAAAAAAAAAAAAAAAAAAAAAAAAAAAAAAA="
file two
| [[request]]
| not_before = "2026-01-01T00:00:00Z"
| not_after = "2026-01-08T00:00:00Z"
| dns = ["a.example"]
| key = "MCowBQYDK2VwAyEAAAAAAAAAAAAAAAAAAAAAAAAAAAAAAAAAAAAAAAAAAAA="
|
| [[request]]
| not_before = "2026-01-01T00:00:00Z"
| not_after = "2026-01-08T00:00:00Z"
| dns = ["a.example"]
| key = "MCowBQYDK2VwAyEAAAAAAAAAAAAAAAAAAAAAAAAAAAAAAAAAAAAAAAAAAAA="
file none
"#;

const ISSUED: &str = r#"
# Two entries are added by one record, and read back one by one.
file j SETTINGS 00
$ issue-list j two
| issued 1
| issued 2
left j SETTINGS TWO 00
length j 402
$ checkpoint j
| size 3
| root f2ce814f4c469cc3345b4e09f337f46d4dce10d0c521d1ce15fdbef35d11002a
$ entries-from j 1 3
  ITEM ITEM
# A third has the next index, and then the list doesn't fit any more.
$ issue j one
| issued 3
$ issue-list j two
status 9
! mtc: issue-list: Full

# The same by two entries, one after the other: the record differs, and the tree does not.
file k SETTINGS 00
$ issue k one
| issued 1
$ issue k one
| issued 2
$ checkpoint k
| size 3
| root f2ce814f4c469cc3345b4e09f337f46d4dce10d0c521d1ce15fdbef35d11002a
"#;

const RECORDS: &str = r#"
# A count of 0, one item fewer than counted, one more, and a byte left over.
file j SETTINGS 0100000003060000 00
$ checkpoint j
status 2
! mtc: checkpoint: j: BadRecord 1
file j SETTINGS 0100000169060003 ITEM ITEM 00
$ checkpoint j
status 2
! mtc: checkpoint: j: BadRecord 1
file j SETTINGS 0100000169060001 ITEM ITEM 00
$ checkpoint j
status 2
! mtc: checkpoint: j: BadRecord 1
file j SETTINGS 010000016a060002 ITEM ITEM 00 00
$ checkpoint j
status 2
! mtc: checkpoint: j: BadRecord 1
# The second item with another key than its own, which ends by 1.
file j SETTINGS 0100000169060002 ITEM 0083 ENTRY 002c
  302a300506032b65700321000000000000000000000000000000000000000000000000000000000000000001 00
$ checkpoint j
status 2
! mtc: checkpoint: j: BadRecord 1
# Four items, where the log has capacity for three: a body of 3 + 4 * 179 = 719 bytes.
file j SETTINGS 01000002cf060004 ITEM ITEM ITEM ITEM 00
$ checkpoint j
status 2
! mtc: checkpoint: j: BadRecord 1
# Three fill it: 3 + 3 * 179 = 540 bytes.
file j SETTINGS 010000021c060003 ITEM ITEM ITEM 00
$ issue j one
status 9
! mtc: issue: Full
"#;

const REQUESTS: &str = r#"
file j SETTINGS 00
file none
$ issue-list j none
status 2
! mtc: issue-list: none: Missing Requests
file f
| request = 1
$ issue-list j f
status 2
! mtc: issue-list: f: BadValue Requests
file f
| request = []
$ issue-list j f
status 2
! mtc: issue-list: f: BadValue Requests
# That each item is a table is tested before the tables.
file f
| request = [{}, 1]
$ issue-list j f
status 2
! mtc: issue-list: f: BadValue Requests
file f
| request = [{}]
| other = 1
$ issue-list j f
status 2
! mtc: issue-list: f: UnknownKey
file f
| [[request]]
| not_before = "2026-01-01T00:00:00Z"
| not_after = "2026-01-08T00:00:00Z"
| dns = ["a.example"]
| key = "MCowBQYDK2VwAyEAAAAAAAAAAAAAAAAAAAAAAAAAAAAAAAAAAAAAAAAAAAA="
|
| [[request]]
$ issue-list j f
status 2
! mtc: issue-list: f: Missing NotBefore 1
file f
| request = [{ serial = 1 }]
$ issue-list j f
status 2
! mtc: issue-list: f: UnknownKey 0
left j SETTINGS 00
"#;

const CERTIFICATES: &str = r#"
file j SETTINGS TWO 00
$ certs j 1 3 0 3 none
| -----BEGIN CERTIFICATE-----
| MIIBBDCBnKADAgECAgEBMAwGCisGAQQBgtpLLwAwGTEXMBUGCisGAQQBgtpLLwEM
| BzMyNDczLjEwHhcNMjYwMTAxMDAwMDAwWhcNMjYwMTA4MDAwMDAwWjAAMCowBQYD
| K2VwAyEAAAAAAAAAAAAAAAAAAAAAAAAAAAAAAAAAAAAAAAAAAACjGzAZMBcGA1Ud
| EQEB/wQNMAuCCWEuZXhhbXBsZTAMBgorBgEEAYLaSy8AA1UAAAAAAAAAAAAAAAAA
| AAAAAwBAcJ6AyISHokEeHuTfufIqhhSS0gxHZRUMDHlKvXD4FHx+39XiMYpt4IH+
| juXgpikzXm9v2CX76fcRG+ao0kPRYQAA
| -----END CERTIFICATE-----
| -----BEGIN CERTIFICATE-----
| MIHkMIGcoAMCAQICAQIwDAYKKwYBBAGC2ksvADAZMRcwFQYKKwYBBAGC2ksvAQwH
| MzI0NzMuMTAeFw0yNjAxMDEwMDAwMDBaFw0yNjAxMDgwMDAwMDBaMAAwKjAFBgMr
| ZXADIQAAAAAAAAAAAAAAAAAAAAAAAAAAAAAAAAAAAAAAAAAAAKMbMBkwFwYDVR0R
| AQH/BA0wC4IJYS5leGFtcGxlMAwGCisGAQQBgtpLLwADNQAAAAAAAAAAAAAAAAAA
| AAADACB3VmglzSXyYyceP6U0HbKO0sh5Re6Y9zGyqpa55rEc9gAA
| -----END CERTIFICATE-----
$ certs j 1 2 0 3 none
| -----BEGIN CERTIFICATE-----
| MIIBBDCBnKADAgECAgEBMAwGCisGAQQBgtpLLwAwGTEXMBUGCisGAQQBgtpLLwEM
| BzMyNDczLjEwHhcNMjYwMTAxMDAwMDAwWhcNMjYwMTA4MDAwMDAwWjAAMCowBQYD
| K2VwAyEAAAAAAAAAAAAAAAAAAAAAAAAAAAAAAAAAAAAAAAAAAACjGzAZMBcGA1Ud
| EQEB/wQNMAuCCWEuZXhhbXBsZTAMBgorBgEEAYLaSy8AA1UAAAAAAAAAAAAAAAAA
| AAAAAwBAcJ6AyISHokEeHuTfufIqhhSS0gxHZRUMDHlKvXD4FHx+39XiMYpt4IH+
| juXgpikzXm9v2CX76fcRG+ao0kPRYQAA
| -----END CERTIFICATE-----
$ certs j 2 2 0 3 none
status 4
! mtc: certs: NothingNew
$ certs j 0 3 0 3 none
status 4
! mtc: certs: NullEntry 0
$ certs j 1 4 0 3 none
status 4
! mtc: certs: NoSuchEntry 3
$ certs j 1 3 0 4 none
status 4
! mtc: certs: Beyond 3 1
$ light-certs j 1 3
status 4
! mtc: light-certs: NotCovered 1
$ light-certs j 3 1
status 4
! mtc: light-certs: NothingNew
# A landmark at 3 has the subtrees from 0 up to 2 and from 2 up to 3, of one entry.
$ landmark j
| landmark 1 3
$ light-certs j 1 3
| -----BEGIN CERTIFICATE-----
| MIHkMIGcoAMCAQICAQEwDAYKKwYBBAGC2ksvADAZMRcwFQYKKwYBBAGC2ksvAQwH
| MzI0NzMuMTAeFw0yNjAxMDEwMDAwMDBaFw0yNjAxMDgwMDAwMDBaMAAwKjAFBgMr
| ZXADIQAAAAAAAAAAAAAAAAAAAAAAAAAAAAAAAAAAAAAAAAAAAKMbMBkwFwYDVR0R
| AQH/BA0wC4IJYS5leGFtcGxlMAwGCisGAQQBgtpLLwADNQAAAAAAAAAAAAAAAAAA
| AAACACBwnoDIhIeiQR4e5N+58iqGFJLSDEdlFQwMeUq9cPgUfAAA
| -----END CERTIFICATE-----
| -----BEGIN CERTIFICATE-----
| MIHEMIGcoAMCAQICAQIwDAYKKwYBBAGC2ksvADAZMRcwFQYKKwYBBAGC2ksvAQwH
| MzI0NzMuMTAeFw0yNjAxMDEwMDAwMDBaFw0yNjAxMDgwMDAwMDBaMAAwKjAFBgMr
| ZXADIQAAAAAAAAAAAAAAAAAAAAAAAAAAAAAAAAAAAAAAAAAAAKMbMBkwFwYDVR0R
| AQH/BA0wC4IJYS5leGFtcGxlMAwGCisGAQQBgtpLLwADFQAAAAAAAAAAAgAAAAAA
| AAADAAAAAA==
| -----END CERTIFICATE-----
$ light-certs j 0 2
status 4
! mtc: light-certs: NullEntry 0
$ light-certs j 1 4
status 4
! mtc: light-certs: NoSuchEntry 3
# The first index that has a refusal is named, by the first refusal of it.
$ certs j 1 3 0 2 none
status 4
! mtc: certs: Outside 2
$ certs j 2 3 1 3 none
status 4
! mtc: certs: BadSubtree 2
# Signatures are tested before the journal, and then the indexes.
file bad 00
$ certs k 3 1 0 3 bad
status 2
! mtc: certs: bad: EmptyId 0
$ certs k 3 1 0 3 none
status 7
! mtc: certs: k: Absent
left j SETTINGS TWO 0100000009030000000000000003 00
"#;

// Public keys of so many bytes. An item has its entry of 131 bytes, its key and 4 bytes of their
// lengths, and the body of a Batch 3 bytes more than its items.
const LIMITS: &str = r#"
name HEAD
| [[request]]
| not_before = "2026-01-01T00:00:00Z"
| not_after = "2026-01-08T00:00:00Z"
| dns = ["a.example"]
# Two keys of 65,399 bytes make a body of 131,071.
file j SETTINGS 00
file f HEAD
|= key = "MIL/czAFBgMrZXADgv9oAAAA
times 21793 41414141
| AAA="
  HEAD
|= key = "MIL/czAFBgMrZXADgv9oAAAA
times 21793 41414141
| AAA="
$ issue-list j f
| issued 1
| issued 2
length j 131112
$ checkpoint j
| size 3
| root c992881026b4cc8ed82e60e0c5a54be05695e86a2b92b0d4fc9e77ee8256885c
$ issue-list j f
status 9
! mtc: issue-list: Full
# Keys of 65,406 and 65,394 bytes make one of 131,073, of which the first item is too large as well.
file k SETTINGS 00
file f HEAD
|= key = "MIL/ejAFBgMrZXADgv9vAAAA
times 21796 41414141
| "
  HEAD
|= key = "MIL/bjAFBgMrZXADgv9jAAAA
times 21792 41414141
| "
$ issue-list k f
status 9
! mtc: issue-list: TooMany 1
# The first of them alone.
file f HEAD
|= key = "MIL/ejAFBgMrZXADgv9vAAAA
times 21796 41414141
| "
$ issue-list k f
status 9
! mtc: issue-list: TooLarge
left k SETTINGS 00
"#;

// Files that fail, aren't in their form or aren't there, the first of them.
const FAILURES: &str = r#"
file j SETTINGS 00
file r
| [[request]]
fails 0
$ issue-list j r
status 5
! mtc: issue-list: r: Failed
file f
| [[request]]
$ issue-list absent f
status 2
! mtc: issue-list: f: Missing NotBefore 0
$ issue-list j absent
status 7
! mtc: issue-list: absent: Absent
$ issue-list j.tiles f
status 1
! mtc: issue-list: TilesName 1
$ certs j 1 2 0 03 f
status 1
! mtc: certs: BadNumber 5
$ certs j 1 2 0 3
status 1
! mtc: certs: WrongCount 5 6
$ light-certs j 1 x
status 1
! mtc: light-certs: BadNumber 3
left j SETTINGS 00
"#;

#[test]
fn entries_of_a_list(rt: HostRuntime) {
    let outcome = outcome_after(rt.alloc(), NAMES, ISSUED);
    assert!(rt; outcome == Ok(Outcome::Passed(8)), "{outcome:?}");
}

#[test]
fn records_of_several_items(rt: HostRuntime) {
    let outcome = outcome_after(rt.alloc(), NAMES, RECORDS);
    assert!(rt; outcome == Ok(Outcome::Passed(7)), "{outcome:?}");
}

#[test]
fn files_of_requests(rt: HostRuntime) {
    let outcome = outcome_after(rt.alloc(), NAMES, REQUESTS);
    assert!(rt; outcome == Ok(Outcome::Passed(7)), "{outcome:?}");
}

#[test]
fn certificates_of_a_list(rt: HostRuntime) {
    let outcome = outcome_after(rt.alloc(), NAMES, CERTIFICATES);
    assert!(rt; outcome == Ok(Outcome::Passed(16)), "{outcome:?}");
}

#[test]
fn limits_of_a_list(rt: HostRuntime) {
    let outcome = outcome_after(rt.alloc(), NAMES, LIMITS);
    assert!(rt; outcome == Ok(Outcome::Passed(5)), "{outcome:?}");
}

#[test]
fn failures_of_a_list(rt: HostRuntime) {
    let outcome = outcome_after(rt.alloc(), NAMES, FAILURES);
    assert!(rt; outcome == Ok(Outcome::Passed(7)), "{outcome:?}");
}
