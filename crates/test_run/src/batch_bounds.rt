//! What `issue-list`, `certs` and `light-certs` answer at their bounds, and after other records.

use crate::batches::NAMES;
use crate::scripts::{Outcome, outcome_after};

const BOUNDS: &str = r#"
name HEAD
| [[request]]
| not_before = "2026-01-01T00:00:00Z"
| not_after = "2026-01-08T00:00:00Z"
| dns = ["a.example"]
# A list of one is a Batch of one, with a body of 3 + 179 = 182 bytes.
file j SETTINGS 00
file q HEAD
| key = "MCowBQYDK2VwAyEAAAAAAAAAAAAAAAAAAAAAAAAAAAAAAAAAAAAAAAAAAAA="
$ issue-list j q
| issued 1
left j SETTINGS 01000000b6060001 ITEM 00
# Two more reach the limit of 4; and where one place is left, two are too many.
$ issue-list j two
| issued 2
| issued 3
$ issue-list j q
status 9
! mtc: issue-list: Full
length j 589
# Inline tables are as good as headers.
file j SETTINGS 00
file q
|= request = [{ not_before = "2026-01-01T00:00:00Z", not_after = "2026-01-08T00:00:00Z",
|= dns = ["a.example"], key = "MCowBQYDK2VwAyEAAAAAAAAAAAAAAAAAAAAAAAAAAAAAAAAAAAAAAAAAAAA="
| }]
$ issue-list j q
| issued 1
left j SETTINGS 01000000b6060001 ITEM 00
# Keys of 65,399 and 65,400 bytes make a body of 131,072 bytes, the most.
file j SETTINGS 00
file q HEAD
|= key = "MIL/czAFBgMrZXADgv9oAAAA
times 21793 41414141
| AAA="
  HEAD
|= key = "MIL/dDAFBgMrZXADgv9pAAAA
times 21794 41414141
| "
$ issue-list j q
| issued 1
| issued 2
length j 131113
$ checkpoint j
| size 3
| root 25bb38c6a10d6bae78f10437c9d0450e659cdc0c957d2065906abe164cca1998
# An item of 65,535 bytes, by a key of 65,404; one byte more is too large.
file j SETTINGS 00
file q HEAD
|= key = "MIL/eDAFBgMrZXADgv9tAAAA
times 21795 41414141
| AA=="
$ issue-list j q
| issued 1
$ checkpoint j
| size 2
| root ca59e356528e717f486ecdc04d50201e25cbf5feda5ddda5ec5327e06fb8be17
file q HEAD
|= key = "MIL/eTAFBgMrZXADgv9uAAAA
times 21795 41414141
| AAA="
$ issue-list j q
status 9
! mtc: issue-list: TooLarge
# A key of 130,934 bytes makes a body of 131,072 alone, and one of 130,935 none.
file q HEAD
|= key = "MIMB/3EwBQYDK2VwA4MB/2UA
times 43638 41414141
| AAA="
$ issue-list j q
status 9
! mtc: issue-list: TooLarge
file q HEAD
|= key = "MIMB/3IwBQYDK2VwA4MB/2YA
times 43639 41414141
| "
$ issue-list j q
status 9
! mtc: issue-list: TooMany 0
length j 65583
"#;

const LATER: &str = r#"
# The entry after the landmark isn't covered; the one before it is.
file j SETTINGS 00
$ issue j one
| issued 1
$ landmark j
| landmark 1 2
$ issue-list j two
| issued 2
| issued 3
$ light-certs j 1 3
status 4
! mtc: light-certs: NotCovered 2
# More than 65,535 bytes of signatures, tested last, at the first index.
file sig 04 81fd5902 ffff
times 65535 00
$ certs j 1 3 0 3 sig
status 9
! mtc: certs: TooManySignatures 1
$ certs j 0 3 0 3 sig
status 4
! mtc: certs: NullEntry 0
$ certs j 1 4 0 2 sig
status 9
! mtc: certs: TooManySignatures 1
# In a log that was switched the entries of a list name the algorithm: each has 138 bytes, and the
# body 375.
file k SETTINGS 00
$ switch k
| switched 1
$ issue-list k two
| issued 1
| issued 2
length k 430
$ checkpoint k
| size 3
| root 04286fd933abf039c4bf2b174c1a0df1ef16dcb1a02bc362bf8ab26c8c0b065f
# Entries of before a Switch after it.
file m SETTINGS 0100000009050000000000000001 TWO 00
$ checkpoint m
status 2
! mtc: checkpoint: m: BadRecord 2
# In a cosigner's journal a Batch is no record, whatever stands before it.
file s 6d74632d6a6f75726e616c2f76310a00 0100000043 11 0481fd5902 0481fd5901 00000005 00000004
  303030303030303030303030303030303030303030303030303030303030303030303030303030303030303030303030
  TWO 00
$ export s
status 2
! mtc: export: s: BadRecord 1
# An item above 65,535 bytes is no fault where it stands: a key of 65,406, a body of 65,544.
file n SETTINGS 0100010008060001 0083
  0001a003020102301931173015060a2b0601040182da4b2f010c0733323437332e31301e170d32363031303130
  30303030305a170d3236303130383030303030305a30000420bab5dece131e2e5f574e87b584f1f9030be9ac1a
  847afba04dd858752017dabaa31b301930170603551d110101ff040d300b8209612e6578616d706c65
  ff7e 3082ff7a300506032b65700382ff6f
times 65391 00
  00
$ checkpoint n
| size 2
| root f407596ccad54a221a587902323794819b28394d7bf99c3e03005caf099c30d1
"#;

#[test]
fn bounds_of_a_list(rt: HostRuntime) {
    let outcome = outcome_after(rt.alloc(), NAMES, BOUNDS);
    assert!(rt; outcome == Ok(Outcome::Passed(11)), "{outcome:?}");
}

#[test]
fn lists_after_other_records(rt: HostRuntime) {
    let outcome = outcome_after(rt.alloc(), NAMES, LATER);
    assert!(rt; outcome == Ok(Outcome::Passed(13)), "{outcome:?}");
}
