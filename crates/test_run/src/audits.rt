//! What audits find.

use crate::scripts::{Outcome, outcome_of};

// The expected values are those of an implementation that was written apart from the program.
const BY_LANDMARKS: &str = r#"
name REQUEST
| not_before = "2026-01-01T00:00:00Z"
| not_after = "2026-01-08T00:00:00Z"
| key = "MCowBQYDK2VwAyEAAAAAAAAAAAAAAAAAAAAAAAAAAAAAAAAAAAAAAAAAAAA="
name A REQUEST
| dns = ["a.example"]
name B REQUEST
| dns = ["b.example"]
name LOG
| [log]
| id = "32473.1"

case a certificate that a landmark accepts
file r A
file s B
file none
$ init-log j 32473.1 2 64
| log 32473.1
$ issue j r
| issued 1
$ issue j s
| issued 2
$ issue j r
| issued 3
$ landmark j
| landmark 1 4
$ landmarks j
> list
$ entries j 4
> entries
$ entries j 3
> short
$ trust-landmarks list 2 entries
> store LOG
$ light-cert j 2
> cert
$ init-log k 32473.1 2 64
| log 32473.1
$ issue k s
| issued 1
$ issue k r
| issued 2
$ issue k s
| issued 3
$ entries k 4
> other
$ audit cert store 1767225600 entries none
| stands 2
$ audit cert store 1767225600 short none
status 3
|= foreign 450464d70614569b7b6d29b9fd76c2e5be251135601f5d755abf00630e53d37b
|  85c4ec106b49805172318e500f75504116428990b2d037125d9d17ccbb5efd7b
$ audit cert store 1767225600 other none
status 3
|= foreign 450464d70614569b7b6d29b9fd76c2e5be251135601f5d755abf00630e53d37b
|  665f0730d608ab3cce2853eee974459d7903f2045ceef14a64308b3c112da892
# What verify refuses.
$ audit cert store 1767225599 entries none
status 3
| refused NotYet
# All files are read before the first is looked into, the certificate last.
$ audit x store 1767225600 entries none
status 7
! mtc: audit: x: Absent
$ audit cert x 1767225600 entries none
status 7
! mtc: audit: x: Absent
$ audit none none 1767225600 x none
status 7
! mtc: audit: x: Absent
$ audit none none 1767225600 none x
status 7
! mtc: audit: x: Absent
$ audit none none 1767225600 x y
status 7
! mtc: audit: x: Absent
$ audit none none 1767225600 cert cert
status 2
! mtc: audit: none: Missing LogId
$ audit none store 1767225600 cert cert
status 2
! mtc: audit: cert: Short 0
$ audit none store 1767225600 entries entries
status 2
! mtc: audit: entries: BadId
$ audit none store 1767225600 entries none
status 2
! mtc: audit: none: WrongTag 0
file broken 00
fails 0
$ audit cert store 1767225600 entries broken
status 5
! mtc: audit: broken: Failed
$ audit cert store 1767225600 entries
status 1
! mtc: audit: WrongCount 4 5
$ audit cert store 253402300800 entries none
status 1
! mtc: audit: BadNumber 3

case two certificates with one hash
toy
file r REQUEST
| dns = ["ab.example"]
file s REQUEST
| dns = ["ba.example"]
file none
$ init-log j 32473.1 2 64
| log 32473.1
$ issue j r
| issued 1
$ issue j r
| issued 2
$ issue j r
| issued 3
$ landmark j
| landmark 1 4
$ landmarks j
> list
$ entries j 4
> entries
$ trust-landmarks list 2 entries
> store LOG
$ light-cert j 3
> cert
$ init-log k 32473.1 2 64
| log 32473.1
$ issue k r
| issued 1
$ issue k r
| issued 2
$ issue k s
| issued 3
$ entries k 4
> other
$ verify cert store 1767225600
| accepted 3
$ audit cert store 1767225600 entries none
| stands 3
$ audit cert store 1767225600 other none
status 10
| collision
|= 000001a003020102301931173015060a2b0601040182da4b2f010c0733323437332e31301e170d323630313031
|= 3030303030305a170d3236303130383030303030305a30000420bc000000000000000000000000000000000000
| 00000000000000000000000000a31c301a30180603551d110101ff040e300c820a62612e6578616d706c65
|= 000001a003020102301931173015060a2b0601040182da4b2f010c0733323437332e31301e170d323630313031
|= 3030303030305a170d3236303130383030303030305a30000420bc000000000000000000000000000000000000
| 00000000000000000000000000a31c301a30180603551d110101ff040e300c820a61622e6578616d706c65
"#;

const BY_COSIGNERS: &str = r#"
name REQUEST
| not_before = "2026-01-01T00:00:00Z"
| not_after = "2026-01-08T00:00:00Z"
| key = "MCowBQYDK2VwAyEAAAAAAAAAAAAAAAAAAAAAAAAAAAAAAAAAAAAAAAAAAAA="
name STORE
| [log]
| id = "32473.1"
| [[cosigner]]
| id = "32473.2"
| key = "AAAAAQAAAAUAAAAEMDAwMDAwMDAwMDAwMDAwMI/F8I53Q0Z5iFNO+go0Rv/G2enWzzmn/kMve4YGcgSQ"
| [[rule]]
| cosigners = ["32473.2"]
| count = 1

case a certificate that a cosigner has signed
file r REQUEST
| dns = ["a.example"]
file s REQUEST
| dns = ["b.example"]
file store STORE
file none
file secret
|= 000000000000000000000000000000000000000000000000
file secret3
|= 000000000000000000000000000000000000000000000003
$ init-log j 32473.1 2 64
| log 32473.1
$ issue j r
| issued 1
$ issue j s
| issued 2
$ issue j r
| issued 3
$ init-cosigner u 32473.2 32473.1 5 8 secret
| AAAAAQAAAAUAAAAEMDAwMDAwMDAwMDAwMDAwMI/F8I53Q0Z5iFNO+go0Rv/G2enWzzmn/kMve4YGcgSQ
$ init-cosigner v 32473.3 32473.1 5 8 secret3
| AAAAAQAAAAUAAAAEMDAwMDAwMDAwMDAwMDAwMCRNpQ6Q9s3D6LcvhVrOA0HwhWOl7EZg8Uk8WFZmDMcX
$ consist j 0 4
> advance
$ subtree j 0 4 4
> subtree
$ advance u advance
| advanced 4
$ advance v advance
| advanced 4
$ export u
> early
$ cosign u subtree
> signatures
$ cosign v subtree
> others
$ export u
> export
$ export v
> another
$ cert j 2 0 4 signatures
> cert
$ entries j 4
> entries
$ entries j 3
> short
$ audit cert store 1767225600 entries export
| stands 2
$ audit cert store 1767225600 entries none
status 3
| unrecorded
$ audit cert store 1767225600 entries early
status 3
| unrecorded
$ audit cert store 1767225600 entries another
status 3
| unrecorded
$ audit cert store 1767225600 short export
status 3
|= foreign 57c88380547e478b786361b80add98ad2a975da7c12b3242f3623e0c50e4974f
|  a13c64a06d0dac6619e0768a811acfcc5777c39af782ce07a1327f043c0bb97e
$ audit none store 1767225600 short export
status 2
! mtc: audit: none: WrongTag 0
"#;

#[test]
fn audits_by_landmarks(rt: HostRuntime) {
    let outcome = outcome_of(rt.alloc(), BY_LANDMARKS);
    assert!(rt; outcome == Ok(Outcome::Passed(48)), "{outcome:?}");
}

#[test]
fn audits_by_cosigners(rt: HostRuntime) {
    let outcome = outcome_of(rt.alloc(), BY_COSIGNERS);
    assert!(rt; outcome == Ok(Outcome::Passed(24)), "{outcome:?}");
}
