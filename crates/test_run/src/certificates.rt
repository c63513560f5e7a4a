//! What `cert` writes, what `show` prints of a certificate, and what `verify` answers to one, a
//! store and a time.

use crate::scripts::{Outcome, outcome_of};

const SHOWN: &str = r#"
# A certificate of log 32473.1 for a.example, 231 bytes: the entry 1, in the interval 0 to 2.
name CERT
  3081e430819ca003020102020101300c060a2b0601040182da4b2f00301931173015060a2b0601040182da4b2f
  010c0733323437332e31301e170d3236303130313030303030305a170d3236303130383030303030305a300030
  2a300506032b65700321000000000000000000000000000000000000000000000000000000000000000000a31b
  301930170603551d110101ff040d300b8209612e6578616d706c65300c060a2b0601040182da4b2f0003350000
  0000000000000000000000000000020020709e80c88487a2411e1ee4dfb9f22a861492d20c4765150c0c794abd
  70f8147c0000
# One of another issuer, with a subject, and a name with a blank before another.
name OTHER
  3081e630819ea003020102020203e8300c060a2b0601040182da4b2f00300c310a300806035504030c0178301e
  170d3236303130313030303030305a170d3236303130383030303030305a300c310a300806035504030c017930
  2a300506032b65700321000000000000000000000000000000000000000000000000000000000000000000a31d
  301b30190603551d1104123010820362206381036d407882047e216f6b300c060a2b0601040182da4b2f000335
  00000000000000000000000000000000020020709e80c88487a2411e1ee4dfb9f22a861492d20c4765150c0c79
  4abd70f8147c0000
# Two signatures after the proof.
name SIGNED 0481fd5902000301020301ff0000

case a certificate
file f CERT
$ show f
| serial 1
| issuer 32473.1
| not_before 2026-01-01T00:00:00Z
| not_after 2026-01-08T00:00:00Z
| subject empty
| key 302a300506032b65700321000000000000000000000000000000000000000000000000000000000000000000
| name a.example
| interval 0 2
| path 1

case another one
file f OTHER
$ show f
| serial 1000
| issuer other
| not_before 2026-01-01T00:00:00Z
| not_after 2026-01-08T00:00:00Z
| subject 300c310a300806035504030c0179
| key 302a300506032b65700321000000000000000000000000000000000000000000000000000000000000000000
| name-hex 622063
| name ~!ok
| interval 0 2
| path 1

case the attribute's identifier in the place of the algorithm's
file f CERT
byte 27 01
byte 175 01
$ show f
| serial 1
| issuer 32473.1
| not_before 2026-01-01T00:00:00Z
| not_after 2026-01-08T00:00:00Z
| subject empty
| key 302a300506032b65700321000000000000000000000000000000000000000000000000000000000000000000
| name a.example
| proof none

case an interval that ends before it starts
file f CERT
byte 186 05
$ show f
| serial 1
| issuer 32473.1
| not_before 2026-01-01T00:00:00Z
| not_after 2026-01-08T00:00:00Z
| subject empty
| key 302a300506032b65700321000000000000000000000000000000000000000000000000000000000000000000
| name a.example
| interval 5 2
| path 1

case a path of 31 bytes
file f CERT
byte 196 1f
$ show f
| serial 1
| issuer 32473.1
| not_before 2026-01-01T00:00:00Z
| not_after 2026-01-08T00:00:00Z
| subject empty
| key 302a300506032b65700321000000000000000000000000000000000000000000000000000000000000000000
| name a.example
| proof none

case the lengths of the whole and of the proof, which ends with two signatures
file f CERT SIGNED
byte 2 f2
byte 177 43
byte 230 0e
$ show f
| serial 1
| issuer 32473.1
| not_before 2026-01-01T00:00:00Z
| not_after 2026-01-08T00:00:00Z
| subject empty
| key 302a300506032b65700321000000000000000000000000000000000000000000000000000000000000000000
| name a.example
| interval 0 2
| path 1
| signature 32473.2 3
| signature hex:ff 0

case a certificate is written
file r
| not_before = "2026-01-01T00:00:00Z"
| not_after = "2026-01-08T00:00:00Z"
| dns = ["a.example"]
| key = "MCowBQYDK2VwAyEAAAAAAAAAAAAAAAAAAAAAAAAAAAAAAAAAAAAAAAAAAAA="
file none
file bad 01610000000000
file short 0161
file two SIGNED
$ init-log j 32473.1 2 64
| log 32473.1
$ issue j r
| issued 1
$ cert j 1 0 2 none
  CERT
$ cert j 0 0 2 none
status 4
! mtc: cert: NullEntry
$ cert j 2 1 3 none
status 4
! mtc: cert: NoSuchEntry
$ cert j 1 1 3 none
status 4
! mtc: cert: BadSubtree
$ cert j 1 2 4 none
status 4
! mtc: cert: Outside
$ cert j 1 0 4 none
status 4
! mtc: cert: Beyond 2
$ cert j 1 0 2 bad
status 2
! mtc: cert: bad: EmptyId 4
$ cert j 1 0 2 short
status 2
! mtc: cert: short: Short 2
$ cert j 1 0 2 gone
status 7
! mtc: cert: gone: Absent
$ cert k 1 0 2 none
status 7
! mtc: cert: k: Absent
$ cert j 1 0 2 two
  3081f230819ca003020102020101300c060a2b0601040182da4b2f00301931173015060a2b0601040182da4b2f
  010c0733323437332e31301e170d3236303130313030303030305a170d3236303130383030303030305a300030
  2a300506032b65700321000000000000000000000000000000000000000000000000000000000000000000a31b
  301930170603551d110101ff040d300b8209612e6578616d706c65300c060a2b0601040182da4b2f0003430000
  0000000000000000000000000000020020709e80c88487a2411e1ee4dfb9f22a861492d20c4765150c0c794abd
  70f8147c000e SIGNED
"#;

#[test]
fn shows_and_writes_certificates(rt: HostRuntime) {
    let outcome = outcome_of(rt.alloc(), SHOWN);
    assert!(rt; outcome == Ok(Outcome::Passed(19)), "{outcome:?}");
}

const JUDGED: &str = r#"
# The same certificate.
name CERT
  3081e430819ca003020102020101300c060a2b0601040182da4b2f00301931173015060a2b0601040182da4b2f
  010c0733323437332e31301e170d3236303130313030303030305a170d3236303130383030303030305a300030
  2a300506032b65700321000000000000000000000000000000000000000000000000000000000000000000a31b
  301930170603551d110101ff040d300b8209612e6578616d706c65300c060a2b0601040182da4b2f0003350000
  0000000000000000000000000000020020709e80c88487a2411e1ee4dfb9f22a861492d20c4765150c0c794abd
  70f8147c0000
name LOG
| [log]
| id = "32473.1"
# The interval 0 to 2 with the hash of the pair of the first entry's leaf and the certificate's.
name SUBTREE
| [[subtree]]
| start = 0
| end = 2
| hash = "77566825cd25f263271e3fa5341db28ed2c87945ee98f731b2aa96b9e6b11cf6"
# The same with another last byte of the hash.
name DIFFERENT
| [[subtree]]
| start = 0
| end = 2
| hash = "77566825cd25f263271e3fa5341db28ed2c87945ee98f731b2aa96b9e6b11cf7"

case a second before the first
file c CERT
file store LOG SUBTREE
$ verify c store 1767225599
status 3
| refused NotYet

case the first second
file c CERT
file store LOG SUBTREE
$ verify c store 1767225600
| accepted 1

case the last second
file c CERT
file store LOG SUBTREE
$ verify c store 1767830400
| accepted 1

case a second after the last
file c CERT
file store LOG SUBTREE
$ verify c store 1767830401
status 3
| refused Expired

case the last second of all
file c CERT
file store LOG SUBTREE
$ verify c store 253402300799
status 3
| refused Expired

case a time that there isn't
file c CERT
file store LOG SUBTREE
$ verify c store 253402300800
status 1
! mtc: verify: BadNumber 3

case a number with a zero before it
file c CERT
file store LOG SUBTREE
$ verify c store 01
status 1
! mtc: verify: BadNumber 3

case a time with a sign
file c CERT
file store LOG SUBTREE
$ verify c store -1
status 1
! mtc: verify: BadWord 3

case a path of 31 bytes
file c CERT
byte 196 1f
file store LOG SUBTREE
$ verify c store 1767225600
status 2
! mtc: verify: c: HashLength

case a path that is longer than the proof
file c CERT
byte 196 40
file store LOG SUBTREE
$ verify c store 1767225600
status 2
! mtc: verify: c: Short 16

case signatures that are longer than the proof
file c CERT
byte 230 01
file store LOG SUBTREE
$ verify c store 1767225600
status 2
! mtc: verify: c: Short 50

case another tag
file c CERT
byte 0 31
file store LOG SUBTREE
$ verify c store 1767225600
status 2
! mtc: verify: c: WrongTag 0

case an empty interval
file c CERT
byte 194 00
file store LOG SUBTREE
$ verify c store 1767225600
status 3
| refused ProofShape BadSubtree

case an interval without the entry
file c CERT
byte 194 01
file store LOG SUBTREE
$ verify c store 1767225600
status 3
| refused ProofShape Outside

case an interval of three entries
file c CERT
byte 194 03
file store LOG SUBTREE
$ verify c store 1767225600
status 3
| refused ProofShape WrongLength

case the attribute's identifier in the place of the algorithm's
file c CERT
byte 27 01
byte 175 01
file store LOG SUBTREE
$ verify c store 1767225600
status 3
| refused Algorithm

case a revoked entry
file c CERT
file store LOG SUBTREE
| [[revoked]]
| start = 1
| end = 2
$ verify c store 1767225600
status 3
| refused Revoked

case another revoked entry
file c CERT
file store LOG SUBTREE
| [[revoked]]
| start = 2
| end = 3
$ verify c store 1767225600
| accepted 1

case another hash
file c CERT
file store LOG DIFFERENT
$ verify c store 1767225600
status 3
| refused LandmarkDiffers

case no subtree
file c CERT
file store LOG
$ verify c store 1767225600
status 3
| refused TooFewCosigners 0

case another log
file c CERT
file store
| [log]
| id = "32473.9"
| [[subtree]]
| start = 0
| end = 2
| hash = "77566825cd25f263271e3fa5341db28ed2c87945ee98f731b2aa96b9e6b11cf6"
$ verify c store 1767225600
status 3
| refused UnknownLog

case an empty store, and a certificate of another tag
file c CERT
byte 0 31
file store
$ verify c store 1767225600
status 2
! mtc: verify: store: Missing LogId

case a store that is no TOML
file c CERT
byte 0 31
file store
|= [log
$ verify c store 1767225600
status 2
! mtc: verify: store: NotToml

case a table that is none
file c CERT
byte 0 31
file store
|= log = 1
$ verify c store 1767225600
status 2
! mtc: verify: store: BadValue Table

case an unknown key
file c CERT
byte 0 31
file store
|= x = 1
$ verify c store 1767225600
status 2
! mtc: verify: store: UnknownKey

case an id with a zero before an arc
file c CERT
byte 0 31
file store
| [log]
| id = "32473.01"
$ verify c store 1767225600
status 2
! mtc: verify: store: BadValue LogId

case two subtrees of one interval
file c CERT
byte 0 31
file store LOG SUBTREE DIFFERENT
$ verify c store 1767225600
status 2
! mtc: verify: store: RepeatedSubtree

case an empty range
file c CERT
byte 0 31
file store LOG
| [[revoked]]
| start = 5
| end = 5
$ verify c store 1767225600
status 2
! mtc: verify: store: BadRange

case no certificate
$ verify c store 1767225600
status 7
! mtc: verify: c: Absent

case no store
file c CERT
$ verify c store 1767225600
status 7
! mtc: verify: store: Absent

case the certificate's first read fails
file c CERT
fails 0
file store
$ verify c store 1767225600
status 5
! mtc: verify: c: Failed

case the store's first read fails
file c CERT
file store
fails 0
$ verify c store 1767225600
status 5
! mtc: verify: store: Failed

case a word too few
file c CERT
$ verify c
status 1
! mtc: verify: WrongCount 1 3
"#;

#[test]
fn judges_certificates(rt: HostRuntime) {
    let outcome = outcome_of(rt.alloc(), JUDGED);
    assert!(rt; outcome == Ok(Outcome::Passed(33)), "{outcome:?}");
}
