//! Arguments over one file, with streams that fail: what comes of each.

use crate::desk::Desk;
use crate::scripts::{Outcome, outcome_of};
use mtc_io::Bytes;
use std::alloc::Global;

const SCRIPT: &str = r#"
# The nodes of a list of eight entries, of which the first is empty and the second is the byte 0:
# the hash of the first, of the third and the fourth, of the last four, and of all.
name NODE_0_1 6e340b9cffb37a989ca544e6bb780a2c78901d3fb33738768511a30617afa01d
name NODE_2_4 5f083f0a1a33ca076a95279832580db3e0ef4584bdff1f54c8a360f50de3031e
name NODE_4_8 6b47aaf29ee3c2af9af889bc1fb9254dabd31177f16232dd6aab035ca39bf6e4
name NODE_0_8 5dc9da79a70659a9ad559cb701ded9a2ab9d823aad2f4960cfe370eff4604328
# Index 0, the interval 0 to 1, its hash, no path, and the empty entry.
name FIRST 0000000000000000 0000000000000000 0000000000000001 NODE_0_1 0000
# The bytes from 0 to 23, and those from 0 to 47.
name HALF 000102030405060708090a0b0c0d0e0f1011121314151617
name SECRET HALF 18191a1b1c1d1e1f202122232425262728292a2b2c2d2e2f
# A certificate.
name CERT
  3081e430819ca003020102020101300c060a2b0601040182da4b2f00301931173015060a2b0601040182da4b2f
  010c0733323437332e31301e170d3236303130313030303030305a170d3236303130383030303030305a300030
  2a300506032b65700321000000000000000000000000000000000000000000000000000000000000000000a31b
  301930170603551d110101ff040d300b8209612e6578616d706c65300c060a2b0601040182da4b2f0003350000
  0000000000000000000000000000020020709e80c88487a2411e1ee4dfb9f22a861492d20c4765150c0c794abd
  70f8147c0000

case the only entry of a list
file f FIRST
$ member f
| member 0

case the second of eight entries
file f 0000000000000001 0000000000000000 0000000000000008 NODE_0_8 0060 NODE_0_1 NODE_2_4
  NODE_4_8 00
$ member f
| member 1

case the entry's length is cut
file f 0000000000000000 0000000000000000 0000000000000001 NODE_0_1 00
$ member f
status 2
! mtc: member: f: Short 56

case an empty file
file f
$ member f
status 2
! mtc: member: f: Short 0

case a path of 33 bytes
file f 0000000000000000 0000000000000000 0000000000000001 NODE_0_1 0021 NODE_0_1 00
$ member f
status 2
! mtc: member: f: HashLength

case a path that is too long
file f 0000000000000000 0000000000000000 0000000000000001 NODE_0_1 0020 NODE_0_1
$ member f
status 3
| refused WrongLength

case another entry
file f 0000000000000000 0000000000000000 0000000000000001 NODE_0_1 0000 00
$ member f
status 3
| refused HashDiffers

case an empty interval
file f 0000000000000000 0000000000000001 0000000000000001 NODE_0_1 0000
$ member f
status 3
| refused BadSubtree

case an index outside of the interval
file f 0000000000000001 0000000000000000 0000000000000001 NODE_0_1 0000
$ member f
status 3
| refused Outside

case no word
file f FIRST
$
status 1
! mtc: NoCommand

case a word too few
file f FIRST
$ member
status 1
! mtc: member: WrongCount 0 1

case an unknown command
file f FIRST
$ frob
status 1
! mtc: UnknownCommand

case an empty word
file f FIRST
$ member ''
status 1
! mtc: member: BadWord 1

case a word with a hyphen
file f FIRST
$ member -x
status 1
! mtc: member: BadWord 1

case a file that isn't there
file f FIRST
$ member g
status 7
! mtc: member: g: Absent

case the first read fails
file f FIRST
fails 0
$ member f
status 5
! mtc: member: f: Failed

case the end of input is a read of its own
file f FIRST
fails 1
$ member f
status 5
! mtc: member: f: Failed

case the output fails in its second call
file f FIRST
takes 3
out-fails 1
$ member f
status 6
|= mem
! mtc: member: OutputFailed

case the output takes a byte a call
file f FIRST
takes 1
$ member f
| member 0

case a fault of standard error changes no status
file f FIRST
err-fails 0
$ frob
status 1

case the same of a file that isn't there
file f FIRST
err-fails 0
$ member g
status 7

case the same in the middle of a line
file f FIRST
fails 0
err-fails 2
$ member f
status 5
!= mtc: member

case both outputs fail
file f FIRST
out-fails 0
err-fails 0
$ member f
status 6

case the same of a refusal
file f 0000000000000000 0000000000000001 0000000000000001 NODE_0_1 0000
err-fails 0
$ member f
status 3
| refused BadSubtree

case a public key
file f SECRET
$ keygen 5 4 f
| AAAAAQAAAAUAAAADAAECAwQFBgcICQoLDA0OD2Ya6x2F5qmT4OVbu60lZPG0Xj4bqLm0yRfpk+u9rxni

case a public key of another width
file f SECRET
$ keygen 5 1 f
| AAAAAQAAAAUAAAABAAECAwQFBgcICQoLDA0OD6hmQGdWCnf3wA0qC+1XtEHIN0Wu+EbC8mL4GUGzluZS

case half a secret
file f HALF
$ keygen 5 4 f
status 2
! mtc: keygen: f: Short 0

case a byte too many
file f SECRET 00
$ keygen 5 4 f
status 2
! mtc: keygen: f: Trailing

case a number with a zero before it
file f SECRET
$ keygen 05 4 f
status 1
! mtc: keygen: BadNumber 1

case a height that there isn't
file f SECRET
$ keygen 6 4 f
status 1
! mtc: keygen: BadNumber 1

case a number that is too large
file f SECRET
$ keygen 5 99999999999999999999 f
status 1
! mtc: keygen: BadNumber 2

case a width that there isn't
file f SECRET
$ keygen 5 3 f
status 1
! mtc: keygen: BadNumber 2

case a word with a hyphen after bad numbers
file f SECRET
$ keygen 6 4 -x
status 1
! mtc: keygen: BadWord 3

case a secret that isn't there
file f SECRET
$ keygen 5 4 g
status 7
! mtc: keygen: g: Absent

case a certificate that is cut
file f CERT
cut 230
$ show f
status 2
! mtc: show: f: Truncated 0

case a byte after a certificate
file f CERT 00
$ show f
status 2
! mtc: show: f: Trailing 231

case the output fails within a line
file f CERT
takes 1
out-fails 7
$ show f
status 6
  73657269616c20
! mtc: show: OutputFailed

case a certificate that isn't there
file f CERT
$ show g
status 7
! mtc: show: g: Absent

case a certificate that can't be read
file f CERT
fails 0
$ show f
status 5
! mtc: show: f: Failed

case a word too many
file f CERT
$ show a b
status 1
! mtc: show: WrongCount 2 1
"#;

#[test]
fn answers_arguments_and_a_file(rt: HostRuntime) {
    let outcome = outcome_of(rt.alloc(), SCRIPT);
    assert!(rt; outcome == Ok(Outcome::Passed(40)), "{outcome:?}");
}

// Puts a file of one byte more than is read in its place.
fn place_over_the_limit(alloc: Global, desk: &mut Desk) -> Option<()> {
    let bytes = vec![in alloc; 0; 16_777_217].ok()?;
    desk.place("f", Bytes::from_vec(bytes), Vec::new(alloc))
        .ok()
}

fn answer_over_the_limit(alloc: Global, desk: &mut Desk) -> Option<bool> {
    place_over_the_limit(alloc, desk)?;
    let answer = desk.answer(alloc, "member f").ok()?;
    Some(answer.is(9, b"", b"mtc: member: f: TooLong\n"))
}

#[test]
fn refuses_a_file_over_its_limit(rt: HostRuntime) {
    let mut desk = Desk::new(rt.alloc());
    assert!(rt; answer_over_the_limit(rt.alloc(), &mut desk) == Some(true));
}
