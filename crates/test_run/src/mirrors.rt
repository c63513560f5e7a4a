//! What the commands of a mirror answer, and what they leave of its journal, of the file of its
//! tiles, and of the journal of a cosigner that signs through it.

use crate::scripts::{Outcome, outcome_after};

/// Names of bytes for the scripts of a mirror.
// The items of eight entries, none of which has a key; the journal of a mirror of log 32473.1, its
// header and its first record without the commit byte after it, and the record of these items; and
// that of cosigner 32473.2, with height 5 and width 4, with its Advance to the first five entries
// and its Sign of the first four. The expected values are those of an implementation that was
// written apart from the program.
pub(crate) const NAMES: &str = r#"
name EIGHT 00000000000100000000011000000002202100000002303100000004404142430000
  000850515253545556570000 0010606162636465666768696a6b6c6d6e6f0000
name STARTED 6d74632d6a6f75726e616c2f76310a00 0100000006 21 0481fd5901
name BATCH 0100000045 22 0008 EIGHT
name SECRET
  000102030405060708090a0b0c0d0e0f
  101112131415161718191a1b1c1d1e1f202122232425262728292a2b2c2d2e2f
name SETTINGS 11 0481fd5902 0481fd5901 00000005 00000003 SECRET
name FOUNDED 6d74632d6a6f75726e616c2f76310a00 0100000043 SETTINGS
# The hashes of the entries 0 to 3 and of entry 4, of the first five, and of all.
name NODE_0_4 d37ee418976dd95753c1c73862b9398fa2a2cf9b4ff0fdfe8b30cd95209614b7
name NODE_4_5 bc1a0643b12e4d2d7c77918f44e0f4f79a838b6cf9ec5b5c283e1f4d88599e6b
name NODE_0_5 4e3bbb1f7b478dcfe71fb631631519a3bca12c9aefca1612bfce4c13a86264d4
name NODE_0_8 5dc9da79a70659a9ad559cb701ded9a2ab9d823aad2f4960cfe370eff4604328
name ADVANCED 010000002b120000000000000005 NODE_0_5 0000
name SIGN 0100000057 13 00000000 0000000000000000 0000000000000004 NODE_0_4 0020 NODE_4_5
# Another root.
name ROOT 77566825cd25f263271e3fa5341db28ed2c87945ee98f731b2aa96b9e6b11cf6
file none
file e EIGHT
"#;

const TAKEN: &str = r#"
# A new mirror has no item, and no file of tiles yet. It takes a list, and no item of it twice.
$ mirror-init m 32473.1
| mirror 32473.1
left m STARTED 00
length m 28
gone m.tiles
$ mirror-init m 32473.1
status 7
! mtc: mirror-init: m: Exists
$ mirror-entries m 0
left m.tiles
$ mirror-entries m 1
status 4
! mtc: mirror-entries: Beyond 0
$ mirror-take m none
status 4
! mtc: mirror-take: NothingNew
$ mirror-take m e
| mirrored 8
left m STARTED BATCH 00
length m 102
$ mirror-take m e
status 4
! mtc: mirror-take: NothingNew
$ mirror-entries m 8
 EIGHT
$ mirror-entries m 3
 0000000000010000000001100000
$ mirror-entries m 9
status 4
! mtc: mirror-entries: Beyond 8

# A list with another item, also one that is shorter, and one that ends before the mirror's.
file f EIGHT
byte 17 20
$ mirror-take m f
status 4
! mtc: mirror-take: Differs 3
file f 00000000 00020000
$ mirror-take m f
status 2
! mtc: mirror-take: f: Short 8
file f 00000000 000200000000
$ mirror-take m f
status 4
! mtc: mirror-take: Differs 1
file f EIGHT
cut 14
$ mirror-take m f
status 4
! mtc: mirror-take: NothingNew
left m STARTED BATCH 00

# It takes what follows.
file f EIGHT 000200000000
$ mirror-take m f
| mirrored 9
left m STARTED BATCH 0100000009 22 0001 000200000000 00

# No tile is full, and none is stored.
$ mirror-tile m
status 4
! mtc: mirror-tile: NothingNew
left m.tiles
"#;

const SIGNED: &str = r#"
# A cosigner advances, and signs, as it does by requests with the same proofs.
file m STARTED BATCH 00
file s FOUNDED 00
file twin FOUNDED 00
$ mirror-cosign s m 0 4
status 4
! mtc: mirror-cosign: Beyond 0
$ mirror-advance s m 9
status 4
! mtc: mirror-advance: Beyond 8
$ mirror-advance s m 0
status 4
! mtc: mirror-advance: NotNewer 0
left s FOUNDED 00
$ mirror-advance s m 5
| advanced 5
left s FOUNDED ADVANCED 00
length s 137
$ mirror-advance s m 5
status 4
! mtc: mirror-advance: NotNewer 5
$ mirror-cosign s m 0 4
> c
left s FOUNDED ADVANCED SIGN 00
length s 229
length c 2359
file a 0481fd5901 0000000000000005 NODE_0_5 0000
$ advance twin a
| advanced 5
file t 0481fd5901 0000000000000000 0000000000000004 NODE_0_4 0020 NODE_4_5
$ cosign twin t
> d
same c d
same s twin
$ mirror-cosign s m 4 6
status 4
! mtc: mirror-cosign: Beyond 5
$ mirror-cosign s m 1 3
status 4
! mtc: mirror-cosign: BadSubtree
$ mirror-cosign s m 5 11
status 4
! mtc: mirror-cosign: BadSubtree
left s FOUNDED ADVANCED SIGN 00
$ mirror-advance s m 8
| advanced 8
$ mirror-cosign s m 4 8
> c
# The mirror was only read.
left m STARTED BATCH 00
left m.tiles

# A cosigner that holds more, or another list, is not the mirror's; that is tested first.
file s FOUNDED 010000002b120000000000000400 ROOT 0000 00
$ mirror-advance s m 8
status 4
!= mtc: mirror-advance: NotMine 77566825cd25f263271e3fa5341db28ed2c87945ee98f731b2aa96b9e6b11cf6
!  5dc9da79a70659a9ad559cb701ded9a2ab9d823aad2f4960cfe370eff4604328
$ mirror-cosign s m 1 3
status 4
!= mtc: mirror-cosign: NotMine 77566825cd25f263271e3fa5341db28ed2c87945ee98f731b2aa96b9e6b11cf6
!  5dc9da79a70659a9ad559cb701ded9a2ab9d823aad2f4960cfe370eff4604328
file s FOUNDED 010000002b120000000000000004 ROOT 0000 00
$ mirror-cosign s m 0 8
status 4
!= mtc: mirror-cosign: NotMine 77566825cd25f263271e3fa5341db28ed2c87945ee98f731b2aa96b9e6b11cf6
!  d37ee418976dd95753c1c73862b9398fa2a2cf9b4ff0fdfe8b30cd95209614b7
$ mirror-advance s m 9
status 4
! mtc: mirror-advance: Beyond 8
left s FOUNDED 010000002b120000000000000004 ROOT 0000 00

# The mirror is one of another log, with the same entries.
file o 6d74632d6a6f75726e616c2f76310a00 0100000006 21 0481fd5909 BATCH 00
file s FOUNDED ADVANCED 00
$ mirror-advance s o 5
status 4
! mtc: mirror-advance: WrongLog
$ mirror-cosign s o 0 4
status 4
! mtc: mirror-cosign: WrongLog
$ mirror-cosign s o 0 8
status 4
! mtc: mirror-cosign: Beyond 5
left s FOUNDED ADVANCED 00

# A key of two levels.
file s 6d74632d6a6f75726e616c2f76310a00
  0100000047150481fd59020481fd5901000000050000000500000003 SECRET 00
$ mirror-advance s m 5
| advanced 5
$ mirror-cosign s m 0 4
status 4
! mtc: mirror-cosign: NeedsChild
$ child s
| child 0
$ mirror-cosign s m 0 4
> c
length s 247
"#;

const FILES: &str = r#"
# Files that aren't there, in the order in which they are opened.
file m STARTED BATCH 00
file s FOUNDED ADVANCED 00
$ mirror-take k none.
status 7
! mtc: mirror-take: none.: Absent
$ mirror-take k e
status 7
! mtc: mirror-take: k: Absent
$ mirror-take k s
status 2
! mtc: mirror-take: s: Short 0
$ mirror-tile k
status 7
! mtc: mirror-tile: k: Absent
$ mirror-entries k 0
status 7
! mtc: mirror-entries: k: Absent
$ mirror-advance k l 5
status 7
! mtc: mirror-advance: k: Absent
$ mirror-cosign s l 0 4
status 7
! mtc: mirror-cosign: l: Absent
gone k.tiles
gone l.tiles

# One in the place of the other, and a log's. Where the first is refused the second isn't opened.
file j 6d74632d6a6f75726e616c2f76310a00010000000e010481fd5901000000020000004000
$ mirror-advance m s 5
status 2
! mtc: mirror-advance: m: BadRecord 0
gone s.tiles
gone m.tiles
$ mirror-cosign s j 0 4
status 2
! mtc: mirror-cosign: j: BadRecord 0
left j.tiles
$ mirror-take s e
status 2
! mtc: mirror-take: s: BadRecord 0
$ mirror-tile j
status 2
! mtc: mirror-tile: j: BadRecord 0
$ checkpoint m
status 2
! mtc: checkpoint: m: BadRecord 0
$ export m
status 2
! mtc: export: m: BadRecord 0
$ mirror-cosign s e 0 4
status 2
! mtc: mirror-cosign: e: NotJournal
gone e.tiles
left s FOUNDED ADVANCED 00

# Records that break the rules: none, no item, one less or more than is said, an item with a key
# that isn't its own, a second Mirror, tiles that aren't full, and a record of a log.
file m 6d74632d6a6f75726e616c2f76310a00 00
$ mirror-entries m 0
status 2
! mtc: mirror-entries: m: BadRecord 0
file m 6d74632d6a6f75726e616c2f76310a00 BATCH 00
$ mirror-entries m 0
status 2
! mtc: mirror-entries: m: BadRecord 0
file m STARTED 0100000003 22 0000 00
$ mirror-entries m 0
status 2
! mtc: mirror-entries: m: BadRecord 1
file m STARTED 0100000007 22 0002 00000000 00
$ mirror-advance s m 1
status 2
! mtc: mirror-advance: m: BadRecord 1
file m STARTED BATCH 0100000008 22 0001 00000000 00 00
$ mirror-take m e
status 2
! mtc: mirror-take: m: BadRecord 2
file m STARTED 0100000008 22 0001 0000 0001 00 00
$ mirror-tile m
status 2
! mtc: mirror-tile: m: BadRecord 1
file m STARTED 0100000006 21 0481fd5901 00
$ mirror-entries m 0
status 2
! mtc: mirror-entries: m: BadRecord 1
file m STARTED BATCH 0100000009 04 0000000000000008 00
$ mirror-cosign s m 0 4
status 2
! mtc: mirror-cosign: m: BadRecord 2
file m STARTED 0100000045 06 0008 EIGHT 00
$ mirror-entries m 0
status 2
! mtc: mirror-entries: m: BadRecord 1
file m STARTED BATCH
$ mirror-entries m 0
status 2
! mtc: mirror-entries: m: CutShort 101
"#;

// The leaf hash of an entry of no bytes.
const TILED: &str = r#"
name LEAF 6e340b9cffb37a989ca544e6bb780a2c78901d3fb33738768511a30617afa01d
# The first 256 entries fill a tile. A signature is the same before it is stored and after it.
file e
times 300 00000000
$ mirror-init m 32473.1
| mirror 32473.1
file f
times 256 00000000
$ mirror-take m f
| mirrored 256
file s FOUNDED 00
$ mirror-advance s m 256
| advanced 256
again s
file twin FOUNDED 00
$ mirror-advance twin m 256
| advanced 256
$ mirror-cosign twin m 0 64
> c
$ mirror-tile m
| tiled 256
left m.tiles
times 256 LEAF
left m STARTED 0100000403 22 0100
times 256 00000000
 0100000009 04 0000000000000100 00
$ mirror-cosign s m 0 64
> d
same c d
same s twin
$ mirror-tile m
status 4
! mtc: mirror-tile: NothingNew
$ mirror-take m e
| mirrored 300
$ mirror-tile m
status 4
! mtc: mirror-tile: NothingNew
$ mirror-advance s m 300
| advanced 300
file e
times 512 00000000
$ mirror-take m e
| mirrored 512
$ mirror-tile m
| tiled 512
left m.tiles
times 512 LEAF

# What stands after the tiles means nothing. A file of tiles that is another one is refused.
again m.tiles
 00
$ mirror-entries m 0
again m.tiles
byte 16383 00
$ mirror-entries m 0
status 2
! mtc: mirror-entries: m.tiles: BadTile 0 1
again m.tiles
cut 16383
$ mirror-advance s m 512
status 2
! mtc: mirror-advance: m.tiles: BadTile 0 1
again m.tiles
byte 0 71
$ mirror-cosign s m 0 4
status 2
! mtc: mirror-cosign: m.tiles: BadTile 0 0
file m.tiles
$ mirror-take m e
status 2
! mtc: mirror-take: m.tiles: BadTile 0 0
$ mirror-tile m
status 2
! mtc: mirror-tile: m.tiles: BadTile 0 0
length m.tiles 0
"#;

// An entry is what stands before the hash of its key, the hash, and what stands after it. The keys
// have 65,399, 65,400, 65,404 and 65,405 bytes.
const BOUNDS: &str = r#"
name HEAD 0001a003020102301931173015060a2b0601040182da4b2f010c0733323437332e31301e170d
  3236303130313030303030305a170d3236303130383030303030305a30000420
name TAIL a31b301930170603551d110101ff040d300b8209612e6578616d706c65
# 32,767 items of no bytes are as many as a record holds: a body of 131,071 bytes.
file e
times 65536 00000000
$ mirror-init m 32473.1
| mirror 32473.1
$ mirror-take m e
| mirrored 32767
length m 131104
$ mirror-take m e
| mirrored 65534
$ mirror-take m e
| mirrored 65536
length m 262196
$ mirror-take m e
status 4
! mtc: mirror-take: NothingNew

# Two items make a body of 131,072 bytes, the most; a third one is for the next record.
name TWO 0083 HEAD 847e48c915f070fa0cfa8dad3d366d83ad7349d33c6040aa8bf2114ee7a6b5e2 TAIL
  ff77 3082ff73300506032b65700382ff68
times 65384 00
 0083 HEAD 0688867d2c32b9282f071de0f4be16a327a7c72b74766d2a08dc4024cb5a247a TAIL
  ff78 3082ff74300506032b65700382ff69
times 65385 00
file e TWO 00000000
$ mirror-init n 32473.1
| mirror 32473.1
$ mirror-take n e
| mirrored 2
length n 131105
$ mirror-take n e
| mirrored 3
$ mirror-entries n 2
 TWO

# An item of 65,535 bytes is taken, and one more byte is too large: a record ends before it.
file e 00000000 0083 HEAD 8e2ef16310998fee248e2a2c31ba9bf6e9f8538be500252537fbc73f67c89770 TAIL
  ff7c 3082ff78300506032b65700382ff6d
times 65389 00
 00000000 0083 HEAD 1a4ffcf1fc09bea11339f7d48759c62f6a2fc7a167018169c785280103f49824 TAIL
  ff7d 3082ff79300506032b65700382ff6e
times 65390 00
 00000000
$ mirror-init o 32473.1
| mirror 32473.1
$ mirror-take o e
| mirrored 3
$ mirror-take o e
status 9
! mtc: mirror-take: TooLarge 3
length o 65583
"#;

#[test]
fn a_mirror_takes_a_list(rt: HostRuntime) {
    let outcome = outcome_after(rt.alloc(), NAMES, TAKEN);
    assert!(rt; outcome == Ok(Outcome::Passed(16)), "{outcome:?}");
}

#[test]
fn a_cosigner_signs_through_a_mirror(rt: HostRuntime) {
    let outcome = outcome_after(rt.alloc(), NAMES, SIGNED);
    assert!(rt; outcome == Ok(Outcome::Passed(24)), "{outcome:?}");
}

#[test]
fn files_of_mirrors_are_refused(rt: HostRuntime) {
    let outcome = outcome_after(rt.alloc(), NAMES, FILES);
    assert!(rt; outcome == Ok(Outcome::Passed(24)), "{outcome:?}");
}

#[test]
fn tiles_are_stored_beside_a_mirror(rt: HostRuntime) {
    let outcome = outcome_after(rt.alloc(), NAMES, TILED);
    assert!(rt; outcome == Ok(Outcome::Passed(19)), "{outcome:?}");
}

#[test]
fn bounds_of_a_mirror(rt: HostRuntime) {
    let outcome = outcome_after(rt.alloc(), NAMES, BOUNDS);
    assert!(rt; outcome == Ok(Outcome::Passed(12)), "{outcome:?}");
}
