//! Stops of the commands of a mirror, at each call of a device that changes a file.

use crate::stops::wrong_stop;

// A new mirror takes the list if it is there.
const NEW_MIRROR: &str = "
run mirror-init n 32473.1
device n
journal n
old HEADER
record MIRROR
ask mirror-take n e
after| mirrored 8
stops 0 0 0 8
then 16
";

// What is left is asked to take the list once more.
const TAKE: &str = "
run mirror-take m e
device m
journal m
mirror 32473.1
old HEADER MIRROR
record BATCH_8
ask mirror-take m e
before| mirrored 8
after! mtc: mirror-take: NothingNew
stops 0 0 0 0 8
then 16
";

// 512 entries without a byte, of which 256 fill a tile that is stored.
const TILE: &str = "
run mirror-tile m
device m
journal m
mirror 32473.1
tiled HEADER MIRROR 0100000403220100 256*00000000
old HEADER MIRROR 0100000403220100 256*00000000 TILED_256 0100000403220100 256*00000000
record TILED_512
ask mirror-tile m
before| tiled 512
after! mtc: mirror-tile: NothingNew
stops 0 0 0
";

// The same, from the commit byte on.
const TILE_COMMIT: &str = "
run mirror-tile m
device m
journal m
mirror 32473.1
tiled HEADER MIRROR 0100000403220100 256*00000000
old HEADER MIRROR 0100000403220100 256*00000000 TILED_256 0100000403220100 256*00000000
record TILED_512
ask mirror-tile m
before| tiled 512
after! mtc: mirror-tile: NothingNew
from 3
stops 0 8
then 16
";

// The same from the beginning, where the file of the tiles stops: synced, written and synced.
const TILES: &str = "
run mirror-tile m
device m.tiles
journal m
mirror 32473.1
tiled HEADER MIRROR 0100000403220100 256*00000000
old HEADER MIRROR 0100000403220100 256*00000000 TILED_256 0100000403220100 256*00000000
record TILED_512
ask mirror-entries m 512
before 00000000
after 00000000
stops 0 0 0
then 16
";

// The cosigner's journal gets the record.
const ADVANCE: &str = "
run mirror-advance s m 5
device s
journal s
old HEADER COSIGNER
record 01 ADVANCE_5
ask mirror-advance s m 5
before| advanced 5
after! mtc: mirror-advance: NotNewer 5
stops 0 0 0 0 8
then 16
";

// The mirror's journal is synced when it is opened, and stops there.
const ADVANCE_BY: &str = "
run mirror-advance s m 5
device m
journal s
old HEADER COSIGNER
record 01 ADVANCE_5
ask mirror-advance s m 5
before| advanced 5
after! mtc: mirror-advance: NotNewer 5
stops 0
then 16
";

const COSIGN: &str = "
run mirror-cosign s m 0 4
device s
journal s
old HEADER COSIGNER 01 ADVANCE_5
record 01 SIGN_4
ask mirror-advance s m 5
before! mtc: mirror-advance: NotNewer 5
after! mtc: mirror-advance: NotNewer 5
stops 0 0 0 0 8
then 16
";

// The signature that comes next is by the key after those of the records.
const COSIGN_AGAIN: &str = "
run mirror-cosign s m 0 4
device s
journal s
old HEADER COSIGNER 01 ADVANCE_5
record 01 SIGN_4
ask mirror-cosign s m 0 4
before 0481fd590221f0 00000000 00000000
after 0481fd590221f0 00000000 00000001
from 4
stops 8
";

#[test]
fn a_new_mirror_stops(rt: HostRuntime) {
    let wrong = wrong_stop(rt.alloc(), NEW_MIRROR);
    assert!(rt; wrong == None, "{wrong:?}");
}

#[test]
fn a_mirror_that_takes_a_list_stops(rt: HostRuntime) {
    let wrong = wrong_stop(rt.alloc(), TAKE);
    assert!(rt; wrong == None, "{wrong:?}");
}

#[test]
fn a_mirror_that_stores_its_tiles_stops(rt: HostRuntime) {
    for case in [TILE, TILE_COMMIT] {
        let wrong = wrong_stop(rt.alloc(), case);
        assert!(rt; wrong == None, "{wrong:?}");
    }
}

#[test]
fn tiles_of_a_mirror_stop(rt: HostRuntime) {
    let wrong = wrong_stop(rt.alloc(), TILES);
    assert!(rt; wrong == None, "{wrong:?}");
}

#[test]
fn an_advance_by_a_mirror_stops(rt: HostRuntime) {
    for case in [ADVANCE, ADVANCE_BY] {
        let wrong = wrong_stop(rt.alloc(), case);
        assert!(rt; wrong == None, "{wrong:?}");
    }
}

#[test]
fn a_cosignature_by_a_mirror_stops(rt: HostRuntime) {
    for case in [COSIGN, COSIGN_AGAIN] {
        let wrong = wrong_stop(rt.alloc(), case);
        assert!(rt; wrong == None, "{wrong:?}");
    }
}
