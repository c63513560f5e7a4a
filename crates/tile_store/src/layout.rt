//! Where tiles stand in their file.

ghost use Rattle.std.specs.Prelude.{◌≡◌, ◌↔◌, ◌+◌, ◌*◌, ◌^◌, ◌<◌, ◌≤◌, IsTrue};
ghost use Rattle.tile_store.specs.Layout.{IsFull, tile_at, tile_level, tile_number, tile_offset};
ghost use Rattle.tile_store.specs.Layout.{tiles_in};

use frame_pool::TileKey;

// The bytes of a tile.
pub(crate) const TILE: u64 = 8192;

// The tiles of each level within one of level 2, those of level 0 with the one above them, and
// within one of level 1.
const CYCLE: u64 = 65793;

const ROUND: u64 = 257;

// The number of a tile.
pub(crate) fn number_of(key: TileKey) -> u64
    requires low { key.level ≤ 2 }
    requires few { key.place < 2 ^ 24 }
    ensures number { result ≡ tile_number key.level key.place }
    ensures few { result < 2 ^ 41 }
{
    let place = key.place;
    match key.level {
        0 => place + place / 256 + place / 65536,
        1 => 256 * (place + 1) + place + place / 256,
        _ => 65792 * (place + 1) + place,
    }
}

// Where the bytes of a tile begin.
pub(crate) fn offset_of(key: TileKey) -> u64
    requires low { key.level ≤ 2 }
    requires few { key.place < 2 ^ 24 }
    ensures { result ≡ tile_at key.level key.place }
{
    TILE * number_of(key)
}

// The tile of a number.
pub(crate) fn tile_with(number: u64) -> TileKey
    requires { number < 2 ^ 32 }
    ensures low { result.level ≤ 2 }
    ensures number { tile_number result.level result.place ≡ number }
{
    let (cycle, rest) = (number / CYCLE, number % CYCLE);
    let (round, last) = (rest / ROUND, rest % ROUND);
    if rest == CYCLE - 1 {
        TileKey {
            level: 2,
            place: cycle,
        }
    } else if last == ROUND - 1 {
        TileKey {
            level: 1,
            place: 256 * cycle + round,
        }
    } else {
        TileKey {
            level: 0,
            place: 65536 * cycle + 256 * round + last,
        }
    }
}

// How many tiles the first so many leaves fill.
pub(crate) fn count_tiles(size: u64) -> u64
    ensures { result ≡ tiles_in size }
{
    size / 256 + size / 65536 + size / 16777216
}

// Whether the first so many leaves fill the tile.
pub(crate) fn is_full(size: u64, key: TileKey) -> bool
    requires { size < 2 ^ 32 }
    ensures { IsTrue result ↔ IsFull size key.level key.place }
{
    match key.level {
        0 => key.place < size / 256,
        1 => key.place < size / 65536,
        2 => key.place < size / 16777216,
        _ => false,
    }
}

// The tile of a node.
pub(crate) fn tile_of(level: u32, place: u64) -> TileKey
    requires { level < 64 }
    ensures level { result.level ≡ tile_level level }
    ensures place { result.place ≡ tile_offset level place }
{
    TileKey {
        level: (level / 8) as u8,
        place: place >> (8 - level % 8),
    }
}
