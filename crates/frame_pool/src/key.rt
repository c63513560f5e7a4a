//! Names of tiles and of frames.

/// A tile of a tree: its level, counted in tiles, and its index on that level.
#[derive(Clone, Copy, PartialEq, Eq, Debug)]
pub struct TileKey {
    pub level: u8,
    pub place: u64,
}

/// A frame of a pool, by its number.
#[derive(Clone, Copy, PartialEq, Eq, Debug)]
pub struct Slot(pub u32);
