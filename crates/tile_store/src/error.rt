//! Refusals of tiles.

ghost use Rattle.std.specs.Prelude.{◌≡◌};
ghost use Rattle.tile_store.specs.declared.error.TileError.TheVariants.{Failed as TileFailed};

use mtc_io::Failed;
use std::error::Error;
use std::fmt;

/// Why tiles are not adopted.
#[derive(Clone, Copy, PartialEq, Eq, Debug)]
pub enum TileError {
    /// A call of the device failed.
    Failed,
    /// The file ends before the end of this tile, or has other hashes there.
    BadTile { level: u8, place: u64 },
}

impl fmt::Display for TileError {
    ghost use Rattle.std.specs.Prelude.{Some};
    ghost use Rattle.tile_store.specs.Reasons.{tile_fault_text};

    ghost output = { λ why. Some (tile_fault_text why) };

    fn fmt<W: fmt::Write>(&self, f: &mut fmt::Formatter<W>) -> fmt::Result {
        match self {
            TileError::Failed => f.write_str("Failed"),
            TileError::BadTile { level, place } => write!(f, "BadTile {level} {place}"),
        }
    }
}

impl Error for TileError {}

impl From<Failed> for TileError {
    ghost from_gives = { λ _ e. e ≡ TileFailed };

    fn from(_: Failed) -> TileError {
        TileError::Failed
    }
}
