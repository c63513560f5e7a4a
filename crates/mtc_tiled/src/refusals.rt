//! Why a journal isn't opened with its tiles, and the line of tiles that were stored.

ghost use Rattle.std.specs.Prelude.{◌≡◌, IfOk};
ghost use Rattle.mtc_command.specs.Answers.{stop_ending};
ghost use Rattle.mtc_tiled.specs.BadTiles.{tiled_line};
ghost use Rattle.mtc_tiled.specs.Endings.{journal_open_ending, tiles_open_ending};

use journal_core::OpenError;
use mtc_command::{Reason, Stop, Stopped, refuse_file};
use mtc_io::{Bytes, Memory};
use std::alloc::Global;
use tile_store::TileError;

/// Why a file isn't read as a journal.
pub fn refuse_open<'a>(journal: &'a str, why: OpenError) -> Stop<'a>
    ensures { stop_ending result ≡ journal_open_ending journal.now why }
{
    let bad = Stopped::BadForm;
    match why {
        OpenError::NotJournal => refuse_file(bad, journal, Reason::named("NotJournal")),
        OpenError::BadLength(offset) => {
            refuse_file(bad, journal, Reason::with_number("BadLength", offset))
        }
        OpenError::CutShort(offset) => {
            refuse_file(bad, journal, Reason::with_number("CutShort", offset))
        }
        OpenError::Failed => Stop::Room(journal),
        OpenError::Memory => Stop::Memory,
    }
}

/// Why the tiles of a journal aren't adopted.
pub fn refuse_tiles<'a>(journal: &'a str, why: TileError) -> Stop<'a>
    ensures { stop_ending result ≡ tiles_open_ending journal.now why }
{
    match why {
        TileError::Failed => Stop::Tiles(journal),
        TileError::BadTile { level, place } => Stop::BadTile {
            journal,
            level,
            place,
        },
    }
}

/// The line of tiles up to this size.
pub fn text_of_tiles(alloc: Global, size: u64) -> Result<Bytes, Memory>
    ensures { IfOk result (λ text. text ≡ tiled_line size) }
{
    Ok(Bytes::from_vec(format!(in alloc; "tiled {size}\n")?.into_bytes()))
}
