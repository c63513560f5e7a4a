//! The command `tile`: the tiles that the entries of a log fill are stored.

ghost use Rattle.std.specs.Prelude.{◌≡◌, ◌/◌, ◌*◌};
ghost use Rattle.mtc_command.specs.Answers.{ending_of, stop_ending};
ghost use Rattle.mtc_authority.specs.StoredTiles.{StoresLog};
ghost use Rattle.mtc_authority.specs.TileOutcome.{MayRefuseTiles, tile_says, tiles_ending};
ghost use Rattle.mtc_authority.specs.Works.{HasWorkedOnLog, IsReadyLog, StaysLog};

use disk_core::Disk;
use issuance_log::{Log, LogError};
use journal_core::AppendError;
use mtc_command::{Answer, Reason, Said, Stop, Stopped, refuse};
use mtc_tiled::text_of_tiles;
use std::alloc::Global;
use tree_core::TreeHash;

// A full tile of the lowest level has the hashes of so many entries.
const TILE: u64 = 256;

// Why a log that was opened just now stores no tiles.
fn refuse_tiles<'a>(journal: &'a str, why: LogError) -> Stop<'a>
    requires { MayRefuseTiles why }
    ensures { stop_ending result ≡ tiles_ending journal.now why }
{
    match why {
        LogError::NothingNew => refuse(Stopped::NotAllowed, Reason::named("NothingNew")),
        LogError::Append(AppendError::Full) => {
            refuse(Stopped::Beyond, Reason::named("JournalFull"))
        }
        LogError::Append(AppendError::Failed) => Stop::Room(journal),
        LogError::Failed => Stop::Tiles(journal),
        LogError::Memory => Stop::Memory,
        _ => unreachable!(),
    }
}

/// The work of `tile J`. The text is made before the tiles are stored, so that nothing takes memory
/// after the append. What is then left has the tiles that go with its records: those of the last
/// size, and those of the new one if its record is there.
pub fn tile_on<'a, H: TreeHash, D: Disk>(
    alloc: Global,
    journal: &'a str,
    log: &mut Log<H, D, D>,
) -> Result<Answer, Stop<'a>>
    requires { IsReadyLog log.old }
    ensures works { HasWorkedOnLog journal.now tile_says log.old log.new (ending_of result) }
    ensures valid { StaysLog H.hash tile_says log.old log.new }
    ensures stores { StoresLog tile_says log.old log.new }
{
    log.law_unrefused_records_are_taken();
    let text = text_of_tiles(alloc, log.size() / TILE * TILE)?;
    match log.tile() {
        Ok(_size) => Ok(Answer {
            status: Said::Done,
            text,
        }),
        Err(why) => Err(refuse_tiles(journal, why)),
    }
}
