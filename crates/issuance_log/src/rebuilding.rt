//! The tiles of a log's last size, written again over a file that is lost, cut or changed.

ghost use Rattle.std.specs.Prelude.{◌≡◌, ◌%◌, ◌≤◌, ℕ, Ok, Err, MatchResult, OnOk};
ghost use Rattle.disk_core.specs.Times.{OnlyReads};
ghost use Rattle.frame_pool.specs.Frames.{HoldsKey};
ghost use Rattle.frame_pool.specs.declared.key.TileKey.{TileKey as Key};
ghost use Rattle.mtc_io.specs.Counts.{HasCause};
ghost use Rattle.tile_store.specs.Calls.{RenewsTiles, TilesAreRenewed};
ghost use Rattle.tile_store.specs.Store.{tiles_count, tiles_disk};
ghost use Rattle.issuance_log.specs.Rebuilt.{LeavesRebuilt, tiles_failed};

use crate::error::{LogOpenError, LogRefused};
use crate::log::not_opened;
use crate::machine::{LogMachine, TileSeed};
use disk_core::Disk;
use frame_pool::Pool;
use mtc_io::Failed;
use state_journal::open_state;
use std::alloc::Global;
use tile_store::{TileError, Tiles};
use tree_core::TreeHash;

/// What came of writing the tiles of a log again. Both disks are returned.
#[derive(Debug, Drop)]
pub struct Rebuilt<D, T> {
    pub disk: D,
    pub tiles: T,
    pub answer: Result<u64, LogOpenError>,
}

// Writes the tiles of so many leaves again. Without leaves no disk is called.
fn renew<H: TreeHash, T: Disk>(nodes: &mut Tiles<H, T>, size: u64) -> Result<(), Failed>
    requires multiple { size % 256 ≡ 0 }
    requires within { size ≤ tiles_count nodes.old }
    ensures count { tiles_count nodes.new ≡ tiles_count nodes.old }
    ensures none { size ≡ 0 → nodes.new ≡ nodes.old }
    ensures renews { RenewsTiles size nodes.old nodes.new }
    ensures renewed { OnOk result (TilesAreRenewed size nodes.old nodes.new) }
    ensures cause { HasCause (T.faults (tiles_disk nodes.old)) (T.faults (tiles_disk nodes.new))
        result }
{
    if size == 0 {
        return Ok(());
    }
    nodes.renew(size)
}

// What is answered once the tiles of this size were written again, or their disk failed.
fn answer_of(size: u64, renewed: Result<(), Failed>) -> Result<u64, LogOpenError>
    ensures { MatchResult renewed (λ _. result ≡ Ok size) (λ _. result ≡ Err tiles_failed) }
{
    match renewed {
        Ok(()) => Ok(size),
        Err(Failed) => Err(LogOpenError::Tile(TileError::Failed)),
    }
}

/// Writes the tiles of a log's last size again, from the first one on that their disk doesn't have,
/// and makes them durable: where it has all of them nothing is written. The journal and the tiles
/// are read as [`Log::open`](crate::Log::open) does, with a pool whose frames hold no tile. Answers
/// that size, 0 where the journal has no size of tiles: then nothing is written.
///
/// Errors: what `Log::open` refuses, but for a bad tile; and `Tile(Failed)` where the disk of the
/// tiles fails while they are written. The disk of the journal was only read. At any time a crash
/// leaves what it might have left of the tiles before, but for what follows the start of the first
/// bad one.
pub fn rebuild_tiles<H: TreeHash, D: Disk, T: Disk>(
    alloc: Global,
    disk: D,
    tiles: T,
    pool: Pool,
) -> Rebuilt<D, T>
    requires { (slot : ℕ) (key : Key) → HoldsKey pool slot key → ⊥ }
    ensures only_reads { OnlyReads D.Disk disk result.disk }
    ensures left { LeavesRebuilt D.Disk T.Disk H.hash disk result.disk tiles result.tiles
        result.answer }
{
    let seed = TileSeed { disk: tiles, pool };
    let (journal, mut machine) = match open_state::<LogMachine<H, T>, D>(alloc, disk, seed) {
        Ok(opened) => opened,
        Err(refused) => {
            let LogRefused { disk, tiles, why } = not_opened(refused);
            return Rebuilt {
                disk,
                tiles,
                answer: Err(why),
            };
        }
    };
    let size = machine.numbers.tiled();
    let renewed = renew(&mut machine.items.nodes, size);
    Rebuilt {
        disk: journal.into_disk(),
        tiles: machine.into_disk(),
        answer: answer_of(size, renewed),
    }
}
