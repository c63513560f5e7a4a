//! The tree over the entries of a log.

ghost use Rattle.issuance_log.specs.Words.{LogAsksTiles, log_leaves, log_tiles_disk, view_of};

use crate::Log;
use disk_core::Disk;
use mtc_io::Failed;
use tree_core::TreeHash;
use tree_proofs::Nodes;

/// A log is the nodes of the tree over its entries: those of adopted tiles come from the disk of
/// the tiles, and it fails only where that does; the others are in memory, and are made there when
/// one is asked for. No call reaches the disk of the journal, and the log shows what it showed
/// before.
impl<H: TreeHash, D: Disk, T: Disk> Nodes for Log<H, D, T> {
    ghost use Rattle.issuance_log.specs.Staying.{asks_alone, asks_both};
    ghost use Rattle.issuance_log.specs.Counted.{leaves_counted};

    type H = H;

    ghost leaves = { λ log. log_leaves log };

    ghost count = { λ log. (view_of log).size };

    ghost faults = { λ log. T.Disk.faults (log_tiles_disk log) };

    ghost stays = { λ old new. LogAsksTiles old new };

    ghost counted = { λ log. leaves_counted log };

    ghost stays_before = { λ log. asks_alone log (T.Disk.only_now (log_tiles_disk log)) };

    ghost stays_on = { λ a b c first second. asks_both a b c first second };

    fn size(&self) -> u64 {
        Log::size(self)
    }

    fn node(&mut self, level: u32, place: u64) -> Result<[u8; 32], Failed> {
        self.machine.items.nodes.tile_node(level, place)
    }
}
