//! The tree over the entries of a journal of items.

ghost use Rattle.tiled_items.specs.Words.{TiledAsksTiles, tiled_leaves, tiled_tiles_disk};
ghost use Rattle.tiled_items.specs.Words.{tiled_view};

use crate::rules::ItemRules;
use crate::tiled::TiledItems;
use disk_core::Disk;
use mtc_io::Failed;
use tree_core::TreeHash;
use tree_proofs::Nodes;

/// It is the nodes of the tree over its entries: those of adopted tiles come from the disk of the
/// tiles, and it fails only where that does; the others are in memory, and are made there when one
/// is asked for. No call reaches the disk of the journal, and it shows what it showed before.
impl<R: ItemRules, H: TreeHash, D: Disk, T: Disk> Nodes for TiledItems<R, H, D, T> {
    ghost use Rattle.tiled_items.specs.Staying.{tiled_asks_alone, tiled_asks_both};
    ghost use Rattle.tiled_items.specs.Staying.{tiled_leaves_counted};

    type H = H;

    ghost leaves = { λ it. tiled_leaves it };

    ghost count = { λ it. R.size (tiled_view it) };

    ghost faults = { λ it. T.Disk.faults (tiled_tiles_disk it) };

    ghost stays = { λ old new. TiledAsksTiles old new };

    ghost counted = { λ it. tiled_leaves_counted it };

    ghost stays_before = { λ it. tiled_asks_alone it (T.Disk.only_now (tiled_tiles_disk it)) };

    ghost stays_on = { λ a b c first second. tiled_asks_both a b c first second };

    fn size(&self) -> u64 {
        TiledItems::size(self)
    }

    fn node(&mut self, level: u32, place: u64) -> Result<[u8; 32], Failed> {
        self.machine.held.nodes.tile_node(level, place)
    }
}
