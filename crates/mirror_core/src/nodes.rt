//! The tree over the entries of a mirror.

ghost use Rattle.mirror_core.specs.Words.{MirrorAsksTiles, mirror_leaves, mirror_tiles_disk};
ghost use Rattle.mirror_core.specs.Words.{mirror_view};

use crate::Mirror;
use disk_core::Disk;
use mtc_io::Failed;
use tree_core::TreeHash;
use tree_proofs::Nodes;

/// A mirror is the nodes of the tree over its entries: those of adopted tiles come from the disk of
/// the tiles, and it fails only where that does; the others are in memory, and are made there when
/// one is asked for. No call reaches the disk of the journal, and the mirror shows what it showed
/// before.
impl<H: TreeHash, D: Disk, T: Disk> Nodes for Mirror<H, D, T> {
    ghost use Rattle.mirror_core.specs.Counted.{mirror_leaves_counted};
    ghost use Rattle.mirror_core.specs.Staying.{mirror_asks_alone, mirror_asks_both};

    type H = H;

    ghost leaves = { λ mirror. mirror_leaves mirror };

    ghost count = { λ mirror. (mirror_view mirror).size };

    ghost faults = { λ mirror. T.Disk.faults (mirror_tiles_disk mirror) };

    ghost stays = { λ old new. MirrorAsksTiles old new };

    ghost counted = { λ mirror. mirror_leaves_counted mirror };

    ghost stays_before = { λ mirror.
        mirror_asks_alone mirror (T.Disk.only_now (mirror_tiles_disk mirror)) };

    ghost stays_on = { λ a b c first second. mirror_asks_both a b c first second };

    fn size(&self) -> u64 {
        Mirror::size(self)
    }

    fn node(&mut self, level: u32, place: u64) -> Result<[u8; 32], Failed> {
        self.machine.kept.nodes.tile_node(level, place)
    }
}
