//! The tree hash of a list.

ghost use Rattle.std.specs.Prelude.{map};
ghost use Rattle.tree_core.specs.Tree.{leaf_hash};
ghost use Rattle.tree_peaks.specs.Peaks.{ArePeaksOf};

use crate::fold::ItemFold;
use mtc_io::Memory;
use tree_core::{TreeHash, leaf};
use tree_peaks::Peaks;

impl<H: TreeHash> ItemFold for Peaks<H> {
    ghost has_taken = { λ peaks items.
        ArePeaksOf H.TreeHash.hash (map (leaf_hash H.TreeHash.hash) items.entries) peaks };

    ghost purpose = { λ _. tt };

    fn take(&mut self, entry: &[u8], _spki: &[u8]) -> Result<(), Memory> {
        self.push(&leaf::<H>(entry));
        Ok(())
    }
}
