//! The size and the tree hash of a list, and what a proof shows of it.

ghost use Rattle.std.specs.Prelude.{◌≡◌, ◌≤◌, true, length};
ghost use Rattle.tree_proofs.specs.Checkpoints.{empty_checkpoint, has_subtree, is_prefix_of};

use crate::check;
use tree_core::TreeHash;

/// The number of entries of a list, and their tree hash.
#[derive(Clone, Copy, Debug)]
pub struct Checkpoint {
    pub size: u64,
    pub root: [u8; 32],
}

impl Checkpoint {
    /// The checkpoint of a list without entries.
    pub fn empty<H: TreeHash>() -> Checkpoint
        ensures { result ≡ empty_checkpoint H.hash }
    {
        Checkpoint {
            size: 0,
            root: H::begin().end(),
        }
    }

    /// Whether the proof checks: that these entries are the first ones of the list that has this
    /// size and root. For no entries it is the proof of no hashes.
    pub fn is_prefix_of<H: TreeHash>(&self, size: u64, root: &[u8; 32], proof: &[[u8; 32]]) -> bool
        ensures exact { result ≡ is_prefix_of H.hash self.now size root.now proof.now }
        ensures short { result ≡ true → length proof.now ≤ 65 }
    {
        if self.size == 0 {
            return proof.is_empty();
        }
        check::<H>(0, self.size, size, &self.root, root, proof).is_ok()
    }

    /// Whether the proof checks: that this is the hash of a subtree of these entries.
    pub fn has_subtree<H: TreeHash>(
        &self,
        start: u64,
        end: u64,
        hash: &[u8; 32],
        proof: &[[u8; 32]],
    ) -> bool
        ensures exact { result ≡ has_subtree H.hash self.now start end hash.now proof.now }
        ensures short { result ≡ true → length proof.now ≤ 65 }
    {
        check::<H>(start, end, self.size, hash, &self.root, proof).is_ok()
    }
}
