//! A list of leaf hashes as nodes.

ghost use Rattle.std.specs.Prelude.{◌≡◌, ◌+◌, ◌-◌, ◌*◌, ◌^◌, ◌<◌, ◌≤◌, [], ◌∷◌, ◌++◌, length, Some};
ghost use Rattle.std.specs.Prelude.{refl, vec_len, vec_capacity, OnOk, OnErr};
ghost use Rattle.std.proofs.Common.{◌∙◌};
ghost use Rattle.tree_core.specs.Path.{part_of};
ghost use Rattle.tree_core.specs.Tree.{root_of};
ghost use Rattle.tree_proofs.specs.Listed.{ListedLeaves};

use crate::Nodes;
use crate::tree::root_over;
use mtc_io::{Failed, Memory};
use std::alloc::Global;
use std::marker::{Model, PhantomData};
use tree_core::TreeHash;

/// A list of leaf hashes as nodes, which computes the hash of a full subtree each time it is asked
/// for, in time that grows with its size. It never fails.
///
/// Contracts see the leaf hashes and a number of spare leaves: so many more need no memory.
#[derive(Drop)]
pub struct Listed<H: TreeHash> {
    items: Vec<[u8; 32]>,
    function: PhantomData<H>,
}

impl<H: TreeHash> Model for Listed<H> {
    ghost Value = { ListedLeaves };

    ghost view = { λ l.
        record { leaves = l.items.items; spare = vec_capacity l.items - vec_len l.items } };
}

impl<H: TreeHash> Listed<H> {
    /// No leaves. It takes no memory.
    pub fn new(alloc: Global) -> Listed<H>
        ensures { result.leaves ≡ [] }
    {
        Listed {
            items: Vec::new(alloc),
            function: PhantomData,
        }
    }

    /// Reserves capacity for at least `count` more leaves. It is refused only where fewer are
    /// spare. The list stays as it was, whether the call is refused or not.
    pub fn reserve(&mut self, count: usize) -> Result<(), Memory>
        ensures list { self.new.leaves ≡ self.old.leaves }
        ensures spare { OnOk result (count ≤ self.new.spare) }
        ensures kept { self.old.spare ≤ self.new.spare }
        ensures full { OnErr result (self.old.spare < count) }
    {
        self.items.reserve(count)?;
        Ok(())
    }

    /// Appends a leaf hash to the others. It is refused only where no spare leaf is left, and
    /// leaves the list as it was then.
    pub fn push(&mut self, leaf: &[u8; 32]) -> Result<(), Memory>
        ensures ok { OnOk result (self.new.leaves ≡ self.old.leaves ++ leaf.now ∷ []) }
        ensures spare { self.old.spare ≤ self.new.spare + 1 }
        ensures err { OnErr result (self.new.leaves ≡ self.old.leaves) }
        ensures full { OnErr result (self.old.spare ≡ 0) }
    {
        self.items.push(*leaf)?;
        Ok(())
    }

    /// The hash of the `2^level` leaves from `place * 2^level` on. It takes no memory.
    pub fn node_at(&self, level: u32, place: u64) -> [u8; 32]
        requires { (place + 1) * 2 ^ level ≤ length self.now.leaves }
        ensures { result ≡ root_of H.hash
            (part_of self.now.leaves (place * 2 ^ level) ((place + 1) * 2 ^ level)) }
    {
        let leaves = self.items.as_slice();
        let from = (place << level) as usize;
        let to = from + (1 << level);
        root_over::<H>(&leaves[from..to])
    }
}

impl<H: TreeHash> Nodes for Listed<H> {
    type H = H;

    ghost leaves = { λ l. Some l.leaves };

    ghost count = { λ l. length l.leaves };

    ghost faults = { λ _. 0 };

    ghost stays = { λ old new. new ≡ old };

    ghost counted = { λ _. refl };

    ghost stays_before = { λ _. refl };

    ghost stays_on = { λ _ _ _ first second. second ∙ first };

    fn size(&self) -> u64 {
        self.items.len() as u64
    }

    fn node(&mut self, level: u32, place: u64) -> Result<[u8; 32], Failed> {
        Ok(self.node_at(level, place))
    }
}
