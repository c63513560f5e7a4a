//! A list of leaf hashes with all its nodes.

ghost use Rattle.std.specs.Prelude.{◌≡◌, ◌+◌, ◌-◌, ◌*◌, ◌^◌, ◌<◌, ◌≤◌, [], ◌∷◌, ◌++◌, length, Some};
ghost use Rattle.std.specs.Prelude.{refl, OnOk, OnErr};
ghost use Rattle.std.proofs.Common.{◌∙◌};
ghost use Rattle.tree_cache.specs.Cached.{AreFulls, CachedLeaves};
ghost use Rattle.tree_cache.specs.Rows.{AreAllOf, first_row, spare_of};
ghost use Rattle.tree_core.specs.Path.{part_of};
ghost use Rattle.tree_core.specs.Tree.{root_of};

use crate::kept::Rows;
use mtc_io::{Failed, Memory};
use std::alloc::Global;
use std::marker::{Model, PhantomData};
use tree_core::TreeHash;
use tree_proofs::{Nodes, node_of};

/// A list of leaf hashes as nodes, which stores the hash of each full subtree: it makes it when its
/// last leaf comes, and then looks it up. It never fails.
///
/// Contracts see the leaf hashes and a number of spare leaves: so many more need no memory.
#[derive(Drop)]
pub struct Cache<H: TreeHash> {
    rows: Rows,
    function: PhantomData<H>,
}

impl<H: TreeHash> Model for Cache<H> {
    ghost Value = { CachedLeaves };

    ghost view = { λ c. record { leaves = first_row c.rows; spare = spare_of c.rows } };

    ghost invariant = { λ c. AreAllOf H.TreeHash.hash (first_row c.rows) c.rows };
}

impl<H: TreeHash> Cache<H> {
    /// No leaves. It takes no memory.
    pub fn new(alloc: Global) -> Cache<H>
        ensures { result.leaves ≡ [] }
    {
        Cache {
            rows: Rows::new(alloc),
            function: PhantomData,
        }
    }

    /// How many leaves there are.
    pub fn len(&self) -> u64
        ensures { result ≡ length self.now.leaves }
    {
        self.rows.count()
    }

    /// Reserves capacity for at least `count` more leaves. It is refused only where fewer are
    /// spare. The list stays as it was, whether the call is refused or not.
    pub fn reserve(&mut self, count: usize) -> Result<(), Memory>
        ensures list { self.new.leaves ≡ self.old.leaves }
        ensures spare { OnOk result (count ≤ self.new.spare) }
        ensures kept { self.old.spare ≤ self.new.spare }
        ensures full { OnErr result (self.old.spare < count) }
    {
        self.rows.reserve(count)
    }

    /// Appends a leaf hash to the others. It is refused only where no spare leaf is left, and
    /// leaves the list as it was then.
    pub fn push(&mut self, leaf: &[u8; 32]) -> Result<(), Memory>
        ensures ok { OnOk result (self.new.leaves ≡ self.old.leaves ++ leaf.now ∷ []) }
        ensures spare { self.old.spare ≤ self.new.spare + 1 }
        ensures err { OnErr result (self.new.leaves ≡ self.old.leaves) }
        ensures full { OnErr result (self.old.spare ≡ 0) }
    {
        self.reserve(1)?;
        self.rows.push(leaf);
        let size = self.rows.count();
        self.rows.fill::<H>(size);
        Ok(())
    }

    /// The hashes of all full subtrees of `2^level` leaves, in their order; none where the list is
    /// shorter than that.
    pub fn row(&self, level: u32) -> &[[u8; 32]]
        ensures { AreFulls H.hash level self.now.leaves result.now }
    {
        self.rows.row(level)
    }

    /// The hash of the `2^level` leaves from `place * 2^level` on. It hashes nothing.
    pub fn node_at(&self, level: u32, place: u64) -> [u8; 32]
        requires { (place + 1) * 2 ^ level ≤ length self.now.leaves }
        ensures { result ≡ root_of H.hash
            (part_of self.now.leaves (place * 2 ^ level) ((place + 1) * 2 ^ level)) }
    {
        self.row(level)[place as usize]
    }

    /// The root over all leaves; the hash of no bytes where there is none.
    pub fn root(&self) -> [u8; 32]
        ensures { result ≡ root_of H.hash self.now.leaves }
    {
        let mut nodes = self;
        let size = nodes.size();
        if size == 0 {
            return H::begin().end();
        }
        match node_of(&mut nodes, 0, size) {
            Ok(root) => root,
            Err(Failed) => unreachable!(),
        }
    }
}

impl<H: TreeHash> Nodes for Cache<H> {
    type H = H;

    ghost leaves = { λ c. Some c.leaves };

    ghost count = { λ c. length c.leaves };

    ghost faults = { λ _. 0 };

    ghost stays = { λ old new. new ≡ old };

    ghost counted = { λ _. refl };

    ghost stays_before = { λ _. refl };

    ghost stays_on = { λ _ _ _ first second. second ∙ first };

    fn size(&self) -> u64 {
        self.len()
    }

    fn node(&mut self, level: u32, place: u64) -> Result<[u8; 32], Failed> {
        Ok(self.node_at(level, place))
    }
}

// A borrowed cache gives its nodes too.
impl<H: TreeHash> Nodes for &Cache<H> {
    type H = H;

    ghost leaves = { λ c. Some c.now.leaves };

    ghost count = { λ c. length c.now.leaves };

    ghost faults = { λ _. 0 };

    ghost stays = { λ old new. new ≡ old };

    ghost counted = { λ _. refl };

    ghost stays_before = { λ _. refl };

    ghost stays_on = { λ _ _ _ first second. second ∙ first };

    fn size(&self) -> u64 {
        self.len()
    }

    fn node(&mut self, level: u32, place: u64) -> Result<[u8; 32], Failed> {
        Ok(self.node_at(level, place))
    }
}
