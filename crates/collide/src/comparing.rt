//! The hashes of one node by two computations, beside each other.

ghost use Rattle.std.specs.Prelude.{◌≡◌, ◌↔◌, [], ◌∷◌, IfOk, IsTrue};
ghost use Rattle.tree_core.specs.Tree.{leaf_hash, pair_hash};
ghost use Rattle.collide.specs.Comparison.{Compares};
ghost use Rattle.collide.specs.Inputs.{leaf_input, pair_input};

use mtc_io::Bytes;
use std::alloc::Global;
use tree_core::{LEAF, PAIR, TreeHash, leaf, pair};

// The hashes of one node by two computations.
#[derive(Clone, Copy)]
pub(crate) struct Roots {
    pub(crate) first: [u8; 32],
    pub(crate) second: [u8; 32],
}

// Why two computations are compared no further.
#[derive(Drop)]
pub(crate) enum Halt {
    // These two strings differ and have one hash.
    Found(Bytes, Bytes),
    Memory,
}

impl From<mtc_io::Memory> for Halt {
    ghost use Rattle.collide.specs.declared.comparing.Halt.TheVariants.{Memory};

    ghost from_gives = { λ _ halt. halt ≡ Memory };

    fn from(_full: mtc_io::Memory) -> Halt {
        Halt::Memory
    }
}

// The string that is hashed for an entry.
fn leaf_string(alloc: Global, entry: &[u8]) -> Result<Bytes, mtc_io::Memory>
    ensures { IfOk result (λ text. text ≡ leaf_input entry.now) }
{
    let mut text = Bytes::copy_of(alloc, &[LEAF])?;
    text.append(entry)?;
    Ok(text)
}

// The string that is hashed for two nodes.
fn pair_string(alloc: Global, left: &[u8; 32], right: &[u8; 32]) -> Result<Bytes, mtc_io::Memory>
    ensures { IfOk result (λ text. text ≡ pair_input left.now right.now) }
{
    let mut text = Bytes::copy_of(alloc, &[PAIR])?;
    text.append(left)?;
    text.append(right)?;
    Ok(text)
}

// The leaf hashes of two entries.
pub(crate) fn compare_leaves<H: TreeHash>(
    alloc: Global,
    first: &[u8],
    second: &[u8],
) -> Result<Roots, Halt>
    ensures { Compares H.hash (first.now ≡ second.now)
        (leaf_hash H.hash first.now) (leaf_hash H.hash second.now)
        (leaf_input first.now ∷ []) (leaf_input second.now ∷ []) result }
{
    let roots = Roots {
        first: leaf::<H>(first),
        second: leaf::<H>(second),
    };
    if roots.first != roots.second || first == second {
        return Ok(roots);
    }
    Err(Halt::Found(leaf_string(alloc, first)?, leaf_string(alloc, second)?))
}

// Whether the nodes below two nodes have the same hashes.
fn are_same(left: &Roots, right: &Roots) -> bool
    ensures { IsTrue result
        ↔ ((left.now.first ≡ left.now.second) × (right.now.first ≡ right.now.second)) }
{
    left.first == left.second && right.first == right.second
}

// The hashes of a node, by those of the nodes below it.
pub(crate) fn compare_pairs<H: TreeHash>(
    alloc: Global,
    left: &Roots,
    right: &Roots,
) -> Result<Roots, Halt>
    ensures { Compares H.hash
        ((left.now.first ≡ left.now.second) × (right.now.first ≡ right.now.second))
        (pair_hash H.hash left.now.first right.now.first)
        (pair_hash H.hash left.now.second right.now.second)
        (pair_input left.now.first right.now.first ∷ [])
        (pair_input left.now.second right.now.second ∷ []) result }
{
    let roots = Roots {
        first: pair::<H>(&left.first, &right.first),
        second: pair::<H>(&left.second, &right.second),
    };
    if roots.first != roots.second || are_same(left, right) {
        return Ok(roots);
    }
    Err(Halt::Found(
        pair_string(alloc, &left.first, &right.first)?,
        pair_string(alloc, &left.second, &right.second)?,
    ))
}
