//! The strings that are hashed for two nodes, and nodes beside each other.

ghost use Rattle.std.specs.Prelude.{◌≡◌, IfOk};
ghost use Rattle.collide.specs.Inputs.{pair_input};
ghost use Rattle.quarrel_core.specs.Sizes.{AreFullHashes};
ghost use Rattle.quarrel_core.specs.Joining.{same_pair};

use mtc_io::{Bytes, Memory};
use std::alloc::Global;
use tree_core::PAIR;

// The string that is hashed for two nodes.
pub(crate) fn pair_string(alloc: Global, left: &[u8; 32], right: &[u8; 32]) -> Result<Bytes, Memory>
    ensures { IfOk result (λ text. text ≡ pair_input left.now right.now) }
{
    let mut text = Bytes::copy_of(alloc, &[PAIR])?;
    text.append(left)?;
    text.append(right)?;
    Ok(text)
}

// Two nodes have the same hashes below them.
pub(crate) fn are_same(a: &[u8; 32], b: &[u8; 32], c: &[u8; 32], d: &[u8; 32]) -> bool
    ensures { result ≡ same_pair a.now b.now c.now d.now }
{
    a == c && b == d
}

// The type of a proof makes its hashes as long as hashes are: the clause says it, and the call does
// nothing.
pub(crate) fn law_are_whole(proof: &[[u8; 32]])
    ensures { AreFullHashes proof.now }
{
    let _few = proof.len();
}
