//! Whether a list begins with what a cosigner has held.

ghost use Rattle.std.specs.Prelude.{◌↔◌, IsTrue};
ghost use Rattle.cosigner_steps.specs.Steps.{HasPrefix};

use cosigner_core::Checkpoint;
use tree_core::TreeHash;
use tree_proofs::{EntryList, list_hash};

/// Whether a list begins with the entries of a checkpoint: it has as many, and their tree hash is
/// the root.
pub fn has_prefix<H: TreeHash, L: EntryList>(entries: &L, held: &Checkpoint) -> bool
    ensures { IsTrue result ↔ HasPrefix H.hash (L.texts entries.now) held.now }
{
    if held.size > entries.len() as u64 {
        return false;
    }
    list_hash::<H, L>(&entries.prefix(held.size as usize)) == held.root
}
