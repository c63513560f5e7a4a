//! What a cosigner has held.

ghost use Rattle.std.specs.Prelude.{◌≡◌};
ghost use Rattle.cosigner_steps.specs.Steps.{held_by};

use cosigner_core::{Checkpoint, Step};
use tree_core::TreeHash;

/// What a cosigner holds after these steps: the checkpoint of the last Advance, or that of no
/// entries.
pub fn held_by<H: TreeHash>(steps: &[Step]) -> Checkpoint
    ensures { result ≡ held_by H.hash steps.now }
{
    let mut place = steps.len();
    while place > 0 {
        place -= 1;
        if let Step::Advance { size, root, .. } = &steps[place] {
            return Checkpoint {
                size: *size,
                root: *root,
            };
        }
    }
    Checkpoint::empty::<H>()
}
