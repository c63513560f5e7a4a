//! The nodes of a tree, filled from the leaves to the root.

ghost use Rattle.std.specs.Prelude.{◌≡◌, ◌*◌, ◌^◌, length};
ghost use Rattle.lms_core.specs.Heights.{IsSigningHeight, height};
ghost use Rattle.lms_core.specs.Held.{HoldsFrom};

use crate::nodes::inner_node;
use crate::private_key::PrivateKey;

// Fills the indices of the leaves.
pub fn fill_leaves(key: &PrivateKey, leaves: u32, nodes: &mut [[u8; 32]])
    requires signs { IsSigningHeight key.now.lms }
    requires leaves { leaves ≡ 2 ^ height key.now.lms }
    requires count { length nodes.old ≡ 2 * leaves }
    ensures { HoldsFrom key.now leaves nodes.new }
{
    for q in 0..leaves {
        nodes[(leaves + q) as usize] = key.leaf(q);
    }
}

// Fills the indices above the leaves, from the lowest level to the root.
pub fn fill_inner(key: &PrivateKey, leaves: u32, nodes: &mut [[u8; 32]])
    requires signs { IsSigningHeight key.now.lms }
    requires leaves { leaves ≡ 2 ^ height key.now.lms }
    requires count { length nodes.old ≡ 2 * leaves }
    requires below { HoldsFrom key.now leaves nodes.old }
    ensures { HoldsFrom key.now 1 nodes.new }
{
    for step in 1..leaves {
        let place = leaves - step;
        let left = nodes[2 * place as usize];
        let right = nodes[2 * place as usize + 1];
        nodes[place as usize] = inner_node(&key.id, place, &left, &right);
    }
}
