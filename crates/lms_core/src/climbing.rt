//! The path of a leaf, and the way up along it.

ghost use Rattle.std.specs.Prelude.{◌≡◌, ◌+◌, ◌*◌, ◌<◌, ◌≤◌, ◌^◌, ◌++◌, length};
ghost use Rattle.lmots_core.specs.Strings.{concatenated};
ghost use Rattle.lms_core.specs.Heights.{height};
ghost use Rattle.lms_core.specs.Held.{HoldsNodes};
ghost use Rattle.lms_core.specs.Trees.{climbed, path_node};

use crate::nodes::{parent, sibling};
use crate::private_key::PrivateKey;
use lmots_core::{SigBuf, read_32};

// Appends the path of leaf q to what `out` holds: the nodes beside the way up, the lowest first.
#[tactic(auto, unfolding(lmots_core::specs::Strings::concatenated))]
pub fn put_path(key: &PrivateKey, nodes: &[[u8; 32]], q: u32, out: &mut SigBuf)
    requires held { HoldsNodes key.now nodes.now }
    requires index { q < 2 ^ height key.now.lms }
    requires capacity { length out.old + 32 * height key.now.lms ≤ 17748 }
    ensures bytes { out.new ≡ out.old ++ concatenated (path_node key.now q) (height key.now.lms) }
    ensures size { length out.new ≡ length out.old + 32 * height key.now.lms }
{
    let mut place = key.lms.leaves() + q;
    for i in 0..key.lms.height() {
        out.append(&nodes[sibling(place) as usize]);
        place /= 2;
    }
}

// The node so many levels above an index, from the value there and the path (RFC 8554, algorithm
// 6a).
#[tactic(auto, unfolding(crate::specs::Trees::climbed))]
pub fn climb(id: &[u8; 16], place: u32, path: &[u8], value: [u8; 32], levels: u32) -> [u8; 32]
    requires { length path.now ≡ 32 * levels }
    ensures { result ≡ climbed id.now place path.now value levels }
{
    let mut place = place;
    let mut value = value;
    for i in 0..levels {
        let beside = read_32(path, 32 * i as usize);
        value = parent(id, place, &value, &beside);
        place /= 2;
    }
    value
}
