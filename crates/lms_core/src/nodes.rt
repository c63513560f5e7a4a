//! The values of single nodes.

ghost use Rattle.std.specs.Prelude.{◌≡◌, ◌+◌, ◌<◌, ◌^◌};
ghost use Rattle.lms_core.specs.Heights.{height};
ghost use Rattle.lms_core.specs.Trees.{inner_node, leaf_node, parent, sibling, tree_value};

use crate::private_key::PrivateKey;
use lmots_core::{marked_hasher, public};
use sha2::Digest;

// D_LEAF: the hash that is a leaf continues with these two bytes (RFC 8554, section 5.3).
const LEAF_MARK: [u8; 2] = [0x82, 0x82];

// D_INTR: the hash that is an inner node continues with these.
const INNER_MARK: [u8; 2] = [0x83, 0x83];

// The leaf at this index, over the one-time public key there.
#[tactic(auto, unfolding(crate::specs::Trees::leaf_node))]
pub fn leaf_node(id: &[u8; 16], place: u32, key: &[u8; 32]) -> [u8; 32]
    ensures { result ≡ leaf_node id.now place key.now }
{
    let mut hasher = marked_hasher(id, place, &LEAF_MARK);
    hasher.update(key);
    hasher.finalize()
}

// The inner node at this index, over the two nodes below it.
#[tactic(auto, unfolding(crate::specs::Trees::inner_node))]
pub fn inner_node(id: &[u8; 16], place: u32, left: &[u8; 32], right: &[u8; 32]) -> [u8; 32]
    ensures { result ≡ inner_node id.now place left.now right.now }
{
    let mut hasher = marked_hasher(id, place, &INNER_MARK);
    hasher.update(left);
    hasher.update(right);
    hasher.finalize()
}

// The parent of the node at this index, from its value and its sibling's.
pub fn parent(id: &[u8; 16], place: u32, value: &[u8; 32], beside: &[u8; 32]) -> [u8; 32]
    ensures { result ≡ parent id.now place value.now beside.now }
{
    if place % 2 == 0 {
        inner_node(id, place / 2, value, beside)
    } else {
        inner_node(id, place / 2, beside, value)
    }
}

// The index of the other node below the same parent.
pub fn sibling(place: u32) -> u32
    requires { place < 2 ^ 31 }
    ensures { result ≡ sibling place }
{
    if place % 2 == 0 { place + 1 } else { place - 1 }
}

impl PrivateKey {
    // The leaf of one-time key q.
    #[tactic(auto, unfolding(crate::specs::Trees::tree_value))]
    pub(crate) fn leaf(&self, q: u32) -> [u8; 32]
        requires { q < 2 ^ height self.now.lms }
        ensures { result ≡ tree_value self.now 0 (2 ^ height self.now.lms + q) }
    {
        let key = public(self.ots, &self.id, q, &self.seed);
        leaf_node(&self.id, self.lms.leaves() + q, &key)
    }
}
