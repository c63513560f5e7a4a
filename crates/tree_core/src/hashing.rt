//! The hash function of a tree, and the hashes of leaves and of pairs.

ghost use Rattle.std.specs.Prelude.{◌≡◌, [], ◌++◌, length};
ghost use Rattle.byte_formats.specs.Types.{HashFunction, Text};
ghost use Rattle.tree_core.specs.Tree.{leaf_hash, pair_hash};

/// The byte before an entry, where it is hashed as a leaf. It differs from [`PAIR`], so that an
/// entry and a pair are never hashed as the same bytes (RFC 9162, section 2.1.1).
pub const LEAF: u8 = 0;

/// The byte before the two hashes of a pair, where they are hashed (RFC 9162, section 2.1.1).
pub const PAIR: u8 = 1;

/// The hash function of a tree, as a running hash: a value represents the bytes added so far.
pub trait TreeHash: Sized {
    /// The value represents these bytes.
    ghost represents: { Self → Text → Type 0 };

    /// The type's one function from bytes to a hash.
    ghost hash: { HashFunction };

    /// A running hash of no bytes.
    fn begin() -> Self
        ensures { represents result [] };

    /// Appends bytes to those added so far.
    fn add(&mut self, piece: &[u8])
        ensures { (b : Text) → represents self.old b → represents self.new (b ++ piece.now) };

    /// The hash of all bytes so far.
    fn end(self) -> [u8; 32]
        ensures { (b : Text) → represents self b → result ≡ hash b };

    /// A hash has 32 bytes.
    ghost sized: { (b : Text) → length (hash b) ≡ 32 };
}

/// The hash of an entry as a leaf of a tree: of the byte 0 and the entry (RFC 9162, section
/// 2.1.1).
pub fn leaf<H: TreeHash>(entry: &[u8]) -> [u8; 32]
    ensures { result ≡ leaf_hash H.hash entry.now }
{
    let mut running = H::begin();
    running.add(&[LEAF]);
    running.add(entry);
    running.end()
}

/// The hash of the node above two nodes: of the byte 1, the left hash and the right one (RFC
/// 9162, section 2.1.1).
pub fn pair<H: TreeHash>(left: &[u8; 32], right: &[u8; 32]) -> [u8; 32]
    ensures { result ≡ pair_hash H.hash left.now right.now }
{
    let mut running = H::begin();
    running.add(&[PAIR]);
    running.add(left);
    running.add(right);
    running.end()
}
