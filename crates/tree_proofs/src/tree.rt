//! Where lists are split, and their tree hashes.

ghost use Rattle.std.specs.Prelude.{◌≡◌, ◌+◌, ◌-◌, ◌<◌, ◌≤◌, length, take, drop, true};
ghost use Rattle.tree_core.specs.Split.{split_of};
ghost use Rattle.tree_core.specs.Subtree.{is_subtree};
ghost use Rattle.tree_core.specs.Tree.{root_of, tree_hash};
ghost use Rattle.tree_proofs.specs.Full.{HasHalves};
ghost use Rattle.tree_proofs.specs.Halves.{AreHalves};

use crate::EntryList;
use mtc_io::Bytes;
use tree_core::{TreeHash, leaf, pair};

/// The largest power of two below the number, which is where a list of so many entries is split
/// (RFC 9162, section 2.1.1).
pub fn split(count: u64) -> u64
    requires { 1 < count }
    ensures value { result ≡ split_of count }
    ensures inside { (0 < result) × (result < count) }
{
    1 << (count - 1).ilog2()
}

// Where a subtree of more than one entry is split.
pub(crate) fn split_between(start: u64, end: u64) -> u64
    requires valid { is_subtree start end ≡ true }
    requires more { start + 1 < end }
    ensures { HasHalves start result end }
{
    start + split(end - start)
}

/// Both parts of a list of more than one entry, which is split at the largest power of two below
/// the number of its entries (RFC 9162, section 2.1.1).
pub fn halves<L: EntryList>(entries: &L) -> (L, L)
    requires { 1 < length (L.texts entries.now) }
    ensures { AreHalves (L.texts entries.now) (L.texts result.0) (L.texts result.1) }
{
    let middle = split(entries.len() as u64) as usize;
    (entries.prefix(middle), entries.after(middle))
}

/// The entries of an interval.
pub fn part_between<L: EntryList>(entries: &L, start: u64, end: u64) -> L
    requires order { start ≤ end }
    requires within { end ≤ length (L.texts entries.now) }
    ensures { L.texts result ≡ take (end - start) (drop start (L.texts entries.now)) }
{
    entries.after(start as usize).prefix((end - start) as usize)
}

/// The tree hash of a list of entries (RFC 9162, section 2.1.1). It takes no memory.
pub fn list_hash<H: TreeHash, L: EntryList>(entries: &L) -> [u8; 32]
    ensures { result ≡ tree_hash H.hash (L.texts entries.now) }
{
    match entries.len() {
        0 => H::begin().end(),
        1 => leaf::<H>(entries.entry(0)),
        _ => {
            let (left, right) = halves(entries);
            pair::<H>(&list_hash::<H, L>(&left), &list_hash::<H, L>(&right))
        }
    }
}

/// The same of a list of byte strings.
pub fn root<H: TreeHash>(entries: &[Bytes]) -> [u8; 32]
    ensures { result ≡ tree_hash H.hash entries.now }
{
    list_hash::<H, &[Bytes]>(&entries)
}

// The root over leaf hashes.
pub(crate) fn root_over<H: TreeHash>(leaves: &[[u8; 32]]) -> [u8; 32]
    ensures { result ≡ root_of H.hash leaves.now }
{
    match leaves {
        [] => H::begin().end(),
        [only] => *only,
        _ => {
            let (left, right) = leaves.split_at(split(leaves.len() as u64) as usize);
            pair::<H>(&root_over::<H>(left), &root_over::<H>(right))
        }
    }
}
