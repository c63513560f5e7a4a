//! Which intervals are subtrees.

ghost use Rattle.std.specs.Prelude.{◌≡◌};
ghost use Rattle.tree_core.specs.Subtree.{is_subtree};

/// Whether the interval `[start, end)` is a subtree: it has entries, and `start` is a multiple of
/// the least power of two that is not below `end - start` (the draft on Merkle Tree Certificates,
/// where it defines subtrees).
pub fn subtree_ok(start: u64, end: u64) -> bool
    ensures { result ≡ is_subtree start end }
{
    if start >= end {
        return false;
    }
    match (end - start).checked_next_power_of_two() {
        Some(power) => start % power == 0,
        // The power is 2^64, so only 0 is a multiple below it.
        None => start == 0,
    }
}
