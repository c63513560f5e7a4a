//! A leaf more.

ghost use Rattle.std.specs.Prelude.{◌≡◌, ◌+◌, ◌^◌, ◌<◌, reverse, take, count_ones};
ghost use Rattle.tree_peaks.specs.Peaks.{carried};

use tree_core::{TreeHash, pair};

// Puts a leaf after `size` leaves, whose peaks, so many, are the first hashes. Answers how
// many there are then.
pub(crate) fn carry<H: TreeHash>(
    hashes: &mut [[u8; 32]; 64],
    peaks: usize,
    size: u64,
    leaf: &[u8; 32],
) -> usize
    requires few { size + 1 < 2 ^ 64 }
    requires count { peaks ≡ count_ones size }
    ensures count { result ≡ count_ones (size + 1) }
    ensures hashes { take result hashes.new
        ≡ reverse (carried H.hash size leaf.now (reverse (take peaks hashes.old))) }
{
    let mut node = *leaf;
    let mut count = peaks;
    let mut n = size;
    'joins: while n % 2 == 1 {
        count -= 1;
        node = pair::<H>(&hashes[count], &node);
        n /= 2;
    }
    hashes[count] = node;
    count + 1
}
