//! The root by the peaks.

ghost use Rattle.std.specs.Prelude.{◌≡◌};
ghost use Rattle.tree_peaks.specs.Peaks.{root_of_peaks};

use tree_core::{TreeHash, pair};

/// The root of a list by its peaks, the largest first: of none it is the hash of no bytes, and else
/// they are paired from the last to the first (RFC 9162, section 2.1.1).
pub fn root_of_peaks<H: TreeHash>(peaks: &[[u8; 32]]) -> [u8; 32]
    ensures { result ≡ root_of_peaks H.hash peaks.now }
{
    if peaks.is_empty() {
        return H::begin().end();
    }
    let mut index = peaks.len() - 1;
    let mut root = peaks[index];
    while index > 0 {
        index -= 1;
        root = pair::<H>(&peaks[index], &root);
    }
    root
}
