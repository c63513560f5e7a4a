//! What proofs give of a list, from the leaves up: each hash is computed once.

ghost use Rattle.std.specs.Prelude.{◌≡◌};
ghost use Rattle.quarrel_core.specs.OpenedParts.{opened_above};

use tree_core::{TreeHash, pair};
use tree_proofs::Opened;

// What each of two proofs gives.
#[derive(Clone, Copy)]
pub(crate) struct BothOpened {
    pub(crate) first: Option<Opened>,
    pub(crate) second: Option<Opened>,
}

// What the proof of an interval gives of a list that is split at `middle`: by its hash beside the
// part that the interval ends in, and by what its other hashes give of that part.
pub(crate) fn above<H: TreeHash>(
    middle: u64,
    start: u64,
    end: u64,
    sibling: &[u8; 32],
    below: Option<Opened>,
) -> Option<Opened>
    ensures { result ≡ opened_above H.hash middle start end sibling.now below }
{
    let Some(below) = below else {
        return None;
    };
    if end <= middle {
        return Some(Opened {
            subtree: below.subtree,
            root: pair::<H>(&below.root, sibling),
        });
    }
    let root = pair::<H>(sibling, &below.root);
    if middle <= start {
        return Some(Opened {
            subtree: below.subtree,
            root,
        });
    }
    if start > 0 {
        return None;
    }
    Some(Opened {
        subtree: pair::<H>(sibling, &below.subtree),
        root,
    })
}
