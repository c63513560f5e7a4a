//! What an audit asks of a list.

ghost use Rattle.std.specs.Prelude.{◌≡◌, ℕ, Option};
ghost use Rattle.entry_list.specs.Items.{ItemLists};
ghost use Rattle.entry_stream.specs.Streams.{empty_list};
ghost use Rattle.world_core.specs.declared.wanted.WantedHash.{WantedHash};
ghost use Rattle.audit_stream.specs.Summaries.{IsSummaryOf, asked_for, summary_parts};

use entry_stream::{Both, ItemAt, ItemFold, RangeHash};
use std::alloc::Global;
use tree_core::TreeHash;
use world_core::WantedHash;

/// What one pass over a list gives: how many entries it has, the tree hash of one part of them, and
/// the item at one index, of no bytes where the list is too short.
#[derive(Clone, Copy, Debug)]
pub struct Summary<'a> {
    pub count: u64,
    pub part_hash: [u8; 32],
    pub entry: &'a [u8],
    pub spki: &'a [u8],
}

/// The fold that a summary is made of: for the part that is wanted, if any, and for an index. It
/// has taken no item.
pub fn summing<H: TreeHash>(
    alloc: Global,
    wanted: Option<WantedHash>,
    index: u64,
) -> Both<RangeHash<H>, ItemAt>
    ensures none { ⟦<Both<RangeHash<H>, ItemAt> as ItemFold>⟧.has_taken result empty_list }
    ensures made_with { ⟦<Both<RangeHash<H>, ItemAt> as ItemFold>⟧.made_with result
        ≡ asked_for wanted index }
{
    let (start, end) = match wanted {
        Some(wanted) => (wanted.start, wanted.end),
        None => (0, 0),
    };
    Both {
        first: RangeHash::new(start, end),
        second: ItemAt::new(alloc, index),
    }
}

/// The summary of the items that were taken.
pub fn summary_of<H: TreeHash>(fold: &Both<RangeHash<H>, ItemAt>) -> Summary<'_>
    ensures { (items : ItemLists) (wanted : Option WantedHash) (index : ℕ)
        → ⟦<Both<RangeHash<H>, ItemAt> as ItemFold>⟧.has_taken fold.now items
        → ⟦<Both<RangeHash<H>, ItemAt> as ItemFold>⟧.made_with fold.now ≡ asked_for wanted index
        → IsSummaryOf H.hash items wanted index (summary_parts result) }
{
    let part_hash = fold.first.root();
    Summary {
        count: fold.first.len(),
        part_hash,
        entry: fold.second.entry(),
        spki: fold.second.spki(),
    }
}
