//! The items of a file of entries, read as a stream: a buffer in the place of the file.
//!
//! [`fold_items`] reads a source to its end and hands each item to a fold, in the order of the
//! file. So the memory that is taken doesn't grow with the file. `Peaks` is a fold: it gives the
//! tree hash of the list. [`RangeHash`] gives that of a part of it, [`ItemAt`] the item at an
//! index, and [`Both`] hands each item to two folds. The fold `()` keeps nothing, for a pass that
//! only counts the items and looks for a fault.
//!
//! No clause says how much memory [`fold_items`] takes: a few times the bytes of the longest item,
//! which has at most 131,074, and beside it what the fold takes. Nor does one say what it costs:
//! each byte is copied a few times.
#![tactic(auto)]

mod both;
mod fold;
mod folding;
mod item_at;
mod next;
mod nothing;
mod peaks;
mod range_hash;
mod rest;
mod window;

pub use both::Both;
pub use fold::ItemFold;
pub use folding::fold_items;
pub use item_at::ItemAt;
pub use range_hash::RangeHash;
