//! A mirror of a log: a store of all its items, over a journal of its own.
//!
//! A mirror stores each entry of a log with the key beside it, in order from the first, so that
//! what it says of the log it has computed from the entries themselves. [`create`] begins the
//! journal of a new mirror; [`pack`] takes the memory for it before there is a disk.
//! [`Mirror::open`] reads and tests the records of a journal one by one. [`Mirror::take`] is given
//! a list of items that begins with those of the mirror, and appends as many of the new ones as one
//! record holds; a list that doesn't begin so is refused with the number of the first item that
//! differs. [`Mirror::item`] reads an item back, and [`Mirror::write_items`] writes the first ones
//! as a file of entries while it reads them.
//!
//! What the records of a journal make of a mirror is one function of them. A mirror follows it:
//! unless an append has failed, its items are what the records on its disk make.
//!
//! A mirror keeps the offset of each Batch in the journal, 16 bytes for some hundreds of items. It
//! is the [`Nodes`](tree_proofs::Nodes) of the tree over its entries, in
//! [`Tiles`](tile_store::Tiles) on a second disk: [`Mirror::tile`] stores those that are full and
//! then appends their size, and the next opening adopts them where it reads that record.
//!
//! No clause says that the items are those of a log: a mirror stores the list that it was given.
#![tactic(auto)]

mod batch;
mod bodies;
mod comparing;
mod creation;
mod error;
mod following;
mod kept;
pub mod laws;
mod listing;
mod machine;
mod mirror;
mod nodes;
mod numbers;
mod preparing;
mod record;

pub use creation::{create, pack};
pub use error::{MirrorError, MirrorOpenError, MirrorRefused};
pub use following::may_follow;
pub use mirror::Mirror;
