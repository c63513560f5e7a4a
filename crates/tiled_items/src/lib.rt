//! A journal of records that add items, each an entry and the key beside it, with the tiles of the
//! tree over the entries on a second disk: what a log and a mirror of it have in common.
//!
//! [`ItemRules`] says which records such a journal may have, and what they make. An owner has a
//! [`TiledItems`] over its own rules as a field: [`TiledItems::open`] reads and tests the records
//! one by one, [`TiledItems::append`] appends one, [`TiledItems::tile`] stores the tiles that are
//! full and then appends their size, and [`TiledItems::item`] reads an item back. It is the
//! [`Nodes`](tree_proofs::Nodes) of the tree over the entries. [`TiledMachine`] is what the records
//! make, whatever the rules: the numbers that these keep, the place of each block of 256 items, and
//! the nodes of the tree.
//!
//! A type of rules names no hash function: what it says of a record is a function of one. So the
//! owner may be generic in the hash function.
//!
//! No clause says how much memory a call takes: 16 bytes are held for each block of 256 items, and
//! 32 for each entry that is in no adopted tile.
#![tactic(auto)]

mod error;
mod held;
mod machine;
mod nodes;
mod reading;
mod record;
mod rules;
mod tiled;

pub use error::{ItemError, TiledError, TiledOpenError};
pub use held::{HeldItems, ItemPlace};
pub use machine::{TileRest, TileSeed, TiledMachine};
pub use record::{count_items, next_item};
pub use rules::ItemRules;
pub use tiled::{TiledItems, TiledRefused};
