//! The issuance log of a certificate authority, stored in a journal.
//!
//! A log is a list of entries with their keys, each at its index, and settings that never change.
//! [`create`] begins the journal of a new log, which has the null entry at index 0; [`pack`] takes
//! the memory for it before there is a disk. [`Log::open`] reads and tests the records of a journal
//! one by one, and [`Log::add`] adds an entry: once it has answered Ok, a crash of the machine
//! leaves the entry. [`Log::add_all`] adds several by one record: a crash leaves all of them or
//! none. [`Log::mark`] sets a landmark at the size of the log in the same way, and
//! [`Log::switch`] appends, once, that from there on entries name the algorithm of their key.
//!
//! What the records of a journal make of a log is one function of them. A log follows it: unless an
//! append has failed, its settings, items and landmarks are what the records on its disk make.
//!
//! A log keeps the offset of each entry in the journal, from which [`Log::entry`] reads it back. It
//! is the [`Nodes`](tree_proofs::Nodes) of the tree over its entries, in
//! [`Tiles`](tile_store::Tiles) on a second disk: [`Log::tile`] stores those that are full and then
//! appends their size, and the next opening adopts them where it reads that record. So an opening
//! keeps the nodes over the entries after the last such record alone. [`rebuild_tiles`] writes the
//! tiles of the last size again where that disk doesn't have all of them.
#![tactic(auto)]

mod batch;
mod creation;
mod entries;
mod error;
mod following;
mod items;
pub mod laws;
mod log;
mod machine;
mod nodes;
mod numbers;
mod preparing;
mod rebuilding;
mod record;
mod settings;

pub use batch::LogItem;
pub use creation::{create, pack};
pub use error::{LogError, LogOpenError, LogRefused};
pub use following::may_follow;
pub use log::Log;
pub use rebuilding::{Rebuilt, rebuild_tiles};
pub use settings::LogSettings;
