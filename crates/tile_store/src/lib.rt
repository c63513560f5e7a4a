//! The nodes of a Merkle tree, of which those in full tiles stand in a file and are read through a
//! few frames.
//!
//! A tile has 256 hashes of one level, 8,192 bytes. Tiles that are full are stored in the order in
//! which they become full. Once a stored tile was read back and compared it is adopted: its nodes
//! are dropped, and from then on come out of the file, through a frame of the pool. What is read
//! then is compared with nothing: a file that changes after an adoption gives other nodes. The
//! nodes inside a tile, between two stored levels, are hashed together when one of them is asked
//! for, and retained until those of another tile replace them.
//!
//! ```rust
//! use frame_pool::Pool;
//! use tile_store::Tiles;
//! use tree_core::{Sha, leaf};
//! use tree_proofs::Nodes;
//!
//! let mut tiles: Tiles<Sha, _> = Tiles::new(alloc, disk, Pool::new(alloc, 64)?);
//! for text in texts {
//!     tiles.push(&leaf::<Sha>(text))?;
//! }
//! tiles.store(256)?;
//! tiles.adopt(256)?;
//! let node = tiles.node(8, 0)?;
//! ```
#![tactic(auto)]

mod checking;
mod error;
mod inside;
mod layout;
mod reading;
mod store;
mod writing;

pub use error::TileError;
pub use store::Tiles;
