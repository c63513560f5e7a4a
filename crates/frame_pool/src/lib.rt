//! A fixed number of frames of 8,192 bytes, each of which holds one tile of a tree or none: the
//! memory in which parts of a large file are at hand.
//!
//! All memory is taken when the pool is made. A slot names a frame. A frame that is claimed for a
//! tile keeps its key and its bytes until it is claimed for another one or released. A pinned frame
//! is never claimed for another.
//!
//! ```rust
//! use frame_pool::{Pool, TileKey};
//!
//! let mut pool = Pool::new(alloc, 64)?;
//! let key = TileKey { level: 0, place: 3 };
//! let slot = match pool.find(key) {
//!     Some(slot) => slot,
//!     None => pool.claim(key),
//! };
//! let frame = pool.frame_mut(slot);
//! ```
#![tactic(auto)]

mod key;
mod pool;
mod search;

pub use key::{Slot, TileKey};
pub use pool::Pool;
