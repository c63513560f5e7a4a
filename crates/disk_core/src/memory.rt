//! A disk in memory.

mod call;
mod calls;
mod copies;
mod crash;
mod history;
mod mem_disk;
mod plan;

pub use call::{Call, Change, Made};
pub use mem_disk::MemDisk;
