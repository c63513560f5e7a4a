//! A disk, and what a crash may leave of it.
//!
//! [`Disk`] is one file as a program sees it: what a read gives now, and which bytes the file may
//! hold after a crash of the machine, now or at some time since an earlier one. [`MemDisk`] stands
//! in memory, its model knows all of this, and it can crash. [`Fuse`] stops a disk at some call, as
//! a machine does. [`FileDisk`] is an open file, of which the model knows nothing: that the
//! operating system follows the rules until a sync of it fails is taken on trust.
//!
//! A user takes three kinds of step: it reads ([`read_len`], [`read_part`]), it makes what is there
//! durable ([`make_durable`]), or it writes and syncs ([`write_synced`]). What these ensure is all
//! that a layer above needs.
#![tactic(auto)]

mod disk;
mod file;
mod fuse;
pub mod laws;
mod memory;
mod refusing;
mod steps;

pub use disk::Disk;
pub use file::FileDisk;
pub use fuse::Fuse;
pub use memory::{Call, Change, Made, MemDisk};
pub use steps::{make_durable, read_len, read_part, write_synced};
