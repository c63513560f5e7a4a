//! A file system in memory whose devices stop: each call after so many fails, as if the machine had
//! stopped there.
//!
//! [`FuseRoom`] opens the devices of a [`MemRoom`](mtc_room::MemRoom) over fuses. The device of one
//! name passes a given number of calls, and those of all others pass all. When a run of the program
//! has ended, the file system inside has what the stop left of each file.
//!
//! No clause says that what was opened is closed in the end, as of any file system.
#![tactic(auto)]

mod room;

pub use room::FuseRoom;
