//! File systems: the files that the program may reach, opened one at a time.
//!
//! The program opens nothing by itself. It is given a [`Room`], a file system, which opens files
//! by name, as sources or as devices, makes new ones, and closes what it opened. A file system
//! counts its failures, and how many objects are open; so a caller can show that it closed all of
//! them, and that an answer that names a failure has one.
//!
//! No clause says that what was opened is closed in the end: its type isn't `Drop`, and the
//! compiler refuses to let it go.
#![tactic(auto)]

mod cause;
mod error;
mod memory;
mod room;

pub use cause::Cause;
pub use error::RoomError;
pub use memory::MemRoom;
pub use room::Room;
