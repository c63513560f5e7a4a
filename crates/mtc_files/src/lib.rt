//! The files of the system as a file system of the program: what it reads, makes and locks. And
//! standard error as a sink for one line.
//!
//! A program of another kind, which keeps a log or a cosigner in a file, opens it by
//! [`open_journal`], and makes it by [`new_journal`]; the tiles of a log by [`open_tiles`]. To read
//! them alone, with others that do, it opens them by [`open_journal_to_read`] and
//! [`open_tiles_to_read`].
//!
//! No clause says which error of the system is `Absent`, `Exists`, `Locked` or `Failed`, nor in
//! which order files are opened, locked, found by their names, synced, read
//! and written again; nor that a journal that is only read isn't written; nor that a line of up to
//! 20,480 bytes goes out in one write. All this is only tested.
#![tactic(auto)]

mod access;
mod device;
mod file_room;
mod held;
mod journal;
mod kind;
mod line_sink;
mod opened;
mod written;

pub use access::Access;
pub use device::{new_journal, open_journal, open_journal_to_read, open_tiles, open_tiles_to_read};
pub use file_room::FileRoom;
pub use held::Held;
pub use line_sink::LineSink;
pub use opened::Opened;
pub use written::Written;
