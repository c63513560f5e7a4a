//! The commands on the journal of a log: `init-log`, `issue`, `checkpoint`, `entries`,
//! `entries-from`, `consist`, `subtree`, `landmark`, `landmarks`, `light-cert`, `cert`, `switch`,
//! `tile`, `tile-anew`, `issue-list`, `light-certs` and `certs`.
//!
//! The file system opens a journal and the file of its tiles, the log is opened over them and
//! worked on, and both are closed ([`on_log`]); what is done with the log is a [`Work`]. A work
//! that lists items writes them while it reads them ([`stream_log`]). What each command has to
//! answer, and what it leaves of the journal, are definitions in `specs/`.
//!
//! No clause says that the tiles are closed before the journal, or that no call asks for their file
//! if there is no journal: that is tested alone. No clause says how many frames there are.
#![tactic(auto)]

pub mod cert;
pub mod certs;
mod checkpoint;
mod entries;
pub mod init_log;
pub mod issue;
pub mod issue_list;
pub mod laws;
mod log_command;
mod marks;
mod opening;
mod requests;
mod switch;
pub mod tile_anew;
mod tiles;
mod tree;
mod work;

pub use log_command::{on_log, stream_log};
pub use work::Work;
