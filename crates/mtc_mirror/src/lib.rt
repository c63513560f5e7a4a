//! The commands on the journal of a mirror: `mirror-init`, `mirror-take`, `mirror-tile` and
//! `mirror-entries`.
//!
//! The file system opens a journal and the file of its tiles, the mirror is opened over them
//! ([`open_mirror`]) and worked on, and both are closed ([`close_mirror`]), the tiles first.
//! `mirror-take` reads its file of entries before it opens the journal. `mirror-entries` writes its
//! text while it reads the journal. What each command has to answer, and what it leaves of the
//! journal, are definitions in `specs/`.
//!
//! No clause says that no call asks for the file of the tiles if there is no journal, or how many
//! frames there are.
#![tactic(auto)]

pub mod entries;
pub mod init;
mod opening;
pub mod take;
pub mod tile;

pub use opening::{close_mirror, open_mirror, refuse_mirror};
