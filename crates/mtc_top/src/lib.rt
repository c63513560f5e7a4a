//! The one call that does all that the program does: [`run`].
//!
//! It reads the arguments of a command, reads the named files from a file system, decides, and
//! writes the outcome. What is to be known of a command is one record, `Facts`: its files, and what
//! it has to answer, as a function of the files of the file system (`specs/Facts.antt`). The
//! contract of `run` is one record too, `HasRun` (`specs/Run.antt`), which says that this is what
//! comes out, or that something outside failed.
#![tactic(auto)]

mod ending;
mod finish;
mod refused_words;
mod stopping;
mod top;

pub use finish::{conclude, conclude_written};
pub use mtc_room::{MemRoom, Room, RoomError};
pub use stopping::stop_leaving;
pub use top::run;
