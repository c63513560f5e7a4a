//! What a command answers, and what it does with its journals: the answer and its refusals, the
//! input files, and the outcome of which each command's own definition is made
//! (`specs/Steps.antt`).
//!
//! A command answers with an [`Answer`], or ends with a [`Stop`]: it is refused, or the file system
//! failed or memory was refused. A refusal names its reason and takes no memory.
#![tactic(auto)]

mod answer;
mod input;
mod journal;
mod reason;

pub use answer::{Answer, More, Reason, Refusal, Said, Stop, Stopped};
pub use input::{INPUT_LIMIT, LIST_LIMIT, read_input};
pub use journal::{close, make_journal, open_file, open_tiles, tiles_name};
pub use reason::{refuse, refuse_file};
