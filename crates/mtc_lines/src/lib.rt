//! What several commands print in one form: the size and the root of a list, and why a file of
//! entries, an export or a request is refused; and what goes out of a command that writes its text
//! while it reads its journal.
//!
//! No clause says which command prints a line: that is a definition beside each command.
#![tactic(auto)]

mod checkpoint;
mod reasons;
mod written;

pub use checkpoint::checkpoint_text;
pub use reasons::{export_reason, form_reason, items_reason};
pub use written::Written;
