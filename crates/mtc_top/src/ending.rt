//! How a command ended.

use mtc_command::{Answer, Stop};
use mtc_lines::Written;

/// What a command has left to be written.
#[derive(Drop)]
pub(crate) enum Ended<'a> {
    /// Its text, or why it was stopped.
    Kept(Result<Answer, Stop<'a>>),
    /// It has written its text itself: what became of that, or why it was stopped.
    Written(Result<Written, Stop<'a>>),
}
