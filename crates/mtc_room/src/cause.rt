//! What a file system says of its failures.

/// Why a file system failed, if it failed at all.
#[derive(Clone, Copy, Debug, PartialEq, Eq)]
pub enum Cause {
    /// Another process holds the file.
    Locked,
    /// Anything else.
    Failed,
}
