//! Why a file system doesn't open a file.

use thiserror::Error;

/// Why a file system doesn't open a file.
#[derive(Clone, Copy, Debug, PartialEq, Eq, Error)]
pub enum RoomError {
    /// There is no file of that name.
    #[error("Absent")]
    Absent,
    /// There is a file of that name already.
    #[error("Exists")]
    Exists,
    /// The file system failed: its count of failures rose.
    #[error("Failed")]
    Failed,
}
