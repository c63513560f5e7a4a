//! What a process does with the journals and the tile files that it opens.

/// What a process does with the journals and the tile files that it opens.
#[derive(Clone, Copy, Debug, PartialEq, Eq)]
pub enum Access {
    /// It only reads them. Others may read them at the same time, and no process writes them.
    Read,
    /// It may write them, and has them for itself alone.
    Write,
}
