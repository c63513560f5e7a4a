//! The record that a disk in memory keeps of its calls.

use mtc_io::Bytes;

/// A call of a disk, with what it was asked.
#[derive(Debug, Drop)]
pub enum Call {
    Len,
    Read { place: u64, size: usize },
    Write { place: u64, piece: Bytes },
    Sync,
}

/// A call, and whether it was answered Ok.
#[derive(Debug, Drop)]
pub struct Made {
    pub call: Call,
    pub ok: bool,
}

/// A call of `write_at` or `sync`, and how many calls that only read came between the one before it
/// and this one.
#[derive(Debug, Drop)]
pub struct Change {
    pub only_reads: u64,
    pub made: Made,
}
