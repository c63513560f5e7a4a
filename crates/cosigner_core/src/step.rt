//! What the records of a cosigner's journal say after the first one.

use lms_core::LmsType;
use tree_proofs::Hashes;

/// A step of a cosigner: what a record after the first one says.
#[derive(Debug, Drop)]
pub enum Step {
    /// A larger log is held: the number of its entries, their tree hash, and the consistency proof
    /// of what was held, the lowest hash first.
    Advance {
        size: u64,
        root: [u8; 32],
        proof: Hashes,
    },
    /// A one-time key signs the subtree `[start, end)` of what is held: the number of the key,
    /// the hash of the subtree, and its consistency proof, the lowest hash first.
    Sign {
        index: u32,
        start: u64,
        end: u64,
        hash: [u8; 32],
        proof: Hashes,
    },
    /// A further lower tree is there to sign: its number and its height.
    Child {
        number: u32,
        low: LmsType,
    },
}

/// A step as it is read. The hashes of the proof lie in the record.
#[derive(Clone, Copy)]
pub(crate) enum StepRef<'a> {
    /// A larger log is held.
    Advance {
        size: u64,
        root: [u8; 32],
        proof: &'a [[u8; 32]],
    },
    /// A one-time key signs a subtree.
    Sign {
        index: u32,
        start: u64,
        end: u64,
        hash: [u8; 32],
        proof: &'a [[u8; 32]],
    },
    /// A further lower tree is there to sign.
    Child {
        number: u32,
        low: LmsType,
    },
}
