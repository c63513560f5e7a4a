//! A list that grows.

ghost use Rattle.std.specs.Prelude.{◌≡◌, ◌+◌, ◌^◌, ◌<◌, List, [], ◌∷◌, ◌++◌, length, take};
ghost use Rattle.std.specs.Prelude.{count_ones};
ghost use Rattle.byte_formats.specs.Types.{Hash};
ghost use Rattle.tree_core.specs.Tree.{root_of};
ghost use Rattle.tree_peaks.specs.Peaks.{ArePeaksOf, PeaksState, root_of_peaks, with_leaf};

use crate::carrying::carry;
use crate::folding::root_of_peaks;
use std::marker::{Model, PhantomData};
use tree_core::TreeHash;

/// The peaks of a list that grows, in an array of a fixed size. Contracts see it as the number of
/// leaves and the list of the peaks, the largest first.
#[derive(Drop)]
pub struct Peaks<H: TreeHash> {
    size: u64,
    hashes: [[u8; 32]; 64],
    count: usize,
    function: PhantomData<H>,
}

impl<H: TreeHash> Model for Peaks<H> {
    ghost Value = { PeaksState };

    ghost view = { λ p. record { size = p.size; peaks = take p.count p.hashes } };

    ghost invariant = { λ p. p.count ≡ count_ones p.size };
}

impl<H: TreeHash> Peaks<H> {
    /// Those of a list without leaves: none.
    pub fn new() -> Peaks<H>
        ensures value { result ≡ record { size = 0; peaks = [] } }
        ensures of { ArePeaksOf H.hash [] result }
    {
        Peaks {
            size: 0,
            hashes: [[0; 32]; 64],
            count: 0,
            function: PhantomData,
        }
    }

    /// A list of `size` leaves that has these peaks, the largest first: as many as the size has
    /// ones in binary.
    pub fn of(size: u64, peaks: &[[u8; 32]]) -> Peaks<H>
        requires { length peaks.now ≡ count_ones size }
        ensures { result ≡ record { size = size; peaks = peaks.now } }
    {
        let mut hashes = [[0; 32]; 64];
        hashes[..peaks.len()].copy_from_slice(peaks);
        Peaks {
            size,
            hashes,
            count: peaks.len(),
            function: PhantomData,
        }
    }

    /// How many leaves the list has.
    pub fn size(&self) -> u64
        ensures { result ≡ self.now.size }
    {
        self.size
    }

    /// The peaks, the largest first: as many as the size has ones in binary.
    pub fn as_slice(&self) -> &[[u8; 32]]
        ensures value { result.now ≡ self.now.peaks }
        ensures count { length result.now ≡ count_ones self.now.size }
    {
        let _size = self.size;
        &self.hashes[..self.count]
    }

    /// The root: of every list that has these peaks.
    pub fn root(&self) -> [u8; 32]
        ensures exact { result ≡ root_of_peaks H.hash self.now.peaks }
        ensures of { (leaves : List Hash) → ArePeaksOf H.hash leaves self.now
            → result ≡ root_of H.hash leaves }
    {
        root_of_peaks::<H>(self.as_slice())
    }

    /// Puts a leaf hash after the others, where there are fewer than 2^64 - 1.
    pub fn push(&mut self, leaf: &[u8; 32])
        requires { self.old.size + 1 < 2 ^ 64 }
        ensures exact { self.new ≡ with_leaf H.hash self.old leaf.now }
        ensures of { (leaves : List Hash) → ArePeaksOf H.hash leaves self.old
            → ArePeaksOf H.hash (leaves ++ leaf.now ∷ []) self.new }
    {
        self.take_leaf(leaf);
    }

    // The same, whatever list has these peaks.
    fn take_leaf(&mut self, leaf: &[u8; 32])
        requires { self.old.size + 1 < 2 ^ 64 }
        ensures { self.new ≡ with_leaf H.hash self.old leaf.now }
    {
        self.count = carry::<H>(&mut self.hashes, self.count, self.size, leaf);
        self.size += 1;
    }
}
