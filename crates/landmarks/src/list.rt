//! The landmarks of a log, as far as they are active.

ghost use Rattle.std.specs.Prelude.{◌≡◌, ◌+◌, ◌-◌, ◌^◌, ◌<◌, ◌≤◌, ℕ, ◌∷◌, reverse, slice_index};
ghost use Rattle.std.specs.Prelude.{take, IfOk, MatchOption};
ghost use Rattle.std.specs.List.Sorted.{IsStrictlyIncreasing};
ghost use Rattle.landmarks.specs.Landmarks.{IsActive, IsLandmarks, IsLeastAbove, above_count};
ghost use Rattle.landmarks.specs.Landmarks.{active_count, landmarks_of, least_of, landmark_size};

use mtc_io::Memory;
use std::alloc::Global;
use std::marker::Model;
use tree_core::Span;

/// The active landmarks of a log: their numbers, their sizes, and the size of the landmark before
/// them. Contracts see it as the number of the newest landmark and these sizes, the newest first.
#[derive(Debug, Drop)]
pub struct Landmarks {
    last: u64,
    sizes: Vec<u64>,
}

impl Model for Landmarks {
    ghost use Rattle.landmarks.specs.Landmarks.{IsLandmarks, LandmarkList};

    ghost Value = { LandmarkList };

    ghost view = { λ l. record { last = l.last; sizes = l.sizes.items } };

    ghost invariant = { λ l. IsLandmarks (record { last = l.last; sizes = l.sizes.items }) };
}

impl Landmarks {
    pub(crate) fn of_sizes(last: u64, sizes: Vec<u64>) -> Landmarks
        requires { IsLandmarks (record { last = last; sizes = sizes.items }) }
        ensures { result ≡ record { last = last; sizes = sizes.items } }
    {
        Landmarks { last, sizes }
    }

    pub(crate) fn last(&self) -> u64
        ensures number { result ≡ self.now.last }
        ensures small { result < 2 ^ 63 }
    {
        self.last
    }

    // How many are active.
    pub(crate) fn active_count(&self) -> u64
        ensures count { result ≡ active_count self.now }
        ensures numbered { result ≤ self.now.last }
    {
        (self.sizes.len() - 1) as u64
    }

    // The sizes of the active ones and of the one before them, the newest first.
    pub(crate) fn sizes(&self) -> &[u64]
        ensures { result.now ≡ self.now.sizes }
    {
        self.sizes.as_slice()
    }

    // The size of the newest.
    pub(crate) fn largest(&self) -> u64
        ensures { result ≡ slice_index self.now.sizes 0 }
    {
        self.sizes[0]
    }

    // The entries after the landmark before an active one, up to its size.
    pub(crate) fn interval(&self, number: u64) -> Span
        requires { IsActive self.now number }
        ensures start { result.start ≡ landmark_size self.now (number - 1) }
        ensures end { result.end ≡ landmark_size self.now number }
        ensures some { result.start < result.end }
    {
        let place = (self.last - number) as usize;
        Span {
            start: self.sizes[place + 1],
            end: self.sizes[place],
        }
    }

    // The number of the active landmark that is the least above the index.
    #[tactic(auto, unfolding(crate::specs::Landmarks::least_of))]
    pub(crate) fn least_above(&self, index: u64) -> Option<u64>
        ensures exact { result ≡ least_of self.now index }
        ensures meaning { MatchOption result ((number : ℕ) → IsLeastAbove self.now index number → ⊥)
            (IsLeastAbove self.now index) }
    {
        let above = self.above(index);
        if above == 0 {
            return None;
        }
        if above > self.active_count() {
            return None;
        }
        Some(self.last() + 1 - above)
    }

    // How many of the sizes are above the index.
    fn above(&self, index: u64) -> u64
        ensures count { result ≡ above_count self.now index }
        ensures listed { result ≤ active_count self.now + 1 }
        ensures known { IsLandmarks self.now }
    {
        self.sizes.iter().filter(|size| index < **size).count() as u64
    }
}

// The last sizes, at most so many, the newest first.
fn newest(alloc: Global, marks: &[u64], most: usize) -> Result<Vec<u64>, Memory>
    ensures { IfOk result (λ sizes. sizes.items ≡ take most (reverse marks.now)) }
{
    Ok(marks.iter().rev().copied().take(most).collect(alloc)?)
}

// The same, with that of landmark 0 at the end.
fn newest_from_zero(alloc: Global, marks: &[u64], most: usize) -> Result<Vec<u64>, Memory>
    ensures { IfOk result (λ sizes. sizes.items ≡ take most (reverse (0 ∷ marks.now))) }
{
    let mut sizes = newest(alloc, marks, most)?;
    if sizes.len() < most {
        sizes.push(0)?;
    }
    Ok(sizes)
}

/// The landmarks of a log that was marked at these sizes, of which at most `max_active` are active:
/// landmark 0 at size 0, and landmark i at the size `marks[i - 1]`. The sizes rise from above 0,
/// and are below 2^63.
#[tactic(auto, unfolding(crate::specs::Landmarks::landmarks_of))]
pub fn of_marks(alloc: Global, marks: &[u64], max_active: u32) -> Result<Landmarks, Memory>
    requires rise { IsStrictlyIncreasing (0 ∷ marks.now) }
    requires small { (i : ℕ) → slice_index marks.now i < 2 ^ 63 }
    ensures { IfOk result (λ l. l ≡ landmarks_of marks.now max_active) }
{
    let sizes = newest_from_zero(alloc, marks, max_active as usize + 1)?;
    Ok(Landmarks {
        last: marks.len() as u64,
        sizes,
    })
}
