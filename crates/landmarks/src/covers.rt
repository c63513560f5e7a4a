//! Which landmarks are active, and which subtrees cover the entries since the one before each.

ghost use Rattle.std.specs.Prelude.{◌≡◌, ℕ, ◌-◌, MatchOption};
ghost use Rattle.tree_core.specs.Cover.{CoversInterval};
ghost use Rattle.landmarks.specs.Landmarks.{IsActive, IsCovering, IsLeastAbove, active_of};
ghost use Rattle.landmarks.specs.Landmarks.{covering_of, part_with, landmark_size, subtrees_of};

use crate::list::Landmarks;
use tree_core::{Cover, Span, cover};

/// The numbers of the active landmarks, from `start` up to `end`, without `end`.
pub fn active(l: &Landmarks) -> Span
    ensures { result ≡ active_of l.now }
{
    let end = l.last() + 1;
    Span {
        start: end - l.active_count(),
        end,
    }
}

/// The subtrees of an active landmark: those that cover the entries after the landmark before it,
/// up to its own size.
pub fn subtrees(l: &Landmarks, number: u64) -> Cover
    requires { IsActive l.now number }
    ensures exact { result ≡ subtrees_of l.now number }
    ensures covers { CoversInterval (landmark_size l.now (number - 1))
        (landmark_size l.now number) result }
{
    let interval = l.interval(number);
    cover(interval.start, interval.end)
}

// The subtree of a cover that holds the entry.
fn part_with(cover: Cover, index: u64) -> Span
    ensures { result ≡ part_with cover index }
{
    if index < cover.first.end {
        return cover.first;
    }
    cover.second.unwrap_or(cover.first)
}

/// The subtree that holds the entry `index`, of the least landmark whose size is above `index`.
/// None where no landmark's size is above it, or where that landmark isn't active.
pub fn covering(l: &Landmarks, index: u64) -> Option<Span>
    ensures exact { result ≡ covering_of l.now index }
    ensures meaning { MatchOption result ((number : ℕ) → IsLeastAbove l.now index number → ⊥)
        (IsCovering l.now index) }
{
    match l.least_above(index) {
        Some(number) => Some(part_with(subtrees(l, number), index)),
        None => None,
    }
}
