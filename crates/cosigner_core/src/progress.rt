//! How far its steps bring a cosigner.

ghost use Rattle.std.specs.Prelude.{◌≡◌, ◌<◌, ◌^◌, IsTrue};
ghost use Rattle.cosigner_core.specs.Progress.{first_progress, fits_height, keys_by};
ghost use Rattle.cosigner_core.specs.Progress.{progress_after, takes_child};
ghost use Rattle.cosigner_core.specs.Views.{step_said};

use crate::step::StepRef;
use crate::terms::KeyTerms;
use lms_core::LmsType;
use tree_core::TreeHash;
use tree_proofs::Checkpoint;

/// What a cosigner holds of its log, the number of the one-time key that signs next, and how many
/// lower trees its key has, with their height if there are any.
#[derive(Clone, Copy, Debug)]
pub struct Progress {
    pub held: Checkpoint,
    pub next: u64,
    pub children: u32,
    pub low: Option<LmsType>,
}

impl Progress {
    /// No entries are held, no one-time key has signed, and no lower tree is made.
    pub(crate) fn empty<H: TreeHash>() -> Progress
        ensures { result ≡ first_progress H.hash }
    {
        Progress {
            held: Checkpoint::empty::<H>(),
            next: 0,
            children: 0,
            low: None,
        }
    }

    /// How many one-time keys of these terms may sign messages after so many steps.
    pub(crate) fn keys(&self, terms: KeyTerms) -> u64
        ensures { result ≡ keys_by terms self.now }
    {
        match (terms, self.low) {
            (KeyTerms::OneLevel(lms), _) => u64::from(lms.leaves()),
            (KeyTerms::TwoLevels { .. }, None) => 0,
            (KeyTerms::TwoLevels { .. }, Some(low)) => {
                u64::from(self.children) * u64::from(low.leaves())
            }
        }
    }

    /// The progress after one step more of a cosigner with a key of these terms, or none where the
    /// step is not allowed.
    pub(crate) fn after<H: TreeHash>(&self, terms: KeyTerms, step: &StepRef<'_>) -> Option<Progress>
        ensures { result ≡ progress_after H.hash terms self.now (step_said step.now) }
    {
        match step {
            StepRef::Advance { size, root, proof } => {
                if *size <= self.held.size || !self.held.is_prefix_of::<H>(*size, root, proof) {
                    return None;
                }
                Some(Progress {
                    held: Checkpoint {
                        size: *size,
                        root: *root,
                    },
                    next: self.next,
                    children: self.children,
                    low: self.low,
                })
            }
            StepRef::Sign {
                index,
                start,
                end,
                hash,
                proof,
            } => {
                let index = u64::from(*index);
                if index != self.next || index >= self.keys(terms) {
                    return None;
                }
                if !self.held.has_subtree::<H>(*start, *end, hash, proof) {
                    return None;
                }
                Some(Progress {
                    held: self.held,
                    next: self.next + 1,
                    children: self.children,
                    low: self.low,
                })
            }
            StepRef::Child { number, low } => {
                if !self.takes_child(terms, *number, *low) {
                    return None;
                }
                Some(Progress {
                    held: self.held,
                    next: self.next,
                    children: self.children + 1,
                    low: Some(*low),
                })
            }
        }
    }

    // Whether the next lower tree of a key of these terms may be made, and has this number and this
    // height.
    fn takes_child(&self, terms: KeyTerms, number: u32, low: LmsType) -> bool
        ensures exact { result ≡ takes_child terms self.now number low }
        ensures few { IsTrue result → self.now.children < 2 ^ 25 }
    {
        match terms {
            KeyTerms::OneLevel(_) => false,
            KeyTerms::TwoLevels { top, low: known } => {
                number == self.children
                    && number < top.leaves()
                    && self.next == self.keys(terms)
                    && fits_height(known, low)
                    && fits_height(self.low, low)
            }
        }
    }
}

// Whether a height, where it is known, is this one.
fn fits_height(known: Option<LmsType>, low: LmsType) -> bool
    ensures { result ≡ fits_height known low }
{
    match known {
        None => true,
        Some(known) => known.typecode() == low.typecode(),
    }
}
