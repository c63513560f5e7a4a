//! The walk from a signature to the list of entries that underlies it.

ghost use Rattle.std.specs.Prelude.{◌≡◌, ◌<◌, ◌+◌, ◌↔◌, IsTrue, IfOk, Some, length, slice_get};
ghost use Rattle.std.specs.Prelude.{slice_index_or};
ghost use Rattle.cosigner_core.specs.declared.step.Step.{Step};
ghost use Rattle.collide.specs.Extraction.{Extracts};
ghost use Rattle.cosigner_steps.specs.Steps.{AreSteps, HasPrefix, IsOfList, IsSign, IsWithin};
ghost use Rattle.cosigner_steps.specs.Steps.{Shows, held_by_first, held_by, prefix_inputs};
ghost use Rattle.cosigner_steps.specs.Steps.{proof_inputs};

use crate::prefix::has_prefix;
use collide::{Finding, in_consistency};
use cosigner_core::{Export, Step};
use cosigner_steps::held_by;
use entry_list::{Entries, Items};
use mtc_io::Memory;
use std::alloc::Global;
use tree_core::TreeHash;
use tree_proofs::{EntryList, list_hash, part_between};

// Whether the list's own entries in the interval of a Sign have the signed hash.
fn is_of_list<H: TreeHash>(entries: &Entries<'_>, step: &Step) -> bool
    requires { IsWithin (length entries.now) step.now }
    ensures { IsTrue result ↔ IsOfList H.hash entries.now step.now }
{
    match step {
        Step::Advance { .. } | Step::Child { .. } => true,
        Step::Sign {
            start,
            end,
            hash,
            ..
        } => list_hash::<H, _>(&part_between(entries, *start, *end)) == *hash,
    }
}

// The index of a step after which the list begins with what is held, and before which it doesn't.
// It is found by halves, so that few prefixes of the list are hashed.
fn parting<H: TreeHash>(entries: &Entries<'_>, steps: &[Step], from: usize) -> usize
    requires within { from < length steps.now }
    requires apart { HasPrefix H.hash entries.now (held_by_first H.hash steps.now from) → ⊥ }
    requires whole { HasPrefix H.hash entries.now
        (held_by_first H.hash steps.now (length steps.now)) }
    ensures within { result < length steps.now }
    ensures apart { HasPrefix H.hash entries.now (held_by_first H.hash steps.now result) → ⊥ }
    ensures next { HasPrefix H.hash entries.now
        (held_by_first H.hash steps.now (result + 1)) }
{
    let mut low = from;
    let mut high = steps.len();
    while high - low > 1 {
        let middle = low + (high - low) / 2;
        if has_prefix::<H, _>(entries, &held_by::<H>(&steps[..middle])) {
            high = middle;
        } else {
            low = middle;
        }
    }
    low
}

// The list begins with what is held after a step and not with what was held before it. So the step
// is an Advance, and its proof shows two strings with one hash.
fn at_advance<H: TreeHash>(
    alloc: Global,
    entries: &Entries<'_>,
    steps: &[Step],
    place: usize,
) -> Result<Finding, Memory>
    requires allowed { AreSteps H.hash steps.now }
    requires within { place < length steps.now }
    requires apart { HasPrefix H.hash entries.now (held_by_first H.hash steps.now place) → ⊥ }
    requires next { HasPrefix H.hash entries.now
        (held_by_first H.hash steps.now (place + 1)) }
    ensures { IfOk result (Shows H.hash (prefix_inputs H.hash entries.now steps.now)
        (proof_inputs H.hash steps.now)) }
{
    let before = held_by::<H>(&steps[..place]);
    match &steps[place] {
        Step::Advance { size, proof, .. } => in_consistency::<H, _>(
            alloc,
            &entries.prefix(*size as usize),
            0,
            before.size,
            &before.root,
            proof.as_slice(),
        ),
        Step::Sign { .. } | Step::Child { .. } => unreachable!(),
    }
}

// The list begins with what is held where a Sign was made. So its own entries in the interval have
// the signed hash, or the proof of the Sign shows two strings with one hash.
fn at_sign<H: TreeHash>(
    alloc: Global,
    entries: &Entries<'_>,
    steps: &[Step],
    place: usize,
    step: &Step,
) -> Result<Finding, Memory>
    requires allowed { AreSteps H.hash steps.now }
    requires within { place < length steps.now }
    requires step { step.now ≡ slice_index_or steps.now place step.now }
    requires sign { IsSign step.now }
    requires prefix { HasPrefix H.hash entries.now (held_by_first H.hash steps.now place) }
    ensures { IfOk result (Extracts H.hash (IsOfList H.hash entries.now step.now)
        (prefix_inputs H.hash entries.now steps.now) (proof_inputs H.hash steps.now)) }
{
    let held = held_by::<H>(&steps[..place]);
    match step {
        Step::Advance { .. } | Step::Child { .. } => unreachable!(),
        Step::Sign {
            start,
            end,
            hash,
            proof,
            ..
        } => in_consistency::<H, _>(
            alloc,
            &entries.prefix(held.size as usize),
            *start,
            *end,
            hash,
            proof.as_slice(),
        ),
    }
}

/// Whether the list's own entries in the interval of the Sign at an index have the signed hash, or
/// else two strings with one hash.
pub(crate) fn find_signed<H: TreeHash>(
    alloc: Global,
    entries: &Entries<'_>,
    steps: &[Step],
    place: usize,
    step: &Step,
) -> Result<Finding, Memory>
    requires allowed { AreSteps H.hash steps.now }
    requires within { place < length steps.now }
    requires step { step.now ≡ slice_index_or steps.now place step.now }
    requires sign { IsSign step.now }
    requires whole { HasPrefix H.hash entries.now
        (held_by_first H.hash steps.now (length steps.now)) }
    ensures { IfOk result (Extracts H.hash (IsOfList H.hash entries.now step.now)
        (prefix_inputs H.hash entries.now steps.now) (proof_inputs H.hash steps.now)) }
{
    if is_of_list::<H>(entries, step) {
        return Ok(Finding::Same);
    }
    if has_prefix::<H, _>(entries, &held_by::<H>(&steps[..place])) {
        return at_sign::<H>(alloc, entries, steps, place, step);
    }
    let last = parting::<H>(entries, steps, place);
    at_advance::<H>(alloc, entries, steps, last)
}

/// Whether the list's own entries in the interval of a Sign have the signed hash, or else two
/// different strings with one hash. The first is hashed in the tree hash of so many of the list's
/// first entries as a checkpoint of the cosigner has, the second in the opening of its proofs.
///
/// The Sign is the step at the index `sign`, and the list begins with what the cosigner holds at
/// last.
pub fn walk<H: TreeHash>(
    alloc: Global,
    items: &Items<'_, H>,
    kept: &Export,
    sign: usize,
) -> Result<Finding, Memory>
    requires allowed { AreSteps H.hash kept.now.steps }
    requires within { sign < length kept.now.steps }
    requires sign { (step : Step) → slice_get kept.now.steps sign ≡ Some step → IsSign step }
    requires whole { HasPrefix H.hash items.now.entries (held_by H.hash kept.now.steps) }
    ensures { (step : Step) → slice_get kept.now.steps sign ≡ Some step → IfOk result
        (Extracts H.hash (IsOfList H.hash items.now.entries step)
        (prefix_inputs H.hash items.now.entries kept.now.steps)
        (proof_inputs H.hash kept.now.steps)) }
{
    let steps = kept.steps.as_slice();
    find_signed::<H>(alloc, &items.entries(), steps, sign, &steps[sign])
}
