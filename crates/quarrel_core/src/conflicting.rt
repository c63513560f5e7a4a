//! The first two Signs of one interval with different hashes.

ghost use Rattle.std.specs.Prelude.{◌≡◌, ℕ, unwrap_or, IfOk, OnOk, Some};
ghost use Rattle.std.specs.Prelude.{if◌then◌else◌, ◌&&◌, ◌==◌};
ghost use Rattle.cosigner_core.specs.declared.step.Step.{Step};
ghost use Rattle.quarrel_core.specs.Conflicts.{conflict_in, conflicts};
ghost use Rattle.quarrel_core.specs.Firsts.{first_sign_in};

use cosigner_core::Step;
use mtc_io::Memory;
use std::alloc::Global;
use std::collections::BTreeMap;

// Both steps are Signs of one interval, with different hashes.
fn are_in_conflict(one: &Step, other: &Step) -> bool
    ensures { result ≡ conflicts one.now other.now }
{
    match one {
        Step::Advance { .. } | Step::Child { .. } => false,
        Step::Sign {
            start,
            end,
            hash,
            ..
        } => match other {
            Step::Advance { .. } | Step::Child { .. } => false,
            Step::Sign {
                start: from,
                end: to,
                hash: node,
                ..
            } => from == start && to == end && hash != node,
        },
    }
}

// The index of the first Sign of an interval, by the indices of those before this one, which is
// noted if there is none.
fn first_sign(
    firsts: &mut BTreeMap<(u64, u64), usize>,
    start: u64,
    end: u64,
    place: usize,
) -> Result<usize, Memory>
    ensures first { IfOk result (λ first. first
        ≡ unwrap_or (first_sign_in firsts.old (start, end)) place) }
    ensures noted { OnOk result ((interval : ℕ × ℕ) → first_sign_in firsts.new interval
        ≡ (if (start == interval.0) && (end == interval.1)
        then Some (unwrap_or (first_sign_in firsts.old (start, end)) place)
        else first_sign_in firsts.old interval)) }
{
    if let Some(first) = firsts.get(&(start, end)) {
        return Ok(*first);
    }
    firsts.insert((start, end), place)?;
    Ok(place)
}

/// The indices of the first Sign that is in conflict with an earlier one, and of the earliest of
/// these before it. Each step is read once, with one look-up.
pub(crate) fn conflict(alloc: Global, steps: &[Step]) -> Result<Option<(usize, usize)>, Memory>
    ensures { IfOk result (λ found. found ≡ conflict_in steps.now) }
{
    let mut firsts = BTreeMap::new(alloc);
    for place in 0..steps.len() {
        let step = &steps[place];
        let Step::Sign { start, end, .. } = step else {
            continue;
        };
        let first = first_sign(&mut firsts, *start, *end, place)?;
        if are_in_conflict(step, &steps[first]) {
            return Ok(Some((first, place)));
        }
    }
    Ok(None)
}
