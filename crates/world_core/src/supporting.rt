//! Whether an export supports what was accepted.

ghost use Rattle.std.specs.Prelude.{◌≡◌, ◌<◌, true, false, MatchOption, IfSome, Some};
ghost use Rattle.std.specs.List.{position};
ghost use Rattle.policy_core.specs.Counting.{is_in_set};
ghost use Rattle.world_core.specs.Audit.{is_counted, is_counted_as, is_recorded, is_sign_of};

use cosigner_core::{Export, Step};
use policy_core::{Accepted, Known, Store};

// The set has the cosigner at this index.
fn is_in_set(set: u64, place: usize) -> bool
    requires { place < 64 }
    ensures { result ≡ is_in_set set place }
{
    (set >> place) & 1 == 1
}

// The cosigner at this index counts, and is that of the export.
fn is_counted_as(set: u64, export: &Export, place: usize, known: &Known) -> bool
    requires { place < 64 }
    ensures { result ≡ is_counted_as set export.now.cosigner export.now.public place known.now }
{
    is_in_set(set, place)
        && known.id.as_bytes() == export.cosigner.as_bytes()
        && known.key == export.public
}

// A cosigner that counts is that of the export.
fn is_counted(store: &Store, set: u64, export: &Export) -> bool
    ensures { result ≡ is_counted store.now set export.now }
{
    for (place, known) in store.cosigners.as_slice().iter().enumerate() {
        if is_counted_as(set, export, place, known) {
            return true;
        }
    }
    false
}

// The step is a Sign of the accepted interval, with its hash.
fn is_sign_of(accepted: &Accepted, step: &Step) -> bool
    ensures { result ≡ is_sign_of accepted.now step.now }
{
    match step {
        Step::Advance { .. } | Step::Child { .. } => false,
        Step::Sign {
            start,
            end,
            hash,
            ..
        } => *start == accepted.start && *end == accepted.end && *hash == accepted.hash,
    }
}

// The index of such a step.
fn sign_index(accepted: &Accepted, steps: &[Step]) -> Option<usize>
    ensures { result ≡ position (is_sign_of accepted.now) steps.now }
{
    steps.iter().position(|step| is_sign_of(accepted, step))
}

/// The index of a Sign of what was accepted, if the export is of the store's log and of a cosigner
/// that counts.
#[tactic(auto, unfolding(crate::specs::Audit::is_recorded))]
pub fn recorded_at(store: &Store, accepted: &Accepted, set: u64, export: &Export) -> Option<usize>
    ensures none { MatchOption result (is_recorded store.now accepted.now set export.now ≡ false)
        (λ place. is_recorded store.now accepted.now set export.now ≡ true) }
    ensures there { IfSome result (λ place.
        position (is_sign_of accepted.now) export.now.steps ≡ Some place) }
{
    if export.log.as_bytes() != store.log.as_bytes() || !is_counted(store, set, export) {
        return None;
    }
    sign_index(accepted, export.steps.as_slice())
}
