//! Which records may follow the first one of a log's journal.

ghost use Rattle.std.specs.Prelude.{◌≡◌, [], ◌∷◌, ◌++◌, IfOk};
ghost use Rattle.issuance_log.specs.Folds.{may_follow_log, next_view};
ghost use Rattle.issuance_log.specs.Results.{HasTried};

use crate::error::RecordError;
use crate::numbers::Numbers;
use crate::settings::LogSettings;
use mtc_io::{Bytes, Memory};
use std::alloc::Global;
use tree_core::TreeHash;

// Takes one record more: whether it follows the rules.
fn try_take<H: TreeHash>(numbers: &mut Numbers, body: &[u8]) -> Result<bool, Memory>
    ensures { HasTried (next_view H.hash numbers.old.view body.now) numbers.new.view result }
{
    match numbers.take::<H>(body) {
        Ok(()) => Ok(true),
        Err(RecordError::Unfit) => Ok(false),
        Err(RecordError::Memory) => Err(Memory),
    }
}

/// Whether these records, and one more after them, may follow the first record of a log with these
/// settings.
pub fn may_follow<H: TreeHash>(
    alloc: Global,
    settings: &LogSettings,
    bodies: &[Bytes],
    body: &[u8],
) -> Result<bool, Memory>
    ensures { IfOk result (λ may. may
        ≡ may_follow_log H.hash settings.now (bodies.now ++ body.now ∷ [])) }
{
    let mut numbers = Numbers::new(alloc, settings.copy(alloc)?);
    for earlier in bodies {
        if !try_take::<H>(&mut numbers, earlier.as_slice())? {
            return Ok(false);
        }
    }
    try_take::<H>(&mut numbers, body)
}
