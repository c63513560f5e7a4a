//! A second record of the same calls.

ghost use Rattle.std.specs.Prelude.{◌≡◌, IfOk};

use crate::memory::call::{Call, Change, Made};
use mtc_io::{Bytes, Memory};
use std::alloc::Global;

fn copy_of(alloc: Global, call: &Call) -> Result<Call, Memory>
    ensures { IfOk result (λ copy. copy ≡ call.now) }
{
    match call {
        Call::Len => Ok(Call::Len),
        Call::Read { place, size } => Ok(Call::Read {
            place: *place,
            size: *size,
        }),
        Call::Write { place, piece } => Ok(Call::Write {
            place: *place,
            piece: Bytes::copy_of(alloc, piece.as_slice())?,
        }),
        Call::Sync => Ok(Call::Sync),
    }
}

pub(crate) fn copies(alloc: Global, changes: &[Change]) -> Result<Vec<Change>, Memory>
    ensures { IfOk result (λ kept. kept.items ≡ changes.now) }
{
    let mut kept = Vec::new(alloc);
    for change in changes {
        let made = Made {
            call: copy_of(alloc, &change.made.call)?,
            ok: change.made.ok,
        };
        let only_reads = change.only_reads;
        kept.push(Change { only_reads, made })?;
    }
    Ok(kept)
}
