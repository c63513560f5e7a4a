//! Reading what others may know of a cosigner.

ghost use Rattle.std.specs.Prelude.{◌≡◌, ◌<◌, ◌++◌, [], ◌∷◌, length, IfSome, IfOk, OnOk};
ghost use Rattle.std.specs.Int.{w32};
ghost use Rattle.byte_formats.specs.Readings.{Answers, Moves};
ghost use Rattle.tls_wire.specs.Reading.{vector_at};
ghost use Rattle.cosigner_core.specs.ExportReading.{MovesUnless, export_prefix_at, export_id_at};
ghost use Rattle.cosigner_core.specs.ExportReading.{export_in, export_key_at, exported_at};
ghost use Rattle.cosigner_core.specs.ExportReading.{signing_terms, steps_left, terms_of_levels};
ghost use Rattle.cosigner_core.specs.Progress.{with_step};
ghost use Rattle.cosigner_core.specs.Views.{step_said};
ghost use Rattle.cosigner_core.specs.declared.error.ReadExportError.TheVariants.{Memory as NoCapacity};

use crate::error::ReadExportError;
use crate::lists::{Export, StepList};
use crate::progress::Progress;
use crate::record::read_step;
use crate::step::{Step, StepRef};
use crate::terms::KeyTerms;
use hss_core::{LmsType, PUBLIC_KEY_LEN, read_key};
use mtc_io::Memory;
use std::alloc::Global;
use tls_wire::{AnchorBytesError, AnchorId, Cursor, Short};
use tree_core::TreeHash;
use tree_proofs::Hashes;

// The terms of a public key of one level or of two, whose top tree has height 5 or 10.
#[tactic(auto, unfolding(crate::specs::ExportReading::signing_terms))]
fn signing_terms(public: &[u8]) -> Option<KeyTerms>
    ensures exact { result ≡ signing_terms public.now }
    ensures length { IfSome result (λ terms. length public.now ≡ 60) }
{
    match read_key(public) {
        Some((levels, lms, _)) if lms.is_signing_height() => terms_of_levels(levels, lms),
        _ => None,
    }
}

fn terms_of_levels(levels: u32, lms: LmsType) -> Option<KeyTerms>
    ensures { result ≡ terms_of_levels levels lms }
{
    match levels {
        1 => Some(KeyTerms::OneLevel(lms)),
        2 => Some(KeyTerms::TwoLevels {
            top: lms,
            low: None,
        }),
        _ => None,
    }
}

// A length of four bytes, and so many bytes. A vector that doesn't fit begins at its length.
#[tactic(auto, unfolding(tls_wire::specs::Reading::vector_at))]
fn vec32<'a>(cursor: &mut Cursor<'a>) -> Result<&'a [u8], Short>
    ensures { Moves (λ bytes. bytes.now) (vector_at w32) cursor.old result cursor.new }
{
    let place = cursor.place();
    let count = cursor.u32()?;
    match cursor.bytes(count as usize) {
        Ok(bytes) => Ok(bytes),
        Err(_) => Err(Short { place }),
    }
}

#[tactic(auto, unfolding(crate::specs::ExportReading::export_id_at))]
fn read_id(alloc: Global, cursor: &mut Cursor<'_>) -> Result<AnchorId, ReadExportError>
    ensures { MovesUnless NoCapacity (λ id. id) export_id_at cursor.old result cursor.new }
{
    let bytes = cursor.vec8()?;
    match AnchorId::from_bytes(alloc, bytes) {
        Ok(id) => Ok(id),
        Err(AnchorBytesError::Memory) => Err(ReadExportError::Memory),
        Err(_) => Err(ReadExportError::BadId),
    }
}

#[tactic(auto, unfolding(crate::specs::ExportReading::export_key_at))]
fn read_public(cursor: &mut Cursor<'_>) -> Result<([u8; PUBLIC_KEY_LEN], KeyTerms), ReadExportError>
    ensures { Moves (λ key. key) export_key_at cursor.old result cursor.new }
{
    let bytes = cursor.vec16()?;
    let Some(terms) = signing_terms(bytes) else {
        return Err(ReadExportError::BadKey);
    };
    let mut public = [0; PUBLIC_KEY_LEN];
    public.copy_from_slice(bytes);
    Ok((public, terms))
}

// The two ids, the public key, and its terms.
#[tactic(auto, unfolding(crate::specs::ExportReading::export_prefix_at))]
fn read_prefix(
    alloc: Global,
    cursor: &mut Cursor<'_>,
) -> Result<(AnchorId, AnchorId, [u8; PUBLIC_KEY_LEN], KeyTerms), ReadExportError>
    ensures { MovesUnless NoCapacity (λ x. (x.0, (x.1, (x.2, x.3)))) export_prefix_at cursor.old
        result cursor.new }
{
    let cosigner = read_id(alloc, cursor)?;
    let log = read_id(alloc, cursor)?;
    let (public, terms) = read_public(cursor)?;
    Ok((cosigner, log, public, terms))
}

// The record with this number, and the progress after it.
#[tactic(auto, unfolding(crate::specs::ExportReading::exported_at))]
fn read_record<'a, H: TreeHash>(
    cursor: &mut Cursor<'a>,
    terms: KeyTerms,
    number: u64,
    progress: &Progress,
) -> Result<(StepRef<'a>, Progress), ReadExportError>
    ensures exact { Moves (λ x. step_said x.0) (exported_at H.hash terms number progress.now)
        cursor.old result cursor.new }
    ensures following { IfOk result (λ x. x.1 ≡ with_step progress.now (step_said x.0)) }
    ensures forward { OnOk result (length cursor.new.rest < length cursor.old.rest) }
{
    let body = vec32(cursor)?;
    let step = match read_step(body) {
        Ok(step) => step,
        Err(_) => return Err(ReadExportError::BadRecord(number)),
    };
    match progress.after::<H>(terms, &step) {
        Some(following) => Ok((step, following)),
        None => Err(ReadExportError::BadRecord(number)),
    }
}

// A step with its own proof.
fn owned(alloc: Global, step: &StepRef<'_>) -> Result<Step, Memory>
    ensures { IfOk result (λ owned. owned ≡ step_said step.now) }
{
    match step {
        StepRef::Advance { size, root, proof } => Ok(Step::Advance {
            size: *size,
            root: *root,
            proof: Hashes::from_vec(Vec::from_slice(alloc, proof)?),
        }),
        StepRef::Sign {
            index,
            start,
            end,
            hash,
            proof,
        } => Ok(Step::Sign {
            index: *index,
            start: *start,
            end: *end,
            hash: *hash,
            proof: Hashes::from_vec(Vec::from_slice(alloc, proof)?),
        }),
        StepRef::Child { number, low } => Ok(Step::Child {
            number: *number,
            low: *low,
        }),
    }
}

fn push(alloc: Global, steps: &mut Vec<Step>, step: &StepRef<'_>) -> Result<(), Memory>
    ensures { OnOk result (steps.new.items ≡ steps.old.items ++ step_said step.now ∷ []) }
{
    steps.push(owned(alloc, step)?)?;
    Ok(())
}

// The records up to the end.
fn read_steps<H: TreeHash>(
    alloc: Global,
    mut cursor: Cursor<'_>,
    terms: KeyTerms,
) -> Result<StepList, ReadExportError>
    ensures { Answers NoCapacity (steps_left H.hash terms cursor.entry) result }
{
    let mut progress = Progress::empty::<H>();
    let mut steps = Vec::new(alloc);
    while cursor.left() > 0 {
        let number = steps.len() as u64 + 1;
        let (step, following) = read_record::<H>(&mut cursor, terms, number, &progress)?;
        push(alloc, &mut steps, &step)?;
        progress = following;
    }
    Ok(StepList::from_vec(steps))
}

/// Reads what [`Cosigner::export`](crate::Cosigner::export) writes: the ids of a cosigner and of
/// its log, its public key, and the records of its journal after the first one. They are read and
/// tested one by one, in a time that grows with the bytes. No bytes are no export.
///
/// Errors, of which the first that is met is answered: `Short` with the offset of the id, the key
/// or the record that doesn't fit; `BadId` for an id that is no anchor id; `BadKey` for a key that
/// isn't one of one level or of two whose top tree has height 5 or 10; `BadRecord` with the number,
/// counted from 1, of a record that says no step, or one that is not allowed after those before it.
/// `Memory` may come instead of any answer. The lower trees of a key of two levels have the height
/// that the first of them shows.
#[tactic(auto, unfolding(crate::specs::ExportReading::export_in))]
pub fn read_export<H: TreeHash>(
    alloc: Global,
    bytes: &[u8],
) -> Result<Option<Export>, ReadExportError>
    ensures { Answers NoCapacity (export_in H.hash bytes.now) result }
{
    if bytes.is_empty() {
        return Ok(None);
    }
    let mut cursor = Cursor::new(bytes);
    let (cosigner, log, public, terms) = read_prefix(alloc, &mut cursor)?;
    let steps = read_steps::<H>(alloc, cursor, terms)?;
    Ok(Some(Export {
        cosigner,
        log,
        public,
        steps,
    }))
}
