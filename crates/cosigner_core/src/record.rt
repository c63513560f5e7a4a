//! Reading the bodies of a cosigner's records.

ghost use Rattle.std.specs.Prelude.{◌≡◌, ◌≢◌, Err, option_map, option_and_then, IfSome, IfOk};
ghost use Rattle.byte_formats.specs.Readings.{Moves, whole_of};
ghost use Rattle.lms_core.specs.Heights.{IsSigningHeight};
ghost use Rattle.tls_wire.specs.Reading.{bytes_at};
ghost use Rattle.cosigner_core.specs.Records.{advance_step_at, cosigner_at, cosigner_in, founded};
ghost use Rattle.cosigner_core.specs.Records.{cosigner_settings_with, sign_step_at, signing_type};
ghost use Rattle.cosigner_core.specs.Records.{advance_of, child_of, child_step_at, low_at};
ghost use Rattle.cosigner_core.specs.Records.{low_type, sign_of, step_in};
ghost use Rattle.cosigner_core.specs.Results.{CosignerFinds};
ghost use Rattle.cosigner_core.specs.declared.error.RecordError.TheVariants.{Memory as RecordMemory};
ghost use Rattle.cosigner_core.specs.Views.{step_said};

use crate::error::RecordError;
use crate::fault::FormError;
use crate::settings::CosignerSettings;
use crate::step::StepRef;
use hss_core::{LmsType, OtsType, SECRET_LEN, Secret};
use std::alloc::Global;
use tls_wire::{AnchorId, Cursor, Short};

pub(crate) const COSIGNER: u8 = 0x11;

pub(crate) const ADVANCE: u8 = 0x12;

pub(crate) const SIGN: u8 = 0x13;

pub(crate) const CHILD: u8 = 0x14;

pub(crate) const COSIGNER_2: u8 = 0x15;

// The secret of a key.
fn secret(cursor: &mut Cursor<'_>) -> Result<Secret, Short>
    ensures { Moves (λ secret. secret) (bytes_at 48) cursor.old result cursor.new }
{
    let bytes = cursor.bytes(SECRET_LEN)?;
    match Secret::from_slice(bytes) {
        Some(secret) => Ok(secret),
        None => unreachable!(),
    }
}

// The typecode of lower trees, where there are two levels.
fn low_code(cursor: &mut Cursor<'_>, two: bool) -> Result<Option<u32>, Short>
    ensures { Moves (λ low. low) (low_at two) cursor.old result cursor.new }
{
    if two {
        let code = cursor.u32()?;
        Ok(Some(code))
    } else {
        Ok(None)
    }
}

// What stands after the tag of a first record.
#[derive(Drop)]
struct FirstFields<'a> {
    id: &'a [u8],
    log: &'a [u8],
    lms: u32,
    low: Option<u32>,
    ots: u32,
    secret: Secret,
}

// The two ids, the typecodes and the secret after the tag, in their order.
#[tactic(auto, unfolding(crate::specs::Records::cosigner_at))]
fn cosigner_fields<'a>(cursor: &mut Cursor<'a>, two: bool) -> Result<FirstFields<'a>, Short>
    ensures { Moves (λ x. (x.id.now, (x.log.now, (x.lms, (x.low, (x.ots, x.secret))))))
        (cosigner_at two) cursor.old result cursor.new }
{
    let id = cursor.vec8()?;
    let log = cursor.vec8()?;
    let lms = cursor.u32()?;
    let low = low_code(cursor, two)?;
    let ots = cursor.u32()?;
    let secret = secret(cursor)?;
    Ok(FirstFields {
        id,
        log,
        lms,
        low,
        ots,
        secret,
    })
}

// The size, the root and the proof after the tag of an Advance.
#[tactic(auto, unfolding(crate::specs::Records::advance_step_at))]
fn advance_fields<'a>(cursor: &mut Cursor<'a>) -> Result<(u64, [u8; 32], &'a [[u8; 32]]), FormError>
    ensures { Moves (λ x. (x.0, (x.1, x.2.now))) advance_step_at cursor.old result cursor.new }
{
    let size = cursor.u64()?;
    let root = *cursor.hash()?;
    let proof = cursor.hashes()?;
    Ok((size, root, proof))
}

// The number of the one-time key, the interval, the hash and the proof after the tag of a Sign.
#[tactic(auto, unfolding(crate::specs::Records::sign_step_at))]
fn sign_fields<'a>(
    cursor: &mut Cursor<'a>,
) -> Result<(u32, u64, u64, [u8; 32], &'a [[u8; 32]]), FormError>
    ensures { Moves (λ x. (x.0, (x.1, (x.2, (x.3, x.4.now))))) sign_step_at cursor.old result
        cursor.new }
{
    let index = cursor.u32()?;
    let start = cursor.u64()?;
    let end = cursor.u64()?;
    let hash = *cursor.hash()?;
    let proof = cursor.hashes()?;
    Ok((index, start, end, hash, proof))
}

// An Advance that ends where the record does.
fn advance_step(mut cursor: Cursor<'_>) -> Result<StepRef<'_>, RecordError>
    ensures found { CosignerFinds step_said
        (option_map advance_of (whole_of (advance_step_at cursor.entry))) result }
    ensures never { result ≢ Err RecordMemory }
{
    let (size, root, proof) = advance_fields(&mut cursor)?;
    if cursor.left() != 0 {
        return Err(RecordError::Unfit);
    }
    Ok(StepRef::Advance { size, root, proof })
}

// A Sign that ends where the record does.
fn sign_step(mut cursor: Cursor<'_>) -> Result<StepRef<'_>, RecordError>
    ensures found { CosignerFinds step_said (option_map sign_of
        (whole_of (sign_step_at cursor.entry)))
        result }
    ensures never { result ≢ Err RecordMemory }
{
    let (index, start, end, hash, proof) = sign_fields(&mut cursor)?;
    if cursor.left() != 0 {
        return Err(RecordError::Unfit);
    }
    Ok(StepRef::Sign {
        index,
        start,
        end,
        hash,
        proof,
    })
}

// The number and the typecode after the tag of a Child.
#[tactic(auto, unfolding(crate::specs::Records::child_step_at))]
fn child_fields(cursor: &mut Cursor<'_>) -> Result<(u32, u32), FormError>
    ensures { Moves (λ x. (x.0, x.1)) child_step_at cursor.old result cursor.new }
{
    let number = cursor.u32()?;
    let code = cursor.u32()?;
    Ok((number, code))
}

// A Child that ends where the record does.
fn child_step(mut cursor: Cursor<'_>) -> Result<StepRef<'_>, RecordError>
    ensures found { CosignerFinds step_said (option_and_then child_of
        (whole_of (child_step_at cursor.entry)))
        result }
    ensures never { result ≢ Err RecordMemory }
{
    let (number, code) = child_fields(&mut cursor)?;
    if cursor.left() != 0 {
        return Err(RecordError::Unfit);
    }
    match signing_type(code) {
        Some(low) => Ok(StepRef::Child { number, low }),
        None => Err(RecordError::Unfit),
    }
}

/// What an Advance, a Sign or a Child says, in the body of a record after the first one.
#[tactic(auto, unfolding(crate::specs::Records::step_in))]
pub(crate) fn read_step(body: &[u8]) -> Result<StepRef<'_>, RecordError>
    ensures found { CosignerFinds step_said (step_in body.now) result }
    ensures never { result ≢ Err RecordMemory }
{
    let mut cursor = Cursor::new(body);
    match cursor.u8()? {
        ADVANCE => advance_step(cursor),
        SIGN => sign_step(cursor),
        CHILD => child_step(cursor),
        _ => Err(RecordError::Unfit),
    }
}

// The height that a typecode names, where a key of that height signs.
fn signing_type(code: u32) -> Option<LmsType>
    ensures exact { result ≡ signing_type code }
    ensures signs { IfSome result IsSigningHeight }
{
    match code {
        5 => Some(LmsType::H5),
        6 => Some(LmsType::H10),
        _ => None,
    }
}

// The height of lower trees, if there are any.
fn low_type(code: Option<u32>) -> Option<Option<LmsType>>
    ensures exact { result ≡ low_type code }
    ensures signs { IfSome result (λ low. IfSome low IsSigningHeight) }
{
    match code {
        None => Some(None),
        Some(code) => match signing_type(code) {
            Some(low) => Some(Some(low)),
            None => None,
        },
    }
}

fn settings_with(
    alloc: Global,
    id: &[u8],
    log: &[u8],
    lms: u32,
    low: Option<u32>,
    ots: u32,
) -> Result<CosignerSettings, RecordError>
    ensures found { CosignerFinds (λ s. s) (cosigner_settings_with id.now log.now lms low ots)
        result }
    ensures signs { IfOk result (λ s. IsSigningHeight s.lms) }
    ensures low_signs { IfOk result (λ s. IfSome s.low IsSigningHeight) }
{
    let Some(lms) = signing_type(lms) else {
        return Err(RecordError::Unfit);
    };
    let Some(low) = low_type(low) else {
        return Err(RecordError::Unfit);
    };
    let Some(ots) = OtsType::from_typecode(ots) else {
        return Err(RecordError::Unfit);
    };
    let id = AnchorId::from_bytes(alloc, id)?;
    let log = AnchorId::from_bytes(alloc, log)?;
    Ok(CosignerSettings {
        id,
        log,
        lms,
        low,
        ots,
    })
}

// The settings and the secret after the tag of a first record, if nothing else stands there.
fn founded(
    alloc: Global,
    mut cursor: Cursor<'_>,
    two: bool,
) -> Result<(CosignerSettings, Secret), RecordError>
    ensures found { CosignerFinds (λ x. x) (option_and_then founded
        (whole_of (cosigner_at two cursor.entry)))
        result }
    ensures signs { IfOk result (λ x. IsSigningHeight x.0.lms) }
    ensures low_signs { IfOk result (λ x. IfSome x.0.low IsSigningHeight) }
{
    let FirstFields {
        id,
        log,
        lms,
        low,
        ots,
        secret,
    } = cosigner_fields(&mut cursor, two)?;
    if cursor.left() != 0 {
        return Err(RecordError::Unfit);
    }
    let settings = settings_with(alloc, id, log, lms, low, ots)?;
    Ok((settings, secret))
}

/// The settings and the secret in the body of a Cosigner or a Cosigner2, the first record of a
/// journal.
#[tactic(auto, unfolding(crate::specs::Records::cosigner_in))]
pub(crate) fn read_settings(
    alloc: Global,
    body: &[u8],
) -> Result<(CosignerSettings, Secret), RecordError>
    ensures found { CosignerFinds (λ x. x) (cosigner_in body.now) result }
    ensures signs { IfOk result (λ x. IsSigningHeight x.0.lms) }
    ensures low_signs { IfOk result (λ x. IfSome x.0.low IsSigningHeight) }
{
    let mut cursor = Cursor::new(body);
    match cursor.u8()? {
        COSIGNER => founded(alloc, cursor, false),
        COSIGNER_2 => founded(alloc, cursor, true),
        _ => Err(RecordError::Unfit),
    }
}
