//! Exports: what is written, what is read again, and what is refused.

use crate::cosigners::{
    MemCosigner, cosigner_in, disk_after, ids, is_known, of_eight, opened, sign_all, sign_two,
};
use crate::journals::disk;
use crate::known::{Known, LOG, PUBLIC};
use cosigner_core::{
    CosignerSettings, Export, ExportError, ReadExportError, Step, pack, read_export,
};
use disk_core::MemDisk;
use hss_core::{LmsType, OtsType, SECRET_LEN, Secret, SigBuf};
use journal_core::{FirstRecord, Journal};
use mtc_io::{Bytes, MemSink, Memory};
use std::alloc::Global;
use std::test::Fail;
use tree_core::{Sha, leaf};

// What an implementation that stands apart writes of two Advances and two Signs.
const EXPORT: Known = (
    380,
    [
        0x39, 0x54, 0xA3, 0x30, 0xF3, 0xAB, 0xD8, 0x6D, 0x84, 0x33, 0xC7, 0x49, 0xF8, 0xF2, 0xFF,
        0x8F, 0x12, 0xE8, 0x12, 0x11, 0x9D, 0x68, 0x85, 0x4F, 0x98, 0x49, 0x1B, 0xAD, 0xB4, 0xF0,
        0xED, 0x59,
    ],
);

fn sink(alloc: Global, per_call: usize, failing: &[u64]) -> Result<MemSink, Memory> {
    let failing = Vec::from_slice(alloc, failing)?;
    Ok(MemSink::new(alloc, per_call.max(1), failing))
}

fn sign_both(cosigner: &mut MemCosigner, out: &mut SigBuf) -> bool {
    sign_all(cosigner, out).is_ok() && sign_two(cosigner, out).is_ok()
}

// The cosigner that has signed twice.
fn signed(alloc: Global) -> Result<Option<MemCosigner>, Memory> {
    let Some(mut cosigner) = of_eight(alloc, &[])? else {
        return Ok(None);
    };
    let done = sign_both(&mut cosigner, &mut SigBuf::new());
    Ok(if done { Some(cosigner) } else { None })
}

fn export(cosigner: &mut MemCosigner, out: &mut MemSink) -> Result<(), ExportError> {
    cosigner.export(out)
}

/// The export of a cosigner, to a sink that takes so much a call.
pub(crate) fn text_of(
    alloc: Global,
    cosigner: &mut MemCosigner,
    per_call: usize,
) -> Result<Option<Bytes>, Memory> {
    let mut out = sink(alloc, per_call, &[])?;
    if export(cosigner, &mut out).is_err() {
        return Ok(None);
    }
    Ok(Some(Bytes::copy_of(alloc, out.taken())?))
}

// That of the cosigner that has signed twice.
fn exported(alloc: Global) -> Result<Option<Bytes>, Memory> {
    match signed(alloc)? {
        Some(mut cosigner) => text_of(alloc, &mut cosigner, 7),
        None => Ok(None),
    }
}

// The number of the one-time key in the last step, and the entries that it signed.
fn last_signed(steps: &[Step]) -> (u32, u64, u64) {
    match steps.last() {
        Some(
            Step::Sign {
                index,
                start,
                end,
                ..
            },
        ) => (*index, *start, *end),
        _ => (0, 0, 0),
    }
}

fn is_the_cosigner(export: &Export) -> bool {
    export.log.as_bytes() == LOG.as_slice()
        && export.public == PUBLIC
        && export.steps.as_slice().len() == 4
        && last_signed(export.steps.as_slice()) == (1, 4, 6)
}

pub(crate) fn read(alloc: Global, text: &[u8]) -> Result<Option<Export>, ReadExportError> {
    read_export::<Sha>(alloc, text)
}

/// What an export is read as: the number of its steps, none for no export, or why it is refused.
pub(crate) fn steps_of(alloc: Global, text: &[u8]) -> Result<Option<usize>, ReadExportError> {
    match read(alloc, text) {
        Ok(Some(export)) => Ok(Some(export.steps.as_slice().len())),
        Ok(None) => Ok(None),
        Err(why) => Err(why),
    }
}

fn reads_as_the_cosigner(alloc: Global, text: &[u8]) -> bool {
    match read(alloc, text) {
        Ok(Some(export)) => is_the_cosigner(&export),
        _ => false,
    }
}

fn is_written_and_read(alloc: Global) -> Result<bool, Memory> {
    match exported(alloc)? {
        Some(text) => Ok(
            is_known(text.as_slice(), EXPORT) && reads_as_the_cosigner(alloc, text.as_slice()),
        ),
        None => Ok(false),
    }
}

#[test]
fn an_export_is_written_and_read(rt: HostRuntime) -> Result<(), Fail> {
    assert!(rt; is_written_and_read(rt.alloc())?);
    Ok(())
}

// The forms begin at 0, 5, 10, 72, 119, 198 and 257.
#[test]
fn an_export_that_is_cut_is_refused_at_its_form(rt: HostRuntime) -> Result<(), Fail> {
    let cases: [(usize, Result<Option<usize>, ReadExportError>); 12] = [
        (0, Ok(None)),
        (1, Err(ReadExportError::Short(0))),
        (4, Err(ReadExportError::Short(0))),
        (5, Err(ReadExportError::Short(5))),
        (10, Err(ReadExportError::Short(10))),
        (71, Err(ReadExportError::Short(10))),
        (72, Ok(Some(0))),
        (75, Err(ReadExportError::Short(72))),
        (118, Err(ReadExportError::Short(72))),
        (119, Ok(Some(1))),
        (200, Err(ReadExportError::Short(198))),
        (379, Err(ReadExportError::Short(257))),
    ];
    let text = exported(rt.alloc())?.ok_or("the export")?;
    for (count, wanted) in cases {
        let prefix = text.as_slice().get(..count).ok_or("its prefix")?;
        assert!(rt; steps_of(rt.alloc(), prefix) == wanted, "{count} bytes");
    }
    Ok(())
}

// What an export with another byte is read as.
fn steps_with(
    alloc: Global,
    text: &[u8],
    offset: usize,
    byte: u8,
) -> Result<Result<Option<usize>, ReadExportError>, Memory> {
    let mut bytes = Vec::from_slice(alloc, text)?;
    if let Some(old) = bytes.get_mut(offset) {
        *old = byte;
    }
    Ok(steps_of(alloc, &bytes))
}

#[test]
fn each_part_of_an_export_is_tested(rt: HostRuntime) -> Result<(), Fail> {
    let cases: [(usize, u8, ReadExportError); 10] = [
        (1, 0x80, ReadExportError::BadId),
        (6, 0x80, ReadExportError::BadId),
        (11, 59, ReadExportError::BadKey),
        (11, 61, ReadExportError::BadKey),
        (15, 3, ReadExportError::BadKey),
        (15, 2, ReadExportError::BadRecord(3)),
        (19, 7, ReadExportError::BadKey),
        (75, 0, ReadExportError::BadRecord(1)),
        (76, 0x13, ReadExportError::BadRecord(1)),
        (84, 5, ReadExportError::BadRecord(2)),
    ];
    let text = exported(rt.alloc())?.ok_or("the export")?;
    for (offset, byte, wanted) in cases {
        let read = steps_with(rt.alloc(), text.as_slice(), offset, byte)?;
        assert!(rt; read == Err(wanted), "offset {offset}");
    }
    Ok(())
}

// The answer of an export, over a disk of which these calls fail.
fn export_over(
    alloc: Global,
    journal: &[u8],
    reads: &[u64],
    out: &mut MemSink,
) -> Result<Option<Result<(), ExportError>>, Memory> {
    match cosigner_in(alloc, journal, reads)? {
        Some(mut cosigner) => Ok(Some(export(&mut cosigner, out))),
        None => Ok(None),
    }
}

// Whether an export whose read of this number fails answers so, with a prefix of the whole.
fn reports_no_read(alloc: Global, journal: &[u8], text: &[u8], read: u64) -> Result<bool, Memory> {
    let mut out = sink(alloc, 1, &[])?;
    let answer = export_over(alloc, journal, &[read], &mut out)?;
    Ok(answer == Some(Err(ExportError::Read)) && text.starts_with(out.taken()))
}

// The same of one whose byte of this number fails.
fn reports_no_write(alloc: Global, journal: &[u8], text: &[u8], byte: u64) -> Result<bool, Memory> {
    let mut out = sink(alloc, 1, &[byte])?;
    let answer = export_over(alloc, journal, &[], &mut out)?;
    Ok(answer == Some(Err(ExportError::Write)) && text.get(..byte as usize) == Some(out.taken()))
}

// Whether both answer so.
fn reports_both(
    alloc: Global,
    journal: &[u8],
    text: &[u8],
    read: u64,
    byte: u64,
) -> Result<bool, Memory> {
    Ok(
        reports_no_read(alloc, journal, text, read)?
            && reports_no_write(alloc, journal, text, byte)?,
    )
}

// The same of the journal of the cosigner that has signed twice.
fn fails_soundly(alloc: Global, read: u64, byte: u64) -> Result<bool, Memory> {
    let Some(mut cosigner) = signed(alloc)? else {
        return Ok(false);
    };
    let text = text_of(alloc, &mut cosigner, 7);
    let journal = disk_after(cosigner);
    match text? {
        Some(text) => reports_both(alloc, journal.bytes(), text.as_slice(), read, byte),
        None => Ok(false),
    }
}

// Four calls open the journal. An export then reads two times of each record but the first.
#[test]
fn each_read_and_each_write_of_an_export_may_fail(rt: HostRuntime) -> Result<(), Fail> {
    for read in 4_u64..12 {
        let byte = if read == 11 {
            379
        } else {
            read.saturating_sub(4).saturating_mul(45)
        };
        assert!(rt;
            fails_soundly(rt.alloc(), read, byte)?,
            "read {read}, byte {byte}"
        );
    }
    Ok(())
}

// The export of the cosigner that holds eight entries, after a Sign in which this call of the disk
// failed.
fn after_failure(alloc: Global, call: u64) -> Result<Option<Bytes>, Memory> {
    let Some(mut cosigner) = of_eight(alloc, &[call])? else {
        return Ok(None);
    };
    if sign_all(&mut cosigner, &mut SigBuf::new()).is_ok() {
        return Ok(None);
    }
    text_of(alloc, &mut cosigner, 9)
}

// The record and its commit byte are written and synced, from call 12 on. The Signs begin at 198.
#[test]
fn a_failed_append_is_not_exported(rt: HostRuntime) -> Result<(), Fail> {
    let text = exported(rt.alloc())?.ok_or("the export")?;
    let before = text.as_slice().get(..198).ok_or("its prefix")?;
    for call in 12..16 {
        let found = after_failure(rt.alloc(), call)?.ok_or("another export")?;
        assert!(rt; found.as_slice() == before, "call {call}");
    }
    Ok(())
}

/// The body of an Advance to the one entry of a log.
pub(crate) fn advance_body(hash: &[u8; 32]) -> [u8; 43] {
    let mut body = [0; 43];
    body[0] = 0x12;
    body[8] = 1;
    body[9..41].copy_from_slice(hash);
    body
}

/// That of a Sign of it.
pub(crate) fn sign_body(index: u32, hash: &[u8; 32]) -> [u8; 55] {
    let mut body = [0; 55];
    body[0] = 0x13;
    body[1..5].copy_from_slice(&index.to_be_bytes());
    body[20] = 1;
    body[21..53].copy_from_slice(hash);
    body
}

// Puts an Advance to one entry and so many Signs of it into a journal: whether all are there.
fn signs_often(journal: &mut Journal<MemDisk>, count: u32) -> bool {
    let hash = leaf::<Sha>(&[]);
    if journal.append(&advance_body(&hash)).is_err() {
        return false;
    }
    for index in 0..count {
        if journal.append(&sign_body(index, &hash)).is_err() {
            return false;
        }
    }
    true
}

// The first record of a cosigner of height 10.
fn packed(alloc: Global) -> Result<FirstRecord, Memory> {
    let secret = Secret::from_slice(&[7; SECRET_LEN]).ok_or(Memory)?;
    let (id, log) = ids(alloc)?;
    let settings = CosignerSettings {
        id,
        log,
        lms: LmsType::H10,
        low: None,
        ots: OtsType::W1,
    };
    pack(alloc, &settings, &secret)
}

fn begun(alloc: Global) -> Result<Option<Journal<MemDisk>>, Memory> {
    let disk = disk(alloc, &[], &[])?;
    Ok(packed(alloc)?.start(disk).ok())
}

// The disk of that cosigner, which has signed so often.
fn signed_often(alloc: Global, count: u32) -> Result<Option<MemDisk>, Memory> {
    let Some(mut journal) = begun(alloc)? else {
        return Ok(None);
    };
    let signed = signs_often(&mut journal, count);
    let disk = journal.into_disk();
    Ok(if signed { Some(disk) } else { None })
}

// The export of the cosigner on a disk.
fn text_on(alloc: Global, disk: MemDisk) -> Result<Option<Bytes>, Memory> {
    match opened(alloc, disk) {
        Some(mut cosigner) => text_of(alloc, &mut cosigner, 65_536),
        None => Ok(None),
    }
}

// The steps of an export, and its bytes.
fn measured(alloc: Global, text: &Bytes) -> Option<(usize, usize)> {
    match steps_of(alloc, text.as_slice()) {
        Ok(Some(steps)) => Some((steps, text.len())),
        _ => None,
    }
}

// Those of that of a cosigner that has signed so often.
fn exports_often(alloc: Global, count: u32) -> Result<Option<(usize, usize)>, Memory> {
    let Some(disk) = signed_often(alloc, count)? else {
        return Ok(None);
    };
    match text_on(alloc, disk)? {
        Some(text) => Ok(measured(alloc, &text)),
        None => Ok(None),
    }
}

#[test]
fn a_thousand_signatures_are_exported(rt: HostRuntime) -> Result<(), Fail> {
    assert!(rt; exports_often(rt.alloc(), 1_000)? == Some((1_001, 59_119)));
    Ok(())
}
