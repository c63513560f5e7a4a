//! Certificates of the entries of a small log.

use crate::entries::request_of;
use crate::issuing::{
    DATES, DNS, KEY, MemLog, add, disk_over, disks_of, issued, new_log, open, open_over,
};
use authority_core::{WriteError, cert};
use disk_core::MemDisk;
use mtc_io::Bytes;
use mtc_proof::check_signatures;
use std::alloc::Global;
use std::test::Fail;
use tree_core::{Sha, leaf};

// The leaf hashes of certificates of the one entry: by its path beside the null entry without
// signatures, alone with an empty signature of the cosigner `a`, and beside the null entry with a
// signature by which there are as many bytes of signatures as can be.
const BESIDE: [u8; 32] = [
    0x87, 0xDE, 0x84, 0xAC, 0x71, 0x25, 0x01, 0x30, 0x5B, 0xCF, 0x88, 0x88, 0x5F, 0xC8, 0xA6, 0xB8,
    0xDB, 0x2B, 0xF2, 0xB2, 0x68, 0xBB, 0xAE, 0x11, 0x56, 0x3D, 0x09, 0x1B, 0x31, 0x4D, 0x46, 0xB5,
];

const ALONE: [u8; 32] = [
    0xEF, 0xE4, 0x81, 0x82, 0xD5, 0x65, 0x9D, 0x7A, 0xED, 0x4A, 0xAB, 0x2B, 0x14, 0x29, 0xC9, 0x36,
    0x9F, 0x8F, 0x97, 0xD3, 0x74, 0x59, 0x76, 0xAD, 0x69, 0x04, 0xE4, 0x27, 0xCD, 0xE2, 0x18, 0x9E,
];

const MOST: [u8; 32] = [
    0x6D, 0x70, 0xED, 0xED, 0x8B, 0xAC, 0xAA, 0x99, 0x77, 0x76, 0x59, 0x4C, 0x37, 0xA6, 0xD3, 0x9A,
    0xE6, 0x2A, 0xB1, 0x2D, 0xE5, 0x8C, 0x2E, 0x47, 0xDC, 0xB7, 0xE2, 0x8E, 0x38, 0xF5, 0x79, 0x25,
];

// Adds the one entry, after the null entry.
fn add_entry(alloc: Global, log: &mut MemLog) -> Result<bool, Fail> {
    Ok(issued(alloc, log, &[DATES, DNS, KEY])? == Ok(1))
}

// The log with the null entry and the one entry.
fn log_of_two(alloc: Global) -> Result<MemLog, Fail> {
    let mut log = open(alloc, new_log(alloc, 64)?)?;
    match add_entry(alloc, &mut log)? {
        true => Ok(log),
        false => Err(Fail::from("not issued")),
    }
}

// One signature of the cosigner `a`, of zeros, with so many bytes after its head of four bytes.
fn signature(alloc: Global, size: u16) -> Result<Bytes, Fail> {
    let mut bytes = Bytes::new(alloc);
    bytes.append(&[0x01, 0x61])?;
    bytes.append(&size.to_be_bytes())?;
    bytes.append(vec![in alloc; 0; usize::from(size)]?.as_slice())?;
    Ok(bytes)
}

// The same, or no signature.
fn signatures(alloc: Global, size: Option<u16>) -> Result<Bytes, Fail> {
    match size {
        Some(size) => signature(alloc, size),
        None => Ok(Bytes::new(alloc)),
    }
}

// What the log answers: the leaf hash of the certificate's bytes, or why there is none.
fn written(
    alloc: Global,
    log: &mut MemLog,
    index: u64,
    interval: (u64, u64),
    signed: &[u8],
) -> Result<Result<[u8; 32], WriteError>, Fail> {
    if check_signatures(signed).is_err() {
        return Err(Fail::from("no signatures"));
    }
    match cert(alloc, log, index, interval.0, interval.1, signed) {
        Ok(bytes) => Ok(Ok(leaf::<Sha>(bytes.as_slice()))),
        Err(why) => Ok(Err(why)),
    }
}

// The same of the log of two, with one signature that has so many bytes, or none.
fn answer(
    alloc: Global,
    index: u64,
    interval: (u64, u64),
    size: Option<u16>,
) -> Result<Result<[u8; 32], WriteError>, Fail> {
    let signed = signatures(alloc, size)?;
    let mut log = log_of_two(alloc)?;
    written(alloc, &mut log, index, interval, signed.as_slice())
}

#[test]
fn an_entry_gets_its_certificate(rt: HostRuntime) -> Result<(), Fail> {
    assert!(rt; answer(rt.alloc(), 1, (0, 2), None)? == Ok(BESIDE));
    assert!(rt; answer(rt.alloc(), 1, (1, 2), Some(0))? == Ok(ALONE));
    assert!(rt; answer(rt.alloc(), 1, (0, 2), Some(65_531))? == Ok(MOST));
    Ok(())
}

// An index, an interval, the length of a signature or a hyphen, and the refusal: which of two comes
// first is reported too.
const REFUSED: &str = "\
2 0 2 - NoSuchEntry
2 1 3 - NoSuchEntry
0 0 2 - NullEntry
0 1 3 - NullEntry
1 1 3 - BadSubtree
1 2 2 - BadSubtree
1 0 1 - Outside
1 2 4 - Outside
1 0 4 65532 Beyond(2)
1 0 2 65532 TooManySignatures
";

// Whether the certificate of this line is refused as the line says.
fn is_refused(alloc: Global, line: &str) -> Result<bool, Fail> {
    let mut words = line.split(' ');
    let index = number(words.next())?;
    let interval = (number(words.next())?, number(words.next())?);
    let size = words.next().and_then(|word| word.parse::<u16>().ok());
    match answer(alloc, index, interval, size)? {
        Ok(_) => Ok(false),
        Err(why) => Ok(words.next() == Some(format!(in alloc; "{why:?}")?.as_str())),
    }
}

fn number(word: Option<&str>) -> Result<u64, Fail> {
    Ok(word.unwrap_or("").parse::<u64>()?)
}

#[test]
fn a_certificate_is_refused(rt: HostRuntime) -> Result<(), Fail> {
    let mut count = 0u64;
    for line in REFUSED.lines() {
        assert!(rt; is_refused(rt.alloc(), line)?, "{line}");
        count = count.saturating_add(1);
    }
    assert!(rt; count == 10);
    Ok(())
}

// Whether so many entries are added to a new log.
fn is_filled(alloc: Global, log: &mut MemLog, size: u64) -> Result<bool, Fail> {
    let asked = request_of(alloc, &[DATES, DNS, KEY])?;
    for index in 1..size {
        if add(alloc, log, &asked) != Ok(index) {
            return Ok(false);
        }
    }
    Ok(true)
}

fn is_tiled(log: &mut MemLog) -> bool {
    log.tile().is_ok()
}

// The journal and the tiles of a log of so many entries, tiled.
fn disks(alloc: Global, size: u64) -> Result<(MemDisk, MemDisk), Fail> {
    let mut log = open(alloc, new_log(alloc, 1024)?)?;
    let filled = is_filled(alloc, &mut log, size);
    let tiled = is_tiled(&mut log);
    let disks = disks_of(log);
    if filled? && tiled {
        Ok(disks)
    } else {
        Err(Fail::from("not issued, or not tiled"))
    }
}

// What the log over these bytes answers of its first entry, where these calls of the journal and of
// the tiles fail; none where it isn't opened.
fn answer_over(
    alloc: Global,
    files: (&[u8], &[u8]),
    calls: (&[u64], &[u64]),
) -> Result<Option<Result<[u8; 32], WriteError>>, Fail> {
    let (journal, tiles) = (
        disk_over(alloc, files.0, calls.0)?,
        disk_over(alloc, files.1, calls.1)?,
    );
    let Some(mut log) = open_over(alloc, journal, tiles)? else {
        return Ok(None);
    };
    let answer = written(alloc, &mut log, 1, (0, 512), &[]);
    Ok(Some(answer?))
}

// The same where this call of one of both disks fails, for which a certificate is refused so.
fn answer_failing(
    alloc: Global,
    files: (&[u8], &[u8]),
    why: WriteError,
    call: u64,
) -> Result<Option<Result<[u8; 32], WriteError>>, Fail> {
    if why == WriteError::TilesFailed {
        answer_over(alloc, files, (&[], &[call]))
    } else {
        answer_over(alloc, files, (&[call], &[]))
    }
}

// How many calls of one of both disks fail a certificate so before it is written as ever.
fn failures(
    alloc: Global,
    files: (&[u8], &[u8]),
    why: WriteError,
    wanted: [u8; 32],
) -> Result<u64, Fail> {
    let mut failed = 0u64;
    for call in 0..100 {
        match answer_failing(alloc, files, why, call)? {
            None if failed == 0 => {}
            Some(Err(found)) if found == why => failed = failed.saturating_add(1),
            Some(Ok(found)) if found == wanted => return Ok(failed),
            _ => return Err(Fail::from("another answer")),
        }
    }
    Err(Fail::from("never written"))
}

// The one frame holds the second tile, so the first is read for the path; one call reads the entry
// and its key from the journal.
#[test]
fn a_disk_may_fail_a_certificate(rt: HostRuntime) -> Result<(), Fail> {
    let alloc = rt.alloc();
    let (journal, tiles) = disks(alloc, 512)?;
    let both = (journal.bytes(), tiles.bytes());
    let Some(Ok(wanted)) = answer_over(alloc, both, (&[], &[]))? else {
        return Err("refused".into());
    };
    assert!(rt; failures(alloc, both, WriteError::JournalFailed, wanted)? == 1);
    assert!(rt; failures(alloc, both, WriteError::TilesFailed, wanted)? == 1);
    Ok(())
}
