//! The judgement of the certificate of one name that a log with id 32473.1 issues as its entry 1,
//! and of changes to it.

use crate::texts::joined_bytes;
use policy_core::{Accepted, By, Refusal, Revoked, Store, Subtrees, Trusted, ValidStore};
use relying_party::judge;
use std::alloc::Global;
use std::test::Fail;
use tls_wire::AnchorId;
use tree_core::{Sha, Span};

// Serial number 1, issuer of log 32473.1, 2026-01-01 to 2026-01-08, no subject, an Ed25519 key of
// zeros, one critical subjectAltName with `a.example`, and a proof of the interval 0 to 2 with the
// leaf hash of the null entry.
pub const CERTIFICATE: [u8; 231] = [
    0x30, 0x81, 0xE4, 0x30, 0x81, 0x9C, 0xA0, 0x03, 0x02, 0x01, 0x02, 0x02, 0x01, 0x01, 0x30, 0x0C,
    0x06, 0x0A, 0x2B, 0x06, 0x01, 0x04, 0x01, 0x82, 0xDA, 0x4B, 0x2F, 0x00, 0x30, 0x19, 0x31, 0x17,
    0x30, 0x15, 0x06, 0x0A, 0x2B, 0x06, 0x01, 0x04, 0x01, 0x82, 0xDA, 0x4B, 0x2F, 0x01, 0x0C, 0x07,
    0x33, 0x32, 0x34, 0x37, 0x33, 0x2E, 0x31, 0x30, 0x1E, 0x17, 0x0D, 0x32, 0x36, 0x30, 0x31, 0x30,
    0x31, 0x30, 0x30, 0x30, 0x30, 0x30, 0x30, 0x5A, 0x17, 0x0D, 0x32, 0x36, 0x30, 0x31, 0x30, 0x38,
    0x30, 0x30, 0x30, 0x30, 0x30, 0x30, 0x5A, 0x30, 0x00, 0x30, 0x2A, 0x30, 0x05, 0x06, 0x03, 0x2B,
    0x65, 0x70, 0x03, 0x21, 0x00, 0x00, 0x00, 0x00, 0x00, 0x00, 0x00, 0x00, 0x00, 0x00, 0x00, 0x00,
    0x00, 0x00, 0x00, 0x00, 0x00, 0x00, 0x00, 0x00, 0x00, 0x00, 0x00, 0x00, 0x00, 0x00, 0x00, 0x00,
    0x00, 0x00, 0x00, 0x00, 0x00, 0xA3, 0x1B, 0x30, 0x19, 0x30, 0x17, 0x06, 0x03, 0x55, 0x1D, 0x11,
    0x01, 0x01, 0xFF, 0x04, 0x0D, 0x30, 0x0B, 0x82, 0x09, 0x61, 0x2E, 0x65, 0x78, 0x61, 0x6D, 0x70,
    0x6C, 0x65, 0x30, 0x0C, 0x06, 0x0A, 0x2B, 0x06, 0x01, 0x04, 0x01, 0x82, 0xDA, 0x4B, 0x2F, 0x00,
    0x03, 0x35, 0x00, 0x00, 0x00, 0x00, 0x00, 0x00, 0x00, 0x00, 0x00, 0x00, 0x00, 0x00, 0x00, 0x00,
    0x00, 0x00, 0x02, 0x00, 0x20, 0x70, 0x9E, 0x80, 0xC8, 0x84, 0x87, 0xA2, 0x41, 0x1E, 0x1E, 0xE4,
    0xDF, 0xB9, 0xF2, 0x2A, 0x86, 0x14, 0x92, 0xD2, 0x0C, 0x47, 0x65, 0x15, 0x0C, 0x0C, 0x79, 0x4A,
    0xBD, 0x70, 0xF8, 0x14, 0x7C, 0x00, 0x00,
];

// The hash of the pair of the null entry's leaf and the certificate's.
pub const TRUSTED: [u8; 32] = [
    0x77, 0x56, 0x68, 0x25, 0xCD, 0x25, 0xF2, 0x63, 0x27, 0x1E, 0x3F, 0xA5, 0x34, 0x1D, 0xB2, 0x8E,
    0xD2, 0xC8, 0x79, 0x45, 0xEE, 0x98, 0xF7, 0x31, 0xB2, 0xAA, 0x96, 0xB9, 0xE6, 0xB1, 0x1C, 0xF6,
];

// 2026-01-01T00:00:00Z, the first time of the certificate.
pub const FIRST: i64 = 1_767_225_600;

// 2026-01-08T00:00:00Z, the last one.
const LAST: i64 = 1_767_830_400;

// The id of this text.
pub fn anchor(alloc: Global, text: &str) -> Result<AnchorId, Fail> {
    Ok(AnchorId::from_text(alloc, text)?)
}

fn subtrees_of(alloc: Global, subtrees: &[Trusted]) -> Result<Subtrees, Fail> {
    Ok(Subtrees::from_vec(Vec::from_slice(alloc, subtrees)?))
}

fn revoked_of(alloc: Global, revoked: &[Span]) -> Result<Revoked, Fail> {
    Ok(Revoked::from_vec(Vec::from_slice(alloc, revoked)?))
}

// A store for the log with this id.
pub fn store_of(
    alloc: Global,
    id: &str,
    subtrees: &[Trusted],
    revoked: &[Span],
) -> Result<Store, Fail> {
    let mut store = Store::new(alloc, anchor(alloc, id)?)?;
    store.subtrees = subtrees_of(alloc, subtrees)?;
    store.revoked = revoked_of(alloc, revoked)?;
    Ok(store)
}

/// The store, which is valid.
pub fn valid(alloc: Global, store: Store) -> Result<ValidStore, Fail> {
    Ok(store.checked(alloc)?)
}

// The store of the certificate's log, which trusts its subtree.
fn trusting(alloc: Global) -> Result<ValidStore, Fail> {
    valid(alloc, store_of(alloc, "32473.1", &[subtree(TRUSTED)], &[])?)
}

// The bytes of the certificate from one offset up to another; no bytes if it has none there.
pub fn piece(from: usize, to: usize) -> &'static [u8] {
    CERTIFICATE.get(from..to).unwrap_or(&[])
}

// The certificate with parameters of NULL in both algorithms.
fn with_parameters(alloc: Global) -> Result<Vec<u8>, Fail> {
    joined_bytes(
        alloc,
        &[
            &[0x30, 0x81, 0xE8, 0x30, 0x81, 0x9E],
            piece(6, 14),
            &[0x30, 0x0E],
            piece(16, 28),
            &[0x05, 0x00],
            piece(28, 162),
            &[0x30, 0x0E],
            piece(164, 176),
            &[0x05, 0x00],
            piece(176, 231),
        ],
    )
}

// The interval 0 to 2 with this hash.
fn subtree(hash: [u8; 32]) -> Trusted {
    Trusted {
        start: 0,
        end: 2,
        hash,
    }
}

const ACCEPTED: Accepted = Accepted {
    index: 1,
    start: 0,
    end: 2,
    hash: TRUSTED,
    by: By::Landmark,
};

// The judgement at a time.
pub fn answer(certificate: &[u8], store: &ValidStore, now: i64) -> Result<Accepted, Refusal> {
    judge::<Sha>(certificate, store, now)
}

#[test]
fn a_certificate_is_accepted_from_its_first_to_its_last_second(
    rt: HostRuntime,
) -> Result<(), Fail> {
    let store = trusting(rt.alloc())?;
    assert!(rt; answer(&CERTIFICATE, &store, FIRST - 1) == Err(Refusal::NotYet));
    assert!(rt; answer(&CERTIFICATE, &store, FIRST) == Ok(ACCEPTED));
    assert!(rt; answer(&CERTIFICATE, &store, LAST) == Ok(ACCEPTED));
    assert!(rt; answer(&CERTIFICATE, &store, LAST + 1) == Err(Refusal::Expired));
    Ok(())
}

// Other bytes at some offsets, `OFFSET=BYTE`, and why the certificate is refused then. A critical
// issuerAltName is `143=18`; `27=1 175=1` puts the attribute's identifier in the place of the
// algorithm's.
const CHANGES: &str = "\
196=31 ProofGrammar(HashLength)
196=64 ProofGrammar(Short(16))
230=1 ProofGrammar(Short(50))
194=0 ProofShape(BadSubtree)
194=1 ProofShape(Outside)
194=3 ProofShape(WrongLength)
143=18 UnknownCritical
27=1 175=1 Algorithm
197=0 LandmarkDiffers
101=1 LandmarkDiffers
54=57 UnknownLog
";

// Puts a byte at its offset, as `OFFSET=BYTE` says, where the word says it.
fn change(bytes: &mut [u8; 231], word: &str) -> Result<bool, Fail> {
    match word.split_once('=') {
        Some((offset, byte)) => match bytes.get_mut(offset.parse::<usize>()?) {
            Some(old) => {
                *old = byte.parse::<u8>()?;
                Ok(true)
            }
            None => Err(Fail::from("no offset")),
        },
        None => Ok(false),
    }
}

// The judgement of the certificate, or of changes to it, as the cases say it.
fn reported(alloc: Global, certificate: &[u8], store: &ValidStore) -> Result<String, Fail> {
    match answer(certificate, store, FIRST) {
        Ok(accepted) if accepted == ACCEPTED => Ok(String::from_str(alloc, "accepted")?),
        Ok(_) => Ok(String::from_str(alloc, "accepted otherwise")?),
        Err(found) => Ok(format!(in alloc; "{found:?}")?),
    }
}

// Whether the certificate with the changes of a line is refused as the line says.
fn is_refused(alloc: Global, store: &ValidStore, line: &str) -> Result<bool, Fail> {
    let mut bytes = CERTIFICATE;
    for word in line.split(' ') {
        if !change(&mut bytes, word)? {
            return Ok(reported(alloc, &bytes, store)?.as_str() == word);
        }
    }
    Ok(false)
}

#[test]
fn each_change_has_its_refusal(rt: HostRuntime) -> Result<(), Fail> {
    let store = trusting(rt.alloc())?;
    let mut count = 0u64;
    for line in CHANGES.lines() {
        assert!(rt; is_refused(rt.alloc(), &store, line)?, "{line}");
        count = count.saturating_add(1);
    }
    assert!(rt; count == 11);
    Ok(())
}

#[test]
fn an_algorithm_with_parameters_is_refused(rt: HostRuntime) -> Result<(), Fail> {
    let store = trusting(rt.alloc())?;
    let bytes = with_parameters(rt.alloc())?;
    assert!(rt; answer(bytes.as_slice(), &store, FIRST) == Err(Refusal::Algorithm));
    Ok(())
}

// A log, the last byte of the hash that is trusted for its interval 0 to 2, and the serial number
// that is revoked, a hyphen for none of them; and the judgement by that store.
const STORES: &str = "\
32473.1 246 1 Revoked
32473.1 246 2 accepted
32473.1 0 - LandmarkDiffers
32473.1 - - TooFewCosigners(0)
32473.9 246 - UnknownLog
";

// The subtree whose hash ends with this byte, if the word has one.
pub fn trusted_in(alloc: Global, word: &str) -> Result<Vec<Trusted>, Fail> {
    let mut list = Vec::new(alloc);
    if word != "-" {
        let mut hash = TRUSTED;
        hash[31] = word.parse::<u8>()?;
        list.push(subtree(hash))?;
    }
    Ok(list)
}

// The range of this one serial number, if the word has one.
fn revoked_in(alloc: Global, word: &str) -> Result<Vec<Span>, Fail> {
    let mut list = Vec::new(alloc);
    if word != "-" {
        let start = word.parse::<u64>()?;
        let end = start.saturating_add(1);
        list.push(Span { start, end })?;
    }
    Ok(list)
}

fn store_in(alloc: Global, line: &str) -> Result<ValidStore, Fail> {
    let mut words = line.split(' ');
    let id = words.next().unwrap_or("");
    let subtrees = trusted_in(alloc, words.next().unwrap_or(""))?;
    let revoked = revoked_in(alloc, words.next().unwrap_or(""))?;
    valid(
        alloc,
        store_of(alloc, id, subtrees.as_slice(), revoked.as_slice())?,
    )
}

// Whether the store of this line judges as the line says.
fn is_judged(alloc: Global, line: &str) -> Result<bool, Fail> {
    let store = store_in(alloc, line)?;
    let found = reported(alloc, &CERTIFICATE, &store)?;
    Ok(line.split(' ').nth(3) == Some(found.as_str()))
}

#[test]
fn the_store_decides(rt: HostRuntime) -> Result<(), Fail> {
    let mut count = 0u64;
    for line in STORES.lines() {
        assert!(rt; is_judged(rt.alloc(), line)?, "{line}");
        count = count.saturating_add(1);
    }
    assert!(rt; count == 5);
    Ok(())
}
