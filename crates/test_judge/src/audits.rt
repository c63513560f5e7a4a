//! Audits of a certificate for `ab.example`, which is accepted by a subtree that is trusted or by a
//! cosigner.

use crate::lists::{are_strings, list_of, put_text, toy};
use crate::records::export_of;
use cert_fields::parse;
use cosigner_core::read_export;
use entry_list::read_items;
use hss_core::{LmsType, OtsType, SECRET_LEN, Secret, SigBuf};
use hss_keys::HssKey;
use mtc_io::{Bytes, Memory};
use mtc_proof::{InputBuf, read_proof, signature_input};
use policy_core::{Cosigners, Indices, Known, Rule, Rules, Store, Subtrees, Trusted, ValidStore};
use relying_party::judge;
use std::alloc::Global;
use tls_wire::AnchorId;
use tree_core::Toy;
use world_core::{Audit, audit};

// Serial number 1, issuer of log 32473.1, 2026-01-01 to 2026-01-08, no subject, an Ed25519 key of
// zeros, one critical subjectAltName with `ab.example`, and a proof of the interval 0 to 2 with the
// leaf hash of the null entry, which is 0.
const CERTIFICATE: [u8; 232] = [
    0x30, 0x81, 0xE5, 0x30, 0x81, 0x9D, 0xA0, 0x03, 0x02, 0x01, 0x02, 0x02, 0x01, 0x01, 0x30, 0x0C,
    0x06, 0x0A, 0x2B, 0x06, 0x01, 0x04, 0x01, 0x82, 0xDA, 0x4B, 0x2F, 0x00, 0x30, 0x19, 0x31, 0x17,
    0x30, 0x15, 0x06, 0x0A, 0x2B, 0x06, 0x01, 0x04, 0x01, 0x82, 0xDA, 0x4B, 0x2F, 0x01, 0x0C, 0x07,
    0x33, 0x32, 0x34, 0x37, 0x33, 0x2E, 0x31, 0x30, 0x1E, 0x17, 0x0D, 0x32, 0x36, 0x30, 0x31, 0x30,
    0x31, 0x30, 0x30, 0x30, 0x30, 0x30, 0x30, 0x5A, 0x17, 0x0D, 0x32, 0x36, 0x30, 0x31, 0x30, 0x38,
    0x30, 0x30, 0x30, 0x30, 0x30, 0x30, 0x5A, 0x30, 0x00, 0x30, 0x2A, 0x30, 0x05, 0x06, 0x03, 0x2B,
    0x65, 0x70, 0x03, 0x21, 0x00, 0x00, 0x00, 0x00, 0x00, 0x00, 0x00, 0x00, 0x00, 0x00, 0x00, 0x00,
    0x00, 0x00, 0x00, 0x00, 0x00, 0x00, 0x00, 0x00, 0x00, 0x00, 0x00, 0x00, 0x00, 0x00, 0x00, 0x00,
    0x00, 0x00, 0x00, 0x00, 0x00, 0xA3, 0x1C, 0x30, 0x1A, 0x30, 0x18, 0x06, 0x03, 0x55, 0x1D, 0x11,
    0x01, 0x01, 0xFF, 0x04, 0x0E, 0x30, 0x0C, 0x82, 0x0A, 0x61, 0x62, 0x2E, 0x65, 0x78, 0x61, 0x6D,
    0x70, 0x6C, 0x65, 0x30, 0x0C, 0x06, 0x0A, 0x2B, 0x06, 0x01, 0x04, 0x01, 0x82, 0xDA, 0x4B, 0x2F,
    0x00, 0x03, 0x35, 0x00, 0x00, 0x00, 0x00, 0x00, 0x00, 0x00, 0x00, 0x00, 0x00, 0x00, 0x00, 0x00,
    0x00, 0x00, 0x00, 0x02, 0x00, 0x20, 0x00, 0x00, 0x00, 0x00, 0x00, 0x00, 0x00, 0x00, 0x00, 0x00,
    0x00, 0x00, 0x00, 0x00, 0x00, 0x00, 0x00, 0x00, 0x00, 0x00, 0x00, 0x00, 0x00, 0x00, 0x00, 0x00,
    0x00, 0x00, 0x00, 0x00, 0x00, 0x00, 0x00, 0x00,
];

// 2026-01-01T00:00:00Z, the first time of the certificate.
const FIRST: i64 = 1_767_225_600;

// A length in two bytes; 0 where it is too long for these.
fn two_bytes(length: usize) -> [u8; 2] {
    u16::try_from(length).unwrap_or(0).to_be_bytes()
}

// Appends what the certificate has before its proof to the bytes, if its proof has this size.
fn put_prefix(bytes: &mut Bytes, size: usize) -> Result<(), Memory> {
    bytes.append(&[0x30, 0x82])?;
    bytes.append(&two_bytes(size.saturating_add(178)))?;
    bytes.append(&CERTIFICATE[3..177])?;
    bytes.append(&[0x03, 0x82])?;
    bytes.append(&two_bytes(size))
}

// Appends the proof with these signatures to the bytes.
fn put_proof(bytes: &mut Bytes, signatures: &[u8]) -> Result<(), Memory> {
    bytes.append(&CERTIFICATE[179..230])?;
    put_text(bytes, signatures)
}

// Appends the certificate with these signatures in its proof to the bytes.
fn put_certificate(bytes: &mut Bytes, signatures: &[u8]) -> Result<(), Memory> {
    put_prefix(bytes, signatures.len().saturating_add(53))?;
    put_proof(bytes, signatures)
}

// The id 32473.NUMBER.
fn id_of(alloc: Global, number: u8) -> Option<AnchorId> {
    AnchorId::from_bytes(alloc, &[0x81, 0xFD, 0x59, number]).ok()
}

// The key of the cosigner with this number.
fn key_of(alloc: Global, number: u8) -> Option<HssKey> {
    let secret = Secret::from_slice(&[number; SECRET_LEN])?;
    HssKey::make(alloc, LmsType::H5, None, OtsType::W4, &secret, 0, 0).ok()
}

// What the cosigner 32473.2 signs of the first two entries.
fn put_input(alloc: Global, text: &mut InputBuf) -> Option<()> {
    let id = id_of(alloc, 2)?;
    let log = id_of(alloc, 1)?;
    signature_input(id.as_bytes(), log.as_bytes(), 0, 2, &toy(157), text);
    Some(())
}

// The signature of a text by this cosigner.
fn sign(alloc: Global, text: &[u8], out: &mut SigBuf) -> Option<()> {
    let mut key = key_of(alloc, 2)?;
    if key.left() == 0 {
        return None;
    }
    key.sign(text, out);
    Some(())
}

// Appends the cosigner's id and its signature of the first two entries to the bytes.
fn put_signature(alloc: Global, bytes: &mut Bytes) -> Option<()> {
    let mut text = InputBuf::new();
    put_input(alloc, &mut text)?;
    let mut out = SigBuf::new();
    sign(alloc, text.as_slice(), &mut out)?;
    bytes.append(&[4, 0x81, 0xFD, 0x59, 2]).ok()?;
    put_text(bytes, out.as_slice()).ok()
}

// The certificate with this signature.
fn signed(alloc: Global) -> Option<Bytes> {
    let mut signature = Bytes::new(alloc);
    put_signature(alloc, &mut signature)?;
    let mut bytes = Bytes::new(alloc);
    put_certificate(&mut bytes, signature.as_slice()).ok()?;
    Some(bytes)
}

// The cosigner with this number, as it is known.
fn known(alloc: Global, number: u8) -> Option<Known> {
    let key = key_of(alloc, number)?.public();
    let id = id_of(alloc, number)?;
    Some(Known { id, key })
}

// The cosigners 32473.2 and 32473.3.
fn cosigners(alloc: Global) -> Option<Cosigners> {
    let first = known(alloc, 2)?;
    let second = known(alloc, 3)?;
    let both = vec![in alloc; first, second].ok()?;
    Some(Cosigners::from_vec(both))
}

// The rule that one of them has to have signed.
fn rules(alloc: Global) -> Option<Rules> {
    let rule = Rule {
        count: 1,
        cosigners: Indices::from_vec(vec![in alloc; 0, 1].ok()?),
    };
    Some(Rules::from_vec(vec![in alloc; rule].ok()?))
}

// A store of these cosigners, of whom one has to have signed, and of these subtrees.
fn store_of(alloc: Global, subtrees: &[Trusted]) -> Option<ValidStore> {
    let mut store = Store::new(alloc, id_of(alloc, 1)?).ok()?;
    store.cosigners = cosigners(alloc)?;
    store.rules = rules(alloc)?;
    store.subtrees = Subtrees::from_vec(Vec::from_slice(alloc, subtrees).ok()?);
    store.checked(alloc).ok()
}

// Steps of the cosigner, by a name: all of them; the Sign after the second Advance; no Sign, one of
// the first entry, of the second, of the first four, and two of these.
fn steps_of(name: &str) -> &'static str {
    match name {
        "late" => "a:4:164 s:0:0:2:157:6 a:8:190:25",
        "nosign" => "a:2:157 a:4:164:6 a:8:190:25",
        "first" => "a:2:157 s:0:0:1:0:156 a:4:164:6 a:8:190:25",
        "second" => "a:2:157 s:0:1:2:156:0 a:4:164:6 a:8:190:25",
        "four" => "a:2:157 a:4:164:6 s:0:0:4:164 a:8:190:25",
        "again" => "a:2:157 s:0:0:1:0:156 a:4:164:6 s:1:0:2:157:6 a:8:190:25",
        _ => "a:2:157 s:0:0:2:157 a:4:164:6 a:8:190:25",
    }
}

// The export of a name: `other` is of the cosigner that has not signed, `key` has its key alone,
// and `log` is of another log; `none` has no bytes.
fn export_named(alloc: Global, store: &ValidStore, name: &str) -> Option<Bytes> {
    let [first, second] = store.as_store().cosigners.as_slice() else {
        return None;
    };
    let steps = steps_of(name);
    match name {
        "none" => Some(Bytes::new(alloc)),
        "other" => export_of(alloc, 3, 1, &second.key, steps),
        "key" => export_of(alloc, 2, 1, &second.key, steps),
        "id" => export_of(alloc, 3, 1, &first.key, steps),
        "log" => export_of(alloc, 2, 9, &first.key, steps),
        _ => export_of(alloc, 2, 1, &first.key, steps),
    }
}

// The audit of what the store accepts; none where it refuses, or a file doesn't read.
fn audited(
    alloc: Global,
    certificate: &[u8],
    store: &ValidStore,
    list: &[u8],
    export: &[u8],
) -> Option<Result<Audit, Memory>> {
    let accepted = judge::<Toy>(certificate, store, FIRST).ok()?;
    let cert = parse(certificate).ok()?;
    let proof = read_proof(cert.proof).ok()?;
    let items = read_items::<Toy>(alloc, list).ok()?;
    let kept = read_export::<Toy>(alloc, export).ok()?;
    Some(audit::<Toy>(
        alloc,
        &accepted,
        &cert,
        &proof,
        store.as_store(),
        &items,
        kept.as_ref(),
    ))
}

// Whether two hashes are those with these first bytes.
fn are_hashes(first: &[u8; 32], second: &[u8; 32], sums: &str) -> bool {
    match sums.split_once(' ') {
        Some((one, other)) => {
            one.parse::<u8>().map(toy) == Ok(*first) && other.parse::<u8>().map(toy) == Ok(*second)
        }
        None => false,
    }
}

// Whether the answer is that of the words.
fn is(answer: &Audit, words: &str) -> bool {
    let (kind, rest) = words.split_once(' ').unwrap_or((words, ""));
    match answer {
        Audit::Unrecorded => words == "unrecorded",
        Audit::Stands(index) => kind == "stands" && rest.parse::<u64>() == Ok(*index),
        Audit::Pair(one, other) => are_strings(one.as_slice(), other.as_slice(), words),
        Audit::Foreign { wanted, found } => kind == "foreign" && are_hashes(wanted, found, rest),
    }
}

// Whether the audit of a line, `LIST EXPORT ANSWER`, answers so.
fn is_audited(alloc: Global, certificate: &[u8], store: &ValidStore, line: &str) -> Option<bool> {
    let (letters, rest) = line.split_once(' ')?;
    let (name, words) = rest.split_once(' ')?;
    let list = list_of(alloc, letters).ok()?;
    let export = export_named(alloc, store, name)?;
    match audited(
        alloc,
        certificate,
        store,
        list.as_slice(),
        export.as_slice(),
    ) {
        Some(Ok(answer)) => Some(is(&answer, words)),
        _ => None,
    }
}

// How many lines are audited as they say, from the first on.
fn count_in(alloc: Global, certificate: &[u8], store: &ValidStore, lines: &str) -> u64 {
    let mut count = 0u64;
    for line in lines.lines() {
        if is_audited(alloc, certificate, store, line) != Some(true) {
            return count;
        }
        count = count.saturating_add(1);
    }
    count
}

// The same by the store of these subtrees.
fn count_audited(
    alloc: Global,
    certificate: &[u8],
    subtrees: &[Trusted],
    lines: &str,
) -> Option<u64> {
    let store = store_of(alloc, subtrees)?;
    Some(count_in(alloc, certificate, &store, lines))
}

// The leaf hashes are the bytes of the digits, and 156 for `c`, `d` and `k`; a node's is the sum of
// those below it and 1. All that is held at last are eight entries with the hash 190. First the
// lists of this hash, then those of another, then exports that don't support the acceptance.
const SIGNED: &str = "\
0c234567 all stands 1
0c234567 late stands 1
0c234567 again stands 1
0c2345678 all stands 1
0d234567 all leaf:d leaf:c
0k234567 all key:k key:c
c0234567 all node:156:0 node:0:156
02c34567 all node:3:160 node:157:6
02c34567 late node:3:160 node:157:6
05234c67 all node:13:176 node:164:25
05234c67 late node:13:176 node:164:25
0c23456 all foreign 190 182
0 all foreign 190 0
- all foreign 190 0
0c234569 all foreign 190 192
0c23456 nosign foreign 190 182
0c234569 other foreign 190 192
0c234567 none unrecorded
- none unrecorded
0c234567 nosign unrecorded
0c234567 other unrecorded
0c234567 key unrecorded
0c234567 id unrecorded
0c234567 log unrecorded
0c234567 first unrecorded
0c234567 second unrecorded
0c234567 four unrecorded
0d234567 nosign unrecorded
";

// How many lines of the certificate that is signed are audited as they say.
fn count_signed(alloc: Global) -> Option<u64> {
    let certificate = signed(alloc)?;
    count_audited(alloc, certificate.as_slice(), &[], SIGNED)
}

#[test]
fn what_a_cosigner_supports_is_audited(rt: HostRuntime) {
    let count = count_signed(rt.alloc());
    assert!(rt; count == Some(28), "{count:?}");
}

// The same where the hash 157 of the first two entries is trusted.
const TRUSTED: &str = "\
0c none stands 1
0c234567 none stands 1
0c9 nosign stands 1
0c other stands 1
0d none leaf:d leaf:c
0k none key:k key:c
c0 none node:156:0 node:0:156
0 none foreign 157 0
- none foreign 157 0
02 all foreign 157 3
20c34567 all foreign 157 3
";

// The same of a certificate of entry 3, where the hash 159 of the entries 2 and 3 is trusted.
const LATER: &str = "\
002c none stands 3
782c9 nosign stands 3
002d none leaf:d leaf:c
002k none key:k key:c
00c2 none node:156:2 node:2:156
- none foreign 159 0
0 none foreign 159 0
002 none foreign 159 2
0023 none foreign 159 6
0c2c none stands 3
c234 none foreign 159 8
";

// The certificate with the serial number 3, and with a path in the interval 2 to 4.
fn third() -> [u8; 232] {
    let mut bytes = CERTIFICATE;
    bytes[13] = 3;
    bytes[187] = 2;
    bytes[195] = 4;
    bytes[198] = 2;
    bytes
}

#[test]
fn a_later_subtree_is_audited(rt: HostRuntime) {
    let trusted = Trusted {
        start: 2,
        end: 4,
        hash: toy(159),
    };
    let count = count_audited(rt.alloc(), &third(), &[trusted], LATER);
    assert!(rt; count == Some(11), "{count:?}");
}

#[test]
fn what_a_trusted_subtree_supports_is_audited(rt: HostRuntime) {
    let trusted = Trusted {
        start: 0,
        end: 2,
        hash: toy(157),
    };
    let count = count_audited(rt.alloc(), &CERTIFICATE, &[trusted], TRUSTED);
    assert!(rt; count == Some(11), "{count:?}");
}
