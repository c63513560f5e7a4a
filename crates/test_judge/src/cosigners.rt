//! The judgement of the certificate of [`judgements`](crate::judgements) by its cosigners.

use crate::judgements::{
    CERTIFICATE, FIRST, TRUSTED, anchor, answer, piece, store_of, trusted_in, valid,
};
use crate::texts::joined_bytes;
use hss_core::{LmsType, OtsType, SECRET_LEN, Secret, SigBuf};
use hss_keys::HssKey;
use mtc_io::Memory;
use mtc_proof::{InputBuf, signature_input};
use policy_core::{By, Cosigners, Indices, Known, Rule, Rules, ValidStore};
use std::alloc::Global;
use std::test::Fail;
use tls_wire::AnchorId;

// The key of the cosigner with this number, of a secret that is made of it.
fn key_of(alloc: Global, number: u8) -> Result<HssKey, Memory> {
    let secret = Secret::from_slice(&[number; SECRET_LEN]).ok_or(Memory)?;
    HssKey::make(alloc, LmsType::H5, None, OtsType::W4, &secret, 0, 0)
}

// The keys of the cosigners with the numbers 2 to 4.
fn keys_of(alloc: Global) -> Result<Vec<HssKey>, Fail> {
    let mut keys = Vec::new(alloc);
    for number in 2..5u8 {
        keys.push(key_of(alloc, number)?)?;
    }
    Ok(keys)
}

// The index of the key of the cosigner with this number.
fn index_of(number: u8) -> usize {
    usize::from(number.saturating_sub(2))
}

// Signs a text by the key of this number.
fn sign(keys: &mut Vec<HssKey>, number: u8, text: &[u8], out: &mut SigBuf) {
    if let Some(key) = keys.get_mut(index_of(number)) {
        if key.left() > 0 {
            key.sign(text, out);
        }
    }
}

// The id of the cosigner with this number.
fn id_of(alloc: Global, number: u8) -> Result<AnchorId, Fail> {
    anchor(alloc, format!(in alloc; "32473.{number}")?.as_str())
}

// What a signature of a case differs in: the numbers of the key, of the id, and of the cosigner and
// the log in the text, the interval, and a byte of the hash.
#[derive(Clone, Copy)]
struct Mark {
    key: u8,
    id: u8,
    cosigner: u8,
    log: u8,
    start: u64,
    end: u64,
    change: u8,
}

// That of the cosigner's own signature.
fn own(number: u8) -> Mark {
    Mark {
        key: number,
        id: number,
        cosigner: number,
        log: 1,
        start: 0,
        end: 2,
        change: 0,
    }
}

fn mark_of(letter: u8) -> Mark {
    let first = own(2);
    match letter {
        b'3' => own(3),
        b'4' => own(4),
        b'i' => Mark { key: 2, ..own(3) },
        b'u' => Mark { key: 2, ..own(9) },
        b't' => Mark {
            cosigner: 3,
            ..first
        },
        b'l' => Mark { log: 9, ..first },
        b'b' => Mark { start: 1, ..first },
        b'e' => Mark { end: 1, ..first },
        b'h' => Mark { change: 1, ..first },
        _ => first,
    }
}

// The hash that is signed with this mark.
fn signed_hash(mark: &Mark) -> [u8; 32] {
    let mut hash = TRUSTED;
    hash[0] ^= mark.change;
    hash
}

// What is signed by this cosigner for this log.
fn put_text(cosigner: &AnchorId, log: &AnchorId, mark: &Mark, text: &mut InputBuf) {
    signature_input(
        cosigner.as_bytes(),
        log.as_bytes(),
        mark.start,
        mark.end,
        &signed_hash(mark),
        text,
    );
}

// What is signed with this mark.
fn signed_text(alloc: Global, mark: &Mark, text: &mut InputBuf) -> Result<(), Fail> {
    let cosigner = id_of(alloc, mark.cosigner)?;
    let log = id_of(alloc, mark.log)?;
    put_text(&cosigner, &log, mark, text);
    Ok(())
}

// A length in two bytes.
fn two_bytes(length: usize) -> Result<[u8; 2], Fail> {
    match u16::try_from(length) {
        Ok(length) => Ok(length.to_be_bytes()),
        Err(_) => Err(Fail::from("too long")),
    }
}

// The signature of this letter; `s` is one that is a byte short.
fn shortened(letter: u8, whole: &[u8]) -> &[u8] {
    match whole {
        [short @ .., _] if letter == b's' => short,
        all => all,
    }
}

// A signature with its cosigner's id and its length before it.
fn encoded(alloc: Global, id: &[u8], signature: &[u8]) -> Result<Vec<u8>, Fail> {
    let length = two_bytes(signature.len())?;
    let size = [u8::try_from(id.len()).unwrap_or(0)];
    joined_bytes(alloc, &[&size, id, &length, signature])
}

// Signs with this mark.
fn sign_with(
    alloc: Global,
    keys: &mut Vec<HssKey>,
    mark: &Mark,
    out: &mut SigBuf,
) -> Result<(), Fail> {
    let mut text = InputBuf::new();
    signed_text(alloc, mark, &mut text)?;
    sign(keys, mark.key, text.as_slice(), out);
    Ok(())
}

// The signature of this letter.
fn signature_of(alloc: Global, keys: &mut Vec<HssKey>, letter: u8) -> Result<Vec<u8>, Fail> {
    let mark = mark_of(letter);
    let mut whole = SigBuf::new();
    sign_with(alloc, keys, &mark, &mut whole)?;
    let id = id_of(alloc, mark.id)?;
    encoded(alloc, id.as_bytes(), shortened(letter, whole.as_slice()))
}

// The signatures of these letters.
fn signatures_of(alloc: Global, keys: &mut Vec<HssKey>, letters: &str) -> Result<Vec<u8>, Fail> {
    let mut bytes = Vec::new(alloc);
    for letter in letters.as_bytes() {
        if *letter != b'-' {
            bytes.extend_from_slice(signature_of(alloc, keys, *letter)?.as_slice())?;
        }
    }
    Ok(bytes)
}

// The certificate with these signatures in its proof, which are some.
fn with_signatures(alloc: Global, signatures: &[u8]) -> Result<Vec<u8>, Fail> {
    let size = signatures.len();
    let whole = two_bytes(size.saturating_add(230))?;
    let proof = two_bytes(size.saturating_add(53))?;
    let list = two_bytes(size)?;
    let mut bytes = Vec::from_slice(alloc, &[0x30, 0x82])?;
    bytes.extend_from_slice(&whole)?;
    bytes.extend_from_slice(piece(3, 176))?;
    bytes.extend_from_slice(&[0x03, 0x82])?;
    bytes.extend_from_slice(&proof)?;
    bytes.extend_from_slice(piece(178, 229))?;
    bytes.extend_from_slice(&list)?;
    bytes.extend_from_slice(signatures)?;
    Ok(bytes)
}

// The certificate with these signatures, or as it is where there are none.
fn certificate_of(alloc: Global, signatures: &[u8]) -> Result<Vec<u8>, Fail> {
    if signatures.is_empty() {
        Ok(Vec::from_slice(alloc, &CERTIFICATE)?)
    } else {
        with_signatures(alloc, signatures)
    }
}

// The cosigner with this number, as it is known.
fn known(alloc: Global, number: u8, key: &HssKey) -> Result<Known, Fail> {
    Ok(Known {
        id: id_of(alloc, number)?,
        key: key.public(),
    })
}

// The cosigners with these keys, from the number 2 on.
fn all_known(alloc: Global, keys: &[HssKey]) -> Result<Vec<Known>, Fail> {
    let mut all = Vec::new(alloc);
    for (key, number) in keys.iter().zip(2..5u8) {
        all.push(known(alloc, number, key)?)?;
    }
    Ok(all)
}

// The same, where they are not too many.
fn cosigners_of(alloc: Global, keys: &[HssKey]) -> Result<Cosigners, Fail> {
    let all = all_known(alloc, keys)?;
    if all.len() > 64 {
        return Err(Fail::from("too many"));
    }
    Ok(Cosigners::from_vec(all))
}

// A rule, as `COUNT:NUMBERS`, where the cosigners have the numbers 2 to 4.
fn rule_of(alloc: Global, word: &str) -> Result<Rule, Fail> {
    let mut indices = Vec::new(alloc);
    let (count, numbers) = word.split_once(':').unwrap_or((word, ""));
    for number in numbers.as_bytes() {
        indices.push(u32::from(number.saturating_sub(b'2')))?;
    }
    Ok(Rule {
        count: count.parse::<u32>()?,
        cosigners: Indices::from_vec(indices),
    })
}

// The rules of these words, none of a hyphen.
fn rules_of(alloc: Global, words: &str) -> Result<Rules, Fail> {
    let mut rules = Vec::new(alloc);
    for word in words.split(',') {
        if word != "-" {
            rules.push(rule_of(alloc, word)?)?;
        }
    }
    Ok(Rules::from_vec(rules))
}

// A store of three cosigners with these rules, which trusts the hash that ends with this byte.
fn store_with(alloc: Global, keys: &[HssKey], words: &str, last: &str) -> Result<ValidStore, Fail> {
    let cosigners = cosigners_of(alloc, keys)?;
    let rules = rules_of(alloc, words)?;
    let subtrees = trusted_in(alloc, last)?;
    let mut store = store_of(alloc, "32473.1", subtrees.as_slice(), &[])?;
    store.cosigners = cosigners;
    store.rules = rules;
    valid(alloc, store)
}

// Signatures by their letters, rules, the last byte of the hash that is trusted for the interval or
// a hyphen, and the judgement: the set of those who count, as a number, or the refusal. The letters
// 2 to 4 are the cosigners' own signatures. The others are made by the key of the first: under the
// id of the second, or of none; for the second alone, for another log, over another start, end or
// hash; and a byte short.
const CASES: &str = "\
- 1:2 - TooFewCosigners(1)
234 - - TooFewCosigners(0)
234 3:234 - 7
23 2:234 - 3
24 2:234 - 5
34 3:234 - TooFewCosigners(1)
22 2:234 - TooFewCosigners(1)
22 1:234 - 1
23 1:2,1:4 - TooFewCosigners(2)
23 1:2 - 1
i 1:23 - TooFewCosigners(1)
u 1:23 - TooFewCosigners(1)
t 1:23 - TooFewCosigners(1)
l 1:23 - TooFewCosigners(1)
b 1:23 - TooFewCosigners(1)
e 1:23 - TooFewCosigners(1)
h 1:23 - TooFewCosigners(1)
s 1:23 - TooFewCosigners(1)
hs2 1:23 - 1
234 3:234 0 LandmarkDiffers
- 3:234 246 Landmark
s 1:23 246 Landmark
";

// The judgement as the cases say it.
fn judged(alloc: Global, certificate: &[u8], store: &ValidStore) -> Result<String, Fail> {
    match answer(certificate, store, FIRST) {
        Ok(accepted) => match accepted.by {
            By::Cosigners(set) => Ok(format!(in alloc; "{set}")?),
            By::Landmark => Ok(format!(in alloc; "Landmark")?),
        },
        Err(why) => Ok(format!(in alloc; "{why:?}")?),
    }
}

// The certificate with the signatures of these letters.
fn signed(alloc: Global, keys: &mut Vec<HssKey>, letters: &str) -> Result<Vec<u8>, Fail> {
    let signatures = signatures_of(alloc, keys, letters)?;
    certificate_of(alloc, signatures.as_slice())
}

// The judgement by a store with these rules, which trusts the hash that ends with this byte.
fn judged_by(
    alloc: Global,
    certificate: &[u8],
    keys: &[HssKey],
    rules: &str,
    last: &str,
) -> Result<String, Fail> {
    let store = store_with(alloc, keys, rules, last)?;
    judged(alloc, certificate, &store)
}

fn is_judged(alloc: Global, keys: &mut Vec<HssKey>, line: &str) -> Result<bool, Fail> {
    let mut words = line.split(' ');
    let certificate = signed(alloc, keys, words.next().unwrap_or(""))?;
    let (rules, last) = (words.next().unwrap_or(""), words.next().unwrap_or(""));
    let found = judged_by(alloc, certificate.as_slice(), keys.as_slice(), rules, last)?;
    Ok(Some(found.as_str()) == words.next())
}

#[test]
fn the_cosigners_decide(rt: HostRuntime) -> Result<(), Fail> {
    let mut keys = keys_of(rt.alloc())?;
    let mut count = 0u64;
    for line in CASES.lines() {
        assert!(rt; is_judged(rt.alloc(), &mut keys, line)?, "{line}");
        count = count.saturating_add(1);
    }
    assert!(rt; count == 22);
    Ok(())
}
