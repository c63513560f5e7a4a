//! Whether a key is the one of an entry.

ghost use Rattle.std.specs.Prelude.{◌≡◌, ◌↔◌, ◌&&◌, true, IsTrue, Some, Ok, option_map};
ghost use Rattle.cert_fields.specs.Keys.{is_public_key};
ghost use Rattle.log_entry.specs.Matching.{algorithm_agrees, has_form, holds, matches, Matches};
ghost use Rattle.log_entry.specs.Views.{tbs_parts};

use crate::entry::{Entry, Form, TbsEntry};
use crate::hashing::key_hash;
use crate::reading::read_entry;
use cert_fields::{is_public_key, key_algorithm};
use tree_core::TreeHash;

// The algorithm that stands in an entry, if there is one, is that of the key.
fn agrees(algorithm: Option<&[u8]>, spki: &[u8]) -> bool
    ensures { result ≡ algorithm_agrees (option_map (λ bytes. bytes.now) algorithm.entry)
        spki.now }
{
    match algorithm {
        None => true,
        Some(algorithm) => algorithm == key_algorithm(spki),
    }
}

/// Whether this is the key for which an entry with these fields was made: its hash stands there,
/// and its algorithm if one stands there, and its bytes are one subjectPublicKeyInfo element (RFC
/// 5280, section 4.1.2.7). An entry that was read is not read again. It takes no memory.
pub fn is_key_of_tbs<H: TreeHash>(tbs: &TbsEntry, spki: &[u8]) -> bool
    ensures { result ≡ (holds H.hash spki.now (Ok (Some (tbs_parts tbs.now)))
        && is_public_key spki.now) }
{
    (agrees(tbs.algorithm, spki) && tbs.key_hash == key_hash::<H>(spki).as_slice())
        && is_public_key(spki)
}

// The same answer as an equation with the definition.
#[tactic(auto, unfolding(crate::specs::Matching::matches))]
fn compared<H: TreeHash>(entry: &[u8], spki: &[u8]) -> bool
    ensures { result ≡ matches H.hash entry.now spki.now }
{
    match read_entry(entry) {
        Ok(Entry::Tbs(tbs)) => is_key_of_tbs::<H>(&tbs, spki),
        _ => false,
    }
}

// The same of an entry in a form, which is read once.
#[tactic(auto, unfolding(crate::specs::Matching::has_form, crate::specs::Matching::matches))]
fn compared_in<H: TreeHash>(entry: &[u8], spki: &[u8], form: Form) -> bool
    ensures { result ≡ (has_form form entry.now && matches H.hash entry.now spki.now) }
{
    match read_entry(entry) {
        Ok(Entry::Tbs(tbs)) => tbs.has_form(form) && is_key_of_tbs::<H>(&tbs, spki),
        _ => false,
    }
}

/// Whether this is the key for which the entry was made, and the entry has this form: as
/// [`key_matches`], but for the form.
pub fn key_matches_in<H: TreeHash>(entry: &[u8], spki: &[u8], form: Form) -> bool
    ensures exact { result ≡ (has_form form entry.now && matches H.hash entry.now spki.now) }
    ensures form { result ≡ true → has_form form entry.now ≡ true }
    ensures belongs { result ≡ true → matches H.hash entry.now spki.now ≡ true }
{
    compared_in::<H>(entry, spki, form)
}

/// Whether this is the key for which the entry was made: the entry reads as type 1, the bytes of
/// the key are one subjectPublicKeyInfo element (RFC 5280, section 4.1.2.7), its hash stands in the
/// entry, and where the entry has an algorithm, the key begins with it. It takes no memory.
pub fn key_matches<H: TreeHash>(entry: &[u8], spki: &[u8]) -> bool
    ensures exact { result ≡ matches H.hash entry.now spki.now }
    ensures meaning { IsTrue result ↔ Matches H.hash entry.now spki.now }
{
    compared::<H>(entry, spki)
}
