//! Hashes of entries and of keys, without taking memory.

ghost use Rattle.std.specs.Prelude.{◌≡◌, option_map};
ghost use Rattle.tree_core.specs.Tree.{leaf_hash};
ghost use Rattle.cert_fields.specs.Views.{parts};
ghost use Rattle.log_entry.specs.Entries.{tbs_text};
ghost use Rattle.log_entry.specs.EntryOf.{entry_of};
ghost use Rattle.log_entry.specs.Forms.{algorithm_for};
ghost use Rattle.log_entry.specs.Views.{tbs_parts};

use crate::entry::{Form, TbsEntry};
use cert_fields::{Cert, key_algorithm};
use tree_core::{LEAF, TreeHash};

/// The bytes before the issuer: type 1, and version 3 as an INTEGER of 2 in its tag.
pub const HEAD: [u8; 7] = [0x00, 0x01, 0xA0, 0x03, 0x02, 0x01, 0x02];

/// The bytes before the hash of the public key: an OCTET STRING of 32 bytes.
pub const HASH_HEAD: [u8; 2] = [0x04, 0x20];

/// The hash of a key, as entries hold it: of the whole subjectPublicKeyInfo element.
pub fn key_hash<H: TreeHash>(spki: &[u8]) -> [u8; 32]
    ensures { result ≡ H.hash spki.now }
{
    let mut running = H::begin();
    running.add(spki);
    running.end()
}

// The leaf hash of the entry with these fields, one field after another.
#[tactic(auto, unfolding(crate::specs::Entries::tbs_text))]
fn tbs_hash<H: TreeHash>(tbs: &TbsEntry) -> [u8; 32]
    ensures { result ≡ leaf_hash H.hash (tbs_text (tbs_parts tbs.now)) }
{
    let mut running = H::begin();
    running.add(&[LEAF]);
    running.add(&HEAD);
    running.add(tbs.issuer);
    running.add(tbs.validity_der);
    running.add(tbs.subject);
    running.add(tbs.algorithm_bytes());
    running.add(&HASH_HEAD);
    running.add(tbs.key_hash);
    running.add(tbs.extensions);
    running.end()
}

/// The hash, as a leaf of a tree, of the entry in this form from which a certificate was made. It
/// is that of [`entry_of`](crate::entry_of), and takes no memory.
#[tactic(auto, unfolding(crate::specs::EntryOf::entry_of))]
pub fn entry_hash<H: TreeHash>(cert: &Cert, form: Form) -> [u8; 32]
    ensures { result ≡ leaf_hash H.hash (entry_of H.hash form (parts cert.now)) }
{
    let key = key_hash::<H>(cert.spki);
    tbs_hash::<H>(&TbsEntry {
        issuer: cert.issuer,
        validity: cert.validity,
        validity_der: cert.validity_der,
        subject: cert.subject,
        algorithm: algorithm_for(form, cert.spki),
        key_hash: key.as_slice(),
        extensions: cert.extensions,
    })
}

/// What an entry of this form has of a key before its hash: the algorithm with which a
/// subjectPublicKeyInfo begins, in form two alone.
pub fn algorithm_for(form: Form, spki: &[u8]) -> Option<&[u8]>
    ensures { option_map (λ bytes. bytes.now) result ≡ algorithm_for form spki.now }
{
    match form {
        Form::One => None,
        Form::Two => Some(key_algorithm(spki)),
    }
}
