//! Entries of a log of certificates: what the log commits to of a certificate, with the hash of its
//! public key instead of the key. They are read as a struct of borrowed fields, with the first
//! fault from the left; they are made from a certificate, or from their parts; and a key is
//! compared with the entry that was made for it.
//!
//! An entry is two bytes of type and a body. Type 0 is the null entry, which has no body. Type 1 is
//! followed by version, issuer, validity and subject as in the certificate (RFC 5280, section 4.1),
//! in an entry of form two the AlgorithmIdentifier of the key, an OCTET STRING of 32 bytes with the
//! hash of the subjectPublicKeyInfo, and the extensions where there are some, without an outer tag
//! and length.
#![tactic(auto)]

mod entry;
mod fault;
mod forms;
mod hashing;
pub mod laws;
mod matching;
mod reading;
mod writing;

pub use entry::{Entry, EntryParts, Form, TbsEntry};
pub use fault::EntryError;
pub use hashing::{algorithm_for, entry_hash, key_hash};
pub use matching::{is_key_of_tbs, key_matches, key_matches_in};
pub use reading::read_entry;
pub use writing::{entry_of, write_entry};
