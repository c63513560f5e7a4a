//! Laws of entries: the clauses are the laws, and the functions do nothing.

ghost use Rattle.std.specs.Prelude.{◌≡◌, ◌↔◌, length, Option, Some, Ok, true, IfSome};
ghost use Rattle.byte_formats.specs.Types.{Text, HashFunction};
ghost use Rattle.byte_formats.specs.Offsets.{IsBytes};
ghost use Rattle.cert_fields.specs.Certificate.{Parts};
ghost use Rattle.cert_fields.specs.Grammar.{IsPublicKey, IsCertificate};
ghost use Rattle.cert_fields.specs.Keys.{key_algorithm};
ghost use Rattle.log_entry.specs.Entries.{TbsParts, tbs_text, IsTbs, entry_text, IsEntry};
ghost use Rattle.log_entry.specs.EntryOf.{tbs_with, entry_of, IsMadeOf};
ghost use Rattle.log_entry.specs.Forms.{form_of};
ghost use Rattle.log_entry.specs.Reading.{entry_in};
ghost use Rattle.log_entry.specs.Matching.{has_form, matches};
ghost use Rattle.log_entry.specs.declared.entry.Form.{Form};

/// What is read as an entry is its encoding, and the encoding of each entry is read as its parts.
pub fn law_entries_decode_as_encoded()
    ensures only { (bytes : Text) (e : Option TbsParts) → IsBytes bytes → entry_in bytes ≡ Ok e
        → (bytes ≡ entry_text e) × IsEntry e }
    ensures again { (e : Option TbsParts) → IsEntry e → entry_in (entry_text e) ≡ Ok e }
{}

/// An entry has one encoding, and its bytes are those of one entry alone.
pub fn law_entries_have_one_encoding()
    ensures { (e f : Option TbsParts) → IsEntry e → IsEntry f → entry_text e ≡ entry_text f
        → e ≡ f }
{}

/// An entry that holds the hash of a public key, and no algorithm but that of the key, matches that
/// key, for every hash function.
pub fn law_written_entries_match_their_keys()
    ensures { (h : HashFunction) (p : TbsParts) (spki : Text) → IsTbs p → IsPublicKey spki
        → IfSome p.algorithm (λ algorithm. algorithm ≡ key_algorithm spki) → p.key_hash ≡ h spki
        → matches h (tbs_text p) spki ≡ true }
{}

/// An entry has one form alone: that of its fields.
pub fn law_entries_have_one_form()
    ensures { (form : Form) (entry : Text) (p : TbsParts) → entry_in entry ≡ Ok (Some p)
        → ((has_form form entry ≡ true) ↔ (form_of p ≡ form)) }
{}

/// The entry of a certificate in a form is an entry with its fields, has that form, and matches its
/// key, for every hash function with hashes of 32 bytes.
pub fn law_entries_of_certificates()
    ensures fields { (h : HashFunction) (form : Form) (p : Parts)
        → ((bytes : Text) → length (h bytes) ≡ 32) → IsCertificate p
        → entry_in (entry_of h form p) ≡ Ok (Some (tbs_with p form (h p.spki))) }
    ensures key { (h : HashFunction) (form : Form) (p : Parts)
        → ((bytes : Text) → length (h bytes) ≡ 32) → IsCertificate p
        → matches h (entry_of h form p) p.spki ≡ true }
    ensures form { (h : HashFunction) (form : Form) (p : Parts)
        → ((bytes : Text) → length (h bytes) ≡ 32) → IsCertificate p
        → has_form form (entry_of h form p) ≡ true }
{}

/// An entry is the one, in its form, of each certificate made of it: of one with its issuer,
/// validity, subject and extensions, and with a key whose hash it holds, and whose algorithm if it
/// holds one.
pub fn law_entries_are_of_their_certificates()
    ensures encoded { (h : HashFunction) (t : TbsParts) (p : Parts) → IsTbs t → IsCertificate p
        → IsMadeOf h t p → entry_of h (form_of t) p ≡ tbs_text t }
    ensures read { (h : HashFunction) (entry : Text) (t : TbsParts) (p : Parts) → IsBytes entry
        → entry_in entry ≡ Ok (Some t)
        → IsCertificate p → IsMadeOf h t p → entry_of h (form_of t) p ≡ entry }
{}
