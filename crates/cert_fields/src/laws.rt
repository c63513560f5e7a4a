//! Laws of certificates: the clauses are the laws, and the functions do nothing.

ghost use Rattle.std.specs.Prelude.{◌≡◌, ℕ, ◌^◌, ◌<◌, ◌⊎◌, true, false, List, [], ◌∷◌, ◌++◌};
ghost use Rattle.std.specs.Prelude.{length, Ok, Contains};
ghost use Rattle.std.specs.List.{list_any};
ghost use Rattle.byte_formats.specs.Types.{Text};
ghost use Rattle.byte_formats.specs.Offsets.{IsBytes};
ghost use Rattle.byte_formats.specs.Forms.{IsForm, Anything, OtherThan, itself};
ghost use Rattle.der_core.specs.Elements.{element};
ghost use Rattle.der_core.specs.Forms.{bit_string};
ghost use Rattle.cert_fields.specs.Keys.{algorithm_at, key_algorithm, spki_at, signature_at};
ghost use Rattle.cert_fields.specs.Names.{name_at};
ghost use Rattle.cert_fields.specs.Times.{validity_at};
ghost use Rattle.cert_fields.specs.AltNames.{are_general_names, names_in};
ghost use Rattle.cert_fields.specs.Extensions.{ExtensionFields, is_alt_name, extensions_at};
ghost use Rattle.cert_fields.specs.Extensions.{extensions_in, dns_names_in, is_unknown_critical};
ghost use Rattle.cert_fields.specs.Extensions.{has_unknown_critical};
ghost use Rattle.cert_fields.specs.Found.{sequence_text, extensions_text, AreExtensionsOf};
ghost use Rattle.cert_fields.specs.Found.{AreNamesOf, dns_only};
ghost use Rattle.cert_fields.specs.Certificate.{Parts, parts_of};
ghost use Rattle.cert_fields.specs.Encoding.{certificate};
ghost use Rattle.cert_fields.specs.Grammar.{IsAlgorithm, IsBits, IsPublicKey, IsName, IsValidity};
ghost use Rattle.cert_fields.specs.Grammar.{IsSignatureValue, IsGeneralNames, AreExtensions};
ghost use Rattle.cert_fields.specs.Grammar.{IsExtensionsField, IsCertificate};

/// Algorithms, public keys, names, validities and signatures are read exactly from their encodings,
/// whatever follows.
pub fn law_fields_decode_as_encoded()
    ensures algorithms { IsForm itself IsAlgorithm Anything algorithm_at }
    ensures public_keys { IsForm itself IsPublicKey Anything spki_at }
    ensures names { IsForm itself IsName Anything name_at }
    ensures validities { IsForm (λ v. v.0) IsValidity Anything validity_at }
    ensures signatures { IsForm (λ proof. element 0x03 (0 ∷ proof)) IsSignatureValue Anything
        signature_at }
{}

/// The algorithm of a public key is its first part, the AlgorithmIdentifier before its BIT STRING.
pub fn law_keys_begin_with_their_algorithms()
    ensures first { (algorithm : Text) (bits : ℕ × Text) → IsAlgorithm algorithm → IsBits bits
        → length (algorithm ++ element 0x03 (bit_string bits)) < 2 ^ 24
        → key_algorithm (element 0x30 (algorithm ++ element 0x03 (bit_string bits))) ≡ algorithm }
    ensures every { (bytes : Text) → IsPublicKey bytes → IsAlgorithm (key_algorithm bytes) }
{}

/// The extensions field is read exactly from its encoding where nothing with its tag follows, and
/// the octets of a subjectAltName pass exactly if they are general names.
pub fn law_extensions_decode_as_encoded()
    ensures field { IsForm itself (λ bytes. (bytes ≡ []) ⊎ IsExtensionsField bytes)
        (λ rest. Anything rest × OtherThan 0xA3 rest) extensions_at }
    ensures only { (octets : Text) → IsBytes octets → are_general_names octets ≡ true
        → IsGeneralNames octets }
    ensures again { (octets : Text) → IsGeneralNames octets → are_general_names octets ≡ true }
{}

/// In the field that encodes extensions just these are found, in their order; and in a
/// subjectAltName just its dNSNames.
pub fn law_extensions_are_found()
    ensures extensions { (xs : List ExtensionFields) → AreExtensions xs
        → length (sequence_text xs) < 2 ^ 24 → extensions_in (extensions_text xs) ≡ xs }
    ensures names { (octets : Text) (ns : List (ℕ × Text)) → AreNamesOf octets ns
        → names_in octets ≡ dns_only ns }
{}

/// What [`dns_names`](crate::dns_names) and [`unknown_critical`](crate::unknown_critical) answer
/// for a certificate's field. The field is the encoding of some extensions, of none if it is
/// absent, and the octets of a subjectAltName are those of some names. The dNSNames are those of
/// the one subjectAltName, none without it; and an unknown extension that is critical is reported
/// exactly if one of the extensions is such.
pub fn law_names_and_marks_are_found()
    ensures field { (field : Text) → (field ≡ []) ⊎ IsExtensionsField field
        → (xs : List ExtensionFields) × AreExtensionsOf field xs }
    ensures octets { (octets : Text) → IsGeneralNames octets → (ns : List (ℕ × Text))
        × AreNamesOf octets ns }
    ensures names { (field : Text) (xs : List ExtensionFields) (x : ExtensionFields)
        (ns : List (ℕ × Text)) → AreExtensionsOf field xs → Contains xs x → is_alt_name x ≡ true
        → AreNamesOf x.octets ns → dns_names_in field ≡ dns_only ns }
    ensures none { (field : Text) (xs : List ExtensionFields) → AreExtensionsOf field xs
        → list_any is_alt_name xs ≡ false → dns_names_in field ≡ [] }
    ensures critical { (field : Text) (xs : List ExtensionFields) → AreExtensionsOf field xs
        → has_unknown_critical field ≡ list_any is_unknown_critical xs }
{}

/// What is read as a certificate is its encoding, and the encoding of each certificate is read as
/// its parts.
pub fn law_certificates_decode_as_encoded()
    ensures only { (bytes : Text) (p : Parts) → IsBytes bytes → parts_of bytes ≡ Ok p
        → (bytes ≡ certificate p) × IsCertificate p }
    ensures again { (p : Parts) → IsCertificate p → parts_of (certificate p) ≡ Ok p }
{}

/// A certificate has one encoding, and no certificate begins another one.
pub fn law_one_encoding()
    ensures { (p q : Parts) (s t : Text) → IsCertificate p → IsCertificate q
        → certificate p ++ s ≡ certificate q ++ t → (p ≡ q) × (s ≡ t) }
{}
