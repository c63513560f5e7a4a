//! Object identifiers that have a meaning here, as the contents of their encodings.

ghost use Rattle.std.specs.Prelude.{◌≡◌};
ghost use Rattle.std.specs.Str.{bytes_eq};
ghost use Rattle.cert_fields.specs.Identifiers.{subject_alt_name, is_known_extension};

/// The AlgorithmIdentifier of Merkle tree proofs, 1.3.6.1.4.1.44363.47.0, without parameters.
pub const MTC_PROOF: [u8; 14] = [
    0x30, 0x0C, 0x06, 0x0A, 0x2B, 0x06, 0x01, 0x04, 0x01, 0x82, 0xDA, 0x4B, 0x2F, 0x00,
];

/// The identifier of subjectAltName, 2.5.29.17 (RFC 5280, section 4.2.1.6).
pub const SUBJECT_ALT_NAME: [u8; 3] = [0x55, 0x1D, 0x11];

const BASIC_CONSTRAINTS: [u8; 3] = [0x55, 0x1D, 0x13];

const KEY_USAGE: [u8; 3] = [0x55, 0x1D, 0x0F];

const EXTENDED_KEY_USAGE: [u8; 3] = [0x55, 0x1D, 0x25];

/// subjectAltName, 2.5.29.17.
pub fn is_subject_alt_name(identifier: &[u8]) -> bool
    ensures { result ≡ bytes_eq identifier.now subject_alt_name }
{
    identifier == SUBJECT_ALT_NAME.as_slice()
}

/// subjectAltName, basicConstraints, keyUsage or extKeyUsage: the extensions that may be critical.
pub fn is_known(identifier: &[u8]) -> bool
    ensures { result ≡ is_known_extension identifier.now }
{
    is_subject_alt_name(identifier)
        || identifier == BASIC_CONSTRAINTS.as_slice()
        || identifier == KEY_USAGE.as_slice()
        || identifier == EXTENDED_KEY_USAGE.as_slice()
}
