//! One field in a longer input. The offsets of refusals count in the whole input.

ghost use Rattle.std.specs.Prelude.{◌≡◌, ◌↔◌, ◌≤◌, length, IfOk, IsTrue};
ghost use Rattle.byte_formats.specs.Offsets.{at};
ghost use Rattle.byte_formats.specs.Readings.{Gives};
ghost use Rattle.cert_time.specs.Periods.{period};
ghost use Rattle.cert_fields.specs.Certificate.{version_at};
ghost use Rattle.cert_fields.specs.Grammar.{IsPublicKey};
ghost use Rattle.cert_fields.specs.Keys.{algorithm_at, spki_at, is_public_key};
ghost use Rattle.cert_fields.specs.Names.{name_at};
ghost use Rattle.cert_fields.specs.Times.{validity_at};
ghost use Rattle.cert_fields.specs.Extensions.{extensions_at};
ghost use Rattle.cert_fields.specs.FieldOffsets.{offset_after, unix_times_after};

use crate::certificate::read_version;
use crate::extensions::read_extensions;
use crate::keys::{read_algorithm, reads_as_key, spki};
use crate::names::read_name;
use crate::times::read_validity;
use cert_time::Validity;
use der_core::{CertError, Reader};

/// Reads the version with its outer tag A0 (RFC 5280, section 4.1.2.1) at this offset and answers
/// the offset after it. In addition to the faults of its elements, another tag and another version
/// than 3, which is written as 2, are `BadVersion`.
pub fn check_version(input: &[u8], place: usize) -> Result<usize, CertError>
    requires { place ≤ length input.now }
    ensures exact { Gives (λ p. p) result (offset_after (version_at (at input.now place))) }
    ensures within { IfOk result (λ p. (place ≤ p) × (p ≤ length input.now)) }
{
    let mut reader = Reader::at(input, place);
    read_version(&mut reader)?;
    Ok(reader.place())
}

/// Reads a Name (RFC 5280, section 4.1.2.4) at this offset and answers the offset after it. In
/// addition to the faults of its elements, a set that is empty is `BadName`.
pub fn check_name(input: &[u8], place: usize) -> Result<usize, CertError>
    requires { place ≤ length input.now }
    ensures exact { Gives (λ p. p) result (offset_after (name_at (at input.now place))) }
    ensures within { IfOk result (λ p. (place ≤ p) × (p ≤ length input.now)) }
{
    let mut reader = Reader::at(input, place);
    read_name(&mut reader)?;
    Ok(reader.place())
}

/// Reads a Validity (RFC 5280, section 4.1.2.5) at this offset and answers its times and the offset
/// after it. In addition to the faults of its elements, a time out of its form is `BadTime`.
pub fn check_validity(input: &[u8], place: usize) -> Result<(Validity, usize), CertError>
    requires { place ≤ length input.now }
    ensures exact { Gives (λ v. (period v.0, v.1)) result
        (unix_times_after (validity_at (at input.now place))) }
    ensures within { IfOk result (λ v. (place ≤ v.1) × (v.1 ≤ length input.now)) }
{
    let mut reader = Reader::at(input, place);
    let (_, unix_times) = read_validity(&mut reader)?;
    Ok((unix_times, reader.place()))
}

/// Reads a SubjectPublicKeyInfo (RFC 5280, section 4.1.2.7) at this offset and answers the offset
/// after it.
pub fn check_spki(input: &[u8], place: usize) -> Result<usize, CertError>
    requires { place ≤ length input.now }
    ensures exact { Gives (λ p. p) result (offset_after (spki_at (at input.now place))) }
    ensures within { IfOk result (λ p. (place ≤ p) × (p ≤ length input.now)) }
{
    let mut reader = Reader::at(input, place);
    spki(&mut reader)?;
    Ok(reader.place())
}

/// Whether the bytes are one SubjectPublicKeyInfo (RFC 5280, section 4.1.2.7), and nothing follows
/// it.
pub fn is_public_key(bytes: &[u8]) -> bool
    ensures exact { result ≡ is_public_key bytes.now }
    ensures meaning { IsTrue result ↔ IsPublicKey bytes.now }
{
    reads_as_key(bytes)
}

/// Reads an AlgorithmIdentifier (RFC 5280, section 4.1.1.2) at this offset and answers the offset
/// after it.
pub fn check_algorithm(input: &[u8], place: usize) -> Result<usize, CertError>
    requires { place ≤ length input.now }
    ensures exact { Gives (λ p. p) result (offset_after (algorithm_at (at input.now place))) }
    ensures within { IfOk result (λ p. (place ≤ p) × (p ≤ length input.now)) }
{
    let mut reader = Reader::at(input, place);
    read_algorithm(&mut reader)?;
    Ok(reader.place())
}

/// Reads the extensions with their outer tag A3 (RFC 5280, section 4.1.2.9) at this offset and
/// answers the offset after them. If the field begins with another tag or nothing is left, the
/// extensions are absent, and the answer is the offset itself. In addition to the faults of
/// elements, a second extension with the same identifier is `RepeatedExtension`, and an empty list,
/// a BOOLEAN of FALSE or a subjectAltName out of its form is `BadExtension`.
pub fn check_extensions(input: &[u8], place: usize) -> Result<usize, CertError>
    requires { place ≤ length input.now }
    ensures exact { Gives (λ p. p) result (offset_after (extensions_at (at input.now place))) }
    ensures within { IfOk result (λ p. (place ≤ p) × (p ≤ length input.now)) }
{
    let mut reader = Reader::at(input, place);
    read_extensions(&mut reader)?;
    Ok(reader.place())
}
