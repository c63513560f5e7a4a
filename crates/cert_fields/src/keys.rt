//! Algorithms, public keys and the signature (RFC 5280, sections 4.1.1.2, 4.1.1.3 and 4.1.2.7).

ghost use Rattle.std.specs.Prelude.{◌≡◌};
ghost use Rattle.byte_formats.specs.Readings.{Moves, Gives};
ghost use Rattle.cert_fields.specs.Keys.{algorithm_at, spki_at, is_public_key, key_algorithm};
ghost use Rattle.cert_fields.specs.Keys.{key_parts_at, signature_at, whole_bits_of};
ghost use Rattle.der_core.specs.Contents.{oid_of};
ghost use Rattle.der_core.specs.Fields.{decoded_at};

use der_core::tags::{BIT_STRING, OBJECT_IDENTIFIER, SEQUENCE};
use der_core::{CertError, DerError, Element, Reader, bits, oid};

/// An object identifier, as its contents.
pub fn object_identifier<'a>(reader: &mut Reader<'a>) -> Result<&'a [u8], CertError>
    ensures { Moves (λ bytes. bytes.now) (decoded_at 0x06 oid_of) reader.old result reader.new }
{
    let element = reader.wanted(OBJECT_IDENTIFIER)?;
    Ok(oid(&element)?)
}

/// Reads an AlgorithmIdentifier (RFC 5280, section 4.1.1.2) as its bytes: an object identifier, and
/// at most one element of parameters.
#[tactic(auto, unfolding(crate::specs::Keys::algorithm_at))]
pub fn read_algorithm<'a>(reader: &mut Reader<'a>) -> Result<&'a [u8], CertError>
    ensures { Moves (λ bytes. bytes.now) algorithm_at reader.old result reader.new }
{
    let outer = reader.wanted(SEQUENCE)?;
    let mut inner = Reader::inside(&outer);
    object_identifier(&mut inner)?;
    if !inner.is_at_end() {
        inner.element()?;
    }
    inner.end()?;
    Ok(outer.whole)
}

/// A subjectPublicKeyInfo: an algorithm and a BIT STRING.
#[tactic(auto, unfolding(crate::specs::Keys::spki_at))]
pub fn spki<'a>(reader: &mut Reader<'a>) -> Result<&'a [u8], CertError>
    ensures { Moves (λ bytes. bytes.now) spki_at reader.old result reader.new }
{
    let outer = reader.wanted(SEQUENCE)?;
    let mut inner = Reader::inside(&outer);
    read_algorithm(&mut inner)?;
    let key = inner.wanted(BIT_STRING)?;
    bits(&key)?;
    inner.end()?;
    Ok(outer.whole)
}

// The parts of a subjectPublicKeyInfo: its algorithm, and its bits.
#[tactic(auto, unfolding(crate::specs::Keys::key_parts_at))]
fn key_parts<'a>(reader: &mut Reader<'a>) -> Result<(&'a [u8], (u8, &'a [u8])), CertError>
    ensures { Moves (λ x. (x.0.now, (x.1.0, x.1.1.now))) key_parts_at reader.old result
        reader.new }
{
    let outer = reader.wanted(SEQUENCE)?;
    let mut inner = Reader::inside(&outer);
    let algorithm = read_algorithm(&mut inner)?;
    let key = inner.wanted(BIT_STRING)?;
    let bits = bits(&key)?;
    inner.end()?;
    Ok((algorithm, bits))
}

/// The AlgorithmIdentifier of a subjectPublicKeyInfo, which is its first part (RFC 5280, section
/// 4.1.2.7). No bytes where these aren't one subjectPublicKeyInfo. It takes no memory.
#[tactic(auto, unfolding(crate::specs::Keys::key_algorithm))]
pub fn key_algorithm(bytes: &[u8]) -> &[u8]
    ensures { result.now ≡ key_algorithm bytes.now }
{
    let mut reader = Reader::at(bytes, 0);
    match key_parts(&mut reader) {
        Ok((algorithm, _bits)) if reader.is_at_end() => algorithm,
        _ => &[],
    }
}

/// The bytes are one subjectPublicKeyInfo, and nothing follows it.
#[tactic(auto, unfolding(crate::specs::Keys::is_public_key))]
pub fn reads_as_key(bytes: &[u8]) -> bool
    ensures { result ≡ is_public_key bytes.now }
{
    let mut reader = Reader::at(bytes, 0);
    match spki(&mut reader) {
        Ok(_) => reader.is_at_end(),
        Err(_) => false,
    }
}

// The bytes of a BIT STRING without unused bits; `BadBits` where there are some.
#[tactic(auto, unfolding(crate::specs::Keys::whole_bits_of))]
fn whole_bits<'a>(e: &Element<'a>) -> Result<&'a [u8], DerError>
    ensures { Gives (λ bytes. bytes.now) result (whole_bits_of e.now.place e.now.contents.now) }
{
    match bits(e)? {
        (0, bytes) => Ok(bytes),
        _ => Err(DerError::BadBits(e.place)),
    }
}

/// The bytes of the signature.
#[tactic(auto, unfolding(crate::specs::Keys::signature_at))]
pub fn signature<'a>(reader: &mut Reader<'a>) -> Result<&'a [u8], CertError>
    ensures { Moves (λ bytes. bytes.now) signature_at reader.old result reader.new }
{
    let bit_string = reader.wanted(BIT_STRING)?;
    Ok(whole_bits(&bit_string)?)
}
