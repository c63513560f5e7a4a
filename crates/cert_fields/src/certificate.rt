//! A whole certificate (RFC 5280, section 4.1).

ghost use Rattle.std.specs.Prelude.{◌≡◌, ◌==◌, Ok, IfOk};
ghost use Rattle.byte_formats.specs.Readings.{Reads, Moves, Gives, both_at, mapped_at};
ghost use Rattle.byte_formats.specs.Readings.{refused_at, tested_at};
ghost use Rattle.cert_fields.specs.Certificate.{Parts, version_at, serial_at, after_serial_at};
ghost use Rattle.cert_fields.specs.Certificate.{tbs_at, signed_at, certificate_at, parts_of};
ghost use Rattle.cert_fields.specs.Certificate.{is_unique_id, nothing};
ghost use Rattle.cert_fields.specs.Encoding.{certificate};
ghost use Rattle.cert_fields.specs.Grammar.{IsCertificate};
ghost use Rattle.cert_fields.specs.Extensions.{extensions_at};
ghost use Rattle.cert_fields.specs.Keys.{spki_at};
ghost use Rattle.cert_fields.specs.Names.{name_at};
ghost use Rattle.cert_fields.specs.Views.{parts, body};
ghost use Rattle.der_core.specs.Fields.{unsigned_at};
ghost use Rattle.der_core.specs.declared.fault.CertError.TheVariants.{BadVersion, UniqueId};

use crate::cert::Cert;
use crate::extensions::read_extensions;
use crate::keys::{read_algorithm, signature, spki};
use crate::names::read_name;
use crate::tags::VERSION;
use crate::times::read_validity;
use cert_time::Validity;
use der_core::tags::{INTEGER, SEQUENCE};
use der_core::{CertError, Reader, unsigned};

/// The fields after the serial number.
#[derive(Clone, Copy)]
pub struct Fields<'a> {
    pub algorithm: &'a [u8],
    pub issuer: &'a [u8],
    pub validity: Validity,
    pub validity_der: &'a [u8],
    pub subject: &'a [u8],
    pub spki: &'a [u8],
    pub extensions: &'a [u8],
}

// The number of the version: 2.
fn version(reader: &mut Reader) -> Result<(), CertError>
    ensures { Moves (λ x. x) (mapped_at nothing (tested_at (λ n. n == 2) BadVersion
        (unsigned_at BadVersion))) reader.old result reader.new }
{
    let number = reader.wanted(INTEGER)?;
    if unsigned(&number)? != Some(2) {
        return Err(CertError::BadVersion);
    }
    Ok(())
}

/// The version has to be 3, which is written as 2. A refusal leaves the reader where it was.
#[tactic(auto, unfolding(crate::specs::Certificate::version_at))]
pub fn read_version(reader: &mut Reader) -> Result<(), CertError>
    ensures { Reads (λ x. x) version_at reader.old result reader.new }
{
    if !reader.begins_with(VERSION) {
        return Err(CertError::BadVersion);
    }
    let mut ahead = reader.fork();
    let outer = ahead.wanted(VERSION)?;
    let mut inner = Reader::inside(&outer);
    version(&mut inner)?;
    inner.end()?;
    *reader = ahead;
    Ok(())
}

// The serial number, from 1 on.
#[tactic(auto, unfolding(crate::specs::Certificate::serial_at))]
fn serial(reader: &mut Reader) -> Result<u64, CertError>
    ensures { Moves (λ n. n) serial_at reader.old result reader.new }
{
    let number = reader.wanted(INTEGER)?;
    match unsigned(&number)? {
        None | Some(0) => Err(CertError::BadSerial),
        Some(serial) => Ok(serial),
    }
}

// A unique identifier of the issuer or the subject stands here.
fn has_unique_id(reader: &Reader) -> bool
    ensures { result ≡ is_unique_id reader.now.rest }
{
    reader.begins_with(0x81)
        || reader.begins_with(0x82)
        || reader.begins_with(0xA1)
        || reader.begins_with(0xA2)
}

// The fields from the algorithm to the extensions.
#[tactic(auto, unfolding(crate::specs::Certificate::after_serial_at))]
fn after_serial<'a>(reader: &mut Reader<'a>) -> Result<Fields<'a>, CertError>
    ensures { Moves body after_serial_at reader.old result reader.new }
{
    let algorithm = read_algorithm(reader)?;
    let issuer = read_name(reader)?;
    let (validity_der, validity) = read_validity(reader)?;
    let (subject, spki, extensions) = after_validity(reader)?;
    Ok(Fields {
        algorithm,
        issuer,
        validity,
        validity_der,
        subject,
        spki,
        extensions,
    })
}

// The subject, the public key and the extensions.
fn after_validity<'a>(reader: &mut Reader<'a>) -> Result<(&'a [u8], &'a [u8], &'a [u8]), CertError>
    ensures { Moves (λ x. (x.0.now, (x.1.now, x.2.now))) (both_at name_at (both_at spki_at
        (refused_at is_unique_id UniqueId extensions_at))) reader.old result reader.new }
{
    let subject = read_name(reader)?;
    let spki = spki(reader)?;
    if has_unique_id(reader) {
        return Err(CertError::UniqueId);
    }
    let extensions = read_extensions(reader)?;
    Ok((subject, spki, extensions))
}

// What is signed: the serial number, and the fields after it.
#[tactic(auto, unfolding(crate::specs::Certificate::tbs_at))]
fn tbs<'a>(reader: &mut Reader<'a>) -> Result<(u64, Fields<'a>), CertError>
    ensures { Moves (λ t. (tt, (t.0, body t.1))) tbs_at reader.old result reader.new }
{
    let outer = reader.wanted(SEQUENCE)?;
    let mut inner = Reader::inside(&outer);
    read_version(&mut inner)?;
    let serial = serial(&mut inner)?;
    let fields = after_serial(&mut inner)?;
    inner.end()?;
    Ok((serial, fields))
}

// What is signed, with the algorithm beside it, which has to be the same.
#[tactic(auto, unfolding(crate::specs::Certificate::signed_at))]
fn signed<'a>(reader: &mut Reader<'a>) -> Result<(u64, Fields<'a>, &'a [u8]), CertError>
    ensures { Moves (λ s. ((tt, (s.0, body s.1)), s.2.now)) signed_at
        reader.old result reader.new }
{
    let (serial, fields) = tbs(reader)?;
    let algorithm = reader.wanted(SEQUENCE)?.whole;
    if fields.algorithm == algorithm {
        Ok((serial, fields, algorithm))
    } else {
        Err(CertError::AlgorithmsDiffer)
    }
}

// A certificate.
#[tactic(auto, unfolding(crate::specs::Certificate::certificate_at))]
fn certificate<'a>(reader: &mut Reader<'a>) -> Result<Cert<'a>, CertError>
    ensures { Moves parts certificate_at reader.old result reader.new }
{
    let outer = reader.wanted(SEQUENCE)?;
    let mut inner = Reader::inside(&outer);
    let (serial, fields, algorithm) = signed(&mut inner)?;
    let proof = signature(&mut inner)?;
    inner.end()?;
    Ok(Cert {
        serial,
        issuer: fields.issuer,
        validity: fields.validity,
        validity_der: fields.validity_der,
        subject: fields.subject,
        spki: fields.spki,
        extensions: fields.extensions,
        algorithm,
        proof,
    })
}

// All of the bytes.
#[tactic(auto, unfolding(crate::specs::Certificate::parts_of))]
fn whole<'a>(bytes: &'a [u8]) -> Result<Cert<'a>, CertError>
    ensures { Gives parts result (parts_of bytes.now) }
{
    let mut reader = Reader::at(bytes, 0);
    let cert = certificate(&mut reader)?;
    reader.end()?;
    Ok(cert)
}

/// Reads a certificate, without taking memory.
///
/// The first fault from the left is answered, an outer element before its parts. In addition to the
/// faults of elements these are, in the order of the fields: `BadVersion` where the version is
/// absent or isn't 3; `BadSerial` where the serial number isn't from 1 to 2 ^ 64 - 1; `BadName`
/// where a set of a name is empty; `BadTime` where a time is out of its form; `UniqueId` where a
/// unique identifier follows the public key; `RepeatedExtension` and `BadExtension` as in
/// [`check_extensions`](crate::check_extensions); `AlgorithmsDiffer` where the algorithm beside the
/// signature isn't the one that is signed; `BadBits` where the signature has unused bits;
/// `Trailing` with the offset of what follows the last field of a constructed element or of the
/// certificate.
pub fn parse<'a>(bytes: &'a [u8]) -> Result<Cert<'a>, CertError>
    ensures found { IfOk result
        (λ c. (bytes.now ≡ certificate (parts c)) × IsCertificate (parts c)) }
    ensures only { (p : Parts) → IsCertificate p → bytes.now ≡ certificate p
        → Gives parts result (Ok p) }
    ensures exact { Gives parts result (parts_of bytes.now) }
{
    whole(bytes)
}
