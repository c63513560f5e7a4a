//! The certificate of one name that a log with id 32473.1 issues, its fields and their ends.

use cert_fields::{
    CertParts, check_algorithm, check_extensions, check_name, check_spki, check_validity,
    check_version, dns_names, is_public_key, parse, unknown_critical, write,
};
use cert_time::Validity;
use der_core::{CertError, DerError};
use mtc_io::{Bytes, Memory};
use std::alloc::Global;
use std::test::Fail;

// Serial number 1, issuer of log 32473.1, 2026-01-01 to 2026-01-08, no subject, an Ed25519 key of
// zeros, one critical subjectAltName with `a.example`, and 52 bytes of proof.
const CERTIFICATE: [u8; 231] = [
    0x30, 0x81, 0xE4, 0x30, 0x81, 0x9C, 0xA0, 0x03, 0x02, 0x01, 0x02, 0x02, 0x01, 0x01, 0x30, 0x0C,
    0x06, 0x0A, 0x2B, 0x06, 0x01, 0x04, 0x01, 0x82, 0xDA, 0x4B, 0x2F, 0x00, 0x30, 0x19, 0x31, 0x17,
    0x30, 0x15, 0x06, 0x0A, 0x2B, 0x06, 0x01, 0x04, 0x01, 0x82, 0xDA, 0x4B, 0x2F, 0x01, 0x0C, 0x07,
    0x33, 0x32, 0x34, 0x37, 0x33, 0x2E, 0x31, 0x30, 0x1E, 0x17, 0x0D, 0x32, 0x36, 0x30, 0x31, 0x30,
    0x31, 0x30, 0x30, 0x30, 0x30, 0x30, 0x30, 0x5A, 0x17, 0x0D, 0x32, 0x36, 0x30, 0x31, 0x30, 0x38,
    0x30, 0x30, 0x30, 0x30, 0x30, 0x30, 0x5A, 0x30, 0x00, 0x30, 0x2A, 0x30, 0x05, 0x06, 0x03, 0x2B,
    0x65, 0x70, 0x03, 0x21, 0x00, 0x00, 0x00, 0x00, 0x00, 0x00, 0x00, 0x00, 0x00, 0x00, 0x00, 0x00,
    0x00, 0x00, 0x00, 0x00, 0x00, 0x00, 0x00, 0x00, 0x00, 0x00, 0x00, 0x00, 0x00, 0x00, 0x00, 0x00,
    0x00, 0x00, 0x00, 0x00, 0x00, 0xA3, 0x1B, 0x30, 0x19, 0x30, 0x17, 0x06, 0x03, 0x55, 0x1D, 0x11,
    0x01, 0x01, 0xFF, 0x04, 0x0D, 0x30, 0x0B, 0x82, 0x09, 0x61, 0x2E, 0x65, 0x78, 0x61, 0x6D, 0x70,
    0x6C, 0x65, 0x30, 0x0C, 0x06, 0x0A, 0x2B, 0x06, 0x01, 0x04, 0x01, 0x82, 0xDA, 0x4B, 0x2F, 0x00,
    0x03, 0x35, 0x00, 0x00, 0x00, 0x00, 0x00, 0x00, 0x00, 0x00, 0x00, 0x00, 0x00, 0x00, 0x00, 0x00,
    0x00, 0x00, 0x02, 0x00, 0x20, 0x70, 0x9E, 0x80, 0xC8, 0x84, 0x87, 0xA2, 0x41, 0x1E, 0x1E, 0xE4,
    0xDF, 0xB9, 0xF2, 0x2A, 0x86, 0x14, 0x92, 0xD2, 0x0C, 0x47, 0x65, 0x15, 0x0C, 0x0C, 0x79, 0x4A,
    0xBD, 0x70, 0xF8, 0x14, 0x7C, 0x00, 0x00,
];

// The certificate with other bytes at some offsets.
fn changed(changes: &[(usize, u8)]) -> [u8; 231] {
    let mut bytes = CERTIFICATE;
    for (offset, byte) in changes {
        if let Some(old) = bytes.get_mut(*offset) {
            *old = *byte;
        }
    }
    bytes
}

const WEEK: Validity = Validity {
    not_before: 1_767_225_600,
    not_after: 1_767_830_400,
};

fn fields_are_parts() -> bool {
    match parse(&CERTIFICATE) {
        Ok(cert) => {
            cert.serial == 1
                && cert.issuer == &CERTIFICATE[28..55]
                && cert.validity == WEEK
                && cert.validity_der == &CERTIFICATE[55..87]
                && cert.subject == &CERTIFICATE[87..89]
                && cert.spki == &CERTIFICATE[89..133]
        }
        Err(_) => false,
    }
}

fn last_fields_are_parts() -> bool {
    match parse(&CERTIFICATE) {
        Ok(cert) => {
            cert.extensions == &CERTIFICATE[133..162]
                && cert.algorithm == &CERTIFICATE[14..28]
                && cert.proof == &CERTIFICATE[179..]
        }
        Err(_) => false,
    }
}

#[test]
fn the_fields_of_a_certificate_are_parts_of_its_bytes(rt: HostRuntime) {
    assert!(rt; fields_are_parts());
    assert!(rt; last_fields_are_parts());
}

fn has_one_name() -> bool {
    match parse(&CERTIFICATE) {
        Ok(cert) => {
            let mut names = dns_names(&cert);
            names.next() == Some(b"a.example".as_slice()) && names.next() == None
        }
        Err(_) => false,
    }
}

#[test]
fn a_certificate_of_one_name_has_that_name_alone(rt: HostRuntime) {
    assert!(rt; has_one_name());
}

fn written(alloc: Global) -> Result<Bytes, Memory> {
    write(
        alloc,
        &CertParts {
            serial: 1,
            issuer: Bytes::copy_of(alloc, &CERTIFICATE[28..55])?,
            validity: WEEK,
            subject: Bytes::copy_of(alloc, &[0x30, 0x00])?,
            spki: Bytes::copy_of(alloc, &CERTIFICATE[89..133])?,
            extensions: Bytes::copy_of(alloc, &CERTIFICATE[133..162])?,
            proof: Bytes::copy_of(alloc, &CERTIFICATE[179..])?,
        },
    )
}

#[test]
fn a_certificate_is_written_from_its_parts(rt: HostRuntime) -> Result<(), Fail> {
    assert!(rt; written(rt.alloc())?.as_slice() == CERTIFICATE.as_slice());
    Ok(())
}

fn fault_of(bytes: &[u8]) -> Option<CertError> {
    parse(bytes).err()
}

fn longer() -> [u8; 232] {
    let mut longer = [0; 232];
    longer[..231].copy_from_slice(&CERTIFICATE);
    longer
}

#[test]
fn a_byte_more_is_refused(rt: HostRuntime) {
    assert!(rt; fault_of(&longer()) == Some(CertError::Der(DerError::Trailing(231))));
}

fn has_unknown(changes: &[(usize, u8)]) -> bool {
    unknown_critical(&changed(changes)[133..162])
}

#[test]
fn an_unknown_critical_extension_is_reported(rt: HostRuntime) {
    assert!(rt; !has_unknown(&[]));
    assert!(rt; has_unknown(&[(143, 0x12)]));
    assert!(rt; !unknown_critical(b""));
}

fn end_of_version(offset: usize) -> Option<usize> {
    if offset > CERTIFICATE.len() {
        return None;
    }
    check_version(&CERTIFICATE, offset).ok()
}

fn end_of_algorithm(offset: usize) -> Option<usize> {
    if offset > CERTIFICATE.len() {
        return None;
    }
    check_algorithm(&CERTIFICATE, offset).ok()
}

fn end_of_name(offset: usize) -> Option<usize> {
    if offset > CERTIFICATE.len() {
        return None;
    }
    check_name(&CERTIFICATE, offset).ok()
}

fn end_of_validity(offset: usize) -> Option<(Validity, usize)> {
    if offset > CERTIFICATE.len() {
        return None;
    }
    check_validity(&CERTIFICATE, offset).ok()
}

fn end_of_key(offset: usize) -> Option<usize> {
    if offset > CERTIFICATE.len() {
        return None;
    }
    check_spki(&CERTIFICATE, offset).ok()
}

fn end_of_extensions(offset: usize) -> Option<usize> {
    if offset > CERTIFICATE.len() {
        return None;
    }
    check_extensions(&CERTIFICATE, offset).ok()
}

fn name_without_attributes() -> Option<CertError> {
    check_name(&changed(&[(31, 0x00)]), 28).err()
}

#[test]
fn a_field_ends_where_the_next_begins(rt: HostRuntime) {
    assert!(rt; end_of_version(6) == Some(11));
    assert!(rt; end_of_algorithm(14) == Some(28));
    assert!(rt; end_of_name(28) == Some(55));
    assert!(rt; end_of_validity(55) == Some((WEEK, 87)));
    assert!(rt; end_of_name(87) == Some(89));
    assert!(rt; end_of_key(89) == Some(133));
    assert!(rt; end_of_extensions(133) == Some(162));
    assert!(rt; end_of_extensions(162) == Some(162));
    assert!(rt; name_without_attributes() == Some(CertError::BadName));
}

fn is_key(from: usize, to: usize) -> bool {
    CERTIFICATE
        .get(from..to)
        .is_some_and(|bytes| is_public_key(bytes))
}

#[test]
fn a_key_is_one_element_and_nothing_else(rt: HostRuntime) {
    assert!(rt; is_key(89, 133));
    assert!(rt; !is_key(89, 134));
    assert!(rt; !is_key(89, 132));
}
