//! Elements are read and written by the distinguished encoding rules.

use der_core::tags::{OCTET_STRING, SEQUENCE};
use der_core::{
    DerError, bits, boolean, element_of, expect, oid, put, put_unsigned, read, set_in_order,
    unsigned,
};
use mtc_io::{Bytes, Memory};
use std::alloc::Global;
use std::test::Fail;

// The fault of a SEQUENCE at offset 1.
fn refused_sequence(input: &[u8]) -> Option<DerError> {
    if input.is_empty() {
        return None;
    }
    expect(input, 1, SEQUENCE).err()
}

#[test]
fn faults_of_a_tag_have_their_order_and_offset(rt: HostRuntime) {
    assert!(rt; refused_sequence(&[5]) == Some(DerError::WrongTag(1)));
    assert!(rt; refused_sequence(&[5, 0x1f, 0]) == Some(DerError::HighTag(1)));
    assert!(rt; refused_sequence(&[5, 0x31, 0]) == Some(DerError::WrongTag(1)));
}

#[test]
fn faults_of_a_length_have_their_order_and_offset(rt: HostRuntime) {
    let (long, cut) = (Some(DerError::LongForm(1)), Some(DerError::Truncated(1)));
    assert!(rt; refused_sequence(&[5, 0x30]) == cut);
    assert!(rt; refused_sequence(&[5, 0x30, 0x80]) == long);
    assert!(rt; refused_sequence(&[5, 0x30, 0x84]) == long);
    assert!(rt; refused_sequence(&[5, 0x30, 0x81, 0x7f]) == long);
    assert!(rt; refused_sequence(&[5, 0x30, 0x82, 0x00, 0x80]) == long);
    assert!(rt; refused_sequence(&[5, 0x30, 0x83, 0x00, 0x80, 0x00]) == long);
    assert!(rt; refused_sequence(&[5, 0x30, 0x82, 0x01]) == cut);
    assert!(rt; refused_sequence(&[5, 0x30, 0x02, 0x05]) == cut);
}

// The offset and the contents of a SEQUENCE at offset 1.
fn sequence_of(input: &[u8]) -> Option<(usize, &[u8])> {
    if input.is_empty() {
        return None;
    }
    match expect(input, 1, SEQUENCE) {
        Ok(e) => Some((e.place, e.contents)),
        Err(_) => None,
    }
}

#[test]
fn an_element_has_its_offset_and_its_contents(rt: HostRuntime) {
    assert!(rt; sequence_of(&[5, 0x30, 0x01, 7, 8]) == Some((1, [7].as_slice())));
}

fn number_of(input: &[u8]) -> Result<Option<u64>, DerError> {
    unsigned(&read(input, 0)?)
}

#[test]
fn numbers_have_their_rules(rt: HostRuntime) {
    let largest = [2, 9, 0, 255, 255, 255, 255, 255, 255, 255, 255];
    assert!(rt; number_of(&[2, 1, 0x80]) == Ok(None));
    assert!(rt; number_of(&[2, 2, 0, 0x7f]) == Err(DerError::BadInteger(0)));
    assert!(rt; number_of(&largest) == Ok(Some(u64::MAX)));
    assert!(rt; number_of(&[2, 9, 1, 0, 0, 0, 0, 0, 0, 0, 0]) == Ok(None));
    assert!(rt; number_of(&[2, 0]) == Err(DerError::BadInteger(0)));
}

fn truth_of(input: &[u8]) -> Result<bool, DerError> {
    boolean(&read(input, 0)?)
}

#[test]
fn truth_values_have_their_rules(rt: HostRuntime) {
    assert!(rt; truth_of(&[1, 1, 1]) == Err(DerError::BadBool(0)));
    assert!(rt; truth_of(&[1, 1, 255]) == Ok(true));
}

fn bits_of(input: &[u8]) -> Result<(u8, &[u8]), DerError> {
    bits(&read(input, 0)?)
}

#[test]
fn strings_of_bits_have_their_rules(rt: HostRuntime) {
    assert!(rt; bits_of(&[3, 1, 0]) == Ok((0, b"".as_slice())));
    assert!(rt; bits_of(&[3, 1, 1]) == Err(DerError::BadBits(0)));
    assert!(rt; bits_of(&[3, 2, 1, 1]) == Err(DerError::BadBits(0)));
    assert!(rt; bits_of(&[3, 2, 1, 2]) == Ok((1, [2].as_slice())));
}

fn identifier_of(input: &[u8]) -> Result<&[u8], DerError> {
    oid(&read(input, 0)?)
}

#[test]
fn identifiers_have_their_rules(rt: HostRuntime) {
    assert!(rt; identifier_of(&[6, 0]) == Err(DerError::BadOid(0)));
    assert!(rt; identifier_of(&[6, 1, 0x80]) == Err(DerError::BadOid(0)));
    assert!(rt; identifier_of(&[6, 2, 0x80, 1]) == Err(DerError::BadOid(0)));
    assert!(rt; identifier_of(&[6, 1, 0x81]) == Err(DerError::BadOid(0)));
    assert!(rt; identifier_of(&[6, 2, 0x81, 0x80]) == Err(DerError::BadOid(0)));
    assert!(rt; identifier_of(&[6, 3, 0x55, 4, 3]) == Ok([0x55, 4, 3].as_slice()));
}

fn order_of(input: &[u8]) -> Result<(), DerError> {
    set_in_order(&read(input, 0)?)
}

#[test]
fn sets_rise(rt: HostRuntime) {
    assert!(rt; order_of(&[0x31, 6, 2, 1, 7, 2, 1, 7]) == Ok(()));
    assert!(rt; order_of(&[0x31, 6, 2, 1, 7, 2, 1, 6]) == Err(DerError::SetOrder(0)));
    assert!(rt; order_of(&[0x31, 5, 2, 1, 7, 2, 1]) == Err(DerError::Truncated(5)));
}

fn elements(alloc: Global) -> Result<Bytes, Memory> {
    let mut out = element_of(alloc, OCTET_STRING, &[9])?;
    put(OCTET_STRING, &[9], &mut out)?;
    put_unsigned(0, &mut out)?;
    put_unsigned(127, &mut out)?;
    put_unsigned(128, &mut out)?;
    put_unsigned(u64::MAX, &mut out)?;
    Ok(out)
}

#[test]
fn elements_are_written_one_after_the_other(rt: HostRuntime) -> Result<(), Fail> {
    let wanted = [
        4, 1, 9, 4, 1, 9, 2, 1, 0, 2, 1, 127, 2, 2, 0, 128, 2, 9, 0, 255, 255, 255, 255, 255, 255,
        255, 255,
    ];
    assert!(rt; elements(rt.alloc())?.as_slice() == wanted.as_slice());
    Ok(())
}

// The first four bytes of an element with so many bytes of contents.
fn head(alloc: Global, count: usize) -> Result<Option<[u8; 4]>, Memory> {
    if count > 65536 {
        return Ok(None);
    }
    let contents = vec![in alloc; 0; count]?;
    let element = element_of(alloc, OCTET_STRING, contents.as_slice())?;
    Ok(element.as_slice().first_chunk().copied())
}

#[test]
fn lengths_are_written_in_the_fewest_bytes(rt: HostRuntime) -> Result<(), Fail> {
    let heads = [
        (127, [4, 127, 0, 0]),
        (128, [4, 0x81, 128, 0]),
        (256, [4, 0x82, 1, 0]),
        (65536, [4, 0x83, 1, 0]),
    ];
    for (count, wanted) in heads {
        assert!(rt; head(rt.alloc(), count)? == Some(wanted), "of {count}");
    }
    Ok(())
}
