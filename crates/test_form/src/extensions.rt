//! Lists of so many extensions that their identifiers are compared in a block.

use cert_fields::check_extensions;
use der_core::{CertError, DerError};
use mtc_io::{Bytes, Memory};
use std::alloc::Global;
use std::test::Fail;

// The extensions field with 69 extensions of nine bytes each, whose identifiers differ in their
// last byte, and this one after them, at offset 629.
fn field(alloc: Global, last: &[u8; 9]) -> Result<Bytes, Memory> {
    let mut out = Bytes::copy_of(alloc, &[0xA3, 0x82, 0x02, 0x7A, 0x30, 0x82, 0x02, 0x76])?;
    for number in 0..69u8 {
        out.append(&[0x30, 0x07, 0x06, 0x03, 0x55, 0x1E, number, 0x04, 0x00])?;
    }
    out.append(last)?;
    Ok(out)
}

fn end_of_field(alloc: Global, last: &[u8; 9]) -> Result<Result<usize, CertError>, Memory> {
    Ok(check_extensions(field(alloc, last)?.as_slice(), 0))
}

// An extension whose identifier is this number in base 128.
fn extension(number: u32) -> [u8; 9] {
    let high = (number / 16384 % 128) as u8;
    let middle = (number / 128 % 128) as u8;
    let low = (number % 128) as u8;
    [0x30, 0x07, 0x06, 0x03, high, middle, low, 0x04, 0x00]
}

// A field of so many extensions of nine bytes: the tags and lengths before the first, and the
// offset after the last.
struct Listed {
    count: u32,
    head: &'static [u8],
    end: usize,
}

// The extensions field with the extensions of the numbers below the count less one, and that of
// this number after them.
fn long_field(alloc: Global, listed: &Listed, last: u32) -> Result<Bytes, Memory> {
    let mut out = Bytes::copy_of(alloc, listed.head)?;
    for number in 1..listed.count {
        out.append(&extension(number - 1))?;
    }
    out.append(&extension(last))?;
    Ok(out)
}

fn end_of_long_field(
    alloc: Global,
    listed: &Listed,
    last: u32,
) -> Result<Result<usize, CertError>, Memory> {
    Ok(check_extensions(long_field(alloc, listed, last)?.as_slice(), 0))
}

// Lists of one block of each length and of the next larger one, and of more than a block.
const LISTS: [Listed; 5] = [
    Listed {
        count: 256,
        head: &[0xA3, 0x82, 0x09, 0x04, 0x30, 0x82, 0x09, 0x00],
        end: 2312,
    },
    Listed {
        count: 257,
        head: &[0xA3, 0x82, 0x09, 0x0D, 0x30, 0x82, 0x09, 0x09],
        end: 2321,
    },
    Listed {
        count: 8192,
        head: &[0xA3, 0x83, 0x01, 0x20, 0x05, 0x30, 0x83, 0x01, 0x20, 0x00],
        end: 73738,
    },
    Listed {
        count: 8193,
        head: &[0xA3, 0x83, 0x01, 0x20, 0x0E, 0x30, 0x83, 0x01, 0x20, 0x09],
        end: 73747,
    },
    Listed {
        count: 32_770,
        head: &[0xA3, 0x83, 0x04, 0x80, 0x17, 0x30, 0x83, 0x04, 0x80, 0x12],
        end: 294_940,
    },
];

#[test]
fn a_repetition_is_reported_over_blocks_of_each_length(rt: HostRuntime) -> Result<(), Fail> {
    for listed in &LISTS {
        let count = listed.count;
        let cases = [
            (count, Ok(listed.end)),
            (0, Err(CertError::RepeatedExtension)),
            (count.saturating_sub(3), Err(CertError::RepeatedExtension)),
            (count.saturating_sub(2), Err(CertError::RepeatedExtension)),
        ];
        for (last, wanted) in cases {
            assert!(rt;
                end_of_long_field(rt.alloc(), listed, last)? == wanted,
                "{count} extensions, after {last}"
            );
        }
    }
    Ok(())
}

// The end of the extensions field with three hundred thousand extensions. Were each compared with
// all before it, that would take some 45,000 million steps, and more than a test's minute.
fn end_of_three_hundred_thousand(alloc: Global) -> Result<Result<usize, CertError>, Memory> {
    let mut out = Bytes::copy_of(
        alloc,
        &[0xA3, 0x83, 0x29, 0x32, 0xE5, 0x30, 0x83, 0x29, 0x32, 0xE0],
    )?;
    for number in 0..300_000 {
        out.append(&extension(number))?;
    }
    Ok(check_extensions(out.as_slice(), 0))
}

#[test]
fn three_hundred_thousand_extensions_are_read_in_time(rt: HostRuntime) -> Result<(), Fail> {
    assert!(rt; end_of_three_hundred_thousand(rt.alloc())? == Ok(2_700_010));
    Ok(())
}

#[test]
fn a_repetition_among_many_is_reported_at_its_turn(rt: HostRuntime) -> Result<(), Fail> {
    let cases: [(&[u8; 9], Result<usize, CertError>); 6] = [
        (&[0x30, 7, 0x06, 3, 0x55, 0x1E, 69, 0x04, 0], Ok(638)),
        (
            &[0x30, 7, 0x06, 3, 0x55, 0x1E, 0, 0x04, 0],
            Err(CertError::RepeatedExtension),
        ),
        (
            &[0x30, 7, 0x06, 3, 0x55, 0x1E, 68, 0x05, 0],
            Err(CertError::RepeatedExtension),
        ),
        (
            &[0x30, 7, 0x06, 3, 0x55, 0x1E, 69, 0x05, 0],
            Err(CertError::Der(DerError::WrongTag(636))),
        ),
        (
            &[0x30, 7, 0x06, 3, 0x55, 0x1E, 0x80, 0x04, 0],
            Err(CertError::Der(DerError::BadOid(631))),
        ),
        (
            &[0x31, 7, 0x06, 3, 0x55, 0x1E, 0, 0x04, 0],
            Err(CertError::Der(DerError::WrongTag(629))),
        ),
    ];
    for (last, wanted) in cases {
        assert!(rt; end_of_field(rt.alloc(), last)? == wanted, "after {last:?}");
    }
    Ok(())
}
