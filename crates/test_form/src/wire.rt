//! Forms are read from left to right, and written one after the other.

use mtc_io::{Bytes, Memory};
use std::alloc::Global;
use std::test::Fail;
use tls_wire::{
    Cursor, HashesError, Short, put_bytes, put_hashes, put_u8, put_u16, put_u32, put_u64, put_vec8,
    put_vec16,
};

const FORMS: [u8; 16] = [1, 2, 3, 2, 0xaa, 0xbb, 0, 0, 0, 9, 0, 1, 7, 0, 5, 1];

fn reads_forms(cursor: &mut Cursor) -> Result<bool, Short> {
    Ok(
        cursor.u8()? == 1
            && cursor.u16()? == 0x0203
            && cursor.vec8()? == [0xaa, 0xbb].as_slice()
            && cursor.u32()? == 9
            && cursor.vec16()? == [7].as_slice(),
    )
}

// A vector, a number and bytes that don't fit what is left.
fn faults_at_the_end(cursor: &mut Cursor) -> [Option<Short>; 3] {
    [
        cursor.vec16().err(),
        cursor.u64().err(),
        cursor.bytes(4).err(),
    ]
}

#[test]
fn forms_are_read_from_left_to_right(rt: HostRuntime) {
    let mut cursor = Cursor::new(&FORMS);
    assert!(rt; reads_forms(&mut cursor) == Ok(true));
    assert!(rt; faults_at_the_end(&mut cursor) == [Some(Short { place: 13 }); 3]);
    assert!(rt; (cursor.place(), cursor.left()) == (13, 3));
    assert!(rt; cursor.rest() == [0, 5, 1].as_slice());
}

// The cursor within the vector that begins at offset 10, and the cursor after it.
fn offsets_of_the_vector() -> Option<(usize, usize, usize)> {
    let mut cursor = Cursor::new(&FORMS);
    cursor.bytes(10).ok()?;
    match cursor.inner16() {
        Ok(inner) if inner.rest() == [7].as_slice() => {
            Some((inner.place(), inner.left(), cursor.place()))
        }
        _ => None,
    }
}

#[test]
fn a_cursor_within_a_vector_keeps_its_offset(rt: HostRuntime) {
    assert!(rt; offsets_of_the_vector() == Some((12, 1, 13)));
}

// The hash at the beginning, and the fault of a second one.
fn reads_one_hash() -> bool {
    let input = [7; 33];
    let mut cursor = Cursor::new(&input);
    cursor.hash() == Ok(&[7; 32]) && cursor.hash().err() == Some(Short { place: 32 })
}

#[test]
fn a_hash_has_32_bytes(rt: HostRuntime) {
    assert!(rt; reads_one_hash());
}

// Sixty-eight bytes that begin with this length in two bytes.
fn after_length(length: u8) -> [u8; 68] {
    let mut input = [7; 68];
    input[0] = 0;
    input[1] = length;
    input
}

fn reads_two_hashes() -> bool {
    let input = after_length(64);
    let mut cursor = Cursor::new(&input);
    cursor.hashes() == Ok([[7; 32], [7; 32]].as_slice())
        && (cursor.place(), cursor.left()) == (66, 2)
}

// The refusal of hashes after this length, and where the cursor then stands.
fn refused_hashes(length: u8) -> (Option<HashesError>, usize) {
    let input = after_length(length);
    let mut cursor = Cursor::new(&input);
    (cursor.hashes().err(), cursor.place())
}

// What doesn't fit is short, also where its length is no multiple of 32.
#[test]
fn hashes_have_32_bytes_each(rt: HostRuntime) {
    assert!(rt; reads_two_hashes());
    assert!(rt; refused_hashes(63) == (Some(HashesError::HashLength), 0));
    assert!(rt; refused_hashes(67) == (Some(HashesError::Short(Short { place: 0 })), 0));
}

fn numbers_and_bytes(alloc: Global) -> Result<Bytes, Memory> {
    let mut out = Bytes::new(alloc);
    put_u8(&mut out, 1)?;
    put_u16(&mut out, 0x0203)?;
    put_u32(&mut out, 9)?;
    put_u64(&mut out, 1 << 32)?;
    put_bytes(&mut out, &[7])?;
    Ok(out)
}

fn vectors(alloc: Global) -> Result<Bytes, Memory> {
    let mut out = Bytes::new(alloc);
    put_vec8(&mut out, &[0xaa, 0xbb])?;
    put_vec16(&mut out, &[5])?;
    put_hashes(&mut out, &[[6; 32]])?;
    put_hashes(&mut out, &[])?;
    Ok(out)
}

#[test]
fn forms_are_written_one_after_the_other(rt: HostRuntime) -> Result<(), Fail> {
    let numbers = [1, 2, 3, 0, 0, 0, 9, 0, 0, 0, 1, 0, 0, 0, 0, 7];
    assert!(rt; numbers_and_bytes(rt.alloc())?.as_slice() == numbers.as_slice());
    let encoded = [
        2, 0xaa, 0xbb, 0, 1, 5, 0, 32, 6, 6, 6, 6, 6, 6, 6, 6, 6, 6, 6, 6, 6, 6, 6, 6, 6, 6, 6, 6,
        6, 6, 6, 6, 6, 6, 6, 6, 6, 6, 6, 6, 0, 0,
    ];
    assert!(rt; vectors(rt.alloc())?.as_slice() == encoded.as_slice());
    Ok(())
}
