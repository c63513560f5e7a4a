//! The fields of a small TOML file, and texts that are none.

use std::alloc::Global;
use std::test::Fail;
use toml_fields::{TreeError, bytes_of, hash_of, keys_are_among, number_of, read_tree, value_at};

const FILE: &str = "number = 0x10\nbelow = -1\nfloat = 1.0\n\
    hash = \"00112233445566778899aAbBcCdDeEfF00112233445566778899aabbccddeeff\"\n\
    short = \"00112233445566778899aabbccddeeff00112233445566778899aabbccddeef\"\n\
    bytes = \"AAEC/w==\"\nunpadded = \"AAEC/w\"\nother_alphabet = \"AAEC_w==\"\n";

const HASH: [u8; 32] = [
    0x00, 0x11, 0x22, 0x33, 0x44, 0x55, 0x66, 0x77, 0x88, 0x99, 0xAA, 0xBB, 0xCC, 0xDD, 0xEE, 0xFF,
    0x00, 0x11, 0x22, 0x33, 0x44, 0x55, 0x66, 0x77, 0x88, 0x99, 0xAA, 0xBB, 0xCC, 0xDD, 0xEE, 0xFF,
];

// The number at a key of the file.
fn number_at(alloc: Global, key: &str) -> Result<Option<u64>, Fail> {
    let tree = read_tree(alloc, FILE.as_bytes())?;
    Ok(number_of(value_at(&tree, key).ok_or("absent")?))
}

// The hash at a key of the file.
fn hash_at(alloc: Global, key: &str) -> Result<Option<[u8; 32]>, Fail> {
    let tree = read_tree(alloc, FILE.as_bytes())?;
    Ok(hash_of(value_at(&tree, key).ok_or("absent")?))
}

// Whether the bytes at a key of the file are these; none where the value is no base64.
fn has_bytes(alloc: Global, key: &str, wanted: Option<&[u8]>) -> Result<bool, Fail> {
    let tree = read_tree(alloc, FILE.as_bytes())?;
    match bytes_of(alloc, value_at(&tree, key).ok_or("absent")?)? {
        Some(bytes) => Ok(wanted == Some(bytes.as_slice())),
        None => Ok(wanted.is_none()),
    }
}

// Whether the root of a text has no other keys than these.
fn has_only(alloc: Global, text: &[u8], names: &[&str]) -> Result<bool, Fail> {
    Ok(keys_are_among(&read_tree(alloc, text)?, names))
}

// Whether a key of the file is absent.
fn is_absent(alloc: Global, key: &str) -> Result<bool, Fail> {
    let tree = read_tree(alloc, FILE.as_bytes())?;
    Ok(value_at(&tree, key).is_none())
}

// Why a text has no tree; none where it has one.
fn refusal(alloc: Global, text: &[u8]) -> Option<TreeError> {
    read_tree(alloc, text).err()
}

#[test]
fn a_number_is_an_integer_from_0(rt: HostRuntime) -> Result<(), Fail> {
    let cases: [(&str, Option<u64>); 4] = [
        ("number", Some(16)),
        ("below", None),
        ("float", None),
        ("hash", None),
    ];
    for (key, wanted) in cases {
        assert!(rt; number_at(rt.alloc(), key)? == wanted, "{key}");
    }
    assert!(rt; is_absent(rt.alloc(), "absent")?);
    Ok(())
}

#[test]
fn a_hash_is_64_digits_of_either_case(rt: HostRuntime) -> Result<(), Fail> {
    let cases: [(&str, Option<[u8; 32]>); 4] = [
        ("hash", Some(HASH)),
        ("short", None),
        ("bytes", None),
        ("number", None),
    ];
    for (key, wanted) in cases {
        assert!(rt; hash_at(rt.alloc(), key)? == wanted, "{key}");
    }
    Ok(())
}

#[test]
fn bytes_are_padded_base64_of_the_standard_alphabet(rt: HostRuntime) -> Result<(), Fail> {
    let cases: [(&str, Option<&[u8]>); 4] = [
        ("bytes", Some(&[0, 1, 2, 255])),
        ("unpadded", None),
        ("other_alphabet", None),
        ("number", None),
    ];
    for (key, wanted) in cases {
        assert!(rt; has_bytes(rt.alloc(), key, wanted)?, "{key}");
    }
    Ok(())
}

#[test]
fn each_key_of_a_table_has_to_be_named(rt: HostRuntime) -> Result<(), Fail> {
    let text = b"a = 1\nb = 2\n".as_slice();
    assert!(rt; has_only(rt.alloc(), text, &["b", "c", "a"])?);
    assert!(rt; !has_only(rt.alloc(), text, &["b", "ab"])?);
    assert!(rt; has_only(rt.alloc(), b"", &[])?);
    Ok(())
}

#[test]
fn a_text_has_a_tree_where_it_is_toml(rt: HostRuntime) -> Result<(), Fail> {
    for text in [
        b"[log".as_slice(),
        b"a = 1\na = 2\n".as_slice(),
        b"a = \"\xFF\"\n".as_slice(),
    ] {
        assert!(rt; refusal(rt.alloc(), text) == Some(TreeError::NotToml));
    }
    Ok(())
}
