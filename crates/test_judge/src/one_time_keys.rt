//! One-time signatures of other lengths, and pieces that are written into bytes.

use lmots_core::{candidate, put};

// Whether the first so many bytes of a signature of width 8, which has 1,124, lead to a key. Its
// typecode is 4.
fn leads_to_a_key(length: usize) -> bool {
    let mut signature = [0; 1_125];
    signature[3] = 4;
    match signature.get(..length) {
        Some(prefix) => candidate(&[7; 16], 0, b"", prefix).is_some(),
        None => false,
    }
}

#[test]
fn a_signature_has_the_length_of_its_typecode(rt: HostRuntime) {
    assert!(rt; !leads_to_a_key(1_123));
    assert!(rt; leads_to_a_key(1_124));
    assert!(rt; !leads_to_a_key(1_125));
}

fn with_a_piece() -> [u8; 5] {
    let mut bytes = [1, 2, 3, 4, 5];
    put(&mut bytes, 1, &[9, 8]);
    bytes
}

#[test]
fn a_piece_leaves_what_is_around_it(rt: HostRuntime) {
    assert!(rt; with_a_piece() == [1, 9, 8, 4, 5]);
}
