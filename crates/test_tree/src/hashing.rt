//! Hashes of nodes, subtrees, covers, and what inclusion paths evaluate to.

use crate::known::{ENTRIES, N0_1, N0_2, N0_4, N0_6, N0_8, N1_2, N2_4, N4_5, N4_6, N4_8, N6_8};
use tree_core::{
    Cover, EvalError, Sha, Span, Toy, TreeHash, cover, evaluate, leaf, pair, subtree_ok,
};

// The hashes of nodes over the entries by SHA-256.
const BY_SHA: [[u8; 32]; 11] = [
    N0_1, N1_2, N0_2, N2_4, N0_4, N4_5, N4_6, N0_6, N6_8, N4_8, N0_8,
];

// The first byte of each by `Toy`, the others are 0.
const BY_TOY: [u8; 11] = [
    0x00, 0x00, 0x01, 0x52, 0x54, 0x61, 0x68, 0xbd, 0x15, 0x7e, 0xd3,
];

// The same nodes by a hash function.
fn nodes<H: TreeHash>() -> [[u8; 32]; 11] {
    let n0_1 = leaf::<H>(ENTRIES[0]);
    let n1_2 = leaf::<H>(ENTRIES[1]);
    let n0_2 = pair::<H>(&n0_1, &n1_2);
    let n2_4 = pair::<H>(&leaf::<H>(ENTRIES[2]), &leaf::<H>(ENTRIES[3]));
    let n0_4 = pair::<H>(&n0_2, &n2_4);
    let n4_5 = leaf::<H>(ENTRIES[4]);
    let n4_6 = pair::<H>(&n4_5, &leaf::<H>(ENTRIES[5]));
    let n6_8 = pair::<H>(&leaf::<H>(ENTRIES[6]), &leaf::<H>(ENTRIES[7]));
    let n4_8 = pair::<H>(&n4_6, &n6_8);
    let n0_6 = pair::<H>(&n0_4, &n4_6);
    let n0_8 = pair::<H>(&n0_4, &n4_8);
    [
        n0_1, n1_2, n0_2, n2_4, n0_4, n4_5, n4_6, n0_6, n6_8, n4_8, n0_8,
    ]
}

// Whether a hash has this first byte, and 0 in all others.
fn is_toy(hash: &[u8; 32], sum: u8) -> bool {
    let mut toy = [0; 32];
    toy[0] = sum;
    *hash == toy
}

#[test]
fn nodes_have_the_known_hashes(rt: HostRuntime) {
    assert!(rt; nodes::<Sha>().as_slice() == BY_SHA.as_slice());
    let by_toy = nodes::<Toy>();
    for i in 0..BY_TOY.len() {
        assert!(rt; is_toy(&by_toy[i], BY_TOY[i]), "node {i}");
    }
}

#[test]
fn subtrees_begin_at_a_multiple_of_their_power(rt: HostRuntime) {
    let cases = [
        (0, 1, true),
        (4, 6, true),
        (4, 8, true),
        (6, 8, true),
        (5, 6, true),
        (2, 6, false),
        (5, 7, false),
        (3, 3, false),
        (4, 3, false),
        (1 << 63, u64::MAX, true),
        (1, u64::MAX, false),
        (0, u64::MAX, true),
    ];
    for (start, end, wanted) in cases {
        assert!(rt; subtree_ok(start, end) == wanted, "{start} to {end}");
    }
}

// The cover of an interval; none of one that holds no entries.
fn covered(start: u64, end: u64) -> Option<Cover> {
    if start >= end {
        return None;
    }
    Some(cover(start, end))
}

fn one(start: u64, end: u64) -> Cover {
    Cover {
        first: Span { start, end },
        second: None,
    }
}

fn two(start: u64, middle: u64, end: u64) -> Cover {
    Cover {
        first: Span { start, end: middle },
        second: Some(Span { start: middle, end }),
    }
}

#[test]
fn intervals_have_their_cover(rt: HostRuntime) {
    let cases = [
        (5, 13, two(4, 8, 13)),
        (0, 8, two(0, 4, 8)),
        (7, 8, one(7, 8)),
        (5, 9, two(4, 8, 9)),
        (1, u64::MAX, two(0, 1 << 63, u64::MAX)),
        (u64::MAX - 1, u64::MAX, one(u64::MAX - 1, u64::MAX)),
    ];
    for (start, end, wanted) in cases {
        assert!(rt; covered(start, end) == Some(wanted), "{start} to {end}");
    }
}

// What a path of an entry in an interval is answered by SHA-256.
fn answered(
    leaf: &[u8; 32],
    index: u64,
    interval: (u64, u64),
    path: &[[u8; 32]],
) -> Result<[u8; 32], EvalError> {
    evaluate::<Sha>(leaf, index, interval.0, interval.1, path)
}

// Whether it gives this hash.
fn gives(
    leaf: &[u8; 32],
    index: u64,
    interval: (u64, u64),
    path: &[[u8; 32]],
    wanted: &[u8; 32],
) -> bool {
    answered(leaf, index, interval, path) == Ok(*wanted)
}

#[test]
fn paths_evaluate_to_their_subtree(rt: HostRuntime) {
    let n5_6 = leaf::<Sha>(ENTRIES[5]);
    assert!(rt; gives(&N1_2, 1, (0, 8), &[N0_1, N2_4, N4_8], &N0_8));
    assert!(rt; gives(&N0_1, 0, (0, 8), &[N1_2, N2_4, N4_8], &N0_8));
    assert!(rt; gives(&N4_5, 4, (0, 6), &[n5_6, N0_4], &N0_6));
    assert!(rt; gives(&n5_6, 5, (0, 6), &[N4_5, N0_4], &N0_6));
    assert!(rt; gives(&n5_6, 5, (4, 6), &[N4_5], &N4_6));
    assert!(rt; gives(&N0_1, 0, (0, 1), &[], &N0_1));
}

#[test]
fn paths_of_another_length_are_refused(rt: HostRuntime) {
    let (short, long) = ([N0_1, N2_4], [N0_1, N2_4, N4_8, N0_1]);
    assert!(rt; answered(&N1_2, 1, (0, 8), &short) == Err(EvalError::WrongLength));
    assert!(rt; answered(&N1_2, 1, (0, 8), &long) == Err(EvalError::WrongLength));
    assert!(rt; answered(&N0_1, 0, (0, 1), &[N0_1]) == Err(EvalError::WrongLength));
}

#[test]
fn paths_of_no_entry_of_a_subtree_are_refused(rt: HostRuntime) {
    assert!(rt; answered(&N1_2, 1, (1, 1), &[]) == Err(EvalError::BadSubtree));
    assert!(rt; answered(&N1_2, 9, (1, 3), &[N0_1]) == Err(EvalError::BadSubtree));
    assert!(rt; answered(&N1_2, 1, (0, 1), &[]) == Err(EvalError::Outside));
    assert!(rt; answered(&N1_2, 8, (0, 8), &[N0_1]) == Err(EvalError::Outside));
    assert!(rt; answered(&N1_2, 3, (4, 6), &[N0_1]) == Err(EvalError::Outside));
}
