//! Collisions that were built in, under the hash function for tests: the sum of the bytes modulo
//! 256, and 31 bytes 0.

use collide::{Finding, in_consistency, in_list, two_lists};
use mtc_io::{Bytes, Memory};
use std::alloc::Global;
use std::test::Fail;
use tree_core::{Toy, evaluate, leaf};
use tree_proofs::{check, list_hash, part_between};

// Entries whose leaf hashes begin with their own byte.
const FOUR: [&[u8]; 4] = [b"\x09", b"\x08", b"\x01", b"\x02"];

const RISING: [&[u8]; 4] = [b"\x01", b"\x02", b"\x03", b"\x04"];

// The hash with this first byte.
fn toy(sum: u8) -> [u8; 32] {
    let mut hash = [0; 32];
    hash[0] = sum;
    hash
}

// The string that is hashed for two nodes with these first bytes.
fn pair(left: u8, right: u8) -> [u8; 65] {
    let mut text = [0; 65];
    text[0] = 1;
    text[1] = left;
    text[33] = right;
    text
}

// The answer to a comparison of two lists; none where they aren't as long or differ in their hash.
fn compared(alloc: Global, first: &[&[u8]], second: &[&[u8]]) -> Option<Result<Finding, Memory>> {
    if first.len() != second.len() {
        return None;
    }
    if list_hash::<Toy, _>(&first) != list_hash::<Toy, _>(&second) {
        return None;
    }
    Some(two_lists::<Toy, _>(alloc, &first, &second))
}

// The answer for an entry and its path; none where the path doesn't give the hash of the items.
fn looked_up(
    alloc: Global,
    items: &[&[u8]],
    start: u64,
    end: u64,
    index: u64,
    entry: &[u8],
    path: &[[u8; 32]],
) -> Option<Result<Finding, Memory>> {
    if start > end || end > items.len() as u64 {
        return None;
    }
    let own = list_hash::<Toy, _>(&part_between(&items, start, end));
    let given = evaluate::<Toy>(&leaf::<Toy>(entry), index, start, end, path).ok()?;
    if given != own {
        return None;
    }
    Some(in_list::<Toy, _>(alloc, &items, start, end, index, entry, path))
}

// The answer for a node and its proof; none where the proof doesn't check.
fn traced(
    alloc: Global,
    items: &[&[u8]],
    start: u64,
    end: u64,
    node: &[u8; 32],
    proof: &[[u8; 32]],
) -> Option<Result<Finding, Memory>> {
    let root = list_hash::<Toy, _>(&items);
    if check::<Toy>(start, end, items.len() as u64, node, &root, proof).is_err() {
        return None;
    }
    Some(in_consistency::<Toy, _>(alloc, &items, start, end, node, proof))
}

// The answer is this pair, or none.
fn is(answer: &Option<Result<Finding, Memory>>, wanted: Option<(&[u8], &[u8])>) -> bool {
    match (answer, wanted) {
        (Some(Ok(Finding::Same)), None) => true,
        (Some(Ok(Finding::Pair(first, second))), Some((x, y))) => {
            first.as_slice() == x && second.as_slice() == y
        }
        _ => false,
    }
}

// The answer is the pair of the strings for two nodes each.
fn is_of_nodes(
    answer: &Option<Result<Finding, Memory>>,
    first: (u8, u8),
    second: (u8, u8),
) -> bool {
    let one = pair(first.0, first.1);
    let other = pair(second.0, second.1);
    is(answer, Some((&one, &other)))
}

#[test]
fn two_lists_with_one_hash_are_the_same_or_collide(rt: HostRuntime) -> Result<(), Fail> {
    let alloc = rt.alloc();
    let found = compared(alloc, &[b"ab"], &[b"ba"]);
    assert!(rt; is(&found, Some((b"\x00ab", b"\x00ba"))));
    let same = compared(alloc, &[b"ab", b"ba", b""], &[b"ab", b"ba", b""]);
    assert!(rt; is(&same, None));
    let empty = compared(alloc, &[], &[]);
    assert!(rt; is(&empty, None));
    // the leaves differ in their hash, and collide in the node above them
    let exchanged = compared(
        alloc,
        &[b"\x01", b"\x02", b"\x03"],
        &[b"\x02", b"\x01", b"\x03"],
    );
    assert!(rt; is_of_nodes(&exchanged, (1, 2), (2, 1)));
    Ok(())
}

#[test]
fn an_entry_is_in_the_list_or_collides(rt: HostRuntime) -> Result<(), Fail> {
    let alloc = rt.alloc();
    let one = toy(1);
    let two = toy(2);
    let three = toy(3);
    let four = toy(4);
    let ten = toy(10);
    let eleven = toy(11);
    let same = looked_up(alloc, &FOUR, 2, 4, 2, b"\x01", &[two]);
    assert!(rt; is(&same, None));
    let in_leaf = looked_up(alloc, &FOUR, 2, 4, 2, b"\x00\x01", &[two]);
    assert!(rt; is(&in_leaf, Some((b"\x00\x01", b"\x00\x00\x01"))));
    let in_node = looked_up(alloc, &FOUR, 2, 4, 2, b"\x02", &[one]);
    assert!(rt; is_of_nodes(&in_node, (1, 2), (2, 1)));
    // the nodes below the root are 18 and 4, and where the path gives 19 and 3 its collision stays
    // hidden if the entry is the list's
    let hidden = looked_up(alloc, &FOUR, 0, 4, 1, b"\x08", &[ten, three]);
    assert!(rt; is(&hidden, None));
    let below = looked_up(alloc, &FOUR, 0, 4, 1, b"\x07", &[ten, four]);
    assert!(rt; is_of_nodes(&below, (9, 8), (10, 7)));
    let at_root = looked_up(alloc, &FOUR, 0, 4, 1, b"\x07", &[eleven, three]);
    assert!(rt; is_of_nodes(&at_root, (18, 4), (19, 3)));
    Ok(())
}

#[test]
fn a_node_is_of_the_list_or_collides(rt: HostRuntime) -> Result<(), Fail> {
    let alloc = rt.alloc();
    let three = toy(3);
    let four = toy(4);
    let five = toy(5);
    let eight = toy(8);
    let nine = toy(9);
    let same = traced(alloc, &RISING, 0, 2, &four, &[eight]);
    assert!(rt; is(&same, None));
    let beside = traced(alloc, &RISING, 0, 2, &three, &[nine]);
    assert!(rt; is_of_nodes(&beside, (4, 8), (3, 9)));
    let below = traced(alloc, &RISING, 2, 3, &four, &[three, four]);
    assert!(rt; is_of_nodes(&below, (3, 4), (4, 3)));
    // the subtree goes beyond the split: its node is of the left part and of the first hash
    let own = traced(alloc, &RISING, 0, 3, &eight, &[three, four, four]);
    assert!(rt; is(&own, None));
    let hidden = traced(alloc, &RISING, 0, 3, &eight, &[four, four, three]);
    assert!(rt; is(&hidden, None));
    let over = traced(alloc, &RISING, 0, 3, &nine, &[five, three, three]);
    assert!(rt; is_of_nodes(&over, (4, 8), (3, 9)));
    Ok(())
}
