//! The walk from a Sign to the list of entries that underlies it.

use crate::lists::{are_strings, list_of};
use crate::records::{PUBLIC, export_of};
use collide::Finding;
use cosigner_core::{Step, read_export};
use entry_list::read_items;
use mtc_io::Memory;
use std::alloc::Global;
use tree_core::Toy;
use world_core::{has_prefix, held_by, walk};

// Eight entries, of which the first two are signed at once, and again after the first four.
const STEPS: &str = "a:2:157 s:0:0:2:157 a:4:164:6 s:1:0:2:157:6 a:8:190:25";

// The walk from the step with this number; none where it is no Sign, or the list doesn't begin with
// what is held at last.
fn walked(
    alloc: Global,
    list: &[u8],
    export: &[u8],
    sign: usize,
) -> Option<Result<Finding, Memory>> {
    let items = read_items::<Toy>(alloc, list).ok()?;
    let kept = read_export::<Toy>(alloc, export).ok()??;
    let steps = kept.steps.as_slice();
    if !has_prefix::<Toy, _>(&items.entries(), &held_by::<Toy>(steps)) {
        return None;
    }
    match steps.get(sign) {
        Some(Step::Sign { .. }) => Some(walk::<Toy>(alloc, &items, &kept, sign)),
        _ => None,
    }
}

// Items, the number of a step, and the answer. The leaf hashes are the bytes of the digits, and 156
// for `c` and `d`; a node's is the sum of those below it and 1.
const CASES: &str = "\
0c234567 1 same
0c234567 3 same
0c2345678 1 same
0d234567 1 same
c0234567 3 same
02c34567 1 node:3:160 node:157:6
02c34567 3 node:3:160 node:157:6
05234c67 1 node:13:176 node:164:25
05234c67 3 node:13:176 node:164:25
0c234567 0 none
0c234567 2 none
0c234567 5 none
0c23456 1 none
0c234576 1 same
";

// Whether the answer is that of the words.
fn is(answer: &Option<Result<Finding, Memory>>, words: &str) -> bool {
    match answer {
        None => words == "none",
        Some(Ok(Finding::Same)) => words == "same",
        Some(Ok(Finding::Pair(one, other))) => are_strings(one.as_slice(), other.as_slice(), words),
        Some(Err(_)) => false,
    }
}

// Whether the walk of a line answers so.
fn is_walked(alloc: Global, export: &[u8], line: &str) -> Option<bool> {
    let (letters, rest) = line.split_once(' ')?;
    let (sign, words) = rest.split_once(' ')?;
    let sign = sign.parse::<usize>().ok()?;
    let list = list_of(alloc, letters).ok()?;
    Some(is(&walked(alloc, list.as_slice(), export, sign), words))
}

// How many lines are answered as they say, from the first on.
fn count_walked(alloc: Global, export: &[u8]) -> u64 {
    let mut count = 0u64;
    for line in CASES.lines() {
        if is_walked(alloc, export, line) != Some(true) {
            return count;
        }
        count = count.saturating_add(1);
    }
    count
}

fn count_of_cases(alloc: Global) -> Option<u64> {
    let export = export_of(alloc, 2, 1, &PUBLIC, STEPS)?;
    Some(count_walked(alloc, export.as_slice()))
}

#[test]
fn a_sign_is_of_the_list_or_its_proofs_collide(rt: HostRuntime) {
    let count = count_of_cases(rt.alloc());
    assert!(rt; count == Some(14), "{count:?}");
}
