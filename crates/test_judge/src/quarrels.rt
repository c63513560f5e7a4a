//! Exports with two signatures in conflict, and the two strings that their proofs show.

use crate::lists::are_strings;
use crate::records::{PUBLIC, export_of};
use cosigner_core::read_export;
use mtc_io::Memory;
use quarrel_core::{Quarrel, quarrel};
use std::alloc::Global;
use tree_core::Toy;

// Steps, and the answer: both keys and both strings, or that the signatures agree. The proof of the
// first signature is carried over an Advance, and joined to it; the strings are found at both
// checkpoints, and while the proofs are joined: at the root or further down, left of a split, right
// of it and over it. A signature of another interval is in no conflict.
const CASES: &str = "\
a:2:8 s:0:0:1:5:2 s:1:0:1:4:3|0 1 node:5:2 node:4:3
a:2:8 s:0:0:1:5:2 a:4:20:11 s:1:0:1:4:3:11|0 1 node:5:2 node:4:3
a:2:8 s:0:0:1:5:2 a:4:20:11 s:1:0:1:4:2:12|0 1 node:8:11 node:7:12
a:3:16 s:0:0:2:8:7 a:4:21:6:4:9 s:1:0:2:9:11|0 1 node:8:7 node:9:6
a:3:14 s:0:2:3:5:8 a:4:18:6:3:7 s:1:2:3:9:3:4|0 1 node:8:5 node:7:6
a:3:14 s:0:2:3:5:8 a:4:18:5:3:8 s:1:2:3:9:3:4|0 1 node:8:9 node:4:13
a:7:19 s:0:0:6:15:4:3:10 a:8:26:2:6:4:11 s:1:0:6:13:3:12:9|0 1 node:10:8 node:11:7
a:7:19 s:0:0:6:15:4:3:10 a:8:26:2:6:5:10 s:1:0:6:13:3:12:9|0 1 node:4:3 node:5:2
a:7:19 s:0:0:6:15:4:3:10 a:8:26:3:6:4:10 s:1:0:6:13:3:12:9|0 1 node:10:15 node:9:16
a:2:8 s:0:0:1:5:2 s:1:0:2:8 s:2:0:1:5:2 s:3:0:1:4:3|0 3 node:5:2 node:4:3
a:2:8 s:0:0:1:5:2 s:1:0:1:4:3 s:2:0:1:3:4|0 1 node:5:2 node:4:3
a:2:8 s:0:0:1:5:2 s:1:1:2:2:5 s:2:1:2:3:4 s:3:0:1:4:3|1 2 node:5:2 node:4:3
a:2:8 s:0:0:1:5:2 s:1:0:1:5:2|agree
a:2:8 s:0:0:1:5:2 s:1:1:2:4:3|agree
a:2:8|agree
-|agree
";

// What the steps of an export show; none of what is no export.
fn shown(alloc: Global, export: &[u8]) -> Option<Result<Quarrel, Memory>> {
    let kept = read_export::<Toy>(alloc, export).ok()??;
    Some(quarrel::<Toy>(alloc, &kept))
}

// Whether the first word is this number; the words after it.
fn after_number(words: &str, number: u32) -> Option<&str> {
    let (word, rest) = words.split_once(' ')?;
    if word.parse::<u32>() == Ok(number) {
        return Some(rest);
    }
    None
}

// Whether these are the keys and the strings of the words.
fn is_pair(first: u32, second: u32, x: &[u8], y: &[u8], words: &str) -> Option<bool> {
    let rest = after_number(words, first)?;
    let strings = after_number(rest, second)?;
    Some(are_strings(x, y, strings))
}

// Whether the answer is that of the words.
fn is(answer: &Option<Result<Quarrel, Memory>>, words: &str) -> bool {
    match answer {
        Some(Ok(Quarrel::Agree)) => words == "agree",
        Some(
            Ok(
                Quarrel::Pair {
                    first,
                    second,
                    x,
                    y,
                },
            ),
        ) => { is_pair(*first, *second, x.as_slice(), y.as_slice(), words) == Some(true) }
        _ => false,
    }
}

// Whether the steps of a line show what it says.
fn is_shown(alloc: Global, line: &str) -> Option<bool> {
    let (steps, words) = line.split_once('|')?;
    let export = export_of(alloc, 2, 1, &PUBLIC, steps)?;
    Some(is(&shown(alloc, export.as_slice()), words))
}

// How many lines are answered as they say, from the first on.
fn count_shown(alloc: Global) -> u64 {
    let mut count = 0u64;
    for line in CASES.lines() {
        if is_shown(alloc, line) != Some(true) {
            return count;
        }
        count = count.saturating_add(1);
    }
    count
}

#[test]
fn two_signatures_in_conflict_show_two_strings(rt: HostRuntime) {
    let count = count_shown(rt.alloc());
    assert!(rt; count == 16, "{count:?}");
}

// Each one-time key of a lower tree of height 5 signs one entry, and the first one of the next tree
// signs another in its place.
fn over_two_trees(alloc: Global) -> Option<String> {
    let mut steps = String::new(alloc);
    steps.push_str("c:0:5 a:2:8").ok()?;
    for index in 0..32u32 {
        let sign = format!(in alloc; " s:{index}:0:1:5:2").ok()?;
        steps.push_str(sign.as_str()).ok()?;
    }
    steps
        .push_str(" c:1:5 s:32:0:1:4:3|0 32 node:5:2 node:4:3")
        .ok()?;
    Some(steps)
}

fn is_shown_over_two_trees(alloc: Global) -> Option<bool> {
    let line = over_two_trees(alloc)?;
    let (steps, words) = line.as_str().split_once('|')?;
    let mut public = PUBLIC;
    public[3] = 2;
    let export = export_of(alloc, 2, 1, &public, steps)?;
    Some(is(&shown(alloc, export.as_slice()), words))
}

#[test]
fn signatures_by_two_lower_trees_are_in_conflict(rt: HostRuntime) {
    assert!(rt; is_shown_over_two_trees(rt.alloc()) == Some(true));
}
