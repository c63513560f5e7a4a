//! Exports as they are read, and what is wrong with changes to them.

use crate::lists::{cut, toy};
use crate::records::{PUBLIC, export_of};
use cosigner_core::{Export, ReadExportError, Step, read_export};
use std::alloc::Global;
use tree_core::Toy;

// Four entries with the leaf hashes 0, 156, 2 and 3, and the signature of the first two.
const STEPS: &str = "a:2:157 s:0:0:2:157 a:4:164:6";

fn read(alloc: Global, bytes: &[u8]) -> Result<Option<Export>, ReadExportError> {
    read_export::<Toy>(alloc, bytes)
}

fn is_sign(step: Option<&Step>) -> bool {
    match step {
        Some(
            Step::Sign {
                index,
                start,
                end,
                hash,
                proof,
            },
        ) => {
            *index == 0
                && *start == 0
                && *end == 2
                && *hash == toy(157)
                && proof.as_slice().is_empty()
        }
        _ => false,
    }
}

fn is_advance(step: Option<&Step>, wanted: u64, sum: u8, hashes: &[[u8; 32]]) -> bool {
    match step {
        Some(Step::Advance { size, root, proof }) => {
            *size == wanted && *root == toy(sum) && proof.as_slice() == hashes
        }
        _ => false,
    }
}

// Whether the export is that of these steps, of the cosigner 32473.7 and the log 32473.9.
fn is_whole(export: &Export) -> bool {
    let steps = export.steps.as_slice();
    export.cosigner.as_bytes() == [0x81, 0xFD, 0x59, 7].as_slice()
        && export.log.as_bytes() == [0x81, 0xFD, 0x59, 9].as_slice()
        && export.public == PUBLIC
        && steps.len() == 3
        && is_advance(steps.get(0), 2, 157, &[])
        && is_sign(steps.get(1))
        && is_advance(steps.get(2), 4, 164, &[toy(6)])
}

// Whether the bytes are read as the whole export.
fn is_read(alloc: Global, bytes: &[u8]) -> bool {
    match read(alloc, bytes) {
        Ok(Some(export)) => is_whole(&export),
        _ => false,
    }
}

fn is_read_again(alloc: Global) -> Option<bool> {
    let bytes = export_of(alloc, 7, 9, &PUBLIC, STEPS)?;
    Some(is_read(alloc, bytes.as_slice()))
}

#[test]
fn an_export_is_read_as_its_parts(rt: HostRuntime) {
    assert!(rt; is_read_again(rt.alloc()) == Some(true));
}

// The first bytes of an export of these steps, with other bytes at some offsets, `OFFSET=BYTE`; and
// the number of steps that are read, or why it is none. The ids and the key have 72 bytes, the
// records 47, 59 and 79. What follows is of the ids, of the key, and of each record.
const CHANGES: &str = "\
0 none
1 Short:0
4 Short:0
5 Short:5
9 Short:5
10 Short:10
71 Short:10
72 0
73 Short:72
118 Short:72
119 1
177 Short:119
178 2
256 Short:178
257 3
257 0=0 BadId
257 1=128 BadId
257 4=130 BadId
257 6=128 BadId
257 9=130 BadId
257 9=9 3
257 15=0 BadKey
257 15=2 BadRecord:2
257 15=3 BadKey
257 19=4 BadKey
257 19=7 BadKey
257 19=6 3
257 23=0 BadKey
257 23=5 BadKey
257 23=4 3
257 11=59 BadKey
257 75=0 BadRecord:1
257 75=42 BadRecord:1
257 75=44 BadRecord:1
257 76=17 BadRecord:1
257 76=20 BadRecord:1
257 84=0 BadRecord:1
257 84=1 BadRecord:2
257 85=158 BadRecord:2
257 127=1 BadRecord:2
257 135=1 BadRecord:2
257 143=1 BadRecord:2
257 143=3 BadRecord:2
257 144=158 BadRecord:2
257 190=2 BadRecord:3
257 191=165 BadRecord:3
257 225=7 BadRecord:3
257 15=2 76=17 BadRecord:1
257 15=3 76=17 BadKey
257 84=0 190=2 BadRecord:1
";

// The reason of a word, with its number.
fn reason_in(word: &str) -> Option<ReadExportError> {
    let (name, number) = cut(word);
    match name {
        "BadId" => Some(ReadExportError::BadId),
        "BadKey" => Some(ReadExportError::BadKey),
        "Short" => Some(ReadExportError::Short(number.parse::<usize>().ok()?)),
        "BadRecord" => Some(ReadExportError::BadRecord(number.parse::<u64>().ok()?)),
        _ => None,
    }
}

// Whether the bytes are read as the word says.
fn is_answered(alloc: Global, bytes: &[u8], word: &str) -> bool {
    match read(alloc, bytes) {
        Ok(Some(export)) => word.parse::<usize>() == Ok(export.steps.as_slice().len()),
        Ok(None) => word == "none",
        Err(why) => reason_in(word) == Some(why),
    }
}

// Puts a byte at its offset, as `OFFSET=BYTE` says.
fn change(bytes: &mut [u8], word: &str) -> Option<()> {
    let (offset, byte) = word.split_once('=')?;
    *bytes.get_mut(offset.parse::<usize>().ok()?)? = byte.parse::<u8>().ok()?;
    Some(())
}

fn change_all(bytes: &mut [u8], words: &str) -> Option<()> {
    for word in words.split_whitespace() {
        change(bytes, word)?;
    }
    Some(())
}

// Whether the first of the bytes are read as the word says, once the changes are made.
fn is_reported_of(
    alloc: Global,
    bytes: &mut [u8],
    changes: &str,
    count: usize,
    answer: &str,
) -> bool {
    match (change_all(bytes, changes), bytes.get(..count)) {
        (Some(()), Some(first)) => is_answered(alloc, first, answer),
        _ => false,
    }
}

// Whether the changes of a line are reported as the line says.
fn is_reported(alloc: Global, line: &str) -> Option<bool> {
    let (prefix, answer) = line.rsplit_once(' ')?;
    let (count, changes) = prefix.split_once(' ').unwrap_or((prefix, ""));
    let count = count.parse::<usize>().ok()?;
    let mut bytes = export_of(alloc, 2, 1, &PUBLIC, STEPS)?.into_vec();
    Some(is_reported_of(alloc, bytes.as_mut_slice(), changes, count, answer))
}

#[test]
fn each_fault_of_an_export_is_reported_at_its_offset(rt: HostRuntime) {
    let mut count = 0u64;
    for line in CHANGES.lines() {
        assert!(rt; is_reported(rt.alloc(), line) == Some(true), "{line}");
        count = count.saturating_add(1);
    }
    assert!(rt; count == 50);
}

// Steps, and the answer to their export.
const RECORDS: &str = "\
- => 0
a:2:157 a:4:164:6 a:8:190:25 => 3
a:2:157 a:8:190:25 => BadRecord:2
a:2:157 s:0:0:2:157 a:8:190:25 => BadRecord:3
a:2:157:0 => BadRecord:1
s:0:0:2:157 a:2:157 => BadRecord:1
a:2:157 s:0:0:2:157 s:1:0:2:157 s:3:0:2:157 => BadRecord:4
a:2:157 s:0:0:2:157 a:4:164:6 s:1:0:2:157:6 => 4
c:0:5 => BadRecord:1
";

// The same of a key of two levels.
const TREES: &str = "\
c:0:5 => 1
c:0:6 => 1
c:0:7 => BadRecord:1
c:1:5 => BadRecord:1
c:0:5 c:1:5 => BadRecord:2
a:2:157 s:0:0:2:157 => BadRecord:2
a:2:157 c:0:5 s:1:0:2:157 => BadRecord:3
a:2:157 c:0:5 s:0:0:2:157 => 3
c:0:5 a:2:157 s:0:0:2:157 c:1:5 => BadRecord:4
";

// Whether the export of the steps of a line is read as the line says.
fn is_answered_so(alloc: Global, public: &[u8; 60], line: &str) -> Option<bool> {
    let (steps, answer) = line.split_once(" => ")?;
    let bytes = export_of(alloc, 2, 1, public, steps)?;
    Some(is_answered(alloc, bytes.as_slice(), answer))
}

#[test]
fn steps_are_tested_after_those_before_them(rt: HostRuntime) {
    let mut count = 0u64;
    for line in RECORDS.lines() {
        assert!(rt;
            is_answered_so(rt.alloc(), &PUBLIC, line) == Some(true),
            "{line}"
        );
        count = count.saturating_add(1);
    }
    assert!(rt; count == 9);
}

#[test]
fn lower_trees_are_tested_after_the_steps_before_them(rt: HostRuntime) {
    let mut public = PUBLIC;
    public[3] = 2;
    let mut count = 0u64;
    for line in TREES.lines() {
        assert!(rt;
            is_answered_so(rt.alloc(), &public, line) == Some(true),
            "{line}"
        );
        count = count.saturating_add(1);
    }
    assert!(rt; count == 9);
}
