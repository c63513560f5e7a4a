//! The records of cosigners with lower trees: in a journal and in an export, in all their orders.

use crate::cosigners::{MemCosigner, cosigner_in, disk_after, is_known};
use crate::exports::{advance_body, read, sign_body, steps_of, text_of};
use crate::journals::disk;
use crate::known::{Known, LOG, NEW, PUBLIC};
use crate::two_levels::{MemKeyless, NEW_OF_TWO, child, public_of_two, with_a_signature};
use cosigner_core::{
    ChildError, CosignError, CosignerOpenError, Export, ReadExportError, Step, SubtreeRequest,
};
use hss_core::{LmsType, SigBuf};
use journal_core::Refused;
use std::alloc::Global;
use tree_core::{Sha, leaf};

// The number of the first record that breaks the rules of a journal, or `-`, the levels of its key,
// and the records after the first one:
//
// advance         an Advance to one entry
// child N TYPE    a Child of this number, with the typecode of its tree
// signs N COUNT   so many Signs of the entry, from the key of this number on
// trees N COUNT   so many Childs from this number on, each with Signs by all of its keys
// begins LEVELS   a first record
const IN_JOURNALS: &str = "
- 2 child 0 5, advance, signs 0 32, child 1 5, signs 32 1
- 2 advance, child 0 5, signs 0 1
1 2 begins 1
1 2 begins 2
1 1 begins 2
1 1 child 0 5
1 2 child 1 5
1 2 child 0 6
1 2 child 0 7
2 2 child 0 5, child 0 5
2 2 child 0 5, child 1 5
2 2 advance, signs 0 1
3 2 advance, child 0 5, signs 1 1
4 2 advance, child 0 5, signs 0 1, child 1 5
34 2 advance, child 0 5, signs 0 31, child 1 5
35 2 advance, child 0 5, signs 0 33
35 2 advance, child 0 5, signs 0 32, child 0 5
35 2 advance, child 0 5, signs 0 32, child 2 5
35 2 advance, child 0 5, signs 0 32, child 1 6
36 2 advance, child 0 5, signs 0 32, child 1 5, signs 0 1
36 2 advance, child 0 5, signs 0 32, child 1 5, signs 33 1
- 2 advance, trees 0 32
1058 2 advance, trees 0 32, signs 1024 1
1058 2 advance, trees 0 32, child 32 5
";

// The same of exports, whose first Child shows the height of the lower trees.
const IN_EXPORTS: &str = "
- 2 child 0 5, advance, signs 0 32, child 1 5, signs 32 1
- 2 advance, child 0 6, signs 0 33
1 2 begins 1
1 2 begins 2
1 1 child 0 5
1 2 child 1 5
1 2 child 0 7
2 2 advance, signs 0 1
2 2 child 0 6, child 1 6
35 2 advance, child 0 5, signs 0 33
35 2 advance, child 0 5, signs 0 32, child 1 6
1027 2 advance, child 0 6, signs 0 1025
- 2 advance, trees 0 32
1058 2 advance, trees 0 32, child 32 5
";

// The signature of the one entry by the last one-time key.
const LAST: Known = (
    4756,
    [
        0x97, 0x28, 0xA5, 0xC3, 0xB1, 0x3F, 0x1B, 0xBD, 0x4C, 0xA1, 0xD8, 0x9C, 0x68, 0xC0, 0xCE,
        0x82, 0xD0, 0x77, 0x58, 0x7F, 0xDB, 0xD9, 0x2C, 0xAF, 0xE1, 0xC6, 0x34, 0x12, 0x8E, 0x44,
        0xFA, 0x86,
    ],
);

// The export after an Advance to four entries, a Child and a Sign of all.
const EXPORT: Known = (
    191,
    [
        0x83, 0xFC, 0xE9, 0x67, 0x23, 0x1B, 0x43, 0x47, 0xC2, 0x4B, 0xE1, 0xDC, 0x4F, 0xAE, 0x12,
        0x43, 0x76, 0xC3, 0x03, 0xDD, 0x46, 0x11, 0xA5, 0x76, 0x5A, 0x18, 0xD3, 0x33, 0xE4, 0x45,
        0x45, 0x42,
    ],
);

// The ids of the cosigner and of its log, and the length of its key.
const EXPORT_IDS: [u8; 12] = [
    0x04, 0x81, 0xFD, 0x59, 0x02, 0x04, 0x81, 0xFD, 0x59, 0x01, 0x00, 0x3C,
];

// A list of records as bytes: each after its length, and after a commit byte if it is a journal's.
#[derive(Drop)]
struct Records {
    bytes: Vec<u8>,
    is_journal: bool,
}

impl Records {
    fn push(&mut self, body: &[u8]) -> Option<()> {
        if self.is_journal {
            self.bytes.push(1).ok()?;
        }
        let length = u32::try_from(body.len()).ok()?;
        self.bytes.extend_from_slice(&length.to_be_bytes()).ok()?;
        self.bytes.extend_from_slice(body).ok()
    }

    fn push_child(&mut self, number: u32, typecode: u32) -> Option<()> {
        let mut body = [0; 9];
        body[0] = 0x14;
        body[1..5].copy_from_slice(&number.to_be_bytes());
        body[5..].copy_from_slice(&typecode.to_be_bytes());
        self.push(&body)
    }

    fn push_signs(&mut self, first: u32, count: u32) -> Option<()> {
        let hash = leaf::<Sha>(&[]);
        for number in first..first.checked_add(count)? {
            self.push(&sign_body(number, &hash))?;
        }
        Some(())
    }

    fn push_trees(&mut self, first: u32, count: u32) -> Option<()> {
        for number in first..first.checked_add(count)? {
            self.push_child(number, 5)?;
            self.push_signs(number.checked_mul(32)?, 32)?;
        }
        Some(())
    }

    fn push_first(&mut self, levels: u32) -> Option<()> {
        let journal = new_of(levels);
        self.push(journal.get(21..journal.len().checked_sub(1)?)?)
    }

    // The records of a word and its two numbers.
    fn push_named(&mut self, name: &str, first: u32, second: u32) -> Option<()> {
        match name {
            "advance" => self.push(&advance_body(&leaf::<Sha>(&[]))),
            "child" => self.push_child(first, second),
            "signs" => self.push_signs(first, second),
            "trees" => self.push_trees(first, second),
            "begins" => self.push_first(first),
            _ => None,
        }
    }

    fn push_all(&mut self, words: &str) -> Option<()> {
        for record in words.split(',') {
            let mut parts = record.split_whitespace();
            let name = parts.next()?;
            let (first, second) = (next_number(parts.next())?, next_number(parts.next())?);
            self.push_named(name, first, second)?;
        }
        Some(())
    }
}

// The number of a word; 0 where there is none.
fn next_number(word: Option<&str>) -> Option<u32> {
    match word {
        Some(digits) => digits.parse::<u32>().ok(),
        None => Some(0),
    }
}

// The journal of the new cosigner with so many levels.
fn new_of(levels: u32) -> &'static [u8] {
    if levels == 2 { &NEW_OF_TWO } else { &NEW }
}

// The journal of the new cosigner with these records after the first one.
fn journal_with(alloc: Global, levels: u32, words: &str) -> Option<Vec<u8>> {
    let new = new_of(levels);
    let mut records = Records {
        bytes: Vec::from_slice(alloc, new.get(..new.len().checked_sub(1)?)?).ok()?,
        is_journal: true,
    };
    records.push_all(words)?;
    let Records {
        mut bytes,
        is_journal: _,
    } = records;
    bytes.push(0).ok()?;
    Some(bytes)
}

// What an export has before its records: the ids, and the key after its length.
fn prefix_of(alloc: Global, levels: u32) -> Option<Vec<u8>> {
    let mut bytes = Vec::from_slice(alloc, &EXPORT_IDS).ok()?;
    let public = if levels == 2 { public_of_two() } else { PUBLIC };
    bytes.extend_from_slice(&public).ok()?;
    Some(bytes)
}

// The export of the new cosigner with these records.
fn export_with(alloc: Global, levels: u32, words: &str) -> Option<Vec<u8>> {
    let mut records = Records {
        bytes: prefix_of(alloc, levels)?,
        is_journal: false,
    };
    records.push_all(words)?;
    let Records {
        bytes,
        is_journal: _,
    } = records;
    Some(bytes)
}

// The number of the first record of a journal that breaks the rules; 0 where none does. None where
// it is refused for another reason.
fn wrong_in_journal(alloc: Global, bytes: &[u8]) -> Option<u64> {
    match MemKeyless::open(alloc, disk(alloc, bytes, &[]).ok()?) {
        Ok(_) => Some(0),
        Err(Refused { why, .. }) => match why {
            CosignerOpenError::BadRecord(number) => Some(number),
            _ => None,
        },
    }
}

// The same of an export.
fn wrong_in_export(alloc: Global, bytes: &[u8]) -> Option<u64> {
    match steps_of(alloc, bytes) {
        Ok(Some(_)) => Some(0),
        Err(ReadExportError::BadRecord(number)) => Some(number),
        _ => None,
    }
}

// Whether the records of a line are refused as it says.
fn is_refused_so(alloc: Global, line: &str, are_exported: bool) -> Option<bool> {
    let (number, rest) = line.split_once(' ')?;
    let (levels, words) = rest.split_once(' ')?;
    let levels = levels.parse::<u32>().ok()?;
    let found = if are_exported {
        wrong_in_export(alloc, export_with(alloc, levels, words)?.as_slice())?
    } else {
        wrong_in_journal(alloc, journal_with(alloc, levels, words)?.as_slice())?
    };
    Some(found == number.parse::<u64>().unwrap_or(0))
}

// The first line of a text that isn't so; an empty line says nothing.
fn wrong_line(alloc: Global, text: &'static str, are_exported: bool) -> Option<&'static str> {
    for line in text.lines() {
        if !line.is_empty() && is_refused_so(alloc, line, are_exported) != Some(true) {
            return Some(line);
        }
    }
    None
}

#[test]
fn records_of_a_journal_follow_its_lower_trees(rt: HostRuntime) {
    let wrong = wrong_line(rt.alloc(), IN_JOURNALS, false);
    assert!(rt; wrong == None, "{wrong:?}");
}

#[test]
fn records_of_an_export_follow_its_lower_trees(rt: HostRuntime) {
    let wrong = wrong_line(rt.alloc(), IN_EXPORTS, true);
    assert!(rt; wrong == None, "{wrong:?}");
}

// Signs the one entry.
fn sign_entry(cosigner: &mut MemCosigner, out: &mut SigBuf) -> Result<(), CosignError> {
    let request = SubtreeRequest {
        log: &LOG,
        start: 0,
        end: 1,
        hash: leaf::<Sha>(&[]),
        proof: &[],
    };
    cosigner.cosign(&request, out)
}

// Whether a cosigner with one one-time key left signs once more, and then makes no further tree.
fn ends(alloc: Global, cosigner: &mut MemCosigner) -> bool {
    let mut out = SigBuf::new();
    child(alloc, cosigner) == Err(ChildError::ChildLeft(1))
        && sign_entry(cosigner, &mut out).is_ok()
        && is_known(out.as_slice(), LAST)
        && sign_entry(cosigner, &mut out) == Err(CosignError::Exhausted)
        && out.as_slice().is_empty()
        && child(alloc, cosigner) == Err(ChildError::Exhausted)
}

// Whether the one with all lower trees does, and adds one Sign.
fn is_exhausted(alloc: Global) -> Option<bool> {
    let words = "advance, trees 0 31, child 31 5, signs 992 31";
    let journal = journal_with(alloc, 2, words)?;
    let wanted = journal_with(alloc, 2, "advance, trees 0 32")?;
    let mut cosigner = cosigner_in(alloc, journal.as_slice(), &[]).ok()??;
    let ended = ends(alloc, &mut cosigner);
    Some(disk_after(cosigner).bytes() == wanted.as_slice() && ended)
}

#[test]
fn the_last_lower_tree_has_a_last_key(rt: HostRuntime) {
    assert!(rt; is_exhausted(rt.alloc()) == Some(true));
}

// What an export says: its key, how many records it has, and the number and the tree of the second.
fn shown_by(export: &Export) -> ([u8; 60], usize, Option<(u32, LmsType)>) {
    let steps = export.steps.as_slice();
    let second = match steps.get(1) {
        Some(Step::Child { number, low }) => Some((*number, *low)),
        _ => None,
    };
    (export.public, steps.len(), second)
}

fn is_read(alloc: Global, text: &[u8]) -> bool {
    match read(alloc, text) {
        Ok(Some(export)) => shown_by(&export) == (public_of_two(), 3, Some((0, LmsType::H5))),
        _ => false,
    }
}

// Whether the cosigner with a Child and a Sign writes the known export, which is read again.
fn is_exported(alloc: Global) -> Option<bool> {
    let mut cosigner = with_a_signature(alloc).ok()??;
    let text = text_of(alloc, &mut cosigner, 7).ok()??;
    Some(is_known(text.as_slice(), EXPORT) && is_read(alloc, text.as_slice()))
}

#[test]
fn an_export_has_the_lower_trees(rt: HostRuntime) {
    assert!(rt; is_exported(rt.alloc()) == Some(true));
}
