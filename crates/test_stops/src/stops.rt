//! Each stop of a command, and sixteen of the crash states that it may leave.

use crate::cases::{
    ADVANCE, CHILD, CHILD_SIGNS, COSIGN, COSIGN_2, COSIGN_AGAIN, ISSUE, ISSUE_LIST, LANDMARK,
    NEW_COSIGNER, NEW_COSIGNER_2, NEW_LOG, SWITCH, TILE, TILE_COMMIT, TILES,
};
use crate::coded::{coded, field, journal_of, lines, numbers};
use crate::files::{Answer, CrashState, Files, Stopped};
use crate::model::Model;
use hss_core::{PUBLIC_KEY_LEN, verify};
use std::alloc::Global;

const REQUEST: &str = "not_before = \"2026-01-01T00:00:00Z\"
not_after = \"2026-01-08T00:00:00Z\"
dns = [\"a.example\"]
key = \"MCowBQYDK2VwAyEAAAAAAAAAAAAAAAAAAAAAAAAAAAAAAAAAAAAAAAAAAAA=\"
";

// A cosigner's id and the length of its signature have so many bytes before the signature.
const BEFORE_SIGNATURE: usize = 7;

// What a command answers that opens a file: what its output begins with, or what it reports if that
// is nothing; and if the output is a signature, its public key with its message.
#[derive(Drop)]
struct Wanted {
    out: Vec<u8>,
    report: Vec<u8>,
    signed: Vec<u8>,
}

// Whether an output has a signature of this message, after its public key.
fn has_signature(out: &[u8], signed: &[u8]) -> bool {
    let parts = (
        out.get(BEFORE_SIGNATURE..),
        signed.split_at_checked(PUBLIC_KEY_LEN),
    );
    match parts {
        (Some(signature), Some((public, message))) => verify(public, message, signature).is_ok(),
        _ => false,
    }
}

impl Wanted {
    fn is_empty(&self) -> bool {
        self.out.is_empty() && self.report.is_empty()
    }

    // Whether the output is one of these.
    fn is_output(&self, answer: &Answer) -> bool {
        answer.begins_with(self.out.as_slice())
            && (self.signed.is_empty() || has_signature(answer.out.taken(), self.signed.as_slice()))
    }

    // Whether it is this answer.
    fn is(&self, answer: &Answer) -> bool {
        if self.report.is_empty() {
            return self.is_output(answer);
        }
        answer.is(4, b"", self.report.as_slice())
    }
}

// What a case wants, by its keys of bytes, of lines of output, and of a line that is reported.
fn wanted_by(alloc: Global, case: &str, bytes: &str, text: &str, line: &str) -> Option<Wanted> {
    let mut out = coded(alloc, field(case, bytes))?;
    out.extend_from_slice(lines(alloc, case, text)?.as_slice())
        .ok()?;
    let report = lines(alloc, case, line)?;
    let signed = coded(alloc, field(case, "signed"))?;
    Some(Wanted {
        out,
        report,
        signed,
    })
}

// The lists of records that are allowed, as the bytes of a journal without its last commit byte and
// the record that may follow them; the party whose they are, if the journal is not new; and what
// the command answers that opens the one and the other.
#[derive(Drop)]
struct Allowed {
    old: Vec<u8>,
    record: Vec<u8>,
    model: Option<Model>,
    before: Wanted,
    after: Wanted,
}

// The party of a case whose command adds a record to those of its journal. The body of the record
// follows a commit byte and four bytes of length.
fn model_of(alloc: Global, case: &str, record: &[u8]) -> Option<Model> {
    let journal = journal_of(alloc, case, "old")?;
    let (_, body) = record.split_at_checked(5)?;
    Model::of(alloc, case, journal.as_slice(), body)
}

fn allowed_by(alloc: Global, case: &str) -> Option<Allowed> {
    let record = coded(alloc, field(case, "record"))?;
    let before = wanted_by(alloc, case, "before", "before|", "before!")?;
    let model = if before.is_empty() {
        None
    } else {
        Some(model_of(alloc, case, record.as_slice())?)
    };
    Some(Allowed {
        old: coded(alloc, field(case, "old"))?,
        record,
        model,
        before,
        after: wanted_by(alloc, case, "after", "after|", "after!")?,
    })
}

impl Allowed {
    // Whether the command makes the journal, which represents no records without its record.
    fn is_new(&self) -> bool {
        self.before.is_empty()
    }

    // Whether a file represents the records with the new one: the commit byte before it is another
    // byte than 0, and the one after the last record is 0. None if it represents neither list.
    fn keeps(&self, crash_state: &[u8]) -> Option<bool> {
        let (old, rest) = crash_state.split_at_checked(self.old.len())?;
        let (commit, body) = rest.split_first()?;
        if old != self.old.as_slice() {
            return None;
        }
        if *commit == 0 {
            return Some(false);
        }
        let (_, record) = self.record.as_slice().split_first()?;
        let (found, after) = body.split_at_checked(record.len())?;
        if found == record && after.first() == Some(&0) {
            Some(true)
        } else {
            None
        }
    }

    // Whether the history of the party says the same of the records of a file.
    fn is_of_history(&self, alloc: Global, crash_state: &[u8]) -> bool {
        match &self.model {
            Some(model) => model.keeps(alloc, crash_state) == self.keeps(crash_state),
            None => true,
        }
    }

    // Whether the command that opens the file answers as its records want it. A file that is no
    // journal with a record yet is refused.
    fn answers(&self, keeps: Option<bool>, answer: &Answer) -> bool {
        match keeps {
            Some(true) => self.after.is(answer),
            _ if self.is_new() => answer.status == 2 && answer.out.taken().is_empty(),
            Some(false) => self.before.is(answer),
            None => false,
        }
    }
}

fn place_coded(alloc: Global, files: &mut Files, name: &str, words: &str) -> Option<()> {
    files.place(name, coded(alloc, words)?.as_slice())
}

// A file system with a request, a list that has it twice, a secret, what a cosigner is asked to
// hold and to sign, a list of entries, and a mirror that has them.
fn with_inputs(alloc: Global) -> Option<Files> {
    let mut files = Files::new(alloc);
    files.place("r", REQUEST.as_bytes())?;
    let table = format!(in alloc; "[[request]]\n{REQUEST}").ok()?;
    let list = format!(in alloc; "{table}{table}").ok()?;
    files.place("q", list.as_bytes())?;
    for (name, words) in [
        ("f", "SECRET"),
        ("a", "TO_1024"),
        ("t", "ALL"),
        ("e", "EIGHT"),
        ("m", "HEADER MIRROR BATCH_8 00"),
    ] {
        place_coded(alloc, &mut files, name, words)?;
    }
    Some(files)
}

// Places a journal with these records.
fn place_journal(alloc: Global, files: &mut Files, case: &str, key: &str) -> Option<()> {
    files.place(
        field(case, "journal"),
        journal_of(alloc, case, key)?.as_slice(),
    )
}

// Stores the tiles of an earlier journal.
fn store_tiles(alloc: Global, files: &mut Files, case: &str) -> Option<()> {
    place_journal(alloc, files, case, "tiled")?;
    let answer = files.run(field(case, "run"))?;
    if answer.status == 0 { Some(()) } else { None }
}

// The name of the file of tiles beside the journal of a case.
fn tiles_of(alloc: Global, case: &str) -> Option<String> {
    let journal = field(case, "journal");
    format!(in alloc; "{journal}.tiles").ok()
}

// The files that a command finds.
fn ready(alloc: Global, case: &str, allowed: &Allowed) -> Option<Files> {
    let mut files = with_inputs(alloc)?;
    if !field(case, "tiled").is_empty() {
        store_tiles(alloc, &mut files, case)?;
    }
    if !allowed.is_new() {
        place_journal(alloc, &mut files, case, "old")?;
    }
    Some(files)
}

// The line of a command whose device stopped.
fn line_of(alloc: Global, case: &str) -> Option<String> {
    let command = field(case, "run").split_once(' ')?.0;
    let device = field(case, "device");
    format!(in alloc; "mtc: {command}: {device}: Failed\n").ok()
}

// Whether the command was done. None if it answers in another way than by its device: where that
// stopped, nothing goes out but the line.
fn is_done(alloc: Global, case: &str, stopped: &Stopped) -> Option<bool> {
    let line = line_of(alloc, case)?;
    if stopped.refused == 0 && stopped.answer.status == 0 {
        return Some(true);
    }
    if stopped.refused > 0 && stopped.answer.is(5, b"", line.as_bytes()) {
        return Some(false);
    }
    None
}

// What the command answers that opens these files.
fn asked(alloc: Global, case: &str, journal: &[u8], tiles: &[u8]) -> Option<Answer> {
    let mut files = with_inputs(alloc)?;
    files.place(field(case, "journal"), journal)?;
    if !field(case, "tiled").is_empty() {
        files.place(tiles_of(alloc, case)?.as_str(), tiles)?;
    }
    files.run(field(case, "ask"))
}

// Whether crash states of both files are opened as the records of the journal want it.
fn is_opened(
    alloc: Global,
    case: &str,
    allowed: &Allowed,
    journal: &[u8],
    tiles: &[u8],
) -> Option<()> {
    let answer = asked(alloc, case, journal, tiles)?;
    if allowed.answers(allowed.keeps(journal), &answer) {
        Some(())
    } else {
        None
    }
}

// Opens a crash state of the journal with each one of its tiles.
fn open_each(
    alloc: Global,
    case: &str,
    allowed: &Allowed,
    journal: &[u8],
    tiles: &[CrashState],
) -> Option<()> {
    for state in tiles {
        is_opened(alloc, case, allowed, journal, state.bytes.as_slice())?;
    }
    Some(())
}

// How many of sixteen crash states of the journal have the new record. None if one of them isn't
// as it has to be, beside each of sixteen of its tiles.
fn count(alloc: Global, case: &str, allowed: &Allowed, files: &mut Files) -> Option<u64> {
    let journals = files.crash_states(field(case, "journal"))?;
    let tiles = files.crash_states(tiles_of(alloc, case)?.as_str())?;
    let mut count = 0u64;
    for state in journals.iter() {
        let journal = state.bytes.as_slice();
        open_each(alloc, case, allowed, journal, tiles.as_slice())?;
        if !allowed.is_of_history(alloc, journal) {
            return None;
        }
        if allowed.keeps(journal) == Some(true) {
            count = count.saturating_add(state.picks);
        }
    }
    Some(count)
}

// Whether a command was done over a device that passes so many calls, and how many crash states
// have the new record.
fn stop(alloc: Global, case: &str, allowed: &Allowed, passes: u64) -> Option<(bool, u64)> {
    let files = ready(alloc, case, allowed)?;
    let mut stopped = files.run_until(field(case, "run"), field(case, "device"), passes)?;
    let done = is_done(alloc, case, &stopped)?;
    Some((done, count(alloc, case, allowed, &mut stopped.files)?))
}

// How many calls the device passes at the first stop of a case.
fn first_stop(case: &str) -> Option<u64> {
    match field(case, "from") {
        "" => Some(0),
        count => count.parse::<u64>().ok(),
    }
}

// The first stop that isn't as the case says, or the run after them that doesn't stop.
pub(crate) fn wrong_stop(alloc: Global, case: &str) -> Option<u64> {
    let (Some(allowed), Some(stops), Some(whole), Some(first)) = (
        allowed_by(alloc, case),
        numbers(alloc, field(case, "stops")),
        numbers(alloc, field(case, "then")),
        first_stop(case),
    ) else {
        return Some(0);
    };
    let mut passes = first;
    for count in stops.iter() {
        if stop(alloc, case, &allowed, passes) != Some((false, *count)) {
            return Some(passes);
        }
        passes = passes.saturating_add(1);
    }
    for count in whole.iter() {
        if stop(alloc, case, &allowed, passes) != Some((true, *count)) {
            return Some(passes);
        }
    }
    if stops.is_empty() { Some(0) } else { None }
}

#[test]
fn a_new_log_stops(rt: HostRuntime) {
    let wrong = wrong_stop(rt.alloc(), NEW_LOG);
    assert!(rt; wrong == None, "{wrong:?}");
}

#[test]
fn an_issue_stops(rt: HostRuntime) {
    let wrong = wrong_stop(rt.alloc(), ISSUE);
    assert!(rt; wrong == None, "{wrong:?}");
}

#[test]
fn entries_of_a_list_stop(rt: HostRuntime) {
    let wrong = wrong_stop(rt.alloc(), ISSUE_LIST);
    assert!(rt; wrong == None, "{wrong:?}");
}

#[test]
fn a_landmark_stops(rt: HostRuntime) {
    let wrong = wrong_stop(rt.alloc(), LANDMARK);
    assert!(rt; wrong == None, "{wrong:?}");
}

#[test]
fn a_switch_stops(rt: HostRuntime) {
    let wrong = wrong_stop(rt.alloc(), SWITCH);
    assert!(rt; wrong == None, "{wrong:?}");
}

#[test]
fn a_log_that_stores_its_tiles_stops(rt: HostRuntime) {
    let wrong = wrong_stop(rt.alloc(), TILE);
    assert!(rt; wrong == None, "{wrong:?}");
}

#[test]
fn a_log_that_commits_its_tiles_stops(rt: HostRuntime) {
    let wrong = wrong_stop(rt.alloc(), TILE_COMMIT);
    assert!(rt; wrong == None, "{wrong:?}");
}

#[test]
fn tiles_that_are_stored_stop(rt: HostRuntime) {
    let wrong = wrong_stop(rt.alloc(), TILES);
    assert!(rt; wrong == None, "{wrong:?}");
}

#[test]
fn a_new_cosigner_stops(rt: HostRuntime) {
    let wrong = wrong_stop(rt.alloc(), NEW_COSIGNER);
    assert!(rt; wrong == None, "{wrong:?}");
}

#[test]
fn an_advance_stops(rt: HostRuntime) {
    let wrong = wrong_stop(rt.alloc(), ADVANCE);
    assert!(rt; wrong == None, "{wrong:?}");
}

#[test]
fn a_cosignature_stops(rt: HostRuntime) {
    let wrong = wrong_stop(rt.alloc(), COSIGN);
    assert!(rt; wrong == None, "{wrong:?}");
}

#[test]
fn a_cosignature_counts_its_key(rt: HostRuntime) {
    let wrong = wrong_stop(rt.alloc(), COSIGN_AGAIN);
    assert!(rt; wrong == None, "{wrong:?}");
}

#[test]
fn a_new_cosigner_of_two_levels_stops(rt: HostRuntime) {
    let wrong = wrong_stop(rt.alloc(), NEW_COSIGNER_2);
    assert!(rt; wrong == None, "{wrong:?}");
}

#[test]
fn a_child_stops(rt: HostRuntime) {
    let wrong = wrong_stop(rt.alloc(), CHILD);
    assert!(rt; wrong == None, "{wrong:?}");
}

#[test]
fn a_child_signs_after_a_stop(rt: HostRuntime) {
    let wrong = wrong_stop(rt.alloc(), CHILD_SIGNS);
    assert!(rt; wrong == None, "{wrong:?}");
}

#[test]
fn a_cosignature_of_two_levels_stops(rt: HostRuntime) {
    let wrong = wrong_stop(rt.alloc(), COSIGN_2);
    assert!(rt; wrong == None, "{wrong:?}");
}
