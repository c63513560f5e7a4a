//! Reading the state from a text of what was found.

ghost use Rattle.std.specs.Prelude.{◌≡◌, ◌+◌, ◌==◌, ◌^◌, ◌<◌, ◌≤◌, length, IfSome, option_map};
ghost use Rattle.std.specs.List.{position};
ghost use Rattle.byte_formats.specs.Readings.{Answers, blamed};
ghost use Rattle.tls_wire.specs.Anchors.{anchor_text};
ghost use Rattle.tls_wire.specs.Lines.{first_line};
ghost use Rattle.monitor_core.specs.Reading.{after_report, after_report_line, is_report_word};
ghost use Rattle.monitor_core.specs.Reading.{last_line, state_in, state_words, word_end};
ghost use Rattle.monitor_core.specs.declared.error.TextError.TheVariants.{BadLine};
ghost use Rattle.monitor_core.specs.declared.error.TextError.TheVariants.{Memory as NoCapacity};

use crate::error::TextError;
use crate::peaks_text::read_peaks;
use crate::states::State;
use crate::watching::line_with;
use std::alloc::Global;
use tls_wire::{AnchorError, AnchorId, cut_at, first_line, read_number};
use tree_proofs::Hashes;

// The first word of a line of a report.
fn is_report_word(word: &[u8]) -> bool
    ensures { result ≡ is_report_word word.now }
{
    word == b"match".as_slice() || word == b"match-hex".as_slice() || word == b"unread".as_slice()
}

// What is after the first line, where it is a line of a report.
fn after_report_line(text: &[u8]) -> Option<&[u8]>
    ensures exact { option_map (λ rest. rest.now) result
        ≡ after_report_line (first_line text.now) }
    ensures shorter { IfSome result (λ rest. length rest.now < length text.now) }
{
    let (line, rest) = first_line(text)?;
    let (word, _) = cut_at(line, b' ')?;
    if is_report_word(word) {
        Some(rest)
    } else {
        None
    }
}

// How many lines of a report stand first, and what is after them.
fn after_report(text: &[u8]) -> (usize, &[u8])
    ensures exact { (result.0, result.1.now) ≡ after_report (length text.now) 0 text.now }
    ensures few { result.0 ≤ length text.now }
{
    let mut rest = text;
    let mut n = 0;
    'lines: while let Some(following) = after_report_line(rest) {
        rest = following;
        n += 1;
    }
    (n, rest)
}

// The id of the log, in line n.
fn read_log(alloc: Global, text: &[u8], n: usize) -> Result<AnchorId, TextError>
    ensures { Answers NoCapacity (blamed (BadLine n) (anchor_text text.now)) result }
{
    let Ok(characters) = str::from_utf8(text) else {
        return Err(TextError::BadLine(n));
    };
    match AnchorId::from_text(alloc, characters) {
        Ok(id) => Ok(id),
        Err(AnchorError::Memory) => Err(TextError::Memory),
        Err(_fault) => Err(TextError::BadLine(n)),
    }
}

// The index of the first space.
fn first_space(text: &[u8]) -> Option<usize>
    ensures place { result ≡ position (λ byte. byte == 0x20) text.now }
    ensures within { IfSome result (λ place. place < length text.now) }
{
    text.iter().position(|byte| *byte == b' ')
}

// Where the first space stands, or the end.
fn word_end(text: &[u8]) -> usize
    ensures exact { result ≡ word_end text.now }
    ensures within { result ≤ length text.now }
{
    match first_space(text) {
        Some(end) => end,
        None => text.len(),
    }
}

// What stands after the first word of the line of a state.
#[tactic(auto, unfolding(crate::specs::Reading::state_words))]
fn read_words(alloc: Global, text: &[u8], n: usize) -> Result<State, TextError>
    ensures { Answers NoCapacity (state_words n text.now) result }
{
    let (log, rest) = cut_at(text, b' ').ok_or(TextError::BadLine(n))?;
    let log = read_log(alloc, log, n)?;
    let (size, rest) = rest.split_at(word_end(rest));
    let size = read_number(size).ok_or(TextError::BadLine(n))?;
    let mut peaks = Vec::new(alloc);
    read_peaks(rest, n, size.count_ones(), &mut peaks)?;
    Ok(State::of(log, size, Hashes::from_vec(peaks)))
}

// The line of a state with this number, which is the last one.
#[tactic(auto, unfolding(crate::specs::Reading::last_line))]
fn last_line(alloc: Global, text: &[u8], n: usize) -> Result<State, TextError>
    requires { n + 1 < 2 ^ 64 }
    ensures { Answers NoCapacity (last_line n text.now) result }
{
    let (line, rest) = line_with(text, n)?;
    let (word, words) = cut_at(line, b' ').ok_or(TextError::BadLine(n))?;
    if word != b"state".as_slice() {
        return Err(TextError::BadLine(n));
    }
    let state = read_words(alloc, words, n)?;
    if !rest.is_empty() {
        return Err(TextError::BadLine(n + 1));
    }
    Ok(state)
}

/// Reads the state from a text of what was found, its last line: the word `state`, the log's id in
/// dotted decimal, the size in decimal and at most 2^63 - 1, and the peaks, each in 64 lower-case
/// hexadecimal digits, with a space before each word but the first and a newline at the end. Lines
/// of a report before it begin with `match`, `match-hex` or `unread` and a space, and aren't looked
/// into further.
///
/// `BadLine` names the first line that isn't in its form, isn't ended, is missing, or stands after
/// the line of the state.
#[tactic(auto, unfolding(crate::specs::Reading::state_in))]
pub fn read_state(alloc: Global, text: &[u8]) -> Result<State, TextError>
    ensures { Answers NoCapacity (state_in text.now) result }
{
    let (n, rest) = after_report(text);
    last_line(alloc, rest, n)
}
