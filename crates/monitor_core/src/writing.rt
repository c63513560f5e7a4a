//! Writing what was found.

ghost use Rattle.std.specs.Prelude.{◌≡◌, ◌<◌, ◌^◌, ◌++◌, Ok, IfOk, OnOk};
ghost use Rattle.std.specs.List.{AllByRecursion, flat_map, list_all};
ghost use Rattle.byte_formats.specs.Offsets.{IsBytes};
ghost use Rattle.mtc_io.specs.Streams.{joined};
ghost use Rattle.monitor_core.specs.Reading.{state_in};
ghost use Rattle.monitor_core.specs.States.{IsHash, IsKept};
ghost use Rattle.monitor_core.specs.TextLaws.{IsIndexed};
ghost use Rattle.monitor_core.specs.Written.{found_text, is_visible, line_text, match_text};
ghost use Rattle.monitor_core.specs.Written.{peak_text, state_text, unread_text};

use crate::findings::Found;
use crate::lines::Line;
use crate::states::State;
use mtc_io::{Bytes, Memory};
use std::alloc::Global;

// Puts pieces after the bytes, one after another.
fn append_pieces(out: &mut Bytes, pieces: &[&[u8]]) -> Result<(), Memory>
    ensures { OnOk result (out.new ≡ out.old ++ joined pieces.now) }
{
    for piece in pieces {
        out.append(piece)?;
    }
    Ok(())
}

// Each byte is printable ASCII and no blank.
fn are_visible(bytes: &[u8]) -> bool
    ensures { result ≡ list_all is_visible bytes.now }
{
    bytes.iter().all(|byte| 0x21 <= *byte && *byte <= 0x7E)
}

fn put_match(alloc: Global, out: &mut Bytes, index: u64, name: &[u8]) -> Result<(), Memory>
    ensures { OnOk result (out.new ≡ out.old ++ match_text index name.now) }
{
    let index = format!(in alloc; "{index}")?;
    if are_visible(name) {
        return append_pieces(out, &[b"match ", index.as_bytes(), b" ", name, b"\n"]);
    }
    let name = hex::encode(alloc, name)?;
    append_pieces(
        out,
        &[
            b"match-hex ",
            index.as_bytes(),
            b" ",
            name.as_bytes(),
            b"\n",
        ],
    )
}

fn put_unread(alloc: Global, out: &mut Bytes, index: u64) -> Result<(), Memory>
    ensures { OnOk result (out.new ≡ out.old ++ unread_text index) }
{
    let index = format!(in alloc; "{index}")?;
    append_pieces(out, &[b"unread ", index.as_bytes(), b"\n"])
}

fn put_line(alloc: Global, out: &mut Bytes, line: &Line) -> Result<(), Memory>
    ensures { OnOk result (out.new ≡ out.old ++ line_text line.now) }
{
    match line {
        Line::Match { index, name } => put_match(alloc, out, *index, name.as_slice()),
        Line::Unread { index } => put_unread(alloc, out, *index),
    }
}

fn put_lines(alloc: Global, out: &mut Bytes, lines: &[Line]) -> Result<(), Memory>
    ensures { OnOk result (out.new ≡ out.old ++ flat_map line_text lines.now) }
{
    for line in lines {
        put_line(alloc, out, line)?;
    }
    Ok(())
}

fn put_peak(alloc: Global, out: &mut Bytes, peak: &[u8; 32]) -> Result<(), Memory>
    ensures { OnOk result (out.new ≡ out.old ++ peak_text peak.now) }
{
    let digits = hex::encode(alloc, peak.as_slice())?;
    append_pieces(out, &[b" ", digits.as_bytes()])
}

fn put_peaks(alloc: Global, out: &mut Bytes, peaks: &[[u8; 32]]) -> Result<(), Memory>
    ensures { OnOk result (out.new ≡ out.old ++ flat_map peak_text peaks.now) }
{
    for peak in peaks {
        put_peak(alloc, out, peak)?;
    }
    Ok(())
}

// The types of the parts of a state make it one that a text can hold: the clause says it, and the
// call does nothing.
fn law_state_is_kept(state: &State)
    ensures { state.now.size < 2 ^ 63 → IsKept state.now }
{
    let _id = state.log().as_bytes();
    law_are_hashes(state.peaks());
}

// The same of hashes: each has 32 bytes.
fn law_are_hashes(hashes: &[[u8; 32]])
    ensures { AllByRecursion IsHash hashes.now }
{
    for hash in hashes {
        law_is_hash(hash);
    }
}

fn law_is_hash(hash: &[u8; 32])
    ensures { IsHash hash.now }
{
    law_are_bytes(hash.as_slice());
}

fn law_are_bytes(bytes: &[u8])
    ensures { IsBytes bytes.now }
{
    let _ = bytes;
}

// The type of an index makes it a number of 64 bits: the clause says it, and the call does nothing.
fn law_lines_are_indexed(lines: &[Line])
    ensures { AllByRecursion IsIndexed lines.now }
{
    for line in lines {
        law_line_is_indexed(line);
    }
}

fn law_line_is_indexed(line: &Line)
    ensures { IsIndexed line.now }
{
    match line {
        Line::Match { index, .. } => law_fits(*index),
        Line::Unread { index } => law_fits(*index),
    }
}

fn law_fits(number: u64)
    ensures { number < 2 ^ 64 }
{
    let _ = number;
}

// Puts the line of a state after the bytes.
#[tactic(auto, unfolding(crate::specs::Written::state_text))]
fn put_state(alloc: Global, out: &mut Bytes, state: &State) -> Result<(), Memory>
    ensures { OnOk result (out.new ≡ out.old ++ state_text state.now) }
{
    let log = state.log().to_text()?;
    let size = format!(in alloc; "{}", state.size())?;
    append_pieces(out, &[b"state ", log.as_slice(), b" ", size.as_bytes()])?;
    put_peaks(alloc, out, state.peaks())?;
    out.append(b"\n")
}

/// The line of a state: the word `state`, the log's id in dotted decimal, the size in decimal, and
/// the peaks, the largest first, each in 64 lower-case hexadecimal digits; with a space before each
/// word but the first, and a newline at the end. It is read as the state again, where the size is
/// below 2^63.
pub fn write_state(alloc: Global, state: &State) -> Result<Bytes, Memory>
    ensures text { IfOk result (λ text. text ≡ state_text state.now) }
    ensures again { state.now.size < 2 ^ 63
        → IfOk result (λ text. state_in text ≡ Ok state.now) }
{
    law_state_is_kept(state);
    let mut out = Bytes::new(alloc);
    put_state(alloc, &mut out, state)?;
    Ok(out)
}

/// The text of what was found: a line for each line of the report, `match` with the index and the
/// name, `match-hex` with the name in hexadecimal where a byte isn't from 21 to 7E, or `unread`
/// with the index; and last the line of the state. It is read as that state again, if the size is
/// below 2^63.
#[tactic(auto, unfolding(crate::specs::Written::found_text))]
pub fn write_found(alloc: Global, found: &Found) -> Result<Bytes, Memory>
    ensures text { IfOk result (λ text. text ≡ found_text found.now) }
    ensures again { found.now.state.size < 2 ^ 63
        → IfOk result (λ text. state_in text ≡ Ok found.now.state) }
{
    law_state_is_kept(found.state());
    law_lines_are_indexed(found.lines());
    let mut out = Bytes::new(alloc);
    put_lines(alloc, &mut out, found.lines())?;
    put_state(alloc, &mut out, found.state())?;
    Ok(out)
}
