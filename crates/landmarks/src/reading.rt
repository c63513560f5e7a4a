//! Reading the text in which landmarks are published.

ghost use Rattle.std.specs.Prelude.{◌≡◌, ◌≢◌, ◌^◌, ◌<◌, ◌≤◌, [], ◌∷◌, ◌++◌, Ok, Err, IfOk, IfErr};
ghost use Rattle.std.specs.Prelude.{OnOk};
ghost use Rattle.byte_formats.specs.Readings.{Answers, Gives};
ghost use Rattle.landmarks.specs.Texts.{head_line, head_of, line_at, list_of, number_line};
ghost use Rattle.landmarks.specs.Texts.{size_line, sizes_of};
ghost use Rattle.landmarks.specs.declared.error.ListError.TheVariants.{Memory as NoCapacity};
ghost use Rattle.landmarks.specs.Views.{list_head};

use crate::error::ListError;
use crate::list::Landmarks;
use mtc_io::Memory;
use std::alloc::Global;
use tls_wire::{cut_at, first_line, read_number};

// A line with this number, without its end, and what follows it.
fn line_at(text: &[u8], n: usize) -> Result<(&[u8], &[u8]), ListError>
    ensures { Gives (λ cut. (cut.0.now, cut.1.now)) result (line_at n text.now) }
{
    first_line(text).ok_or(ListError::BadLine(n))
}

// The number in a line.
fn number_line(text: &[u8], n: usize) -> Result<(u64, &[u8]), ListError>
    ensures { Gives (λ x. (x.0, x.1.now)) result (number_line n text.now) }
{
    let (line, rest) = line_at(text, n)?;
    let number = read_number(line).ok_or(ListError::BadLine(n))?;
    Ok((number, rest))
}

// What line 0 says, and what follows it.
#[derive(Clone, Copy)]
struct Head<'a> {
    last: u64,
    active: u64,
    rest: &'a [u8],
}

// Two numbers with a space between them.
#[tactic(auto, unfolding(crate::specs::Texts::head_line))]
fn head_line(text: &[u8]) -> Result<Head<'_>, ListError>
    ensures { Gives list_head result (head_line text.now) }
{
    let (line, rest) = line_at(text, 0)?;
    let (last, active) = cut_at(line, b' ').ok_or(ListError::BadLine(0))?;
    let last = read_number(last).ok_or(ListError::BadLine(0))?;
    let active = read_number(active).ok_or(ListError::BadLine(0))?;
    Ok(Head { last, active, rest })
}

// No more landmarks are active than may be, and than there are.
fn allowed_head(text: &[u8], max_active: u32) -> Result<Head<'_>, ListError>
    ensures exact { Gives list_head result (head_of max_active text.now) }
    ensures few { IfOk result (λ head. head.active ≤ max_active) }
    ensures numbered { IfOk result (λ head. head.active ≤ head.last) }
{
    let head = head_line(text)?;
    if head.active > max_active as u64 || head.active > head.last {
        return Err(ListError::TooManyActive);
    }
    Ok(head)
}

// The size in line n, of the landmark with this number. It is below the one in the line before.
#[tactic(auto, unfolding(crate::specs::Texts::size_line))]
fn size_line(text: &[u8], n: usize, number: u64, before: u64) -> Result<(u64, &[u8]), ListError>
    ensures { Gives (λ x. (x.0, x.1.now)) result (size_line n number before text.now) }
{
    let (size, rest) = number_line(text, n)?;
    if number == 0 && size != 0 {
        return Err(ListError::BadLine(n));
    }
    if size >= before {
        return Err(ListError::NotFalling(n));
    }
    Ok((size, rest))
}

fn push(sizes: &mut Vec<u64>, size: u64) -> Result<(), Memory>
    ensures { OnOk result (sizes.new.items ≡ sizes.old.items ++ size ∷ []) }
{
    sizes.push(size)?;
    Ok(())
}

// Puts the sizes of the active landmarks and of the one before them into an empty list, and gives
// what follows their lines.
fn read_sizes<'a>(head: Head<'a>, sizes: &mut Vec<u64>) -> Result<&'a [u8], ListError>
    requires none { sizes.old.items ≡ [] }
    requires few { head.active < 2 ^ 32 }
    requires numbered { head.active ≤ head.last }
    ensures ok { IfOk result (λ rest.
        sizes_of (list_head head.entry) ≡ Ok (sizes.new.items, rest.now)) }
    ensures err { IfErr result (λ e. e ≢ NoCapacity → sizes_of (list_head head.entry) ≡ Err e) }
{
    let mut rest = head.rest;
    let mut before = 1 << 63;
    for place in 0..head.active + 1 {
        let (size, following) = size_line(rest, place as usize + 1, head.last - place, before)?;
        push(sizes, size)?;
        before = size;
        rest = following;
    }
    Ok(rest)
}

/// Reads the text of landmarks, of which at most `max_active` may be active, for a log of
/// `log_size` entries: in line 0 the number of the newest one, a space and how many are active, and
/// then in a line each the sizes of the active ones and of the one before them, the newest first.
/// Numbers are in decimal, without leading zeros and at most 2^63 - 1, and each line ends with a
/// newline.
///
/// Lines are read in order, and the first fault is answered: `BadLine` for a line that isn't in its
/// form, is missing or isn't ended, or has another size than 0 for landmark 0; `TooManyActive`
/// after the form of line 0; `NotFalling` after the form of a size; `BadLine` if something follows
/// the last line. `BeyondLog` comes last. `Memory` may come before what follows line 0.
#[tactic(auto, unfolding(crate::specs::Texts::list_of))]
pub fn read_list(
    alloc: Global,
    text: &[u8],
    max_active: u32,
    log_size: u64,
) -> Result<Landmarks, ListError>
    ensures { Answers NoCapacity (list_of text.now max_active log_size) result }
{
    let head = allowed_head(text, max_active)?;
    let mut sizes = Vec::new(alloc);
    let rest = read_sizes(head, &mut sizes)?;
    if !rest.is_empty() {
        return Err(ListError::BadLine(head.active as usize + 2));
    }
    let landmarks = Landmarks::of_sizes(head.last, sizes);
    if landmarks.largest() > log_size {
        return Err(ListError::BeyondLog);
    }
    Ok(landmarks)
}
