//! Numbers in dotted decimal.

ghost use Rattle.std.specs.Prelude.{◌≡◌, ◌<◌, ◌≤◌, true, length, IfOk, OnOk};
ghost use Rattle.std.specs.Char.{is_ascii_digit};
ghost use Rattle.std.specs.List.{prefix_len};
ghost use Rattle.byte_formats.specs.Readings.{Answers, Moves, is_read};
ghost use Rattle.tls_wire.specs.Anchors.{arc_at, decimal_at, dot_decimal_at, ends_number, arcs_in};
ghost use Rattle.tls_wire.specs.Anchors.{is_anchor_text, text_of};
ghost use Rattle.tls_wire.specs.Arcs.{IsAnchorId};

use crate::arcs::{arc_length, put_arc, read_arc};
use crate::cursor::Cursor;
use crate::decimal::{decimal_value, has_decimal_form};
use crate::fault::AnchorError;
use mtc_io::{Bytes, Memory};
use std::alloc::Global;

// How many digits stand here.
fn digit_count(text: &[u8]) -> usize
    ensures exact { result ≡ prefix_len is_ascii_digit text.now }
    ensures within { result ≤ length text.now }
{
    let mut count = 0;
    let mut rest = text;
    while let [c, following @ ..] = rest {
        if !c.is_ascii_digit() {
            return count;
        }
        count += 1;
        rest = following;
    }
    count
}

// A number may end before these bytes.
fn ends_number(rest: &[u8]) -> bool
    ensures { result ≡ ends_number rest.now }
{
    match rest {
        [] => true,
        [c, ..] => *c == b'.',
    }
}

// One number, without a leading zero, up to a dot or the end.
#[tactic(auto, unfolding(crate::specs::Anchors::decimal_at))]
fn read_decimal(input: &mut Cursor) -> Result<u64, AnchorError>
    ensures exact { Moves (λ n. n) decimal_at input.old result input.new }
    ensures forward { OnOk result (length input.new.rest < length input.old.rest) }
{
    let start = input.place();
    let rest = input.rest();
    let count = digit_count(rest);
    if count == 0 {
        return Err(AnchorError::NotDecimal(start));
    }
    let digits = &rest[..count];
    if !has_decimal_form(digits) {
        return Err(AnchorError::LeadingZero(start));
    }
    let n = decimal_value(digits).ok_or(AnchorError::ArcTooLarge(start))?;
    input.skip(count);
    if !ends_number(input.rest()) {
        return Err(AnchorError::NotDecimal(input.place()));
    }
    Ok(n)
}

// A dot, and a number.
#[tactic(auto, unfolding(crate::specs::Anchors::dot_decimal_at))]
fn read_dot_decimal(input: &mut Cursor) -> Result<u64, AnchorError>
    ensures exact { Moves (λ n. n) dot_decimal_at input.old result input.new }
    ensures forward { OnOk result (length input.new.rest < length input.old.rest) }
{
    match input.rest() {
        [b'.', ..] => {
            input.skip(1);
            read_decimal(input)
        }
        _ => Err(AnchorError::NotDecimal(input.place())),
    }
}

// The numbers of a text, as arcs one after the other.
#[tactic(auto, unfolding(crate::specs::Anchors::arcs_in))]
pub(crate) fn arcs_of_text(alloc: Global, text: &[u8]) -> Result<Bytes, AnchorError>
    ensures { Answers AnchorError.Memory (arcs_in text.now) result }
{
    let mut input = Cursor::new(text);
    let mut bytes = Bytes::new(alloc);
    let first = read_decimal(&mut input)?;
    put_arc(&mut bytes, first)?;
    while input.left() != 0 {
        let n = read_dot_decimal(&mut input)?;
        put_arc(&mut bytes, n)?;
    }
    Ok(bytes)
}

// The text is numbers whose arcs have 1 to 255 bytes together.
pub(crate) fn is_dotted(text: &[u8]) -> bool
    ensures { result ≡ is_anchor_text text.now }
{
    let mut input = Cursor::new(text);
    let mut count = match read_decimal(&mut input) {
        Ok(n) => arc_length(n),
        Err(_) => return false,
    };
    while count <= 255 {
        if input.left() == 0 {
            return true;
        }
        match read_dot_decimal(&mut input) {
            Ok(n) => count += arc_length(n),
            Err(_) => return false,
        }
    }
    false
}

// The arc that stands here.
fn arc_here(input: &mut Cursor) -> u64
    requires { is_read (arc_at input.old) ≡ true }
    ensures exact { Moves (λ n. n) arc_at input.old (Ok result) input.new }
    ensures forward { length input.new.rest < length input.old.rest }
{
    match read_arc(input) {
        Ok(n) => n,
        Err(_) => unreachable!(),
    }
}

// The arcs of an anchor id in dotted decimal.
pub(crate) fn text_of_arcs(alloc: Global, bytes: &[u8]) -> Result<Bytes, Memory>
    requires { IsAnchorId bytes.now }
    ensures { IfOk result (λ text. text ≡ text_of bytes.now) }
{
    let mut input = Cursor::new(bytes);
    let mut text = String::new(alloc);
    let first = arc_here(&mut input);
    write!(text, "{first}")?;
    while input.left() != 0 {
        let n = arc_here(&mut input);
        write!(text, ".{n}")?;
    }
    Ok(Bytes::from_vec(text.into_bytes()))
}
