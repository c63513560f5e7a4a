//! Reading elements, one after the other.

ghost use Rattle.std.specs.Prelude.{◌≡◌, ◌+◌, ◌^◌, ◌<◌, ◌≤◌, ◌==◌, length, OnOk, IfOk};
ghost use Rattle.byte_formats.specs.Offsets.{At, at, begins_with};
ghost use Rattle.byte_formats.specs.Readings.{Reads, Gives, found};
ghost use Rattle.der_core.specs.Items.{item, inside};
ghost use Rattle.der_core.specs.Reading.{length_at, one_at, two_at, three_at, after_tag};
ghost use Rattle.der_core.specs.Reading.{element_at, wanted_at, end_at};

use crate::element::Element;
use crate::fault::DerError;
use std::marker::Model;

/// A position in an input, from which elements are read, one after the other, up to the end of what
/// surrounds them. A refusal leaves the position as it was.
#[derive(Debug, Drop)]
pub struct Reader<'a> {
    place: usize,
    rest: &'a [u8],
}

impl<'a> Model for Reader<'a> {
    ghost use Rattle.std.specs.Prelude.{◌+◌, ◌^◌, ◌<◌, length};
    ghost use Rattle.byte_formats.specs.Offsets.{At};

    ghost Value = { At };

    ghost view = { λ r. record { place = r.place; rest = r.rest.now } };

    ghost invariant = { λ r. r.place + length r.rest.now < 2 ^ 64 };
}

impl<'a> Reader<'a> {
    /// This offset of an input, up to its end.
    pub fn at(input: &'a [u8], place: usize) -> Reader<'a>
        requires { place ≤ length input.now }
        ensures { result ≡ at input.now place }
    {
        Reader {
            place,
            rest: &input[place..],
        }
    }

    /// The contents of an element, up to their end.
    pub fn inside(element: &Element<'a>) -> Reader<'a>
        ensures { result ≡ inside (item element.now) }
    {
        Reader {
            place: element.place + (element.whole.len() - element.contents.len()),
            rest: element.contents,
        }
    }

    /// A second reader at this position.
    pub fn fork(&self) -> Reader<'a>
        ensures { result ≡ self.now }
    {
        Reader {
            place: self.place,
            rest: self.rest,
        }
    }

    /// The offset in the input.
    pub fn place(&self) -> usize
        ensures { result ≡ self.now.place }
    {
        self.place
    }

    /// Nothing is left.
    pub fn is_at_end(&self) -> bool
        ensures { result ≡ (length self.now.rest == 0) }
    {
        self.rest.is_empty()
    }

    /// The next byte is this tag.
    pub fn begins_with(&self, tag: u8) -> bool
        ensures { result ≡ begins_with tag self.now.rest }
    {
        match self.rest {
            [first, ..] => *first == tag,
            [] => false,
        }
    }

    /// Nothing may be left: else `Trailing`.
    pub fn end(&self) -> Result<(), DerError>
        ensures { Gives (λ x. x) result (end_at self.now) }
    {
        if self.rest.is_empty() {
            Ok(())
        } else {
            Err(DerError::Trailing(self.place))
        }
    }

    /// An element, whatever its tag.
    #[tactic(auto, unfolding(crate::specs::Reading::element_at))]
    pub fn element(&mut self) -> Result<Element<'a>, DerError>
        ensures exact { Reads item element_at self.old result self.new }
        ensures forward { OnOk result (length self.new.rest < length self.old.rest) }
    {
        match self.rest {
            [] => Err(DerError::WrongTag(self.place)),
            [tag, ..] if *tag % 32 == 31 => Err(DerError::HighTag(self.place)),
            [tag, rest @ ..] => self.after_tag(*tag, rest),
        }
    }

    /// An element with this tag.
    #[tactic(auto, unfolding(crate::specs::Reading::wanted_at))]
    pub fn wanted(&mut self, wanted: u8) -> Result<Element<'a>, DerError>
        ensures exact { Reads item (wanted_at wanted) self.old result self.new }
        ensures forward { OnOk result (length self.new.rest < length self.old.rest) }
    {
        match self.rest {
            [] => Err(DerError::WrongTag(self.place)),
            [tag, ..] if *tag % 32 == 31 => Err(DerError::HighTag(self.place)),
            [tag, rest @ ..] if *tag == wanted => self.after_tag(*tag, rest),
            _ => Err(DerError::WrongTag(self.place)),
        }
    }

    // The element whose length and contents are in these bytes after its tag.
    #[tactic(auto, unfolding(crate::specs::Reading::after_tag))]
    fn after_tag(&mut self, tag: u8, rest: &'a [u8]) -> Result<Element<'a>, DerError>
        requires { length rest.now < length self.old.rest }
        ensures exact { Reads item (λ a. after_tag a tag rest.now) self.old result self.new }
        ensures forward { OnOk result (length self.new.rest < length self.old.rest) }
    {
        let (count, following) = length(self.place, rest)?;
        if following.len() < count {
            return Err(DerError::Truncated(self.place));
        }
        let size = self.rest.len() - (following.len() - count);
        let (whole, others) = self.rest.split_at(size);
        let element = Element {
            tag,
            place: self.place,
            whole,
            contents: &following[..count],
        };
        self.place += size;
        self.rest = others;
        Ok(element)
    }
}

/// The element at this offset of the input. Its contents aren't read.
pub fn read<'a>(input: &'a [u8], place: usize) -> Result<Element<'a>, DerError>
    requires { place ≤ length input.now }
    ensures exact { Gives item result (found (element_at (at input.now place))) }
{
    Reader::at(input, place).element()
}

/// The element at this offset of the input, which has to have this tag. Its contents aren't read.
pub fn expect<'a>(input: &'a [u8], place: usize, tag: u8) -> Result<Element<'a>, DerError>
    requires { place ≤ length input.now }
    ensures exact { Gives item result (found (wanted_at tag (at input.now place))) }
{
    Reader::at(input, place).wanted(tag)
}

// A length and the bytes after it, of the element at this offset.
fn length(place: usize, bytes: &[u8]) -> Result<(usize, &[u8]), DerError>
    ensures exact { Gives (λ x. (x.0, x.1.now)) result (length_at place bytes.now) }
    ensures rest { IfOk result (λ x. length x.1.now < length bytes.now) }
{
    match bytes {
        [] => Err(DerError::Truncated(place)),
        [first, rest @ ..] if *first < 128 => Ok((*first as usize, rest)),
        [0x81, rest @ ..] => one_byte(place, rest),
        [0x82, rest @ ..] => two_bytes(place, rest),
        [0x83, rest @ ..] => three_bytes(place, rest),
        _ => Err(DerError::LongForm(place)),
    }
}

// A length in one further byte.
fn one_byte(place: usize, bytes: &[u8]) -> Result<(usize, &[u8]), DerError>
    ensures exact { Gives (λ x. (x.0, x.1.now)) result (one_at place bytes.now) }
    ensures rest { IfOk result (λ x. length x.1.now ≤ length bytes.now) }
{
    match bytes {
        [a, rest @ ..] if *a >= 128 => Ok((*a as usize, rest)),
        [_, ..] => Err(DerError::LongForm(place)),
        [] => Err(DerError::Truncated(place)),
    }
}

// A length in two further bytes, the highest first.
fn two_bytes(place: usize, bytes: &[u8]) -> Result<(usize, &[u8]), DerError>
    ensures exact { Gives (λ x. (x.0, x.1.now)) result (two_at place bytes.now) }
    ensures rest { IfOk result (λ x. length x.1.now ≤ length bytes.now) }
{
    match bytes {
        [0, _, ..] => Err(DerError::LongForm(place)),
        [a, b, rest @ ..] => Ok((*a as usize * 256 + *b as usize, rest)),
        _ => Err(DerError::Truncated(place)),
    }
}

// A length in three further bytes, the highest first.
fn three_bytes(place: usize, bytes: &[u8]) -> Result<(usize, &[u8]), DerError>
    ensures exact { Gives (λ x. (x.0, x.1.now)) result (three_at place bytes.now) }
    ensures rest { IfOk result (λ x. length x.1.now ≤ length bytes.now) }
{
    match bytes {
        [0, _, _, ..] => Err(DerError::LongForm(place)),
        [a, b, c, rest @ ..] => Ok((
            *a as usize * 65536 + (*b as usize * 256 + *c as usize),
            rest,
        )),
        _ => Err(DerError::Truncated(place)),
    }
}
