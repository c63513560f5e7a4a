//! The contents of elements that have rules of their own. No call reads the tag.

ghost use Rattle.std.specs.Prelude.{◌≡◌, ◌<◌, true};
ghost use Rattle.byte_formats.specs.Readings.{Gives};
ghost use Rattle.byte_formats.specs.Numbers.{value};
ghost use Rattle.der_core.specs.Contents.{is_padded, if_small, unsigned_of, boolean_of, are_arcs};
ghost use Rattle.der_core.specs.Contents.{oid_of, are_unused, bits_of};

use crate::element::Element;
use crate::fault::DerError;

/// The number of an INTEGER. `None` where it is below 0 or above 2 ^ 64 - 1. `BadInteger` where
/// the contents are empty or aren't in the fewest bytes.
#[tactic(auto, unfolding(crate::specs::Contents::unsigned_of))]
pub fn unsigned(e: &Element) -> Result<Option<u64>, DerError>
    ensures { Gives (λ n. n) result (unsigned_of e.now.place e.now.contents.now) }
{
    match e.contents {
        [] => Err(DerError::BadInteger(e.place)),
        contents if padded(contents) => Err(DerError::BadInteger(e.place)),
        [first, ..] if *first >= 128 => Ok(None),
        contents => Ok(number(contents)),
    }
}

// The first nine bits are all alike.
fn padded(contents: &[u8]) -> bool
    ensures { result ≡ is_padded contents.now }
{
    match contents {
        [0, second, ..] => *second < 128,
        [255, second, ..] => *second >= 128,
        _ => false,
    }
}

// The number that these bytes represent, if it fits.
fn number(bytes: &[u8]) -> Option<u64>
    ensures { result ≡ if_small (value 256 bytes.now) }
{
    let mut n: u64 = 0;
    for byte in bytes {
        if n > u64::MAX / 256 {
            return None;
        }
        n = n * 256 + *byte as u64;
    }
    Some(n)
}

/// The truth value of a BOOLEAN. `BadBool` where the contents aren't one byte of 00 or FF.
#[tactic(auto, unfolding(crate::specs::Contents::boolean_of))]
pub fn boolean(e: &Element) -> Result<bool, DerError>
    ensures { Gives (λ b. b) result (boolean_of e.now.place e.now.contents.now) }
{
    match e.contents {
        [0] => Ok(false),
        [255] => Ok(true),
        _ => Err(DerError::BadBool(e.place)),
    }
}

/// The contents of an OBJECT IDENTIFIER. `BadOid` where they are empty, unfinished, or an arc
/// isn't in the fewest bytes.
#[tactic(auto, unfolding(crate::specs::Contents::oid_of))]
pub fn oid<'a>(e: &Element<'a>) -> Result<&'a [u8], DerError>
    ensures { Gives (λ bytes. bytes.now) result (oid_of e.now.place e.now.contents.now) }
{
    if e.contents.is_empty() || !arcs(e.contents) {
        Err(DerError::BadOid(e.place))
    } else {
        Ok(e.contents)
    }
}

// Arcs one after the other, each finished and in the fewest bytes.
fn arcs(bytes: &[u8]) -> bool
    ensures { result ≡ are_arcs true bytes.now }
{
    let mut begins = true;
    for byte in bytes {
        if begins && *byte == 128 {
            return false;
        }
        begins = *byte < 128;
    }
    begins
}

/// The number of unused bits and the bytes of a BIT STRING. `BadBits` if there are more than seven
/// unused bits, one of them isn't zero, or there is one and no byte follows.
#[tactic(auto, unfolding(crate::specs::Contents::bits_of))]
pub fn bits<'a>(e: &Element<'a>) -> Result<(u8, &'a [u8]), DerError>
    ensures { Gives (λ b. (b.0, b.1.now)) result (bits_of e.now.place e.now.contents.now) }
{
    match e.contents {
        [unused, bytes @ ..] if *unused <= 7 && unused_bits(*unused, bytes) => Ok((*unused, bytes)),
        _ => Err(DerError::BadBits(e.place)),
    }
}

// The last byte has so many low bits of zero, and no bytes have none.
fn unused_bits(unused: u8, bytes: &[u8]) -> bool
    requires { unused < 8 }
    ensures { result ≡ are_unused unused bytes.now }
{
    match bytes {
        [] => unused == 0,
        [.., last] => *last % (1 << unused) == 0,
    }
}
