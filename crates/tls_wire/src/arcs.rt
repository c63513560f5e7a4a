//! Arcs of an anchor id: numbers below 2 ^ 64 in base 128, in the fewest bytes, with the highest
//! bit set in all but the last.

ghost use Rattle.std.specs.Prelude.{◌≡◌, ◌^◌, ◌<◌, ◌≤◌, ◌+◌, ◌++◌, length, take, Some, None, OnOk};
ghost use Rattle.std.specs.Prelude.{nat_lt, if◌then◌else◌};
ghost use Rattle.byte_formats.specs.Readings.{Gives, Moves};
ghost use Rattle.tls_wire.specs.Arcs.{high_digits, arc};
ghost use Rattle.tls_wire.specs.Anchors.{high_count, base_128, arc_at, arcs_only};

use crate::cursor::Cursor;
use crate::fault::AnchorBytesError;
use mtc_io::{Bytes, Memory};

// How many bytes with the highest bit set stand here.
fn high_count(bytes: &[u8]) -> usize
    ensures exact { result ≡ high_count bytes.now }
    ensures within { result ≤ length bytes.now }
{
    let mut count = 0;
    let mut rest = bytes;
    while let [byte, following @ ..] = rest {
        if *byte < 128 {
            return count;
        }
        count += 1;
        rest = following;
    }
    count
}

// The number that digits in base 128 write, where it fits 64 bits.
fn base_128(bytes: &[u8]) -> Option<u64>
    ensures { result ≡ (if nat_lt (base_128 bytes.now) (2 ^ 64) then Some (base_128 bytes.now)
        else None) }
{
    let mut n: u64 = 0;
    let mut rest = bytes;
    while let [byte, following @ ..] = rest {
        if n >= 1 << 57 {
            return None;
        }
        n = n * 128 + (*byte % 128) as u64;
        rest = following;
    }
    Some(n)
}

// One arc.
#[tactic(auto, unfolding(crate::specs::Anchors::arc_at))]
pub(crate) fn read_arc(input: &mut Cursor) -> Result<u64, AnchorBytesError>
    ensures exact { Moves (λ n. n) arc_at input.old result input.new }
    ensures forward { OnOk result (length input.new.rest < length input.old.rest) }
{
    let start = input.place();
    let rest = input.rest();
    if let [128, ..] = rest {
        return Err(AnchorBytesError::Padding(start));
    }
    let count = high_count(rest);
    let bytes = first(rest, count + 1);
    let n = base_128(bytes).ok_or(AnchorBytesError::ArcTooLarge(start))?;
    if bytes.len() == count {
        return Err(AnchorBytesError::Unfinished);
    }
    input.skip(bytes.len());
    Ok(n)
}

// The first bytes, at most so many.
fn first(bytes: &[u8], count: usize) -> &[u8]
    ensures { result.now ≡ take count bytes.now }
{
    if count < bytes.len() {
        &bytes[..count]
    } else {
        bytes
    }
}

// Reads arcs up to the end of the bytes.
pub(crate) fn read_arcs(bytes: &[u8]) -> Result<(), AnchorBytesError>
    ensures { Gives (λ x. x) result (arcs_only bytes.now) }
{
    let mut input = Cursor::new(bytes);
    while input.left() != 0 {
        read_arc(&mut input)?;
    }
    Ok(())
}

// The number of bytes of an arc.
pub(crate) fn arc_length(value: u64) -> usize
    ensures exact { result ≡ length (arc value) }
    ensures small { result ≤ 2 ^ 58 }
{
    let mut count = 1;
    let mut high = value / 128;
    while high > 0 {
        count += 1;
        high /= 128;
    }
    count
}

// Appends an arc to the bytes. If memory is refused, the bytes may end with a part of it.
#[tactic(auto, unfolding(crate::specs::Arcs::arc))]
pub(crate) fn put_arc(out: &mut Bytes, value: u64) -> Result<(), Memory>
    ensures { OnOk result (out.new ≡ out.old ++ arc value) }
{
    put_high_digits(out, value / 128)?;
    out.append(&[(value % 128) as u8])
}

// Appends all digits but the last one to the bytes.
fn put_high_digits(out: &mut Bytes, value: u64) -> Result<(), Memory>
    ensures { OnOk result (out.new ≡ out.old ++ high_digits value) }
{
    if value == 0 {
        return Ok(());
    }
    put_high_digits(out, value / 128)?;
    out.append(&[128 + (value % 128) as u8])
}
