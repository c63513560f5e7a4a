//! Appending elements to the bytes that are there. If memory is refused, these bytes stay as they
//! were.

ghost use Rattle.std.specs.Prelude.{◌≡◌, ◌≢◌, ◌%◌, ◌^◌, ◌<◌, ◌≤◌, ◌++◌, false, length, slice_index};
ghost use Rattle.std.specs.Prelude.{IfOk, OnOk, OnErr};
ghost use Rattle.byte_formats.specs.Offsets.{IsBytes};
ghost use Rattle.byte_formats.specs.Numbers.{value};
ghost use Rattle.der_core.specs.Elements.{element};
ghost use Rattle.der_core.specs.Integers.{integer};
ghost use Rattle.der_core.specs.Contents.{is_padded};

use crate::tags::INTEGER;
use mtc_io::{Bytes, Memory};
use std::alloc::Global;

/// Appends an element to the bytes: its tag, the length of the contents in the fewest bytes, and
/// the contents.
#[tactic(auto, unfolding(crate::specs::Elements::element))]
pub fn put(tag: u8, contents: &[u8], out: &mut Bytes) -> Result<(), Memory>
    requires tag { tag % 32 ≢ 31 }
    requires short { length contents.now < 2 ^ 24 }
    ensures ok { OnOk result (out.new ≡ out.old ++ element tag contents.now) }
    ensures err { OnErr result (out.new ≡ out.old) }
{
    let count = contents.len();
    if count < 128 {
        out.append_both(&[tag, count as u8], contents)
    } else if count < 256 {
        out.append_both(&[tag, 0x81, count as u8], contents)
    } else if count < 65536 {
        out.append_both(
            &[tag, 0x82, (count / 256) as u8, (count % 256) as u8],
            contents,
        )
    } else {
        let high = (count / 65536) as u8;
        out.append_both(
            &[
                tag,
                0x83,
                high,
                (count / 256 % 256) as u8,
                (count % 256) as u8,
            ],
            contents,
        )
    }
}

/// The element with this tag and these contents, by itself.
pub fn element_of(alloc: Global, tag: u8, contents: &[u8]) -> Result<Bytes, Memory>
    requires tag { tag % 32 ≢ 31 }
    requires short { length contents.now < 2 ^ 24 }
    ensures { IfOk result (λ bytes. bytes ≡ element tag contents.now) }
{
    let mut out = Bytes::new(alloc);
    put(tag, contents, &mut out)?;
    Ok(out)
}

/// Appends an INTEGER with this value to the bytes.
pub fn put_unsigned(value: u64, out: &mut Bytes) -> Result<(), Memory>
    ensures ok { OnOk result (out.new ≡ out.old ++ element 2 (integer value)) }
    ensures err { OnErr result (out.new ≡ out.old) }
{
    let [a, b, c, d, e, f, g, h] = value.to_be_bytes();
    let all = [0, a, b, c, d, e, f, g, h];
    let contents = fewest(&all);
    put(INTEGER, contents, out)
}

// The same number without the bytes at its start that can be left out.
fn fewest(bytes: &[u8]) -> &[u8]
    requires some { 0 < length bytes.now }
    requires positive { slice_index bytes.now 0 < 128 }
    ensures bytes { IsBytes result.now }
    ensures some { 0 < length result.now }
    ensures shorter { length result.now ≤ length bytes.now }
    ensures positive { slice_index result.now 0 < 128 }
    ensures fewest { is_padded result.now ≡ false }
    ensures same { value 256 result.now ≡ value 256 bytes.now }
{
    let mut rest = bytes;
    while let [0, next, ..] = rest
        && *next < 128
    {
        rest = &rest[1..];
    }
    rest
}
