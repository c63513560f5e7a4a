//! The order of the elements of a set.

ghost use Rattle.std.specs.Prelude.{◌≡◌, ◌<◌, length, OnOk};
ghost use Rattle.std.specs.Ordering.{nat_cmp, is_gt};
ghost use Rattle.std.specs.Cmp.Lexicographic.{slice_cmp};
ghost use Rattle.byte_formats.specs.Readings.{Gives, Moves};
ghost use Rattle.der_core.specs.Items.{item};
ghost use Rattle.der_core.specs.Sets.{risen_at, order_of};

use crate::element::Element;
use crate::fault::DerError;
use crate::reader::Reader;

/// The encodings in the contents of a SET OF rise; equal ones are allowed. The elements are read
/// from the left: one that doesn't read answers its own fault at its own offset, and one below the
/// one before it `SetOrder` at the offset of the set, whichever comes first.
pub fn set_in_order(e: &Element) -> Result<(), DerError>
    ensures { Gives (λ x. x) result (order_of (item e.now)) }
{
    let mut reader = Reader::inside(e);
    let mut before: &[u8] = &[];
    while !reader.is_at_end() {
        before = risen(&mut reader, e.place, before)?;
    }
    Ok(())
}

// The next element of the set at this position, which isn't below the encoding before it.
#[tactic(auto, unfolding(crate::specs::Sets::risen_at))]
fn risen<'a>(reader: &mut Reader<'a>, place: usize, before: &[u8]) -> Result<&'a [u8], DerError>
    ensures exact { Moves (λ bytes. bytes.now) (risen_at place before.now)
        reader.old result reader.new }
    ensures forward { OnOk result (length reader.new.rest < length reader.old.rest) }
{
    let next = reader.element()?;
    if is_above(before, next.whole) {
        Err(DerError::SetOrder(place))
    } else {
        Ok(next.whole)
    }
}

// Byte by byte, `a` is above `b`; a prefix is below what continues it.
fn is_above(a: &[u8], b: &[u8]) -> bool
    ensures { result ≡ is_gt (slice_cmp nat_cmp a.now b.now) }
{
    a.cmp(&b).is_gt()
}
