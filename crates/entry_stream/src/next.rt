//! The first item of some bytes.

ghost use Rattle.std.specs.Prelude.{◌≤◌, length, IfErr};
ghost use Rattle.byte_formats.specs.Offsets.{IsBytes, at};
ghost use Rattle.byte_formats.specs.Readings.{Gives, found};
ghost use Rattle.entry_list.specs.Items.{item_pair};
ghost use Rattle.entry_stream.specs.Parts.{parts_at};

use entry_list::Item;
use tls_wire::{Cursor, Short};

/// The first item, if these bytes hold all of it; its key isn't tested.
#[tactic(auto, unfolding(crate::specs::Parts::parts_at))]
pub(crate) fn first_item(bytes: &[u8]) -> Result<Item<'_>, Short>
    ensures exact { Gives item_pair result (found (parts_at (at bytes.now 0))) }
    ensures known { IsBytes bytes.now }
    ensures inside { IfErr result (λ short. short.place ≤ length bytes.now) }
{
    let mut cursor = Cursor::new(bytes);
    let entry = cursor.vec16()?;
    let spki = cursor.vec16()?;
    Ok(Item { entry, spki })
}
