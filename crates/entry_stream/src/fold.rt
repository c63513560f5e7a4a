//! What takes items, one after another.

ghost use Rattle.std.specs.Prelude.{◌≡◌, ℕ, List, [], OnOk};
ghost use Rattle.entry_list.specs.Items.{ItemLists};
ghost use Rattle.entry_stream.specs.Streams.{CanTakeMore, items_with};

use mtc_io::Memory;

/// Something that takes the items of a list, one after another.
pub trait ItemFold {
    /// It took these items in this order, and no others.
    ghost has_taken: { Self → ItemLists → Type 0 };

    /// The numbers that it was made with, as the interval of a hash. They stay.
    ghost made_with: { Self → List ℕ } = { λ _. [] };

    /// The type of what it serves, as a list of domains that are watched.
    ghost Purpose: { Type 0 } = { Unit {0} };

    /// What it serves. It stays.
    ghost purpose: { Self → Purpose };

    /// Takes one item more: an entry and its key. `Memory` comes only if memory was refused.
    fn take(&mut self, entry: &[u8], spki: &[u8]) -> Result<(), Memory>
        requires { CanTakeMore (has_taken self.old) }
        ensures taken { OnOk result ((items : ItemLists) → has_taken self.old items
            → has_taken self.new (items_with items entry.now spki.now)) }
        ensures same { made_with self.new ≡ made_with self.old }
        ensures kept { purpose self.new ≡ purpose self.old };
}
