//! What can be wrong with a file of entries.

use mtc_io::Memory as NoMemory;
use std::error::Error;
use std::fmt;
use tls_wire::Short;

/// Why bytes aren't a file of entries. The items are read and tested one by one, each entry before
/// its key, and the first fault is answered.
#[derive(Clone, Copy, Debug, PartialEq, Eq)]
pub enum ItemsError {
    /// The entry or the key whose length begins at this offset doesn't fit.
    Short(usize),
    /// The item with this number, counted from 0, has another key than its entry was made for: the
    /// entry reads as one of type 1 and the key doesn't match it, or it doesn't and there is a key.
    BadItem(u64),
    /// Memory was refused.
    Memory,
}

impl fmt::Display for ItemsError {
    ghost use Rattle.std.specs.Prelude.{Some};
    ghost use Rattle.entry_list.specs.Reasons.{items_fault_text};

    ghost output = { λ why. Some (items_fault_text why) };

    fn fmt<W: fmt::Write>(&self, f: &mut fmt::Formatter<W>) -> fmt::Result {
        match self {
            ItemsError::Short(offset) => write!(f, "Short {offset}"),
            ItemsError::BadItem(number) => write!(f, "BadItem {number}"),
            ItemsError::Memory => f.write_str("Memory"),
        }
    }
}

impl Error for ItemsError {}

impl From<Short> for ItemsError {
    ghost use Rattle.std.specs.Prelude.{◌≡◌};
    ghost use Rattle.entry_list.specs.declared.error.ItemsError.TheVariants.{Short as TooShort};

    ghost from_gives = { λ short e. e ≡ TooShort short.place };

    fn from(short: Short) -> ItemsError {
        ItemsError::Short(short.place)
    }
}

impl From<NoMemory> for ItemsError {
    ghost use Rattle.std.specs.Prelude.{◌≡◌};
    ghost use Rattle.entry_list.specs.declared.error.ItemsError.TheVariants.{Memory};

    ghost from_gives = { λ _ e. e ≡ Memory };

    fn from(_refused: NoMemory) -> ItemsError {
        ItemsError::Memory
    }
}
