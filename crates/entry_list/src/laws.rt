//! Laws of files of entries: the clauses are the laws, and the functions do nothing.

ghost use Rattle.std.specs.Prelude.{◌≡◌, ℕ, ◌+◌, ◌≤◌, length, Ok};
ghost use Rattle.byte_formats.specs.Types.{HashFunction, Text};
ghost use Rattle.byte_formats.specs.Offsets.{IsBytes};
ghost use Rattle.entry_list.specs.Items.{AreItems, FitsFile, ItemLists, first_items, file_part};
ghost use Rattle.entry_list.specs.Items.{file_text, later_items};
ghost use Rattle.entry_list.specs.Reading.{items_in};

/// What is read is the file of the items that were read, each beside its own key; and the file of
/// such items, or of so many of the first of them, or of so many from an index on, is read as them.
/// So items have one file.
pub fn law_items_are_read_as_written()
    ensures only { (h : HashFunction) (bytes : Text) (items : ItemLists) → IsBytes bytes
        → items_in h bytes ≡ Ok items
        → (bytes ≡ file_text items (length items.entries)) × (AreItems h items × FitsFile items) }
    ensures again { (h : HashFunction) (items : ItemLists) (count : ℕ) → AreItems h items
        → FitsFile items → count ≤ length items.entries
        → items_in h (file_text items count) ≡ Ok (first_items count items) }
    ensures part { (h : HashFunction) (items : ItemLists) (first count : ℕ) → AreItems h items
        → FitsFile items → first + count ≤ length items.entries
        → items_in h (file_part items first count)
        ≡ Ok (first_items count (later_items first items)) }
{}
