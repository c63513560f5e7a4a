//! Laws of what is printed of a log: the clauses are the laws, and the functions do nothing.

ghost use Rattle.std.specs.Prelude.{◌≡◌, ◌≤◌, ◌<◌, ◌+◌, ◌^◌, ℕ, length, map, Ok, None, Some};
ghost use Rattle.byte_formats.specs.Types.{HashFunction, Text};
ghost use Rattle.entry_list.specs.Items.{file_part, file_text, first_items, later_items};
ghost use Rattle.entry_list.specs.Reading.{items_in};
ghost use Rattle.issuance_log.specs.Folds.{LogState};
ghost use Rattle.issuance_log.specs.Openings.{HasItsTiles};
ghost use Rattle.issuance_log.specs.Sound.{IsSound};
ghost use Rattle.tile_store.specs.Causes.{IsFirstBad};
ghost use Rattle.tree_core.specs.Tree.{leaf_hash};
ghost use Rattle.mtc_authority.specs.BadTiles.{first_bad};
ghost use Rattle.mtc_authority.specs.LogOutcomes.{items_of};

/// What `entries` prints is a file of entries, which is read as so many of the log's first items;
/// and what `entries-from` prints is read as so many of its items from an index on.
pub fn law_printed_entries_are_read()
    ensures first { (h : HashFunction) (s : LogState) (count : ℕ) → IsSound h s
        → count ≤ length s.entries
        → items_in h (file_text (items_of s) count) ≡ Ok (first_items count (items_of s)) }
    ensures part { (h : HashFunction) (s : LogState) (first count : ℕ) → IsSound h s
        → first + count ≤ length s.entries
        → items_in h (file_part (items_of s) first count)
        ≡ Ok (first_items count (later_items first (items_of s))) }
{}

/// A command on a log reports no bad tile exactly if the file of its tiles has those of its last
/// size, and the one that it reports is the first of them that the file has not.
pub fn law_bad_tiles_are_reported()
    ensures none { (h : HashFunction) (s : LogState) (tiles : Text) → HasItsTiles h s tiles
        → first_bad h s tiles ≡ None }
    ensures all { (h : HashFunction) (s : LogState) (tiles : Text) → s.tiled < 2 ^ 32
        → first_bad h s tiles ≡ None → HasItsTiles h s tiles }
    ensures first { (h : HashFunction) (s : LogState) (tiles : Text) (level place : ℕ)
        → s.tiled < 2 ^ 32
        → IsFirstBad h (map (leaf_hash h) s.entries) tiles 0 s.tiled level place
        → first_bad h s tiles ≡ Some (level, place) }
{}
