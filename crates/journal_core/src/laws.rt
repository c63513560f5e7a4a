//! Laws of a journal's bytes: the clauses are the laws, and the functions do nothing.

ghost use Rattle.std.specs.Prelude.{◌≡◌, ◌≤◌, ℕ, List, length, take, Ok};
ghost use Rattle.byte_formats.specs.Types.{Text};
ghost use Rattle.byte_formats.specs.Offsets.{IsBytes};
ghost use Rattle.disk_core.specs.Disk.{part, Torn};
ghost use Rattle.journal_core.specs.Folds.{Fold, Found, state_after, read_by};
ghost use Rattle.journal_core.specs.Format.{Represents, new_file_of, record_bytes};
ghost use Rattle.journal_core.specs.Words.{AllRepresent};

use crate::format::{HEADER, LONGEST_WRITE, MAX_BODY};
use disk_core::Disk;

/// A file represents one list of records at most.
pub fn law_a_file_represents_one_list_at_most()
    ensures { (bytes : Text) (one other : List Text) → Represents bytes one
        → Represents bytes other → one ≡ other }
{}

/// One write over a file of what it has there puts no record at stake: however it is torn, the file
/// represents the records that it represented.
pub fn law_records_stay_that_are_written_again()
    ensures { (place : ℕ) (piece old new : Text) (list : List Text) → Represents old list
        → part place (length piece) old ≡ piece → Torn place piece old new → Represents new list }
{}

/// Each file that represents records begins with the header. Neither the bytes of a new file's
/// first write nor those of a record from its commit byte on are more than those of the longest
/// write.
pub fn law_writes_have_a_longest()
    ensures header { (bytes : Text) (list : List Text) → Represents bytes list
        → take 16 bytes ≡ HEADER }
    ensures first { (body : Text) → length body ≤ MAX_BODY
        → length (new_file_of body) ≤ LONGEST_WRITE }
    ensures later { (body : Text) → length body ≤ MAX_BODY
        → length (record_bytes body) ≤ LONGEST_WRITE }
{}

/// For each kind of journal: a file is read as one exactly if it represents records that make the
/// state.
pub fn law_files_are_read_by_their_records<S, E>()
    ensures read { (fold : Fold S E) (bytes : Text) (list : List Text) (state : S)
        → Represents bytes list → state_after fold list ≡ Ok state
        → read_by fold bytes ≡ Ok (record { records = list; state = state }) }
    ensures only { (fold : Fold S E) (bytes : Text) (found : Found S) → IsBytes bytes
        → read_by fold bytes ≡ Ok found
        → Represents bytes found.records × (state_after fold found.records ≡ Ok found.state) }
{}

/// For each kind of journal: if every crash state of a disk represents records that make a state, a
/// crash leaves a file that is read as these; and what a crash at any time leaves is read as a
/// journal only if it represents records that make its state.
pub fn law_crash_states_are_read_by_their_records<D: Disk, S, E>()
    ensures read { (fold : Fold S E) (disk : D) (list : List Text) (state : S)
        → AllRepresent D.Disk disk list → state_after fold list ≡ Ok state
        → (crash_state : Text) → D.may_leave disk crash_state
        → read_by fold crash_state ≡ Ok (record { records = list; state = state }) }
    ensures only { (fold : Fold S E) (disk : D) (since : ℕ) (crash_state : Text) (found : Found S)
        → D.left_since disk since crash_state → read_by fold crash_state ≡ Ok found
        → Represents crash_state found.records × (state_after fold found.records ≡ Ok found.state) }
{}
