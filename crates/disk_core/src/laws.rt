//! Laws of what a crash leaves: the clauses are the laws, and the functions do nothing.

ghost use Rattle.std.specs.Prelude.{◌≡◌, ◌↔◌, ℕ, ◌+◌, ◌<◌, List, [], ◌∷◌, length, slice_index};
ghost use Rattle.byte_formats.specs.Types.{Text};
ghost use Rattle.byte_formats.specs.Offsets.{IsBytes};
ghost use Rattle.disk_core.specs.Disk.{part, Torn, Follows};
ghost use Rattle.disk_core.specs.Times.{LeavesOnly};
ghost use Rattle.disk_core.specs.Replay.{IsCrashStateOf};
ghost use Rattle.disk_core.specs.Torn.{KeepsOthers, Extends, EachHas};

use crate::disk::Disk;

/// The law of a write that is torn: its crash states are exactly those in which each byte below the
/// old end is as it was, if the write leaves it so, since the byte lies outside of the range or is
/// written again. All other bytes may be any, and the crash state may end anywhere from the old end
/// on.
pub fn law_a_torn_write_keeps_others()
    ensures { (place : ℕ) (piece old new : Text)
        → Torn place piece old new ↔ KeepsOthers ((place, piece) ∷ []) old new }
{}

/// The law of one or more writes since a sync: the crash states of the disk in memory are exactly
/// the bytes in which each byte below the end at the sync is as it was there, if all of these
/// writes leave it so.
pub fn law_torn_writes_keep_others()
    ensures kept { (base : Text) (writes : List (ℕ × Text)) (crash_state : Text)
        → IsCrashStateOf base writes crash_state → KeepsOthers writes base crash_state }
    ensures all { (base : Text) (write : ℕ × Text) (writes : List (ℕ × Text)) (crash_state : Text)
        → IsBytes base → IsBytes crash_state → KeepsOthers (write ∷ writes) base crash_state
        → IsCrashStateOf base (write ∷ writes) crash_state }
{}

/// The law of a write of what is there: its crash states are exactly the old one with anything
/// after its end (`exact`). So if each crash state of a disk has the written bytes, a crash leaves
/// only a crash state from before, with anything after its end: after the write (`crash_states`),
/// and at any time of it (`times`). And if each crash state has a byte of it, so has each crash
/// state after the write (`byte`).
pub fn law_bytes_written_again_stay<D: Disk>()
    ensures exact { (place : ℕ) (piece old new : Text) → part place (length piece) old ≡ piece
        → (Torn place piece old new ↔ Extends old new) }
    ensures crash_states { (place : ℕ) (piece : Text) (old new : D)
        → ((d : Text) → D.may_leave old d → part place (length piece) d ≡ piece)
        → Follows (Torn place piece) (D.may_leave old) (D.may_leave new)
        → Follows Extends (D.may_leave old) (D.may_leave new) }
    ensures times { (place : ℕ) (piece : Text) (old new : D)
        → ((d : Text) → D.may_leave old d → part place (length piece) d ≡ piece)
        → LeavesOnly D.Disk old new (λ c. (d : Text) × D.may_leave old d × Torn place piece d c)
        → LeavesOnly D.Disk old new (λ c. (d : Text) × D.may_leave old d × Extends d c) }
    ensures byte { (place : ℕ) (piece : Text) (old new : D) (k : ℕ) → k < length piece
        → EachHas (place + k) (slice_index piece k) (D.may_leave old)
        → Follows (Torn place piece) (D.may_leave old) (D.may_leave new)
        → EachHas (place + k) (slice_index piece k) (D.may_leave new) }
{}
