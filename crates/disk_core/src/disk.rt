//! A disk as its user sees it: what a read gives, and what a crash leaves.

ghost use Rattle.std.specs.Prelude.{◌≡◌, ℕ, ◌+◌, ◌^◌, ◌<◌, ◌≤◌, max, Bool, length, Option, is_some};
ghost use Rattle.std.specs.Prelude.{is_ok, option_map, Some, IfSome, IfOk, OnOk, OnErr};
ghost use Rattle.std.specs.Prelude.{MatchResult};
ghost use Rattle.byte_formats.specs.Types.{Text};
ghost use Rattle.byte_formats.specs.Offsets.{IsBytes};
ghost use Rattle.mtc_io.specs.Counts.{Rose, HasCause};
ghost use Rattle.disk_core.specs.Disk.{overwritten, part, Torn, Follows, NoNew, Only, Elapses};
ghost use Rattle.disk_core.specs.declared.memory.call.Call.{Call};
ghost use Rattle.disk_core.specs.declared.memory.call.Call.TheVariants.{Len, Read, Write, Sync};

use mtc_io::Failed;

/// One file that keeps bytes over a crash of the machine, or doesn't.
///
/// Between two calls of [`Disk::sync`] nothing that was written is durable: a crash may leave any
/// bytes where a write changed one, and past the old end. All other bytes stay, also those that are
/// written again as they were: a disk that keeps this rule never spoils a sector into which it
/// writes the same bytes once more. After a `sync` that answers Ok a crash leaves what a read
/// gives.
pub trait Disk {
    /// The bytes that a read gives, if the model knows them.
    ghost contents: { Self → Option Text };

    /// The known length: nothing past it is read, and no write begins past it.
    ghost known: { Self → ℕ };

    /// The clock, a number that never falls.
    ghost clock_at: { Self → ℕ };

    /// The crash states: the bytes that a crash now may leave.
    ghost may_leave: { Self → Text → Type 0 };

    /// The crash states that a crash at some time from that one on might have left, during a call
    /// or between two.
    ghost left_since: { Self → ℕ → Text → Type 0 };

    /// The count of its failures, which rises with each call that fails.
    ghost faults: { Self → ℕ };

    /// What a type says in addition to the rest of one call: of the disk before it, what was asked,
    /// whether it was answered Ok, and of the disk after it.
    ghost turn: { Self → Call → Bool → Self → Type 0 } = { λ _ _ _ _. Unit {0} };

    /// The number of bytes.
    fn len(&mut self) -> Result<u64, Failed>
        ensures length { IfOk result (λ n. IfSome (contents self.old) (λ b. n ≡ length b)) }
        ensures known { MatchResult result (λ n. known self.new ≡ max n (known self.old))
            (λ _. known self.new ≡ known self.old) }
        ensures contents { contents self.new ≡ contents self.old }
        ensures crash { NoNew (may_leave self.old) (may_leave self.new) }
        ensures time { Elapses (clock_at self.old) (clock_at self.new) (left_since self.old)
            (left_since self.new) (may_leave self.new) }
        ensures clock { OnOk result (Rose (clock_at self.old) (clock_at self.new)) }
        ensures cause { HasCause (faults self.old) (faults self.new) result }
        ensures turn { turn self.old Len (is_ok result) self.new };

    /// Fills `out` with the bytes from an offset on. Its range ends at or below the known length.
    fn read_at(&mut self, place: u64, out: &mut [u8]) -> Result<(), Failed>
        requires { place + length out.old ≤ known self.old }
        ensures read { OnOk result (IfSome (contents self.old)
            (λ b. out.new ≡ part place (length out.old) b)) }
        ensures known { known self.new ≡ known self.old }
        ensures contents { contents self.new ≡ contents self.old }
        ensures crash { NoNew (may_leave self.old) (may_leave self.new) }
        ensures time { Elapses (clock_at self.old) (clock_at self.new) (left_since self.old)
            (left_since self.new) (may_leave self.new) }
        ensures clock { OnOk result (Rose (clock_at self.old) (clock_at self.new)) }
        ensures cause { HasCause (faults self.old) (faults self.new) result }
        ensures turn { turn self.old (Read place (length out.old)) (is_ok result) self.new };

    /// Writes over what is there, and past the end. It begins at or below the known length.
    fn write_at(&mut self, place: u64, bytes: &[u8]) -> Result<(), Failed>
        requires place { place ≤ known self.old }
        requires end { place + length bytes.now < 2 ^ 63 }
        ensures written { OnOk result (contents self.new ≡ option_map (overwritten place bytes.now)
            (contents self.old)) }
        ensures known { OnOk result (known self.new
            ≡ max (place + length bytes.now) (known self.old)) }
        ensures known_err { OnErr result (known self.new ≡ known self.old) }
        ensures contents_err { OnErr result
            (is_some (contents self.new) ≡ is_some (contents self.old)) }
        ensures crash { Follows (Torn place bytes.now) (may_leave self.old)
            (may_leave self.new) }
        ensures time { Elapses (clock_at self.old) (clock_at self.new) (left_since self.old)
            (left_since self.new) (may_leave self.new) }
        ensures clock { OnOk result (Rose (clock_at self.old) (clock_at self.new)) }
        ensures cause { HasCause (faults self.old) (faults self.new) result }
        ensures turn { turn self.old (Write place bytes.now) (is_ok result) self.new };

    /// After an Ok a crash leaves what a read gives.
    fn sync(&mut self) -> Result<(), Failed>
        ensures durable { OnOk result
            (IfSome (contents self.old) (λ b. Only b (may_leave self.new))) }
        ensures known { known self.new ≡ known self.old }
        ensures contents { contents self.new ≡ contents self.old }
        ensures crash { NoNew (may_leave self.old) (may_leave self.new) }
        ensures time { Elapses (clock_at self.old) (clock_at self.new) (left_since self.old)
            (left_since self.new) (may_leave self.new) }
        ensures clock { OnOk result (Rose (clock_at self.old) (clock_at self.new)) }
        ensures cause { HasCause (faults self.old) (faults self.new) result }
        ensures turn { turn self.old Sync (is_ok result) self.new };

    /// What a read gives is one of the crash states.
    ghost reads_crash_state: { (d : Self) (b : Text) → contents d ≡ Some b → may_leave d b };

    /// What the model knows are bytes.
    ghost contents_bytes: { (d : Self) (b : Text) → contents d ≡ Some b → IsBytes b };

    /// If the model knows the bytes, the known length is at most their number.
    ghost known_there: { (d : Self) (b : Text) → contents d ≡ Some b → known d ≤ length b };

    /// This time is one of those since an earlier one.
    ghost counts_now: { (d : Self) (t : ℕ) (c : Text) → t ≤ clock_at d → may_leave d c
        → left_since d t c };

    /// Since this time there is no other.
    ghost only_now: { (d : Self) (c : Text) → left_since d (clock_at d) c → may_leave d c };

    /// What a crash leaves are bytes, at any time.
    ghost left_bytes: { (d : Self) (t : ℕ) (c : Text) → left_since d t c → IsBytes c };
}
