//! What a disk in memory held at first, and its calls since: all that the model knows of it follows
//! from these.

ghost use Rattle.std.specs.Prelude.{◌≡◌, ◌+◌, ◌<◌, [], length, true, false, if◌then◌else◌, is_ok};
ghost use Rattle.std.specs.Prelude.{IfOk, OnOk, OnErr, IsTrue};
ghost use Rattle.std.proofs.Props.{props};
ghost use Rattle.byte_formats.specs.Types.{Text};
ghost use Rattle.byte_formats.specs.Offsets.{IsBytes};
ghost use Rattle.disk_core.specs.Disk.{overwritten, Torn, Follows, NoNew, Only, Elapses};
ghost use Rattle.mtc_io.specs.Counts.{last_count};
ghost use Rattle.disk_core.specs.Fuse.{is_change};
ghost use Rattle.disk_core.specs.Noted.{made_calls};
ghost use Rattle.disk_core.specs.Replay.{State, after_call, state_now, IsCrashState, LeftSince};
ghost use Rattle.disk_core.specs.Replay.{noted};
ghost use Rattle.disk_core.specs.Replay.{HoldsBytes, HoldsBytes-prop};

use crate::memory::call::Call;
use crate::memory::calls::Calls;
use crate::memory::crash::left;
use mtc_io::{Bytes, Memory};
use std::alloc::Global;

#[derive(Debug, Drop)]
pub(crate) struct History {
    pub(crate) first: Bytes,
    // What a read gives, once a write has been; till then that is `first`.
    pub(crate) live: Vec<u8>,
    pub(crate) is_live: bool,
    pub(crate) calls: Calls,
    ghost are_bytes: { HoldsBytes first
        (made_calls calls) } by { Prim.hlevel (props, HoldsBytes-prop) },
    ghost shown: { (if is_live then live.items else first)
        ≡ (state_now first (made_calls calls)).seen },
}

// Over what is there, and past the end. If memory is refused, the bytes stay as they were.
pub(crate) fn overwrite(bytes: &mut Vec<u8>, place: u64, piece: &[u8]) -> Result<(), Memory>
    ensures ok { OnOk result (bytes.new.items ≡ overwritten place piece.now bytes.old.items) }
    ensures err { OnErr result (bytes.new.items ≡ bytes.old.items) }
{
    let start = bytes.len().min(place as usize);
    let over = piece.len().min(bytes.len() - start);
    bytes.extend_from_slice(&piece[over..])?;
    bytes[start..start + over].copy_from_slice(&piece[..over]);
    Ok(())
}

// What a read gives, in a vector of its own for writes.
fn wake(first: &Bytes, live: &mut Vec<u8>, is_live: &mut bool) -> Result<(), Memory>
    ensures live { OnOk result (is_live.new ≡ true) }
    ensures same { (if is_live.new then live.new.items else first.now) ≡
        (if is_live.old then live.old.items else first.now) }
{
    if !*is_live {
        *live = Vec::from_slice(*live.allocator(), first.as_slice())?;
        *is_live = true;
    }
    Ok(())
}

// The write is done and noted, or nothing of it is: so it was over each first content.
fn write_noted(
    live: &mut Vec<u8>,
    calls: &mut Calls,
    place: u64,
    piece: &[u8],
) -> Result<(), Memory>
    ensures ok { OnOk result (live.new.items ≡ overwritten place piece.now live.old.items) }
    ensures err { OnErr result (live.new.items ≡ live.old.items) }
    ensures seen { (first : Text) → live.old.items ≡ (state_now first (made_calls calls.old)).seen
        → live.new.items ≡ (state_now first (made_calls calls.new)).seen }
    ensures crash { (first : Text) → Follows (Torn place piece.now)
        (IsCrashState (state_now first (made_calls calls.old)))
        (IsCrashState (state_now first (made_calls calls.new))) }
    ensures time { (first : Text) → Elapses (length (made_calls calls.old))
        (length (made_calls calls.new)) (LeftSince first (made_calls calls.old))
        (LeftSince first (made_calls calls.new))
        (IsCrashState (state_now first (made_calls calls.new))) }
    ensures clock { OnOk result (length (made_calls calls.old) < length (made_calls calls.new)) }
    ensures calls { made_calls calls.new
        ≡ noted (is_ok result) (Call.Write place piece.now) true (made_calls calls.old) }
{
    let kept = Bytes::copy_of(*live.allocator(), piece)?;
    calls.reserve()?;
    overwrite(live, place, piece)?;
    calls.push(Call::Write { place, piece: kept }, true);
    Ok(())
}

// Each item of a slice of bytes is one.
pub(crate) fn law_known_bytes(bytes: &[u8])
    ensures { IsBytes bytes.now }
{
    let _ = bytes;
}

impl History {
    ghost use Rattle.disk_core.specs.History.{seen_of, left_of, clock_in, since_of};

    pub(crate) fn new(alloc: Global, first: Bytes) -> History
        ensures first { result.first ≡ first }
        ensures calls { made_calls result.calls ≡ [] }
    {
        law_known_bytes(first.as_slice());
        History {
            first,
            live: Vec::new(alloc),
            is_live: false,
            calls: Calls::new(alloc),
        }
    }

    pub(crate) fn bytes(&self) -> &[u8]
        ensures { result.now ≡ seen_of self.now }
    {
        if self.is_live {
            self.live.as_slice()
        } else {
            self.first.as_slice()
        }
    }

    // The same history once more.
    pub(crate) fn again(&self, alloc: Global) -> Result<History, Memory>
        ensures first { IfOk result (λ it. it.first ≡ self.now.first) }
        ensures calls { IfOk result (λ it. made_calls it.calls ≡ made_calls self.now.calls) }
    {
        Ok(History {
            first: Bytes::copy_of(alloc, self.first.as_slice())?,
            live: Vec::from_slice(alloc, &self.live)?,
            is_live: self.is_live,
            calls: self.calls.again(alloc)?,
        })
    }

    // One of the crash states.
    pub(crate) fn left(&self, alloc: Global, pick: u64) -> Result<Bytes, Memory>
        ensures { IfOk result (left_of self.now) }
    {
        let crash_state = left(alloc, self.first.as_slice(), &self.calls.changes, pick)?;
        Ok(Bytes::from_vec(crash_state))
    }

    // A call that only reads. The record of changes stays as it is.
    pub(crate) fn note_read(&mut self) -> Result<(), Memory>
        ensures first { self.new.first ≡ self.old.first }
        ensures calls { made_calls self.new.calls
            ≡ noted (is_ok result) Call.Len true (made_calls self.old.calls) }
        ensures changes { self.new.calls.changes.items ≡ self.old.calls.changes.items }
        ensures full { OnErr result (clock_in self.old ≡ last_count) }
        ensures seen { seen_of self.new ≡ seen_of self.old }
        ensures crash { NoNew (left_of self.old) (left_of self.new) }
        ensures time { Elapses (clock_in self.old) (clock_in self.new) (since_of self.old)
            (since_of self.new) (left_of self.new) }
        ensures clock { OnOk result (clock_in self.old < clock_in self.new) }
    {
        self.calls.note_read()?;
        Ok(())
    }

    // A change that leaves the bytes and the crash states as they are.
    pub(crate) fn note(&mut self, call: Call, ok: bool) -> Result<(), Memory>
        requires change { IsTrue (is_change call) }
        requires same { (s : State) → after_call s call ok ≡ s }
        ensures first { self.new.first ≡ self.old.first }
        ensures calls { made_calls self.new.calls
            ≡ noted (is_ok result) call ok (made_calls self.old.calls) }
        ensures seen { seen_of self.new ≡ seen_of self.old }
        ensures crash { NoNew (left_of self.old) (left_of self.new) }
        ensures time { Elapses (clock_in self.old) (clock_in self.new) (since_of self.old)
            (since_of self.new) (left_of self.new) }
        ensures clock { OnOk result (clock_in self.old < clock_in self.new) }
    {
        self.calls.note(call, ok)?;
        Ok(())
    }

    // A sync that is done: all is on the disk.
    pub(crate) fn make_durable(&mut self) -> Result<(), Memory>
        ensures first { self.new.first ≡ self.old.first }
        ensures calls { made_calls self.new.calls
            ≡ noted (is_ok result) Call.Sync true (made_calls self.old.calls) }
        ensures durable { OnOk result (Only (seen_of self.old) (left_of self.new)) }
        ensures seen { seen_of self.new ≡ seen_of self.old }
        ensures crash { NoNew (left_of self.old) (left_of self.new) }
        ensures time { Elapses (clock_in self.old) (clock_in self.new) (since_of self.old)
            (since_of self.new) (left_of self.new) }
        ensures clock { OnOk result (clock_in self.old < clock_in self.new) }
    {
        self.calls.note(Call::Sync, true)?;
        Ok(())
    }

    // A write that fails: it isn't seen, but a crash may leave something of it.
    pub(crate) fn fail_write(&mut self, place: u64, piece: &[u8]) -> Result<(), Memory>
        ensures first { self.new.first ≡ self.old.first }
        ensures calls { made_calls self.new.calls
            ≡ noted (is_ok result) (Call.Write place piece.now) false (made_calls self.old.calls) }
        ensures seen { seen_of self.new ≡ seen_of self.old }
        ensures crash { Follows (Torn place piece.now) (left_of self.old)
            (left_of self.new) }
        ensures time { Elapses (clock_in self.old) (clock_in self.new) (since_of self.old)
            (since_of self.new) (left_of self.new) }
    {
        let piece = Bytes::copy_of(*self.live.allocator(), piece)?;
        self.calls.note(Call::Write { place, piece }, false)?;
        Ok(())
    }

    pub(crate) fn write(&mut self, place: u64, piece: &[u8]) -> Result<(), Memory>
        ensures first { self.new.first ≡ self.old.first }
        ensures calls { made_calls self.new.calls
            ≡ noted (is_ok result) (Call.Write place piece.now) true (made_calls self.old.calls) }
        ensures ok { OnOk result (seen_of self.new
            ≡ overwritten place piece.now (seen_of self.old)) }
        ensures err { OnErr result (seen_of self.new ≡ seen_of self.old) }
        ensures crash { Follows (Torn place piece.now) (left_of self.old)
            (left_of self.new) }
        ensures time { Elapses (clock_in self.old) (clock_in self.new) (since_of self.old)
            (since_of self.new) (left_of self.new) }
        ensures clock { OnOk result (clock_in self.old < clock_in self.new) }
    {
        wake(&self.first, &mut self.live, &mut self.is_live)?;
        write_noted(&mut self.live, &mut self.calls, place, piece)
    }
}
