//! The calls of a disk in memory. Those that only read are counted, and not recorded.

ghost use Rattle.std.specs.Prelude.{◌≡◌, ◌<◌, ◌++◌, [], ◌∷◌, length, true, vec_len, vec_capacity};
ghost use Rattle.std.specs.Prelude.{IsTrue};
ghost use Rattle.disk_core.specs.Calls.{are_changes, calls_in};

use crate::memory::call::{Call, Change, Made};
use crate::memory::copies::copies;
use mtc_io::Memory;
use std::alloc::Global;

#[derive(Debug, Drop)]
pub(crate) struct Calls {
    pub(crate) changes: Vec<Change>,
    // How many calls that only read came after the last change.
    pub(crate) only_reads: u64,
    // How many calls there were.
    pub(crate) made: u64,
    ghost counted: { made ≡ length (calls_in changes.items only_reads) },
    ghost kept: { IsTrue (are_changes changes.items) },
}

// Appends a change to the others, within the capacity.
fn put(list: &mut Vec<Change>, change: Change)
    requires { vec_len list.old < vec_capacity list.old }
    ensures { list.new.items ≡ list.old.items ++ change ∷ [] }
{
    match list.push(change) {
        Ok(()) => {}
        Err(_full) => unreachable!(),
    }
}

impl Calls {
    ghost use Rattle.std.specs.Prelude.{is_ok, IfOk, OnOk, OnErr};
    ghost use Rattle.mtc_io.specs.Counts.{last_count};
    ghost use Rattle.disk_core.specs.Fuse.{is_change};
    ghost use Rattle.disk_core.specs.Replay.{noted};
    ghost use Rattle.disk_core.specs.Noted.{made_calls, HasCapacity};

    pub(crate) fn new(alloc: Global) -> Calls
        ensures { made_calls result ≡ [] }
    {
        Calls {
            changes: Vec::new(alloc),
            only_reads: 0,
            made: 0,
        }
    }

    // The number of the next call.
    pub(crate) fn len(&self) -> u64
        ensures { result ≡ length (made_calls self.now) }
    {
        self.made
    }

    // The same record once more.
    pub(crate) fn again(&self, alloc: Global) -> Result<Calls, Memory>
        ensures { IfOk result (λ it. made_calls it ≡ made_calls self.now) }
    {
        Ok(Calls {
            changes: copies(alloc, &self.changes)?,
            only_reads: self.only_reads,
            made: self.made,
        })
    }

    // A call that only reads. It is refused if no number is left for it.
    pub(crate) fn note_read(&mut self) -> Result<(), Memory>
        ensures calls { made_calls self.new
            ≡ noted (is_ok result) Call.Len true (made_calls self.old) }
        ensures changes { self.new.changes.items ≡ self.old.changes.items }
        ensures full { OnErr result (self.old.made ≡ last_count) }
    {
        if self.made == u64::MAX {
            return Err(Memory);
        }
        self.only_reads += 1;
        self.made += 1;
        Ok(())
    }

    // Reserves capacity for one change more, and tests that a number is left for it.
    pub(crate) fn reserve(&mut self) -> Result<(), Memory>
        ensures calls { made_calls self.new ≡ made_calls self.old }
        ensures capacity { OnOk result (HasCapacity self.new) }
    {
        if self.made == u64::MAX {
            return Err(Memory);
        }
        self.changes.reserve(1)?;
        Ok(())
    }

    // A change, within the capacity.
    #[tactic(auto, using(crate::proofs::Calls::change_more))]
    pub(crate) fn push(&mut self, call: Call, ok: bool)
        requires capacity { HasCapacity self.old }
        requires change { IsTrue (is_change call) }
        ensures { made_calls self.new
            ≡ made_calls self.old ++ record { call = call; ok = ok } ∷ [] }
    {
        let only_reads = self.only_reads;
        let made = Made { call, ok };
        put(&mut self.changes, Change { only_reads, made });
        self.only_reads = 0;
        self.made += 1;
    }

    // A change, unless no memory or no number is left for it.
    pub(crate) fn note(&mut self, call: Call, ok: bool) -> Result<(), Memory>
        requires { IsTrue (is_change call) }
        ensures { made_calls self.new ≡ noted (is_ok result) call ok (made_calls self.old) }
    {
        self.reserve()?;
        self.push(call, ok);
        Ok(())
    }
}
