//! A disk in memory, whose bytes and crash states the model knows. It fails on the calls that its
//! maker lists, and can crash.

ghost use Rattle.std.specs.Prelude.{◌≡◌, ◌+◌, ◌≤◌, ◌<◌, [], length, Some, is_ok};
ghost use Rattle.std.specs.Prelude.{if◌then◌else◌, OnOk, OnErr, IfOk, IsTrue};
ghost use Rattle.mtc_io.specs.Counts.{HasCause};
ghost use Rattle.disk_core.specs.Disk.{overwritten, Torn, Follows, NoNew, Only, Elapses};
ghost use Rattle.disk_core.specs.History.{seen_of, left_of, clock_in, since_of};
ghost use Rattle.disk_core.specs.Calls.{are_changes};
ghost use Rattle.disk_core.specs.Noted.{made_calls};
ghost use Rattle.disk_core.specs.Plan.{ReadTurn, NotedTurn, PlanTurn};
ghost use Rattle.disk_core.specs.ReplayLaws.{contents_seen, contents_are, contents_length};
ghost use Rattle.disk_core.specs.ReplayLaws.{now_since};
ghost use Rattle.disk_core.specs.ReplayLaws.{since_now, since_bytes};

use crate::disk::Disk;
use crate::memory::call::{Call, Change};
use crate::memory::history::History;
use crate::memory::plan::Plan;
use mtc_io::{Bytes, Failed, Memory};
use std::alloc::Global;

/// A disk in memory. The model knows its bytes; it counts its calls, and fails those whose numbers
/// are listed; the first call has number 0. It records those that change the file. Calls that only
/// read are counted in it, so it doesn't grow with them. A call that finds no memory, or no number,
/// fails too and is counted apart; it takes no number and isn't in the record.
///
/// What the model knows is the replay of the record over what the disk held at first: a write that
/// is done is seen, and of each write since the last sync, a failed one too, a crash may leave what
/// it may leave of any.
#[derive(Debug)]
pub struct MemDisk {
    past: History,
    plan: Plan,
    known: u64,
    ghost there: { known ≤ length (seen_of past) },
}

// A drop in one step: a derived one is proved field by field wherever a value is dropped.
impl Drop for MemDisk {
    fn drop(self) {
        let MemDisk {
            past: _,
            plan: _,
            known: _,
        } = self;
    }
}

// A call that only reads.
fn note_read(plan: &mut Plan, past: &mut History) -> Result<(), Failed>
    ensures seen { seen_of past.new ≡ seen_of past.old }
    ensures crash { NoNew (left_of past.old) (left_of past.new) }
    ensures time { Elapses (clock_in past.old) (clock_in past.new) (since_of past.old)
        (since_of past.new) (left_of past.new) }
    ensures clock { OnOk result (clock_in past.old < clock_in past.new) }
    ensures cause { HasCause plan.old.faults plan.new.faults result }
    ensures turn { ReadTurn plan.old past.old (is_ok result) plan.new past.new }
{
    if plan.is_listed(past.calls.len()) {
        return match past.note_read() {
            Ok(()) => Err(plan.fail()),
            Err(Memory) => Err(plan.fail_allocation()),
        };
    }
    match past.note_read() {
        Ok(()) => Ok(()),
        Err(Memory) => Err(plan.fail_allocation()),
    }
}

// A sync, noted with its answer.
fn make_durable(plan: &mut Plan, past: &mut History) -> Result<(), Failed>
    ensures durable { OnOk result (Only (seen_of past.old) (left_of past.new)) }
    ensures seen { seen_of past.new ≡ seen_of past.old }
    ensures crash { NoNew (left_of past.old) (left_of past.new) }
    ensures time { Elapses (clock_in past.old) (clock_in past.new) (since_of past.old)
        (since_of past.new) (left_of past.new) }
    ensures clock { OnOk result (clock_in past.old < clock_in past.new) }
    ensures cause { HasCause plan.old.faults plan.new.faults result }
    ensures turn { NotedTurn plan.old past.old
        (record { call = Call.Sync; ok = is_ok result }) (is_ok result) plan.new past.new }
{
    if plan.is_listed(past.calls.len()) {
        return match past.note(Call::Sync, false) {
            Ok(()) => Err(plan.fail()),
            Err(Memory) => Err(plan.fail_allocation()),
        };
    }
    match past.make_durable() {
        Ok(()) => Ok(()),
        Err(Memory) => Err(plan.fail_allocation()),
    }
}

// A write, noted with its answer.
fn write(plan: &mut Plan, past: &mut History, place: u64, piece: &[u8]) -> Result<(), Failed>
    ensures ok { OnOk result (seen_of past.new ≡ overwritten place piece.now (seen_of past.old)) }
    ensures err { OnErr result (seen_of past.new ≡ seen_of past.old) }
    ensures crash { Follows (Torn place piece.now) (left_of past.old) (left_of past.new) }
    ensures time { Elapses (clock_in past.old) (clock_in past.new) (since_of past.old)
        (since_of past.new) (left_of past.new) }
    ensures clock { OnOk result (clock_in past.old < clock_in past.new) }
    ensures cause { HasCause plan.old.faults plan.new.faults result }
    ensures turn { NotedTurn plan.old past.old
        (record { call = Call.Write place piece.now; ok = is_ok result }) (is_ok result) plan.new
        past.new }
{
    if plan.is_listed(past.calls.len()) {
        return match past.fail_write(place, piece) {
            Ok(()) => Err(plan.fail()),
            Err(Memory) => Err(plan.fail_allocation()),
        };
    }
    match past.write(place, piece) {
        Ok(()) => Ok(()),
        Err(Memory) => Err(plan.fail_allocation()),
    }
}

impl MemDisk {
    ghost use Rattle.disk_core.specs.Memory.{bytes_of, crash_states_of, changes_of, known_of};
    ghost use Rattle.disk_core.specs.Memory.{made_of};
    ghost use Rattle.disk_core.specs.Memory.{failing_of, faults_of, failed_allocations_of, IsFresh};
    ghost use Rattle.disk_core.specs.Same.{SameDevice};

    /// An empty disk that fails the calls with these numbers.
    pub fn new(alloc: Global, failing: Vec<u64>) -> MemDisk
        ensures fresh { IsFresh [] result }
        ensures failing { failing_of result ≡ failing.items }
    {
        MemDisk::over(alloc, Bytes::new(alloc), failing)
    }

    /// A disk that holds these bytes, and leaves them after a crash.
    pub fn over(alloc: Global, bytes: Bytes, failing: Vec<u64>) -> MemDisk
        ensures fresh { IsFresh bytes result }
        ensures failing { failing_of result ≡ failing.items }
    {
        MemDisk {
            past: History::new(alloc, bytes),
            plan: Plan::new(failing),
            known: 0,
        }
    }

    /// A copy that reads alike and leaves the same after a crash. Its count of failures and its
    /// known length begin at 0; the numbers of its calls continue.
    pub fn open_copy(&self) -> Result<MemDisk, Memory>
        ensures same { IfOk result (λ it. SameDevice ⟦<MemDisk as Disk>⟧ self.now it) }
        ensures known { IfOk result (λ it. known_of it ≡ 0) }
        ensures made { IfOk result (λ it. made_of it ≡ made_of self.now) }
        ensures failing { IfOk result (λ it. failing_of it ≡ failing_of self.now) }
        ensures faults { IfOk result (λ it. faults_of it ≡ 0) }
        ensures failed_allocations { IfOk result (λ it. failed_allocations_of it ≡ 0) }
    {
        let alloc = *self.plan.failing.allocator();
        let failing = Vec::from_slice(alloc, &self.plan.failing)?;
        Ok(MemDisk {
            past: self.past.again(alloc)?,
            plan: Plan::new(failing),
            known: 0,
        })
    }

    /// A disk over one of its crash states, chosen by `pick`. Of each write since the last sync
    /// that was answered Ok nothing is left, all of it, its prefix alone, or its prefix with other
    /// bytes after it, but where it wrote what was there: two bits of `pick` choose, for each write
    /// the two above those of the one before it, and the two above these say the length of the
    /// prefix, in quarters. They are those that choose for the next write. The same pick gives the
    /// same crash state.
    pub fn crash(self, pick: u64) -> Result<MemDisk, Memory>
        ensures crash_state { IfOk result (λ it. crash_states_of self (bytes_of it)) }
        ensures fresh { IfOk result (λ it. IsFresh (bytes_of it) it) }
        ensures failing { IfOk result (λ it. failing_of it ≡ []) }
    {
        let alloc = *self.plan.failing.allocator();
        let crash_state = self.past.left(alloc, pick)?;
        Ok(MemDisk::over(alloc, crash_state, Vec::new(alloc)))
    }

    /// What a read gives.
    pub fn bytes(&self) -> &[u8]
        ensures { result.now ≡ bytes_of self.now }
    {
        self.past.bytes()
    }

    /// The calls so far that change the file, the oldest first, and how many that only read came
    /// before each.
    pub fn changes(&self) -> &[Change]
        ensures value { result.now ≡ changes_of self.now }
        ensures kept { IsTrue (are_changes result.now) }
    {
        self.past.calls.changes.as_slice()
    }

    /// How many calls its record has, which is the number of the next one.
    pub fn made(&self) -> u64
        ensures { result ≡ made_of self.now }
    {
        self.past.calls.len()
    }

    /// The numbers of the calls that fail.
    pub fn failing(&self) -> &[u64]
        ensures { result.now ≡ failing_of self.now }
    {
        self.plan.failing.as_slice()
    }

    /// The count of its failures: each call that fails adds one, up to the last value.
    pub fn faults(&self) -> u64
        ensures { result ≡ faults_of self.now }
    {
        self.plan.faults
    }

    /// The count of the failures that found no memory or no number: each adds one, up to the last
    /// value.
    pub fn failed_allocations(&self) -> u64
        ensures { result ≡ failed_allocations_of self.now }
    {
        self.plan.failed_allocations
    }
}

impl Disk for MemDisk {
    ghost contents = { λ m. Some (seen_of m.past) };

    ghost known = { λ m. m.known };

    ghost clock_at = { λ m. clock_in m.past };

    ghost may_leave = { λ m. left_of m.past };

    ghost left_since = { λ m. since_of m.past };

    ghost faults = { λ m. m.plan.faults };

    ghost turn = { λ m call ok n. PlanTurn m.plan m.past call ok n.plan n.past };

    fn len(&mut self) -> Result<u64, Failed> {
        note_read(&mut self.plan, &mut self.past)?;
        let length = self.past.bytes().len() as u64;
        self.known = self.known.max(length);
        Ok(length)
    }

    fn read_at(&mut self, place: u64, out: &mut [u8]) -> Result<(), Failed> {
        let size = out.len();
        note_read(&mut self.plan, &mut self.past)?;
        let start = place as usize;
        out.copy_from_slice(&self.past.bytes()[start..start + size]);
        Ok(())
    }

    fn write_at(&mut self, place: u64, bytes: &[u8]) -> Result<(), Failed> {
        write(&mut self.plan, &mut self.past, place, bytes)?;
        self.known = self.known.max(place + bytes.len() as u64);
        Ok(())
    }

    fn sync(&mut self) -> Result<(), Failed> {
        make_durable(&mut self.plan, &mut self.past)
    }

    ghost reads_crash_state = { λ m b is. contents_seen m.past.first (made_calls m.past.calls) b
        m.past.are_bytes is };

    ghost contents_bytes = { λ m b is. contents_are m.past.first (made_calls m.past.calls) b
        m.past.are_bytes is };

    ghost known_there = { λ m b is. contents_length m.known (seen_of m.past) b m.there is };

    ghost counts_now = { λ m t c le is. now_since m.past.first (made_calls m.past.calls) t c
        le is };

    ghost only_now = { λ m c is. since_now m.past.first (made_calls m.past.calls) c is };

    ghost left_bytes = { λ m t c is. since_bytes m.past.first (made_calls m.past.calls) t c
        m.past.are_bytes is };
}
