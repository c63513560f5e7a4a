//! A sink in memory.

ghost use Rattle.std.specs.Prelude.{◌≡◌, Some, [], ◌==◌, ◌≤◌, ◌<◌, ◌&&◌, not, if◌then◌else◌};
ghost use Rattle.std.specs.Prelude.{length, min, IfOk, IsTrue, is_err};
ghost use Rattle.std.specs.List.{list_any};
ghost use Rattle.std.specs.Io.KnownBytes.{WriteAppends};
ghost use Rattle.mtc_io.specs.Counts.{HasCause, with_count};
ghost use Rattle.mtc_io.specs.Memory.{SinkState};

use crate::bytes::Bytes;
use crate::fault::Failed;
use crate::sink::Sink;
use std::alloc::Global;
use std::marker::Model;

/// A sink that retains what it takes, at most `per_call` bytes a call, and fails on the calls whose
/// numbers are listed, counted from 0. If it finds no memory it fails too, and counts that apart.
/// Contracts know the bytes taken.
#[derive(Debug, Drop)]
pub struct MemSink {
    bytes: Bytes,
    per_call: usize,
    calls: u64,
    failing: Vec<u64>,
    faults: u64,
    failed_allocations: u64,
}

impl Model for MemSink {
    ghost Value = { SinkState };

    ghost view = { λ s. record {
      taken = s.bytes;
      per_call = s.per_call;
      calls = s.calls;
      failing = s.failing.items;
      faults = s.faults;
      failed_allocations = s.failed_allocations;
    } };

    ghost invariant = { λ s. 0 < s.per_call };
}

impl MemSink {
    /// A sink that has taken nothing. It takes no memory.
    pub fn new(alloc: Global, per_call: usize, failing: Vec<u64>) -> MemSink
        requires { 0 < per_call }
        ensures { result ≡ record {
          taken = [];
          per_call = per_call;
          calls = 0;
          failing = failing.items;
          faults = 0;
          failed_allocations = 0;
        } }
    {
        MemSink {
            bytes: Bytes::new(alloc),
            per_call,
            calls: 0,
            failing,
            faults: 0,
            failed_allocations: 0,
        }
    }

    /// The bytes taken so far.
    pub fn taken(&self) -> &[u8]
        ensures { result.now ≡ self.now.taken }
    {
        self.bytes.as_slice()
    }

    /// How often it found no memory.
    pub fn failed_allocations(&self) -> u64
        ensures { result ≡ self.now.failed_allocations }
    {
        self.failed_allocations
    }
}

impl Sink for MemSink {
    ghost taken = { λ s. Some s.taken };

    ghost faults = { λ s. s.faults };

    fn write(&mut self, piece: &[u8]) -> Result<usize, Failed>
        ensures bound { IfOk result (λ count. count ≤ length piece.now) }
        ensures some { IfOk result (λ count. 0 < length piece.now → 0 < count) }
        ensures bytes { WriteAppends (Some self.old.taken) (Some self.new.taken) result piece.now }
        ensures cause { HasCause self.old.faults self.new.faults result }
        ensures counted { self.new.faults ≡ (if is_err result then with_count self.old.faults 1
            else self.old.faults) }
        ensures most { IfOk result (λ count. count ≡ min self.old.per_call (length piece.now)) }
        ensures listed { IsTrue (list_any (λ k. k == self.old.calls) self.old.failing)
            → IsTrue (is_err result) }
        ensures failed_allocations { self.new.failed_allocations ≡ (if is_err result
            && not (list_any (λ k. k == self.old.calls) self.old.failing)
            then with_count self.old.failed_allocations 1 else self.old.failed_allocations) }
        ensures calls { self.new.calls ≡ with_count self.old.calls 1 }
        ensures failing { self.new.failing ≡ self.old.failing }
        ensures per_call { self.new.per_call ≡ self.old.per_call }
    {
        let fails = self.failing.contains(&self.calls);
        self.calls = self.calls.saturating_add(1);
        if fails {
            self.faults = self.faults.saturating_add(1);
            return Err(Failed);
        }
        let count = self.per_call.min(piece.len());
        if self.bytes.append(&piece[..count]).is_err() {
            self.faults = self.faults.saturating_add(1);
            self.failed_allocations = self.failed_allocations.saturating_add(1);
            return Err(Failed);
        }
        Ok(count)
    }
}
