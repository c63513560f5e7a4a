//! A source in memory.

ghost use Rattle.std.specs.Prelude.{◌≡◌, Some, ◌+◌, ◌==◌, ◌≤◌, ◌<◌, if◌then◌else◌, length, take};
ghost use Rattle.std.specs.Prelude.{min, drop, IfOk, is_err};
ghost use Rattle.std.specs.List.{list_any};
ghost use Rattle.std.specs.Io.KnownBytes.{ReadConsumes};
ghost use Rattle.mtc_io.specs.Counts.{HasCause, with_count};
ghost use Rattle.mtc_io.specs.Memory.{SourceState};

use crate::bytes::Bytes;
use crate::fault::Failed;
use crate::source::Source;
use std::marker::Model;

/// A source over bytes in memory, which fails on the calls whose numbers are listed, counted from
/// 0. Contracts know the bytes left.
#[derive(Debug, Drop)]
pub struct MemSource {
    bytes: Bytes,
    place: usize,
    calls: u64,
    failing: Vec<u64>,
    faults: u64,
}

impl Model for MemSource {
    ghost Value = { SourceState };

    ghost view = { λ s. record {
      left = drop s.place s.bytes;
      calls = s.calls;
      failing = s.failing.items;
      faults = s.faults;
    } };

    ghost invariant = { λ s. s.place ≤ length s.bytes };
}

impl MemSource {
    /// A source that gives these bytes and fails on these calls. It takes no memory.
    pub fn new(bytes: Bytes, failing: Vec<u64>) -> MemSource
        ensures { result ≡ record { left = bytes; calls = 0; failing = failing.items; faults = 0 } }
    {
        MemSource {
            bytes,
            place: 0,
            calls: 0,
            failing,
            faults: 0,
        }
    }

    /// The count of its failures: each call that fails adds one, up to the last value.
    pub fn faults(&self) -> u64
        ensures { result ≡ self.now.faults }
    {
        self.faults
    }
}

impl Source for MemSource {
    ghost left = { λ s. Some s.left };

    ghost faults = { λ s. s.faults };

    fn read(&mut self, into: &mut [u8]) -> Result<usize, Failed>
        ensures bound { IfOk result (λ count. count ≤ length into.new) }
        ensures bytes { ReadConsumes (Some self.old.left) (Some self.new.left) result into.new }
        ensures cause { HasCause self.old.faults self.new.faults result }
        ensures counted { self.new.faults ≡ (if is_err result then with_count self.old.faults 1
            else self.old.faults) }
        ensures most { IfOk result (λ count. count ≡ min (length self.old.left) (length into.new)) }
        ensures listed { is_err result ≡ list_any (λ k. k == self.old.calls) self.old.failing }
        ensures calls { self.new.calls ≡ with_count self.old.calls 1 }
        ensures failing { self.new.failing ≡ self.old.failing }
    {
        let fails = self.failing.contains(&self.calls);
        self.calls = self.calls.saturating_add(1);
        if fails {
            self.faults = self.faults.saturating_add(1);
            return Err(Failed);
        }
        let count = copy_prefix(&self.bytes.as_slice()[self.place..], into);
        self.place += count;
        Ok(count)
    }
}

// Copies as many bytes as there are and as fit into a prefix of `into`, and answers how many.
fn copy_prefix(from: &[u8], into: &mut [u8]) -> usize
    ensures count { result ≡ min (length from.now) (length into.old) }
    ensures bytes { take result into.new ≡ take result from.now }
{
    let count = from.len().min(into.len());
    into[..count].copy_from_slice(&from[..count]);
    count
}
