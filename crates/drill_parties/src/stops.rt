//! The stops that were made in the calls of a party.

use crate::turns::Stop;
use mtc_io::Memory;
use std::alloc::Global;

/// The stops in the calls of a party, and what came of them in numbers.
#[derive(Debug, Drop)]
pub struct Stops {
    pub made: Vec<Stop>,
    /// So many of the calls that were stopped did not answer Ok.
    pub unfinished: u64,
    /// After so many of them the record of the call was there when the party was opened again.
    /// Calls that sign are not counted here.
    pub recovered: u64,
}

impl Stops {
    ghost use Rattle.std.specs.Prelude.{◌≡◌, [], ◌∷◌, ◌++◌, length, if◌then◌else◌, OnOk};
    ghost use Rattle.mtc_io.specs.Counts.{with_count};

    /// None so far.
    pub fn new(alloc: Global) -> Stops
        ensures made { result.made.items ≡ [] }
        ensures unfinished { result.unfinished ≡ 0 }
        ensures recovered { result.recovered ≡ 0 }
    {
        Stops {
            made: Vec::new(alloc),
            unfinished: 0,
            recovered: 0,
        }
    }

    /// One stop more, in a call that answered Ok or didn't.
    pub fn add(&mut self, stop: Stop, answered: bool) -> Result<(), Memory>
        ensures made { OnOk result (self.new.made.items ≡ self.old.made.items ++ stop ∷ []) }
        ensures unfinished { OnOk result (self.new.unfinished
            ≡ (if answered then self.old.unfinished else with_count self.old.unfinished 1)) }
        ensures recovered { self.new.recovered ≡ self.old.recovered }
    {
        self.made.push(stop)?;
        if !answered {
            self.unfinished = self.unfinished.saturating_add(1);
        }
        Ok(())
    }

    /// How many were made.
    pub fn count(&self) -> u64
        ensures { result ≡ length self.now.made.items }
    {
        self.made.len() as u64
    }

    /// The record of a call that was stopped is there.
    pub fn recover(&mut self)
        ensures made { self.new.made ≡ self.old.made }
        ensures unfinished { self.new.unfinished ≡ self.old.unfinished }
        ensures recovered { self.new.recovered ≡ with_count self.old.recovered 1 }
    {
        self.recovered = self.recovered.saturating_add(1);
    }
}
