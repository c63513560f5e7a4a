//! Which calls of a disk in memory fail, and how many have.

ghost use Rattle.std.specs.Prelude.{◌≡◌, ◌≤◌, ◌↔◌, Contains, IsTrue};
ghost use Rattle.mtc_io.specs.Counts.{Rose, with_count};

use mtc_io::Failed;

/// The numbers of the calls that fail, the failures so far, and those of them that found no memory
/// or no number.
#[derive(Debug, Drop)]
pub(crate) struct Plan {
    pub(crate) failing: Vec<u64>,
    pub(crate) faults: u64,
    pub(crate) failed_allocations: u64,
}

impl Plan {
    pub(crate) fn new(failing: Vec<u64>) -> Plan
        ensures { result ≡ record { failing = failing; faults = 0; failed_allocations = 0 } }
    {
        Plan {
            failing,
            faults: 0,
            failed_allocations: 0,
        }
    }

    // The call with this number fails.
    pub(crate) fn is_listed(&self, number: u64) -> bool
        ensures { IsTrue result ↔ Contains self.now.failing.items number }
    {
        self.failing.contains(&number)
    }

    // A listed call fails.
    pub(crate) fn fail(&mut self) -> Failed
        ensures failing { self.new.failing ≡ self.old.failing }
        ensures later { self.old.faults ≤ self.new.faults }
        ensures failed { Rose self.old.faults self.new.faults }
        ensures faults { self.new.faults ≡ with_count self.old.faults 1 }
        ensures failed_allocations { self.new.failed_allocations ≡ self.old.failed_allocations }
    {
        self.faults = self.faults.saturating_add(1);
        Failed
    }

    // The call finds no memory, or no number is left.
    pub(crate) fn fail_allocation(&mut self) -> Failed
        ensures failing { self.new.failing ≡ self.old.failing }
        ensures later { self.old.faults ≤ self.new.faults }
        ensures failed { Rose self.old.faults self.new.faults }
        ensures faults { self.new.faults ≡ with_count self.old.faults 1 }
        ensures failed_allocations { self.new.failed_allocations
            ≡ with_count self.old.failed_allocations 1 }
    {
        self.faults = self.faults.saturating_add(1);
        self.failed_allocations = self.failed_allocations.saturating_add(1);
        Failed
    }
}
