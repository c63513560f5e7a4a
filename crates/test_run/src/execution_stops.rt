//! Stops: what the journals hold after one says which step it was, and the next run opens them.

use crate::difference::Difference;
use crate::execution::Execution;
use crate::execution_desk::WHOLE;
use crate::execution_party::{PARTIES, Party};
use crate::execution_plans::Plan;
use crate::execution_records::{ENTRY, count, kept_in};

impl Execution {
    // Whether the journal holds the pending record of its state.
    fn keeps(&self, party: Party) -> Result<bool, Difference> {
        let bytes = self.desk.bytes(party.file())?;
        match kept_in(self.alloc, bytes, party, self.state(party)?)? {
            Some(kept) => Ok(kept),
            None => Err(Difference::Records),
        }
    }

    // The party is opened again, by a command that reads.
    fn open(&mut self, party: Party) -> Result<(), Difference> {
        if party == Party::Cosigner {
            self.ask(party, "export s")?;
            return Ok(());
        }
        let size = count(self.state(party)?.durable.as_slice(), ENTRY).saturating_add(1);
        let line = format!(in self.alloc; "size {size}\nroot ")?;
        let printed = self.ask(party, "checkpoint j")?;
        if printed.as_slice().starts_with(line.as_bytes()) {
            Ok(())
        } else {
            Err(Difference::Printed)
        }
    }

    // The step is a stop that retained what the journal holds. The state has these records and no
    // more.
    fn stop(&mut self, party: Party) -> Result<(), Difference> {
        let kept = self.keeps(party)?;
        if self.state(party)?.pending.is_some() {
            let tally = &mut self.tally;
            if kept {
                tally.kept = tally.kept.saturating_add(1);
            } else {
                tally.gone = tally.gone.saturating_add(1);
            }
        }
        self.restart(party, kept)?;
        if self.keeps(party)? {
            return Err(Difference::Records);
        }
        self.open(party)
    }

    // Leaves one of the crash states of a file that a stop may leave.
    fn leave_crash_state(&mut self, name: &str) -> Result<(), Difference> {
        let pick = self.draws.below(65_536);
        let crash_state = self.desk.crash_state(name, pick)?;
        self.desk.leave(name, crash_state)
    }

    // The machine stops, and leaves a crash state of each file.
    fn leave_crash_states(&mut self) -> Result<(), Difference> {
        let is_tiled = self.desk.bytes("j.tiles").is_ok();
        for name in ["j", "s"] {
            self.leave_crash_state(name)?;
        }
        if is_tiled {
            self.leave_crash_state("j.tiles")?;
        }
        Ok(())
    }

    fn stop_all(&mut self) -> Result<(), Difference> {
        for party in PARTIES {
            self.stop(party)?;
        }
        Ok(())
    }

    /// The machine stops. Of each file it leaves a drawn crash state.
    pub fn stop_machine(&mut self) -> Result<(), Difference> {
        self.tally.stops = self.tally.stops.saturating_add(1);
        self.leave_crash_states()?;
        self.stop_all()
    }

    // A run, and crash states after it: whether one of before it is left of the party's journal.
    fn run_and_leave(&mut self, plan: &Plan) -> Result<bool, Difference> {
        self.begin_record(plan.party, plan.body.as_slice())?;
        self.desk.run(plan.words, WHOLE)?;
        let is_before = self.draws.below(2) == 0;
        self.leave_crash_states()?;
        Ok(is_before)
    }

    /// The machine stops in the middle of a run, before a byte of it goes out: of the party's
    /// journal it leaves a crash state of before the run, or of after it.
    pub fn stop_within(&mut self, plan: &Plan) -> Result<(), Difference> {
        self.tally.within = self.tally.within.saturating_add(1);
        let name = plan.party.file();
        self.desk.renew(name, None)?;
        let pick = self.draws.below(65_536);
        let before = self.desk.crash_state(name, pick)?;
        if self.run_and_leave(plan)? {
            self.desk.leave(name, before)?;
        }
        self.stop_all()
    }

    /// After a run that failed the machine stops, or the program alone.
    pub fn stop_after(&mut self, party: Party) -> Result<(), Difference> {
        if self.draws.below(2) == 0 {
            self.stop_machine()
        } else {
            self.stop(party)
        }
    }
}
