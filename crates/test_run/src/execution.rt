//! An execution: runs of the program over a file system, and with them the steps of the parties
//! that they were. After each run the file system is compared with the states of the history of
//! these steps.

use crate::difference::Difference;
use crate::execution_desk::{Desk, Outlet, Ran, WHOLE};
use crate::execution_draws::Draws;
use crate::execution_party::{PARTIES, Party, secret, starts};
use crate::execution_plans::Plan;
use crate::execution_records::{Text, kept_in, text_of};
use mtc_io::Bytes;
use party_history::{HistoryError, PartyStart, PartyState, PartyStep, history};
use std::alloc::Global;
use tree_core::Sha;

/// How many runs and stops ended so: what a party refused, what failed in the device, pending
/// records that a stop retained and that were gone, records that were durable and not released,
/// those that were released in part, and stops of the machine.
#[derive(Clone, Copy, Debug, PartialEq, Eq)]
pub struct Tally {
    pub refused: u64,
    pub failed: u64,
    pub kept: u64,
    pub gone: u64,
    pub silent: u64,
    pub cut: u64,
    pub stops: u64,
    pub within: u64,
}

// What a run printed of a record, all of it or a prefix.
#[derive(Drop)]
struct Printed {
    party: Party,
    text: Vec<u8>,
    is_whole: bool,
}

/// The file system, and the steps and states of the parties.
pub struct Execution {
    pub alloc: Global,
    pub draws: Draws,
    pub desk: Desk,
    pub tally: Tally,
    starts: [PartyStart; 2],
    steps: Vec<PartyStep>,
    states: Vec<PartyState>,
    printed: Vec<Printed>,
}

impl Printed {
    fn is_of(&self, party: Party) -> bool {
        self.party == party
    }
}

// A drop in one step: a derived one is proved field by field wherever a value is dropped.
impl Drop for Execution {
    fn drop(self) {
        let Execution {
            alloc: _,
            draws: _,
            desk: _,
            tally: _,
            starts: _,
            steps: _,
            states: _,
            printed: _,
        } = self;
    }
}

// Places the request of that name.
fn place_request(desk: &mut Desk, alloc: Global, name: &str) -> Result<(), Difference> {
    let request = format!(in alloc;
        "not_before = \"2026-01-01T00:00:00Z\"\nnot_after = \"2026-01-08T00:00:00Z\"\n\
         dns = [\"{name}.example\"]\n\
         key = \"MCowBQYDK2VwAyEAAAAAAAAAAAAAAAAAAAAAAAAAAAAAAAAAAAAAAAAAAAA=\"\n"
    )?;
    desk.place(name, request.as_bytes())
}

// Makes both parties, by two requests and the secret of the cosigner.
fn make_parties(desk: &mut Desk, alloc: Global) -> Result<(), Difference> {
    for name in ["a", "b"] {
        place_request(desk, alloc, name)?;
    }
    desk.place("f", secret())?;
    for words in [
        "init-log j 32473.1 2 16",
        "init-cosigner s 32473.2 32473.1 5 1 f",
    ] {
        let status = desk.run(words, WHOLE)?.status;
        if status != 0 {
            return Err(Difference::Status(status));
        }
    }
    Ok(())
}

// Whether the bytes begin with what is printed, and are all of it if it is whole.
fn is_printed(printed: &Printed, text: &Text) -> bool {
    for (found, wanted) in printed.text.iter().zip(text.prefix.as_slice()) {
        if found != wanted {
            return false;
        }
    }
    let length = printed.text.len();
    if printed.is_whole {
        length == text.length
    } else {
        0 < length && length < text.length
    }
}

// Whether this was printed of the record that was released at this index.
fn is_released(
    alloc: Global,
    state: &PartyState,
    index: usize,
    printed: &Printed,
) -> Result<bool, Difference> {
    let Some(number) = state.released.as_slice().get(index) else {
        return Ok(false);
    };
    let Some(bodies) = state.durable.as_slice().get(..*number as usize) else {
        return Ok(false);
    };
    let text = text_of(alloc, bodies)?;
    Ok(is_printed(printed, &text))
}

impl Execution {
    // A file system without a file.
    fn new(alloc: Global, seed: u64, tally: Tally) -> Result<Execution, Difference> {
        let starts = starts(alloc)?;
        Ok(Execution {
            alloc,
            draws: Draws::new(seed),
            desk: Desk::new(alloc),
            tally,
            starts,
            steps: Vec::new(alloc),
            states: Vec::new(alloc),
            printed: Vec::new(alloc),
        })
    }

    // Both parties are made.
    fn start(&mut self) -> Result<(), Difference> {
        make_parties(&mut self.desk, self.alloc)?;
        self.replay()?;
        self.compare()
    }

    /// A file system in which both parties were made.
    pub fn begin(alloc: Global, seed: u64, tally: Tally) -> Result<Execution, Difference> {
        let mut execution = Execution::new(alloc, seed, tally)?;
        execution.start()?;
        Ok(execution)
    }

    /// The state of a party after the steps so far.
    pub fn state(&self, party: Party) -> Result<&PartyState, Difference> {
        match self.states.as_slice().get(party.number() as usize) {
            Some(state) => Ok(state),
            None => Err(Difference::Records),
        }
    }

    // The states after the steps so far.
    fn replay(&mut self) -> Result<(), Difference> {
        match history::<Sha>(self.alloc, &self.starts, self.steps.as_slice()) {
            Ok(states) => {
                self.states = states;
                Ok(())
            }
            Err(HistoryError::NotAStep(number)) => Err(Difference::Step(number)),
            Err(HistoryError::Memory) => Err(Difference::Memory),
        }
    }

    /// A party stops, and is opened again.
    pub fn restart(&mut self, party: Party, kept: bool) -> Result<(), Difference> {
        let party = party.number();
        self.steps.push(PartyStep::Stop { party, kept })?;
        self.replay()
    }

    fn push_begin(&mut self, party: Party, body: &[u8]) -> Result<(), Difference> {
        let body = Bytes::copy_of(self.alloc, body)?;
        let party = party.number();
        self.steps.push(PartyStep::Begin { party, body })?;
        Ok(())
    }

    /// Begins a record after a stop, if the rules allow it.
    pub fn begin_record(&mut self, party: Party, body: &[u8]) -> Result<bool, Difference> {
        self.restart(party, false)?;
        let number = self.steps.len() as u64;
        self.push_begin(party, body)?;
        match self.replay() {
            Ok(()) => Ok(true),
            Err(why) if why == Difference::Step(number) => {
                self.steps.pop();
                Ok(false)
            }
            Err(why) => Err(why),
        }
    }

    // The record becomes durable, and nothing of it was printed.
    fn make_durable_silently(&mut self, party: Party, is_whole: bool) -> Result<(), Difference> {
        let party = party.number();
        self.steps.push(PartyStep::MakeDurable { party })?;
        self.tally.silent = self.tally.silent.saturating_add(1);
        if is_whole {
            Err(Difference::Printed)
        } else {
            Ok(())
        }
    }

    // The record becomes durable and is released.
    fn release(&mut self, party: Party, is_whole: bool) -> Result<(), Difference> {
        if !is_whole {
            self.tally.cut = self.tally.cut.saturating_add(1);
        }
        let party = party.number();
        self.steps.push(PartyStep::MakeDurable { party })?;
        self.steps.push(PartyStep::Release { party })?;
        Ok(())
    }

    // The record becomes durable, and is released if a byte of it was printed.
    fn make_durable(
        &mut self,
        party: Party,
        text: Vec<u8>,
        is_whole: bool,
    ) -> Result<(), Difference> {
        if text.is_empty() {
            return self.make_durable_silently(party, is_whole);
        }
        self.printed.push(Printed {
            party,
            text,
            is_whole,
        })?;
        self.release(party, is_whole)
    }

    // How a run ended. The record stays pending if its device failed.
    fn end(&mut self, party: Party, allowed: bool, ran: Ran) -> Result<(), Difference> {
        match (ran.status, allowed) {
            (0, true) => self.make_durable(party, ran.out, true),
            (6, true) => self.make_durable(party, ran.out, false),
            (5, _) if ran.out.is_empty() => {
                self.tally.failed = self.tally.failed.saturating_add(1);
                Ok(())
            }
            (4 | 9, false) if ran.out.is_empty() => {
                self.tally.refused = self.tally.refused.saturating_add(1);
                Ok(())
            }
            (status, _) => Err(Difference::Status(status)),
        }
    }

    // Whether a file has the records of a party's state, with the pending one or without it.
    fn is_of(&self, party: Party, bytes: &[u8]) -> Result<bool, Difference> {
        Ok(kept_in(self.alloc, bytes, party, self.state(party)?)?.is_some())
    }

    fn compare_crash_state(&mut self, party: Party) -> Result<(), Difference> {
        let pick = self.draws.below(65_536);
        let crash_state = self.desk.crash_state(party.file(), pick)?;
        if self.is_of(party, crash_state.as_slice())? {
            Ok(())
        } else {
            Err(Difference::CrashState)
        }
    }

    // The records of a party's journal are those of its state, with the pending one or without it;
    // and so are those of some crash states that a crash may leave.
    fn compare_records(&mut self, party: Party) -> Result<(), Difference> {
        if !self.is_of(party, self.desk.bytes(party.file())?)? {
            return Err(Difference::Records);
        }
        for _ in 0..4 {
            self.compare_crash_state(party)?;
        }
        Ok(())
    }

    // What the runs of a party printed are the records that were released.
    fn compare_printed(&self, party: Party) -> Result<(), Difference> {
        let state = self.state(party)?;
        let mut index = 0usize;
        for printed in &self.printed {
            if printed.is_of(party) {
                if !is_released(self.alloc, state, index, printed)? {
                    return Err(Difference::Printed);
                }
                index = index.saturating_add(1);
            }
        }
        if index == state.released.len() {
            Ok(())
        } else {
            Err(Difference::Printed)
        }
    }

    fn compare(&mut self) -> Result<(), Difference> {
        for party in PARTIES {
            self.compare_records(party)?;
            self.compare_printed(party)?;
        }
        Ok(())
    }

    // The number of the call that fails, below the limit; or none.
    fn failing(&mut self, limit: u64, chance: u64) -> Option<u64> {
        if self.draws.below(chance) == 0 {
            Some(self.draws.below(limit))
        } else {
            None
        }
    }

    fn outlet(&mut self) -> Outlet {
        Outlet {
            per_call: (self.draws.below(8) as usize).saturating_add(1),
            failing: self.failing(2, 4),
        }
    }

    // Runs a command that adds a record, if the rules allow it: the status.
    fn run_and_end(
        &mut self,
        plan: &Plan,
        outlet: Outlet,
        allowed: bool,
    ) -> Result<u8, Difference> {
        let ran = self.desk.run(plan.words, outlet)?;
        let status = ran.status;
        self.end(plan.party, allowed, ran)?;
        Ok(status)
    }

    // Runs a command that adds a record, and compares what it leaves: whether its device failed.
    fn perform(&mut self, plan: &Plan) -> Result<bool, Difference> {
        let party = plan.party;
        let failing = self.failing(10, 3);
        let outlet = self.outlet();
        self.desk.renew(party.file(), failing)?;
        let allowed = self.begin_record(party, plan.body.as_slice())?;
        let status = self.run_and_end(plan, outlet, allowed)?;
        if status == 5 && failing.is_none() || status == 6 && outlet.failing.is_none() {
            return Err(Difference::Status(status));
        }
        self.replay()?;
        self.compare()?;
        Ok(status == 5)
    }

    // One run of a command, and a stop after it if it failed, or by chance; or one in which the
    // machine stops.
    fn follow(&mut self, plan: &Plan) -> Result<(), Difference> {
        if self.draws.below(10) == 0 {
            return self.stop_within(plan);
        }
        if self.perform(plan)? {
            self.stop_after(plan.party)
        } else if self.draws.below(6) == 0 {
            self.stop_machine()
        } else {
            Ok(())
        }
    }

    /// The same of a drawn command.
    pub fn turn(&mut self) -> Result<(), Difference> {
        let plan = self.plan()?;
        self.follow(&plan)
    }
}
