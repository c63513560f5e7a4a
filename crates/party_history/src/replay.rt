//! The states of parties after a list of steps.

ghost use Rattle.std.specs.Prelude.{◌≡◌, map, IfOk};
ghost use Rattle.party_history.specs.Histories.{history_of, states_after};
ghost use Rattle.party_history.specs.Parties.{fresh_party, party_of_step};
ghost use Rattle.party_history.specs.Results.{AnswersHistory, HasMoved};
ghost use Rattle.party_history.specs.Rules.{may_follow as valid};

use crate::error::HistoryError;
use crate::moves::take_step;
use crate::start::PartyStart;
use crate::state::PartyState;
use crate::step::PartyStep;
use mtc_io::Memory;
use std::alloc::Global;
use tree_core::TreeHash;

// The party that takes a step.
fn party_of(step: &PartyStep) -> u32
    ensures { result ≡ party_of_step step.now }
{
    match step {
        PartyStep::Begin { party, body: _ } => *party,
        PartyStep::MakeDurable { party } => *party,
        PartyStep::Release { party } => *party,
        PartyStep::Stop { party, kept: _ } => *party,
    }
}

// All parties as they begin.
fn fresh_parties(alloc: Global, starts: &[PartyStart]) -> Result<Vec<PartyState>, Memory>
    ensures { IfOk result (λ states. states.items ≡ map fresh_party starts.now) }
{
    let mut states = Vec::new(alloc);
    for start in starts {
        states.push(PartyState::fresh(alloc, start.copy(alloc)?))?;
    }
    Ok(states)
}

// Takes a step of one of the parties. Answers whether it is allowed.
fn take_next<H: TreeHash>(
    alloc: Global,
    states: &mut Vec<PartyState>,
    step: &PartyStep,
) -> Result<bool, Memory>
    ensures { IfOk result (HasMoved (states_after (valid H.hash) states.old.items step.now)
        states.new.items) }
{
    match states.get_mut(party_of(step) as usize) {
        None => Ok(false),
        Some(state) => take_step::<H>(alloc, state, step),
    }
}

/// The states of all parties after these steps. Unless memory is refused, `NotAStep` comes exactly
/// if a step is not allowed, with the number of the first one. A step needs that its party is
/// there. A record may begin if none is pending, and the journal may hold it after the durable
/// ones; it becomes durable if it is pending; and the last durable record is released if it was not
/// released yet and no stop came since it became durable.
pub fn history<H: TreeHash>(
    alloc: Global,
    starts: &[PartyStart],
    steps: &[PartyStep],
) -> Result<Vec<PartyState>, HistoryError>
    ensures { AnswersHistory (λ states. states.items)
        (history_of (valid H.hash) starts.now steps.now) result }
{
    let mut states = fresh_parties(alloc, starts)?;
    let mut number = 0;
    for step in steps {
        if !take_next::<H>(alloc, &mut states, step)? {
            return Err(HistoryError::NotAStep(number));
        }
        number += 1;
    }
    Ok(states)
}
