//! The steps of one party.

ghost use Rattle.std.specs.Prelude.{◌≡◌, is_some, IfOk, OnOk};
ghost use Rattle.party_history.specs.Histories.{if_allowed, may_begin, moved};
ghost use Rattle.party_history.specs.Parties.{begin, release, make_durable, stop};
ghost use Rattle.party_history.specs.Results.{HasMoved};
ghost use Rattle.party_history.specs.Rules.{may_follow as valid};

use crate::rules::may_follow;
use crate::state::PartyState;
use crate::step::PartyStep;
use mtc_io::{Bytes, Memory};
use std::alloc::Global;
use tree_core::TreeHash;

// Begins a record, if it may be pending.
fn begin<H: TreeHash>(alloc: Global, state: &mut PartyState, body: &Bytes) -> Result<bool, Memory>
    ensures { IfOk result (HasMoved (if_allowed (may_begin (valid H.hash) state.old body.now)
        (begin body.now state.old)) state.new) }
{
    if state.pending.is_some() {
        return Ok(false);
    }
    if !may_follow::<H>(
        alloc,
        &state.start,
        state.durable.as_slice(),
        body.as_slice(),
    )? {
        return Ok(false);
    }
    state.pending = Some(Bytes::copy_of(alloc, body.as_slice())?);
    Ok(true)
}

// The pending record becomes durable, if there is one.
fn make_durable(state: &mut PartyState) -> Result<bool, Memory>
    ensures { IfOk result (HasMoved
        (if_allowed (is_some state.old.pending) (make_durable state.old)) state.new) }
{
    match state.pending.take() {
        None => Ok(false),
        Some(body) => {
            state.durable.push(body)?;
            state.may_release = true;
            Ok(true)
        }
    }
}

// The last durable record is released, if it may be.
fn release(state: &mut PartyState) -> Result<bool, Memory>
    ensures { IfOk result
        (HasMoved (if_allowed state.old.may_release (release state.old)) state.new) }
{
    if !state.may_release {
        return Ok(false);
    }
    state.released.push(state.durable.len() as u64)?;
    state.may_release = false;
    Ok(true)
}

// The party stops.
fn stop(state: &mut PartyState, kept: bool) -> Result<(), Memory>
    ensures { OnOk result (state.new ≡ stop kept state.old) }
{
    if let Some(body) = state.pending.take() {
        if kept {
            state.durable.push(body)?;
        }
    }
    state.may_release = false;
    Ok(())
}

/// Takes a step of a party. Answers whether it is allowed; where it is not, the state is not said.
pub(crate) fn take_step<H: TreeHash>(
    alloc: Global,
    state: &mut PartyState,
    step: &PartyStep,
) -> Result<bool, Memory>
    ensures { IfOk result (HasMoved (moved (valid H.hash) state.old step.now) state.new) }
{
    match step {
        PartyStep::Begin { party: _, body } => begin::<H>(alloc, state, body),
        PartyStep::MakeDurable { party: _ } => make_durable(state),
        PartyStep::Release { party: _ } => release(state),
        PartyStep::Stop { party: _, kept } => {
            stop(state, *kept)?;
            Ok(true)
        }
    }
}
