//! The journal of a state machine that is opened.

ghost use Rattle.std.specs.Prelude.{◌≡◌, ◌<◌, [], false, None, option_map, MatchBool, MatchResult};
ghost use Rattle.std.specs.Prelude.{IfOk, IfErr, OnOk, Err, Ok};
ghost use Rattle.journal_core.specs.Openings.{opening_disk, read_list, is_ended, refusal};
ghost use Rattle.journal_core.specs.Openings.{bytes_left, next_offset};
ghost use Rattle.state_journal.specs.Causes.{HasReadOn, IsLeftAt, refusal_at, why_of};
ghost use Rattle.state_journal.specs.Machines.{HasOpenedMachine, HasTaken, HasTakenAll, IsMadeBy};
ghost use Rattle.state_journal.specs.Machines.{fold_of};

use crate::error::{Misfit, NotBegun, StateOpenError, StateRefused};
use crate::machine::StateMachine;
use disk_core::Disk;
use journal_core::{Journal, OpenError, Opening, Refused};
use std::alloc::Global;

// A record that is not taken is refused by its number.
fn refusal_at(number: u64, why: Misfit) -> StateOpenError
    ensures { result ≡ refusal_at number why }
{
    match why {
        Misfit::Unfit => StateOpenError::BadRecord(number),
        Misfit::Memory => StateOpenError::Open(OpenError::Memory),
    }
}

// The machine that the first record begins.
fn read_first<M: StateMachine, D: Disk>(
    alloc: Global,
    opening: &mut Opening<D>,
    seed: M::Seed,
) -> Result<M, NotBegun<M::Rest, StateOpenError>>
    requires list { read_list opening.old
        ≡ option_map (λ _. []) (D.contents (opening_disk opening.old)) }
    requires place { next_offset opening.old ≡ 16 }
    requires continues { (is_ended opening.old ≡ false) × (refusal opening.old ≡ None) }
    requires blank { M.IsBlank seed }
    ensures taken { IfOk result (λ it. HasTaken M.StateMachine it opening.new) }
    ensures rest { (was : M.Rest) → M.Becomes was (M.rest_of seed) → MatchResult result
        (λ it. M.Becomes was (M.rest it)) (λ e. IsLeftAt M.Becomes M.Stops was e.rest e.why) }
    ensures read { HasReadOn D.Disk (fold_of M.StateMachine) (opening_disk opening.old)
        (opening_disk opening.new) (why_of result) }
{
    match opening.next() {
        Ok(Some(body)) => match M::begin(alloc, seed, body) {
            Ok(machine) => Ok(machine),
            Err(NotBegun { rest, why }) => Err(NotBegun {
                rest,
                why: refusal_at(0, why),
            }),
        },
        Ok(None) => Err(NotBegun {
            rest: M::return_rest(seed),
            why: StateOpenError::BadRecord(0),
        }),
        Err(why) => Err(NotBegun {
            rest: M::return_rest(seed),
            why: StateOpenError::Open(why),
        }),
    }
}

// From a commit byte up to here on, eight bytes hold the offset after the record: a mark, four
// bytes of length and a body of at most 131,072 bytes follow it.
const FARTHEST: u64 = u64::MAX - 131_077;

// Reads the next record, which the machine takes: whether there was one. Where eight bytes may not
// hold the offset after it, the answer is that it can't be taken.
fn read_next<M: StateMachine, D: Disk>(
    opening: &mut Opening<D>,
    machine: &mut M,
) -> Result<bool, StateOpenError>
    requires { HasTaken M.StateMachine machine.old opening.old }
    ensures more { IfOk result (λ more. MatchBool more
        (HasTaken M.StateMachine machine.new opening.new)
        (HasTakenAll M.StateMachine machine.new opening.new)) }
    ensures shorter { IfOk result
        (λ more. MatchBool more (bytes_left opening.new < bytes_left opening.old) (Unit {0})) }
    ensures rest { (was : M.Rest) → M.Becomes was (M.rest machine.old) → MatchResult result
        (λ _. M.Becomes was (M.rest machine.new))
        (λ why. IsLeftAt M.Becomes M.Stops was (M.rest machine.new) why) }
    ensures read { HasReadOn D.Disk (fold_of M.StateMachine) (opening_disk opening.old)
        (opening_disk opening.new) result }
{
    let (number, place) = (opening.read_count(), opening.place());
    if place > FARTHEST {
        return Err(StateOpenError::Open(OpenError::Memory));
    }
    match opening.next() {
        Ok(Some(body)) => match machine.take(place, body) {
            Ok(()) => Ok(true),
            Err(why) => Err(refusal_at(number, why)),
        },
        Ok(None) => Ok(false),
        Err(why) => Err(StateOpenError::Open(why)),
    }
}

// The records after the first one, up to the end of the journal.
fn read_rest<M: StateMachine, D: Disk>(
    opening: &mut Opening<D>,
    machine: &mut M,
) -> Result<(), StateOpenError>
    requires { HasTaken M.StateMachine machine.old opening.old }
    ensures all { OnOk result (HasTakenAll M.StateMachine machine.new opening.new) }
    ensures rest { (was : M.Rest) → M.Becomes was (M.rest machine.old) → MatchResult result
        (λ _. M.Becomes was (M.rest machine.new))
        (λ why. IsLeftAt M.Becomes M.Stops was (M.rest machine.new) why) }
    ensures read { HasReadOn D.Disk (fold_of M.StateMachine) (opening_disk opening.old)
        (opening_disk opening.new) result }
{
    'records: loop {
        if !read_next(opening, machine)? {
            return Ok(());
        }
    }
}

// The machine of a file, of which no record was read yet.
fn read_machine<M: StateMachine, D: Disk>(
    alloc: Global,
    opening: &mut Opening<D>,
    seed: M::Seed,
) -> Result<M, NotBegun<M::Rest, StateOpenError>>
    requires list { read_list opening.old
        ≡ option_map (λ _. []) (D.contents (opening_disk opening.old)) }
    requires place { next_offset opening.old ≡ 16 }
    requires continues { (is_ended opening.old ≡ false) × (refusal opening.old ≡ None) }
    requires blank { M.IsBlank seed }
    ensures all { IfOk result (λ it. HasTakenAll M.StateMachine it opening.new) }
    ensures rest { (was : M.Rest) → M.Becomes was (M.rest_of seed) → MatchResult result
        (λ it. M.Becomes was (M.rest it)) (λ e. IsLeftAt M.Becomes M.Stops was e.rest e.why) }
    ensures read { HasReadOn D.Disk (fold_of M.StateMachine) (opening_disk opening.old)
        (opening_disk opening.new) (why_of result) }
{
    let mut machine = match read_first::<M, D>(alloc, opening, seed) {
        Ok(machine) => machine,
        Err(refused) => return Err(refused),
    };
    match read_rest(opening, &mut machine) {
        Ok(()) => Ok(machine),
        Err(why) => Err(NotBegun {
            rest: machine.into_rest(),
            why,
        }),
    }
}

/// Opens a journal with the machine that its records make. They are read and tested one by one.
///
/// Errors: what [`Opening::begin`] and [`Opening::next`] refuse; `BadRecord` at the first record
/// that breaks the rules, or where there is none; `Open(Memory)` where the machine is refused
/// memory, or stops for what it has in addition to its records, or where eight bytes may not hold
/// the offset after a record. Of the faults of the file the first is answered. The disk is
/// returned, and was only read. What is returned of the seed is what the records that were read
/// made of it.
pub fn open_state<M: StateMachine, D: Disk>(
    alloc: Global,
    disk: D,
    seed: M::Seed,
) -> Result<(Journal<D>, M), StateRefused<D, M::Rest>>
    requires { M.IsBlank seed }
    ensures opened { IfOk result (λ r. HasOpenedMachine M.StateMachine disk r.0 r.1) }
    ensures made { IfOk result (λ r. IsMadeBy M.StateMachine r.0 r.1) }
    ensures rest { (was : M.Rest) → M.Becomes was (M.rest_of seed) → MatchResult result
        (λ r. M.Becomes was (M.rest r.1)) (λ e. IsLeftAt M.Becomes M.Stops was e.rest e.why) }
    ensures err { IfErr result (λ e. HasReadOn {X = Unit {0}} D.Disk (fold_of M.StateMachine)
        disk e.disk (Err e.why)) }
{
    let mut opening = match Opening::begin(alloc, disk) {
        Ok(opening) => opening,
        Err(Refused { disk, why }) => {
            return Err(StateRefused {
                disk,
                rest: M::return_rest(seed),
                why: StateOpenError::Open(why),
            });
        }
    };
    match read_machine::<M, D>(alloc, &mut opening, seed) {
        Ok(machine) => Ok((opening.ready(), machine)),
        Err(NotBegun { rest, why }) => Err(StateRefused {
            disk: opening.into_disk(),
            rest,
            why,
        }),
    }
}
