//! Tallies over journals: a machine of two kinds of records, opened, added to and opened again.

ghost use Rattle.std.specs.Prelude.{◌≡◌, IfOk, OnErr};
ghost use Rattle.state_journal.specs.Machines.{IsMadeBy};

use crate::tally::Tally;
use disk_core::MemDisk;
use journal_core::{AppendError, Journal, start};
use mtc_io::{Bytes, Memory};
use state_journal::{StateMachine, StateOpenError, StateRefused, append_to, open_state};
use std::alloc::Global;
use std::test::Fail;

type Opened = (Journal<MemDisk>, Tally);

type Answer = Result<Opened, StateRefused<MemDisk, MemDisk>>;

// A disk with these bytes, of which these calls fail.
fn disk(alloc: Global, bytes: &[u8], failing: &[u64]) -> Result<MemDisk, Memory> {
    let bytes = Bytes::copy_of(alloc, bytes)?;
    Ok(MemDisk::over(alloc, bytes, Vec::from_slice(alloc, failing)?))
}

// A disk with a journal of these records of one byte each, of which these calls fail then.
fn disk_of(alloc: Global, records: &[u8], failing: &[u64]) -> Result<Option<MemDisk>, Memory> {
    let Some((first, others)) = records.split_first() else {
        return Ok(None);
    };
    let Ok(mut journal) = start(alloc, disk(alloc, &[], &[])?, &[*first]) else {
        return Ok(None);
    };
    for record in others {
        if journal.append(&[*record]).is_err() {
            return Ok(None);
        }
    }
    let written = journal.into_disk();
    Ok(Some(disk(alloc, written.bytes(), failing)?))
}

// The tally on a disk, and a second disk with one byte.
fn open(alloc: Global, journal: MemDisk) -> Result<Answer, Memory>
    ensures { IfOk result (λ answer. IfOk answer
        (λ opened. IsMadeBy ⟦<Tally as StateMachine>⟧ opened.0 opened.1)) }
{
    let beside = disk(alloc, &[7], &[])?;
    Ok(open_state(alloc, journal, beside))
}

// How far the tally on a disk has counted, in how many records; or why it is refused, if the second
// disk comes back.
fn counted(alloc: Global, journal: MemDisk) -> Result<Result<(u8, u64), StateOpenError>, Memory> {
    match open(alloc, journal)? {
        Ok((_, tally)) => Ok(Ok((tally.total, tally.count))),
        Err(StateRefused { rest, why, .. }) => Ok(if rest.bytes() == [7].as_slice() {
            Err(why)
        } else {
            Ok((0, 0))
        }),
    }
}

// Adds a number, where the tally may count so far.
fn add(journal: &mut Journal<MemDisk>, tally: &mut Tally, number: u8) -> Result<bool, AppendError>
    requires { IsMadeBy ⟦<Tally as StateMachine>⟧ journal.old tally.old }
    ensures made { IsMadeBy ⟦<Tally as StateMachine>⟧ journal.new tally.new }
    ensures kept { OnErr result (tally.new ≡ tally.old) }
{
    if number > tally.limit - tally.total {
        return Ok(false);
    }
    append_to(journal, tally, &[number])?;
    Ok(true)
}

// Whether these numbers are added to a tally that has counted 3 of 9, one after the other.
fn adds(alloc: Global, first: u8, second: u8) -> Result<bool, Memory> {
    let Some(journal) = disk_of(alloc, &[9, 3], &[])? else {
        return Ok(false);
    };
    let Ok((mut journal, mut tally)) = open(alloc, journal)? else {
        return Ok(false);
    };
    if add(&mut journal, &mut tally, first) != Ok(true) || tally.count != 3 {
        return Ok(false);
    }
    if add(&mut journal, &mut tally, second) != Ok(true) || tally.count != 4 {
        return Ok(false);
    }
    let total = tally.total;
    let again = counted(alloc, journal.into_disk())?;
    Ok(again == Ok((total, 4)))
}

#[test]
fn a_tally_is_opened_and_added_to(rt: HostRuntime) -> Result<(), Fail> {
    assert!(rt; adds(rt.alloc(), 5, 1)?);
    assert!(rt; adds(rt.alloc(), 0, 6)?);
    assert!(rt; !adds(rt.alloc(), 5, 2)?);
    assert!(rt; !adds(rt.alloc(), 7, 0)?);
    Ok(())
}

#[test]
fn a_record_that_a_tally_does_not_allow_is_reported(rt: HostRuntime) -> Result<(), Fail> {
    let cases: [(&[u8], Result<(u8, u64), StateOpenError>); 3] = [
        (&[9, 3, 6], Ok((9, 3))),
        (&[9, 3, 7], Err(StateOpenError::BadRecord(2))),
        (&[2, 3, 7], Err(StateOpenError::BadRecord(1))),
    ];
    for (records, wanted) in cases {
        let journal = disk_of(rt.alloc(), records, &[])?.ok_or("the journal")?;
        assert!(rt; counted(rt.alloc(), journal)? == wanted, "of {records:?}");
    }
    Ok(())
}

// Whether an append of which this call of the disk fails is refused and leaves the tally as it
// was, also when it is asked again; and a crash leaves this tally or the next one.
fn fails_at(alloc: Global, call: u64) -> Result<bool, Memory> {
    let Some(journal) = disk_of(alloc, &[9, 3], &[call])? else {
        return Ok(false);
    };
    let Ok((mut journal, mut tally)) = open(alloc, journal)? else {
        return Ok(false);
    };
    if add(&mut journal, &mut tally, 5) != Err(AppendError::Failed) || tally.total != 3 {
        return Ok(false);
    }
    if add(&mut journal, &mut tally, 5) != Err(AppendError::Broken) || tally.count != 2 {
        return Ok(false);
    }
    let left = counted(alloc, journal.into_disk().crash(0)?)?;
    Ok(left == Ok((3, 2)) || left == Ok((8, 3)))
}

// An opening makes four calls of the disk, and an append four more.
#[test]
fn an_append_that_fails_leaves_the_tally(rt: HostRuntime) -> Result<(), Fail> {
    for call in 4..8 {
        assert!(rt; fails_at(rt.alloc(), call)?, "call {call}");
    }
    Ok(())
}
