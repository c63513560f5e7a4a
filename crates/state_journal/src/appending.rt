//! A record more of a machine's journal.

ghost use Rattle.std.specs.Prelude.{◌≡◌, ◌↔◌, ◌≤◌, ◌<◌, ◌+◌, max, length, false, is_some};
ghost use Rattle.std.specs.Prelude.{Some, IsTrue, IsErrOf, OnErr};
ghost use Rattle.journal_core.specs.Ends.{durable_records};
ghost use Rattle.journal_core.specs.Format.{most_bytes};
ghost use Rattle.journal_core.specs.Words.{disk_of, end_of, is_broken};
ghost use Rattle.state_journal.specs.Machines.{HasTakenAppended, IsMadeBy};

use crate::machine::StateMachine;
use disk_core::Disk;
use journal_core::{AppendError, Journal};

/// Appends a record that the machine allows and has capacity for, and then the machine takes it. At
/// Ok a crash leaves the records with it. At any time of the call it leaves the old records, or
/// these and the new one, unless an append had failed before.
///
/// Errors: what [`Journal::append`] refuses. The machine is as it was then, and is what the records
/// before the end of the journal make.
pub fn append_to<M: StateMachine, D: Disk>(
    journal: &mut Journal<D>,
    machine: &mut M,
    body: &[u8],
) -> Result<(), AppendError>
    requires some { 1 ≤ length body.now }
    requires few { length body.now ≤ 131072 }
    requires made { IsMadeBy M.StateMachine journal.old machine.old }
    requires allowed { IsTrue (is_some (M.takes (M.state machine.old) body.now)) }
    requires capacity { M.HasCapacity machine.old body.now }
    ensures made { IsMadeBy M.StateMachine journal.new machine.new }
    ensures appends { (next : M.State) → M.takes (M.state machine.old) body.now ≡ Some next
        → HasTakenAppended M.StateMachine body.now journal.old machine.old journal.new machine.new
        result next }
    ensures broken { IsErrOf result AppendError.Broken ↔ IsTrue (is_broken journal.old) }
    ensures full { IsErrOf result AppendError.Full ↔ (is_broken journal.old ≡ false)
        × (most_bytes < end_of journal.old + 5 + length body.now) }
    ensures records { OnErr result (durable_records journal.new ≡ durable_records journal.old) }
    ensures machine { OnErr result (machine.new ≡ machine.old) }
    ensures reach { D.known (disk_of journal.new)
        ≤ max (end_of journal.old + 5 + length body.now) (D.known (disk_of journal.old)) }
    ensures rest { M.rest machine.new ≡ M.rest machine.old }
{
    let place = journal.end() - 1;
    journal.append(body)?;
    match machine.take(place, body) {
        Ok(()) => Ok(()),
        Err(_) => unreachable!(),
    }
}
