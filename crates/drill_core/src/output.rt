//! What the parties of a drill leave.

ghost use Rattle.std.specs.Prelude.{◌≡◌, ◌≤◌, ◌^◌, length, IfOk};
ghost use Rattle.drill_parties.specs.Disks.{FailsNone};
ghost use Rattle.drill_core.specs.LogParties.{log_shown};
ghost use Rattle.drill_core.specs.Parties.{IsLogDisk};
ghost use Rattle.drill_core.specs.Played.{all_stops};

use crate::log_party::{LogParty, size_of};
use crate::parties::DrillParties;
use disk_core::MemDisk;
use drill_parties::whole;
use mtc_io::Memory;
use tree_core::TreeHash;

/// The device of the log's journal, and how many entries and landmarks it has.
pub(crate) fn log_out<H: TreeHash>(party: LogParty<H>) -> Result<(MemDisk, u64, u64), Memory>
    ensures disk { IfOk result (λ x. IsLogDisk H.hash (log_shown party) x.0) }
    ensures fails_none { IfOk result (λ x. FailsNone x.0) }
    ensures entries { IfOk result (λ x. x.1 ≡ length (log_shown party).entries) }
    ensures landmarks { IfOk result (λ x. x.2 ≡ length (log_shown party).marks) }
{
    let entries = size_of(&party.log);
    let landmarks = party.log.marks().len() as u64;
    let (journal, _tiles, _stops) = party.into_disks();
    let disk = whole(journal)?;
    Ok((disk, entries, landmarks))
}

impl<H: TreeHash> DrillParties<H> {
    /// How many stops were made.
    pub(crate) fn stops(&self) -> u64
        requires { all_stops self.now ≤ 2 ^ 32 }
        ensures { result ≡ all_stops self.now }
    {
        let log = self.log.stops.count();
        log + self.cosigners.stops()
    }
}
