//! The log of a drill on its devices.

ghost use Rattle.std.specs.Prelude.{◌≡◌, ◌≤◌, false, length};
ghost use Rattle.issuance_log.specs.Words.{log_broken, log_disk};
ghost use Rattle.drill_core.specs.Parties.{IsLogDisk, IsLogDisk-prop, log_seen};

use crate::calls::{LogCall, call_log};
use disk_core::MemDisk;
use drill_parties::Stops;
use issuance_log::Log;
use mtc_io::Memory;
use std::alloc::Global;
use tree_core::TreeHash;

/// A log, open on a device in memory and another one for its tiles, of which it stores none; and
/// the stops that were made in its calls.
pub(crate) struct LogParty<H: TreeHash> {
    pub(crate) log: Log<H, MemDisk, MemDisk>,
    pub(crate) stops: Stops,
    ghost sound: { log_broken log ≡ false },
    ghost stands: { IsLogDisk H.TreeHash.hash (log_seen log) (log_disk log) } by { IsLogDisk-prop
        H.TreeHash.hash (log_seen log) (log_disk log) },
}

// A drop in one step: a derived one is proved field by field wherever a party is dropped.
impl<H: TreeHash> Drop for LogParty<H> {
    fn drop(self) {
        let LogParty { log: _, stops: _ } = self;
    }
}

impl<H: TreeHash> LogParty<H> {
    ghost use Rattle.std.specs.Prelude.{IfOk};
    ghost use Rattle.drill_core.specs.Calls.{log_called};
    ghost use Rattle.drill_core.specs.LogParties.{log_shown, log_stops};

    /// The call without a stop.
    pub(crate) fn done(self, alloc: Global, call: &LogCall) -> Result<LogParty<H>, Memory>
        ensures state { IfOk result (λ it.
            log_shown it ≡ log_called H.hash (log_shown self) call.now) }
        ensures stops { IfOk result (λ it. log_stops it ≡ log_stops self) }
    {
        let LogParty { mut log, stops } = self;
        if call_log(alloc, &mut log, call)? {
            Ok(LogParty { log, stops })
        } else {
            Err(Memory)
        }
    }

    /// The device of its journal, that of its tiles, and the stops so far.
    pub(crate) fn into_disks(self) -> (MemDisk, MemDisk, Stops)
        ensures journal { result.0 ≡ log_disk self.log }
        ensures stops { result.2 ≡ self.stops }
    {
        let LogParty { log, stops } = self;
        let (journal, tiles) = log.into_disks();
        (journal, tiles, stops)
    }
}

/// How many entries a log has.
pub(crate) fn size_of<H: TreeHash>(log: &Log<H, MemDisk, MemDisk>) -> u64
    ensures value { result ≡ length (log_seen log.now).entries }
    ensures some { 1 ≤ result }
{
    log.law_sound();
    log.size()
}
