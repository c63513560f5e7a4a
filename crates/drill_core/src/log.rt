//! The log of a drill.

ghost use Rattle.std.specs.Prelude.{◌≡◌, ◌+◌, List, [], ◌∷◌, length, Ok, IfOk};
ghost use Rattle.byte_formats.specs.Types.{Text};
ghost use Rattle.disk_core.specs.Memory.{bytes_of, crash_states_of};
ghost use Rattle.journal_core.specs.Format.{Represents};
ghost use Rattle.issuance_log.specs.Folds.{LogState, log_of, new_log, view_in, with_mark};
ghost use Rattle.authority_core.specs.Issues.{issued_log};
ghost use Rattle.drill_core.specs.Calls.{IsLogWith, count_in, log_called};
ghost use Rattle.drill_core.specs.Entries.{log_settings, request_for};
ghost use Rattle.drill_core.specs.LogParties.{log_shown, log_stops};
ghost use Rattle.drill_core.specs.Parties.{IsEither, IsLeft};
ghost use Rattle.drill_core.specs.Played.{issued_to};
ghost use Rattle.drill_parties.specs.Rounds.{stops_in};

use crate::calls::{LogCall, call_log, open_log};
use crate::log_party::{LogParty, size_of};
use crate::requests::request_for;
use disk_core::{Fuse, MemDisk};
use drill_parties::{LOG, Stop, Stops, Turn, Turns, id_of};
use issuance_log::{Log, LogSettings, create};
use mtc_io::Memory;
use std::alloc::Global;
use tree_core::TreeHash;

// So many landmarks of the log are active, and it has so many entries at most.
const ACTIVE: u32 = 4;

const LIMIT: u32 = 64;

// The settings of the log.
fn settings_of(alloc: Global) -> Result<LogSettings, Memory>
    ensures { IfOk result (λ settings. settings ≡ log_settings) }
{
    Ok(LogSettings {
        id: id_of(alloc, LOG)?,
        max_active: ACTIVE,
        limit: LIMIT,
    })
}

// A log on a device that represents its records, and one for its tiles, with the stops so far.
fn opened<H: TreeHash>(
    alloc: Global,
    disk: MemDisk,
    tiles: MemDisk,
    stops: Stops,
) -> Result<LogParty<H>, Memory>
    ensures state { IfOk result (λ it. (list : List Text) (s : LogState)
        → Represents (bytes_of disk) list → log_of H.hash list ≡ Ok s → log_shown it ≡ s) }
    ensures stops { IfOk result (λ it. log_stops it ≡ length stops.made.items) }
{
    Ok(LogParty {
        log: open_log(alloc, disk, tiles)?,
        stops,
    })
}

// The log with the device of its journal under a fuse, and the stops so far.
fn fused<H: TreeHash>(
    alloc: Global,
    party: LogParty<H>,
    passes: u64,
) -> Result<(Log<H, Fuse<MemDisk>, MemDisk>, Stops), Memory>
    ensures state { IfOk result (λ x. IsLogWith H.hash (log_shown party) x.0) }
    ensures stops { IfOk result (λ x. length x.1.made.items ≡ log_stops party) }
{
    let (disk, tiles, stops) = party.into_disks();
    let fuse = Fuse::new(disk, passes);
    let log = open_log(alloc, fuse, tiles)?;
    log.law_sound();
    Ok((log, stops))
}

// What a call leaves of the device under the fuse, and of that of the tiles, and whether it was
// done. It may find no memory.
fn halted<H: TreeHash>(
    alloc: Global,
    log: Log<H, Fuse<MemDisk>, MemDisk>,
    call: &LogCall,
) -> Result<(MemDisk, MemDisk, bool), Memory>
    ensures { IfOk result (λ left. (s : LogState) → IsLogWith H.hash s log
        → IsLeft H.hash call.now s (crash_states_of left.0)) }
{
    let mut log = log;
    let done = call_log(alloc, &mut log, call)?;
    let (fuse, tiles) = log.into_disks();
    let left = fuse.into_inner();
    if left.failed_allocations() > 0 {
        return Err(Memory);
    }
    Ok((left, tiles, done))
}

// Makes the call under a fuse, and opens the log again on a crash state of what is left of each
// device. No other function counts a stop.
fn stopped<H: TreeHash>(
    alloc: Global,
    party: LogParty<H>,
    call: &LogCall,
    stop: Stop,
) -> Result<LogParty<H>, Memory>
    ensures state { IfOk result (λ it. IsEither H.hash call.now (log_shown party) (log_shown it)) }
    ensures stops { IfOk result (λ it. log_stops it ≡ log_stops party + 1) }
{
    let (log, mut stops) = fused(alloc, party, stop.passes)?;
    let (left, tiles, done) = halted(alloc, log, call)?;
    let crash_state = left.crash(stop.pick)?;
    let tiles = tiles.crash(stop.pick)?;
    stops.add(stop, done)?;
    opened(alloc, crash_state, tiles, stops)
}

impl<H: TreeHash> LogParty<H> {
    /// A new log on an empty device, and another empty one for its tiles.
    pub(crate) fn create(alloc: Global) -> Result<LogParty<H>, Memory>
        ensures state { IfOk result (λ it. log_shown it ≡ new_log log_settings) }
        ensures stops { IfOk result (λ it. log_stops it ≡ 0) }
    {
        let settings = settings_of(alloc)?;
        let disk = MemDisk::new(alloc, Vec::new(alloc));
        match create(alloc, disk, &settings) {
            Ok(journal) => {
                let tiles = MemDisk::new(alloc, Vec::new(alloc));
                opened(alloc, journal.into_disk(), tiles, Stops::new(alloc))
            }
            Err(_) => Err(Memory),
        }
    }

    // How many entries it has, or how many landmarks, by the kind of the call.
    fn count(&self, call: &LogCall) -> u64
        ensures { result ≡ count_in (log_shown self.now) call.now }
    {
        match call {
            LogCall::Issue(_) => size_of(&self.log),
            LogCall::Mark => self.log.marks().len() as u64,
        }
    }

    // The call, with a stop or without one. After a stop it is made again, unless its record was
    // recovered.
    fn asked(self, alloc: Global, call: &LogCall, turn: Turn) -> Result<LogParty<H>, Memory>
        ensures state { IfOk result (λ it.
            log_shown it ≡ log_called H.hash (log_shown self) call.now) }
        ensures stops { IfOk result (λ it. log_stops it ≡ log_stops self + stops_in (turn ∷ [])) }
    {
        let Some(stop) = turn else {
            return self.done(alloc, call);
        };
        let before = self.count(call);
        let mut party = stopped(alloc, self, call, stop)?;
        if before < party.count(call) {
            party.stops.recover();
            Ok(party)
        } else {
            party.done(alloc, call)
        }
    }

    /// Issues the next entry.
    pub(crate) fn issue(self, alloc: Global, turn: Turn) -> Result<LogParty<H>, Memory>
        ensures state { IfOk result (λ it. log_shown it
            ≡ issued_log H.hash (view_in (log_shown self))
            (request_for (length (log_shown self).entries)) (log_shown self)) }
        ensures stops { IfOk result (λ it. log_stops it ≡ log_stops self + stops_in (turn ∷ [])) }
    {
        let request = request_for(alloc, size_of(&self.log))?;
        self.asked(alloc, &LogCall::Issue(request), turn)
    }

    /// Issues an entry for each turn.
    #[tactic(auto, unfolding(crate::specs::Played::issued_to))]
    pub(crate) fn issue_all(self, alloc: Global, turns: &Turns) -> Result<LogParty<H>, Memory>
        ensures state { IfOk result (λ it. log_shown it
            ≡ issued_to H.hash (length turns.now) (log_shown self)) }
        ensures stops { IfOk result (λ it. log_stops it ≡ log_stops self + stops_in turns.now) }
    {
        let mut party = self;
        for turn in turns.as_slice() {
            party = party.issue(alloc, *turn)?;
        }
        Ok(party)
    }

    /// Sets a landmark.
    pub(crate) fn mark(self, alloc: Global, turn: Turn) -> Result<LogParty<H>, Memory>
        ensures state { IfOk result (λ it. log_shown it ≡ with_mark (log_shown self)) }
        ensures stops { IfOk result (λ it. log_stops it ≡ log_stops self + stops_in (turn ∷ [])) }
    {
        self.asked(alloc, &LogCall::Mark, turn)
    }
}
