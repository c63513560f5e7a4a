//! One run of a monitor.

ghost use Rattle.byte_formats.specs.Readings.{Answers};
ghost use Rattle.monitor_core.specs.Monitor.{monitor_of};
ghost use Rattle.monitor_core.specs.declared.error.MonitorError.TheVariants.{Memory as NoCapacity};

use crate::error::MonitorError;
use crate::findings::Found;
use crate::growth::Growth;
use crate::states::State;
use crate::watching::Watch;
use std::alloc::Global;
use tree_core::TreeHash;
use tree_proofs::EntryList;

/// One run: the new entries of the log with this id, which a consistency proof shows to stand
/// after those of the state, up to this size and root (RFC 9162, section 2.1.4). The report has a
/// line for each dNSName under a watched domain, and one for each entry that doesn't read; the
/// state that is found is that of all entries.
///
/// Refuses, the first that holds: `WrongLog` where the ids differ; `NotNewer` where the size isn't
/// above the state's; `ItemCount` where there aren't as many entries as the sizes differ;
/// `BadProof` where the proof doesn't pass for the state's size and root at the new ones, or, for a
/// state without entries, has hashes; `RootDiffers` where the list with the entries has another
/// root.
pub fn monitor<H: TreeHash, L: EntryList>(
    alloc: Global,
    state: &State,
    watch: &Watch,
    log: &[u8],
    size: u64,
    root: &[u8; 32],
    proof: &[[u8; 32]],
    entries: &L,
) -> Result<Found, MonitorError>
    ensures { Answers NoCapacity (monitor_of H.hash state.now watch.now log.now size root.now
        proof.now (L.texts entries.now)) result }
{
    let mut growth: Growth<H> = Growth::new(alloc, state);
    for index in 0..entries.len() {
        growth.take_entry(alloc, state, watch, entries.entry(index))?;
    }
    growth.found(alloc, state, log, size, root, proof)
}
