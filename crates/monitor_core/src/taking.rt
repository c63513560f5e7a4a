//! A run that takes the new entries one after another.

ghost use Rattle.std.specs.Prelude.{◌≡◌, [], List};
ghost use Rattle.byte_formats.specs.Readings.{Answers};
ghost use Rattle.byte_formats.specs.Types.{Text};
ghost use Rattle.monitor_core.specs.Monitor.{monitor_of};
ghost use Rattle.monitor_core.specs.Watched.{HasWatched};
ghost use Rattle.monitor_core.specs.declared.error.MonitorError.TheVariants.{Memory as NoCapacity};

use crate::error::MonitorError;
use crate::findings::Found;
use crate::growth::Growth;
use crate::states::State;
use crate::watching::Watch;
use entry_stream::ItemFold;
use mtc_io::Memory;
use std::alloc::Global;
use std::marker::Model;
use tree_core::TreeHash;

/// A run of a monitor, as a fold: it takes the new entries one after another, and retains of them
/// the lines of their report and the peaks of the list with them. Their keys don't matter.
/// Contracts see the state that it begins with, the domains that it watches, how many entries it
/// took, these lines and these peaks.
#[derive(Drop)]
pub struct Run<H: TreeHash> {
    alloc: Global,
    state: State,
    watch: Watch,
    growth: Growth<H>,
}

impl<H: TreeHash> Model for Run<H> {
    ghost use Rattle.monitor_core.specs.Watched.{RunParts, run_with};

    ghost Value = { RunParts };

    ghost view = { λ r. run_with r.state r.watch r.growth };
}

impl<H: TreeHash> Run<H> {
    /// A run that took no entry so far. It takes no memory.
    pub fn new(alloc: Global, state: State, watch: Watch) -> Run<H>
        ensures state { result.state ≡ state }
        ensures watch { result.watch ≡ watch }
        ensures none { HasWatched H.hash result [] }
    {
        let growth = Growth::new(alloc, &state);
        Run {
            alloc,
            state,
            watch,
            growth,
        }
    }

    /// What was found, once all new entries were taken: the answer of [`monitor`](crate::monitor)
    /// to them, with its refusals in their order. No clause says anything of it after a refused
    /// `take`.
    pub fn found(
        self,
        log: &[u8],
        size: u64,
        root: &[u8; 32],
        proof: &[[u8; 32]],
    ) -> Result<Found, MonitorError>
        ensures { (entries : List Text) → HasWatched H.hash self entries
            → Answers NoCapacity (monitor_of H.hash self.state self.watch log.now size root.now
            proof.now entries) result }
    {
        self.growth
            .found(self.alloc, &self.state, log, size, root, proof)
    }
}

impl<H: TreeHash> ItemFold for Run<H> {
    ghost use Rattle.std.specs.Prelude.{List};
    ghost use Rattle.byte_formats.specs.Types.{Text};
    ghost use Rattle.monitor_core.specs.States.{MonitorState};
    ghost use Rattle.monitor_core.specs.Watched.{HasWatched};

    ghost has_taken = { λ run items. HasWatched H.TreeHash.hash run items.entries };

    ghost Purpose = { MonitorState × List Text };

    ghost purpose = { λ run. (run.state, run.watch) };

    fn take(&mut self, entry: &[u8], _spki: &[u8]) -> Result<(), Memory> {
        self.growth
            .take_entry(self.alloc, &self.state, &self.watch, entry)
    }
}
