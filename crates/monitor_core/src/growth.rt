//! What comes of the new entries of a log, which are taken one after another.

ghost use Rattle.std.specs.Prelude.{◌≡◌, ◌+◌, ◌^◌, ◌<◌, [], ◌∷◌, ◌++◌, List, OnOk, IfErr, Some};
ghost use Rattle.std.specs.Prelude.{None};
ghost use Rattle.byte_formats.specs.Readings.{Answers};
ghost use Rattle.byte_formats.specs.Types.{Text};
ghost use Rattle.entry_stream.specs.Streams.{CanTakeMore};
ghost use Rattle.tree_peaks.specs.Peaks.{root_of_peaks};
ghost use Rattle.monitor_core.specs.Monitor.{monitor_of, refusal_by};
ghost use Rattle.monitor_core.specs.Watched.{HasWatched, run_with};
ghost use Rattle.monitor_core.specs.declared.error.MonitorError.TheVariants.{Memory as NoCapacity};

use crate::error::MonitorError;
use crate::findings::Found;
use crate::lines::Line;
use crate::reporting::put_entry;
use crate::states::State;
use crate::watching::Watch;
use mtc_io::Memory;
use std::alloc::Global;
use std::marker::Model;
use tree_core::{TreeHash, leaf};
use tree_peaks::{Peaks, root_of_peaks};
use tree_proofs::Checkpoint;

/// How many entries were taken, the lines of their report, and the peaks of the list with them.
#[derive(Drop)]
pub(crate) struct Growth<H: TreeHash> {
    count: u64,
    lines: Vec<Line>,
    peaks: Peaks<H>,
}

impl<H: TreeHash> Model for Growth<H> {
    ghost use Rattle.monitor_core.specs.Watched.{GrowthParts};

    ghost Value = { GrowthParts };

    ghost view = { λ g. record { count = g.count; lines = g.lines.items; peaks = g.peaks } };
}

impl<H: TreeHash> Growth<H> {
    /// That of no entries. It takes no memory.
    pub(crate) fn new(alloc: Global, state: &State) -> Growth<H>
        ensures { (watch : List Text) → HasWatched H.hash (run_with state.now watch result) [] }
    {
        Growth {
            count: 0,
            lines: Vec::new(alloc),
            peaks: Peaks::of(state.size(), state.peaks()),
        }
    }

    /// Takes one entry more.
    pub(crate) fn take_entry(
        &mut self,
        alloc: Global,
        state: &State,
        watch: &Watch,
        entry: &[u8],
    ) -> Result<(), Memory>
        requires { CanTakeMore (λ items.
            HasWatched H.hash (run_with state.now watch.now self.old) items.entries) }
        ensures { OnOk result ((entries : List Text)
            → HasWatched H.hash (run_with state.now watch.now self.old) entries
            → HasWatched H.hash (run_with state.now watch.now self.new)
            (entries ++ entry.now ∷ [])) }
    {
        let first = state.size();
        let count = self.count;
        self.count += 1;
        if count >= u64::MAX - first {
            return Ok(());
        }
        let index = first + count;
        put_entry(alloc, &mut self.lines, watch.domains(), index, entry)?;
        self.peaks.push(&leaf::<H>(entry));
        Ok(())
    }

    // Whether the entries lead on from the state.
    #[tactic(auto, unfolding(crate::specs::Monitor::refusal_by))]
    fn leads_on(
        &self,
        state: &State,
        log: &[u8],
        size: u64,
        root: &[u8; 32],
        proof: &[[u8; 32]],
    ) -> Result<(), MonitorError>
        ensures fits { state.now.size < 2 ^ 64 }
        ensures passed { OnOk result (refusal_by H.hash state.now log.now size root.now
            proof.now self.now.count (root_of_peaks H.hash self.now.peaks.peaks) ≡ None) }
        ensures count { OnOk result (state.now.size + self.now.count ≡ size) }
        ensures refused { IfErr result (λ e. refusal_by H.hash state.now log.now size root.now
            proof.now self.now.count (root_of_peaks H.hash self.now.peaks.peaks) ≡ Some e) }
    {
        let first = state.size();
        if log != state.log().as_bytes() {
            return Err(MonitorError::WrongLog);
        }
        if size <= first {
            return Err(MonitorError::NotNewer(first));
        }
        let have = self.count;
        let want = size - first;
        if have != want {
            return Err(MonitorError::ItemCount { have, want });
        }
        let kept = Checkpoint {
            size: first,
            root: root_of_peaks::<H>(state.peaks()),
        };
        if !kept.is_prefix_of::<H>(size, root, proof) {
            return Err(MonitorError::BadProof);
        }
        let found = self.peaks.root();
        if found != *root {
            return Err(MonitorError::RootDiffers {
                wanted: *root,
                found,
            });
        }
        Ok(())
    }

    /// What was found, once all new entries were taken.
    pub(crate) fn found(
        self,
        alloc: Global,
        state: &State,
        log: &[u8],
        size: u64,
        root: &[u8; 32],
        proof: &[[u8; 32]],
    ) -> Result<Found, MonitorError>
        ensures { (watch entries : List Text)
            → HasWatched H.hash (run_with state.now watch self) entries
            → Answers NoCapacity (monitor_of H.hash state.now watch log.now size root.now proof.now
            entries) result }
    {
        self.leads_on(state, log, size, root, proof)?;
        let state = state.grown(alloc, self.peaks.size(), self.peaks.as_slice())?;
        Ok(Found::of(self.lines, state))
    }
}
