//! What a monitor keeps of a log.

ghost use Rattle.std.specs.Prelude.{◌≡◌, length, count_ones, IfOk};
ghost use Rattle.monitor_core.specs.States.{MonitorState, empty_state};

use mtc_io::Memory;
use std::alloc::Global;
use std::marker::Model;
use tls_wire::AnchorId;
use tree_proofs::Hashes;

/// The id of a log, how many entries it has, and the peaks of its tree, the largest first: as many
/// as the size has ones in binary. Contracts see these three.
#[derive(Debug, Drop)]
pub struct State {
    log: AnchorId,
    size: u64,
    peaks: Hashes,
}

impl Model for State {
    ghost Value = { MonitorState };

    ghost view = { λ s. record { log = s.log; size = s.size; peaks = s.peaks } };

    ghost invariant = { λ s. length s.peaks ≡ count_ones s.size };
}

impl State {
    /// The state of a log without entries. It takes no memory.
    pub fn empty(alloc: Global, log: AnchorId) -> State
        ensures { result ≡ empty_state log }
    {
        State {
            log,
            size: 0,
            peaks: Hashes::from_vec(Vec::new(alloc)),
        }
    }

    // The state with this size and these peaks.
    pub(crate) fn of(log: AnchorId, size: u64, peaks: Hashes) -> State
        requires { length peaks ≡ count_ones size }
        ensures { result ≡ record { log = log; size = size; peaks = peaks } }
    {
        State { log, size, peaks }
    }

    /// The id of the log.
    pub fn log(&self) -> &AnchorId
        ensures { result.now ≡ self.now.log }
    {
        &self.log
    }

    /// How many entries it has.
    pub fn size(&self) -> u64
        ensures { result ≡ self.now.size }
    {
        self.size
    }

    /// The peaks, the largest first: as many as the size has ones in binary.
    pub fn peaks(&self) -> &[[u8; 32]]
        ensures value { result.now ≡ self.now.peaks }
        ensures count { length result.now ≡ count_ones self.now.size }
    {
        let _size = self.size;
        self.peaks.as_slice()
    }

    // The same log with this size and these peaks.
    pub(crate) fn grown(
        &self,
        alloc: Global,
        size: u64,
        peaks: &[[u8; 32]],
    ) -> Result<State, Memory>
        requires { length peaks.now ≡ count_ones size }
        ensures { IfOk result (λ state.
            state ≡ record { log = self.now.log; size = size; peaks = peaks.now }) }
    {
        let log = copy_of(alloc, &self.log)?;
        let peaks = Hashes::from_vec(Vec::from_slice(alloc, peaks)?);
        Ok(State::of(log, size, peaks))
    }
}

// The same id again.
fn copy_of(alloc: Global, id: &AnchorId) -> Result<AnchorId, Memory>
    ensures { IfOk result (λ copy. copy ≡ id.now) }
{
    match AnchorId::from_bytes(alloc, id.as_bytes()) {
        Ok(copy) => Ok(copy),
        Err(_refused) => Err(Memory),
    }
}
