//! A cosigner as a state machine over its journal.

use crate::contents::Contents;
use crate::error::RecordError;
use state_journal::{Misfit, NotBegun, StateMachine};
use std::alloc::Global;
use std::marker::PhantomData;
use tree_core::TreeHash;

/// What the records of a journal make of a cosigner, by the hash function of the log's tree.
pub(crate) struct Machine<H: TreeHash> {
    pub(crate) contents: Contents,
    hash: PhantomData<H>,
}

// A drop in one step: a derived one is proved field by field wherever a value is dropped.
impl<H: TreeHash> Drop for Machine<H> {
    fn drop(self) {
        let Machine {
            contents: _,
            hash: _,
        } = self;
    }
}

impl<H: TreeHash> StateMachine for Machine<H> {
    type Seed = ();

    type Rest = ();

    ghost use Rattle.cosigner_core.specs.Folds.{CosignerState, begun_cosigner, next_state};

    ghost State = { CosignerState };

    ghost begins = { begun_cosigner H.hash };

    ghost takes = { next_state H.hash };

    ghost state = { λ it. it.contents };

    ghost rest_of = { λ _. tt };

    ghost rest = { λ _. tt };

    ghost becomes_stops = { λ _ _ _. tt };

    fn begin(alloc: Global, _seed: (), body: &[u8]) -> Result<Self, NotBegun<(), Misfit>> {
        match Contents::begin::<H>(alloc, body) {
            Ok(contents) => Ok(Machine {
                contents,
                hash: PhantomData,
            }),
            Err(RecordError::Unfit) => Err(NotBegun {
                rest: (),
                why: Misfit::Unfit,
            }),
            Err(RecordError::Memory) => Err(NotBegun {
                rest: (),
                why: Misfit::Memory,
            }),
        }
    }

    fn take(&mut self, _place: u64, body: &[u8]) -> Result<(), Misfit> {
        match self.contents.take::<H>(body) {
            Ok(()) => Ok(()),
            Err(RecordError::Unfit) => Err(Misfit::Unfit),
            Err(RecordError::Memory) => Err(Misfit::Memory),
        }
    }

    fn return_rest(_seed: ()) {}

    fn into_rest(self) {}
}
