//! A tally as a state machine, for the cases of this crate. It counts its records too, and keeps a
//! disk that has no part in them.

ghost use Rattle.std.specs.Prelude.{◌≡◌, ◌<◌, ◌≤◌, length};

use disk_core::MemDisk;
use state_journal::{Misfit, NotBegun, StateMachine};
use std::alloc::Global;

#[derive(Drop)]
pub(crate) struct Tally {
    pub(crate) limit: u8,
    pub(crate) total: u8,
    pub(crate) count: u64,
    pub(crate) beside: MemDisk,
    ghost within: { total ≤ limit },
}

impl StateMachine for Tally {
    type Seed = MemDisk;

    type Rest = MemDisk;

    ghost use Rattle.disk_core.specs.declared.memory.mem_disk.MemDisk.{MemDisk};
    ghost use Rattle.test_state.specs.Tally.{Tally, begun_tally, next_tally};

    ghost State = { Tally };

    ghost begins = { begun_tally };

    ghost takes = { next_tally };

    ghost state = { λ it. record { limit = it.limit; total = it.total } };

    ghost Keeps = { λ it list. it.count ≡ length list };

    ghost Within = { λ it commit_offset. it.count < commit_offset };

    ghost rest_of = { λ disk. disk };

    ghost rest = { λ it. it.beside };

    ghost Becomes = { λ old new. new ≡ old };

    ghost Stops = { λ old new. new ≡ old };

    ghost becomes_stops = { λ _ _ same. same };

    fn begin(alloc: Global, seed: MemDisk, body: &[u8]) -> Result<Self, NotBegun<MemDisk, Misfit>> {
        if body.len() != 1 {
            return Err(NotBegun {
                rest: seed,
                why: Misfit::Unfit,
            });
        }
        Ok(Tally {
            limit: body[0],
            total: 0,
            count: 1,
            beside: seed,
        })
    }

    fn take(&mut self, _place: u64, body: &[u8]) -> Result<(), Misfit> {
        if body.len() != 1 {
            return Err(Misfit::Unfit);
        }
        let total = self.total as u16 + body[0] as u16;
        if total > self.limit as u16 {
            return Err(Misfit::Unfit);
        }
        self.total = total as u8;
        self.count += 1;
        Ok(())
    }

    fn return_rest(seed: MemDisk) -> MemDisk {
        seed
    }

    fn into_rest(self) -> MemDisk {
        let Tally {
            limit: _,
            total: _,
            count: _,
            beside,
        } = self;
        beside
    }
}
