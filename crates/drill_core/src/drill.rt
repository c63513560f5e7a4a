//! All rounds of a drill.

ghost use Rattle.std.specs.Prelude.{◌+◌, ℕ, IfOk};
ghost use Rattle.drill_parties.specs.Rounds.{begun};
ghost use Rattle.drill_core.specs.DrillOutputs.{IsDrillOutput};
ghost use Rattle.drill_core.specs.Played.{AreReady, IsAfter, IsStanding};

use crate::log_party::{LogParty, size_of};
use crate::made::DrillOutput;
use crate::parties::DrillParties;
use crate::store::store_of;
use drill_parties::{Cosigners, Dice};
use mtc_io::Memory;
use std::alloc::Global;
use tree_core::TreeHash;

// A drill has so many rounds.
const ROUNDS: u64 = 16;

// New parties.
fn begin<H: TreeHash>(alloc: Global, number: u64) -> Result<DrillParties<H>, Memory>
    ensures { IfOk result (IsAfter H.hash number 0 (begun number)) }
{
    let log = LogParty::create(alloc)?;
    let cosigners = Cosigners::create(alloc, number)?;
    let store = store_of(alloc, &cosigners)?;
    let certs = Vec::new(alloc);
    Ok(DrillParties {
        log,
        cosigners,
        store,
        certs,
        verified: 0,
        stands: 0,
        light: 0,
    })
}

// Draws a round and plays it.
fn go_on<H: TreeHash>(
    alloc: Global,
    dice: &mut Dice,
    parties: DrillParties<H>,
) -> Result<DrillParties<H>, Memory>
    requires { AreReady parties }
    ensures { IfOk result (λ it. (number count : ℕ)
        → IsStanding H.hash number count dice.old.number parties
        → IsStanding H.hash number (count + 1) dice.new.number it) }
{
    parties.log.log.law_sound();
    let size = size_of(&parties.log.log);
    let round = dice.round(alloc, size)?;
    parties.play(alloc, &round)
}

/// Plays the drill with this number. `Memory` is the one error.
pub fn play_drill<H: TreeHash>(alloc: Global, number: u64) -> Result<DrillOutput, Memory>
    ensures { IfOk result (IsDrillOutput H.hash number) }
{
    let mut dice = Dice::new(number);
    let mut parties = begin::<H>(alloc, number)?;
    for _round in 0..ROUNDS {
        parties = go_on(alloc, &mut dice, parties)?;
    }
    parties.into_output(alloc)
}
