//! The draws of a drill.

ghost use Rattle.std.specs.Prelude.{◌≡◌, ◌+◌, ◌<◌, ◌^◌, ◌≤◌, length, IfOk};
ghost use Rattle.drill_parties.specs.Draws.{draw, landmark, number_after, round, stop_drawn, turn};
ghost use Rattle.drill_parties.specs.Draws.{turns};

use crate::round::Round;
use crate::turns::{Stop, Turn, Turns};
use mtc_io::Memory;
use std::alloc::Global;

// A drill has so many cosigners.
const COSIGNERS: u64 = 3;

/// Draws from a number: a linear congruential generator of 64 bits.
#[derive(Clone, Copy, Debug)]
pub struct Dice {
    number: u64,
}

impl Dice {
    /// The draws of the drill with this number.
    pub fn new(number: u64) -> Dice
        ensures { result.number ≡ number }
    {
        Dice { number }
    }

    // The number for the next draw.
    #[tactic(auto, unfolding(crate::specs::Draws::number_after))]
    fn step(&mut self)
        ensures { self.new.number ≡ number_after self.old.number }
    {
        self.number = self
            .number
            .wrapping_mul(6_364_136_223_846_793_005)
            .wrapping_add(1_442_695_040_888_963_407);
    }

    /// A number below this one.
    #[tactic(auto, unfolding(crate::specs::Draws::draw))]
    pub fn draw(&mut self, below: u64) -> u64
        requires { 0 < below }
        ensures drawn { (result, self.new.number) ≡ draw below self.old.number }
        ensures below { result < below }
    {
        self.step();
        (self.number >> 33) % below
    }

    // A stop within a call.
    #[tactic(auto, unfolding(crate::specs::Draws::stop_drawn))]
    fn stop(&mut self) -> Stop
        ensures { (result, self.new.number) ≡ stop_drawn self.old.number }
    {
        let passes = 1 + self.draw(5);
        let pick = self.draw(65_536);
        Stop { passes, pick }
    }

    /// Whether a call is stopped, and where.
    #[tactic(auto, unfolding(crate::specs::Draws::turn))]
    pub fn turn(&mut self) -> Turn
        ensures { (result, self.new.number) ≡ turn self.old.number }
    {
        if self.draw(8) == 0 {
            Some(self.stop())
        } else {
            None
        }
    }

    // So many turns.
    #[tactic(auto, using(crate::proofs::Turning::next_turn), unfolding(crate::specs::Draws::turns))]
    fn turns(&mut self, alloc: Global, count: u64) -> Result<Turns, Memory>
        ensures drawn { IfOk result
            (λ list. (list, self.new.number) ≡ turns count self.old.number) }
        ensures count { IfOk result (λ list. length list ≡ count) }
    {
        let mut turns = Turns::new(alloc);
        for _made in 0..count {
            turns.push(self.turn())?;
        }
        Ok(turns)
    }

    // A landmark is set where the draw is 0.
    #[tactic(auto, unfolding(crate::specs::Draws::landmark))]
    fn landmark(&mut self) -> Option<Turn>
        ensures { (result, self.new.number) ≡ landmark self.old.number }
    {
        if self.draw(3) == 0 {
            Some(self.turn())
        } else {
            None
        }
    }

    /// A round of a log with so many entries.
    #[tactic(auto, unfolding(crate::specs::Draws::round))]
    pub fn round(&mut self, alloc: Global, size: u64) -> Result<Round, Memory>
        requires some { 1 ≤ size }
        requires few { size < 2 ^ 32 }
        ensures drawn { IfOk result (λ r. (r, self.new.number) ≡ round size self.old.number) }
        ensures some { IfOk result (λ r. 1 ≤ length r.entries) }
        ensures few { IfOk result (λ r. length r.entries ≤ 3) }
        ensures advances { IfOk result (λ r. length r.advances ≡ 3) }
        ensures signs { IfOk result (λ r. length r.signs ≡ 3) }
        ensures index { IfOk result (λ r. (1 ≤ r.index) × (r.index < size + length r.entries)) }
    {
        let count = 1 + self.draw(3);
        Ok(Round {
            entries: self.turns(alloc, count)?,
            advances: self.turns(alloc, COSIGNERS)?,
            landmark: self.landmark(),
            index: 1 + self.draw(size + count - 1),
            signs: self.turns(alloc, COSIGNERS)?,
        })
    }
}
