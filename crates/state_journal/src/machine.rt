//! What the records of a journal make, record by record.

ghost use Rattle.std.specs.Prelude.{◌≡◌, ℕ, ◌+◌, ◌^◌, ◌<◌, List, length, Option, IfOk, OnOk};
ghost use Rattle.std.specs.Prelude.{MatchResult};
ghost use Rattle.byte_formats.specs.Types.{Text};
ghost use Rattle.state_journal.specs.Steps.{BeginsMachine, IsLeftBy, IsOutOfMemory, TakesRecord};

use crate::error::{Misfit, NotBegun};
use std::alloc::Global;

/// A state machine: the first record of a journal begins it, and it takes each later one. Its state
/// is a function of the records alone.
pub trait StateMachine: Sized {
    /// What a machine is begun with in addition to its first record, as the disk of its tiles and
    /// frames for them.
    type Seed;

    /// What of a seed a refused opening returns, as that disk.
    type Rest;

    // what contracts see of a machine
    ghost State: { Type 0 };
    // the state that a first record begins, or none where the record breaks the rules
    ghost begins: { Text → Option State };
    // the state after one record more, or none where the record breaks the rules
    ghost takes: { State → Text → Option State };
    // the state of a machine
    ghost state: { Self → State };
    // what it keeps in addition to its state, where the records are known
    ghost Keeps: { Self → List Text → Type 0 } = { λ _ _. Unit {0} };
    // what it keeps over any disk, of offsets in the journal too, where the next record's commit
    // byte stands here
    ghost Within: { Self → ℕ → Type 0 } = { λ _ _. Unit {0} };
    // this record needs nothing that isn't there: it is taken if it keeps to the rules
    ghost HasCapacity: { Self → Text → Type 0 } = { λ _ _. Unit {0} };
    // a seed that a machine may begin with
    ghost IsBlank: { Self.Seed → Type 0 } = { λ _. Unit {0} };
    // what of a seed is returned
    ghost rest_of: { Self.Seed → Self.Rest };
    // what a machine has of it
    ghost rest: { Self → Self.Rest };
    // what it may have become of one that was there before, while records are read
    ghost Becomes: { Self.Rest → Self.Rest → Type 0 } = { λ _ _. Unit {0} };
    // what it may be where a record can't be taken
    ghost Stops: { Self.Rest → Self.Rest → Type 0 } = { λ _ _. Unit {0} };

    /// The machine that the first record begins.
    fn begin(
        alloc: Global,
        seed: Self::Seed,
        body: &[u8],
    ) -> Result<Self, NotBegun<Self::Rest, Misfit>>
        requires { IsBlank seed }
        ensures begins { BeginsMachine begins state Keeps body.now result }
        ensures within { IfOk result (λ it. Within it (21 + length body.now)) }
        ensures rest { (was : Self.Rest) → Becomes was (rest_of seed) → MatchResult result
            (λ it. Becomes was (rest it)) (λ e. IsLeftBy Becomes Stops was e.rest e.why) };

    /// Takes one record more, whose commit byte stands at an offset; the offset after it fits eight
    /// bytes. `Unfit` comes exactly if it breaks the rules, unless it can't be taken for another
    /// reason.
    fn take(&mut self, place: u64, body: &[u8]) -> Result<(), Misfit>
        requires within { Within self.old place }
        requires fits { place + 5 + length body.now < 2 ^ 64 }
        ensures takes { TakesRecord takes state Keeps place body.now self.old self.new result }
        ensures within { OnOk result (Within self.new (place + 5 + length body.now)) }
        ensures capacity { HasCapacity self.old body.now → IsOutOfMemory result → ⊥ }
        ensures rest { (was : Self.Rest) → Becomes was (rest self.old) → MatchResult result
            (λ _. Becomes was (rest self.new)) (λ why. IsLeftBy Becomes Stops was (rest self.new)
            why) }
        ensures still { HasCapacity self.old body.now → rest self.new ≡ rest self.old };

    /// What of a seed is returned, where no machine is begun.
    fn return_rest(seed: Self::Seed) -> Self::Rest
        ensures { result ≡ rest_of seed };

    /// What a machine has of it.
    fn into_rest(self) -> Self::Rest
        ensures { result ≡ rest self };

    /// Where a record can't be taken it may be as it has become.
    ghost becomes_stops: { (was now : Self.Rest) → Becomes was now → Stops was now };
}
