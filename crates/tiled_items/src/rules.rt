//! The rules of a journal of items.

ghost use Rattle.std.specs.Prelude.{◌≡◌, ℕ, ◌+◌, ◌%◌, ◌^◌, ◌<◌, ◌≤◌, List, length, Option, Some};
ghost use Rattle.std.specs.Prelude.{IfOk, OnOk};
ghost use Rattle.byte_formats.specs.Types.{HashFunction, Text};
ghost use Rattle.issuance_log.specs.Batches.{leading_items};
ghost use Rattle.state_journal.specs.Steps.{IsOutOfMemory};
ghost use Rattle.issuance_log.specs.Records.{tiles_record};
ghost use Rattle.tiled_items.specs.Views.{BeginsRules, HasTiledNumbers, TakesRules, TilesAreTaken};

use mtc_io::Memory;
use state_journal::Misfit;
use std::alloc::Global;
use tree_core::TreeHash;

/// Which records a journal of items may have, and what they make of its numbers. The first record
/// begins the numbers, and each later one makes others of them: it adds the items in it, or none.
///
/// The rules speak of a hash function, that of the tree, and a type of rules names none: so the
/// members are functions of it, and the one call that needs it has it as a parameter.
pub trait ItemRules: Drop + Sized {
    // what is shown of the items over every disk
    ghost View: { Type 0 };
    // two proofs that it is shown are one
    ghost view_set: { IsSet View };
    // what a first record begins, or none where the record breaks the rules
    ghost begins: { Text → Option View };
    // what one record more makes, or none where the record breaks the rules
    ghost takes: { HashFunction → View → Text → Option View };
    // what the numbers show
    ghost view: { Self → View };
    // how many items there are
    ghost size: { View → ℕ };
    // the last size of the tiles, 0 where there is none
    ghost tiled: { View → ℕ };
    // the items that the first record begins with
    ghost first: { List (Text × Text) };
    // the items that a later record adds, none where it is of another kind
    ghost added: { Text → List (Text × Text) };
    // this record needs no memory for the numbers
    ghost HasCapacity: { Self → Text → Type 0 };

    /// The numbers that the first record begins.
    fn begin(alloc: Global, body: &[u8]) -> Result<Self, Misfit>
        ensures { BeginsRules begins view body.now result };

    /// The items of the first record, one after the other.
    fn first_items(body: &[u8]) -> &[u8]
        ensures { leading_items result.now ≡ first };

    /// The items that a later record adds, one after the other.
    fn items_in(body: &[u8]) -> &[u8]
        ensures { leading_items result.now ≡ added body.now };

    /// Takes one record more, and answers the items that it adds, one after the other. `Unfit`
    /// comes exactly if it breaks the rules, unless memory is refused.
    fn take<'a, H: TreeHash>(&mut self, body: &'a [u8]) -> Result<&'a [u8], Misfit>
        ensures takes { TakesRules (takes H.hash) view body.now self.old self.new result }
        ensures items { IfOk result (λ items. leading_items items.now ≡ added body.now) }
        ensures capacity { HasCapacity self.old body.now → IsOutOfMemory result → ⊥ };

    /// Takes the memory that the numbers need for a record more. They show what they showed.
    ///
    /// Error: `Memory`.
    fn reserve(&mut self, body: &[u8]) -> Result<(), Memory>
        ensures capacity { OnOk result (HasCapacity self.new body.now) }
        ensures view { view self.new ≡ view self.old };

    /// How many items there are. The numbers are sound, whatever their records.
    fn size(&self) -> u64
        ensures value { result ≡ size (view self.now) }
        ensures sound { HasTiledNumbers (size (view self.now)) (tiled (view self.now)) };

    /// The last size of the tiles, 0 where there is none.
    fn tiled(&self) -> u64
        ensures value { result ≡ tiled (view self.now) }
        ensures sound { HasTiledNumbers (size (view self.now)) (tiled (view self.now)) };

    /// The first record begins with these items, and no tiles.
    ghost first_size: { (body : Text) (v : View) → begins body ≡ Some v
        → (size v ≡ length first) × (tiled v ≡ 0) };

    /// A later record has as many more as it adds.
    ghost next_size: { (h : HashFunction) (v w : View) (body : Text) → takes h v body ≡ Some w
        → size w ≡ size v + length (added body) };

    /// A record of a size of tiles is taken, and makes nothing else.
    ghost takes_tiles: { (h : HashFunction) (v : View) (n : ℕ) → n < 2 ^ 64 → n % 256 ≡ 0
        → tiled v < n → n ≤ size v → TilesAreTaken (takes h) size tiled v n };

    /// It needs no memory.
    ghost tiles_free: { (it : Self) (n : ℕ) → HasCapacity it (tiles_record n) };
}
