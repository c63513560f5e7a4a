//! Searches over the slots of a pool.

ghost use Rattle.std.specs.Prelude.{◌≡◌, ◌≢◌, ℕ, ◌<◌, ◌≤◌, ◌==◌, List, length, slice_index_or};
ghost use Rattle.std.specs.Prelude.{Some, None, true, false, is_none, MatchOption};
ghost use Rattle.std.specs.List.{All, Contains, position};
ghost use Rattle.byte_formats.specs.Types.{Text};
ghost use Rattle.frame_pool.specs.Frames.{IsNextSlot};
ghost use Rattle.frame_pool.specs.Order.{moved_last};

use crate::TileKey;

// The slot that holds a key.
pub(crate) fn slot_with(keys: &[Option<TileKey>], key: TileKey) -> Option<usize>
    ensures { MatchOption result
        ((slot : ℕ) → slot < length keys.now → slice_index_or keys.now slot None ≢ Some key)
        (λ slot. (slot < length keys.now) × (slice_index_or keys.now slot None ≡ Some key)) }
{
    for (slot, held) in keys.iter().enumerate() {
        if *held == Some(key) {
            return Some(slot);
        }
    }
    None
}

// The least slot without a key.
pub(crate) fn first_empty(keys: &[Option<TileKey>]) -> Option<usize>
    ensures { result ≡ position is_none keys.now }
{
    keys.iter().position(|held| held.is_none())
}

// The index in the order of the first slot without a pin.
pub(crate) fn first_unpinned(pins: &[bool], order: &[u32]) -> Option<usize>
    requires { All (λ slot. slot < length pins.now) order.now }
    ensures { MatchOption result
        (All (λ slot. slice_index_or pins.now slot false ≡ true) order.now)
        (λ place. (place < length order.now)
        × (slice_index_or pins.now (slice_index_or order.now place 0) false ≡ false)
        × ((before : ℕ) → before < place
        → slice_index_or pins.now (slice_index_or order.now before 0) false ≡ true)) }
{
    for (place, slot) in order.iter().enumerate() {
        if !pins[*slot as usize] {
            return Some(place);
        }
    }
    None
}

// The slot that a claim takes.
pub(crate) fn next_slot(keys: &[Option<TileKey>], pins: &[bool], order: &[u32]) -> u32
    requires few { length keys.now ≤ 65536 }
    requires slots { All (λ slot. slot < length pins.now) order.now }
    requires some { All (λ slot. slice_index_or pins.now slot false ≡ true) order.now → ⊥ }
    ensures { (frames : List Text) → IsNextSlot (record {
      keys = keys.now;
      pins = pins.now;
      order = order.now;
      frames = frames;
    }) result }
{
    match first_empty(keys) {
        Some(slot) => slot as u32,
        None => match first_unpinned(pins, order) {
            Some(place) => order[place],
            None => unreachable!(),
        },
    }
}

// The index of a slot in the order.
fn index_of(order: &[u32], slot: u32) -> Option<usize>
    ensures { result ≡ position (λ at. at == slot) order.now }
{
    order.iter().position(|at| *at == slot)
}

// Puts a slot at the end of the order.
pub(crate) fn move_last(order: &mut Vec<u32>, slot: u32)
    requires { Contains order.old.items slot }
    ensures { order.new.items ≡ moved_last slot order.old.items }
{
    match index_of(order.as_slice(), slot) {
        None => unreachable!(),
        Some(place) => {
            order.remove(place);
            if order.push(slot).is_err() {
                unreachable!()
            }
        }
    }
}
