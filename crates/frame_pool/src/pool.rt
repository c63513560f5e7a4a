//! The pool of frames.

ghost use Rattle.std.specs.Prelude.{◌≡◌, ◌<◌, ◌≤◌, true, false, length, not, count_by, IfNone};
ghost use Rattle.std.specs.Prelude.{IfOk, IfSome};
ghost use Rattle.std.specs.Borrow.{sem};
ghost use Rattle.frame_pool.specs.Frames.{HasUnpinned, HoldsKey, IsNew, IsNextSlot, IsUnheld};
ghost use Rattle.frame_pool.specs.Frames.{PoolState, frame_at, claimed, pinned_at, released};
ghost use Rattle.frame_pool.specs.Frames.{with_pin};
ghost use Rattle.frame_pool.specs.Borrowing.{BorrowsFrame};
ghost use Rattle.frame_pool.specs.Sound.{IsSoundPool};
ghost use Rattle.frame_pool.specs.declared.key.TileKey.{TileKey as Key};

use crate::search::{move_last, next_slot, slot_with};
use crate::{Slot, TileKey};
use mtc_io::Memory;
use std::alloc::Global;
use std::marker::Model;

// The bytes of a frame.
const FRAME: usize = 8192;

/// A fixed number of frames of 8,192 bytes, from 1 to 65,536. No key is held by two of them, and a
/// frame without a key has no pin.
#[derive(Drop)]
pub struct Pool {
    keys: Vec<Option<TileKey>>,
    pins: Vec<bool>,
    order: Vec<u32>,
    frames: Vec<[u8; FRAME]>,
}

impl Model for Pool {
    ghost use Rattle.frame_pool.specs.Frames.{PoolState};
    ghost use Rattle.frame_pool.specs.Sound.{IsSoundPool};

    ghost Value = { PoolState };

    ghost view = { λ p. record {
      keys = p.keys.items;
      pins = p.pins.items;
      order = p.order.items;
      frames = p.frames.items;
    } };

    ghost invariant = { λ p. IsSoundPool (record {
      keys = p.keys.items;
      pins = p.pins.items;
      order = p.order.items;
      frames = p.frames.items;
    }) };
}

impl Pool {
    /// So many frames, without keys and pins. This is the one call that takes memory.
    pub fn new(alloc: Global, frames: usize) -> Result<Pool, Memory>
        requires some { 1 ≤ frames }
        requires few { frames ≤ 65536 }
        ensures { IfOk result (λ pool. IsNew frames pool) }
    {
        let mut keys = Vec::with_capacity(alloc, frames)?;
        let mut pins = Vec::with_capacity(alloc, frames)?;
        let mut order = Vec::with_capacity(alloc, frames)?;
        let mut bytes = Vec::with_capacity(alloc, frames)?;
        for slot in 0..frames {
            keys.push(None)?;
            pins.push(false)?;
            order.push(slot as u32)?;
            bytes.push([0; FRAME])?;
        }
        Ok(Pool {
            keys,
            pins,
            order,
            frames: bytes,
        })
    }

    /// What holds of every pool: a caller's proof may use it.
    pub fn law_sound(&self)
        ensures { IsSoundPool self.now }
    {
        let _keys = self.keys.as_slice();
    }

    /// The slot whose frame holds the key; none exactly if no frame does.
    pub fn find(&self, key: TileKey) -> Option<Slot>
        ensures some { IfSome result (λ slot. HoldsKey self.now slot.0 key) }
        ensures none { IfNone result (IsUnheld self.now key) }
    {
        match slot_with(self.keys.as_slice(), key) {
            Some(slot) => Some(Slot(slot as u32)),
            None => None,
        }
    }

    /// How many frames have no pin.
    pub fn unpinned(&self) -> usize
        ensures count { result ≡ count_by not self.now.pins }
        ensures some { 0 < count_by not self.now.pins → HasUnpinned self.now }
    {
        self.pins.iter().filter(|pinned| !**pinned).count()
    }

    /// Takes a frame for the key: the least slot without a key, or else the one that was claimed
    /// first of those without a pin, whose key is dropped. Every other frame keeps its key and its
    /// pin, and the bytes of all stay.
    pub fn claim(&mut self, key: TileKey) -> Slot
        requires unheld { IsUnheld self.old key }
        requires unpinned { HasUnpinned self.old }
        ensures next { IsNextSlot self.old result.0 }
        ensures there { result.0 < length self.old.keys }
        ensures free { pinned_at self.old result.0 ≡ false }
        ensures claimed { self.new ≡ claimed self.old result.0 key }
        ensures held { HoldsKey self.new result.0 key }
    {
        let slot = self.next();
        self.put(slot, key);
        Slot(slot)
    }

    // The slot that a claim takes.
    fn next(&self) -> u32
        requires { HasUnpinned self.now }
        ensures next { IsNextSlot self.now result }
        ensures there { result < length self.now.keys }
        ensures free { pinned_at self.now result ≡ false }
    {
        next_slot(
            self.keys.as_slice(),
            self.pins.as_slice(),
            self.order.as_slice(),
        )
    }

    // Puts a key into a slot's frame, without a pin.
    fn put(&mut self, slot: u32, key: TileKey)
        requires there { slot < length self.old.keys }
        requires unheld { IsUnheld self.old key }
        ensures { self.new ≡ claimed self.old slot key }
    {
        self.keys[slot as usize] = Some(key);
        self.pins[slot as usize] = false;
        move_last(&mut self.order, slot);
    }

    /// Makes a frame without a pin empty. Its bytes stay.
    pub fn release(&mut self, slot: Slot)
        requires there { slot.0 < length self.old.keys }
        requires unpinned { pinned_at self.old slot.0 ≡ false }
        ensures { self.new ≡ released self.old slot.0 }
    {
        self.keys[slot.0 as usize] = None;
    }

    /// The bytes of a frame, 8,192.
    pub fn frame(&self, slot: Slot) -> &[u8]
        requires { slot.0 < length self.now.keys }
        ensures value { result.now ≡ frame_at self.now slot.0 }
        ensures size { length result.now ≡ 8192 }
    {
        &self.frames[slot.0 as usize]
    }

    /// The bytes of a frame, 8,192, borrowed. What the caller leaves in them is the frame's.
    pub fn frame_mut(&mut self, slot: Slot) -> &mut [u8]
        requires { slot.0 < length self.old.keys }
        ensures* writes_back { sem 𝓛 (BorrowsFrame self.entry slot.0 result) }
        ensures value { result.now ≡ frame_at self.old slot.0 }
        ensures size { length result.now ≡ 8192 }
    {
        let _whole = self.frame(slot);
        self.frames[slot.0 as usize].as_mut_slice()
    }

    /// Pins a frame that holds a key.
    pub fn pin(&mut self, slot: Slot)
        requires { (key : Key) × HoldsKey self.old slot.0 key }
        ensures { self.new ≡ with_pin self.old slot.0 true }
    {
        self.pins[slot.0 as usize] = true;
    }

    /// Takes a frame's pin away.
    pub fn unpin(&mut self, slot: Slot)
        requires { slot.0 < length self.old.keys }
        ensures { self.new ≡ with_pin self.old slot.0 false }
    {
        self.pins[slot.0 as usize] = false;
    }
}
