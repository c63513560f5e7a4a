//! What a mirror shows over every disk.

ghost use Rattle.std.specs.Prelude.{◌≡◌, ◌≢◌, ◌+◌, ◌^◌, ◌<◌, length, None, Err, IfOk, true};
ghost use Rattle.issuance_log.specs.Batches.{leading_items};
ghost use Rattle.mirror_core.specs.Folds.{begun_mirror_view, is_mirrorable};
ghost use Rattle.mirror_core.specs.Folds.{more_mirrored, new_mirror, next_mirror_view};
ghost use Rattle.mirror_core.specs.Folds.{takes_mirrored, view_in_mirror};
ghost use Rattle.mirror_core.specs.Kept.{HasMirrorNumbers};
ghost use Rattle.mirror_core.specs.Records.{mirrored_in};
ghost use Rattle.mirror_core.specs.Refusals.{full_mirror_size};
ghost use Rattle.mirror_core.specs.Results.{MirrorFinds, MirrorTakes};
ghost use Rattle.mirror_core.specs.declared.error.RecordError.TheVariants.{Memory as RecordMemory};

use crate::batch::MAX_ITEM;
use crate::error::RecordError;
use crate::record::{next_item, read_mirror, read_tiles};
use entry_list::is_key_of;
use std::alloc::Global;
use std::marker::Model;
use tls_wire::AnchorId;
use tree_core::TreeHash;

/// As many entries fill a tile.
const TILE: u64 = 256;

/// A mirror has fewer items.
pub(crate) const MOST: u64 = 1 << 32;

/// The id of the log, how many items there are, and the last size of the tiles, 0 if there is none.
/// The rules of a mirror's records read nothing else. Contracts see them.
#[derive(Drop)]
pub(crate) struct Numbers {
    log: AnchorId,
    size: u64,
    tiled: u64,
}

impl Model for Numbers {
    ghost use Rattle.mirror_core.specs.Folds.{MirrorView};
    ghost use Rattle.mirror_core.specs.Kept.{HasMirrorNumbers};

    ghost Value = { MirrorView };

    ghost view = { λ n. record { log = n.log; size = n.size; tiled = n.tiled } };

    ghost invariant = { λ n.
        HasMirrorNumbers (record { log = n.log; size = n.size; tiled = n.tiled }) };
}

// Whether an item is one of a mirror.
fn is_mirrorable<H: TreeHash>(entry: &[u8], key: &[u8]) -> bool
    ensures { result ≡ is_mirrorable H.hash (entry.now, key.now) }
{
    entry.len() + key.len() <= MAX_ITEM && is_key_of::<H>(entry, key)
}

impl Numbers {
    /// Those of a new mirror.
    pub(crate) fn new(log: AnchorId) -> Numbers
        ensures { result ≡ view_in_mirror (new_mirror log) }
    {
        Numbers {
            log,
            size: 0,
            tiled: 0,
        }
    }

    /// Those of the mirror that the first record begins.
    #[tactic(auto, unfolding(crate::specs::Folds::begun_mirror))]
    pub(crate) fn begin(alloc: Global, body: &[u8]) -> Result<Numbers, RecordError>
        ensures found { MirrorFinds (λ n. n) (begun_mirror_view body.now) result }
        ensures none { IfOk result (λ n. n.size ≡ 0) }
        ensures untiled { IfOk result (λ n. n.tiled ≡ 0) }
    {
        let log = read_mirror(alloc, body)?;
        Ok(Numbers::new(log))
    }

    /// Whether the mirror takes the items that begin these bytes, which are so many.
    pub(crate) fn takes_all<H: TreeHash>(&self, count: u64, items: &[u8]) -> bool
        requires { count ≡ length (leading_items items.now) }
        ensures value { result ≡ takes_mirrored H.hash self.now (leading_items items.now) }
        ensures within { result ≡ true → self.now.size + count < 2 ^ 32 }
        ensures sound { HasMirrorNumbers self.now }
    {
        if count >= MOST - self.size {
            return false;
        }
        let mut rest = items;
        'items: while let Some((entry, key, later)) = next_item(rest) {
            if !is_mirrorable::<H>(entry, key) {
                return false;
            }
            rest = later;
        }
        true
    }

    /// Takes a record that is no Batch. `Unfit` comes exactly if it breaks the rules, and leaves
    /// all as it was.
    #[tactic(auto, unfolding(crate::specs::Folds::next_mirror_view))]
    pub(crate) fn take_other<H: TreeHash>(&mut self, body: &[u8]) -> Result<(), RecordError>
        requires { mirrored_in body.now ≡ None }
        ensures taken { MirrorTakes (next_mirror_view H.hash self.old body.now) self.old result
            self.new }
        ensures size { self.new.size ≡ self.old.size }
        ensures never { result ≢ Err RecordMemory }
    {
        let size = read_tiles(body)?;
        if size % TILE != 0 || size <= self.tiled || size > self.size {
            return Err(RecordError::Unfit);
        }
        self.tiled = size;
        Ok(())
    }

    pub(crate) fn log(&self) -> &AnchorId
        ensures { result.now ≡ self.now.log }
    {
        &self.log
    }

    /// How many items there are.
    pub(crate) fn size(&self) -> u64
        ensures value { result ≡ self.now.size }
        ensures sound { HasMirrorNumbers self.now }
    {
        self.size
    }

    /// The last size of the tiles, 0 where there is none.
    pub(crate) fn tiled(&self) -> u64
        ensures value { result ≡ self.now.tiled }
        ensures sound { HasMirrorNumbers self.now }
    {
        self.tiled
    }

    /// The greatest multiple of 256 that isn't above the size: so many entries fill tiles.
    pub(crate) fn full_size(&self) -> u64
        ensures value { result ≡ full_mirror_size self.now }
        ensures sound { HasMirrorNumbers self.now }
    {
        self.size / TILE * TILE
    }

    /// So many items more.
    pub(crate) fn add_items(&mut self, count: u64)
        requires { self.old.size + count < 2 ^ 32 }
        ensures { self.new ≡ more_mirrored count self.old }
    {
        self.size += count;
    }
}
