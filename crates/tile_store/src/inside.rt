//! The nodes inside the tiles that frames hold: they are hashed once, and looked up then.

ghost use Rattle.std.specs.Prelude.{◌≡◌, ℕ, ◌+◌, ◌-◌, ◌*◌, ◌%◌, ◌^◌, ◌<◌, ◌≤◌, max, [], length};
ghost use Rattle.std.specs.Prelude.{slice_index_or, IsTrue, IfOk, IfSome, OnOk};
ghost use Rattle.byte_formats.specs.Types.{Text};
ghost use Rattle.tile_store.specs.Inside.{ArePaired, HasTileHashes, IsNodeIn};

use crate::reading::{HASH, node_alone};
use crate::writing::bytes_of;
use mtc_io::Memory;
use std::alloc::Global;
use std::marker::PhantomData;
use std::mem::replace;
use tree_core::{TreeHash, pair};

// A tile has so many hashes.
const WIDTH: usize = 256;

// They and the nodes above them.
const NODES: usize = 511;

// The hashes of a tile.
fn hashes_of(alloc: Global, tile: &[u8]) -> Result<Vec<[u8; 32]>, Memory>
    requires { length tile.now ≡ 8192 }
    ensures count { IfOk result (λ nodes. length nodes.items ≡ 256) }
    ensures each { IfOk result (λ nodes. HasTileHashes tile.now nodes.items) }
{
    let mut nodes = Vec::with_capacity(alloc, NODES)?;
    for at in 0..WIDTH {
        let mut hash = [0; HASH];
        hash.copy_from_slice(&tile[HASH * at..HASH * at + HASH]);
        nodes.push(hash)?;
    }
    Ok(nodes)
}

// Appends to these nodes the nodes above them.
fn put_parents<H: TreeHash>(nodes: &mut Vec<[u8; 32]>) -> Result<(), Memory>
    requires { length nodes.old.items ≡ 256 }
    ensures count { OnOk result (length nodes.new.items ≡ 511) }
    ensures kept { OnOk result ((i : ℕ) → i < 256
        → slice_index_or nodes.new.items i [] ≡ slice_index_or nodes.old.items i []) }
    ensures paired { OnOk result (ArePaired H.hash 255 nodes.new.items) }
{
    for at in 0..WIDTH - 1 {
        let parent = pair::<H>(&nodes[2 * at], &nodes[2 * at + 1]);
        nodes.push(parent)?;
    }
    Ok(())
}

// Where the nodes of a level begin.
fn start_of(level: u32) -> usize
    requires { level < 8 }
    ensures { result ≡ 512 - 2 ^ (9 - level) }
{
    512 - (1 << (9 - level))
}

// The index of a node on its level of a tile.
fn index_in(level: u32, place: u64) -> usize
    requires { level < 8 }
    ensures { result ≡ place % 2 ^ (8 - level) }
{
    (place % (1 << (8 - level))) as usize
}

// The nodes of a tile.
#[derive(Drop)]
struct TileNodes<H: TreeHash> {
    nodes: Vec<[u8; 32]>,
    function: PhantomData<H>,
    ghost count: { length nodes.items ≡ 511 },
    ghost paired: { ArePaired H.TreeHash.hash 255 nodes.items },
}

impl<H: TreeHash> TileNodes<H> {
    fn new(alloc: Global, tile: &[u8]) -> Result<TileNodes<H>, Memory>
        requires { length tile.now ≡ 8192 }
        ensures { IfOk result (λ it. HasTileHashes tile.now it.nodes.items) }
    {
        let mut nodes = hashes_of(alloc, tile)?;
        put_parents::<H>(&mut nodes)?;
        Ok(TileNodes {
            nodes,
            function: PhantomData,
        })
    }

    // Whether they are those of this tile.
    fn is_of(&self, tile: &[u8]) -> bool
        requires { length tile.now ≡ 8192 }
        ensures { IsTrue result → HasTileHashes tile.now self.now.nodes.items }
    {
        bytes_of(&self.nodes[..WIDTH]) == tile
    }

    // A node of the tile.
    fn node(&self, level: u32, place: u64) -> [u8; 32]
        ensures { (tile : Text) → HasTileHashes tile self.now.nodes.items
            → IsNodeIn H.hash tile (place % 2 ^ (8 - level % 8) * 2 ^ (level % 8)) (2 ^ (level % 8))
            result }
    {
        let low = level % 8;
        self.nodes[start_of(low) + index_in(low, place)]
    }
}

/// The nodes of tiles that frames hold or held, of at most one tile for each frame.
#[derive(Drop)]
pub(crate) struct FrameNodes<H: TreeHash> {
    tiles: Vec<TileNodes<H>>,
}

impl<H: TreeHash> FrameNodes<H> {
    /// None. It takes no memory.
    pub(crate) fn new(alloc: Global) -> FrameNodes<H>
        ensures { result.tiles.items ≡ [] }
    {
        FrameNodes {
            tiles: Vec::new(alloc),
        }
    }

    // The node, if the nodes of the tile are retained.
    fn kept(&self, slot: usize, tile: &[u8], level: u32, place: u64) -> Option<[u8; 32]>
        requires { length tile.now ≡ 8192 }
        ensures { IfSome result (IsNodeIn H.hash tile.now
            (place % 2 ^ (8 - level % 8) * 2 ^ (level % 8)) (2 ^ (level % 8))) }
    {
        let nodes = self.tiles.get(slot)?;
        if !nodes.is_of(tile) {
            return None;
        }
        Some(nodes.node(level, place))
    }

    // Stores the nodes of a tile for a frame, instead of others.
    fn keep(&mut self, slot: usize, nodes: TileNodes<H>) -> Result<(), Memory>
        ensures { length self.new.tiles.items ≤ max (slot + 1) (length self.old.tiles.items) }
    {
        match self.tiles.get_mut(slot) {
            Some(kept) => drop(replace(kept, nodes)),
            None => self.tiles.push(nodes)?,
        }
        Ok(())
    }

    /// The node of a tile that stands in the frame of a slot. One of the tile's own hashes is
    /// copied. Another is looked up among the tile's nodes, which are retained then; if memory is
    /// refused for them, it is hashed alone.
    pub(crate) fn node(&mut self, slot: usize, tile: &[u8], level: u32, place: u64) -> [u8; 32]
        requires whole { length tile.now ≡ 8192 }
        requires small { level < 64 }
        ensures node { IsNodeIn H.hash tile.now (place % 2 ^ (8 - level % 8) * 2 ^ (level % 8))
            (2 ^ (level % 8)) result }
        ensures few { length self.new.tiles.items ≤ max (slot + 1) (length self.old.tiles.items) }
    {
        if level % 8 == 0 {
            return node_alone::<H>(tile, level, place);
        }
        if let Some(hash) = self.kept(slot, tile, level, place) {
            return hash;
        }
        match TileNodes::<H>::new(*self.tiles.allocator(), tile) {
            Ok(nodes) => {
                let hash = nodes.node(level, place);
                let _ = self.keep(slot, nodes);
                hash
            }
            Err(Memory) => node_alone::<H>(tile, level, place),
        }
    }
}
