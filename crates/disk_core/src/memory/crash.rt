//! What is left of a disk in memory after a crash.

ghost use Rattle.std.specs.Prelude.{◌≡◌, ◌↔◌, ◌≤◌, ◌<◌, ◌/◌, ℕ, length, slice_index, OnOk, IfOk};
ghost use Rattle.std.specs.Prelude.{IsTrue};
ghost use Rattle.disk_core.specs.Calls.{calls_in};
ghost use Rattle.disk_core.specs.Disk.{Torn};
ghost use Rattle.disk_core.specs.Replay.{State, step, state_now, IsCrashState};

use crate::memory::call::{Call, Change, Made};
use crate::memory::history::{law_known_bytes, overwrite};
use mtc_io::Memory;
use std::alloc::{AllocError, Global};

// What becomes of a write, by the lowest bits of the choice: nothing of it is left, all, its prefix
// alone, or its prefix with other bytes after it, but where it is written as it was. The next bits
// say how long the prefix is, in quarters.
fn tear(crash_state: &mut Vec<u8>, place: u64, piece: &[u8], choice: u64) -> Result<(), Memory>
    ensures { OnOk result (Torn place piece.now crash_state.old.items crash_state.new.items) }
{
    let prefix = piece.len() / 4 * (choice / 4 % 4) as usize;
    match choice % 4 {
        0 => Ok(()),
        1 => overwrite(crash_state, place, piece),
        2 => put_prefix(crash_state, place, piece, prefix),
        _ => spoil(crash_state, place, piece, prefix),
    }
}

// The prefix of the piece alone: if the piece reaches past the end, the file is cut short after the
// prefix.
fn put_prefix(
    crash_state: &mut Vec<u8>,
    place: u64,
    piece: &[u8],
    prefix: usize,
) -> Result<(), Memory>
    requires { prefix ≤ length piece.now }
    ensures { OnOk result (Torn place piece.now crash_state.old.items crash_state.new.items) }
{
    overwrite(crash_state, place, &piece[..prefix])?;
    Ok(())
}

// The prefix of the piece and other bytes after it, also past the end of the file if the piece
// reaches it. A byte that is written as it was stays.
fn spoil(crash_state: &mut Vec<u8>, place: u64, piece: &[u8], prefix: usize) -> Result<(), Memory>
    requires { prefix ≤ length piece.now }
    ensures { OnOk result (Torn place piece.now crash_state.old.items crash_state.new.items) }
{
    let reaches = crash_state.len() <= piece.len()
        || place as usize >= crash_state.len() - piece.len();
    put_spoilt(crash_state, place, piece, prefix)?;
    if reaches {
        crash_state.extend_from_slice(&piece[..prefix])?;
    }
    Ok(())
}

// The piece with other bytes after its prefix, over what is there.
fn put_spoilt(
    crash_state: &mut Vec<u8>,
    place: u64,
    piece: &[u8],
    prefix: usize,
) -> Result<(), Memory>
    ensures { OnOk result (Torn place piece.now crash_state.old.items crash_state.new.items) }
{
    let start = crash_state.len().min(place as usize);
    let bytes = spoilt(
        *crash_state.allocator(),
        &crash_state[start..],
        piece,
        prefix,
    )?;
    overwrite(crash_state, place, &bytes)?;
    Ok(())
}

// The bytes have this one at an index.
fn has_at(bytes: &[u8], index: usize, byte: u8) -> bool
    ensures { IsTrue result
        ↔ (index < length bytes.now) × (slice_index bytes.now index ≡ byte) }
{
    index < bytes.len() && bytes[index] == byte
}

// The piece with each byte from an index on turned into another, but where it is there already.
fn spoilt(alloc: Global, there: &[u8], piece: &[u8], prefix: usize) -> Result<Vec<u8>, AllocError>
    ensures size { IfOk result (λ v. length v.items ≡ length piece.now) }
    ensures same { IfOk result (λ v. (k : ℕ) → k < length piece.now → k < length there.now
        → slice_index piece.now k ≡ slice_index there.now k
        → slice_index v.items k ≡ slice_index there.now k) }
{
    let mut bytes = Vec::from_slice(alloc, piece)?;
    for index in prefix..piece.len() {
        if !has_at(there, index, piece[index]) {
            bytes[index] = 255 - piece[index];
        }
    }
    Ok(bytes)
}

// A copy of what is seen, for a sync; a torn write; or nothing.
fn replay(
    seen: &mut Vec<u8>,
    crash_state: &mut Vec<u8>,
    made: &Made,
    choice: u64,
) -> Result<(), Memory>
    ensures { OnOk result
        ((s : State) → seen.old.items ≡ s.seen → IsCrashState s crash_state.old.items
        → (seen.new.items ≡ (step s made.now).seen)
        × IsCrashState (step s made.now) crash_state.new.items) }
{
    match &made.call {
        Call::Len => Ok(()),
        Call::Read { .. } => Ok(()),
        Call::Write { place, piece } => {
            tear(crash_state, *place, piece.as_slice(), choice)?;
            law_known_bytes(crash_state);
            if made.ok {
                overwrite(seen, *place, piece.as_slice())?;
            }
            Ok(())
        }
        Call::Sync => {
            if made.ok {
                *crash_state = Vec::from_slice(*seen.allocator(), seen)?;
            }
            Ok(())
        }
    }
}

// One of the crash states, by the choice.
pub(crate) fn left(
    alloc: Global,
    first: &[u8],
    changes: &[Change],
    pick: u64,
) -> Result<Vec<u8>, Memory>
    ensures { IfOk result (λ crash_state. (only_reads : ℕ)
        → IsCrashState (state_now first.now (calls_in changes.now only_reads)) crash_state.items) }
{
    let mut seen = Vec::from_slice(alloc, first)?;
    let mut crash_state = Vec::from_slice(alloc, first)?;
    let mut choice = pick;
    for change in changes {
        replay(&mut seen, &mut crash_state, &change.made, choice)?;
        choice = match change.made.call {
            Call::Write { .. } => choice / 4 + choice % 4 * (1 << 62),
            Call::Sync if change.made.ok => pick,
            _ => choice,
        };
    }
    Ok(crash_state)
}
