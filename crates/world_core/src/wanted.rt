//! The hash that a list has to have.

ghost use Rattle.std.specs.Prelude.{◌≡◌, ◌≤◌, IfSome, MatchOption, None, Some, option_map};
ghost use Rattle.world_core.specs.Audit.{IsForeign, foreign_in, hash_there, of_checkpoint};
ghost use Rattle.world_core.specs.Audit.{wanted_hash};

use crate::answer::Audit;
use cosigner_core::{Checkpoint, Export};
use cosigner_steps::held_by;
use entry_list::Entries;
use policy_core::{Accepted, By};
use tree_core::TreeHash;
use tree_proofs::{EntryList, list_hash, part_between};

/// The hash that the entries from `start` up to `end`, without `end`, have to have.
#[derive(Clone, Copy, Debug)]
pub struct WantedHash {
    pub start: u64,
    pub end: u64,
    pub hash: [u8; 32],
}

/// What is wanted of a list: by a landmark the accepted hash of the interval; by cosigners that of
/// all that is held at last by the one of the export.
pub fn wanted_hash<H: TreeHash>(accepted: &Accepted, kept: Option<&Export>) -> Option<WantedHash>
    ensures { result ≡ wanted_hash H.hash accepted.now (option_map (λ e. e.now) kept.entry)
        accepted.now.by }
{
    match accepted.by {
        By::Landmark => {
            let hash = accepted.hash;
            Some(WantedHash {
                start: accepted.start,
                end: accepted.end,
                hash,
            })
        }
        By::Cosigners(_) => match kept {
            Some(export) => Some(wanted_of(&held_by::<H>(export.steps.as_slice()))),
            None => None,
        },
    }
}

// The entries of a checkpoint.
fn wanted_of(held: &Checkpoint) -> WantedHash
    ensures { result ≡ of_checkpoint held.now }
{
    let hash = held.root;
    WantedHash {
        start: 0,
        end: held.size,
        hash,
    }
}

// The hash that the list has there, of its entries as far as they are there.
fn hash_there<H: TreeHash>(entries: &Entries<'_>, wanted: &WantedHash) -> [u8; 32]
    requires { wanted.now.start ≤ wanted.now.end }
    ensures { result ≡ hash_there H.hash entries.now wanted.now }
{
    let size = entries.len() as u64;
    if wanted.end <= size {
        return list_hash::<H, _>(&part_between(entries, wanted.start, wanted.end));
    }
    if wanted.start <= size {
        return list_hash::<H, _>(&entries.after(wanted.start as usize));
    }
    list_hash::<H, _>(&entries.prefix(0))
}

// The same of a hash that is wanted.
fn foreign_to<H: TreeHash>(entries: &Entries<'_>, wanted: &WantedHash) -> Option<Audit>
    requires { wanted.now.start ≤ wanted.now.end }
    ensures { MatchOption result
        (foreign_in H.hash entries.now (Some wanted.now) ≡ None)
        (IsForeign (foreign_in H.hash entries.now (Some wanted.now))) }
{
    let found = hash_there::<H>(entries, wanted);
    if (entries.len() as u64) < wanted.end || found != wanted.hash {
        let hash = wanted.hash;
        return Some(Audit::Foreign {
            wanted: hash,
            found,
        });
    }
    None
}

/// The hash that is wanted and the one that the list has, where it is too short or they differ.
pub(crate) fn foreign<H: TreeHash>(
    entries: &Entries<'_>,
    wanted: Option<WantedHash>,
) -> Option<Audit>
    requires { IfSome wanted (λ w. w.start ≤ w.end) }
    ensures { MatchOption result (foreign_in H.hash entries.now wanted ≡ None)
        (IsForeign (foreign_in H.hash entries.now wanted)) }
{
    match wanted {
        Some(wanted) => foreign_to::<H>(entries, &wanted),
        None => None,
    }
}
