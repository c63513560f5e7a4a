//! The work of a command on a log whose journal is open: its own refusals, its text, and at most
//! one append, which is its last step.

ghost use Rattle.std.specs.Prelude.{◌≡◌, ◌≤◌, false};
ghost use Rattle.mtc_authority.specs.StoredTiles.{StoresTiles};
ghost use Rattle.mtc_authority.specs.Works.{HasWorkedOnLog, IsReadyLog, OnlyReadsTiles, StaysLog};
ghost use Rattle.mtc_authority.specs.Works.{lists_items, log_says};
ghost use Rattle.mtc_command.specs.Answers.{ending_of};

use crate::cert::{Signatures, certificate, light_certificate};
use crate::certs::{certificates, light_certificates};
use crate::checkpoint::checkpoint;
use crate::issue::issue_on;
use crate::issue_list::{Requests, issue_list_on};
use crate::marks::{list_landmarks, set_landmark};
use crate::requests::{consist, subtree};
use crate::switch::switch_on;
use crate::tiles::tile_on;
use authority_core::Request;
use disk_core::Disk;
use issuance_log::Log;
use mtc_command::{Answer, Stop};
use mtc_tiled::{FRAMES, OPENING_FRAMES};
use std::alloc::Global;
use tree_core::TreeHash;

/// What a command does with a log.
#[derive(Drop)]
pub enum Work {
    /// The size and the tree hash.
    Checkpoint,
    /// So many of the first entries.
    Entries(u64),
    /// The entries from the first number up to the second one, without it.
    EntriesFrom(u64, u64),
    /// One entry more: that of a request.
    Issue(Request),
    /// The request to hold the first `.1` entries, of a cosigner that holds the first `.0`.
    Consist(u64, u64),
    /// The request to sign the subtree from the first number up to the second one, of so many of
    /// the first entries.
    Subtree(u64, u64, u64),
    /// A landmark more, at the size.
    Landmark,
    /// The list of the active landmarks.
    Landmarks,
    /// The certificate of the entry at this index without signatures, in the subtree that an active
    /// landmark has for it.
    LightCert(u64),
    /// The certificate of the entry at the first number, in the subtree from the second number up
    /// to the third one, with these signatures.
    Cert(u64, u64, u64, Signatures),
    /// As many entries more as there are requests: those of the requests, in their order.
    IssueList(Requests),
    /// The certificates of the entries from the first number up to the second one, without it,
    /// without signatures, as PEM.
    LightCerts(u64, u64),
    /// The certificates of the entries from the first number up to the second one, without it, in
    /// the subtree from the third number up to the fourth one, with these signatures, as PEM.
    Certs(u64, u64, u64, u64, Signatures),
    /// From the size on entries name the algorithm of their key.
    Switch,
    /// The tiles that the entries fill are stored.
    Tile,
}

impl Work {
    /// How many frames the pool of the log has for this work: few where it asks for no node.
    pub(crate) fn frames(&self) -> usize
        ensures some { 1 ≤ result }
        ensures few { result ≤ 65536 }
    {
        match self {
            Work::Issue(_)
            | Work::IssueList(_)
            | Work::Landmark
            | Work::Landmarks
            | Work::Switch
            | Work::Entries(_)
            | Work::EntriesFrom(_, _) => OPENING_FRAMES,
            _ => FRAMES,
        }
    }
}

/// Carries out a command on the log of a journal, unless it lists items. A failure of a device is
/// reported with the name of its file. The device of the tiles is only read, unless tiles are
/// stored.
#[tactic(auto, unfolding(crate::specs::Works::log_says))]
pub fn carry_out<'a, H: TreeHash, D: Disk>(
    alloc: Global,
    journal: &'a str,
    log: &mut Log<H, D, D>,
    work: Work,
) -> Result<Answer, Stop<'a>>
    requires ready { IsReadyLog log.old }
    requires kept { lists_items work ≡ false }
    ensures works { HasWorkedOnLog journal.now (log_says H.hash work) log.old log.new
        (ending_of result) }
    ensures valid { StaysLog H.hash (log_says H.hash work) log.old log.new }
    ensures only_read { OnlyReadsTiles work log.old log.new }
    ensures stores { StoresTiles work log.old log.new }
{
    match work {
        Work::Checkpoint => checkpoint(alloc, journal, log),
        Work::Entries(_) | Work::EntriesFrom(_, _) => unreachable!(),
        Work::Issue(request) => issue_on(alloc, journal, log, &request),
        Work::Consist(old, new) => consist(alloc, journal, log, old, new),
        Work::Subtree(start, end, size) => subtree(alloc, journal, log, start, end, size),
        Work::Landmark => set_landmark(alloc, journal, log),
        Work::Landmarks => list_landmarks(alloc, log),
        Work::LightCert(index) => light_certificate(alloc, journal, log, index),
        Work::Cert(index, start, end, signatures) => {
            certificate(alloc, journal, log, index, start, end, &signatures)
        }
        Work::IssueList(requests) => issue_list_on(alloc, journal, log, &requests),
        Work::LightCerts(first, last) => light_certificates(alloc, journal, log, first, last),
        Work::Certs(first, last, start, end, signatures) => {
            certificates(alloc, journal, log, first, last, start, end, &signatures)
        }
        Work::Switch => switch_on(alloc, journal, log),
        Work::Tile => tile_on(alloc, journal, log),
    }
}
