//! The records of a journal beside the history of its party.

use crate::coded::field;
use cosigner_core::CosignerSettings;
use disk_core::MemDisk;
use hss_core::{LmsType, OtsType};
use issuance_log::LogSettings;
use journal_core::Opening;
use mtc_io::Bytes;
use party_history::{PartyStart, PartyState, PartyStep, history};
use std::alloc::Global;
use tls_wire::AnchorId;
use tree_core::Sha;

// The most entries of a log here.
const MOST_ENTRIES: u32 = 1024;

/// A party before a command is done: its first record, and the state in which its other records are
/// durable and the command's record is pending.
#[derive(Drop)]
pub struct Model {
    first: Bytes,
    state: PartyState,
}

fn opened(alloc: Global, bytes: &[u8]) -> Option<Opening<MemDisk>> {
    let bytes = Bytes::copy_of(alloc, bytes).ok()?;
    match Opening::begin(alloc, MemDisk::over(alloc, bytes, Vec::new(alloc))) {
        Ok(opening) => Some(opening),
        Err(_) => None,
    }
}

// Appends the body of the next record to the others: whether there is one.
fn read_next(
    alloc: Global,
    opening: &mut Opening<MemDisk>,
    bodies: &mut Vec<Bytes>,
) -> Option<bool> {
    match opening.next() {
        Ok(Some(body)) => {
            bodies.push(Bytes::copy_of(alloc, body).ok()?).ok()?;
            Some(true)
        }
        Ok(None) => Some(false),
        Err(_) => None,
    }
}

fn read_on(alloc: Global, opening: &mut Opening<MemDisk>, bodies: &mut Vec<Bytes>) -> Option<()> {
    for _ in 0..1000 {
        if !read_next(alloc, opening, bodies)? {
            return Some(());
        }
    }
    None
}

// The bodies of the records that a file is read as; none where it isn't a journal.
fn bodies_in(alloc: Global, bytes: &[u8]) -> Option<Vec<Bytes>> {
    let mut opening = opened(alloc, bytes)?;
    let mut bodies = Vec::new(alloc);
    read_on(alloc, &mut opening, &mut bodies)?;
    Some(bodies)
}

fn begin(alloc: Global, steps: &mut Vec<PartyStep>, body: &[u8]) -> Option<()> {
    let body = Bytes::copy_of(alloc, body).ok()?;
    steps.push(PartyStep::Begin { party: 0, body }).ok()
}

// Each of these records begins and becomes durable, and one more begins.
fn steps_of(alloc: Global, durable: &[Bytes], pending: &[u8]) -> Option<Vec<PartyStep>> {
    let mut steps = Vec::new(alloc);
    for body in durable {
        begin(alloc, &mut steps, body.as_slice())?;
        steps.push(PartyStep::MakeDurable { party: 0 }).ok()?;
    }
    begin(alloc, &mut steps, pending)?;
    Some(steps)
}

fn log_start(log: AnchorId, limit: u32) -> Option<PartyStart> {
    if limit < 2 || MOST_ENTRIES < limit {
        return None;
    }
    Some(PartyStart::Log(LogSettings {
        id: log,
        max_active: 2,
        limit,
    }))
}

fn cosigner_start(alloc: Global, log: AnchorId, low: Option<LmsType>) -> Option<PartyStart> {
    let settings = CosignerSettings {
        id: AnchorId::from_text(alloc, "32473.2").ok()?,
        log,
        lms: LmsType::H5,
        low,
        ots: OtsType::W1,
    };
    Some(PartyStart::Cosigner {
        settings,
        public: [0; 60],
    })
}

// The height of the lower trees of a case's cosigner, if its key has some.
fn lower_of(case: &str) -> Option<LmsType> {
    match field(case, "lower") {
        "" => None,
        _ => Some(LmsType::H5),
    }
}

// How the party of a case begins: a log has a limit, and a cosigner has none; a mirror says so.
fn start_of(alloc: Global, case: &str) -> Option<PartyStart> {
    let log = AnchorId::from_text(alloc, "32473.1").ok()?;
    if !field(case, "mirror").is_empty() {
        return Some(PartyStart::Mirror(log));
    }
    match field(case, "limit") {
        "" => cosigner_start(alloc, log, lower_of(case)),
        limit => log_start(log, limit.parse::<u32>().ok()?),
    }
}

// The state after these steps of a party, if the rules allow them.
fn state_after(alloc: Global, start: PartyStart, steps: &[PartyStep]) -> Option<PartyState> {
    match history::<Sha>(alloc, &[start], steps) {
        Ok(mut states) => states.pop(),
        Err(_) => None,
    }
}

impl Model {
    /// The party of a case, of which a file has these records, and whose command adds one with this
    /// body. None where the rules of its records don't allow them.
    pub fn of(alloc: Global, case: &str, journal: &[u8], body: &[u8]) -> Option<Model> {
        let bodies = bodies_in(alloc, journal)?;
        let (first, durable) = bodies.as_slice().split_first()?;
        let steps = steps_of(alloc, durable, body)?;
        let state = state_after(alloc, start_of(alloc, case)?, steps.as_slice())?;
        let first = Bytes::copy_of(alloc, first.as_slice()).ok()?;
        Some(Model { first, state })
    }

    // Whether these bodies are the durable ones with the pending one, or without it.
    fn matched(&self, bodies: &[Bytes]) -> Option<bool> {
        let durable = self.state.durable.as_slice();
        for (found, wanted) in bodies.iter().zip(durable) {
            if found.as_slice() != wanted.as_slice() {
                return None;
            }
        }
        match (&self.state.pending, bodies.len().checked_sub(durable.len())) {
            (Some(_), Some(0)) => Some(false),
            (Some(pending), Some(1)) if bodies.last()?.as_slice() == pending.as_slice() => Some(
                true,
            ),
            _ => None,
        }
    }

    /// Whether a file has the records of the party with the pending one, or without it. None where
    /// it has others.
    pub fn keeps(&self, alloc: Global, crash_state: &[u8]) -> Option<bool> {
        let bodies = bodies_in(alloc, crash_state)?;
        let (first, rest) = bodies.as_slice().split_first()?;
        if first.as_slice() == self.first.as_slice() {
            self.matched(rest)
        } else {
            None
        }
    }
}
