//! Histories of a log, a cosigner and a mirror, step by step.

use cosigner_core::CosignerSettings;
use hss_core::{LmsType, OtsType};
use issuance_log::LogSettings;
use mtc_io::{Bytes, Memory};
use party_history::{HistoryError, PartyStart, PartyState, PartyStep, history};
use std::alloc::Global;
use std::test::Fail;
use tls_wire::AnchorId;
use tree_core::Sha;

// A Landmark at size 1, that of a new log.
const MARK: [u8; 9] = [3, 0, 0, 0, 0, 0, 0, 0, 1];

// An Advance to size 1, which a new cosigner holds without a proof.
const ADVANCE: [u8; 43] = [
    0x12, 0, 0, 0, 0, 0, 0, 0, 1, 7, 7, 7, 7, 7, 7, 7, 7, 7, 7, 7, 7, 7, 7, 7, 7, 7, 7, 7, 7, 7, 7,
    7, 7, 7, 7, 7, 7, 7, 7, 7, 7, 0, 0,
];

// A Sign of that entry by the first one-time key.
const SIGN: [u8; 55] = [
    0x13, 0, 0, 0, 0, 0, 0, 0, 0, 0, 0, 0, 0, 0, 0, 0, 0, 0, 0, 0, 1, 7, 7, 7, 7, 7, 7, 7, 7, 7, 7,
    7, 7, 7, 7, 7, 7, 7, 7, 7, 7, 7, 7, 7, 7, 7, 7, 7, 7, 7, 7, 7, 7, 0, 0,
];

// A Batch of the null entry alone, which has no key.
const BATCH: [u8; 9] = [0x22, 0, 1, 0, 2, 0, 0, 0, 0];

// The same with a key beside it.
const KEYED: [u8; 10] = [0x22, 0, 1, 0, 2, 0, 0, 0, 1, 7];

// A Tiles at size 256.
const TILES: [u8; 9] = [4, 0, 0, 0, 0, 0, 0, 1, 0];

// What a party does.
#[derive(Clone, Copy)]
enum Action {
    Batch,
    Keyed,
    Tiles,
    Mark,
    Advance,
    Sign,
    Child(u8),
    MakeDurable,
    Release,
    Stop(bool),
}

fn step_of(alloc: Global, party: u32, action: Action) -> Result<PartyStep, Memory> {
    Ok(match action {
        Action::Batch => PartyStep::Begin {
            party,
            body: Bytes::copy_of(alloc, &BATCH)?,
        },
        Action::Keyed => PartyStep::Begin {
            party,
            body: Bytes::copy_of(alloc, &KEYED)?,
        },
        Action::Tiles => PartyStep::Begin {
            party,
            body: Bytes::copy_of(alloc, &TILES)?,
        },
        Action::Mark => PartyStep::Begin {
            party,
            body: Bytes::copy_of(alloc, &MARK)?,
        },
        Action::Advance => PartyStep::Begin {
            party,
            body: Bytes::copy_of(alloc, &ADVANCE)?,
        },
        Action::Sign => PartyStep::Begin {
            party,
            body: Bytes::copy_of(alloc, &SIGN)?,
        },
        // A lower tree of height 5.
        Action::Child(number) => PartyStep::Begin {
            party,
            body: Bytes::copy_of(alloc, &[0x14, 0, 0, 0, number, 0, 0, 0, 5])?,
        },
        Action::MakeDurable => PartyStep::MakeDurable { party },
        Action::Release => PartyStep::Release { party },
        Action::Stop(kept) => PartyStep::Stop { party, kept },
    })
}

fn id(alloc: Global, text: &str) -> Result<AnchorId, Fail> {
    Ok(AnchorId::from_text(alloc, text)?)
}

fn log(alloc: Global) -> Result<PartyStart, Fail> {
    Ok(PartyStart::Log(LogSettings {
        id: id(alloc, "32473.1")?,
        max_active: 2,
        limit: 64,
    }))
}

fn cosigner(alloc: Global, low: Option<LmsType>) -> Result<PartyStart, Fail> {
    Ok(PartyStart::Cosigner {
        settings: CosignerSettings {
            id: id(alloc, "32473.2")?,
            log: id(alloc, "32473.1")?,
            lms: LmsType::H5,
            low,
            ots: OtsType::W4,
        },
        public: [0; 60],
    })
}

fn steps_of(alloc: Global, actions: &[(u32, Action)]) -> Result<Vec<PartyStep>, Memory> {
    let mut steps = Vec::new(alloc);
    for (party, action) in actions {
        steps.push(step_of(alloc, *party, *action)?)?;
    }
    Ok(steps)
}

// What a history of these steps answers.
fn reported(
    alloc: Global,
    starts: &[PartyStart],
    steps: &[PartyStep],
) -> Result<Vec<PartyState>, HistoryError> {
    history::<Sha>(alloc, starts, steps)
}

fn states(
    alloc: Global,
    starts: &[PartyStart],
    actions: &[(u32, Action)],
) -> Result<Result<Vec<PartyState>, HistoryError>, Fail> {
    let steps = steps_of(alloc, actions)?;
    Ok(reported(alloc, starts, steps.as_slice()))
}

// Of each party, how many records are durable, how many were released, and the number of the last
// of these; party 0 is a log, and party 1 a cosigner.
type Counts = (usize, usize, u64);

fn counts_of(state: &PartyState) -> Counts {
    let last = match state.released.as_slice().last() {
        Some(number) => *number,
        None => 0,
    };
    (state.durable.len(), state.released.len(), last)
}

fn counts(
    alloc: Global,
    actions: &[(u32, Action)],
) -> Result<Result<(Counts, Counts), HistoryError>, Fail> {
    let starts = [log(alloc)?, cosigner(alloc, None)?];
    match states(alloc, &starts, actions)? {
        Err(why) => Ok(Err(why)),
        Ok(states) => match states.as_slice() {
            [first, second] => Ok(Ok((counts_of(first), counts_of(second)))),
            _ => Err(Fail::from("nodes are missing")),
        },
    }
}

#[test]
fn steps_are_allowed_or_reported(rt: HostRuntime) -> Result<(), Fail> {
    let cases: [(&[(u32, Action)], Result<(Counts, Counts), HistoryError>); 12] = [
        (&[], Ok(((0, 0, 0), (0, 0, 0)))),
        (&[(2, Action::Stop(true))], Err(HistoryError::NotAStep(0))),
        (&[(0, Action::Release)], Err(HistoryError::NotAStep(0))),
        (&[(0, Action::Advance)], Err(HistoryError::NotAStep(0))),
        (
            &[(0, Action::Mark), (0, Action::Mark)],
            Err(HistoryError::NotAStep(1)),
        ),
        (
            &[
                (0, Action::Mark),
                (0, Action::MakeDurable),
                (0, Action::Mark),
            ],
            Err(HistoryError::NotAStep(2)),
        ),
        (
            &[
                (0, Action::Mark),
                (0, Action::MakeDurable),
                (0, Action::Release),
                (0, Action::Release),
            ],
            Err(HistoryError::NotAStep(3)),
        ),
        (
            &[
                (0, Action::Mark),
                (0, Action::Stop(true)),
                (0, Action::Release),
            ],
            Err(HistoryError::NotAStep(2)),
        ),
        (
            &[(0, Action::Mark), (0, Action::Stop(true))],
            Ok(((1, 0, 0), (0, 0, 0))),
        ),
        (
            &[
                (0, Action::Mark),
                (0, Action::Stop(false)),
                (0, Action::Mark),
                (0, Action::MakeDurable),
                (0, Action::Release),
            ],
            Ok(((1, 1, 1), (0, 0, 0))),
        ),
        (
            &[
                (1, Action::Advance),
                (0, Action::Mark),
                (1, Action::MakeDurable),
                (1, Action::Release),
            ],
            Ok(((0, 0, 0), (1, 1, 1))),
        ),
        (
            &[
                (1, Action::Advance),
                (1, Action::MakeDurable),
                (1, Action::Advance),
            ],
            Err(HistoryError::NotAStep(2)),
        ),
    ];
    for (actions, wanted) in cases {
        assert!(rt;
            counts(rt.alloc(), actions)? == wanted,
            "{} steps",
            actions.len()
        );
    }
    Ok(())
}

#[test]
fn one_cosigner_has_nothing_pending(rt: HostRuntime) -> Result<(), Fail> {
    let starts = [cosigner(rt.alloc(), None)?];
    let ends = states(rt.alloc(), &starts, &[(0, Action::MakeDurable)])?;
    assert!(rt; ends.err() == Some(HistoryError::NotAStep(0)));
    Ok(())
}

// The same of a cosigner alone, by the height of its lower trees if it has any.
fn counts_alone(
    alloc: Global,
    low: Option<LmsType>,
    actions: &[(u32, Action)],
) -> Result<Result<Counts, HistoryError>, Fail> {
    match states(alloc, &[cosigner(alloc, low)?], actions)? {
        Err(why) => Ok(Err(why)),
        Ok(states) => match states.as_slice() {
            [state] => Ok(Ok(counts_of(state))),
            _ => Err(Fail::from("nodes are missing")),
        },
    }
}

#[test]
fn a_lower_tree_is_a_step(rt: HostRuntime) -> Result<(), Fail> {
    let low = Some(LmsType::H5);
    let cases: [(
        Option<LmsType>,
        &[(u32, Action)],
        Result<Counts, HistoryError>,
    ); 6] = [
        (
            None,
            &[(0, Action::Child(0))],
            Err(HistoryError::NotAStep(0)),
        ),
        (
            low,
            &[(0, Action::Child(1))],
            Err(HistoryError::NotAStep(0)),
        ),
        (
            Some(LmsType::H10),
            &[(0, Action::Child(0))],
            Err(HistoryError::NotAStep(0)),
        ),
        (
            low,
            &[
                (0, Action::Child(0)),
                (0, Action::MakeDurable),
                (0, Action::Child(1)),
            ],
            Err(HistoryError::NotAStep(2)),
        ),
        (
            low,
            &[
                (0, Action::Advance),
                (0, Action::MakeDurable),
                (0, Action::Sign),
            ],
            Err(HistoryError::NotAStep(2)),
        ),
        (
            low,
            &[
                (0, Action::Advance),
                (0, Action::MakeDurable),
                (0, Action::Child(0)),
                (0, Action::MakeDurable),
                (0, Action::Release),
                (0, Action::Sign),
                (0, Action::MakeDurable),
                (0, Action::Release),
            ],
            Ok((3, 2, 3)),
        ),
    ];
    for (low, actions, wanted) in cases {
        assert!(rt;
            counts_alone(rt.alloc(), low, actions)? == wanted,
            "{} steps",
            actions.len()
        );
    }
    Ok(())
}

// The same of a mirror alone.
fn mirror_counts(
    alloc: Global,
    actions: &[(u32, Action)],
) -> Result<Result<Counts, HistoryError>, Fail> {
    let starts = [PartyStart::Mirror(id(alloc, "32473.1")?)];
    match states(alloc, &starts, actions)? {
        Err(why) => Ok(Err(why)),
        Ok(states) => match states.as_slice() {
            [state] => Ok(Ok(counts_of(state))),
            _ => Err(Fail::from("nodes are missing")),
        },
    }
}

#[test]
fn a_mirror_takes_its_own_records(rt: HostRuntime) -> Result<(), Fail> {
    let cases: [(&[(u32, Action)], Result<Counts, HistoryError>); 6] = [
        (&[(0, Action::Mark)], Err(HistoryError::NotAStep(0))),
        (&[(0, Action::Keyed)], Err(HistoryError::NotAStep(0))),
        (&[(0, Action::Tiles)], Err(HistoryError::NotAStep(0))),
        (
            &[
                (0, Action::Batch),
                (0, Action::MakeDurable),
                (0, Action::Tiles),
            ],
            Err(HistoryError::NotAStep(2)),
        ),
        (
            &[
                (0, Action::Batch),
                (0, Action::Stop(false)),
                (0, Action::Batch),
                (0, Action::MakeDurable),
                (0, Action::Release),
                (0, Action::Batch),
                (0, Action::Stop(true)),
            ],
            Ok((2, 1, 1)),
        ),
        (&[(1, Action::Batch)], Err(HistoryError::NotAStep(0))),
    ];
    for (actions, wanted) in cases {
        assert!(rt;
            mirror_counts(rt.alloc(), actions)? == wanted,
            "{} steps",
            actions.len()
        );
    }
    Ok(())
}
