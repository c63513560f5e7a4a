//! Executions of eighty runs.

use crate::difference::Difference;
use crate::execution::{Execution, Tally};
use std::alloc::Global;
use std::test::Fail;

// Eighty runs; or the number of the run in which the execution and its history differ, and in what.
fn play(execution: &mut Execution) -> Result<(), (u64, Difference)> {
    for turn in 1..81 {
        if let Err(why) = execution.turn() {
            return Err((turn, why));
        }
    }
    Ok(())
}

// What came about in an execution and before it, or where it differs.
fn played(alloc: Global, seed: u64, tally: Tally) -> Result<Tally, (u64, Difference)> {
    let mut execution = match Execution::begin(alloc, seed, tally) {
        Ok(execution) => execution,
        Err(why) => return Err((0, why)),
    };
    play(&mut execution)?;
    Ok(execution.tally)
}

const NOTHING: Tally = Tally {
    refused: 0,
    failed: 0,
    kept: 0,
    gone: 0,
    silent: 0,
    cut: 0,
    stops: 0,
    within: 0,
};

// Whether each kind of end came.
fn has_all(tally: Tally) -> bool {
    let counts = [
        tally.refused,
        tally.failed,
        tally.kept,
        tally.gone,
        tally.silent,
        tally.cut,
        tally.stops,
        tally.within,
    ];
    counts.iter().all(|count| *count > 0)
}

#[test]
fn executions_are_histories(rt: HostRuntime) -> Result<(), Fail> {
    let mut tally = NOTHING;
    for seed in [1, 2] {
        let ended = played(rt.alloc(), seed, tally);
        assert!(rt; ended.is_ok(), "seed {seed}: {ended:?}");
        tally = ended.unwrap_or(NOTHING);
    }
    assert!(rt; has_all(tally), "{tally:?}");
    Ok(())
}
