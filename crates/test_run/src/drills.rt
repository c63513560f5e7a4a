//! What is printed of drills.

use crate::scripts::{Outcome, outcome_of};
use drill_core::play_drill;
use std::alloc::Global;
use std::test::Fail;
use tree_core::Sha;

// The expected values are those of an implementation that was written apart from the program.
const SCRIPT: &str = r#"
case a drill that is played twice, by two functions for hashing
$ drill 7
| drill 7
| entries 32
| landmarks 6
| signatures 48
| stops 19
| verified 16
| stands 48
| light 6
toy
$ drill 7
| drill 7
| entries 32
| landmarks 6
| signatures 48
| stops 19
| verified 16
| stands 48
| light 6

case the output fails
takes 9
out-fails 1
$ drill 7
status 6
| drill 7
|= e
! mtc: drill: OutputFailed
"#;

#[test]
fn a_drill_prints_eight_lines(rt: HostRuntime) -> Result<(), Fail> {
    let outcome = outcome_of(rt.alloc(), SCRIPT)?;
    assert!(rt; outcome == Outcome::Passed(3), "{outcome:?}");
    Ok(())
}

// A script that plays a drill and wants the numbers of what `play_drill` answers for it.
fn script_of(alloc: Global, number: u64) -> Result<String, Fail> {
    let counts = play_drill::<Sha>(alloc, number)?.counts;
    let mut script = format!(in alloc; "$ drill {number}\n| drill {number}\n")?;
    for (name, count) in [
        ("entries", counts.entries),
        ("landmarks", counts.landmarks),
        ("signatures", counts.signatures),
        ("stops", counts.stops),
        ("verified", counts.verified),
        ("stands", counts.stands),
        ("light", counts.light),
    ] {
        write!(script, "| {name} {count}\n")?;
    }
    Ok(script)
}

// In each of these drills a record that was stopped is there when the party is opened again.
#[test]
fn the_numbers_are_those_of_the_output(rt: HostRuntime) -> Result<(), Fail> {
    for number in [5, 48] {
        let script = script_of(rt.alloc(), number)?;
        let outcome = outcome_of(rt.alloc(), script.as_str())?;
        assert!(rt; outcome == Outcome::Passed(1), "{number}: {outcome:?}");
    }
    Ok(())
}
