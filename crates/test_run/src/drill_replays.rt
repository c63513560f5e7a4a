//! Drills in numbers, and what is counted again of one.

use crate::drill_audits::found_entries;
use crate::drill_summary::recounted;
use drill_core::{Counts, play_drill};
use std::test::Fail;
use tree_core::Sha;

// Of each number the entries, the landmarks, the signatures, the stops, how many of the calls that
// were stopped did not answer Ok, and after how many of those that sign nothing the record was
// there, all as `tests/drills.py` counts them from the draws alone. A call answers if its stop
// draws 4 below 5: all its device calls pass then. If it draws 3, an odd choice of the crash state
// alone has the record, and a signing is then made again: without stops each drill has 48
// signatures. So a number is another one where the log never stops, an advance or a signing, and
// where one crash state is taken for each choice.
const DRILLS: [(u64, u64, u64, u64, u64, u64, u64); 6] = [
    (3, 43, 5, 48, 13, 12, 1),
    (4, 31, 5, 48, 26, 19, 5),
    (5, 35, 4, 51, 18, 13, 4),
    (7, 32, 6, 48, 19, 14, 5),
    (48, 30, 7, 49, 11, 10, 3),
    (66, 36, 7, 49, 23, 17, 7),
];

#[test]
fn drills_are_as_their_numbers_draw_them(rt: HostRuntime) -> Result<(), Fail> {
    for (number, entries, landmarks, signatures, stops, unfinished, recovered) in DRILLS {
        let made = play_drill::<Sha>(rt.alloc(), number)?;
        let found = made.counts;
        let wanted = Counts {
            entries,
            landmarks,
            signatures,
            stops,
            verified: 16,
            stands: 48,
            light: landmarks,
        };
        assert!(rt; found == wanted, "{number}: {found:?}");
        let ends = (made.unfinished, made.recovered);
        assert!(rt; ends == (unfinished, recovered), "{number}: {ends:?}");
    }
    Ok(())
}

#[test]
fn the_output_of_drill_7_is_counted_again(rt: HostRuntime) -> Result<(), Fail> {
    let made = play_drill::<Sha>(rt.alloc(), 7)?;
    let found = recounted(rt.alloc(), &made)?;
    assert!(rt; found == (32, 6, 48, 16), "{found:?}");
    assert!(rt; found_entries(rt.alloc(), &made)? == 48);
    Ok(())
}
