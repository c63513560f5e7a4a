//! Arguments that are no command, by their first fault.

use crate::texts::owned_words;
use mtc_words::{Command, WordError, read_words};
use std::alloc::Global;

// Arguments, '' for an empty one, and the fault with its numbers.
const CASES: &str = "\
 => NoCommand
frob => UnknownCommand
--help => UnknownCommand
'' f => UnknownCommand
member => WrongCount 0 1
member f g => WrongCount 2 1
member '' => BadWord 1
member -x => BadWord 1
member f -x => BadWord 2
member '' -x => BadWord 1
show => WrongCount 0 1
show a b => WrongCount 2 1
show '' => BadWord 1
show -h => BadWord 1
keygen '' 4 -x => BadWord 1
keygen 05 3 f => BadNumber 1
keygen 10 +4 f => BadNumber 2
keygen 10 18446744073709551617 f => BadNumber 2
verify c => WrongCount 1 3
verify c s 01 => BadNumber 3
verify c s -1 => BadWord 3
verify c s 253402300800 => BadNumber 3
init-log j 01 2 64 => BadId 2
init-log j 01 2 1 => BadNumber 4
init-log j 32473.1 10001 16777217 => BadNumber 3
entries j x => BadNumber 2
entries-from j 1 => WrongCount 2 3
entries-from j x 01 => BadNumber 2
entries-from j 1 01 => BadNumber 3
entries-from j.tiles 1 2 => TilesName 1
subtree j 1 2 '' => BadWord 4
init-cosigner s 01 32473.1 6 4 k => BadNumber 4
init-cosigner s 01 01 5 3 k => BadNumber 5
init-cosigner s 01 01 5 4 k => BadId 2
init-cosigner s 32473.2 01 10 8 k => BadId 3
init-cosigner s 32473.2 32473.1 5 4 => WrongCount 5 6
init-cosigner2 s 01 32473.1 6 7 4 k => BadNumber 4
init-cosigner2 s 01 01 5 7 3 k => BadNumber 5
init-cosigner2 s 01 01 5 10 3 k => BadNumber 6
init-cosigner2 s 01 01 10 5 1 k => BadId 2
init-cosigner2 s 32473.2 01 10 10 8 k => BadId 3
init-cosigner2 s 32473.2 32473.1 5 5 4 => WrongCount 6 7
init-cosigner2 s.tiles 32473.2 32473.1 5 5 4 k => TilesName 1
advance s => WrongCount 1 2
child => WrongCount 0 1
child s r => WrongCount 2 1
child s.tiles => TilesName 1
cosign s r t => WrongCount 3 2
advance s -r => BadWord 2
cert j 1 0 4 => WrongCount 4 5
cert j 1 0 x s => BadNumber 4
issue-list j => WrongCount 1 2
light-certs j 01 2 => BadNumber 2
light-certs j 1 02 => BadNumber 3
certs j 1 2 0 x s => BadNumber 5
certs j.tiles 1 2 0 2 s => TilesName 1
drill => WrongCount 0 1
drill 7 7 => WrongCount 2 1
drill -7 => BadWord 1
drill 07 => BadNumber 1
drill 9223372036854775808 => BadNumber 1
tile => WrongCount 0 1
tile -j => BadWord 1
tile j.tiles => TilesName 1
tile .tiles => TilesName 1
tile-anew => WrongCount 0 1
tile-anew j k => WrongCount 2 1
tile-anew -j => BadWord 1
tile-anew j.tiles => TilesName 1
switch => WrongCount 0 1
switch j k => WrongCount 2 1
switch -j => BadWord 1
switch j.tiles => TilesName 1
init-log j.tiles 01 2 1 => BadNumber 4
init-log j.tiles 01 2 64 => BadId 2
init-log j.tiles 32473.1 2 64 => TilesName 1
entries j.tiles x => BadNumber 2
entries j.tiles 1 => TilesName 1
entries jtiles x => BadNumber 2
export s.tiles => TilesName 1
cosign s.tiles r => TilesName 1
issue j.tiles => WrongCount 1 2
cert j 1 0 x s.tiles => BadNumber 4
mirror-init m => WrongCount 1 2
mirror-init m 01 => BadId 2
mirror-init m.tiles 01 => BadId 2
mirror-init m.tiles 32473.1 => TilesName 1
mirror-take m => WrongCount 1 2
mirror-take m -e => BadWord 2
mirror-take m.tiles e => TilesName 1
mirror-tile => WrongCount 0 1
mirror-tile m.tiles => TilesName 1
mirror-entries m x => BadNumber 2
mirror-entries m 9223372036854775808 => BadNumber 2
mirror-entries m.tiles 1 => TilesName 1
mirror-advance s m => WrongCount 2 3
mirror-advance '' m x => BadWord 1
mirror-advance m m 01 => BadNumber 3
mirror-advance m.tiles m.tiles 1 => TilesName 1
mirror-advance s m.tiles 1 => TilesName 2
mirror-advance m m 1 => BadWord 1
mirror-cosign s m 0 => WrongCount 3 4
mirror-cosign s -m 0 4 => BadWord 2
mirror-cosign s m x 01 => BadNumber 3
mirror-cosign s m 0 01 => BadNumber 4
mirror-cosign m m 0 4 => BadWord 1
help x => WrongCount 1 0
help -x => BadWord 1
version 1 => WrongCount 1 0
";

// The fault that is meant; its first number is 0 where it has none.
fn fault_in(text: &str) -> Option<WordError> {
    let mut words = text.split_whitespace();
    let name = words.next()?;
    let first = words.next().unwrap_or("0").parse::<usize>().ok()?;
    let second = words.next().unwrap_or("0").parse::<usize>().ok()?;
    match name {
        "NoCommand" => Some(WordError::NoCommand),
        "UnknownCommand" => Some(WordError::UnknownCommand),
        "BadWord" => Some(WordError::BadWord(first)),
        "BadNumber" => Some(WordError::BadNumber(first)),
        "BadId" => Some(WordError::BadId(first)),
        "TilesName" => Some(WordError::TilesName(first)),
        "WrongCount" => Some(WordError::WrongCount {
            have: first,
            want: second,
        }),
        _ => None,
    }
}

fn fault_of(alloc: Global, text: &str) -> Option<WordError> {
    let words = owned_words(alloc, text).ok()?;
    read_words(alloc, &words).err()
}

fn is_refused(alloc: Global, line: &str) -> Option<bool> {
    let (words, fault) = line.split_once("=>")?;
    let wanted = fault_in(fault)?;
    Some(fault_of(alloc, words) == Some(wanted))
}

fn is_member_of_f(alloc: Global) -> Option<bool> {
    let words = owned_words(alloc, "member f").ok()?;
    match read_words(alloc, &words) {
        Ok(Command::Member(file)) => Some(file == "f"),
        _ => None,
    }
}

#[test]
fn arguments_are_refused_by_their_first_fault(rt: HostRuntime) {
    let mut count = 0u64;
    for line in CASES.lines() {
        assert!(rt; is_refused(rt.alloc(), line) == Some(true), "{line}");
        count = count.saturating_add(1);
    }
    assert!(rt; count == 109);
}

#[test]
fn a_command_has_its_arguments(rt: HostRuntime) {
    assert!(rt; is_member_of_f(rt.alloc()) == Some(true));
}
