//! Landmarks of a log, and their text.

use landmarks::{
    Landmarks, ListError, active, covering, of_marks, read_list, subtrees, write_list,
};
use mtc_io::{Bytes, Memory};
use std::alloc::Global;
use std::test::Fail;
use tree_core::{Cover, Span};

// The landmarks at these two sizes; none where they do not rise.
fn at_two(alloc: Global, first: u64, second: u64, most: u32) -> Result<Option<Landmarks>, Memory> {
    if first == 0 || first >= second || second >= 1 << 63 {
        return Ok(None);
    }
    Ok(Some(of_marks(alloc, &[first, second], most)?))
}

// Whether two landmarks have these numbers and this text.
fn are_listed(alloc: Global, most: u32, numbers: Span, text: &[u8]) -> Result<bool, Memory> {
    match at_two(alloc, 5, 9, most)? {
        Some(l) => Ok(active(&l) == numbers && write_list(alloc, &l)?.as_slice() == text),
        None => Ok(false),
    }
}

#[test]
fn the_newest_landmarks_are_active(rt: HostRuntime) -> Result<(), Fail> {
    let both = Span { start: 1, end: 3 };
    let newest = Span { start: 2, end: 3 };
    assert!(rt; are_listed(rt.alloc(), 2, both, b"2 2\n9\n5\n0\n")?);
    assert!(rt; are_listed(rt.alloc(), 10_000, both, b"2 2\n9\n5\n0\n")?);
    assert!(rt; are_listed(rt.alloc(), 1, newest, b"2 1\n9\n5\n")?);
    Ok(())
}

// The subtree of two landmarks that an entry is in.
fn covered(alloc: Global, most: u32, index: u64) -> Result<Option<Span>, Memory> {
    match at_two(alloc, 5, 9, most)? {
        Some(l) => Ok(covering(&l, index)),
        None => Ok(None),
    }
}

fn number(word: Option<&str>) -> Option<u64> {
    word?.parse::<u64>().ok()
}

// The interval of two words; none where there is none.
fn interval_of(start: Option<&str>, end: Option<&str>) -> Option<Span> {
    Some(Span {
        start: number(start)?,
        end: number(end)?,
    })
}

// Whether the entry of a line is in the subtree of the line.
fn is_covered(alloc: Global, most: u32, line: &str) -> Result<bool, Memory> {
    let mut words = line.split(' ');
    let Some(index) = number(words.next()) else {
        return Ok(false);
    };
    let wanted = interval_of(words.next(), words.next());
    Ok(covered(alloc, most, index)? == wanted)
}

// How many entries of a text are in the subtrees of their lines.
fn count_covered(alloc: Global, most: u32, text: &str) -> Result<u64, Memory> {
    let mut count = 0u64;
    for line in text.lines() {
        if is_covered(alloc, most, line)? {
            count = count.saturating_add(1);
        }
    }
    Ok(count)
}

// The index of an entry and the subtree that it is in, where two landmarks are active.
const OF_TWO: &str = "\
0 0 4
3 0 4
4 4 5
5 4 8
6 4 8
8 8 9
9
18446744073709551615";

// The same where one is active.
const OF_ONE: &str = "\
6 4 8
4
3";

#[test]
fn an_entry_is_in_a_subtree_of_the_least_landmark_above_it(rt: HostRuntime) -> Result<(), Fail> {
    assert!(rt; count_covered(rt.alloc(), 2, OF_TWO)? == 8);
    assert!(rt; count_covered(rt.alloc(), 1, OF_ONE)? == 3);
    Ok(())
}

// The subtrees of the second of two landmarks.
fn of_second(alloc: Global, first: u64, second: u64) -> Result<Option<Cover>, Memory> {
    match at_two(alloc, first, second, 1)? {
        Some(l) if active(&l) == (Span { start: 2, end: 3 }) => Ok(Some(subtrees(&l, 2))),
        _ => Ok(None),
    }
}

#[test]
fn a_landmark_is_the_cover_of_what_follows_the_one_before(rt: HostRuntime) -> Result<(), Fail> {
    let one = Cover {
        first: Span { start: 1, end: 2 },
        second: None,
    };
    let two = Cover {
        first: Span { start: 4, end: 8 },
        second: Some(Span { start: 8, end: 13 }),
    };
    assert!(rt; of_second(rt.alloc(), 1, 2)? == Some(one));
    assert!(rt; of_second(rt.alloc(), 5, 13)? == Some(two));
    Ok(())
}

// Whether a text is read, and written again as it was.
fn is_kept(alloc: Global, text: &[u8], most: u32, size: u64) -> Result<bool, Memory> {
    match read_list(alloc, text, most, size) {
        Ok(l) => Ok(write_list(alloc, &l)?.as_slice() == text),
        Err(ListError::Memory) => Err(Memory),
        Err(_) => Ok(false),
    }
}

#[test]
fn a_text_is_read_and_written_again(rt: HostRuntime) -> Result<(), Fail> {
    assert!(rt; is_kept(rt.alloc(), b"2 2\n9\n5\n0\n", 2, 9)?);
    assert!(rt; is_kept(rt.alloc(), b"2 1\n9\n5\n", 5, 10)?);
    assert!(rt; is_kept(rt.alloc(), b"0 0\n0\n", 1, 1)?);
    assert!(rt; is_kept(rt.alloc(), b"1 1\n1\n0\n", 1, 1)?);
    assert!(rt; is_kept(rt.alloc(), b"7 0\n3\n", 1, 3)?);
    let most = b"9223372036854775807 1\n9223372036854775807\n9223372036854775806\n";
    assert!(rt; is_kept(rt.alloc(), most, 1, u64::MAX)?);
    Ok(())
}

// Why a text is refused.
fn refusal(alloc: Global, text: &[u8], most: u32, size: u64) -> Option<ListError> {
    read_list(alloc, text, most, size).err()
}

// Whether a text of a log of nine entries is refused at this line.
fn is_refused_at(alloc: Global, text: &str, line: usize) -> bool {
    refusal(alloc, text.as_bytes(), 2, 9) == Some(ListError::BadLine(line))
}

#[test]
fn a_text_outside_its_form_is_reported_by_its_line(rt: HostRuntime) {
    let cases = [
        ("", 0),
        ("2 2", 0),
        ("2\n9\n", 0),
        ("2  2\n9\n5\n0\n", 0),
        ("2 2 \n9\n5\n0\n", 0),
        ("02 2\n9\n5\n0\n", 0),
        ("9223372036854775808 2\n9\n5\n0\n", 0),
        ("2 2\n\n5\n0\n", 1),
        ("2 2\n9\n05\n0\n", 2),
        ("2 2\n9\n+5\n0\n", 2),
        ("2 2\n9\n", 2),
        ("2 2\n9\n5\n1\n", 3),
        ("2 2\n9\n5\n0", 3),
        ("2 2\n9\n5\n0\n\n", 4),
        ("2 1\n9\n5\n0\n", 3),
    ];
    for (text, line) in cases {
        assert!(rt; is_refused_at(rt.alloc(), text, line), "{text}");
    }
}

#[test]
fn sizes_that_do_not_fall_are_reported(rt: HostRuntime) {
    let (second, third) = (ListError::NotFalling(2), ListError::NotFalling(3));
    assert!(rt; refusal(rt.alloc(), b"2 2\n9\n9\n0\n", 2, 9) == Some(second));
    assert!(rt; refusal(rt.alloc(), b"2 2\n9\n12\n0\n", 2, 5) == Some(second));
    assert!(rt; refusal(rt.alloc(), b"2 2\n9\n0\n0\n", 2, 9) == Some(third));
}

#[test]
fn a_text_that_is_too_long_or_beyond_the_log_is_reported_in_order(rt: HostRuntime) {
    let (many, beyond) = (ListError::TooManyActive, ListError::BeyondLog);
    assert!(rt; refusal(rt.alloc(), b"2 3\n9\n5\n0\n", 5, 9) == Some(many));
    assert!(rt; refusal(rt.alloc(), b"2 2\nx\n", 1, 9) == Some(many));
    assert!(rt; refusal(rt.alloc(), b"2 2\n9\n5\n0\n", 2, 8) == Some(beyond));
    let line = ListError::BadLine(4);
    assert!(rt; refusal(rt.alloc(), b"2 2\n9\n5\n0\n0\n", 2, 8) == Some(line));
}

// The text of so many landmarks, at the sizes from 1 on.
fn long_text(alloc: Global, count: u32) -> Result<Bytes, Memory> {
    let mut text = String::new(alloc);
    write!(text, "{count} {count}\n")?;
    for size in (0..count as u64 + 1).rev() {
        write!(text, "{size}\n")?;
    }
    Ok(Bytes::from_vec(text.into_bytes()))
}

#[test]
fn the_longest_list_is_read_and_written_again(rt: HostRuntime) -> Result<(), Fail> {
    let text = long_text(rt.alloc(), 10_000)?;
    assert!(rt; text.len() == 48_908);
    assert!(rt; is_kept(rt.alloc(), text.as_slice(), 10_000, 10_000)?);
    let reported = refusal(rt.alloc(), text.as_slice(), 9_999, 10_000);
    assert!(rt; reported == Some(ListError::TooManyActive));
    Ok(())
}
