//! Times as texts and as times of a certificate, against values from other software.

use cert_time::{Validity, put_validity, read_time, seconds_to_text, text_to_seconds};
use mtc_io::{Bytes, Memory};
use std::alloc::Global;
use std::test::Fail;

const FIRST: i64 = -631_152_000;

const LAST: i64 = 253_402_300_799;

const TEXTS: [(&str, i64); 10] = [
    ("2026-01-01T00:00:00Z", 1_767_225_600),
    ("1950-01-01T00:00:00Z", FIRST),
    ("9999-12-31T23:59:59Z", LAST),
    ("1969-12-31T23:59:59Z", -1),
    ("1970-01-01T00:00:00Z", 0),
    ("2004-06-30T12:34:56Z", 1_088_598_896),
    ("2000-02-29T23:59:59Z", 951_868_799),
    ("2024-02-29T00:00:00Z", 1_709_164_800),
    ("2049-12-31T23:59:59Z", 2_524_607_999),
    ("2050-01-01T00:00:00Z", 2_524_608_000),
];

fn unix_time_of(text: &str) -> Option<i64> {
    text_to_seconds(text)
}

#[test]
fn texts_name_times(rt: HostRuntime) {
    for (text, unix_time) in TEXTS {
        assert!(rt; unix_time_of(text) == Some(unix_time), "of {text}");
    }
}

#[test]
fn texts_outside_their_form_or_the_calendar_name_none(rt: HostRuntime) {
    let texts = [
        "2100-02-29T00:00:00Z",
        "2026-04-31T00:00:00Z",
        "2026-00-10T00:00:00Z",
        "2026-13-10T00:00:00Z",
        "2026-01-00T00:00:00Z",
        "1949-12-31T23:59:59Z",
        "2026-01-01T24:00:00Z",
        "2026-01-01T00:60:00Z",
        "2026-01-01T00:00:60Z",
        "2026-01-01 00:00:00Z",
        "2026-01-01T00:00:00",
        "2026-1-01T00:00:00Z",
    ];
    for text in texts {
        assert!(rt; unix_time_of(text) == None, "of {text}");
    }
}

// Whether the number is a time and has this text.
fn has_text(unix_time: i64, text: &str) -> bool {
    FIRST <= unix_time
        && unix_time <= LAST
        && seconds_to_text(unix_time).as_slice() == text.as_bytes()
}

#[test]
fn times_have_their_texts(rt: HostRuntime) {
    for (text, unix_time) in TEXTS {
        assert!(rt; has_text(unix_time, text), "of {text}");
    }
}

fn time_of(tag: u8, contents: &str) -> Option<i64> {
    read_time(tag, contents.as_bytes())
}

fn number(word: Option<&str>) -> Option<i64> {
    word?.parse::<i64>().ok()
}

// Whether the time of a line names the number of seconds of the line.
fn is_read(line: &str) -> bool {
    let mut words = line.split(' ');
    let tag = match words.next() {
        Some("UTCTime") => 0x17,
        Some("GeneralizedTime") => 0x18,
        _ => 0x13,
    };
    let contents = words.next().unwrap_or("");
    time_of(tag, contents) == number(words.next())
}

// How many times of a text name the seconds of their lines.
fn count_read(text: &str) -> u64 {
    let mut count = 0u64;
    for line in text.lines() {
        if is_read(line) {
            count = count.saturating_add(1);
        }
    }
    count
}

// A type, contents, and the seconds that they name; none if they name none.
const NAMED: &str = "\
UTCTime 491231235959Z 2524607999
UTCTime 500101000000Z -631152000
UTCTime 260101000000Z 1767225600
UTCTime 990630120000Z 930744000
GeneralizedTime 20500101000000Z 2524608000
GeneralizedTime 24000229000000Z 13574563200
GeneralizedTime 99991231235959Z 253402300799
GeneralizedTime 20491231235959Z
GeneralizedTime 21000229000000Z
UTCTime 20500101000000Z
GeneralizedTime 260101000000Z
PrintableString 260101000000Z
UTCTime 260101000060Z
UTCTime 261301000000Z
UTCTime 260101240000Z
UTCTime 260101000000";

#[test]
fn times_of_a_certificate_are_unix_times(rt: HostRuntime) {
    assert!(rt; count_read(NAMED) == 16);
}

// The element of a validity, if both numbers are times.
fn written(alloc: Global, not_before: i64, not_after: i64) -> Result<Option<Bytes>, Memory> {
    if not_before < FIRST || not_before > LAST || not_after < FIRST || not_after > LAST {
        return Ok(None);
    }
    let mut out = Bytes::new(alloc);
    let validity = Validity {
        not_before,
        not_after,
    };
    put_validity(&validity, &mut out)?;
    Ok(Some(out))
}

fn is_written(alloc: Global, from: i64, to: i64, element: &[u8]) -> Result<bool, Memory> {
    match written(alloc, from, to)? {
        Some(out) => Ok(out.as_slice() == element),
        None => Ok(false),
    }
}

#[test]
fn a_validity_is_a_sequence_of_two_times(rt: HostRuntime) -> Result<(), Fail> {
    let validities: [(i64, i64, &[u8]); 3] = [
        (
            1_767_225_600,
            1_767_830_400,
            b"\x30\x1e\x17\x0d260101000000Z\x17\x0d260108000000Z",
        ),
        (
            2_524_607_999,
            2_524_608_000,
            b"\x30\x20\x17\x0d491231235959Z\x18\x0f20500101000000Z",
        ),
        (
            FIRST,
            LAST,
            b"\x30\x20\x17\x0d500101000000Z\x18\x0f99991231235959Z",
        ),
    ];
    for (from, to, element) in validities {
        assert!(rt; is_written(rt.alloc(), from, to, element)?, "from {from}");
    }
    Ok(())
}
