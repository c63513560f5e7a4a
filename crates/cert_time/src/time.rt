//! The times of a certificate: UTCTime and GeneralizedTime.

ghost use Rattle.std.specs.Prelude.{◌≡◌, ◌+◌, ◌<◌, ◌++◌, length, nat_lt, OnOk, OnErr, IfSome};
ghost use Rattle.cert_time.specs.Calendar.{IsUnixTime};
ghost use Rattle.cert_time.specs.Forms.{HasDigits};
ghost use Rattle.cert_time.specs.Times.{contents_with, full_year, general_unix_time, general_with};
ghost use Rattle.cert_time.specs.Times.{civil_in, short_element, tag_with, unix_time_in};
ghost use Rattle.cert_time.specs.Times.{utc_unix_time};

use crate::calendar::unix_time_of;
use crate::civil::CivilTime;
use crate::digits::{fits, read_four, read_two, write_two};
use mtc_io::{Bytes, Memory};

/// The tag of a UTCTime (X.690, section 11.8).
pub const UTC_TIME: u8 = 0x17;

/// The tag of a GeneralizedTime (X.690, section 11.7).
pub const GENERALIZED_TIME: u8 = 0x18;

/// The time that the contents of an element with this tag name, in seconds since
/// 1970-01-01T00:00:00Z.
///
/// A UTCTime (tag 17, hexadecimal) is `YYMMDDHHMMSSZ` with a year from 1950 to 2049, and a
/// GeneralizedTime (tag 18) is `YYYYMMDDHHMMSSZ` with a year from 2050 to 9999 (RFC 5280, section
/// 4.1.2.5). `None` exactly if the tag is another one, the contents don't have the form of their
/// tag, or no such date or time of day exists.
#[tactic(auto, unfolding(crate::specs::Times::unix_time_in))]
pub fn read_time(tag: u8, contents: &[u8]) -> Option<i64>
    ensures value { result ≡ unix_time_in tag contents.now }
    ensures range { IfSome result IsUnixTime }
{
    match tag {
        UTC_TIME => read_utc(contents),
        GENERALIZED_TIME => read_generalized(contents),
        _ => None,
    }
}

#[tactic(auto, unfolding(crate::specs::Times::utc_unix_time))]
fn read_utc(contents: &[u8]) -> Option<i64>
    ensures value { result ≡ utc_unix_time contents.now }
    ensures range { IfSome result IsUnixTime }
{
    if !fits(b"000000000000Z", contents) {
        return None;
    }
    unix_time_of(parts_of(year_of(read_two(contents, 0)), 2, contents), 1950)
}

#[tactic(auto, unfolding(crate::specs::Times::general_unix_time))]
fn read_generalized(contents: &[u8]) -> Option<i64>
    ensures value { result ≡ general_unix_time contents.now }
    ensures range { IfSome result IsUnixTime }
{
    if !fits(b"00000000000000Z", contents) {
        return None;
    }
    unix_time_of(parts_of(read_four(contents, 0), 4, contents), 2050)
}

// The year of the last two digits in a UTCTime.
fn year_of(last_digits: u16) -> u32
    ensures { result ≡ full_year last_digits }
{
    if last_digits < 50 {
        2000 + last_digits as u32
    } else {
        1900 + last_digits as u32
    }
}

// What MMDDHHMMSS at an offset names, in a year.
fn parts_of(year: u32, place: usize, text: &[u8]) -> CivilTime
    requires { place + 9 < length text.now }
    ensures { result ≡ civil_in year place text.now }
{
    CivilTime {
        year,
        month: read_two(text, place),
        day: read_two(text, place + 2),
        hour: read_two(text, place + 4),
        minute: read_two(text, place + 6),
        second: read_two(text, place + 8),
    }
}

/// The contents of a GeneralizedTime. After the century's digits they are those of a UTCTime.
pub fn generalized(civil: CivilTime) -> [u8; 15]
    requires { HasDigits civil }
    ensures { result ≡ general_with civil }
{
    let [y0, y1] = write_two((civil.year / 100) as u16);
    let [y2, y3] = write_two((civil.year % 100) as u16);
    let [m0, m1] = write_two(civil.month);
    let [d0, d1] = write_two(civil.day);
    let [h0, h1] = write_two(civil.hour);
    let [n0, n1] = write_two(civil.minute);
    let [s0, s1] = write_two(civil.second);
    [y0, y1, y2, y3, m0, m1, d0, d1, h0, h1, n0, n1, s0, s1, b'Z']
}

// Whether the times of a year are UTCTime, and not GeneralizedTime.
fn is_utc(year: u32) -> bool
    ensures { result ≡ nat_lt year 2050 }
{
    year < 2050
}

/// The length of a time as an element: tag, length and contents.
pub fn time_length(civil: CivilTime) -> u8
    ensures { result ≡ length (short_element (tag_with civil) (contents_with civil)) }
{
    if is_utc(civil.year) { 15 } else { 17 }
}

/// Appends a time to the bytes, as an element. If memory is refused, the bytes stay as they were.
pub fn put_time(civil: CivilTime, out: &mut Bytes) -> Result<(), Memory>
    requires { HasDigits civil }
    ensures ok { OnOk result
        (out.new ≡ out.old ++ short_element (tag_with civil) (contents_with civil)) }
    ensures err { OnErr result (out.new ≡ out.old) }
{
    let contents = generalized(civil);
    if is_utc(civil.year) {
        out.append_both(&[UTC_TIME, 13], &contents[2..])
    } else {
        out.append_both(&[GENERALIZED_TIME, 15], &contents)
    }
}
