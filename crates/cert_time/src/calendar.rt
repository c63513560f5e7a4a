//! Dates to times and back, by the calendar of `jiff`.

ghost use Rattle.std.specs.Prelude.{◌≡◌, ◌≤◌, IfSome, pos};
ghost use Rattle.jiff.specs.Words.{civil_nanos};
ghost use Rattle.cert_time.specs.Calendar.{IsUnixTime, civil_of, unix_time_from};
ghost use Rattle.cert_time.specs.Forms.{HasDigits};

use crate::civil::CivilTime;
use jiff::SignedDuration;
use jiff::civil::{DateTime, datetime};

// 1970-01-01T00:00:00, from which times are counted.
#[tactic(auto, using(crate::proofs::UnixTimes::epoch_nanos))]
fn epoch() -> DateTime
    ensures { civil_nanos result ≡ pos 0 }
{
    datetime(1970, 1, 1, 0, 0, 0, 0)
}

/// The time that a date and a time of day name, which exist, in `first_year` or a later year up to
/// 9999.
pub fn unix_time_of(civil: CivilTime, first_year: u32) -> Option<i64>
    ensures value { result ≡ unix_time_from first_year civil }
    ensures range { 1950 ≤ first_year → IfSome result IsUnixTime }
{
    if civil.year < first_year || civil.year > 9999 || civil.month > 12 || civil.day > 31 {
        return None;
    }
    if civil.hour > 23 || civil.minute > 59 || civil.second > 59 {
        return None;
    }
    let Ok(named) = DateTime::new(
        civil.year as i16,
        civil.month as i8,
        civil.day as i8,
        civil.hour as i8,
        civil.minute as i8,
        civil.second as i8,
        0,
    ) else {
        return None;
    };
    Some(named.duration_since(epoch()).as_secs())
}

/// The date and the time of day of a time.
pub fn civil_at(seconds: i64) -> CivilTime
    requires { IsUnixTime seconds }
    ensures value { result ≡ civil_of seconds }
    ensures digits { HasDigits result }
{
    let named = epoch()
        .checked_add(SignedDuration::from_secs(seconds))
        .unwrap();
    CivilTime {
        year: named.year() as u32,
        month: named.month() as u16,
        day: named.day() as u16,
        hour: named.hour() as u16,
        minute: named.minute() as u16,
        second: named.second() as u16,
    }
}
