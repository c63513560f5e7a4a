//! Times as texts.

ghost use Rattle.std.specs.Prelude.{◌≡◌, IfSome};
ghost use Rattle.cert_time.specs.Calendar.{IsUnixTime};
ghost use Rattle.cert_time.specs.Texts.{text_unix_time, unix_time_text};

use crate::calendar::{civil_at, unix_time_of};
use crate::civil::CivilTime;
use crate::digits::{fits, read_four, read_two};
use crate::time::generalized;

/// The time that a text `YYYY-MM-DDTHH:MM:SSZ` names, in seconds since 1970-01-01T00:00:00Z.
///
/// `None` exactly if the text doesn't have this form, its year is before 1950, or no such date or
/// time of day exists.
#[tactic(auto, unfolding(crate::specs::Texts::text_unix_time))]
pub fn text_to_seconds(text: &str) -> Option<i64>
    ensures value { result ≡ text_unix_time text.now }
    ensures range { IfSome result IsUnixTime }
{
    let text = text.as_bytes();
    if !fits(b"0000-00-00T00:00:00Z", text) {
        return None;
    }
    let civil = CivilTime {
        year: read_four(text, 0),
        month: read_two(text, 5),
        day: read_two(text, 8),
        hour: read_two(text, 11),
        minute: read_two(text, 14),
        second: read_two(text, 17),
    };
    unix_time_of(civil, 1950)
}

/// The text `YYYY-MM-DDTHH:MM:SSZ` of a time from 1950 to 9999.
#[tactic(auto, unfolding(crate::specs::Texts::unix_time_text))]
pub fn seconds_to_text(seconds: i64) -> [u8; 20]
    requires { IsUnixTime seconds }
    ensures { result ≡ unix_time_text seconds }
{
    let [y0, y1, y2, y3, m0, m1, d0, d1, h0, h1, n0, n1, s0, s1, zulu] = generalized(civil_at(
        seconds,
    ));
    [
        y0, y1, y2, y3, b'-', m0, m1, b'-', d0, d1, b'T', h0, h1, b':', n0, n1, b':', s0, s1, zulu,
    ]
}
