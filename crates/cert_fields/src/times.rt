//! Validity (RFC 5280, section 4.1.2.5).

ghost use Rattle.std.specs.Prelude.{IfOk};
ghost use Rattle.byte_formats.specs.Readings.{Reads, Moves};
ghost use Rattle.cert_time.specs.Calendar.{IsUnixTime};
ghost use Rattle.cert_time.specs.Periods.{period};
ghost use Rattle.cert_fields.specs.Times.{time_at, validity_at};

use cert_time::{GENERALIZED_TIME, UTC_TIME, Validity, read_time};
use der_core::tags::SEQUENCE;
use der_core::{CertError, Reader};

// The time of a UTCTime or a GeneralizedTime; `BadTime` where its contents aren't in their form.
#[tactic(auto, unfolding(crate::specs::Times::time_at))]
fn time(reader: &mut Reader) -> Result<i64, CertError>
    ensures exact { Moves (λ z. z) time_at reader.old result reader.new }
    ensures range { IfOk result IsUnixTime }
{
    let tag = if reader.begins_with(GENERALIZED_TIME) {
        GENERALIZED_TIME
    } else {
        UTC_TIME
    };
    let element = reader.wanted(tag)?;
    match read_time(tag, element.contents) {
        Some(unix_time) => Ok(unix_time),
        None => Err(CertError::BadTime),
    }
}

/// A validity as its bytes and its times. A refusal leaves the reader where it was.
#[tactic(auto, unfolding(crate::specs::Times::validity_at))]
pub fn read_validity<'a>(reader: &mut Reader<'a>) -> Result<(&'a [u8], Validity), CertError>
    ensures { Reads (λ v. (v.0.now, period v.1)) validity_at reader.old result reader.new }
{
    let mut ahead = reader.fork();
    let outer = ahead.wanted(SEQUENCE)?;
    let mut inner = Reader::inside(&outer);
    let not_before = time(&mut inner)?;
    let not_after = time(&mut inner)?;
    inner.end()?;
    *reader = ahead;
    Ok((
        outer.whole,
        Validity {
            not_before,
            not_after,
        },
    ))
}
