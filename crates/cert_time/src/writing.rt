//! Writing a certificate's validity.

ghost use Rattle.std.specs.Prelude.{◌≡◌, ◌++◌, length, take, OnOk, OnErr};
ghost use Rattle.cert_time.specs.Forms.{HasDigits};
ghost use Rattle.cert_time.specs.Times.{contents_with, sequence_of_times, tag_with};
ghost use Rattle.cert_time.specs.Times.{validity_element};
ghost use Rattle.cert_time.specs.Periods.{period};

use crate::calendar::civil_at;
use crate::civil::CivilTime;
use crate::time::{put_time, time_length};
use crate::validity::Validity;
use mtc_io::{Bytes, Memory};

// The tag of a SEQUENCE (X.690, section 8.9).
const SEQUENCE: u8 = 0x30;

/// Appends a validity to the bytes: a SEQUENCE of two times (RFC 5280, section 4.1.2.5), each of
/// them a UTCTime up to 2049 and a GeneralizedTime from 2050 on. If memory is refused, the bytes
/// stay as they were.
pub fn put_validity(validity: &Validity, out: &mut Bytes) -> Result<(), Memory>
    ensures ok { OnOk result (out.new ≡ out.old ++ validity_element (period validity.now)) }
    ensures err { OnErr result (out.new ≡ out.old) }
{
    let before = out.len();
    let not_before = civil_at(validity.not_before);
    let not_after = civil_at(validity.not_after);
    let written = put_times(not_before, not_after, out);
    if written.is_err() {
        out.truncate(before);
    }
    written
}

// The same for dates and times of day, which may leave a part of it where memory is refused.
fn put_times(not_before: CivilTime, not_after: CivilTime, out: &mut Bytes) -> Result<(), Memory>
    requires not_before { HasDigits not_before }
    requires not_after { HasDigits not_after }
    ensures ok { OnOk result (out.new ≡ out.old
        ++ sequence_of_times (tag_with not_before) (contents_with not_before)
        (tag_with not_after) (contents_with not_after)) }
    ensures err { OnErr result (take (length out.old) out.new ≡ out.old) }
{
    out.append(&[SEQUENCE, time_length(not_before) + time_length(not_after)])?;
    put_time(not_before, out)?;
    put_time(not_after, out)
}
