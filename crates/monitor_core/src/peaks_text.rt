//! Peaks in a line of text.

ghost use Rattle.std.specs.Prelude.{◌≡◌, ◌≢◌, [], ◌∷◌, ◌++◌, Some, None, Err, OnOk, IfErr};
ghost use Rattle.std.specs.Prelude.{option_map};
ghost use Rattle.std.specs.Prelude.{bytes_eq};
ghost use Rattle.hex.specs.Hex.{encode_lower};
ghost use Rattle.byte_formats.specs.Readings.{Gives, some_or};
ghost use Rattle.monitor_core.specs.Reading.{lower_hash_in, peak_in, peaks_in};
ghost use Rattle.monitor_core.specs.declared.error.TextError.TheVariants.{BadLine};
ghost use Rattle.monitor_core.specs.declared.error.TextError.TheVariants.{Memory as NoCapacity};

use crate::error::TextError;
use hex::FromHex;
use mtc_io::Memory;

// The digits write the hash in lower case.
fn writes_hash(digits: &[u8], hash: &[u8; 32]) -> bool
    ensures { result ≡ bytes_eq (encode_lower hash.now) digits.now }
{
    let mut written = [0; 64];
    match hex::encode_to_slice(hash.as_slice(), &mut written) {
        Ok(()) => written.as_slice() == digits,
        Err(_) => unreachable!(),
    }
}

// The hash that 64 lower-case digits write.
#[tactic(auto, unfolding(crate::specs::Reading::lower_hash_in))]
fn read_hash(digits: &[u8]) -> Option<[u8; 32]>
    ensures { result ≡ lower_hash_in digits.now }
{
    match <[u8; 32] as FromHex>::from_hex(digits) {
        Ok(hash) if writes_hash(digits, &hash) => Some(hash),
        _ => None,
    }
}

// A space and a hash, and what is after them.
#[tactic(auto, unfolding(crate::specs::Reading::peak_in))]
fn read_peak(text: &[u8]) -> Option<([u8; 32], &[u8])>
    ensures { option_map (λ peak. (peak.0, peak.1.now)) result ≡ peak_in text.now }
{
    if text.len() < 65 || text[0] != b' ' {
        return None;
    }
    let hash = read_hash(&text[1..65])?;
    Some((hash, &text[65..]))
}

// The same, in line n.
fn numbered_peak(text: &[u8], n: usize) -> Result<([u8; 32], &[u8]), TextError>
    ensures { Gives (λ peak. (peak.0, peak.1.now)) result
        (some_or (BadLine n) (peak_in text.now)) }
{
    read_peak(text).ok_or(TextError::BadLine(n))
}

fn push(peaks: &mut Vec<[u8; 32]>, hash: &[u8; 32]) -> Result<(), Memory>
    ensures { OnOk result (peaks.new.items ≡ peaks.old.items ++ hash.now ∷ []) }
{
    peaks.push(*hash)?;
    Ok(())
}

// Puts so many peaks, those of line n, after none.
pub(crate) fn read_peaks(
    text: &[u8],
    n: usize,
    count: u32,
    peaks: &mut Vec<[u8; 32]>,
) -> Result<(), TextError>
    requires { peaks.old.items ≡ [] }
    ensures ok { OnOk result (peaks_in count text.now ≡ Some peaks.new.items) }
    ensures err { IfErr result (λ e. e ≢ NoCapacity
        → some_or (BadLine n) (peaks_in count text.now) ≡ Err e) }
{
    let mut rest = text;
    let mut left = count;
    'peaks: while left > 0 {
        let (hash, following) = numbered_peak(rest, n)?;
        push(peaks, &hash)?;
        rest = following;
        left -= 1;
    }
    if rest.is_empty() {
        Ok(())
    } else {
        Err(TextError::BadLine(n))
    }
}
