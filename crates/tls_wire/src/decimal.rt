//! Numbers in decimal, alone in their text.

ghost use Rattle.std.specs.Prelude.{◌≡◌, ◌^◌, nat_lt, true, Some, None, if◌then◌else◌};
ghost use Rattle.std.specs.Str.{all_ascii_digits};
ghost use Rattle.std.specs.Str.Parse.{digits_value};
ghost use Rattle.tls_wire.specs.Decimal.{is_decimal, number_of};

fn are_digits(bytes: &[u8]) -> bool
    ensures { result ≡ all_ascii_digits bytes.now }
{
    for byte in bytes {
        if !byte.is_ascii_digit() {
            return false;
        }
    }
    true
}

pub(crate) fn has_decimal_form(bytes: &[u8]) -> bool
    ensures { result ≡ is_decimal bytes.now }
{
    if bytes.is_empty() || !are_digits(bytes) {
        return false;
    }
    if bytes.len() == 1 {
        return true;
    }
    bytes[0] != b'0'
}

// The number of digits, where it fits 64 bits.
fn parsed(digits: &str) -> Option<u64>
    requires { is_decimal digits.now ≡ true }
    ensures { result ≡ (if nat_lt (digits_value 10 digits.now) (2 ^ 64) then
        Some (digits_value 10 digits.now) else None) }
{
    match digits.parse::<u64>() {
        Ok(number) => Some(number),
        Err(_) => None,
    }
}

// The number of a text that is in decimal, where it fits 64 bits.
pub(crate) fn decimal_value(text: &[u8]) -> Option<u64>
    requires { is_decimal text.now ≡ true }
    ensures { result ≡ (if nat_lt (digits_value 10 text.now) (2 ^ 64) then
        Some (digits_value 10 text.now) else None) }
{
    match str::from_utf8(text) {
        Ok(digits) => parsed(digits),
        Err(_) => None,
    }
}

/// The number that a text is, if it is one: decimal, without a sign or a leading zero, and at most
/// 2^63 - 1.
#[tactic(auto, unfolding(crate::specs::Decimal::number_of))]
pub fn read_number(text: &[u8]) -> Option<u64>
    ensures { result ≡ number_of text.now }
{
    if !has_decimal_form(text) {
        return None;
    }
    match decimal_value(text) {
        Some(number) if number < 1 << 63 => Some(number),
        _ => None,
    }
}
