//! Forms made of digits, and the numbers that digits write.

ghost use Rattle.std.specs.Prelude.{◌≡◌, ◌+◌, ◌<◌, IsTrue, length};
ghost use Rattle.cert_time.specs.Forms.{fits_byte, fits_form, four_digits_at, two_digits_at};
ghost use Rattle.cert_time.specs.Forms.{two_digits};

// Whether a byte is one that this byte of a form allows.
fn fits_at(form: u8, byte: u8) -> bool
    ensures { result ≡ fits_byte form byte }
{
    if form == b'0' {
        byte.is_ascii_digit()
    } else {
        byte == form
    }
}

/// Whether a text has a form, in which `0` is any digit, and each other byte is itself.
#[tactic(auto, using(crate::proofs::Forms::lengths))]
pub fn fits(form: &[u8], text: &[u8]) -> bool
    ensures value { result ≡ fits_form form.now text.now }
    ensures length { IsTrue result → length text.now ≡ length form.now }
{
    if text.len() != form.len() {
        return false;
    }
    for (place, allowed) in form.iter().enumerate() {
        if !fits_at(*allowed, text[place]) {
            return false;
        }
    }
    true
}

/// The number that the two digits at an offset write. Bytes that are no digits have a number too,
/// which no call uses: every text is tested against its form first.
pub fn read_two(text: &[u8], place: usize) -> u16
    requires { place + 1 < length text.now }
    ensures { result ≡ two_digits_at text.now place }
{
    let tens = text[place].saturating_sub(b'0') as u16;
    let ones = text[place + 1].saturating_sub(b'0') as u16;
    10 * tens + ones
}

/// The number that the four digits at an offset write.
pub fn read_four(text: &[u8], place: usize) -> u32
    requires { place + 3 < length text.now }
    ensures { result ≡ four_digits_at text.now place }
{
    let hundreds = read_two(text, place) as u32;
    100 * hundreds + read_two(text, place + 2) as u32
}

/// The two digits of a number below 100.
pub fn write_two(number: u16) -> [u8; 2]
    requires { number < 100 }
    ensures { result ≡ two_digits number }
{
    [b'0' + (number / 10) as u8, b'0' + (number % 10) as u8]
}
