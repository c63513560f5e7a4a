//! Reading from left to right.

ghost use Rattle.std.specs.Prelude.{◌≡◌, ◌≤◌, length};
ghost use Rattle.std.specs.Int.{w8, w16, w32, w64};
ghost use Rattle.byte_formats.specs.Offsets.{at, after};
ghost use Rattle.byte_formats.specs.Readings.{Reads};
ghost use Rattle.tls_wire.specs.Reading.{bytes_at, ahead_at, number_at, vector_at, inner_at};
ghost use Rattle.tls_wire.specs.Reading.{hashes_at};

use std::error::Error;
use std::fmt;
use std::marker::Model;

/// A form that doesn't fit what is left of the input.
#[derive(Clone, Copy, Debug, PartialEq, Eq)]
pub struct Short {
    /// The offset in the input at which the form began.
    pub place: usize,
}

impl fmt::Display for Short {
    ghost use Rattle.std.specs.Prelude.{Some};
    ghost use Rattle.tls_wire.specs.Reasons.{short_text};

    ghost output = { λ short. Some (short_text short) };

    fn fmt<W: fmt::Write>(&self, f: &mut fmt::Formatter<W>) -> fmt::Result {
        write!(f, "Short {}", self.place)
    }
}

impl Error for Short {}

/// Why hashes aren't read. The tests are made in this order.
#[derive(Clone, Copy, Debug, PartialEq, Eq)]
pub enum HashesError {
    /// The vector doesn't fit what is left of the input.
    Short(Short),
    /// The vector's length is no multiple of 32.
    HashLength,
}

impl fmt::Display for HashesError {
    ghost use Rattle.std.specs.Prelude.{Some};
    ghost use Rattle.tls_wire.specs.Reasons.{hashes_fault_text};

    ghost output = { λ why. Some (hashes_fault_text why) };

    fn fmt<W: fmt::Write>(&self, f: &mut fmt::Formatter<W>) -> fmt::Result {
        match self {
            HashesError::Short(short) => short.fmt(f),
            HashesError::HashLength => f.write_str("HashLength"),
        }
    }
}

impl Error for HashesError {}

impl From<Short> for HashesError {
    ghost use Rattle.tls_wire.specs.declared.cursor.HashesError.TheVariants.{Short as NotFitting};

    ghost from_gives = { λ short e. e ≡ NotFitting short };

    fn from(short: Short) -> HashesError {
        HashesError::Short(short)
    }
}

/// A position in an input, from which forms are read, one after the other. The slices that it
/// answers are parts of the input. A refusal leaves the position as it was.
#[derive(Drop)]
pub struct Cursor<'a> {
    place: usize,
    rest: &'a [u8],
}

impl<'a> Model for Cursor<'a> {
    ghost use Rattle.std.specs.Prelude.{◌+◌, ◌^◌, ◌<◌, length};
    ghost use Rattle.byte_formats.specs.Offsets.{At};

    ghost Value = { At };

    ghost view = { λ c. record { place = c.place; rest = c.rest.now } };

    ghost invariant = { λ c. c.place + length c.rest.now < 2 ^ 64 };
}

impl<'a> Cursor<'a> {
    /// The beginning of the input.
    pub fn new(input: &'a [u8]) -> Cursor<'a>
        ensures { result ≡ at input.now 0 }
    {
        Cursor {
            place: 0,
            rest: input,
        }
    }

    /// How many bytes of the input stand before this position.
    pub fn place(&self) -> usize
        ensures { result ≡ self.now.place }
    {
        self.place
    }

    /// How many bytes are left.
    pub fn left(&self) -> usize
        ensures { result ≡ length self.now.rest }
    {
        self.rest.len()
    }

    /// What is left of the input.
    pub fn rest(&self) -> &'a [u8]
        ensures { result.now ≡ self.now.rest }
    {
        self.rest
    }

    // Moves so many bytes on.
    pub(crate) fn skip(&mut self, count: usize)
        requires { count ≤ length self.old.rest }
        ensures { self.new ≡ after count self.old }
    {
        self.place += count;
        self.rest = &self.rest[count..];
    }

    /// A number of one byte.
    pub fn u8(&mut self) -> Result<u8, Short>
        ensures { Reads (λ n. n) (number_at w8) self.old result self.new }
    {
        Ok(u8::from_be_bytes(*self.array()?))
    }

    /// A number of two bytes.
    pub fn u16(&mut self) -> Result<u16, Short>
        ensures { Reads (λ n. n) (number_at w16) self.old result self.new }
    {
        Ok(u16::from_be_bytes(*self.array()?))
    }

    /// A number of four bytes.
    pub fn u32(&mut self) -> Result<u32, Short>
        ensures { Reads (λ n. n) (number_at w32) self.old result self.new }
    {
        Ok(u32::from_be_bytes(*self.array()?))
    }

    /// A number of eight bytes.
    pub fn u64(&mut self) -> Result<u64, Short>
        ensures { Reads (λ n. n) (number_at w64) self.old result self.new }
    {
        Ok(u64::from_be_bytes(*self.array()?))
    }

    /// So many bytes of the input.
    pub fn bytes(&mut self, count: usize) -> Result<&'a [u8], Short>
        ensures { Reads (λ bytes. bytes.now) (bytes_at count) self.old result self.new }
    {
        if self.rest.len() < count {
            return Err(Short { place: self.place });
        }
        let bytes = &self.rest[..count];
        self.skip(count);
        Ok(bytes)
    }

    /// A hash of 32 bytes.
    pub fn hash(&mut self) -> Result<&'a [u8; 32], Short>
        ensures { Reads (λ hash. hash.now) (bytes_at 32) self.old result self.new }
    {
        self.array()
    }

    /// A length of one byte, and so many bytes. A vector that doesn't fit begins at its length.
    #[tactic(auto, unfolding(crate::specs::Reading::vector_at))]
    pub fn vec8(&mut self) -> Result<&'a [u8], Short>
        ensures { Reads (λ bytes. bytes.now) (vector_at w8) self.old result self.new }
    {
        let mut ahead = self.ahead();
        let count = ahead.u8()?;
        self.bytes_from(ahead, count as usize)
    }

    /// A length of two bytes, and so many bytes. A vector that doesn't fit begins at its length.
    #[tactic(auto, unfolding(crate::specs::Reading::vector_at))]
    pub fn vec16(&mut self) -> Result<&'a [u8], Short>
        ensures { Reads (λ bytes. bytes.now) (vector_at w16) self.old result self.new }
    {
        let mut ahead = self.ahead();
        let count = ahead.u16()?;
        self.bytes_from(ahead, count as usize)
    }

    /// The same, as a cursor over the bytes of the vector alone, which counts its positions in the
    /// whole input.
    #[tactic(auto, unfolding(crate::specs::Reading::vector_at))]
    pub fn inner16(&mut self) -> Result<Cursor<'a>, Short>
        ensures { Reads (λ inner. inner) (inner_at w16) self.old result self.new }
    {
        let mut ahead = self.ahead();
        let count = ahead.u16()?;
        let place = ahead.place;
        let rest = self.bytes_from(ahead, count as usize)?;
        Ok(Cursor { place, rest })
    }

    /// A length in bytes, of two bytes, and so many bytes of hashes, 32 bytes each. Refuses with
    /// `Short` where the vector doesn't fit, and then with `HashLength` where its length is no
    /// multiple of 32.
    #[tactic(auto, unfolding(crate::specs::Reading::hashes_at))]
    pub fn hashes(&mut self) -> Result<&'a [[u8; 32]], HashesError>
        ensures { Reads (λ hashes. hashes.now) hashes_at self.old result self.new }
    {
        let mut ahead = self.ahead();
        let bytes = ahead.vec16()?;
        let (hashes, left_over) = bytes.as_chunks::<32>();
        if !left_over.is_empty() {
            return Err(HashesError::HashLength);
        }
        *self = ahead;
        Ok(hashes)
    }

    // So many bytes of the input, as an array.
    fn array<const N: usize>(&mut self) -> Result<&'a [u8; N], Short>
        ensures { Reads (λ bytes. bytes.now) (bytes_at N) self.old result self.new }
    {
        match self.rest.split_first_chunk() {
            Some((bytes, rest)) => {
                self.place += N;
                self.rest = rest;
                Ok(bytes)
            }
            None => Err(Short { place: self.place }),
        }
    }

    // A second cursor at this position.
    fn ahead(&self) -> Cursor<'a>
        ensures { result ≡ self.now }
    {
        Cursor {
            place: self.place,
            rest: self.rest,
        }
    }

    // So many bytes from a position ahead. They are part of the form that begins here.
    fn bytes_from(&mut self, mut ahead: Cursor<'a>, count: usize) -> Result<&'a [u8], Short>
        ensures { Reads (λ bytes. bytes.now) (ahead_at count ahead.entry) self.old result self.new }
    {
        match ahead.bytes(count) {
            Ok(bytes) => {
                *self = ahead;
                Ok(bytes)
            }
            Err(_) => Err(Short { place: self.place }),
        }
    }
}
