//! What can be wrong with an anchor id.

use mtc_io::Memory;
use std::error::Error;
use std::fmt;

/// Why a text isn't an anchor id. The characters are read from the left, and the first fault is
/// answered; `TooLong` is tested last.
#[derive(Clone, Copy, Debug, PartialEq, Eq)]
pub enum AnchorError {
    /// The text has no characters.
    Empty,
    /// No digit stands at this offset, where one is wanted; or the character there is neither a
    /// digit nor a dot.
    NotDecimal(usize),
    /// The number that begins at this offset has a zero before its other digits.
    LeadingZero(usize),
    /// The anchor id has more than 255 bytes.
    TooLong,
    /// The number that begins at this offset is above 2 ^ 64 - 1.
    ArcTooLarge(usize),
    /// Memory was refused.
    Memory,
}

impl fmt::Display for AnchorError {
    ghost use Rattle.std.specs.Prelude.{Some};
    ghost use Rattle.tls_wire.specs.Reasons.{anchor_fault_text};

    ghost output = { λ why. Some (anchor_fault_text why) };

    fn fmt<W: fmt::Write>(&self, f: &mut fmt::Formatter<W>) -> fmt::Result {
        match self {
            AnchorError::Empty => f.write_str("Empty"),
            AnchorError::NotDecimal(offset) => write!(f, "NotDecimal {offset}"),
            AnchorError::LeadingZero(offset) => write!(f, "LeadingZero {offset}"),
            AnchorError::TooLong => f.write_str("TooLong"),
            AnchorError::ArcTooLarge(offset) => write!(f, "ArcTooLarge {offset}"),
            AnchorError::Memory => f.write_str("Memory"),
        }
    }
}

impl Error for AnchorError {}

/// Why bytes aren't an anchor id: `Empty` and `TooLong` are tested first, then the arcs are read
/// from the left and the first fault is answered.
#[derive(Clone, Copy, Debug, PartialEq, Eq)]
pub enum AnchorBytesError {
    /// There are no bytes.
    Empty,
    /// The arc that begins at this offset isn't in the fewest bytes.
    Padding(usize),
    /// The last arc has no last byte.
    Unfinished,
    /// There are more than 255 bytes.
    TooLong,
    /// The arc that begins at this offset is above 2 ^ 64 - 1.
    ArcTooLarge(usize),
    /// Memory was refused.
    Memory,
}

impl fmt::Display for AnchorBytesError {
    ghost use Rattle.std.specs.Prelude.{Some};
    ghost use Rattle.tls_wire.specs.Reasons.{anchor_bytes_fault_text};

    ghost output = { λ why. Some (anchor_bytes_fault_text why) };

    fn fmt<W: fmt::Write>(&self, f: &mut fmt::Formatter<W>) -> fmt::Result {
        match self {
            AnchorBytesError::Empty => f.write_str("Empty"),
            AnchorBytesError::Padding(offset) => write!(f, "Padding {offset}"),
            AnchorBytesError::Unfinished => f.write_str("Unfinished"),
            AnchorBytesError::TooLong => f.write_str("TooLong"),
            AnchorBytesError::ArcTooLarge(offset) => write!(f, "ArcTooLarge {offset}"),
            AnchorBytesError::Memory => f.write_str("Memory"),
        }
    }
}

impl Error for AnchorBytesError {}

impl From<Memory> for AnchorError {
    ghost use Rattle.std.specs.Prelude.{◌≡◌};
    ghost use Rattle.tls_wire.specs.declared.fault.AnchorError.TheVariants.{Memory};

    ghost from_gives = { λ _ e. e ≡ Memory };

    fn from(_refused: Memory) -> AnchorError {
        AnchorError::Memory
    }
}

impl From<Memory> for AnchorBytesError {
    ghost use Rattle.std.specs.Prelude.{◌≡◌};
    ghost use Rattle.tls_wire.specs.declared.fault.AnchorBytesError.TheVariants.{Memory};

    ghost from_gives = { λ _ e. e ≡ Memory };

    fn from(_refused: Memory) -> AnchorBytesError {
        AnchorBytesError::Memory
    }
}
