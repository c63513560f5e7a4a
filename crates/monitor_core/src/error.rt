//! What can be wrong with a text or with a run.

use mtc_io::Memory as NoMemory;
use std::error::Error;
use std::fmt;

/// Why a text isn't one of a monitor. Lines are numbered from 0 and read in order.
#[derive(Clone, Copy, Debug, PartialEq, Eq)]
pub enum TextError {
    /// This line is the first that isn't in its form, is missing or is too many.
    BadLine(usize),
    /// Memory was refused.
    Memory,
}

impl fmt::Display for TextError {
    ghost use Rattle.std.specs.Prelude.{Some};
    ghost use Rattle.monitor_core.specs.Reasons.{text_fault_text};

    ghost output = { λ why. Some (text_fault_text why) };

    fn fmt<W: fmt::Write>(&self, f: &mut fmt::Formatter<W>) -> fmt::Result {
        match self {
            TextError::BadLine(number) => write!(f, "BadLine {number}"),
            TextError::Memory => f.write_str("Memory"),
        }
    }
}

impl Error for TextError {}

impl From<NoMemory> for TextError {
    ghost use Rattle.std.specs.Prelude.{◌≡◌};
    ghost use Rattle.monitor_core.specs.declared.error.TextError.TheVariants.{Memory};

    ghost from_gives = { λ _ e. e ≡ Memory };

    fn from(_refused: NoMemory) -> TextError {
        TextError::Memory
    }
}

/// Why a run is refused. The tests are made in this order.
#[derive(Clone, Copy, Debug, PartialEq, Eq)]
pub enum MonitorError {
    /// The state is of a log with another id.
    WrongLog,
    /// The new size isn't above that of the state, which is the number.
    NotNewer(u64),
    /// There are so many new entries, and not as many as the new size is above the old one.
    ItemCount { have: u64, want: u64 },
    /// The proof doesn't show that the entries of the state are the first ones of the new list: the
    /// consistency proof doesn't pass, or has hashes where there are no entries.
    BadProof,
    /// With the new entries the list has another root than the one that is wanted.
    RootDiffers { wanted: [u8; 32], found: [u8; 32] },
    /// Memory was refused.
    Memory,
}

// The hexadecimal digits of a hash, as they are displayed.
#[derive(Drop)]
struct Digits<'a>(&'a [u8; 32]);

impl<'a> fmt::Display for Digits<'a> {
    ghost use Rattle.hex.specs.Hex.{encode_lower};
    ghost use Rattle.std.specs.Prelude.{Some};

    ghost output = { λ hash. Some (encode_lower hash.0.now) };

    fn fmt<W: fmt::Write>(&self, f: &mut fmt::Formatter<W>) -> fmt::Result {
        let mut digits = [0; 64];
        if hex::encode_to_slice(self.0.as_slice(), &mut digits).is_err() {
            return Err(fmt::Error);
        }
        match str::from_utf8(&digits) {
            Ok(text) => f.write_str(text),
            Err(_) => Err(fmt::Error),
        }
    }
}

impl fmt::Display for MonitorError {
    ghost use Rattle.std.specs.Prelude.{Some};
    ghost use Rattle.monitor_core.specs.Reasons.{run_fault_text};

    ghost output = { λ why. Some (run_fault_text why) };

    fn fmt<W: fmt::Write>(&self, f: &mut fmt::Formatter<W>) -> fmt::Result {
        match self {
            MonitorError::WrongLog => f.write_str("WrongLog"),
            MonitorError::NotNewer(size) => write!(f, "NotNewer {size}"),
            MonitorError::ItemCount { have, want } => write!(f, "ItemCount {have} {want}"),
            MonitorError::BadProof => f.write_str("BadProof"),
            MonitorError::RootDiffers { wanted, found } => {
                write!(f, "RootDiffers {} {}", Digits(wanted), Digits(found))
            }
            MonitorError::Memory => f.write_str("Memory"),
        }
    }
}

impl Error for MonitorError {}

impl From<NoMemory> for MonitorError {
    ghost use Rattle.std.specs.Prelude.{◌≡◌};
    ghost use Rattle.monitor_core.specs.declared.error.MonitorError.TheVariants.{Memory};

    ghost from_gives = { λ _ e. e ≡ Memory };

    fn from(_refused: NoMemory) -> MonitorError {
        MonitorError::Memory
    }
}
