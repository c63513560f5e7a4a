//! What the calls of a cosigner refuse.

ghost use Rattle.std.specs.Prelude.{◌≡◌};
ghost use Rattle.cosigner_core.specs.declared.error.CosignError.TheVariants.{Append as NotAppended};
ghost use Rattle.cosigner_core.specs.declared.error.ChildError.TheVariants.{Append as ChildNotAppended};
ghost use Rattle.cosigner_core.specs.declared.error.ChildError.TheVariants.{Memory as NoMemory};
ghost use Rattle.cosigner_core.specs.declared.error.RecordError.TheVariants.{Unfit};
ghost use Rattle.cosigner_core.specs.declared.error.RecordError.TheVariants.{Memory as RecordMemory};
ghost use Rattle.cosigner_core.specs.declared.error.ReadExportError.TheVariants.{Memory as ExportMemory};
ghost use Rattle.cosigner_core.specs.declared.error.ReadExportError.TheVariants.{Short as ExportShort};
ghost use Rattle.cosigner_core.specs.Faults.{cosigner_id_fault};

use crate::fault::FormError;
use journal_core::AppendError;
use mtc_io::Memory;
pub use state_journal::StateOpenError as CosignerOpenError;
use std::error::Error;
use std::fmt;
use tls_wire::{AnchorBytesError, Short};

/// What a cosigner refuses. Each call says in which order it tests.
#[derive(Clone, Copy, Debug, PartialEq, Eq)]
pub enum CosignError {
    /// The request names another log.
    WrongLog,
    /// The log is not larger than this, the size that is held.
    NotNewer(u64),
    /// The interval is no subtree.
    BadSubtree,
    /// The subtree ends after this, the size that is held.
    Beyond(u64),
    /// The consistency proof does not check.
    BadProof,
    /// Each one-time key of the lower trees has signed, and the next lower tree may be made.
    NeedsChild,
    /// Each one-time key of the cosigner has signed.
    Exhausted,
    /// The record was not appended.
    Append(AppendError),
}

impl fmt::Display for CosignError {
    ghost use Rattle.std.specs.Prelude.{Some};
    ghost use Rattle.cosigner_core.specs.Reasons.{step_fault_text};

    ghost output = { λ why. Some (step_fault_text why) };

    fn fmt<W: fmt::Write>(&self, f: &mut fmt::Formatter<W>) -> fmt::Result {
        match self {
            CosignError::WrongLog => f.write_str("WrongLog"),
            CosignError::NotNewer(held) => write!(f, "NotNewer {held}"),
            CosignError::BadSubtree => f.write_str("BadSubtree"),
            CosignError::Beyond(held) => write!(f, "Beyond {held}"),
            CosignError::BadProof => f.write_str("BadProof"),
            CosignError::NeedsChild => f.write_str("NeedsChild"),
            CosignError::Exhausted => f.write_str("Exhausted"),
            CosignError::Append(why) => why.fmt(f),
        }
    }
}

impl Error for CosignError {}

/// Why a cosigner makes no further lower tree. The call says in which order it tests.
#[derive(Clone, Copy, Debug, PartialEq, Eq)]
pub enum ChildError {
    /// The key has one level.
    OneLevel,
    /// The newest lower tree has so many one-time keys left.
    ChildLeft(u32),
    /// Each one-time key of the cosigner has signed, and it has all its lower trees.
    Exhausted,
    /// The record was not appended.
    Append(AppendError),
    /// Memory was refused.
    Memory,
}

impl fmt::Display for ChildError {
    ghost use Rattle.std.specs.Prelude.{Some};
    ghost use Rattle.cosigner_core.specs.Reasons.{child_fault_text};

    ghost output = { λ why. Some (child_fault_text why) };

    fn fmt<W: fmt::Write>(&self, f: &mut fmt::Formatter<W>) -> fmt::Result {
        match self {
            ChildError::OneLevel => f.write_str("OneLevel"),
            ChildError::ChildLeft(left) => write!(f, "ChildLeft {left}"),
            ChildError::Exhausted => f.write_str("Exhausted"),
            ChildError::Append(why) => why.fmt(f),
            ChildError::Memory => f.write_str("Memory"),
        }
    }
}

impl Error for ChildError {}

/// Why bytes are no export. They are read from the left, and the first fault is answered.
#[derive(Clone, Copy, Debug, PartialEq, Eq)]
pub enum ReadExportError {
    /// The id, the key or the record that begins at this offset doesn't fit.
    Short(usize),
    /// The public key is none of a cosigner.
    BadKey,
    /// An id is no anchor id.
    BadId,
    /// The record of this number, counted from 1, breaks the rules of a cosigner's records.
    BadRecord(u64),
    /// Memory was refused.
    Memory,
}

impl fmt::Display for ReadExportError {
    ghost use Rattle.std.specs.Prelude.{Some};
    ghost use Rattle.cosigner_core.specs.Reasons.{export_fault_text};

    ghost output = { λ why. Some (export_fault_text why) };

    fn fmt<W: fmt::Write>(&self, f: &mut fmt::Formatter<W>) -> fmt::Result {
        match self {
            ReadExportError::Short(offset) => write!(f, "Short {offset}"),
            ReadExportError::BadKey => f.write_str("BadKey"),
            ReadExportError::BadId => f.write_str("BadId"),
            ReadExportError::BadRecord(number) => write!(f, "BadRecord {number}"),
            ReadExportError::Memory => f.write_str("Memory"),
        }
    }
}

impl Error for ReadExportError {}

/// Why a record is not taken.
#[derive(Clone, Copy)]
pub(crate) enum RecordError {
    /// It breaks the rules.
    Unfit,
    /// Memory was refused.
    Memory,
}

impl From<AppendError> for CosignError {
    ghost from_gives = { λ why e. e ≡ NotAppended why };

    fn from(why: AppendError) -> Self {
        CosignError::Append(why)
    }
}

impl From<AppendError> for ChildError {
    ghost from_gives = { λ why e. e ≡ ChildNotAppended why };

    fn from(why: AppendError) -> Self {
        ChildError::Append(why)
    }
}

impl From<Memory> for ChildError {
    ghost from_gives = { λ _ e. e ≡ NoMemory };

    fn from(_: Memory) -> Self {
        ChildError::Memory
    }
}

impl From<Memory> for RecordError {
    ghost from_gives = { λ _ e. e ≡ RecordMemory };

    fn from(_: Memory) -> Self {
        RecordError::Memory
    }
}

impl From<Short> for RecordError {
    ghost from_gives = { λ _ e. e ≡ Unfit };

    fn from(_: Short) -> Self {
        RecordError::Unfit
    }
}

impl From<FormError> for RecordError {
    ghost from_gives = { λ _ e. e ≡ Unfit };

    fn from(_: FormError) -> Self {
        RecordError::Unfit
    }
}

impl From<AnchorBytesError> for RecordError {
    ghost from_gives = { λ fault e. e ≡ cosigner_id_fault fault };

    fn from(fault: AnchorBytesError) -> Self {
        match fault {
            AnchorBytesError::Memory => RecordError::Memory,
            _ => RecordError::Unfit,
        }
    }
}

impl From<Memory> for ReadExportError {
    ghost from_gives = { λ _ e. e ≡ ExportMemory };

    fn from(_: Memory) -> Self {
        ReadExportError::Memory
    }
}

impl From<Short> for ReadExportError {
    ghost from_gives = { λ short e. e ≡ ExportShort short.place };

    fn from(short: Short) -> Self {
        ReadExportError::Short(short.place)
    }
}
