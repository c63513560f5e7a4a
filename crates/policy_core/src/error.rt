//! Why a text is no store file.

use mtc_io::Memory;
use std::alloc::AllocFailed;
use std::error::Error;
use std::fmt;

/// The fields of a store file, and its tables.
#[derive(Clone, Copy, Debug, PartialEq, Eq)]
pub enum Key {
    /// The log's `id`.
    LogId,
    /// The log's `algorithm_from`.
    AlgorithmFrom,
    /// A cosigner's `id`.
    CosignerId,
    /// A cosigner's `key`.
    CosignerKey,
    /// A rule's `count`.
    Count,
    /// A rule's `cosigners`.
    Cosigners,
    /// A range's or a subtree's `start`.
    Start,
    /// A range's or a subtree's `end`.
    End,
    /// A subtree's `hash`.
    Hash,
    /// A value that isn't a table, or not a list of tables, where one has to be.
    Table,
}

impl fmt::Display for Key {
    ghost use Rattle.std.specs.Prelude.{Some};
    ghost use Rattle.policy_core.specs.Reasons.{key_text};

    ghost output = { λ key. Some (key_text key) };

    fn fmt<W: fmt::Write>(&self, f: &mut fmt::Formatter<W>) -> fmt::Result {
        match self {
            Key::LogId => f.write_str("LogId"),
            Key::AlgorithmFrom => f.write_str("AlgorithmFrom"),
            Key::CosignerId => f.write_str("CosignerId"),
            Key::CosignerKey => f.write_str("CosignerKey"),
            Key::Count => f.write_str("Count"),
            Key::Cosigners => f.write_str("Cosigners"),
            Key::Start => f.write_str("Start"),
            Key::End => f.write_str("End"),
            Key::Hash => f.write_str("Hash"),
            Key::Table => f.write_str("Table"),
        }
    }
}

/// Why a text is no store file. The tests are made in this order: the text, the keys of the root,
/// the log, the cosigners, the rules, the subtrees and the revoked ranges one by one, each of them
/// for its keys and then field by field, and the whole. An item that is no table is reported at its
/// turn, after the faults of the items before it.
#[derive(Clone, Copy, Debug, PartialEq, Eq)]
pub enum StoreError {
    /// The text isn't UTF-8, or isn't TOML.
    NotToml,
    /// A table has a key that it may not have.
    UnknownKey,
    /// The field is absent. `Missing(LogId)` is also the answer where there is no table `log`.
    Missing(Key),
    /// The field isn't in its form. `BadValue(CosignerId)` is also the answer at a 65th cosigner,
    /// whatever its id is.
    BadValue(Key),
    /// Two cosigners have one id.
    RepeatedId,
    /// Two subtrees have one interval.
    RepeatedSubtree,
    /// An interval is no subtree, or a revoked range ends where it starts or before.
    BadRange,
    /// Memory was refused.
    Memory,
}

impl fmt::Display for StoreError {
    ghost use Rattle.std.specs.Prelude.{Some};
    ghost use Rattle.policy_core.specs.Reasons.{store_fault_text};

    ghost output = { λ why. Some (store_fault_text why) };

    fn fmt<W: fmt::Write>(&self, f: &mut fmt::Formatter<W>) -> fmt::Result {
        match self {
            StoreError::NotToml => f.write_str("NotToml"),
            StoreError::UnknownKey => f.write_str("UnknownKey"),
            StoreError::Missing(key) => write!(f, "Missing {key}"),
            StoreError::BadValue(key) => write!(f, "BadValue {key}"),
            StoreError::RepeatedId => f.write_str("RepeatedId"),
            StoreError::RepeatedSubtree => f.write_str("RepeatedSubtree"),
            StoreError::BadRange => f.write_str("BadRange"),
            StoreError::Memory => f.write_str("Memory"),
        }
    }
}

impl Error for StoreError {}

impl From<Memory> for StoreError {
    ghost use Rattle.std.specs.Prelude.{◌≡◌};
    ghost use Rattle.policy_core.specs.declared.error.StoreError.TheVariants.{Memory};

    ghost from_gives = { λ _ e. e ≡ Memory };

    fn from(_refused: Memory) -> StoreError {
        StoreError::Memory
    }
}

impl<T: Drop> From<AllocFailed<T>> for StoreError {
    ghost use Rattle.std.specs.Prelude.{◌≡◌};
    ghost use Rattle.policy_core.specs.declared.error.StoreError.TheVariants.{Memory};

    ghost from_gives = { λ _ e. e ≡ Memory };

    fn from(_refused: AllocFailed<T>) -> StoreError {
        StoreError::Memory
    }
}
