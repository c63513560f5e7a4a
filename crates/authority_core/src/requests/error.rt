//! Why a text is no request file.

ghost use Rattle.std.specs.Prelude.{◌≡◌};
ghost use Rattle.authority_core.specs.declared.requests.error.RequestListError.TheVariants.{Memory as NoMemory};

use mtc_io::Memory;
use std::error::Error;
use std::fmt;

/// The fields of a request file.
#[derive(Clone, Copy, Debug, PartialEq, Eq)]
pub enum Field {
    /// `not_before`
    NotBefore,
    /// `not_after`
    NotAfter,
    /// `dns`
    Dns,
    /// `common_name`
    CommonName,
    /// `key`
    PublicKey,
}

impl fmt::Display for Field {
    ghost use Rattle.std.specs.Prelude.{Some};
    ghost use Rattle.authority_core.specs.Reasons.{field_text};

    ghost output = { λ field. Some (field_text field) };

    fn fmt<W: fmt::Write>(&self, f: &mut fmt::Formatter<W>) -> fmt::Result {
        match self {
            Field::NotBefore => f.write_str("NotBefore"),
            Field::NotAfter => f.write_str("NotAfter"),
            Field::Dns => f.write_str("Dns"),
            Field::CommonName => f.write_str("CommonName"),
            Field::PublicKey => f.write_str("PublicKey"),
        }
    }
}

/// Why a text is no request file. The tests are made in this order, and those of the fields field
/// by field in the order of [`Field`].
#[derive(Clone, Copy, Debug, PartialEq, Eq)]
pub enum RequestError {
    /// The text isn't UTF-8, or isn't TOML.
    NotToml,
    /// There is a key that a request doesn't have.
    UnknownKey,
    /// The field is absent.
    Missing(Field),
    /// The field isn't in its form.
    BadValue(Field),
    /// `not_before` is after `not_after`.
    DatesReversed,
    /// `dns` is empty.
    NoNames,
    /// Memory was refused.
    Memory,
}

impl fmt::Display for RequestError {
    ghost use Rattle.std.specs.Prelude.{Some};
    ghost use Rattle.authority_core.specs.Reasons.{request_fault_text};

    ghost output = { λ why. Some (request_fault_text why) };

    fn fmt<W: fmt::Write>(&self, f: &mut fmt::Formatter<W>) -> fmt::Result {
        match self {
            RequestError::NotToml => f.write_str("NotToml"),
            RequestError::UnknownKey => f.write_str("UnknownKey"),
            RequestError::Missing(field) => write!(f, "Missing {field}"),
            RequestError::BadValue(field) => write!(f, "BadValue {field}"),
            RequestError::DatesReversed => f.write_str("DatesReversed"),
            RequestError::NoNames => f.write_str("NoNames"),
            RequestError::Memory => f.write_str("Memory"),
        }
    }
}

impl Error for RequestError {}

impl From<Memory> for RequestError {
    ghost use Rattle.std.specs.Prelude.{◌≡◌};
    ghost use Rattle.authority_core.specs.declared.requests.error.RequestError.TheVariants.{Memory};

    ghost from_gives = { λ _ e. e ≡ Memory };

    fn from(_refused: Memory) -> RequestError {
        RequestError::Memory
    }
}

/// Why a text is no file of several requests. The tests are made in this order, and those of the
/// tables table by table.
#[derive(Clone, Copy, Debug, PartialEq, Eq)]
pub enum RequestListError {
    /// The text isn't UTF-8, or isn't TOML.
    NotToml,
    /// There is a key at the root that isn't `request`.
    UnknownKey,
    /// There is no list.
    Missing,
    /// The list is no array, is empty, or has an item that is no table.
    BadValue,
    /// The table with this number, counted from 0, is no request.
    OfRequest(RequestError, u64),
    /// Memory was refused.
    Memory,
}

impl fmt::Display for RequestListError {
    ghost use Rattle.std.specs.Prelude.{Some};
    ghost use Rattle.authority_core.specs.Reasons.{request_list_fault_text};

    ghost output = { λ why. Some (request_list_fault_text why) };

    fn fmt<W: fmt::Write>(&self, f: &mut fmt::Formatter<W>) -> fmt::Result {
        match self {
            RequestListError::NotToml => f.write_str("NotToml"),
            RequestListError::UnknownKey => f.write_str("UnknownKey"),
            RequestListError::Missing => f.write_str("Missing Requests"),
            RequestListError::BadValue => f.write_str("BadValue Requests"),
            RequestListError::OfRequest(why, number) => write!(f, "{why} {number}"),
            RequestListError::Memory => f.write_str("Memory"),
        }
    }
}

impl Error for RequestListError {}

impl From<Memory> for RequestListError {
    ghost from_gives = { λ _ e. e ≡ NoMemory };

    fn from(_refused: Memory) -> RequestListError {
        RequestListError::Memory
    }
}
