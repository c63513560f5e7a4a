//! Reading a request file.

ghost use Rattle.std.specs.Prelude.{Some, IfOk};
ghost use Rattle.byte_formats.specs.Readings.{Answers};
ghost use Rattle.toml.specs.View.{table_view};
ghost use Rattle.authority_core.specs.Files.{request_in, request_of, request_of_tree};
ghost use Rattle.authority_core.specs.Requests.{CanBeIssued};

use crate::requests::error::{Field, RequestError};
use crate::requests::parts::Request;
use crate::requests::values::{common_name_at, key_at, names_at, time_at};
use cert_time::Validity;
use std::alloc::Global;
use toml::Table;
use toml_fields::{TreeError, keys_are_among, read_tree};

// The request that the fields of the root say.
#[tactic(auto, unfolding(crate::specs::Files::request_in, crate::specs::Files::checked_request))]
fn request_from(alloc: Global, root: &Table) -> Result<Request, RequestError>
    ensures exact { Answers RequestError.Memory (request_in (table_view root.now)) result }
    ensures valid { IfOk result CanBeIssued }
{
    let not_before = time_at(root, "not_before", Field::NotBefore)?;
    let not_after = time_at(root, "not_after", Field::NotAfter)?;
    let names = names_at(alloc, root)?;
    let common_name = common_name_at(alloc, root)?;
    let key = key_at(alloc, root)?;
    if not_after < not_before {
        return Err(RequestError::DatesReversed);
    }
    if names.is_empty() {
        return Err(RequestError::NoNames);
    }
    let validity = Validity {
        not_before,
        not_after,
    };
    Ok(Request {
        validity,
        names,
        common_name,
        key,
    })
}

/// The request of a table: its keys are among those of a request.
pub(crate) fn request_of_table(alloc: Global, table: &Table) -> Result<Request, RequestError>
    ensures exact { Answers RequestError.Memory
        (request_of_tree (Some (table_view table.now))) result }
    ensures valid { IfOk result CanBeIssued }
{
    if keys_are_among(
        table,
        &["not_before", "not_after", "dns", "common_name", "key"],
    ) {
        request_from(alloc, table)
    } else {
        Err(RequestError::UnknownKey)
    }
}

/// Reads a request file. It has the texts `not_before` and `not_after` (`YYYY-MM-DDTHH:MM:SSZ`,
/// from 1950 to 9999), the array `dns` of at most 100 host names, and the text `key`, a
/// subjectPublicKeyInfo element in base64; it may have the text `common_name` of 1 to 64 bytes. The
/// first fault is answered, in the order of [`RequestError`]; what is answered can be issued.
#[tactic(auto, unfolding(crate::specs::Files::request_of))]
pub fn read_request(alloc: Global, text: &[u8]) -> Result<Request, RequestError>
    ensures exact { Answers RequestError.Memory (request_of text.now) result }
    ensures valid { IfOk result CanBeIssued }
{
    let root = match read_tree(alloc, text) {
        Ok(root) => root,
        Err(TreeError::NotToml) => return Err(RequestError::NotToml),
        Err(TreeError::Memory) => return Err(RequestError::Memory),
    };
    request_of_table(alloc, &root)
}
