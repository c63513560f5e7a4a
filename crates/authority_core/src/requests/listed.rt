//! Reading a file of several requests.

ghost use Rattle.std.specs.Prelude.{◌≡◌, ◌≤◌, ◌≢◌, true, codes, length, is_some, Some, Ok, Err};
ghost use Rattle.std.specs.Prelude.{[], ◌∷◌, ◌++◌, option_map, IfOk, IfErr, IfSome, OnOk};
ghost use Rattle.std.specs.List.{AllByRecursion};
ghost use Rattle.std.specs.Option.{option_and_then};
ghost use Rattle.byte_formats.specs.Readings.{Answers};
ghost use Rattle.toml.specs.Data.{get_member};
ghost use Rattle.toml.specs.View.{items_view, table_view, view};
ghost use Rattle.toml_fields.specs.Fields.{required_field};
ghost use Rattle.authority_core.specs.RequestLists.{numbered_request, requests_from, requests_in};
ghost use Rattle.authority_core.specs.RequestLists.{some_tables};
ghost use Rattle.authority_core.specs.RequestLists.{member_tables, requests_of, tables_data};
ghost use Rattle.authority_core.specs.RequestLists.{tables_in};
ghost use Rattle.authority_core.specs.Requests.{CanBeIssued};

use crate::requests::error::{RequestError, RequestListError};
use crate::requests::parts::Request;
use crate::requests::reading::request_of_table;
use mtc_io::Memory;
use std::alloc::Global;
use toml::{Table, Value};
use toml_fields::{TreeError, keys_are_among, read_tree, value_at};

// Whether each item is a table.
fn are_tables(values: &[Value]) -> bool
    ensures { result ≡ is_some (tables_in (items_view values.now)) }
{
    for value in values {
        if !value.is_table() {
            return false;
        }
    }
    true
}

// The tables that the items are, each of them, and one at least.
#[tactic(auto, using(crate::proofs::Tables::table_tests))]
fn tables_among(values: &[Value]) -> Option<&[Value]>
    ensures tables { option_map (λ xs. member_tables (items_view xs.now)) result
        ≡ option_and_then some_tables (tables_in (items_view values.now)) }
    ensures each { IfSome result (λ xs. is_some (tables_in (items_view xs.now)) ≡ true) }
    ensures some { IfSome result (λ xs. 1 ≤ length xs.now) }
{
    if values.is_empty() {
        return None;
    }
    if !are_tables(values) {
        return None;
    }
    Some(values)
}

// The tables that a value is.
#[tactic(auto, unfolding(crate::specs::RequestLists::tables_data))]
fn tables_of(value: &Value) -> Option<&[Value]>
    ensures tables { option_map (λ xs. member_tables (items_view xs.now)) result
        ≡ tables_data (view value.now) }
    ensures each { IfSome result (λ xs. is_some (tables_in (items_view xs.now)) ≡ true) }
    ensures some { IfSome result (λ xs. 1 ≤ length xs.now) }
{
    match value.as_array() {
        Some(values) => tables_among(values.as_slice()),
        None => None,
    }
}

// The tables of the list.
fn tables_at(root: &Table) -> Result<&[Value], RequestListError>
    ensures ok { IfOk result (λ values. required_field RequestListError.Missing
        RequestListError.BadValue tables_data (get_member (codes "request") (table_view root.now))
        ≡ Ok (member_tables (items_view values.now))) }
    ensures each { IfOk result (λ values. is_some (tables_in (items_view values.now)) ≡ true) }
    ensures some { IfOk result (λ values. 1 ≤ length values.now) }
    ensures err { IfErr result (λ why. required_field RequestListError.Missing
        RequestListError.BadValue tables_data (get_member (codes "request") (table_view root.now))
        ≡ Err why) }
{
    let Some(value) = value_at(root, "request") else {
        return Err(RequestListError::Missing);
    };
    tables_of(value).ok_or(RequestListError::BadValue)
}

// The request of the table with this number.
fn numbered(alloc: Global, table: &Table, number: u64) -> Result<Request, RequestListError>
    ensures exact { Answers RequestListError.Memory
        (numbered_request number (table_view table.now)) result }
    ensures valid { IfOk result CanBeIssued }
{
    match request_of_table(alloc, table) {
        Ok(request) => Ok(request),
        Err(RequestError::Memory) => Err(RequestListError::Memory),
        Err(why) => Err(RequestListError::OfRequest(why, number)),
    }
}

// One request more.
fn push_request(requests: &mut Vec<Request>, request: Request) -> Result<(), Memory>
    ensures { OnOk result (requests.new.items ≡ requests.old.items ++ request ∷ []) }
{
    requests.push(request)?;
    Ok(())
}

// The requests of the tables, each in its turn.
fn each_request(alloc: Global, values: &[Value]) -> Result<Vec<Request>, RequestListError>
    requires { is_some (tables_in (items_view values.now)) ≡ true }
    ensures ok { IfOk result (λ xs. requests_from 0 (member_tables (items_view values.now))
        ≡ Ok xs.items) }
    ensures err { IfErr result (λ e. e ≢ RequestListError.Memory
        → requests_from 0 (member_tables (items_view values.now)) ≡ Err e) }
    ensures valid { IfOk result (λ xs. AllByRecursion CanBeIssued xs.items) }
    ensures count { IfOk result (λ xs. length xs.items ≡ length values.now) }
{
    let mut requests = Vec::new(alloc);
    for value in values {
        match value.as_table() {
            Some(table) => {
                let request = numbered(alloc, table, requests.as_slice().len() as u64)?;
                push_request(&mut requests, request)?;
            }
            // Each item is a table.
            None => unreachable!(),
        }
    }
    Ok(requests)
}

// The requests that the root says.
fn requests_at(alloc: Global, root: &Table) -> Result<Vec<Request>, RequestListError>
    ensures ok { IfOk result (λ xs. requests_in (table_view root.now) ≡ Ok xs.items) }
    ensures err { IfErr result (λ e. e ≢ RequestListError.Memory
        → requests_in (table_view root.now) ≡ Err e) }
    ensures valid { IfOk result (λ xs. AllByRecursion CanBeIssued xs.items) }
    ensures some { IfOk result (λ xs. 1 ≤ length xs.items) }
{
    match tables_at(root) {
        Ok(values) => each_request(alloc, values),
        Err(why) => Err(why),
    }
}

/// Reads a file of several requests. It has the one key `request`, an array of at least one table,
/// each with the keys of a request file. The first fault is answered, in the order of
/// [`RequestListError`]; what is answered can be issued.
#[tactic(auto, unfolding(crate::specs::RequestLists::requests_of))]
pub fn read_requests(alloc: Global, text: &[u8]) -> Result<Vec<Request>, RequestListError>
    ensures ok { IfOk result (λ xs. requests_of text.now ≡ Ok xs.items) }
    ensures err { IfErr result (λ e. e ≢ RequestListError.Memory → requests_of text.now ≡ Err e) }
    ensures valid { IfOk result (λ xs. AllByRecursion CanBeIssued xs.items) }
    ensures some { IfOk result (λ xs. 1 ≤ length xs.items) }
{
    let root = match read_tree(alloc, text) {
        Ok(root) => root,
        Err(TreeError::NotToml) => return Err(RequestListError::NotToml),
        Err(TreeError::Memory) => return Err(RequestListError::Memory),
    };
    if keys_are_among(&root, &["request"]) {
        requests_at(alloc, &root)
    } else {
        Err(RequestListError::UnknownKey)
    }
}
