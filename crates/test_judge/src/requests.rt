//! Request files: what is wrong with them, and two that are whole; and host names.

use crate::texts::{headed, joined};
use authority_core::{Field, Request, RequestError, read_request};
use cert_names::is_host;
use std::alloc::Global;
use std::test::Fail;

const DATES: &str = "not_before = \"2026-01-01T00:00:00Z\"\nnot_after = \"2026-01-08T00:00:00Z\"\n";

const DNS: &str = "dns = [\"a.example\"]\n";

const KEY: &str = "key = \"MCowBQYDK2VwAyEAAAAAAAAAAAAAAAAAAAAAAAAAAAAAAAAAAAAAAAAAAAA=\"\n";

fn read(alloc: Global, text: &str) -> Result<Request, RequestError> {
    read_request(alloc, text.as_bytes())
}

// Why a text is no request.
fn refusal(alloc: Global, text: &str) -> Option<RequestError> {
    read(alloc, text).err()
}

// Requests that are refused: after `== ` why, and a remark; then the request.
const REFUSED: &str = r#"== NotToml
|= not_before
== NotToml
|= a = 😀
== Missing(NotBefore)
== BadValue(NotBefore)
not_before = "2026-02-30T00:00:00Z"
== BadValue(NotBefore): a date of the file's own kind is no text
not_before = 2026-01-01T00:00:00Z
== Missing(NotAfter)
not_before = "2026-01-01T00:00:00Z"
dns = ["a.example"]
key = "MCowBQYDK2VwAyEAAAAAAAAAAAAAAAAAAAAAAAAAAAAAAAAAAAAAAAAAAAA="
== Missing(Dns)
not_before = "2026-01-01T00:00:00Z"
not_after = "2026-01-08T00:00:00Z"
key = "MCowBQYDK2VwAyEAAAAAAAAAAAAAAAAAAAAAAAAAAAAAAAAAAAAAAAAAAAA="
== BadValue(Dns)
not_before = "2026-01-01T00:00:00Z"
not_after = "2026-01-08T00:00:00Z"
dns = "a.example"
key = "MCowBQYDK2VwAyEAAAAAAAAAAAAAAAAAAAAAAAAAAAAAAAAAAAAAAAAAAAA="
== BadValue(Dns)
not_before = "2026-01-01T00:00:00Z"
not_after = "2026-01-08T00:00:00Z"
dns = ["a.example", "-a.example"]
key = "MCowBQYDK2VwAyEAAAAAAAAAAAAAAAAAAAAAAAAAAAAAAAAAAAAAAAAAAAA="
== BadValue(Dns)
not_before = "2026-01-01T00:00:00Z"
not_after = "2026-01-08T00:00:00Z"
dns = [1]
key = "MCowBQYDK2VwAyEAAAAAAAAAAAAAAAAAAAAAAAAAAAAAAAAAAAAAAAAAAAA="
== BadValue(CommonName)
not_before = "2026-01-01T00:00:00Z"
not_after = "2026-01-08T00:00:00Z"
dns = ["a.example"]
common_name = ""
key = "MCowBQYDK2VwAyEAAAAAAAAAAAAAAAAAAAAAAAAAAAAAAAAAAAAAAAAAAAA="
== BadValue(CommonName): 65 bytes
not_before = "2026-01-01T00:00:00Z"
not_after = "2026-01-08T00:00:00Z"
dns = ["a.example"]
common_name = "aaaaaaaaaaaaaaaaaaaaaaaaaaaaaaaaaaaaaaaaaaaaaaaaaaaaaaaaaaaaaaaaa"
key = "MCowBQYDK2VwAyEAAAAAAAAAAAAAAAAAAAAAAAAAAAAAAAAAAAAAAAAAAAA="
== BadValue(CommonName)
not_before = "2026-01-01T00:00:00Z"
not_after = "2026-01-08T00:00:00Z"
dns = ["a.example"]
common_name = []
== Missing(PublicKey)
not_before = "2026-01-01T00:00:00Z"
not_after = "2026-01-08T00:00:00Z"
dns = ["a.example"]
== BadValue(PublicKey)
not_before = "2026-01-01T00:00:00Z"
not_after = "2026-01-08T00:00:00Z"
dns = ["a.example"]
key = "MCowBQYDK2VwAyEA"
== BadValue(PublicKey): a byte after the element
not_before = "2026-01-01T00:00:00Z"
not_after = "2026-01-08T00:00:00Z"
dns = ["a.example"]
key = "MCowBQYDK2VwAyEAAAAAAAAAAAAAAAAAAAAAAAAAAAAAAAAAAAAAAAAAAAAA"
== NoNames
not_before = "2026-01-01T00:00:00Z"
not_after = "2026-01-08T00:00:00Z"
dns = []
key = "MCowBQYDK2VwAyEAAAAAAAAAAAAAAAAAAAAAAAAAAAAAAAAAAAAAAAAAAAA="
== DatesReversed
not_before = "2026-01-08T00:00:00Z"
not_after = "2026-01-01T00:00:00Z"
dns = ["a.example"]
key = "MCowBQYDK2VwAyEAAAAAAAAAAAAAAAAAAAAAAAAAAAAAAAAAAAAAAAAAAAA="
== DatesReversed
not_before = "2026-01-08T00:00:00Z"
not_after = "2026-01-01T00:00:00Z"
dns = []
key = "MCowBQYDK2VwAyEAAAAAAAAAAAAAAAAAAAAAAAAAAAAAAAAAAAAAAAAAAAA="
== UnknownKey
not_before = "2026-01-01T00:00:00Z"
not_after = "2026-01-08T00:00:00Z"
dns = ["a.example"]
key = "MCowBQYDK2VwAyEAAAAAAAAAAAAAAAAAAAAAAAAAAAAAAAAAAAAAAAAAAAA="
other = 1
== UnknownKey
other = 1
== UnknownKey
email = 1
"#;

// Whether the request of this block is refused as its first line says.
fn is_refused(alloc: Global, block: &str) -> Result<bool, Fail> {
    let (why, text) = headed(block);
    match refusal(alloc, text) {
        Some(found) => Ok(format!(in alloc; "{found:?}")?.as_str() == why),
        None => Ok(false),
    }
}

#[test]
fn the_first_fault_is_reported(rt: HostRuntime) -> Result<(), Fail> {
    let mut count = 0u64;
    for block in REFUSED.split("== ").skip(1) {
        assert!(rt; is_refused(rt.alloc(), block)?, "{block}");
        count = count.saturating_add(1);
    }
    assert!(rt; count == 22);
    Ok(())
}

// What a request is to say.
#[derive(Drop)]
struct Wanted<'a> {
    not_before: i64,
    not_after: i64,
    names: &'a [&'a [u8]],
    common_name: Option<&'a [u8]>,
    key: &'a [u8],
}

// The names are these, in this order.
fn are_named(request: &Request, names: &[&[u8]]) -> bool {
    let found = request.names.as_slice();
    found.len() == names.len()
        && found
            .iter()
            .zip(names)
            .all(|(name, wanted)| name.as_slice() == *wanted)
}

// The common name is this one.
fn has_common_name(request: &Request, wanted: Option<&[u8]>) -> bool {
    match &request.common_name {
        Some(name) => wanted == Some(name.as_slice()),
        None => wanted.is_none(),
    }
}

// A request says what is wanted.
fn is_wanted(request: &Request, wanted: &Wanted) -> bool {
    request.validity.not_before == wanted.not_before
        && request.validity.not_after == wanted.not_after
        && are_named(request, wanted.names)
        && has_common_name(request, wanted.common_name)
        && request.key.as_slice() == wanted.key
}

// The request of these pieces says what is wanted.
fn says(alloc: Global, pieces: &[&str], wanted: &Wanted) -> Result<bool, Fail> {
    let text = joined(alloc, pieces)?;
    Ok(is_wanted(&read(alloc, text.as_str())?, wanted))
}

// An Ed25519 key of zeros.
fn zeros() -> [u8; 44] {
    let mut key = [0; 44];
    key[..12].copy_from_slice(&[
        0x30, 0x2A, 0x30, 0x05, 0x06, 0x03, 0x2B, 0x65, 0x70, 0x03, 0x21, 0x00,
    ]);
    key
}

#[test]
fn a_request_may_have_no_common_name(rt: HostRuntime) -> Result<(), Fail> {
    let wanted = Wanted {
        not_before: 1767225600,
        not_after: 1767830400,
        names: &[b"a.example"],
        common_name: None,
        key: &zeros(),
    };
    assert!(rt; says(rt.alloc(), &[DATES, DNS, KEY], &wanted)?);
    Ok(())
}

#[test]
fn fields_may_stand_in_any_order(rt: HostRuntime) -> Result<(), Fail> {
    let pieces = [
        KEY,
        "common_name = \"a b\"\ndns = [\"b.example\", \"*.A.example\"]\n",
        "not_after = \"1950-01-01T00:00:00Z\"\n",
        "not_before = \"1950-01-01T00:00:00Z\"\n",
    ];
    let wanted = Wanted {
        not_before: -631152000,
        not_after: -631152000,
        names: &[b"b.example", b"*.A.example"],
        common_name: Some(b"a b"),
        key: &zeros(),
    };
    assert!(rt; says(rt.alloc(), &pieces, &wanted)?);
    Ok(())
}

// Whether a text is a host name.
fn is_name(text: &[u8]) -> bool {
    is_host(text)
}

// Host names, and texts that are none, of which the first is empty.
const HOSTS: &str = "a\na.example\nA-1.b--c.9\n*\n*.example";

const NO_HOSTS: &str =
    "\n.\na.\n.a\na..b\n-a.example\na-.example\na.-\na.b-\na.*\n*a.b\n**\na_b\na b\nä.example\na:b";

// How many lines of a text are host names, or are none, as is wanted, up to the first other one.
fn count_hosts(text: &str, wanted: bool) -> u64 {
    let mut count = 0u64;
    for name in text.lines() {
        if is_name(name.as_bytes()) != wanted {
            return count;
        }
        count = count.saturating_add(1);
    }
    count
}

#[test]
fn host_names_are_labels_with_dots_between_them(rt: HostRuntime) -> Result<(), Fail> {
    assert!(rt; count_hosts(HOSTS, true) == 5);
    assert!(rt; count_hosts(NO_HOSTS, false) == 16);
    Ok(())
}

// So many bytes, `a` and dots at these offsets alone.
fn long_name(alloc: Global, size: u64, dots: &[u64]) -> Result<Vec<u8>, Fail> {
    let mut name = Vec::new(alloc);
    for index in 0..size {
        name.push(if dots.contains(&index) { b'.' } else { b'a' })?;
    }
    Ok(name)
}

// Whether such a text is a host name.
fn is_long_name(alloc: Global, size: u64, dots: &[u64]) -> Result<bool, Fail> {
    Ok(is_name(long_name(alloc, size, dots)?.as_slice()))
}

// Labels of 63 bytes, and the last one of 61 or 62; and labels of 64 and 100 bytes.
#[test]
fn labels_and_host_names_have_a_longest(rt: HostRuntime) -> Result<(), Fail> {
    let cases: [(u64, &[u64], bool); 5] = [
        (63, &[], true),
        (253, &[63, 127, 191], true),
        (254, &[63, 127, 191], false),
        (64, &[], false),
        (100, &[], false),
    ];
    for (size, dots, wanted) in cases {
        assert!(rt; is_long_name(rt.alloc(), size, dots)? == wanted, "{size}");
    }
    Ok(())
}

// So many names and the rest of a request.
fn many(alloc: Global, count: usize) -> Result<String, Fail> {
    let mut text = joined(alloc, &[DATES, KEY, "dns = ["])?;
    for _ in 0..count {
        text.push_str("\"a\", ")?;
    }
    text.push_str("]\n")?;
    Ok(text)
}

// How many names the request of a text has.
fn count_of(alloc: Global, text: &str) -> Result<usize, RequestError> {
    Ok(read(alloc, text)?.names.into_vec().len())
}

// How many names a request of so many has, or why it is refused.
fn counted(alloc: Global, count: usize) -> Result<Result<usize, RequestError>, Fail> {
    let text = many(alloc, count)?;
    Ok(count_of(alloc, text.as_str()))
}

#[test]
fn a_request_has_at_most_100_names(rt: HostRuntime) -> Result<(), Fail> {
    assert!(rt; counted(rt.alloc(), 100)? == Ok(100));
    assert!(rt; counted(rt.alloc(), 101)? == Err(RequestError::BadValue(Field::Dns)));
    Ok(())
}
