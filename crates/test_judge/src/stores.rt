//! Store files: what is wrong with them, and two that are whole.

use crate::texts::{headed, joined};
use policy_core::{Known, Rule, Store, StoreError, Trusted};
use std::alloc::Global;
use std::test::Fail;
use tree_core::Span;

// 64 hexadecimal digits.
const HASH: &str = "hash = \"6e340b9cffb37a989ca544e6bb780a2c78901d3fb33738768511a30617afa01d\"\n";

const LOG: &str = "[log]\nid = \"32473.1\"\n";

const DIGEST: [u8; 32] = [
    0x6E, 0x34, 0x0B, 0x9C, 0xFF, 0xB3, 0x7A, 0x98, 0x9C, 0xA5, 0x44, 0xE6, 0xBB, 0x78, 0x0A, 0x2C,
    0x78, 0x90, 0x1D, 0x3F, 0xB3, 0x37, 0x38, 0x76, 0x85, 0x11, 0xA3, 0x06, 0x17, 0xAF, 0xA0, 0x1D,
];

fn read(alloc: Global, text: &str) -> Result<Store, StoreError> {
    Store::read(alloc, text.as_bytes())
}

// Why a text is no store.
fn refusal(alloc: Global, text: &str) -> Option<StoreError> {
    read(alloc, text).err()
}

// Store files that are refused: after `== ` why, and a remark; then the file.
const REFUSED: &str = r#"== Missing(LogId)
== NotToml
|= [log
== BadValue(Table)
|= log = 1
== UnknownKey
|= x = 1
== BadValue(LogId)
[log]
id = "32473.01"
== Missing(LogId)
[log]
== BadValue(LogId)
[log]
id = 1
== UnknownKey
[log]
id = "32473.1"
name = 1
== BadValue(Table)
[[log]]
id = "1"
== UnknownKey: the root's keys come before the log
log = 1
cosigners = []
== UnknownKey
rules = []
== UnknownKey
subtrees = []
== BadValue(Table)
subtree = 1
[log]
id = "32473.1"
== BadValue(Table)
revoked = [1]
[log]
id = "32473.1"
== Missing(End)
revoked = [{start = 1}, 1]
[log]
id = "32473.1"
== UnknownKey
[log]
id = "32473.1"
[[subtree]]
end = 2
other = 1
== Missing(Start)
[log]
id = "32473.1"
[[subtree]]
end = 2
hash = "6e340b9cffb37a989ca544e6bb780a2c78901d3fb33738768511a30617afa01d"
== BadValue(Start)
[log]
id = "32473.1"
[[subtree]]
start = -1
end = 2
hash = "6e340b9cffb37a989ca544e6bb780a2c78901d3fb33738768511a30617afa01d"
== BadValue(End)
[log]
id = "32473.1"
[[subtree]]
start = 0
end = "2"
== Missing(Hash)
[log]
id = "32473.1"
[[subtree]]
start = 0
end = 2
== BadValue(Hash)
[log]
id = "32473.1"
[[subtree]]
start = 0
end = 2
hash = "6e340b9cffb37a989ca544e6bb780a2c78901d3fb33738768511a30617afa01"
== BadValue(Start)
[log]
id = "32473.1"
[[revoked]]
start = 1.0
end = 2
== Missing(End): subtrees come before ranges, wherever they stand
[log]
id = "32473.1"
[[revoked]]
start = 1
[[subtree]]
start = 0
== BadValue(Start)
[log]
id = "32473.1"
[[revoked]]
[[subtree]]
start = true
== RepeatedSubtree
[log]
id = "32473.1"
[[subtree]]
start = 0
end = 2
hash = "6e340b9cffb37a989ca544e6bb780a2c78901d3fb33738768511a30617afa01d"
[[subtree]]
start = 0
end = 2
hash = "6e340b9cffb37a989ca544e6bb780a2c78901d3fb33738768511a30617afa01d"
== BadRange
[log]
id = "32473.1"
[[revoked]]
start = 5
end = 5
== BadRange
[log]
id = "32473.1"
[[revoked]]
start = 6
end = 5
== BadRange
[log]
id = "32473.1"
[[subtree]]
start = 1
end = 3
hash = "6e340b9cffb37a989ca544e6bb780a2c78901d3fb33738768511a30617afa01d"
== RepeatedSubtree
[log]
id = "32473.1"
[[subtree]]
start = 1
end = 3
hash = "6e340b9cffb37a989ca544e6bb780a2c78901d3fb33738768511a30617afa01d"
[[subtree]]
start = 0
end = 1
hash = "6e340b9cffb37a989ca544e6bb780a2c78901d3fb33738768511a30617afa01d"
[[subtree]]
start = 1
end = 3
hash = "6e340b9cffb37a989ca544e6bb780a2c78901d3fb33738768511a30617afa01d"
[[revoked]]
start = 5
end = 5
== BadValue(Table)
cosigner = {}
[log]
id = "32473.1"
== Missing(CosignerId)
[log]
id = "32473.1"
[[cosigner]]
key = ""
== BadValue(CosignerId)
[log]
id = "32473.1"
[[cosigner]]
id = "01"
== UnknownKey
[log]
id = "32473.1"
[[cosigner]]
id = "2"
keys = ""
== Missing(CosignerKey)
[log]
id = "32473.1"
[[cosigner]]
id = "2"
== BadValue(CosignerKey): no HSS key: an unknown typecode
[log]
id = "32473.1"
[[cosigner]]
id = "2"
key = "AAAAAQAAAAQAAAADAAAAAAAAAAAAAAAAAAAAAH4U7Q2LRLYZGKVkewVnpJ6WngRUyw8U3ypiscp4ftyw"
== BadValue(CosignerKey): a byte short
[log]
id = "32473.1"
[[cosigner]]
id = "2"
key = "AAAAAQAAAAUAAAADAAAAAAAAAAAAAAAAAAAAAH4U7Q2LRLYZGKVkewVnpJ6WngRUyw8U3ypiscp4ftw="
== BadValue(CosignerKey): no text
[log]
id = "32473.1"
[[cosigner]]
id = "2"
key = 1
== Missing(Cosigners)
[log]
id = "32473.1"
[[rule]]
count = 1
== BadValue(Cosigners): no cosigner has this id
[log]
id = "32473.1"
[[cosigner]]
id = "2"
key = "AAAAAQAAAAUAAAADAAAAAAAAAAAAAAAAAAAAAH4U7Q2LRLYZGKVkewVnpJ6WngRUyw8U3ypiscp4ftyw"
[[rule]]
cosigners = ["3"]
count = 1
== BadValue(Cosigners): one twice
[log]
id = "32473.1"
[[cosigner]]
id = "2"
key = "AAAAAQAAAAUAAAADAAAAAAAAAAAAAAAAAAAAAH4U7Q2LRLYZGKVkewVnpJ6WngRUyw8U3ypiscp4ftyw"
[[rule]]
cosigners = ["2", "2"]
count = 1
== Missing(Count)
[log]
id = "32473.1"
[[cosigner]]
id = "2"
key = "AAAAAQAAAAUAAAADAAAAAAAAAAAAAAAAAAAAAH4U7Q2LRLYZGKVkewVnpJ6WngRUyw8U3ypiscp4ftyw"
[[rule]]
cosigners = ["2"]
== BadValue(Count): none of none
[log]
id = "32473.1"
[[rule]]
cosigners = []
count = 0
== BadValue(Count)
[log]
id = "32473.1"
[[cosigner]]
id = "2"
key = "AAAAAQAAAAUAAAADAAAAAAAAAAAAAAAAAAAAAH4U7Q2LRLYZGKVkewVnpJ6WngRUyw8U3ypiscp4ftyw"
[[rule]]
cosigners = ["2"]
count = 0
== BadValue(Count)
[log]
id = "32473.1"
[[cosigner]]
id = "2"
key = "AAAAAQAAAAUAAAADAAAAAAAAAAAAAAAAAAAAAH4U7Q2LRLYZGKVkewVnpJ6WngRUyw8U3ypiscp4ftyw"
[[rule]]
cosigners = ["2"]
count = 2
== BadValue(Count): rules come before equal ids
[log]
id = "32473.1"
[[cosigner]]
id = "2"
key = "AAAAAQAAAAUAAAADAAAAAAAAAAAAAAAAAAAAAH4U7Q2LRLYZGKVkewVnpJ6WngRUyw8U3ypiscp4ftyw"
[[cosigner]]
id = "2"
key = "AAAAAQAAAAUAAAADAAAAAAAAAAAAAAAAAAAAAH4U7Q2LRLYZGKVkewVnpJ6WngRUyw8U3ypiscp4ftyw"
[[rule]]
cosigners = ["2"]
count = 2
== RepeatedId: ids come before intervals
[log]
id = "32473.1"
[[cosigner]]
id = "2"
key = "AAAAAQAAAAUAAAADAAAAAAAAAAAAAAAAAAAAAH4U7Q2LRLYZGKVkewVnpJ6WngRUyw8U3ypiscp4ftyw"
[[cosigner]]
id = "2"
key = "AAAAAQAAAAUAAAADAAAAAAAAAAAAAAAAAAAAAH4U7Q2LRLYZGKVkewVnpJ6WngRUyw8U3ypiscp4ftyw"
[[subtree]]
start = 1
end = 3
hash = "0000000000000000000000000000000000000000000000000000000000000000"
"#;

// Whether the store of this block is refused as its first line says.
fn is_refused(alloc: Global, block: &str) -> Result<bool, Fail> {
    let (why, text) = headed(block);
    match refusal(alloc, text) {
        Some(found) => Ok(format!(in alloc; "{found:?}")?.as_str() == why),
        None => Ok(false),
    }
}

#[test]
fn the_first_fault_is_reported(rt: HostRuntime) -> Result<(), Fail> {
    let mut count = 0u64;
    for block in REFUSED.split("== ").skip(1) {
        assert!(rt; is_refused(rt.alloc(), block)?, "{block}");
        count = count.saturating_add(1);
    }
    assert!(rt; count == 46);
    Ok(())
}

// The log and the name of a store are those of 32473.1.
fn is_named(store: &Store) -> bool {
    store.log.as_bytes() == [0x81, 0xFD, 0x59, 0x01].as_slice()
        && store.name.len() == 27
        && store.name.as_slice().get(20..) == Some(b"32473.1".as_slice())
}

// The lists of a store are these.
fn is_of(store: &Store, subtrees: &[Trusted], revoked: &[Span]) -> bool {
    store.subtrees.as_slice() == subtrees && store.revoked.as_slice() == revoked
}

// The log and the name of the store of these pieces are those of 32473.1, and its lists are these.
fn has_lists(
    alloc: Global,
    pieces: &[&str],
    subtrees: &[Trusted],
    revoked: &[Span],
) -> Result<bool, Fail> {
    let text = joined(alloc, pieces)?;
    let store = read(alloc, text.as_str())?;
    Ok(is_named(&store) && is_of(&store, subtrees, revoked))
}

#[test]
fn a_store_keeps_its_lists_in_their_order(rt: HostRuntime) -> Result<(), Fail> {
    let pieces = [
        LOG,
        "[[subtree]]\nstart = 0\nend = 2\n",
        HASH,
        "[[subtree]]\nstart = 0x2\nend = 4\n",
        HASH,
        "[[revoked]]\nstart = 1\nend = 2\n[[revoked]]\nstart = 1\nend = 9\n",
    ];
    let subtrees = [
        Trusted {
            start: 0,
            end: 2,
            hash: DIGEST,
        },
        Trusted {
            start: 2,
            end: 4,
            hash: DIGEST,
        },
    ];
    let revoked = [Span { start: 1, end: 2 }, Span { start: 1, end: 9 }];
    assert!(rt; has_lists(rt.alloc(), &pieces, &subtrees, &revoked)?);
    Ok(())
}

// How many items the lists of a store have: cosigners, rules, subtrees and ranges.
fn lengths(store: Store) -> [usize; 4] {
    [
        store.cosigners.into_vec().len(),
        store.rules.into_vec().len(),
        store.subtrees.into_vec().len(),
        store.revoked.into_vec().len(),
    ]
}

// The store of a text has a log of this id, and no items.
fn has_log_alone(alloc: Global, text: &str, id: &[u8]) -> Result<bool, Fail> {
    let store = read(alloc, text)?;
    Ok(store.log.as_bytes() == id && lengths(store) == [0; 4])
}

#[test]
fn a_store_may_have_no_lists(rt: HostRuntime) -> Result<(), Fail> {
    let text = "log = {id = \"1\"}\nrule = []\nsubtree = []\n";
    assert!(rt; has_log_alone(rt.alloc(), text, &[1])?);
    Ok(())
}

// The public key of the secret of zeros, of height 5 and width 4, in base64.
const KEY: &str =
    "AAAAAQAAAAUAAAADAAAAAAAAAAAAAAAAAAAAAH4U7Q2LRLYZGKVkewVnpJ6WngRUyw8U3ypiscp4ftyw";

// How many cosigners the store of a text has.
fn count_of(alloc: Global, text: &str) -> Result<usize, StoreError> {
    Ok(read(alloc, text)?.cosigners.as_slice().len())
}

// How many cosigners the store of this text has, or why it is none.
fn reported(alloc: Global, text: &str) -> Result<String, Fail> {
    match count_of(alloc, text) {
        Ok(count) => Ok(format!(in alloc; "{count}")?),
        Err(found) => Ok(format!(in alloc; "{found:?}")?),
    }
}

// A store of so many cosigners, and then this text.
fn crowd(alloc: Global, count: u64, text: &str) -> Result<String, Fail> {
    let mut file = joined(alloc, &[LOG])?;
    for number in 0..count {
        let item = format!(in alloc; "[[cosigner]]\nid = \"32473.{number}\"\nkey = \"{KEY}\"\n")?;
        file.push_str(item.as_str())?;
    }
    file.push_str(text)?;
    Ok(file)
}

// A number of cosigners, what follows them, and what is reported of the store.
const CROWDS: [(u64, &str, &str); 4] = [
    (64, "", "64"),
    (65, "", "BadValue(CosignerId)"),
    (64, "[[cosigner]]\nkey = 1\n", "Missing(CosignerId)"),
    (64, "[[cosigner]]\nid = 1\nname = 1\n", "UnknownKey"),
];

#[test]
fn a_store_has_64_cosigners_at_most(rt: HostRuntime) -> Result<(), Fail> {
    for (count, text, wanted) in CROWDS {
        let file = crowd(rt.alloc(), count, text)?;
        assert!(rt;
            reported(rt.alloc(), file.as_str())?.as_str() == wanted,
            "{count} {text}"
        );
    }
    Ok(())
}

// A cosigner by its id and the last byte of its key.
fn cosigner_reported(alloc: Global, known: &Known) -> Result<String, Fail> {
    let (id, last) = (known.id.as_bytes(), known.key[59]);
    Ok(format!(in alloc; "{id:?} {last}, ")?)
}

// A rule by its count and indices.
fn rule_reported(alloc: Global, rule: &Rule) -> Result<String, Fail> {
    let (count, indices) = (rule.count, rule.cosigners.as_slice());
    Ok(format!(in alloc; "{count} of {indices:?}, ")?)
}

// The cosigners, and then the rules.
fn policy_reported(alloc: Global, store: &Store) -> Result<String, Fail> {
    let mut text = String::new(alloc);
    for known in store.cosigners.as_slice() {
        text.push_str(cosigner_reported(alloc, known)?.as_str())?;
    }
    for rule in store.rules.as_slice() {
        text.push_str(rule_reported(alloc, rule)?.as_str())?;
    }
    Ok(text)
}

const POLICY: &str = r#"[log]
id = "32473.1"
[[cosigner]]
id = "1"
key = "AAAAAQAAAAUAAAADAAAAAAAAAAAAAAAAAAAAAH4U7Q2LRLYZGKVkewVnpJ6WngRUyw8U3ypiscp4ftyw"
[[cosigner]]
id = "2"
key = "AAAAAQAAAAUAAAADAQEBAQEBAQEBAQEBAQEBAWa/b1gW7uS78zxQrLSA4JtBaeu1MzcpWbxDFcOI5QGs"
[[rule]]
cosigners = ["2", "1"]
count = 2
[[rule]]
cosigners = ["1"]
count = 1
"#;

#[test]
fn a_store_keeps_its_cosigners_and_rules(rt: HostRuntime) -> Result<(), Fail> {
    let found = policy_reported(rt.alloc(), &read(rt.alloc(), POLICY)?)?;
    assert!(rt;
        found.as_str() == "[1] 176, [2] 172, 2 of [1, 0], 1 of [0], ",
        "{found}"
    );
    Ok(())
}
