//! Stores that a program fills: which of them are valid, and what is wrong with the others.

use crate::judgements::anchor;
use hss_core::PUBLIC_KEY_LEN;
use policy_core::{
    Cosigners, Indices, Key, Known, Revoked, Rule, Rules, Store, StoreError, Subtrees, Trusted,
};
use std::alloc::Global;
use std::test::Fail;
use tree_core::Span;

// Cosigners by the last numbers of their ids, a rule as its count and its indices, subtrees, and a
// revoked range, a hyphen for none; and what is answered.
const CASES: &str = "\
2,3 1:0,1 0-2 5-6 valid
2,3 2:1,0 0-2,2-4 - valid
- - - - valid
2,2 1:0,1 - - RepeatedId
2,3,2 - - - RepeatedId
2,3 0:0,1 - - BadValue Cosigners
2,3 3:0,1 - - BadValue Cosigners
2,3 1:0,0 - - BadValue Cosigners
2,3 1:2 - - BadValue Cosigners
2,2 1:2 - - BadValue Cosigners
- 1:0 - - BadValue Cosigners
2,3 1:0 0-2,0-2 - RepeatedSubtree
2,2 1:0 0-2,0-2 - RepeatedId
2,3 1:0 1-3 - BadRange
2,3 1:0 2-2 - BadRange
2,3 1:0 - 5-5 BadRange
2,3 1:0 - 6-5 BadRange
";

// The words between commas, none of a hyphen.
fn words_of<'a>(alloc: Global, text: &'a str) -> Result<Vec<&'a str>, Fail> {
    let mut words = Vec::new(alloc);
    for word in text.split(',') {
        if word != "-" {
            words.push(word)?;
        }
    }
    Ok(words)
}

// A range as START-END.
fn span_of(word: &str) -> Result<Span, Fail> {
    let (start, end) = word.split_once('-').unwrap_or((word, ""));
    Ok(Span {
        start: start.parse::<u64>()?,
        end: end.parse::<u64>()?,
    })
}

fn known_of(alloc: Global, last: &str) -> Result<Known, Fail> {
    let id = format!(in alloc; "32473.{last}")?;
    Ok(Known {
        id: anchor(alloc, id.as_str())?,
        key: [0; PUBLIC_KEY_LEN],
    })
}

fn cosigners_of(alloc: Global, text: &str) -> Result<Cosigners, Fail> {
    let mut list = Vec::new(alloc);
    for word in &words_of(alloc, text)? {
        list.push(known_of(alloc, word)?)?;
    }
    if list.len() > 64 {
        return Err(Fail::from("too many cosigners"));
    }
    Ok(Cosigners::from_vec(list))
}

fn rule_of(alloc: Global, word: &str) -> Result<Rule, Fail> {
    let (count, places) = word.split_once(':').unwrap_or((word, ""));
    let mut indices = Vec::new(alloc);
    for place in &words_of(alloc, places)? {
        indices.push(place.parse::<u32>()?)?;
    }
    Ok(Rule {
        count: count.parse::<u32>()?,
        cosigners: Indices::from_vec(indices),
    })
}

fn rules_of(alloc: Global, word: &str) -> Result<Rules, Fail> {
    let mut list = Vec::new(alloc);
    if word != "-" {
        list.push(rule_of(alloc, word)?)?;
    }
    Ok(Rules::from_vec(list))
}

fn subtrees_of(alloc: Global, text: &str) -> Result<Subtrees, Fail> {
    let mut list = Vec::new(alloc);
    for word in &words_of(alloc, text)? {
        let span = span_of(word)?;
        list.push(Trusted {
            start: span.start,
            end: span.end,
            hash: [0; 32],
        })?;
    }
    Ok(Subtrees::from_vec(list))
}

fn revoked_of(alloc: Global, word: &str) -> Result<Revoked, Fail> {
    let mut list = Vec::new(alloc);
    if word != "-" {
        list.push(span_of(word)?)?;
    }
    Ok(Revoked::from_vec(list))
}

// The store that the first four words of a line say, for the log 32473.1.
fn store_of(alloc: Global, line: &str) -> Result<Store, Fail> {
    let mut words = line.split(' ');
    let mut store = Store::new(alloc, anchor(alloc, "32473.1")?)?;
    store.cosigners = cosigners_of(alloc, words.next().unwrap_or("-"))?;
    store.rules = rules_of(alloc, words.next().unwrap_or("-"))?;
    store.subtrees = subtrees_of(alloc, words.next().unwrap_or("-"))?;
    store.revoked = revoked_of(alloc, words.next().unwrap_or("-"))?;
    Ok(store)
}

// What is answered to a store, in words.
fn answer_to(alloc: Global, store: Store) -> Result<String, Fail> {
    match store.checked(alloc) {
        Ok(_) => Ok(String::from_str(alloc, "valid")?),
        Err(why) => Ok(format!(in alloc; "{why}")?),
    }
}

// Whether a line says what is answered to its store.
fn is_answered(alloc: Global, line: &str) -> Result<bool, Fail> {
    let found = answer_to(alloc, store_of(alloc, line)?)?;
    let wanted = line.splitn(5, ' ').nth(4).unwrap_or("");
    Ok(found.as_str() == wanted)
}

#[test]
fn a_filled_store_is_valid_or_has_a_fault(rt: HostRuntime) -> Result<(), Fail> {
    let mut count = 0u64;
    for line in CASES.lines() {
        assert!(rt; is_answered(rt.alloc(), line)?, "{line}");
        count = count.saturating_add(1);
    }
    assert!(rt; count == 17);
    Ok(())
}

// The name comes first: it is that of another log here, and one cosigner stands twice.
#[test]
fn a_name_of_another_log_is_no_valid_one(rt: HostRuntime) -> Result<(), Fail> {
    let mut store = store_of(rt.alloc(), "2,2 1:0,1 - -")?;
    store.log = anchor(rt.alloc(), "32473.9")?;
    assert!(rt; store.checked(rt.alloc()).err() == Some(StoreError::BadValue(Key::LogId)));
    Ok(())
}
