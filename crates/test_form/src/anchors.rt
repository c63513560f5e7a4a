//! Anchor ids, as bytes and as text.

use std::alloc::Global;
use std::test::Fail;
use tls_wire::{AnchorBytesError, AnchorError, AnchorId};

// Why a text is refused, or `None` where it isn't, or where `is_text` says otherwise.
fn refused_text(alloc: Global, text: &str) -> Option<AnchorError> {
    let refused = AnchorId::from_text(alloc, text).err();
    refused.filter(|_| !AnchorId::is_text(text.as_bytes()))
}

#[test]
fn the_first_fault_of_a_text_is_answered(rt: HostRuntime) {
    let alloc = rt.alloc();
    assert!(rt; refused_text(alloc, "") == Some(AnchorError::Empty));
    assert!(rt; refused_text(alloc, "1.") == Some(AnchorError::NotDecimal(2)));
    assert!(rt; refused_text(alloc, ".1") == Some(AnchorError::NotDecimal(0)));
    assert!(rt; refused_text(alloc, "1..2") == Some(AnchorError::NotDecimal(2)));
    assert!(rt; refused_text(alloc, "1a") == Some(AnchorError::NotDecimal(1)));
}

#[test]
fn the_first_fault_of_a_number_is_answered(rt: HostRuntime) {
    let (text, other) = ("1.18446744073709551616", "18446744073709551616x");
    assert!(rt; refused_text(rt.alloc(), "00a") == Some(AnchorError::LeadingZero(0)));
    assert!(rt; refused_text(rt.alloc(), "32473.01") == Some(AnchorError::LeadingZero(6)));
    assert!(rt; refused_text(rt.alloc(), text) == Some(AnchorError::ArcTooLarge(2)));
    assert!(rt; refused_text(rt.alloc(), other) == Some(AnchorError::ArcTooLarge(0)));
}

// A number, so many others, and this after them.
fn long_text(alloc: Global, others: u32, following: &str) -> Result<String, Fail> {
    let mut text = String::from_str(alloc, "1")?;
    for _ in 0..others {
        text.push_str(".1")?;
    }
    text.push_str(following)?;
    Ok(text)
}

#[test]
fn a_text_is_too_long_only_where_it_has_no_other_fault(rt: HostRuntime) -> Result<(), Fail> {
    let long = long_text(rt.alloc(), 255, "")?;
    assert!(rt; refused_text(rt.alloc(), long.as_str()) == Some(AnchorError::TooLong));
    let wrong = long_text(rt.alloc(), 255, "x")?;
    assert!(rt; refused_text(rt.alloc(), wrong.as_str()) == Some(AnchorError::NotDecimal(511)));
    let longer = long_text(rt.alloc(), 2_678, "x")?;
    assert!(rt; refused_text(rt.alloc(), longer.as_str()) == Some(AnchorError::NotDecimal(5_357)));
    Ok(())
}

fn is_its_own_text(alloc: Global, text: &str) -> Result<bool, Fail> {
    let id = AnchorId::from_text(alloc, text)?;
    Ok(AnchorId::is_text(text.as_bytes()) && id.to_text()?.as_slice() == text.as_bytes())
}

#[test]
fn a_text_is_the_text_of_what_was_read(rt: HostRuntime) -> Result<(), Fail> {
    for text in ["32473.1", "0.0", "18446744073709551615.127.128"] {
        assert!(rt; is_its_own_text(rt.alloc(), text)?, "of {text}");
    }
    Ok(())
}

fn has_bytes(alloc: Global, text: &str, bytes: &[u8]) -> Result<bool, Fail> {
    Ok(AnchorId::from_text(alloc, text)?.as_bytes() == bytes)
}

#[test]
fn numbers_of_a_text_are_arcs(rt: HostRuntime) -> Result<(), Fail> {
    assert!(rt; has_bytes(rt.alloc(), "32473.1", &[0x81, 0xfd, 0x59, 1])?);
    Ok(())
}

fn refused_bytes(alloc: Global, bytes: &[u8]) -> Option<AnchorBytesError> {
    AnchorId::from_bytes(alloc, bytes).err()
}

// The bytes of an arc that is too large, or of its beginning.
fn large_arc(last: u8) -> [u8; 10] {
    [0x82, 0x80, 0x80, 0x80, 0x80, 0x80, 0x80, 0x80, 0x80, last]
}

#[test]
fn the_first_fault_of_bytes_is_answered(rt: HostRuntime) {
    let (large, padded) = (
        AnchorBytesError::ArcTooLarge(0),
        AnchorBytesError::Padding(0),
    );
    assert!(rt; refused_bytes(rt.alloc(), &[]) == Some(AnchorBytesError::Empty));
    assert!(rt; refused_bytes(rt.alloc(), &[0x80; 256]) == Some(AnchorBytesError::TooLong));
    assert!(rt; refused_bytes(rt.alloc(), &[0x80, 1]) == Some(padded));
    assert!(rt; refused_bytes(rt.alloc(), &[1, 0x80, 1]) == Some(AnchorBytesError::Padding(1)));
    assert!(rt; refused_bytes(rt.alloc(), &[0x81]) == Some(AnchorBytesError::Unfinished));
    assert!(rt; refused_bytes(rt.alloc(), &large_arc(0)) == Some(large));
    assert!(rt; refused_bytes(rt.alloc(), &large_arc(0x80)) == Some(large));
}

fn length_of_text(alloc: Global, bytes: &[u8]) -> Result<usize, Fail> {
    Ok(AnchorId::from_bytes(alloc, bytes)?.to_text()?.len())
}

#[test]
fn the_longest_anchor_id_is_read(rt: HostRuntime) -> Result<(), Fail> {
    assert!(rt; length_of_text(rt.alloc(), &[1; 255])? == 509);
    Ok(())
}

fn is_text_of(alloc: Global, bytes: &[u8], text: &str) -> Result<bool, Fail> {
    Ok(AnchorId::from_bytes(alloc, bytes)?.to_text()?.as_slice() == text.as_bytes())
}

#[test]
fn the_largest_arc_is_read(rt: HostRuntime) -> Result<(), Fail> {
    let bytes = [0x81, 0xFF, 0xFF, 0xFF, 0xFF, 0xFF, 0xFF, 0xFF, 0xFF, 0x7F];
    assert!(rt; is_text_of(rt.alloc(), &bytes, "18446744073709551615")?);
    Ok(())
}
