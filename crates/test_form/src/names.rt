//! The name of log 32473.1, and names that are none of a log.

use cert_names::{log_name, log_of};
use std::alloc::Global;
use std::test::Fail;
use tls_wire::AnchorId;

const NAME: [u8; 27] = [
    0x30, 0x19, 0x31, 0x17, 0x30, 0x15, 0x06, 0x0A, 0x2B, 0x06, 0x01, 0x04, 0x01, 0x82, 0xDA, 0x4B,
    0x2F, 0x01, 0x0C, 0x07, 0x33, 0x32, 0x34, 0x37, 0x33, 0x2E, 0x31,
];

fn is_name_of(alloc: Global, text: &str, name: &[u8]) -> Result<bool, Fail> {
    let id = AnchorId::from_text(alloc, text)?;
    Ok(log_name(alloc, &id)?.as_slice() == name)
}

fn id_in(name: &[u8]) -> Option<&[u8]> {
    log_of(name)
}

#[test]
fn the_name_of_a_log_holds_its_id(rt: HostRuntime) -> Result<(), Fail> {
    assert!(rt; is_name_of(rt.alloc(), "32473.1", &NAME)?);
    assert!(rt; id_in(&NAME) == Some(b"32473.1".as_slice()));
    Ok(())
}

// The name with another byte at one offset.
fn changed(offset: usize, value: u8) -> [u8; 27] {
    let mut other = NAME;
    if let Some(byte) = other.get_mut(offset) {
        *byte = value;
    }
    other
}

// Another attribute, another kind of text, a leading zero, and a letter.
#[test]
fn a_changed_name_is_none_of_a_log(rt: HostRuntime) {
    for (offset, value) in [(17, 0x00), (18, 0x13), (20, 0x30), (26, 0x61)] {
        assert!(rt; id_in(&changed(offset, value)) == None, "at {offset}");
    }
}

#[test]
fn a_name_that_is_cut_is_none_of_a_log(rt: HostRuntime) {
    assert!(rt; id_in(&NAME[..26]) == None);
    assert!(rt; id_in(&[0x30, 0x00]) == None);
    assert!(rt; id_in(b"") == None);
}
