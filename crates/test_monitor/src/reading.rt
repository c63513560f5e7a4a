//! The texts of a monitor that are read.

use monitor_core::{State, TextError, read_state, read_watch, write_state};
use mtc_io::{Bytes, Memory};
use std::alloc::Global;
use std::test::Fail;
use tls_wire::AnchorId;

// The number of the line that isn't in its form.
fn bad_state(alloc: Global, text: &str) -> Result<Option<usize>, Memory> {
    match read_state(alloc, text.as_bytes()) {
        Ok(_) => Ok(None),
        Err(TextError::BadLine(n)) => Ok(Some(n)),
        Err(TextError::Memory) => Err(Memory),
    }
}

fn bad_watch(alloc: Global, text: &[u8]) -> Result<Option<usize>, Memory> {
    match read_watch(alloc, text) {
        Ok(_) => Ok(None),
        Err(TextError::BadLine(n)) => Ok(Some(n)),
        Err(TextError::Memory) => Err(Memory),
    }
}

#[test]
fn a_state_is_the_last_line_of_its_text(rt: HostRuntime) -> Result<(), Fail> {
    let cases = [
        ("state 32473.1 0\n", None),
        (
            "unread 5\nmatch \nmatch-hex zz\nmatch state 1\nstate 32473.1 0\n",
            None,
        ),
        ("", Some(0)),
        ("state 32473.1 0", Some(0)),
        ("state 32473.1 0\n\n", Some(1)),
        ("state 32473.1 0\nunread 5\n", Some(1)),
        ("unread 5\n", Some(1)),
        ("unread 5\nunread 6", Some(1)),
        ("match\nstate 32473.1 0\n", Some(0)),
        ("matches 5\nstate 32473.1 0\n", Some(0)),
        ("unread 5\n\nstate 32473.1 0\n", Some(1)),
    ];
    for (text, wanted) in cases {
        assert!(rt; bad_state(rt.alloc(), text)? == wanted, "{text}");
    }
    Ok(())
}

#[test]
fn a_line_of_a_state_has_one_form(rt: HostRuntime) -> Result<(), Fail> {
    let cases = [
        "state\n",
        "state 32473.1\n",
        "state 32473.1 \n",
        "state 32473.1 0 \n",
        "state  32473.1 0\n",
        "state 032473.1 0\n",
        "state 32473.1. 0\n",
        "state 32473.1 00\n",
        "state 32473.1 -0\n",
        "state 32473.1 1\n",
        "state 32473.1 18446744073709551616\n",
        "State 32473.1 0\n",
        " state 32473.1 0\n",
        "state 32473.\u{e9} 0\n",
    ];
    for text in cases {
        assert!(rt; bad_state(rt.alloc(), text)? == Some(0), "{text}");
    }
    Ok(())
}

// The line of a state of so many entries with one peak.
fn with_peak(alloc: Global, size: &str, peak: &str) -> Result<Option<usize>, Memory> {
    let text = format!(in alloc; "state 32473.1 {size} {peak}\n")?;
    bad_state(alloc, &text)
}

#[test]
fn a_peak_has_64_lower_case_digits(rt: HostRuntime) -> Result<(), Fail> {
    let peak = "5dc9da79a70659a9ad559cb701ded9a2ab9d823aad2f4960cfe370eff4604328";
    let short = "dc9da79a70659a9ad559cb701ded9a2ab9d823aad2f4960cfe370eff4604328";
    let long = "5dc9da79a70659a9ad559cb701ded9a2ab9d823aad2f4960cfe370eff46043280";
    let upper = "5DC9DA79A70659A9AD559CB701DED9A2AB9D823AAD2F4960CFE370EFF4604328";
    let other = "gdc9da79a70659a9ad559cb701ded9a2ab9d823aad2f4960cfe370eff4604328";
    assert!(rt; with_peak(rt.alloc(), "8", peak)? == None);
    assert!(rt; with_peak(rt.alloc(), "4611686018427387904", peak)? == None);
    assert!(rt; with_peak(rt.alloc(), "9223372036854775808", peak)? == Some(0));
    assert!(rt; with_peak(rt.alloc(), "6", peak)? == Some(0));
    assert!(rt; with_peak(rt.alloc(), "0", peak)? == Some(0));
    assert!(rt; with_peak(rt.alloc(), "8", short)? == Some(0));
    assert!(rt; with_peak(rt.alloc(), "8", long)? == Some(0));
    assert!(rt; with_peak(rt.alloc(), "8", upper)? == Some(0));
    assert!(rt; with_peak(rt.alloc(), "8", other)? == Some(0));
    Ok(())
}

// The line of the state of a log without entries.
fn empty_line(alloc: Global, id: &str) -> Result<Option<Bytes>, Memory> {
    match AnchorId::from_text(alloc, id) {
        Ok(log) => Ok(Some(write_state(alloc, &State::empty(alloc, log))?)),
        Err(_) => Ok(None),
    }
}

fn is_line(line: Option<Bytes>, wanted: &[u8]) -> bool {
    match line {
        Some(line) => line.as_slice() == wanted,
        None => false,
    }
}

#[test]
fn a_log_without_entries_has_no_peaks(rt: HostRuntime) -> Result<(), Fail> {
    let line = empty_line(rt.alloc(), "32473.1")?;
    assert!(rt; is_line(line, b"state 32473.1 0\n"));
    Ok(())
}

#[test]
fn a_watch_file_has_a_host_name_in_each_line(rt: HostRuntime) -> Result<(), Fail> {
    let cases = [
        ("", None),
        ("a\nb.example\nA-1.b--c.9\n", None),
        ("a", Some(0)),
        ("a\nb", Some(1)),
        ("a\n\n", Some(1)),
        ("*\n", Some(0)),
        ("a\n*.example\n", Some(1)),
        ("a b\n", Some(0)),
        ("a.\n", Some(0)),
        ("-a\n", Some(0)),
    ];
    for (text, wanted) in cases {
        assert!(rt; bad_watch(rt.alloc(), text.as_bytes())? == wanted, "{text}");
    }
    Ok(())
}

// So many lines.
fn lines(alloc: Global, count: usize) -> Result<Bytes, Memory> {
    let mut text = Bytes::new(alloc);
    for _ in 0..count {
        text.append(b"a\n")?;
    }
    Ok(text)
}

#[test]
fn a_watch_file_has_at_most_1000_lines(rt: HostRuntime) -> Result<(), Fail> {
    let most = lines(rt.alloc(), 1000)?;
    let over = lines(rt.alloc(), 1001)?;
    assert!(rt; bad_watch(rt.alloc(), most.as_slice())? == None);
    assert!(rt; bad_watch(rt.alloc(), over.as_slice())? == Some(1000));
    Ok(())
}
