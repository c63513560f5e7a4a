//! Runs of a monitor, from a state in its text to what was found in its text.

use crate::known::{
    ENTRIES, ENTRY, EXCHANGED, LONGER, MANY, N0_4, N0_6, N0_8, N4_6, N6_8, OF_MANY, OF_TWO,
    OF_UNREAD,
};
use hex::FromHex;
use monitor_core::{MonitorError, monitor, read_state, read_watch, write_found};
use mtc_io::{Bytes, Memory};
use std::alloc::Global;
use std::test::Fail;
use tree_core::Sha;

// The id 32473.1.
const LOG: [u8; 4] = [0x81, 0xFD, 0x59, 0x01];

const EMPTY: &str = "state 32473.1 0\n";

// The state of the first six entries.
const SIX: &str = "state 32473.1 6 \
d37ee418976dd95753c1c73862b9398fa2a2cf9b4ff0fdfe8b30cd95209614b7 \
0ebc5d3437fbe2db158b9f126a1d118e308181031d0a949f8dededebc558ef6a\n";

// What a run is given.
#[derive(Clone, Copy)]
struct Run<'a> {
    state: &'a str,
    watch: &'a str,
    size: u64,
    root: &'a str,
    proof: &'a [&'a str],
    entries: &'a [&'a [u8]],
}

fn hash(digits: &str) -> [u8; 32] {
    match <[u8; 32] as FromHex>::from_hex(digits) {
        Ok(hash) => hash,
        Err(_) => [0; 32],
    }
}

fn hashes(alloc: Global, digits: &[&str]) -> Result<Vec<[u8; 32]>, Memory> {
    let mut hashes = Vec::new(alloc);
    for one in digits {
        hashes.push(hash(one))?;
    }
    Ok(hashes)
}

// The text of what a run finds, or why it is refused; no text where a text that is given doesn't
// read.
fn answer(alloc: Global, run: &Run) -> Result<Result<Bytes, MonitorError>, Memory> {
    let Ok(state) = read_state(alloc, run.state.as_bytes()) else {
        return Ok(Ok(Bytes::new(alloc)));
    };
    let Ok(watch) = read_watch(alloc, run.watch.as_bytes()) else {
        return Ok(Ok(Bytes::new(alloc)));
    };
    let proof = hashes(alloc, run.proof)?;
    let root = hash(run.root);
    let entries = run.entries;
    match monitor::<Sha, _>(
        alloc,
        &state,
        &watch,
        &LOG,
        run.size,
        &root,
        proof.as_slice(),
        &entries,
    ) {
        Ok(found) => Ok(Ok(write_found(alloc, &found)?)),
        Err(refusal) => Ok(Err(refusal)),
    }
}

fn finds(alloc: Global, run: &Run, text: &str) -> Result<bool, Memory> {
    match answer(alloc, run)? {
        Ok(found) => Ok(found.as_slice() == text.as_bytes()),
        Err(_) => Ok(false),
    }
}

fn is_refused(alloc: Global, run: &Run, refusal: MonitorError) -> Result<bool, Memory> {
    match answer(alloc, run)? {
        Ok(_) => Ok(false),
        Err(why) => Ok(why == refusal),
    }
}

// The null entry and one more, from the empty state.
const FIRST: Run = Run {
    state: EMPTY,
    watch: "example\n",
    size: 2,
    root: OF_TWO,
    proof: &[],
    entries: &[&[0, 0], &ENTRY],
};

#[test]
fn a_name_under_a_watched_domain_is_reported(rt: HostRuntime) -> Result<(), Fail> {
    let one = "match 1 a.example\nstate 32473.1 2 \
77566825cd25f263271e3fa5341db28ed2c87945ee98f731b2aa96b9e6b11cf6\n";
    let none = "state 32473.1 2 \
77566825cd25f263271e3fa5341db28ed2c87945ee98f731b2aa96b9e6b11cf6\n";
    let cases = [
        ("example\n", one),
        ("a.example\n", one),
        ("A.Example\n", one),
        ("x.org\nexample\nexample\n", one),
        ("", none),
        ("b.example\n", none),
        ("xample\n", none),
        ("a.example.a\n", none),
    ];
    for (watch, wanted) in cases {
        let run = Run { watch, ..FIRST };
        assert!(rt; finds(rt.alloc(), &run, wanted)?, "{watch}");
    }
    Ok(())
}

#[test]
fn each_name_is_reported_in_its_order(rt: HostRuntime) -> Result<(), Fail> {
    let run = Run {
        watch: "eXample\n",
        size: 1,
        root: OF_MANY,
        entries: &[&MANY],
        ..FIRST
    };
    let wanted = "match 0 a.example\n\
match 0 B.EXAMPLE\n\
match 0 example\n\
match 0 *.example\n\
match 0 .example\n\
match-hex 0 6120622e6578616d706c65\n\
state 32473.1 1 6d14c5d3eb19735e38254d9c2da727db6390d2e54f3848cadee2de408382b9a5\n";
    assert!(rt; finds(rt.alloc(), &run, wanted)?);
    Ok(())
}

#[test]
fn entries_that_do_not_read_are_reported(rt: HostRuntime) -> Result<(), Fail> {
    let run = Run {
        size: 3,
        root: OF_UNREAD,
        entries: &[&LONGER, &[0, 2], &[0, 0, 0]],
        ..FIRST
    };
    let wanted = "unread 0\nunread 1\nunread 2\nstate 32473.1 3 \
cf0dcb282fbf65df8bfb83caca5d80e609bc6ec86ab1521aca438706df1bc233 \
df3f619804a92fdb4057192dc43dd748ea778adc52bc498ce80524c014b81119\n";
    assert!(rt; finds(rt.alloc(), &run, wanted)?);
    Ok(())
}

// The first six of the known entries, from the empty state.
fn first_six() -> Run<'static> {
    Run {
        size: 6,
        root: N0_6,
        entries: ENTRIES.get(..6).unwrap_or(&[]),
        ..FIRST
    }
}

// The last two, from the state of the first six.
fn last_two() -> Run<'static> {
    Run {
        state: SIX,
        size: 8,
        root: N0_8,
        proof: &[N4_6, N6_8, N0_4],
        entries: ENTRIES.get(6..).unwrap_or(&[]),
        ..FIRST
    }
}

#[test]
fn a_run_continues_from_what_the_last_one_found(rt: HostRuntime) -> Result<(), Fail> {
    let six = "unread 0\nunread 1\nunread 2\nunread 3\nunread 4\nunread 5\nstate 32473.1 6 \
d37ee418976dd95753c1c73862b9398fa2a2cf9b4ff0fdfe8b30cd95209614b7 \
0ebc5d3437fbe2db158b9f126a1d118e308181031d0a949f8dededebc558ef6a\n";
    let two = "unread 6\nunread 7\nstate 32473.1 8 \
5dc9da79a70659a9ad559cb701ded9a2ab9d823aad2f4960cfe370eff4604328\n";
    assert!(rt; finds(rt.alloc(), &first_six(), six)?);
    assert!(rt; finds(rt.alloc(), &last_two(), two)?);
    assert!(rt;
        finds(
            rt.alloc(),
            &Run {
                state: six,
                ..last_two()
            },
            two
        )?
    );
    Ok(())
}

#[test]
fn a_run_is_refused_by_the_first_test_that_fails(rt: HostRuntime) -> Result<(), Fail> {
    let foreign = Run {
        state: "state 32473.2 0\n",
        size: 0,
        ..FIRST
    };
    let older = Run {
        size: 6,
        entries: &[],
        ..last_two()
    };
    let fewer = Run {
        entries: ENTRIES.get(6..7).unwrap_or(&[]),
        proof: &[],
        ..last_two()
    };
    let unshown = Run {
        proof: &[N4_6, N6_8],
        entries: &[b"a", b"b"],
        ..last_two()
    };
    let shown = Run {
        proof: &[N0_4],
        ..FIRST
    };
    let differs = MonitorError::RootDiffers {
        wanted: hash(N0_8),
        found: hash(EXCHANGED),
    };
    let exchanged = Run {
        entries: &[ENTRIES[7], ENTRIES[6]],
        ..last_two()
    };
    let count = MonitorError::ItemCount { have: 1, want: 2 };
    assert!(rt; is_refused(rt.alloc(), &foreign, MonitorError::WrongLog)?);
    assert!(rt; is_refused(rt.alloc(), &older, MonitorError::NotNewer(6))?);
    assert!(rt; is_refused(rt.alloc(), &fewer, count)?);
    assert!(rt; is_refused(rt.alloc(), &unshown, MonitorError::BadProof)?);
    assert!(rt; is_refused(rt.alloc(), &shown, MonitorError::BadProof)?);
    assert!(rt; is_refused(rt.alloc(), &exchanged, differs)?);
    Ok(())
}
