//! The line of a refusal with two hashes, which no command has as yet.

use crate::desk::sink;
use mtc_command::{Reason, Stopped, refuse_file};
use mtc_room::Cause;
use mtc_top::conclude;

const FIRST: &[u8; 32] = b"0123456789abcdefghijklmnopqrstuv";

const LINE: &[u8] = b"mtc: audit: f: RootDiffers \
    303132333435363738396162636465666768696a6b6c6d6e6f70717273747576 \
    fefefefefefefefefefefefefefefefefefefefefefefefefefefefefefefefe\n";

#[test]
fn two_hashes_are_printed_in_hexadecimal(rt: HostRuntime) {
    let alloc = rt.alloc();
    let reason = Reason::with_hashes("RootDiffers", *FIRST, [0xFE; 32]);
    let stop = refuse_file(Stopped::NotAllowed, "f", reason);
    let mut out = sink(alloc, 1_000, Vec::new(alloc));
    let mut err = sink(alloc, 7, Vec::new(alloc));
    let status = conclude("audit", Err(stop), Cause::Failed, &mut out, &mut err);
    assert!(rt; status == 4 && out.taken().is_empty());
    assert!(rt; err.taken() == LINE);
}
