//! Writing what others may know of a cosigner: all but the first record of its journal, which holds
//! the secret.

ghost use Rattle.std.specs.Prelude.{◌≡◌, ◌≤◌, ◌+◌, OnOk};
ghost use Rattle.std.specs.Io.KnownBytes.{Appends};
ghost use Rattle.mtc_io.specs.Counts.{HasCause};
ghost use Rattle.mtc_io.specs.Streams.{AppendsPrefix};
ghost use Rattle.hss_keys.specs.Keys.{public_of};
ghost use Rattle.cosigner_core.specs.Exports.{prefix_text};
ghost use Rattle.cosigner_core.specs.Records.{first_record_length};

use crate::contents::Contents;
use hss_core::PUBLIC_KEY_LEN;
use mtc_io::{Failed, Sink, write_pieces};

// The tag of the first record, the lengths of the ids, the typecodes of the tree and of the
// one-time keys, and the secret.
const FIRST_FIELDS: u64 = 59;

// The typecode of the lower trees.
const LOW_FIELD: u64 = 4;

/// The length of the first record, as the settings determine it. The call doesn't read the disk, so
/// whatever that gives, the secret in that record isn't copied.
pub(crate) fn first_size(contents: &Contents) -> u64
    ensures value { result ≡ first_record_length contents.now.id contents.now.log
        contents.now.key.key.low }
    ensures few { result ≤ 131072 }
{
    let ids = contents.id().as_bytes().len() + contents.log().as_bytes().len();
    let low = match contents.low() {
        None => 0,
        Some(_) => LOW_FIELD,
    };
    FIRST_FIELDS + ids as u64 + low
}

/// Writes the ids of a cosigner and of its log, and its public key, which is given.
pub(crate) fn write_prefix<O: Sink>(
    contents: &Contents,
    public: &[u8; PUBLIC_KEY_LEN],
    out: &mut O,
) -> Result<(), Failed>
    requires { public.now ≡ public_of contents.now.key.key }
    ensures ok { OnOk result (Appends (O.taken out.old) (O.taken out.new)
        (prefix_text contents.now.id contents.now.log (public_of contents.now.key.key))) }
    ensures prefix { AppendsPrefix (O.taken out.old) (O.taken out.new)
        (prefix_text contents.now.id contents.now.log (public_of contents.now.key.key)) }
    ensures cause { HasCause (O.faults out.old) (O.faults out.new) result }
{
    let id = contents.id().as_bytes();
    let log = contents.log().as_bytes();
    let id_size = (id.len() as u8).to_be_bytes();
    let log_size = (log.len() as u8).to_be_bytes();
    let public_size = (public.len() as u16).to_be_bytes();
    let pieces: [&[u8]; 6] = [&id_size, id, &log_size, log, &public_size, public];
    write_pieces(out, &pieces)
}
