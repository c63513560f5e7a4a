//! How long a certificate may be. One of 8,193 extensions makes its reader clear 512 KiB of the
//! stack, which a thread of a TLS client may not have. Each has 7 bytes at least, so that a
//! certificate of the most bytes can't have so many.

ghost use Rattle.std.specs.Prelude.{◌≡◌, length, nat_lt};
ghost use Rattle.mtc_c.specs.Sizes.{most_cert_bytes};

const MOST_BYTES: usize = 57_344;

/// Whether a certificate has more bytes than are read.
pub(crate) fn is_too_long(cert: &[u8]) -> bool
    ensures { result ≡ nat_lt most_cert_bytes (length cert.now) }
{
    MOST_BYTES < cert.len()
}
