//! Appending forms to the bytes that are there. If memory is refused, these bytes stay as they
//! were.

ghost use Rattle.std.specs.Prelude.{◌≡◌, ◌++◌, ◌*◌, ◌^◌, ◌<◌, length, OnOk, OnErr};
ghost use Rattle.std.specs.Int.{w8, w16, w32, w64};
ghost use Rattle.tls_wire.specs.Encoding.{number, vector, hashes};

use mtc_io::{Bytes, Memory};

/// Appends a number of one byte to the bytes.
pub fn put_u8(out: &mut Bytes, value: u8) -> Result<(), Memory>
    ensures ok { OnOk result (out.new ≡ out.old ++ number w8 value) }
    ensures err { OnErr result (out.new ≡ out.old) }
{
    out.append(&value.to_be_bytes())
}

/// Appends a number of two bytes to the bytes, the highest byte first.
pub fn put_u16(out: &mut Bytes, value: u16) -> Result<(), Memory>
    ensures ok { OnOk result (out.new ≡ out.old ++ number w16 value) }
    ensures err { OnErr result (out.new ≡ out.old) }
{
    out.append(&value.to_be_bytes())
}

/// Appends a number of four bytes to the bytes, the highest byte first.
pub fn put_u32(out: &mut Bytes, value: u32) -> Result<(), Memory>
    ensures ok { OnOk result (out.new ≡ out.old ++ number w32 value) }
    ensures err { OnErr result (out.new ≡ out.old) }
{
    out.append(&value.to_be_bytes())
}

/// Appends a number of eight bytes to the bytes, the highest byte first.
pub fn put_u64(out: &mut Bytes, value: u64) -> Result<(), Memory>
    ensures ok { OnOk result (out.new ≡ out.old ++ number w64 value) }
    ensures err { OnErr result (out.new ≡ out.old) }
{
    out.append(&value.to_be_bytes())
}

/// Appends these bytes, without a length.
pub fn put_bytes(out: &mut Bytes, value: &[u8]) -> Result<(), Memory>
    ensures ok { OnOk result (out.new ≡ out.old ++ value.now) }
    ensures err { OnErr result (out.new ≡ out.old) }
{
    out.append(value)
}

/// Appends a length of one byte and these bytes.
pub fn put_vec8(out: &mut Bytes, value: &[u8]) -> Result<(), Memory>
    requires { length value.now < 2 ^ 8 }
    ensures ok { OnOk result (out.new ≡ out.old ++ vector w8 value.now) }
    ensures err { OnErr result (out.new ≡ out.old) }
{
    out.append_both(&(value.len() as u8).to_be_bytes(), value)
}

/// Appends a length of two bytes and these bytes.
pub fn put_vec16(out: &mut Bytes, value: &[u8]) -> Result<(), Memory>
    requires { length value.now < 2 ^ 16 }
    ensures ok { OnOk result (out.new ≡ out.old ++ vector w16 value.now) }
    ensures err { OnErr result (out.new ≡ out.old) }
{
    out.append_both(&(value.len() as u16).to_be_bytes(), value)
}

/// Appends the length of these hashes in bytes, in two bytes, and then the hashes, one after the
/// other.
pub fn put_hashes(out: &mut Bytes, items: &[[u8; 32]]) -> Result<(), Memory>
    requires { length items.now * 32 < 2 ^ 16 }
    ensures ok { OnOk result (out.new ≡ out.old ++ hashes items.now) }
    ensures err { OnErr result (out.new ≡ out.old) }
{
    put_vec16(out, items.as_flattened())
}
