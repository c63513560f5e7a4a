//! Numbers and values at their offsets in byte strings.

ghost use Rattle.std.specs.Prelude.{◌≡◌, ◌+◌, ◌≤◌, ◌++◌, length, take, drop};
ghost use Rattle.lmots_core.specs.Strings.{value_at, u32_at};

/// The number of 4 bytes from offset `at` on, the highest byte first (RFC 8554, section 3.1.1).
#[tactic(auto, unfolding(crate::specs::Strings::u32_at))]
pub fn read_u32(bytes: &[u8], at: usize) -> u32
    requires { at + 4 ≤ length bytes.now }
    ensures { result ≡ u32_at bytes.now at }
{
    let mut word = [0; 4];
    word.copy_from_slice(&bytes[at..at + 4]);
    u32::from_be_bytes(word)
}

/// The 32 bytes from offset `at` on.
pub fn read_32(bytes: &[u8], at: usize) -> [u8; 32]
    requires { at + 32 ≤ length bytes.now }
    ensures { result ≡ value_at bytes.now at }
{
    let mut value = [0; 32];
    value.copy_from_slice(&bytes[at..at + 32]);
    value
}

/// Writes a piece at offset `at`. The bytes before it and after it stay.
pub fn put(out: &mut [u8], at: usize, piece: &[u8])
    requires { at + length piece.now ≤ length out.old }
    ensures prefix { take (at + length piece.now) out.new ≡ take at out.old ++ piece.now }
    ensures rest { drop (at + length piece.now) out.new ≡ drop (at + length piece.now) out.old }
{
    out[at..at + piece.len()].copy_from_slice(piece);
}
