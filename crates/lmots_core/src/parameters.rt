//! The four parameter sets.

ghost use Rattle.std.specs.Prelude.{◌≡◌, ◌/◌};
ghost use Rattle.lmots_core.specs.Parameters.{chains, shift, signature_length, steps, type_of_code};
ghost use Rattle.lmots_core.specs.Parameters.{typecode, width};

// Where the chains' values begin in a signature: after its typecode and its randomizer.
pub const LINKS: usize = 36;

/// The parameter set of a one-time key: the width of its digits in bits (RFC 8554, section 4.1).
#[derive(Clone, Copy, Debug, PartialEq, Eq)]
pub enum OtsType {
    /// One bit: the longest signatures and the fewest hashes.
    W1,
    /// Two bits.
    W2,
    /// Four bits.
    W4,
    /// Eight bits: the shortest signatures and the most hashes.
    W8,
}

impl OtsType {
    /// The number of chains, `p`.
    pub fn chains(self) -> u16
        ensures { result ≡ chains self }
    {
        match self {
            OtsType::W1 => 265,
            OtsType::W2 => 133,
            OtsType::W4 => 67,
            OtsType::W8 => 34,
        }
    }

    /// The steps of a chain, `2^w - 1`.
    pub fn steps(self) -> u8
        ensures { result ≡ steps self }
    {
        match self {
            OtsType::W1 => 1,
            OtsType::W2 => 3,
            OtsType::W4 => 15,
            OtsType::W8 => 255,
        }
    }

    /// The digits of a hash of 32 bytes.
    pub fn hash_digits(self) -> usize
        ensures { result ≡ 256 / width self }
    {
        match self {
            OtsType::W1 => 256,
            OtsType::W2 => 128,
            OtsType::W4 => 64,
            OtsType::W8 => 32,
        }
    }

    /// By how many bits a checksum is shifted to the left, `ls`.
    pub fn shift(self) -> u32
        ensures { result ≡ shift self }
    {
        match self {
            OtsType::W1 => 7,
            OtsType::W2 => 6,
            OtsType::W4 => 4,
            OtsType::W8 => 0,
        }
    }

    /// The number that names the set in keys and signatures.
    pub fn typecode(self) -> u32
        ensures { result ≡ typecode self }
    {
        match self {
            OtsType::W1 => 1,
            OtsType::W2 => 2,
            OtsType::W4 => 3,
            OtsType::W8 => 4,
        }
    }

    /// The set that a typecode names.
    pub fn from_typecode(code: u32) -> Option<OtsType>
        ensures { result ≡ type_of_code code }
    {
        match code {
            1 => Some(OtsType::W1),
            2 => Some(OtsType::W2),
            3 => Some(OtsType::W4),
            4 => Some(OtsType::W8),
            _ => None,
        }
    }

    /// The bytes of a signature: 8,516, 4,292, 2,180 or 1,124.
    pub fn signature_len(self) -> usize
        ensures { result ≡ signature_length self }
    {
        LINKS + 32 * self.chains() as usize
    }
}
