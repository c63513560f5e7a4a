//! The five heights of trees.

ghost use Rattle.std.specs.Prelude.{◌≡◌, ◌^◌, ◌↔◌, IsTrue};
ghost use Rattle.lms_core.specs.Heights.{IsSigningHeight, height, lms_code, lms_signature_length};
ghost use Rattle.lms_core.specs.Heights.{lms_type_of_code};

use lmots_core::OtsType;

/// The height of a tree (RFC 8554, section 5.1): a tree of height `h` has `2^h` one-time keys.
#[derive(Clone, Copy, Debug, PartialEq, Eq)]
pub enum LmsType {
    /// 32 one-time keys.
    H5,
    /// 1,024 one-time keys.
    H10,
    /// 32,768 one-time keys; such a tree and the higher ones are only verified.
    H15,
    /// 1,048,576 one-time keys.
    H20,
    /// 33,554,432 one-time keys.
    H25,
}

impl LmsType {
    /// The levels above the leaves.
    pub fn height(self) -> u32
        ensures { result ≡ height self }
    {
        match self {
            LmsType::H5 => 5,
            LmsType::H10 => 10,
            LmsType::H15 => 15,
            LmsType::H20 => 20,
            LmsType::H25 => 25,
        }
    }

    /// The number of one-time keys, which is also the number of the first leaf.
    pub fn leaves(self) -> u32
        ensures { result ≡ 2 ^ height self }
    {
        match self {
            LmsType::H5 => 32,
            LmsType::H10 => 1_024,
            LmsType::H15 => 32_768,
            LmsType::H20 => 1_048_576,
            LmsType::H25 => 33_554_432,
        }
    }

    /// Whether trees of this height are made and sign: those of height 5 and 10 are.
    pub fn is_signing_height(self) -> bool
        ensures { IsTrue result ↔ IsSigningHeight self }
    {
        self.height() <= 10
    }

    /// The number that names the height in keys and signatures.
    pub fn typecode(self) -> u32
        ensures { result ≡ lms_code self }
    {
        match self {
            LmsType::H5 => 5,
            LmsType::H10 => 6,
            LmsType::H15 => 7,
            LmsType::H20 => 8,
            LmsType::H25 => 9,
        }
    }

    /// The height that a typecode names.
    pub fn from_typecode(code: u32) -> Option<LmsType>
        ensures { result ≡ lms_type_of_code code }
    {
        match code {
            5 => Some(LmsType::H5),
            6 => Some(LmsType::H10),
            7 => Some(LmsType::H15),
            8 => Some(LmsType::H20),
            9 => Some(LmsType::H25),
            _ => None,
        }
    }

    /// The bytes of a signature by a one-time key of this width.
    pub fn signature_len(self, ots: OtsType) -> usize
        ensures { result ≡ lms_signature_length self ots }
    {
        8 + ots.signature_len() + 32 * self.height() as usize
    }
}
