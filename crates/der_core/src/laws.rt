//! Laws of the encoding: the clauses are the laws, and the functions do nothing.

ghost use Rattle.std.specs.Prelude.{◌≡◌, ℕ, ◌+◌, ◌^◌, ◌<◌, [], ◌++◌, length, Some, Ok};
ghost use Rattle.std.specs.List.{flat_map};
ghost use Rattle.byte_formats.specs.Types.{Text};
ghost use Rattle.byte_formats.specs.Offsets.{At, IsBytes};
ghost use Rattle.byte_formats.specs.Forms.{IsForm, Nothing, FitsEach, itself};
ghost use Rattle.der_core.specs.Elements.{element, FitsElement};
ghost use Rattle.der_core.specs.Items.{Item};
ghost use Rattle.der_core.specs.Reading.{element_at, wanted_at};
ghost use Rattle.der_core.specs.Integers.{integer};
ghost use Rattle.der_core.specs.Contents.{unsigned_of, boolean_of, oid_of, bits_of};
ghost use Rattle.der_core.specs.Sets.{rising_at};
ghost use Rattle.der_core.specs.Forms.{IsRead, element_item, IsContents, boolean, FitsBoolean};
ghost use Rattle.der_core.specs.Forms.{IsOid, bit_string, IsBitString, IsRisen};

/// Each element is encoded as the bytes from which it was read, and each encoding of an element is
/// read as that element, whatever follows it.
pub fn law_elements_decode_as_encoded()
    ensures read { (a : At) (e : Item) (b : At) → IsBytes a.rest → element_at a ≡ Ok (e, b)
        → IsRead a e b }
    ensures again { (tag : ℕ) (contents : Text) (place : ℕ) (rest : Text)
        → FitsElement tag contents
        → element_at (record { place = place; rest = element tag contents ++ rest })
        ≡ Ok (
          element_item tag contents place,
          record { place = place + length (element tag contents); rest = rest },
        ) }
    ensures wanted { (tag : ℕ) (contents : Text) (place : ℕ) (rest : Text)
        → FitsElement tag contents
        → wanted_at tag (record { place = place; rest = element tag contents ++ rest })
        ≡ Ok (
          element_item tag contents place,
          record { place = place + length (element tag contents); rest = rest },
        ) }
{}

/// An element has one encoding, and no encoding of an element begins another one.
pub fn law_elements_have_one_encoding()
    ensures { (s t : ℕ) (c d a b : Text) → FitsElement s c → FitsElement t d
        → element s c ++ a ≡ element t d ++ b → (s ≡ t) × (c ≡ d) × (a ≡ b) }
{}

/// A number below 2 ^ 64 has one encoding, which is read as that number.
pub fn law_numbers_decode_as_encoded()
    ensures read { (place : ℕ) (contents : Text) (n : ℕ) → IsBytes contents
        → unsigned_of place contents ≡ Ok (Some n) → (contents ≡ integer n) × (n < 2 ^ 64) }
    ensures again { (place n : ℕ) → n < 2 ^ 64 → unsigned_of place (integer n) ≡ Ok (Some n) }
{}

/// Truth values, object identifiers and strings of bits are read exactly from their encodings.
pub fn law_contents_decode_as_encoded()
    ensures booleans { IsContents boolean FitsBoolean boolean_of }
    ensures identifiers { IsContents itself IsOid oid_of }
    ensures bit_strings { IsContents bit_string IsBitString bits_of }
{}

/// The contents that are in order are the encodings of elements, one after the other, each not
/// below the one before it.
pub fn law_sets_decode_as_encoded()
    ensures { (place : ℕ)
        → IsForm (flat_map itself) (FitsEach itself IsRisen []) Nothing (rising_at place) }
{}
