//! Laws of the forms: the clauses are the laws, and the functions do nothing.

ghost use Rattle.std.specs.Prelude.{◌≡◌, ◌<◌, ◌^◌, ◌∷◌, ◌++◌, ℕ, decimal, flat_map, Ok, Some};
ghost use Rattle.std.specs.List.{AllByRecursion};
ghost use Rattle.std.specs.Int.{w8, w16, w32, w64};
ghost use Rattle.byte_formats.specs.Types.{Text};
ghost use Rattle.byte_formats.specs.Offsets.{IsBytes};
ghost use Rattle.byte_formats.specs.Lists.{up_to_end};
ghost use Rattle.byte_formats.specs.Forms.{IsForm, Anything, Nothing, itself};
ghost use Rattle.tls_wire.specs.Reading.{bytes_at, number_at, vector_at, hashes_at};
ghost use Rattle.tls_wire.specs.Encoding.{number, vector, HasLength, IsShorter, hashes, AreHashes};
ghost use Rattle.tls_wire.specs.Arcs.{arc, IsArc, IsAnchorId};
ghost use Rattle.tls_wire.specs.Anchors.{arc_at, anchor_of, anchor_text, text_of};
ghost use Rattle.tls_wire.specs.Decimal.{number_of};
ghost use Rattle.tls_wire.specs.Lines.{cut_at, Lacks};

/// Each number is encoded as the bytes from which it was read, and each encoding of a number is
/// read as that number, whatever follows it.
pub fn law_numbers_decode_as_encoded()
    ensures one_byte { IsForm (number w8) (λ n. n < 2 ^ 8) Anything (number_at w8) }
    ensures two_bytes { IsForm (number w16) (λ n. n < 2 ^ 16) Anything (number_at w16) }
    ensures four_bytes { IsForm (number w32) (λ n. n < 2 ^ 32) Anything (number_at w32) }
    ensures eight_bytes { IsForm (number w64) (λ n. n < 2 ^ 64) Anything (number_at w64) }
{}

/// The same for so many bytes, and for vectors with a length of one or two bytes.
pub fn law_vectors_decode_as_encoded()
    ensures bytes { (count : ℕ) → IsForm itself (HasLength count) Anything (bytes_at count) }
    ensures short_vectors { IsForm (vector w8) (IsShorter (2 ^ 8)) Anything (vector_at w8) }
    ensures long_vectors { IsForm (vector w16) (IsShorter (2 ^ 16)) Anything (vector_at w16) }
{}

/// Hashes of 32 bytes each, in a vector with a length of two bytes, are decoded as they were
/// encoded.
pub fn law_hashes_decode_as_encoded()
    ensures { IsForm hashes AreHashes Anything hashes_at }
{}

/// The bytes of anchor ids are read exactly if they are arcs, one after the other, of 1 to 255
/// bytes.
pub fn law_anchor_ids_decode_as_encoded()
    ensures arcs { IsForm (flat_map arc) (AllByRecursion IsArc) Nothing (up_to_end arc_at) }
    ensures read { (bytes id : Text) → IsBytes bytes → anchor_of bytes ≡ Ok id
        → (id ≡ bytes) × IsAnchorId bytes }
    ensures again { (bytes : Text) → IsAnchorId bytes → anchor_of bytes ≡ Ok bytes }
{}

/// The text of each anchor id is read as that anchor id, and a text that is read is the text of
/// what was read.
pub fn law_anchor_texts_are_read_as_written()
    ensures again { (id : Text) → IsAnchorId id → anchor_text (text_of id) ≡ Ok id }
    ensures read { (text id : Text) → IsBytes text → anchor_text text ≡ Ok id
        → IsAnchorId id × (text_of id ≡ text) }
{}

/// A number below 2^63 in decimal is read as that number, and a text that is read is the number in
/// decimal.
pub fn law_numbers_in_decimal_are_read_as_written()
    ensures again { (n : ℕ) → n < 2 ^ 63 → number_of (decimal n) ≡ Some n }
    ensures read { (text : Text) (n : ℕ) → number_of text ≡ Some n
        → (decimal n ≡ text) × (n < 2 ^ 63) }
{}

/// What is cut at a byte is what stands before the first one and after it, and a text is cut there
/// again.
pub fn law_texts_are_cut_at_their_first_byte()
    ensures parts { (mark : ℕ) (text : Text) (cut : Text × Text) → cut_at mark text ≡ Some cut
        → (text ≡ cut.0 ++ (mark ∷ cut.1)) × Lacks mark cut.0 }
    ensures again { (mark : ℕ) (prefix rest : Text) → Lacks mark prefix
        → cut_at mark (prefix ++ (mark ∷ rest)) ≡ Some (prefix, rest) }
{}
