//! Words for readers and writers of bytes: positions in an input, readings from a position to a
//! value or a fault, and forms, which say that a reading reads exactly the encodings of its values.
//! The crate is made of definitions (`specs/`) and of laws about them (`proofs/`); it has no state
//! and runs nothing.
#![tactic(auto)]

ghost use Rattle.std.specs.Prelude.{◌≡◌, ℕ, ◌^◌, ◌<◌, List, length};
ghost use Rattle.byte_formats.specs.Numbers.{value, digits, AreDigits};

/// A law: so many digits encode each number that fits them, and no two lists of so many digits
/// encode one number.
pub fn law_numbers_have_one_encoding()
    ensures again { (base k n : ℕ) → 0 < base → n < base ^ k → value base (digits base k n) ≡ n }
    ensures one { (base : ℕ) (ds : List ℕ) → AreDigits base ds
        → digits base (length ds) (value base ds) ≡ ds }
{}
