//! What is written is read again, and what is read is what would be written.

ghost use Rattle.std.specs.Prelude.{◌≡◌, ℕ, ◌↔◌, ◌⊎◌, ℤ, length, Some};
ghost use Rattle.byte_formats.specs.Types.{Text};
ghost use Rattle.cert_time.specs.Calendar.{IsUnixTime};
ghost use Rattle.cert_time.specs.Texts.{text_unix_time, unix_time_text};
ghost use Rattle.cert_time.specs.Times.{time_contents, unix_time_in, time_tag};

/// Law: each time has one text, and each text that is read is the text of its time.
pub fn law_one_text()
    ensures { (text : Text) (z : ℤ)
        → (text_unix_time text ≡ Some z) ↔ (IsUnixTime z × (text ≡ unix_time_text z)) }
{}

/// Law: each time has one encoding in a certificate, and each encoding that is read is that of its
/// time. It is a UTCTime of 13 bytes or a GeneralizedTime of 15.
pub fn law_one_time()
    ensures both_ways { (tag : ℕ) (contents : Text) (z : ℤ)
        → (unix_time_in tag contents ≡ Some z)
        ↔ (IsUnixTime z × (tag ≡ time_tag z) × (contents ≡ time_contents z)) }
    ensures shape { (z : ℤ)
        → ((time_tag z ≡ 0x17) × (length (time_contents z) ≡ 13))
        ⊎ ((time_tag z ≡ 0x18) × (length (time_contents z) ≡ 15)) }
{}
