//! Cutting a text at a byte, and into lines.

ghost use Rattle.std.specs.Prelude.{◌≡◌, ◌==◌, ◌<◌, length, IfSome, option_map};
ghost use Rattle.std.specs.List.{position};
ghost use Rattle.tls_wire.specs.Lines.{cut_at, first_line};

// The offset of the first such byte.
fn offset_of(text: &[u8], mark: u8) -> Option<usize>
    ensures place { result ≡ position (λ byte. byte == mark) text.now }
    ensures within { IfSome result (λ place. place < length text.now) }
{
    text.iter().position(|byte| *byte == mark)
}

/// What stands before the first such byte, and what stands after it; `None` where there is none.
pub fn cut_at(text: &[u8], mark: u8) -> Option<(&[u8], &[u8])>
    ensures { option_map (λ cut. (cut.0.now, cut.1.now)) result ≡ cut_at mark text.now }
{
    match offset_of(text, mark) {
        Some(place) => Some((&text[..place], &text[place + 1..])),
        None => None,
    }
}

/// The first line without its newline, and what is after it; `None` where no newline stands.
pub fn first_line(text: &[u8]) -> Option<(&[u8], &[u8])>
    ensures { option_map (λ cut. (cut.0.now, cut.1.now)) result ≡ first_line text.now }
{
    cut_at(text, b'\n')
}
