//! The lines of a text.
ghost use Rattle.std.specs.Prelude.{◌≡◌, ◌≢◌, ◌<◌, ◌∷◌, ◌++◌, [], ℕ, length, slice_index, IfNone, IfSome, MatchOption};
ghost use Rattle.keys_lines.specs.Lines.{lines_of};

/// The text before the first byte `at` and the text after it; `None` if there is no such byte.
pub fn cut(text: &[u8], at: u8) -> Option<(&[u8], &[u8])>
    ensures none { IfNone result ((k : ℕ) → k < length text.now → slice_index text.now k ≢ at) }
    ensures before { IfSome result (λ x. (k : ℕ) → k < length x.0.now → slice_index x.0.now k ≢ at) }
    ensures parts { IfSome result (λ x. text.now ≡ x.0.now ++ at ∷ x.1.now) }
{
    for (i, byte) in text.iter().enumerate() {
        if *byte == at {
            return Some((&text[..i], &text[i + 1..]));
        }
    }
    None
}

/// The first line and the text after it; `None` if the text is empty.
pub fn next_line(text: &[u8]) -> Option<(&[u8], &[u8])>
    ensures { MatchOption result (lines_of text.now ≡ []) (λ x. lines_of text.now ≡ x.0.now ∷ lines_of x.1.now) }
{
    if text.is_empty() {
        return None;
    }
    let Some((line, rest)) = cut(text, b'\n') else {
        return Some((text, &[]));
    };
    Some((line, rest))
}

/// The number of lines of a text.
pub fn line_count(text: &[u8]) -> u64
    ensures { result ≡ length (lines_of text.now) }
{
    let mut count = 0u64;
    let mut rest = text;
    while let Some((_, after)) = next_line(rest) {
        count += 1;
        rest = after;
    }
    count
}
