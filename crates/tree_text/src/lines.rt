//! The lines of a text, one after another.
ghost use Rattle.std.specs.Prelude.{◌≡◌, ◌≢◌, ◌+◌, ◌≤◌, ◌<◌, ◌↔◌, ◌==◌, IsTrue, [], ◌∷◌, length, drop, IfSome, IfNone};
ghost use Rattle.std.specs.List.{slice_split, position};
ghost use Rattle.std.specs.Str.Lines.{lines, strip_carriage_return};
ghost use Rattle.tree_text.specs.promise.Answers.{most_lines};

/// The most lines of a text.
const MOST_LINES: u64 = 1 << 20;

/// What precedes the first of a byte in a text, and what follows it.
pub(crate) fn cut(text: &[u8], byte: u8) -> Option<(&[u8], &[u8])>
    ensures parts { IfSome result (λ r. slice_split (λ b. b == byte) text.now ≡ r.0.now ∷ slice_split (λ b. b == byte) r.1.now) }
    ensures behind { IfSome result (λ r. r.1.now ≡ drop (length r.0.now + 1) text.now) }
    ensures inside { IfSome result (λ r. length r.0.now < length text.now) }
    ensures none { IfNone result (slice_split (λ b. b == byte) text.now ≡ text.now ∷ []) }
{
    match place_of(text, byte) {
        Some(at) => Some((&text[..at], &text[at + 1..])),
        None => None,
    }
}

/// The place of the first of a byte in a text.
fn place_of(text: &[u8], byte: u8) -> Option<usize>
    ensures { result ≡ position (λ b. b == byte) text.now }
{
    text.iter().position(|b| *b == byte)
}

/// A line without the carriage return that may be at its end.
fn without_return(line: &[u8]) -> &[u8]
    ensures { result.now ≡ strip_carriage_return line.now }
{
    match line {
        [front @ .., b'\r'] => front,
        _ => line,
    }
}

/// The line that begins at a place of a text, and the place where the next one begins.
pub(crate) fn next_line(bytes: &[u8], at: usize) -> Option<(&[u8], usize)>
    requires { at ≤ length bytes.now }
    ensures taken { IfSome result (λ r. lines (drop at bytes.now) ≡ r.0.now ∷ lines (drop r.1 bytes.now)) }
    ensures within { IfSome result (λ r. r.1 ≤ length bytes.now) }
    ensures none { IfNone result (lines (drop at bytes.now) ≡ []) }
{
    if at == bytes.len() {
        return None;
    }
    let (_, rest) = bytes.split_at(at);
    match cut(rest, b'\n') {
        None => Some((rest, bytes.len())),
        Some((line, _)) => Some((without_return(line), at + line.len() + 1)),
    }
}

/// Whether a text has at most 1,048,576 lines.
pub(crate) fn has_few_lines(bytes: &[u8]) -> bool
    ensures { IsTrue result ↔ (length (lines bytes.now) ≤ most_lines) }
{
    let mut at = 0;
    for _ in 0..MOST_LINES {
        match next_line(bytes, at) {
            None => return true,
            Some((_, next)) => at = next,
        }
    }
    next_line(bytes, at).is_none()
}
