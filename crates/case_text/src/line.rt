//! What a line of a transcript is.

/// A line of a transcript, without its line end.
#[derive(Clone, Copy, Debug, PartialEq)]
pub enum Line<'l> {
    /// `$ ..` begins a case: what follows the sign and a blank.
    Case(&'l str),
    /// `< ..` or `@ ..` belongs to the case: the whole line.
    Part(&'l str),
    /// `? ROW -> ANSWER`: the row, with which the case is run.
    Row(&'l str),
    /// `> ..`, `! ..`, `| ..` or `= ..`: an answer, which is written anew.
    Answer,
    /// `# ..` or an empty line: it ends a case, and is copied.
    Note,
    /// Any other line, which no transcript has.
    Other,
}

/// What follows a sign and one blank.
fn behind(text: &str) -> &str {
    match text.split_once(' ') {
        Some((_sign, rest)) => rest,
        None => "",
    }
}

/// Says what a line is, by its first byte. A row ends at the first ` -> `.
pub fn line_of(text: &str) -> Line<'_> {
    match text.as_bytes().first() {
        None | Some(b'#') => Line::Note,
        Some(b'$') => Line::Case(behind(text)),
        Some(b'<' | b'@') => Line::Part(text),
        Some(b'>' | b'!' | b'|' | b'=') => Line::Answer,
        Some(b'?') => {
            let text = behind(text);
            match text.split_once(" -> ") {
                Some((row, _answer)) => Line::Row(row),
                None => Line::Row(text),
            }
        }
        _ => Line::Other,
    }
}
