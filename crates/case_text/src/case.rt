//! A case as its lines tell it, with the parts of a row in its places, and the lines of its input.
use crate::spelling::{push_line, read_bytes};
use std::alloc::{AllocError, Global};

/// What follows `$`, and the `<` and `@` lines below it.
#[derive(Drop)]
pub struct Case {
    pub words: String,
    pub lines: Vec<String>,
    /// Whether it is run for its rows, and not by itself.
    pub has_rows: bool,
}

/// The places of a row's parts.
const PLACES: [&str; 9] = [
    "{1}", "{2}", "{3}", "{4}", "{5}", "{6}", "{7}", "{8}", "{9}",
];

/// A line with a row in the places `{}`, and its parts, with one blank between them, in the places `{1}` to `{9}`.
fn filled_line(alloc: Global, line: &str, row: &str) -> Result<String, AllocError> {
    let mut text = line.replace(alloc, "{}", row)?;
    for (place, part) in PLACES.into_iter().zip(row.split(' ')) {
        text = text.as_str().replace(alloc, place, part)?;
    }
    Ok(text)
}

impl Case {
    /// The case that a `$` line with these words begins.
    pub fn new(alloc: Global, words: &str) -> Result<Case, AllocError> {
        Ok(Case {
            words: String::from_str(alloc, words)?,
            lines: Vec::new(alloc),
            has_rows: false,
        })
    }

    /// Adds a `<` or `@` line.
    pub fn push(&mut self, alloc: Global, line: &str) -> Result<(), AllocError> {
        self.lines.push(String::from_str(alloc, line)?)?;
        Ok(())
    }

    /// The case with a row in its places.
    pub fn filled(&self, alloc: Global, row: &str) -> Result<Case, AllocError> {
        let mut lines = Vec::new(alloc);
        for line in &self.lines {
            lines.push(filled_line(alloc, line.as_str(), row)?)?;
        }
        Ok(Case {
            words: filled_line(alloc, self.words.as_str(), row)?,
            lines,
            has_rows: false,
        })
    }

    /// The bytes of each word; the words have one blank between them. None where a word spells none.
    pub fn words(&self, alloc: Global) -> Result<Option<Vec<Vec<u8>>>, AllocError> {
        let mut words = Vec::new(alloc);
        if self.words.is_empty() {
            return Ok(Some(words));
        }
        for word in self.words.as_str().split(' ') {
            match read_bytes(alloc, word)? {
                Some(word) => words.push(word)?,
                None => return Ok(None),
            }
        }
        Ok(Some(words))
    }

    /// The words as texts. None where one spells no text.
    pub fn texts(&self, alloc: Global) -> Result<Option<Vec<String>>, AllocError> {
        let mut texts = Vec::new(alloc);
        let Some(words) = self.words(alloc)? else {
            return Ok(None);
        };
        for word in words {
            match String::from_utf8(word) {
                Ok(text) => texts.push(text)?,
                Err(_) => return Ok(None),
            }
        }
        Ok(Some(texts))
    }
}

/// Adds this many lines of input, in each of which `{i}` is its number from 1, `{d}` the last digit of that, and `{odd}` whether it
/// is odd. Says whether they spell bytes.
fn push_made(
    bytes: &mut Vec<u8>,
    alloc: Global,
    count: u32,
    line: &str,
) -> Result<bool, AllocError> {
    for i in 0..count {
        let i = u64::from(i) + 1;
        let number = format!(in alloc; "{i}")?;
        let digit = format!(in alloc; "{}", i % 10)?;
        let odd = if i % 2 == 1 { "true" } else { "false" };
        let line = line.replace(alloc, "{i}", number.as_str())?;
        let line = line.as_str().replace(alloc, "{d}", digit.as_str())?;
        let line = line.as_str().replace(alloc, "{odd}", odd)?;
        if !push_line(bytes, line.as_str())? {
            return Ok(false);
        }
    }
    Ok(true)
}

/// Adds what a `< TEXT` line or a `<* COUNT TEXT` line spells to an input, and says whether it is one. A line of input has a line end
/// where its text doesn't end in a single `\`.
pub fn push_input(bytes: &mut Vec<u8>, alloc: Global, line: &str) -> Result<bool, AllocError> {
    match line.split_once(' ').unwrap_or((line, "")) {
        ("<", text) => push_line(bytes, text),
        ("<*", text) => {
            let (count, text) = text.split_once(' ').unwrap_or((text, ""));
            match count.parse::<u32>() {
                Ok(count) => push_made(bytes, alloc, count, text),
                Err(_) => Ok(false),
            }
        }
        _ => Ok(false),
    }
}
