//! What the lines of a transcript are, and the bytes that they spell.
use crate::formats::hex_of;
use crate::transcript::Transcript;
use case_text::{Line, line_of, push_input, read_bytes, spelling_of};
use std::alloc::{AllocError, Global};
use std::io;

/// `spells TEXT`: the bytes that a text spells, as digits.
pub(crate) fn tell_spelled(alloc: Global, text: &str, told: &mut Transcript) -> io::Result<()> {
    match read_bytes(alloc, text)? {
        Some(bytes) => {
            let digits = hex_of(alloc, bytes.as_slice())?;
            Ok(told.answer(alloc, format!(in alloc; "={digits}")?.as_str())?)
        }
        None => Ok(told.fault(alloc, "spells nothing")?),
    }
}

/// `spelling BYTES`: the text that spells bytes, which is read as them again.
pub(crate) fn tell_spelling(alloc: Global, bytes: &[u8], told: &mut Transcript) -> io::Result<()> {
    let text = spelling_of(alloc, bytes)?;
    told.answer(alloc, text.as_str())?;
    match read_bytes(alloc, text.as_str())? {
        Some(read) if read.as_slice() == bytes => Ok(()),
        _ => Ok(told.fault(alloc, "spells other bytes")?),
    }
}

/// What a line of a transcript is.
fn kind_of(alloc: Global, line: Line<'_>) -> Result<String, AllocError> {
    match line {
        Line::Case(words) => format!(in alloc; "a case: \"{words}\""),
        Line::Part(_part) => String::from_str(alloc, "a part"),
        Line::Row(row) => format!(in alloc; "a row: \"{row}\""),
        Line::Answer => String::from_str(alloc, "an answer"),
        Line::Note => String::from_str(alloc, "a note"),
        Line::Other => String::from_str(alloc, "none of them"),
    }
}

/// `line TEXT`: what a line of a transcript is, and the input that it spells where it is a part of a case.
pub(crate) fn tell_line(alloc: Global, text: &str, told: &mut Transcript) -> io::Result<()> {
    told.answer(alloc, kind_of(alloc, line_of(text))?.as_str())?;
    let Line::Part(part) = line_of(text) else {
        return Ok(());
    };
    let mut input = Vec::new(alloc);
    if push_input(&mut input, alloc, part)? {
        Ok(told.text(alloc, input.as_slice())?)
    } else {
        Ok(told.fault(alloc, "no input")?)
    }
}

/// `given WORD..`, with any input: the words, and the input as digits and line by line.
pub(crate) fn tell_given(
    alloc: Global,
    words: &[Vec<u8>],
    input: &[u8],
    told: &mut Transcript,
) -> io::Result<()> {
    let mut line = String::from_str(alloc, "words:")?;
    for word in words {
        let text = spelling_of(alloc, word.as_slice())?;
        line.push_str(format!(in alloc; " \"{text}\"")?.as_str())?;
    }
    told.answer(alloc, line.as_str())?;
    let digits = hex_of(alloc, input)?;
    told.answer(alloc, format!(in alloc; "={digits}")?.as_str())?;
    Ok(told.text(alloc, input)?)
}
