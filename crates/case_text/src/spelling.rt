//! Bytes as text.
use std::alloc::{AllocError, Global};

/// The place in a text: outside an escape, behind a `\`, behind `\x`, and behind the first digit of that.
#[derive(Clone, Copy)]
enum Place {
    Plain,
    Escape,
    FirstDigit,
    SecondDigit(u8),
}

/// What a character does: the place behind it, and the byte that it ends.
type Step = (Place, Option<u8>);

/// The value of a hexadecimal digit of either case.
fn digit(byte: u8) -> Option<u8> {
    match byte {
        b'0'..=b'9' => Some(byte - b'0'),
        b'a'..=b'f' => Some(byte - b'a' + 10),
        b'A'..=b'F' => Some(byte - b'A' + 10),
        _ => None,
    }
}

/// What a byte does behind a `\`.
fn escaped(byte: u8) -> Option<Step> {
    match byte {
        b'n' => Some((Place::Plain, Some(b'\n'))),
        b'r' => Some((Place::Plain, Some(b'\r'))),
        b't' => Some((Place::Plain, Some(b'\t'))),
        b'\\' => Some((Place::Plain, Some(b'\\'))),
        b'e' => Some((Place::Plain, None)),
        b'x' => Some((Place::FirstDigit, None)),
        _ => None,
    }
}

/// What a byte does at a place. None where it isn't allowed there.
fn step(place: Place, byte: u8) -> Option<Step> {
    match place {
        Place::Plain if byte == b'\\' => Some((Place::Escape, None)),
        Place::Plain => match byte {
            b' '..=b'~' => Some((Place::Plain, Some(byte))),
            _ => None,
        },
        Place::Escape => escaped(byte),
        Place::FirstDigit => Some((Place::SecondDigit(digit(byte)?), None)),
        Place::SecondDigit(first) => {
            Some((Place::Plain, Some(first.wrapping_mul(16) | digit(byte)?)))
        }
    }
}

/// Adds the bytes that a text spells, and says where it ends. None where it spells none.
fn push_spelled(bytes: &mut Vec<u8>, text: &str) -> Result<Option<Place>, AllocError> {
    let mut place = Place::Plain;
    for byte in text.bytes() {
        let Some((next, found)) = step(place, byte) else {
            return Ok(None);
        };
        place = next;
        if let Some(byte) = found {
            bytes.push(byte)?;
        }
    }
    Ok(Some(place))
}

/// The bytes that a text spells. None where it spells none, as at an escape that there isn't.
pub fn read_bytes(alloc: Global, text: &str) -> Result<Option<Vec<u8>>, AllocError> {
    let mut bytes = Vec::new(alloc);
    match push_spelled(&mut bytes, text)? {
        Some(Place::Plain) => Ok(Some(bytes)),
        _ => Ok(None),
    }
}

/// Adds the bytes that a text spells and a line end, which is left out where the text ends in a single `\`. Says whether it spells
/// bytes; some of them may be added where it doesn't.
pub fn push_line(bytes: &mut Vec<u8>, text: &str) -> Result<bool, AllocError> {
    match push_spelled(bytes, text)? {
        Some(Place::Plain) => bytes.push(b'\n')?,
        Some(Place::Escape) => {}
        _ => return Ok(false),
    }
    Ok(true)
}

/// The text that spells the bytes.
pub fn spelling_of(alloc: Global, bytes: &[u8]) -> Result<String, AllocError> {
    let mut text = String::new(alloc);
    for byte in bytes {
        match *byte {
            b'\\' => text.push_str("\\\\")?,
            b'\n' => text.push_str("\\n")?,
            b'\r' => text.push_str("\\r")?,
            b'\t' => text.push_str("\\t")?,
            b' '..=b'~' => text.push(*byte as char)?,
            _ => text.push_str(format!(in alloc; "\\x{:02x}", *byte)?.as_str())?,
        }
    }
    Ok(text)
}

/// The texts that spell the lines of the bytes, without line ends. A `\` follows the last one where it has no line end.
pub fn spelled_lines(alloc: Global, bytes: &[u8]) -> Result<Vec<String>, AllocError> {
    let mut lines = Vec::new(alloc);
    let mut line = Vec::new(alloc);
    for byte in bytes {
        if *byte == b'\n' {
            lines.push(spelling_of(alloc, &line)?)?;
            line.clear();
        } else {
            line.push(*byte)?;
        }
    }
    if !line.is_empty() {
        let mut text = spelling_of(alloc, &line)?;
        text.push('\\')?;
        lines.push(text)?;
    }
    Ok(lines)
}
