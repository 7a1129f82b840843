//! Tokens: bytes that may be absent, with escapes.
ghost use Rattle.std.specs.Prelude.{◌≡◌, ◌+◌, ◌<◌, ◌≤◌, true, length, drop, Some, None, Option, option_map, IfOk, IfSome, IfNone};
ghost use Rattle.std.specs.Char.{digit_value};
ghost use Rattle.std.specs.Fmt.{digit_glyph};
ghost use Rattle.raw_schema.specs.View.{bytes_of};
ghost use Rattle.tree_text.specs.promise.TreeText.{is_plain};
ghost use Rattle.tree_text.specs.promise.Standing.{read_escape, onto, read_bytes, read_present, read_token};

use std::alloc::Global;
use unit_pass::NoMemory;

/// Whether a byte stands for itself.
pub(crate) fn is_plain(byte: u8) -> bool
    ensures { result ≡ is_plain byte }
{
    (33..=126).contains(&byte) && byte != b'%'
}

/// The value of a digit in a base up to 36, and 36 of any other byte.
fn digit_value(digit: u8) -> u16
    ensures { result ≡ digit_value digit }
{
    match digit {
        b'0'..=b'9' => u16::from(digit) - 48,
        b'A'..=b'Z' => u16::from(digit) - 55,
        b'a'..=b'z' => u16::from(digit) - 87,
        _ => 36,
    }
}

/// The upper-case digit of a value.
pub(crate) fn upper_digit(value: u8) -> u8
    requires { value < 16 }
    ensures { result ≡ digit_glyph true value }
{
    if value < 10 { 48 + value } else { 55 + value }
}

/// The byte that an escape spells.
fn escaped(percent: u8, high: u8, low: u8) -> Option<u8>
    ensures { result ≡ read_escape percent high low }
{
    let value = digit_value(high) * 16 + digit_value(low);
    if value >= 256 {
        return None;
    }
    let byte = value as u8;
    if is_plain(byte) {
        return None;
    }
    if percent == b'%' && high == upper_digit(byte / 16) && low == upper_digit(byte % 16) {
        Some(byte)
    } else {
        None
    }
}

/// The byte at a place of a token's text, and the place behind it.
fn byte_at(text: &[u8], at: usize) -> Option<(u8, usize)>
    requires { at < length text.now }
    ensures read { IfSome result (λ r. read_bytes (drop at text.now) ≡ onto (Some r.0) (read_bytes (drop r.1 text.now))) }
    ensures later { IfSome result (λ r. at < r.1) }
    ensures within { IfSome result (λ r. r.1 ≤ length text.now) }
    ensures none { IfNone result (read_bytes (drop at text.now) ≡ None) }
{
    let byte = text[at];
    if is_plain(byte) {
        return Some((byte, at + 1));
    }
    if text.len() - at < 3 {
        return None;
    }
    match escaped(byte, text[at + 1], text[at + 2]) {
        Some(byte) => Some((byte, at + 3)),
        None => None,
    }
}

/// The bytes that the text behind a token's `=` spells.
fn spelled_bytes(alloc: Global, text: &[u8]) -> Result<Option<Vec<u8>>, NoMemory>
    ensures { IfOk result (λ bytes. bytes_of bytes ≡ read_bytes text.now) }
{
    let mut bytes = Vec::new(alloc);
    let mut at = 0;
    while at < text.len() {
        match byte_at(text, at) {
            Some((byte, next)) => {
                bytes.push(byte)?;
                at = next;
            }
            None => return Ok(None),
        }
    }
    Ok(Some(bytes))
}

/// The bytes of a token that must be present.
pub(crate) fn present(alloc: Global, text: &[u8]) -> Result<Option<Vec<u8>>, NoMemory>
    ensures { IfOk result (λ bytes. bytes_of bytes ≡ read_present text.now) }
{
    match text {
        [b'=', rest @ ..] => spelled_bytes(alloc, rest),
        _ => Ok(None),
    }
}

/// The bytes of a token, or that they are absent.
pub(crate) fn token(alloc: Global, text: &[u8]) -> Result<Option<Option<Vec<u8>>>, NoMemory>
    ensures { IfOk result (λ bytes. option_map bytes_of bytes ≡ read_token text.now) }
{
    if text == b"~".as_slice() {
        return Ok(Some(None));
    }
    match present(alloc, text)? {
        Some(bytes) => Ok(Some(Some(bytes))),
        None => Ok(None),
    }
}
