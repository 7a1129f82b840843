//! Bytes with escapes.
ghost use Rattle.std.specs.Prelude.{◌≡◌, ◌++◌, ◌<◌, ◌∷◌, [], ◌/◌, ◌%◌, true, OnOk};
ghost use Rattle.std.specs.Fmt.{digit_glyph};
ghost use Rattle.std.specs.List.{list_all};
ghost use Rattle.data_types.specs.promise.ValueTexts.{byte_text, is_plain};
ghost use Rattle.data_types.specs.ValueTexts.{bytes_text};

use crate::bounded::BoundedText;
use unit_pass::NoMemory;

/// Whether a byte stands for itself.
#[inline(always)]
pub(crate) fn is_plain(byte: u8) -> bool
    ensures { result ≡ is_plain byte }
{
    (33..=126).contains(&byte) && byte != b'%' && byte != b',' && byte != b']' && byte != b'}'
}

/// Whether each byte stands for itself.
fn are_plain(bytes: &[u8]) -> bool
    ensures { result ≡ list_all is_plain bytes.now }
{
    bytes.iter().all(|byte| is_plain(*byte))
}

/// The upper-case digit of a value.
fn upper_digit(value: u8) -> u8
    requires { value < 16 }
    ensures { result ≡ digit_glyph true value }
{
    if value < 10 { 48 + value } else { 55 + value }
}

/// Appends a byte, as itself or as its escape.
fn push_byte(text: &mut BoundedText, byte: u8) -> Result<(), NoMemory>
    ensures { OnOk result (text.new ≡ text.old ++ byte_text byte) }
{
    if is_plain(byte) {
        return text.push(byte);
    }
    text.push_bytes(&[b'%', upper_digit(byte / 16), upper_digit(byte % 16)])
}

/// Appends bytes, each as itself or as its escape.
fn push_each(text: &mut BoundedText, bytes: &[u8]) -> Result<(), NoMemory>
    ensures { OnOk result (text.new ≡ text.old ++ bytes_text bytes.now) }
{
    for byte in bytes {
        push_byte(text, *byte)?;
    }
    Ok(())
}

/// Appends bytes with escapes. Where each byte stands for itself they are copied at once.
pub(crate) fn push_escaped(text: &mut BoundedText, bytes: &[u8]) -> Result<(), NoMemory>
    ensures { OnOk result (text.new ≡ text.old ++ bytes_text bytes.now) }
{
    if are_plain(bytes) {
        return text.push_bytes(bytes);
    }
    push_each(text, bytes)
}
