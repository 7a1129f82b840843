//! Hexadecimal digits: the bits of floats, and bytes.
ghost use Rattle.std.specs.Prelude.{◌≡◌, ◌∷◌, ◌++◌, [], ◌+◌, ◌*◌, ◌/◌, ◌<◌, ◌≤◌, if◌then◌else◌, false, length, take, option_map, IfOk, Some, None};
ghost use Rattle.std.specs.Bool.{OnFalse, OnTrue};
ghost use Rattle.std.specs.Fmt.{digit_glyph};
ghost use Rattle.std.specs.Char.{is_ascii_hexdigit, digit_value};
ghost use Rattle.data_types.specs.promise.FieldText.{hex_bytes, hex_text, last_digits};
ghost use Rattle.data_types.specs.FieldText.{read_bits};
ghost use Rattle.data_types.specs.promise.Value.{Bits};

use crate::room::sized;
use data_types::decode_hex;
use unit_pass::NoMemory;

/// The value of each byte that is a digit, and 16 for any other.
static DIGITS: [u8; 256] = [
    0x10, 0x10, 0x10, 0x10, 0x10, 0x10, 0x10, 0x10, 0x10, 0x10, 0x10, 0x10, 0x10, 0x10, 0x10, 0x10,
    0x10, 0x10, 0x10, 0x10, 0x10, 0x10, 0x10, 0x10, 0x10, 0x10, 0x10, 0x10, 0x10, 0x10, 0x10, 0x10,
    0x10, 0x10, 0x10, 0x10, 0x10, 0x10, 0x10, 0x10, 0x10, 0x10, 0x10, 0x10, 0x10, 0x10, 0x10, 0x10,
    0x00, 0x01, 0x02, 0x03, 0x04, 0x05, 0x06, 0x07, 0x08, 0x09, 0x10, 0x10, 0x10, 0x10, 0x10, 0x10,
    0x10, 0x0A, 0x0B, 0x0C, 0x0D, 0x0E, 0x0F, 0x10, 0x10, 0x10, 0x10, 0x10, 0x10, 0x10, 0x10, 0x10,
    0x10, 0x10, 0x10, 0x10, 0x10, 0x10, 0x10, 0x10, 0x10, 0x10, 0x10, 0x10, 0x10, 0x10, 0x10, 0x10,
    0x10, 0x0a, 0x0b, 0x0c, 0x0d, 0x0e, 0x0f, 0x10, 0x10, 0x10, 0x10, 0x10, 0x10, 0x10, 0x10, 0x10,
    0x10, 0x10, 0x10, 0x10, 0x10, 0x10, 0x10, 0x10, 0x10, 0x10, 0x10, 0x10, 0x10, 0x10, 0x10, 0x10,
    0x10, 0x10, 0x10, 0x10, 0x10, 0x10, 0x10, 0x10, 0x10, 0x10, 0x10, 0x10, 0x10, 0x10, 0x10, 0x10,
    0x10, 0x10, 0x10, 0x10, 0x10, 0x10, 0x10, 0x10, 0x10, 0x10, 0x10, 0x10, 0x10, 0x10, 0x10, 0x10,
    0x10, 0x10, 0x10, 0x10, 0x10, 0x10, 0x10, 0x10, 0x10, 0x10, 0x10, 0x10, 0x10, 0x10, 0x10, 0x10,
    0x10, 0x10, 0x10, 0x10, 0x10, 0x10, 0x10, 0x10, 0x10, 0x10, 0x10, 0x10, 0x10, 0x10, 0x10, 0x10,
    0x10, 0x10, 0x10, 0x10, 0x10, 0x10, 0x10, 0x10, 0x10, 0x10, 0x10, 0x10, 0x10, 0x10, 0x10, 0x10,
    0x10, 0x10, 0x10, 0x10, 0x10, 0x10, 0x10, 0x10, 0x10, 0x10, 0x10, 0x10, 0x10, 0x10, 0x10, 0x10,
    0x10, 0x10, 0x10, 0x10, 0x10, 0x10, 0x10, 0x10, 0x10, 0x10, 0x10, 0x10, 0x10, 0x10, 0x10, 0x10,
    0x10, 0x10, 0x10, 0x10, 0x10, 0x10, 0x10, 0x10, 0x10, 0x10, 0x10, 0x10, 0x10, 0x10, 0x10, 0x10,
];

/// The two digits of each byte.
static PAIRS: [u8; 512] = *b"\
    000102030405060708090a0b0c0d0e0f\
    101112131415161718191a1b1c1d1e1f\
    202122232425262728292a2b2c2d2e2f\
    303132333435363738393a3b3c3d3e3f\
    404142434445464748494a4b4c4d4e4f\
    505152535455565758595a5b5c5d5e5f\
    606162636465666768696a6b6c6d6e6f\
    707172737475767778797a7b7c7d7e7f\
    808182838485868788898a8b8c8d8e8f\
    909192939495969798999a9b9c9d9e9f\
    a0a1a2a3a4a5a6a7a8a9aaabacadaeaf\
    b0b1b2b3b4b5b6b7b8b9babbbcbdbebf\
    c0c1c2c3c4c5c6c7c8c9cacbcccdcecf\
    d0d1d2d3d4d5d6d7d8d9dadbdcdddedf\
    e0e1e2e3e4e5e6e7e8e9eaebecedeeef\
    f0f1f2f3f4f5f6f7f8f9fafbfcfdfeff";

/// The number that hexadecimal digits write, most significant first, where there are as many as this many bits have; else
/// none.
#[inline(always)]
pub fn read_bits(bits: u8, text: &[u8]) -> Option<u64>
    requires { bits ≤ 64 }
    ensures { option_map Bits result ≡ read_bits (bits / 4) text.now }
{
    if text.len() != usize::from(bits / 4) {
        return None;
    }
    read_digits(text)
}

/// The eight bytes that 16 hexadecimal digits write; none for any other text.
#[inline(always)]
pub fn read_eight_bytes(text: &[u8]) -> Option<[u8; 8]>
    requires { length text.now ≡ 16 }
    ensures { result ≡ hex_bytes text.now }
{
    Some(read_digits(text)?.to_be_bytes())
}

/// The sixteen bytes that 32 hexadecimal digits write; none for any other text.
#[inline(always)]
pub fn read_sixteen(text: &[u8]) -> Option<[u8; 16]>
    requires { length text.now ≡ 32 }
    ensures { result ≡ hex_bytes text.now }
{
    let first = read_eight_bytes(&text[..16])?;
    let last = read_eight_bytes(&text[16..])?;
    let mut bytes = [0; 16];
    put_eight(&mut bytes, 0, &first);
    put_eight(&mut bytes, 8, &last);
    Some(bytes)
}

/// The number that a text of digits writes.
#[inline(always)]
fn read_digits(text: &[u8]) -> Option<u64>
    requires { length text.now ≤ 16 }
    ensures { option_map Bits result ≡ read_bits (length text.now) text.now }
{
    let mut number: u64 = 0;
    // At most 15 where each byte so far is a digit.
    let mut all: u8 = 0;
    for place in 0..text.len() {
        let digit = digit(text[place]);
        number = number.wrapping_mul(16).wrapping_add(u64::from(digit));
        all |= digit;
    }
    if all > 15 {
        return None;
    }
    Some(number)
}

/// The value of a digit, and 16 for a byte that is none.
#[inline(always)]
fn digit(byte: u8) -> u8
    ensures { result ≡ (if is_ascii_hexdigit byte then digit_value byte else 16) }
{
    DIGITS[usize::from(byte)]
}

/// The hexadecimal digits of a number of this many bits, in lower case, made in the room. `NoMemory` comes only where memory
/// runs out.
#[inline(always)]
pub fn bits_text<'a>(bits: u8, number: u64, room: &'a mut Vec<u8>) -> Result<&'a [u8], NoMemory>
    requires { bits ≤ 64 }
    ensures { IfOk result (λ text. text.now ≡ last_digits 16 (bits / 4) number) }
{
    sized(room, usize::from(bits / 4))?;
    match bits {
        64 => write_pairs(8, &number.to_be_bytes(), room.as_mut_slice()),
        _ => write_bits(number, room.as_mut_slice()),
    }
    Ok(room.as_slice())
}

/// Fills a text with the lowest digits of a number.
fn write_bits(number: u64, text: &mut [u8])
    requires { length text.old ≤ 16 }
    ensures { text.new ≡ last_digits 16 (length text.old) number }
{
    let count = text.len();
    for place in 0..count {
        let behind = count - 1 - place;
        text[place] = glyph((number >> (4 * behind)) & 15);
    }
}

/// The digit of a value.
fn glyph(value: u64) -> u8
    requires { value < 16 }
    ensures { result ≡ digit_glyph false value }
{
    if value < 10 {
        b'0' + value as u8
    } else {
        b'a' - 10 + value as u8
    }
}

/// The bytes that pairs of hexadecimal digits write, made in the room; none for any other text. `NoMemory` comes only where
/// memory runs out.
pub fn read_bytes<'a>(text: &[u8], room: &'a mut Vec<u8>) -> Result<Option<&'a [u8]>, NoMemory>
    ensures { IfOk result (λ bytes. option_map (λ b. b.now) bytes ≡ hex_bytes text.now) }
{
    sized(room, text.len() / 2)?;
    if !decode(text, room.as_mut_slice()) {
        return Ok(None);
    }
    Ok(Some(room.as_slice()))
}

/// Whether a text is one of pairs of digits; then their bytes are put into the room, by eights and the last ones by pairs.
fn decode(text: &[u8], room: &mut [u8]) -> bool
    requires { length room.old ≡ length text.now / 2 }
    ensures found { OnTrue result (hex_bytes text.now ≡ Some room.new) }
    ensures none { OnFalse result (hex_bytes text.now ≡ None) }
{
    let eights = text.len() / 16;
    for place in 0..eights {
        match read_eight_bytes(&text[16 * place..16 * place + 16]) {
            Some(eight) => put_eight(room, 8 * place, &eight),
            None => return false,
        }
    }
    decode_hex(&text[16 * eights..], &mut room[8 * eights..])
}

/// Stores eight bytes in their place.
#[inline(always)]
fn put_eight(room: &mut [u8], at: usize, eight: &[u8; 8])
    requires { at + 8 ≤ length room.old }
    ensures put { take (at + 8) room.new ≡ take at room.old ++ eight.now }
    ensures len { length room.new ≡ length room.old }
{
    room[at..at + 8].copy_from_slice(eight);
}

/// The pairs of hexadecimal digits of bytes, in lower case, made in the room. `NoMemory` comes only where memory runs out.
#[inline(always)]
pub fn bytes_text<'a>(bytes: &[u8], room: &'a mut Vec<u8>) -> Result<&'a [u8], NoMemory>
    ensures { IfOk result (λ text. text.now ≡ hex_text bytes.now) }
{
    sized(room, bytes.len() * 2)?;
    write_bytes(bytes, room.as_mut_slice());
    Ok(room.as_slice())
}

/// Writes the pairs of digits of bytes. Eight and sixteen, which are common, are constants where their loops are inlined.
#[inline(always)]
fn write_bytes(bytes: &[u8], text: &mut [u8])
    requires { length text.old ≡ 2 * length bytes.now }
    ensures { text.new ≡ hex_text bytes.now }
{
    match bytes.len() {
        8 => write_pairs(8, bytes, text),
        16 => write_pairs(16, bytes, text),
        count => write_pairs(count, bytes, text),
    }
}

/// Writes the pairs of digits of this many bytes.
#[inline(always)]
fn write_pairs(count: usize, bytes: &[u8], text: &mut [u8])
    requires count { length bytes.now ≡ count }
    requires room { length text.old ≡ 2 * count }
    ensures { text.new ≡ hex_text bytes.now }
{
    for place in 0..count {
        let (high, low) = pair(bytes[place]);
        text[2 * place] = high;
        text[2 * place + 1] = low;
    }
}

/// The two digits of a byte, in lower case.
#[inline(always)]
fn pair(byte: u8) -> (u8, u8)
    ensures { result.0 ∷ result.1 ∷ [] ≡ last_digits 16 2 byte }
{
    let place = 2 * usize::from(byte);
    (PAIRS[place], PAIRS[place + 1])
}
