//! Bytes by pairs of lower-case hexadecimal digits.
ghost use Rattle.std.specs.Prelude.{◌≡◌, ◌*◌, ◌<◌, true, length, None, Some, IfOk};
ghost use Rattle.std.specs.Bool.{OnTrue, OnFalse};
ghost use Rattle.std.specs.Char.{digit_value};
ghost use Rattle.raw_schema.specs.View.{bytes_of};
ghost use Rattle.tree_text.specs.promise.Standing.{read_lower_hex};
ghost use Rattle.tree_text.specs.Standing.{is_lower_digit};

use std::alloc::Global;
use unit_pass::NoMemory;

/// Whether a byte is a digit or one of the letters from a to f.
#[inline(always)]
fn is_lower_digit(byte: u8) -> bool
    ensures { result ≡ is_lower_digit byte }
{
    byte.is_ascii_digit() || (b'a'..=b'f').contains(&byte)
}

/// The value of such a digit, and some number below 16 of any other byte.
#[inline(always)]
fn value_of(digit: u8) -> u8
    ensures value { is_lower_digit digit ≡ true → result ≡ digit_value digit }
    ensures bound { result < 16 }
{
    if digit < b'a' {
        digit % 16
    } else {
        (digit % 16 + 9) % 16
    }
}

/// Whether a text is one of pairs of lower-case digits; then their bytes are put into the room, which has one for each pair.
/// No step depends on what a byte is, so that many are read at once.
fn read_pairs(text: &[u8], room: &mut [u8]) -> bool
    requires { length text.now ≡ 2 * length room.old }
    ensures found { OnTrue result (read_lower_hex text.now ≡ Some room.new) }
    ensures none { OnFalse result (read_lower_hex text.now ≡ None) }
{
    let mut all = true;
    for i in 0..room.len() {
        let high = text[2 * i];
        let low = text[2 * i + 1];
        all = all & is_lower_digit(high) & is_lower_digit(low);
        room[i] = value_of(high) * 16 + value_of(low);
    }
    all
}

/// The bytes that pairs of lower-case digits write.
#[tactic(auto, using(crate::proofs::LowerHex::odd))]
pub(crate) fn lower_hex(alloc: Global, text: &[u8]) -> Result<Option<Vec<u8>>, NoMemory>
    ensures { IfOk result (λ bytes. bytes_of bytes ≡ read_lower_hex text.now) }
{
    if text.len() % 2 == 1 {
        return Ok(None);
    }
    let mut bytes = Vec::new(alloc);
    bytes.resize(text.len() / 2, 0)?;
    if read_pairs(text, bytes.as_mut_slice()) {
        Ok(Some(bytes))
    } else {
        Ok(None)
    }
}
