//! Decimal digits, and whole numbers of up to 64 bits.
ghost use Rattle.std.specs.Prelude.{◌≡◌, ◌⊎◌, ◌<◌, ◌≤◌, ◌^◌, take, length, true, false, option_map, IfSome, IfNone};
ghost use Rattle.std.specs.List.{prefix_len};
ghost use Rattle.std.specs.Char.{is_ascii_digit};
ghost use Rattle.std.specs.Str.Parse.{digits_value, starts_with_minus, without_leading_sign};
ghost use Rattle.data_types.specs.promise.FieldText.{is_numeral};

use crate::digits::with_few_digits;

/// The most digits whose number always fits 64 bits.
pub const SHORT: usize = 19;

/// The digits in front of a text: the number that they write, and how many there are.
#[inline(always)]
pub(crate) fn short_front(text: &[u8]) -> (u64, usize)
    requires { length text.now ≤ SHORT }
    ensures count { result.1 ≡ prefix_len is_ascii_digit text.now }
    ensures value { result.0 ≡ digits_value 10 (take result.1 text.now) }
    ensures small { result.0 < 10 ^ result.1 }
{
    let mut value = 0;
    for place in 0..text.len() {
        let digit = text[place];
        if !digit.is_ascii_digit() {
            return (value, place);
        }
        value = value * 10 + u64::from(digit - b'0');
    }
    (value, text.len())
}

/// Where a number has 38 digits: 10^37.
const LAST_STEP: u128 = 10_000_000_000_000_000_000_000_000_000_000_000_000;

/// The same of a text of any length, where the number has at most 38 digits.
pub(crate) fn front(text: &[u8]) -> Option<(u128, usize)>
    ensures count { IfSome result (λ r. r.1 ≡ prefix_len is_ascii_digit text.now) }
    ensures value { IfSome result (λ r. r.0 ≡ digits_value 10 (take r.1 text.now)) }
    ensures small { IfSome result (λ r. r.0 < 10 ^ 38) }
    ensures large { IfNone result (10 ^ 38 ≤ digits_value 10 (take (prefix_len is_ascii_digit text.now) text.now)) }
{
    if text.len() > SHORT {
        return long_front(text);
    }
    let (value, count) = short_front(text);
    Some((u128::from(value), count))
}

/// The same, in as many bits as a decimal of 38 digits has.
fn long_front(text: &[u8]) -> Option<(u128, usize)>
    ensures count { IfSome result (λ r. r.1 ≡ prefix_len is_ascii_digit text.now) }
    ensures value { IfSome result (λ r. r.0 ≡ digits_value 10 (take r.1 text.now)) }
    ensures small { IfSome result (λ r. r.0 < 10 ^ 38) }
    ensures large { IfNone result (10 ^ 38 ≤ digits_value 10 (take (prefix_len is_ascii_digit text.now) text.now)) }
{
    let mut value = 0;
    for place in 0..text.len() {
        let digit = text[place];
        if !digit.is_ascii_digit() {
            return Some((value, place));
        }
        if value >= LAST_STEP {
            return None;
        }
        value = value * 10 + u128::from(digit - b'0');
    }
    Some((value, text.len()))
}

/// Whether a text begins with `-`, and what is behind the sign where there is one.
#[inline(always)]
pub(crate) fn split_sign(text: &[u8]) -> (bool, &[u8])
    ensures minus { result.0 ≡ starts_with_minus text.now }
    ensures digits { result.1.now ≡ without_leading_sign text.now }
{
    match text {
        [b'-', digits @ ..] => (true, digits),
        [b'+', digits @ ..] => (false, digits),
        _ => (false, text),
    }
}

/// The number of a numeral, where it fits 64 bits.
#[inline(always)]
pub(crate) fn magnitude(text: &[u8]) -> Option<u64>
    ensures numeral { IfSome result (λ n. is_numeral text.now ≡ true) }
    ensures value { IfSome result (λ n. n ≡ digits_value 10 text.now) }
    ensures none { IfNone result ((is_numeral text.now ≡ false) ⊎ (2 ^ 64 ≤ digits_value 10 text.now)) }
{
    if text.len() > 18 {
        return long_magnitude(text);
    }
    if text.len() == 0 {
        return None;
    }
    with_few_digits(0, text)
}

/// The same of a text of more digits.
#[inline(never)]
fn long_magnitude(text: &[u8]) -> Option<u64>
    ensures numeral { IfSome result (λ n. is_numeral text.now ≡ true) }
    ensures value { IfSome result (λ n. n ≡ digits_value 10 text.now) }
    ensures none { IfNone result ((is_numeral text.now ≡ false) ⊎ (2 ^ 64 ≤ digits_value 10 text.now)) }
{
    if text.len() > SHORT {
        return longest_magnitude(text);
    }
    let (value, count) = short_front(text);
    if count == 0 || count < text.len() {
        return None;
    }
    Some(value)
}

/// The same of a text of any length.
fn longest_magnitude(text: &[u8]) -> Option<u64>
    ensures numeral { IfSome result (λ n. is_numeral text.now ≡ true) }
    ensures value { IfSome result (λ n. n ≡ digits_value 10 text.now) }
    ensures none { IfNone result ((is_numeral text.now ≡ false) ⊎ (2 ^ 64 ≤ digits_value 10 text.now)) }
{
    let (value, count) = long_front(text)?;
    if count == 0 || count < text.len() || value >= 1 << 64 {
        return None;
    }
    Some(value as u64)
}
