//! Decimals: digits before a point and behind it.
ghost use Rattle.std.specs.Prelude.{◌≡◌, pos, neg_ℤ, if◌then◌else◌, ◌+◌, ◌-◌, ◌*◌, ◌<◌, ◌≤◌, ◌^◌, get_or, length, take, option_map, true, false, IfSome, IfNone, MatchOption};
ghost use Rattle.std.specs.Prelude.{Some, None, nat_lt};
ghost use Rattle.std.specs.Option.{option_and_then};
ghost use Rattle.std.specs.Char.{is_ascii_digit};
ghost use Rattle.std.specs.List.{prefix_len};
ghost use Rattle.std.specs.Str.Parse.{digits_value};
ghost use Rattle.data_types.specs.promise.FieldText.{read_decimal, read_unscaled};
ghost use Rattle.data_types.specs.promise.Value.{Whole};
ghost use Rattle.field_codec.specs.Fractions.{IsPastDecimals, fraction_text};

use crate::digits::{with_digits, with_few_digits};
use crate::number::{SHORT, front, short_front, split_sign};
use crate::powers::{long_power, power};

/// The decimal that a text spells, as a whole number in units of 10^-places; none where it spells none of at most `precision`
/// digits.
#[inline(always)]
pub fn read_decimal(precision: u8, places: u32, text: &[u8]) -> Option<i128>
    requires { precision ≤ 38 }
    ensures { option_map Whole result ≡ read_decimal precision places text.now }
{
    if text.len() <= 18 && places as usize <= 18 - text.len() {
        return Some(i128::from(short_decimal(precision, places, text)?));
    }
    rare_decimal(precision, places, text)
}

/// The same of a text of any length. What the long way answers gets its place here, and so not for each text.
#[inline(always)]
fn rare_decimal(precision: u8, places: u32, text: &[u8]) -> Option<i128>
    requires { precision ≤ 38 }
    ensures { option_map Whole result ≡ read_decimal precision places text.now }
{
    let (minus, digits) = split_sign(text);
    if digits.len() <= SHORT && is_placed(places as usize, digits) {
        return Some(i128::from(placed_decimal(precision, places, minus, digits)?));
    }
    match long_decimal(precision, places, text) {
        Some(number) => Some(number),
        None => None,
    }
}

/// The same of a short text.
#[inline(always)]
fn short_decimal(precision: u8, places: u32, text: &[u8]) -> Option<i64>
    requires { length text.now + places ≤ 18 }
    ensures { option_map (λ n. Whole n) result ≡ read_decimal precision places text.now }
{
    let (minus, digits) = split_sign(text);
    within(precision, minus, quick_unscaled(places as usize, digits))
}

/// The decimal of digits that have their point in its place.
#[inline(never)]
fn placed_decimal(precision: u8, places: u32, minus: bool, text: &[u8]) -> Option<i64>
    requires some { 0 < places }
    requires room { places + 2 ≤ length text.now }
    requires few { length text.now ≤ SHORT }
    requires point { get_or text.now (length text.now - 1 - places) 0 ≡ 46 }
    ensures { option_map (λ n. Whole n) result ≡ option_and_then
        (λ n. if nat_lt n (10 ^ precision) then Some (Whole (if minus then neg_ℤ (pos n) else pos n)) else None) (read_unscaled places text.now) }
{
    within(precision, minus, placed_unscaled(places as usize, text))
}

/// The number with its sign, where it has at most `precision` digits.
#[inline(always)]
fn within(precision: u8, minus: bool, number: Option<u64>) -> Option<i64>
    requires { IfSome number (λ n. n < 10 ^ 18) }
    ensures { option_map (λ n. Whole n) result ≡ option_and_then
        (λ n. if nat_lt n (10 ^ precision) then Some (Whole (if minus then neg_ℤ (pos n) else pos n)) else None) number }
{
    let number = number?;
    if precision < 18 && number >= power(precision as usize) {
        return None;
    }
    Some(with_short_sign(minus, number))
}

/// The number with its sign.
#[inline(always)]
fn with_short_sign(minus: bool, number: u64) -> i64
    requires { number < 10 ^ 18 }
    ensures { result ≡ (if minus then neg_ℤ (pos number) else pos number) }
{
    let number = number as i64;
    if minus { -number } else { number }
}

/// The same of a text of any length.
#[inline(never)]
fn long_decimal(precision: u8, places: u32, text: &[u8]) -> Option<i128>
    requires { precision ≤ 38 }
    ensures { option_map Whole result ≡ read_decimal precision places text.now }
{
    let (minus, digits) = split_sign(text);
    let number = unscaled(places as usize, digits)?;
    if number >= long_power(precision as usize) {
        return None;
    }
    Some(with_sign(minus, number))
}

/// The number with its sign.
fn with_sign(minus: bool, number: u128) -> i128
    requires { number < 10 ^ 38 }
    ensures { result ≡ (if minus then neg_ℤ (pos number) else pos number) }
{
    let number = number as i128;
    if minus { -number } else { number }
}

/// The number without sign, where it has at most 38 digits. A short one goes by 64 bits.
fn unscaled(places: usize, text: &[u8]) -> Option<u128>
    ensures some { IfSome result (λ n. read_unscaled places text.now ≡ Some n) }
    ensures none { IfNone result (IsPastDecimals (read_unscaled places text.now)) }
{
    if text.len() > SHORT {
        return long_unscaled(places, text);
    }
    if is_placed(places, text) {
        return Some(u128::from(placed_unscaled(places, text)?));
    }
    let (whole, count) = short_front(text);
    if places <= 18 && count <= 18 - places {
        return Some(u128::from(with_fraction(whole, count, places, text)?));
    }
    long_unscaled(places, text)
}

/// The number without sign of a short text, at once where the point is before exactly this many bytes.
#[inline(always)]
fn quick_unscaled(places: usize, text: &[u8]) -> Option<u64>
    requires { length text.now + places ≤ 18 }
    ensures is { result ≡ read_unscaled places text.now }
    ensures small { IfSome result (λ n. n < 10 ^ 18) }
{
    if is_placed(places, text) {
        return placed_unscaled(places, text);
    }
    short_unscaled(places, text)
}

/// Whether a point is before exactly this many bytes, and some before it.
#[inline(always)]
fn is_placed(places: usize, text: &[u8]) -> bool
    ensures some { result ≡ true → 0 < places }
    ensures room { result ≡ true → places + 2 ≤ length text.now }
    ensures point { result ≡ true → get_or text.now (length text.now - 1 - places) 0 ≡ 46 }
{
    if places == 0 || text.len() < 2 || places > text.len() - 2 {
        return false;
    }
    text[text.len() - 1 - places] == b'.'
}

/// The number of a text that has its point there.
#[inline(always)]
fn placed_unscaled(places: usize, text: &[u8]) -> Option<u64>
    requires some { 0 < places }
    requires room { places + 2 ≤ length text.now }
    requires few { length text.now ≤ SHORT }
    requires point { get_or text.now (length text.now - 1 - places) 0 ≡ 46 }
    ensures is { result ≡ read_unscaled places text.now }
    ensures small { IfSome result (λ n. n < 10 ^ 18) }
{
    let point = text.len() - 1 - places;
    let whole = with_few_digits(0, &text[..point])?;
    with_digits(whole, &text[point + 1..])
}

/// The same of a short text, wherever its point is.
#[inline(never)]
fn short_unscaled(places: usize, text: &[u8]) -> Option<u64>
    requires { length text.now + places ≤ 18 }
    ensures is { result ≡ read_unscaled places text.now }
    ensures small { IfSome result (λ n. n < 10 ^ 18) }
{
    let (whole, count) = short_front(text);
    with_fraction(whole, count, places, text)
}

/// The same where the digits in front are read: the number that they write, and how many there are.
#[inline(always)]
fn with_fraction(whole: u64, count: usize, places: usize, text: &[u8]) -> Option<u64>
    requires count { count ≡ prefix_len is_ascii_digit text.now }
    requires value { whole ≡ digits_value 10 (take count text.now) }
    requires small { whole < 10 ^ count }
    requires few { count + places ≤ 18 }
    ensures is { result ≡ read_unscaled places text.now }
    ensures small { IfSome result (λ n. n < 10 ^ 18) }
{
    if count == 0 {
        return None;
    }
    let (_, behind) = text.split_at(count);
    let digits = fraction_text(places, behind)?;
    let (fraction, fine) = short_front(digits);
    if fine < digits.len() {
        return None;
    }
    Some(whole * power(places) + fraction * power(places - fine))
}

/// The same of a text of any length.
fn long_unscaled(places: usize, text: &[u8]) -> Option<u128>
    ensures some { IfSome result (λ n. read_unscaled places text.now ≡ Some n) }
    ensures none { IfNone result (IsPastDecimals (read_unscaled places text.now)) }
{
    let (whole, count) = front(text)?;
    if count == 0 {
        return None;
    }
    let (_, behind) = text.split_at(count);
    let digits = fraction_text(places, behind)?;
    let (fraction, fine) = front(digits)?;
    if fine < digits.len() {
        return None;
    }
    let whole = shifted(whole, places)?;
    let fraction = shifted(fraction, places - fine)?;
    Some(whole + fraction)
}

/// What may be the digits behind a point: of the empty text none, and else from 1 to this many bytes behind a point.
fn fraction_text(most: usize, text: &[u8]) -> Option<&[u8]>
    ensures { option_map (λ t. t.now) result ≡ fraction_text most text.now }
{
    match text {
        [] => Some(text),
        [b'.', digits @ ..] if !digits.is_empty() && digits.len() <= most => Some(digits),
        _ => None,
    }
}

/// The number with this many zeros behind it, where it then has at most 38 digits.
fn shifted(number: u128, zeros: usize) -> Option<u128>
    ensures some { IfSome result (λ n. n ≡ number * 10 ^ zeros) }
    ensures small { IfSome result (λ n. n < 10 ^ 38) }
    ensures none { IfNone result (10 ^ 38 ≤ number * 10 ^ zeros) }
{
    if number == 0 {
        return Some(0);
    }
    if zeros > 38 || number >= long_power(38 - zeros) {
        return None;
    }
    Some(number * long_power(zeros))
}
