//! What follows `d:`: a precision, a scale and perhaps a width, or their first fault.
ghost use Rattle.std.specs.Prelude.{◌≡◌, ◌+◌, ◌<◌, ◌≤◌, ◌^◌, ◌++◌, ◌∷◌, min, neg_ℤ, pos, length, take, drop, FitsSigned, IfOk, IfErr, IfSome, IfNone};
ghost use Rattle.std.specs.Int.{w32};
ghost use Rattle.std.specs.Str.Parse.{digits_value};
ghost use Rattle.fmt_string.specs.promise.FormatString.{IsNumber, StartsWith, IsSigned, NoSigned, StartsWithDigit, comma, width_of, DecimalIs};
ghost use Rattle.fmt_string.specs.FormatString.{IsWidth};
ghost use Rattle.data_types.specs.promise.Kinds.{most_precise};
ghost use Rattle.fmt_string.specs.promise.FormatString.{NumbersFail};
ghost use Rattle.fmt_string.specs.Decimal.{signed_value, width_value, AreParts};

use crate::FormatRule;
use crate::number::{LARGEST, number_len, number_value};
use crate::size::Misread;
use data_types::DataType;

fn bad_number(place: usize) -> Misread
    ensures rule { result.rule ≡ FormatRule.BadNumber }
    ensures place { result.place ≡ place }
{
    Misread {
        rule: FormatRule::BadNumber,
        place,
    }
}

fn out_of_range(place: usize) -> Misread
    ensures rule { result.rule ≡ FormatRule.OutOfRange }
    ensures place { result.place ≡ place }
{
    Misread {
        rule: FormatRule::OutOfRange,
        place,
    }
}

fn trailing(place: usize) -> Misread
    ensures rule { result.rule ≡ FormatRule.Trailing }
    ensures place { result.place ≡ place }
{
    Misread {
        rule: FormatRule::Trailing,
        place,
    }
}

/// What is behind the byte, where the text begins with it.
fn behind_byte(byte: u8, text: &[u8]) -> Option<&[u8]>
    ensures some { IfSome result (λ rest. text.now ≡ byte ∷ rest.now) }
    ensures none { IfNone result (StartsWith byte text.now → ⊥) }
{
    let (first, rest) = text.split_first()?;
    if *first == byte { Some(rest) } else { None }
}

/// The decimal type whose numbers are the whole text: a precision, a scale and perhaps a width.
pub(crate) fn decimal(text: &[u8]) -> Result<DataType, Misread>
    ensures found { IfOk result (DecimalIs text.now) }
    ensures within { IfErr result (λ e. e.place ≤ length text.now) }
    ensures fault { IfErr result (λ e. NumbersFail text.now e.rule e.place) }
{
    let Some(len) = number_len(text) else {
        return Err(bad_number(0));
    };
    let (precision, more) = text.split_at(len);
    match behind_byte(b',', more) {
        Some(rest) => with_precision(precision, rest),
        None => Err(bad_number(len)),
    }
}

/// The decimal type of this precision, where the scale and perhaps a width are the whole text.
fn with_precision(precision: &[u8], text: &[u8]) -> Result<DataType, Misread>
    requires precision { IsNumber precision.now (digits_value 10 precision.now) }
    requires room { length precision.now + length text.now < 2 ^ 63 }
    ensures found { IfOk result (DecimalIs (precision.now ++ comma ++ text.now)) }
    ensures within { IfErr result (λ e. e.place ≤ length precision.now + 1 + length text.now) }
    ensures fault { IfErr result (λ e. NumbersFail (precision.now ++ comma ++ text.now) e.rule e.place) }
{
    let Some(len) = signed_len(text) else {
        return Err(bad_number(precision.len() + 1));
    };
    let (scale, more) = text.split_at(len);
    with_scale(precision, scale, more)
}

/// The decimal type of this precision and this scale, where nothing or a width is the whole text.
fn with_scale(precision: &[u8], scale: &[u8], text: &[u8]) -> Result<DataType, Misread>
    requires precision { IsNumber precision.now (digits_value 10 precision.now) }
    requires scale { IsSigned scale.now (signed_value scale.now) }
    requires ends { StartsWithDigit text.now → ⊥ }
    requires room { length precision.now + length scale.now + length text.now < 2 ^ 63 }
    ensures found { IfOk result (DecimalIs (precision.now ++ comma ++ scale.now ++ text.now)) }
    ensures within { IfErr result (λ e. e.place ≤ length precision.now + 1 + length scale.now + length text.now) }
    ensures fault { IfErr result (λ e. NumbersFail (precision.now ++ comma ++ scale.now ++ text.now) e.rule e.place) }
{
    if text.is_empty() {
        return in_range(precision, scale, text);
    }
    let Some(digits) = behind_byte(b',', text) else {
        return Err(trailing(precision.len() + scale.len() + 1));
    };
    let place = precision.len() + scale.len() + 2;
    let Some(len) = number_len(digits) else {
        return Err(bad_number(place));
    };
    if len < digits.len() {
        return Err(trailing(place + len));
    }
    in_range(precision, scale, text)
}

/// The decimal type with these numbers, where they are in their ranges.
fn in_range(precision: &[u8], scale: &[u8], width: &[u8]) -> Result<DataType, Misread>
    requires numbers { AreParts precision.now scale.now width.now }
    requires room { length precision.now + length scale.now + length width.now < 2 ^ 63 }
    ensures found { IfOk result (DecimalIs (precision.now ++ comma ++ scale.now ++ width.now)) }
    ensures within { IfErr result (λ e. e.place ≤ length precision.now + 1 + length scale.now + length width.now) }
    ensures fault { IfErr result (λ e. NumbersFail (precision.now ++ comma ++ scale.now ++ width.now) e.rule e.place) }
{
    let place = precision.len() + scale.len() + 2;
    match width_bits(width) {
        128 => of_width(precision, scale, width, false),
        256 => of_width(precision, scale, width, true),
        32 | 64 => Err(Misread {
            rule: FormatRule::Unsupported,
            place,
        }),
        _ => Err(out_of_range(place)),
    }
}

/// The decimal type with these numbers, where the precision and the scale are in their ranges.
fn of_width(precision: &[u8], scale: &[u8], width: &[u8], wide: bool) -> Result<DataType, Misread>
    requires numbers { AreParts precision.now scale.now width.now }
    requires bits { width_value width.now ≡ width_of wide }
    requires room { length precision.now + length scale.now + length width.now < 2 ^ 63 }
    ensures found { IfOk result (DecimalIs (precision.now ++ comma ++ scale.now ++ width.now)) }
    ensures within { IfErr result (λ e. e.place ≤ length precision.now + 1 + length scale.now + length width.now) }
    ensures fault { IfErr result (λ e. NumbersFail (precision.now ++ comma ++ scale.now ++ width.now) e.rule e.place) }
{
    let digits = number_value(precision);
    if digits < 1 {
        return Err(out_of_range(0));
    }
    if digits > most_digits(wide) {
        return Err(out_of_range(0));
    }
    match scale_value(scale) {
        Some(scale) => Ok(DataType::Decimal {
            precision: digits as u8,
            scale,
            wide,
        }),
        None => Err(out_of_range(precision.len() + 1)),
    }
}

/// The most digits of a decimal.
fn most_digits(wide: bool) -> u64
    ensures { result ≡ most_precise wide }
{
    if wide { 76 } else { 38 }
}

/// The width in bits, which stops at `LARGEST`: 128 where it is left out.
fn width_bits(text: &[u8]) -> u64
    requires { IsWidth text.now (width_value text.now) }
    ensures { result ≡ min (width_value text.now) LARGEST }
{
    match text {
        [] => 128,
        [_, digits @ ..] => number_value(digits),
    }
}

/// The length of the number in front that a minus may begin, where there is one.
fn signed_len(text: &[u8]) -> Option<usize>
    ensures within { IfSome result (λ n. n ≤ length text.now) }
    ensures found { IfSome result (λ n. IsSigned (take n text.now) (signed_value (take n text.now))) }
    ensures ends { IfSome result (λ n. StartsWithDigit (drop n text.now) → ⊥) }
    ensures none { IfNone result (NoSigned text.now) }
{
    let Some(digits) = behind_byte(b'-', text) else {
        return number_len(text);
    };
    let len = number_len(digits)?;
    if digits[0] == b'0' {
        return None;
    }
    Some(len + 1)
}

/// The value of a scale, where it fits.
fn scale_value(text: &[u8]) -> Option<i32>
    requires { IsSigned text.now (signed_value text.now) }
    ensures some { IfSome result (λ scale. scale ≡ signed_value text.now) }
    ensures none { IfNone result (FitsSigned w32 (signed_value text.now) → ⊥) }
{
    match text {
        [b'-', digits @ ..] => below_zero(number_value(digits)),
        _ => from_zero(number_value(text)),
    }
}

fn below_zero(value: u64) -> Option<i32>
    ensures some { IfSome result (λ scale. scale ≡ neg_ℤ (pos value)) }
    ensures none { IfNone result (2 ^ 31 < value) }
{
    if value > 1 << 31 {
        return None;
    }
    Some((-(value as i64)) as i32)
}

fn from_zero(value: u64) -> Option<i32>
    ensures some { IfSome result (λ scale. scale ≡ pos value) }
    ensures none { IfNone result (2 ^ 31 ≤ value) }
{
    if value >= 1 << 31 {
        return None;
    }
    Some(value as i32)
}
