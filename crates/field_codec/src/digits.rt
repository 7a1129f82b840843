//! Decimal digits by a table, behind a number.
ghost use Rattle.std.specs.Prelude.{◌≡◌, if◌then◌else◌, ◌+◌, ◌-◌, ◌*◌, ◌<◌, ◌≤◌, ◌^◌, length, IfSome, IfNone};
ghost use Rattle.std.specs.Char.{is_ascii_digit};
ghost use Rattle.std.specs.List.{prefix_len};
ghost use Rattle.std.specs.Str.Parse.{digits_value_after};

/// The value of each byte that is a decimal digit, and 16 for any other.
static DIGITS: [u8; 256] = [
    16, 16, 16, 16, 16, 16, 16, 16, 16, 16, 16, 16, 16, 16, 16, 16, 16, 16, 16, 16, 16, 16, 16, 16,
    16, 16, 16, 16, 16, 16, 16, 16, 16, 16, 16, 16, 16, 16, 16, 16, 16, 16, 16, 16, 16, 16, 16, 16,
    0, 1, 2, 3, 4, 5, 6, 7, 8, 9, 16, 16, 16, 16, 16, 16, 16, 16, 16, 16, 16, 16, 16, 16, 16, 16,
    16, 16, 16, 16, 16, 16, 16, 16, 16, 16, 16, 16, 16, 16, 16, 16, 16, 16, 16, 16, 16, 16, 16, 16,
    16, 16, 16, 16, 16, 16, 16, 16, 16, 16, 16, 16, 16, 16, 16, 16, 16, 16, 16, 16, 16, 16, 16, 16,
    16, 16, 16, 16, 16, 16, 16, 16, 16, 16, 16, 16, 16, 16, 16, 16, 16, 16, 16, 16, 16, 16, 16, 16,
    16, 16, 16, 16, 16, 16, 16, 16, 16, 16, 16, 16, 16, 16, 16, 16, 16, 16, 16, 16, 16, 16, 16, 16,
    16, 16, 16, 16, 16, 16, 16, 16, 16, 16, 16, 16, 16, 16, 16, 16, 16, 16, 16, 16, 16, 16, 16, 16,
    16, 16, 16, 16, 16, 16, 16, 16, 16, 16, 16, 16, 16, 16, 16, 16, 16, 16, 16, 16, 16, 16, 16, 16,
    16, 16, 16, 16, 16, 16, 16, 16, 16, 16, 16, 16, 16, 16, 16, 16, 16, 16, 16, 16, 16, 16, 16, 16,
    16, 16, 16, 16, 16, 16, 16, 16, 16, 16, 16, 16, 16, 16,
];

/// A number with the digits of a text behind it. Two or ten, as of hundredths and of fractions that fill a decimal, go without a loop.
#[inline(always)]
pub(crate) fn with_digits(number: u64, text: &[u8]) -> Option<u64>
    requires { (number + 1) * 10 ^ length text.now ≤ 10 ^ 18 }
    ensures digits { IfSome result (λ n. prefix_len is_ascii_digit text.now ≡ length text.now) }
    ensures value { IfSome result (λ n. n ≡ digits_value_after 10 number text.now) }
    ensures small { IfSome result (λ n. n < (number + 1) * 10 ^ length text.now) }
    ensures other { IfNone result (prefix_len is_ascii_digit text.now < length text.now) }
{
    match text.len() {
        2 => with_so_many(number, 2, text),
        10 => with_so_many(number, 10, text),
        count => with_so_many(number, count, text),
    }
}

/// The same of a text that is mostly of few digits: each such count is a constant where its loop is inlined.
#[inline(always)]
pub(crate) fn with_few_digits(number: u64, text: &[u8]) -> Option<u64>
    requires { (number + 1) * 10 ^ length text.now ≤ 10 ^ 18 }
    ensures digits { IfSome result (λ n. prefix_len is_ascii_digit text.now ≡ length text.now) }
    ensures value { IfSome result (λ n. n ≡ digits_value_after 10 number text.now) }
    ensures small { IfSome result (λ n. n < (number + 1) * 10 ^ length text.now) }
    ensures other { IfNone result (prefix_len is_ascii_digit text.now < length text.now) }
{
    match text.len() {
        1 => with_so_many(number, 1, text),
        2 => with_so_many(number, 2, text),
        3 => with_so_many(number, 3, text),
        4 => with_so_many(number, 4, text),
        5 => with_so_many(number, 5, text),
        6 => with_so_many(number, 6, text),
        7 => with_so_many(number, 7, text),
        count => with_so_many(number, count, text),
    }
}

/// A number with the digits of a text of this many bytes behind it.
#[inline(always)]
fn with_so_many(number: u64, count: usize, text: &[u8]) -> Option<u64>
    requires count { count ≡ length text.now }
    requires fits { (number + 1) * 10 ^ length text.now ≤ 10 ^ 18 }
    ensures digits { IfSome result (λ n. prefix_len is_ascii_digit text.now ≡ length text.now) }
    ensures value { IfSome result (λ n. n ≡ digits_value_after 10 number text.now) }
    ensures small { IfSome result (λ n. n < (number + 1) * 10 ^ length text.now) }
    ensures other { IfNone result (prefix_len is_ascii_digit text.now < length text.now) }
{
    let mut value = number;
    // At most 15 where each byte so far is a digit.
    let mut all: u8 = 0;
    for place in 0..count {
        let digit = digit(text[place]);
        value = value.wrapping_mul(10).wrapping_add(u64::from(digit));
        all |= digit;
    }
    if all > 15 {
        return None;
    }
    Some(value)
}

/// The value of a decimal digit, and 16 for a byte that is none.
#[inline(always)]
fn digit(byte: u8) -> u8
    ensures { result ≡ (if is_ascii_digit byte then byte - 48 else 16) }
{
    DIGITS[usize::from(byte)]
}
