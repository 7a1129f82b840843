//! Numbers in front of a text, without sign or leading zero.
ghost use Rattle.std.specs.Prelude.{◌≡◌, ◌≤◌, min, length, take, drop, IfSome, IfNone};
ghost use Rattle.std.specs.List.{prefix_len};
ghost use Rattle.std.specs.Char.{is_ascii_digit};
ghost use Rattle.std.specs.Str.Parse.{AllDigits, digits_value};
ghost use Rattle.fmt_string.specs.promise.FormatString.{NumberThen, NoNumber};
ghost use Rattle.layout_rules.specs.promise.Rules.{window_limit};

/// Where values of numbers stop growing: above every id.
const LARGEST: u64 = 1 << 40;

/// How many digits are in front.
fn digits_len(text: &[u8]) -> usize
    ensures { result ≡ prefix_len is_ascii_digit text.now }
{
    text.iter().take_while(|c| c.is_ascii_digit()).count()
}

/// The length of the number in front, where there is one.
pub(crate) fn number_len(text: &[u8]) -> Option<usize>
    ensures within { IfSome result (λ n. n ≤ length text.now) }
    ensures found { IfSome result (λ n. NumberThen text.now (take n text.now) (drop n text.now) (digits_value 10 (take n text.now))) }
    ensures none { IfNone result (NoNumber text.now) }
{
    let len = digits_len(text);
    if len == 0 {
        return None;
    }
    if text[0] != b'0' {
        return Some(len);
    }
    if len == 1 { Some(1) } else { None }
}

/// The value of digits, which stops at `LARGEST`.
pub(crate) fn number_value(digits: &[u8]) -> u64
    requires { AllDigits 10 digits.now }
    ensures { result ≡ min (digits_value 10 digits.now) window_limit }
{
    let mut value = 0;
    for digit in digits {
        value = (value * 10 + u64::from(*digit - b'0')).min(LARGEST);
    }
    value
}
