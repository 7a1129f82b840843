//! A number among the words of a command line.
ghost use Rattle.std.specs.Prelude.{◌≡◌};
ghost use Rattle.tree_check.specs.promise.Numbers.{begins_number, number_between};

/// The number that decimal digits without sign or leading zero spell, where it lies between these two.
pub fn number_between(text: &str, least: u32, most: u32) -> Option<u32>
    ensures { result ≡ number_between least most text.now }
{
    if !begins_number(text.as_bytes()) {
        return None;
    }
    match text.parse::<u32>() {
        Ok(number) if least <= number && number <= most => Some(number),
        Ok(_) => None,
        Err(_) => None,
    }
}

/// Whether a digit is first, which is `0` only as the whole text.
fn begins_number(text: &[u8]) -> bool
    ensures { result ≡ begins_number text.now }
{
    matches!(text, [b'0'] | [b'1'..=b'9', ..])
}
