//! Whole numbers with a sign, in the range of their column.
ghost use Rattle.std.specs.Prelude.{◌≡◌, ◌+◌, ◌-◌, ◌^◌, pos, neg_ℤ, option_map, if◌then◌else◌, Some, None};
ghost use Rattle.data_types.specs.promise.FieldText.{Wholes, in_range, read_whole};
ghost use Rattle.data_types.specs.FieldText.{IsFlatForm};
ghost use Rattle.data_types.specs.promise.Value.{Whole};

use crate::number::{magnitude, split_sign};

/// The whole number that a text spells, where this many bits hold it, with a sign or without; else none.
#[inline(always)]
pub fn read_whole(bits: u8, signed: bool, text: &[u8]) -> Option<i128>
    requires { IsFlatForm (Wholes bits signed) }
    ensures { option_map Whole result ≡ read_whole bits signed text.now }
{
    let (minus, digits) = split_sign(text);
    let number = magnitude(digits)?;
    within(bits, signed, minus, number)
}

/// The number with its sign, where it is in range.
#[inline(always)]
fn within(bits: u8, signed: bool, minus: bool, number: u64) -> Option<i128>
    requires { IsFlatForm (Wholes bits signed) }
    ensures { let z = if minus then neg_ℤ (pos number) else pos number in result ≡ (if in_range bits signed z then Some z else None) }
{
    let most = most(bits, signed);
    if !minus || number == 0 {
        return if number <= most {
            Some(i128::from(number))
        } else {
            None
        };
    }
    if signed && number - 1 <= most {
        Some(-i128::from(number))
    } else {
        None
    }
}

/// The greatest number of this many bits, of which one may be that of the sign.
#[inline(always)]
fn most(bits: u8, signed: bool) -> u64
    requires { IsFlatForm (Wholes bits signed) }
    ensures { result + 1 ≡ 2 ^ (if signed then bits - 1 else bits) }
{
    let all = u64::MAX >> (64 - bits);
    if signed { all >> 1 } else { all }
}
