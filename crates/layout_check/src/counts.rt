//! The rules on an array's own numbers, and on how many parts it has.
ghost use Rattle.std.specs.Prelude.{◌≡◌, ◌≤ℤ◌, ◌<◌, ◌-◌, ◌^◌, nat_lt, pos, IfNone, length, Option};
ghost use Rattle.layout_rules.specs.promise.Layout.{buffer_count};
ghost use Rattle.layout_rules.specs.promise.Rules.{fault_if, window_limit, is_negative, count_wrong, one_if};
ghost use Rattle.std.specs.Global.{Box};
ghost use Rattle.tree_model.specs.promise.TreeParts.{IsLive, children_of, dictionary_of};
ghost use Rattle.raw_array.specs.promise.Members.{ArrayTree, members_of};

use data_types::Typed;
use layout_rules::{Layout, Numbers, buffer_count};
use raw_array::RawArray;

/// The most places that a window may lie in.
const MOST_PLACES: u64 = 1 << 40;

/// Whether a number is below 0. The numbers are it and 0.
pub fn negative(number: i64) -> Option<Numbers>
    ensures passed { IfNone result (pos 0 ≤ℤ number) }
    ensures fault { result ≡ fault_if (is_negative number) 0 number (pos 0) }
{
    if number < 0 {
        Some(Numbers {
            place: 0,
            left: i128::from(number),
            right: 0,
        })
    } else {
        None
    }
}

/// Whether two numbers of parts differ. The numbers are the one that was found and the one that is needed.
pub fn wrong_count(found: usize, needed: usize) -> Option<Numbers>
    ensures { result ≡ count_wrong found needed }
{
    if found == needed {
        None
    } else {
        Some(Numbers {
            place: 0,
            left: found as i128,
            right: needed as i128,
        })
    }
}

/// The number of buffers is the layout's.
pub(crate) fn buffers_wrong(layout: Layout, array: &RawArray) -> Option<Numbers>
    requires { IsLive array.now }
    ensures passed { IfNone result (length (members_of array.now).buffers ≡ buffer_count layout (length (members_of array.now).buffers)) }
    ensures fault { result ≡ count_wrong (length (members_of array.now).buffers) (buffer_count layout (length (members_of array.now).buffers)) }
{
    wrong_count(
        array.n_buffers() as usize,
        buffer_count(layout, array.n_buffers() as usize),
    )
}

/// The number of children is the type's.
pub(crate) fn children_wrong(kids: &Vec<Typed>, array: &RawArray) -> Option<Numbers>
    requires { IsLive array.now }
    ensures fault { result ≡ count_wrong (length (children_of array.now)) (length kids.now.items) }
    ensures few { length (children_of array.now) < 2 ^ 32 - 1 }
{
    wrong_count(array.n_children() as usize, kids.len())
}

/// A dictionary is there where the type has one.
pub(crate) fn dictionary_wrong(dict: &Option<Box<Typed>>, array: &RawArray) -> Option<Numbers>
    requires { IsLive array.now }
    ensures { result ≡ count_wrong (one_if (dictionary_of array.now)) (one_if dict.now) }
{
    let found = match array.dictionary() {
        Some(_) => 1,
        None => 0,
    };
    let needed = match dict {
        Some(_) => 1,
        None => 0,
    };
    wrong_count(found, needed)
}

/// Whether there are more than 2^40 places up to a window's end. The numbers are how many there are, and 2^40.
pub fn window_too_long(stop: u64) -> Option<Numbers>
    ensures { result ≡ fault_if (nat_lt window_limit stop) 0 (pos stop) (pos window_limit) }
{
    if stop > MOST_PLACES {
        Some(Numbers {
            place: 0,
            left: i128::from(stop),
            right: i128::from(MOST_PLACES),
        })
    } else {
        None
    }
}
