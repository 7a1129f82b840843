//! How many bytes the columns will have, found before anything is made.
ghost use Rattle.std.specs.Prelude.{◌≡◌, ◌+◌, ◌*◌, ◌^◌, ◌<◌, ◌≤◌, All, length, replicate};
ghost use Rattle.std.specs.List.{flat_map};
ghost use Rattle.arr_import.specs.Cols.{window_of};
ghost use Rattle.arr_import.specs.Window.{item_at, items_of};
ghost use Rattle.data_types.specs.promise.Value.{byte_total, bytes_of};
ghost use Rattle.layout_rules.specs.promise.Rules.{window_limit};
ghost use Rattle.list_cols.specs.Listed.{HasTotal, listed};
ghost use Rattle.list_cols.specs.promise.Nested.{items_in};

use crate::runs::{count_items, list_at};
use arr_import::Col;
use column_fill::Run;

/// No buffer has this many bytes.
const TOO_MANY: u64 = 1 << 63;

/// A number of bytes and as many more, where that is below 2^63.
#[inline(always)]
fn plus(total: u64, more: u128) -> Option<u64>
    requires total { total < 2 ^ 63 }
    requires more { more + 2 ^ 64 ≤ 2 ^ 128 }
    ensures { HasTotal (total + more) result }
{
    let sum = u128::from(total) + more;
    if sum < u128::from(TOO_MANY) {
        Some(sum as u64)
    } else {
        None
    }
}

/// How many bytes this many items have of this many bytes each.
#[inline(always)]
fn product(times: u64, bytes: u64) -> u128
    ensures is { result ≡ times * bytes }
    ensures few { times < 2 ^ 64 }
{
    u128::from(times) * u128::from(bytes)
}

/// The number of bytes of an item; only texts and bytes have some.
#[inline(always)]
fn item_bytes(items: &Col<'_>, i: u64) -> u64
    requires inside { i < (window_of items.now).count }
    requires small { i < 2 ^ 63 }
    ensures bytes { result ≡ length (bytes_of (item_at (window_of items.now) i)) }
    ensures small { result < 2 ^ 64 }
{
    match items.bytes(i as i64) {
        Some(bytes) => bytes.len() as u64,
        None => 0,
    }
}

/// The bytes of the items of runs, where they are fewer than 2^63.
pub(crate) fn runs_bytes(items: &Col<'_>, runs: &[Run]) -> Option<u64>
    requires inside { All (λ run. run.item < (window_of items.now).count) runs.now }
    requires near { (window_of items.now).count ≤ window_limit }
    ensures { HasTotal (byte_total (flat_map (λ run. replicate run.times (item_at (window_of items.now) run.item)) runs.now)) result }
{
    let mut total = 0u64;
    for run in runs {
        let bytes = item_bytes(items, run.item);
        match plus(total, product(run.times, bytes)) {
            Some(sum) => total = sum,
            None => return None,
        }
    }
    Some(total)
}

/// The bytes of a column's items and as many before them, where they are fewer than 2^63.
fn items_bytes(items: &Col<'_>, before: u64) -> Option<u64>
    requires { before < 2 ^ 63 }
    ensures { HasTotal (before + byte_total (items_of (window_of items.now))) result }
{
    let mut total = before;
    for i in 0..count_items(items) {
        match plus(total, u128::from(item_bytes(items, i))) {
            Some(sum) => total = sum,
            None => return None,
        }
    }
    Some(total)
}

/// The bytes of the items of a list and as many before them, where they are fewer than 2^63.
fn list_bytes(lists: &Col<'_>, i: u64, before: u64) -> Option<u64>
    requires inside { i < (window_of lists.now).count }
    requires small { i < 2 ^ 63 }
    requires before { before < 2 ^ 63 }
    ensures { HasTotal (before + byte_total (items_in (item_at (window_of lists.now) i))) result }
{
    match list_at(lists, i) {
        Some(items) => items_bytes(&items, before),
        None => Some(before),
    }
}

/// The bytes of the items of all lists, where they are fewer than 2^63.
pub(crate) fn lists_bytes(lists: &Col<'_>) -> Option<u64>
    ensures { HasTotal (byte_total (listed (item_at (window_of lists.now)) (window_of lists.now).count)) result }
{
    let mut total = 0u64;
    for i in 0..count_items(lists) {
        match list_bytes(lists, i, total) {
            Some(sum) => total = sum,
            None => return None,
        }
    }
    Some(total)
}
