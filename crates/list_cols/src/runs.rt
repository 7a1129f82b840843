//! How often each row is there once the lists of a column are spread out.
ghost use Rattle.std.specs.Prelude.{◌≡◌, ◌+◌, ◌^◌, ◌<◌, ◌≤◌, [], IfNone, IfOk, IfSome, length};
ghost use Rattle.arr_import.specs.Cols.{window_of};
ghost use Rattle.arr_import.specs.Window.{item_at, items_of};
ghost use Rattle.layout_rules.specs.promise.Rules.{window_limit};
ghost use Rattle.list_cols.specs.Listed.{list_runs};
ghost use Rattle.list_cols.specs.promise.Nested.{items_in};

use arr_import::{Col, ValueRef};
use column_fill::Run;
use std::alloc::Global;
use unit_pass::NoMemory;

/// The most rows, or bytes between offsets of 32 bits, that are named.
pub(crate) const MOST_NAMED: u64 = (1 << 31) - 1;

/// The number of items.
pub(crate) fn count_items(items: &Col<'_>) -> u64
    ensures count { result ≡ (window_of items.now).count }
    ensures small { result < 2 ^ 63 }
{
    items.len() as u64
}

/// The items of a list; a null has none.
pub(crate) fn list_at<'a>(lists: &Col<'a>, i: u64) -> Option<Col<'a>>
    requires inside { i < (window_of lists.now).count }
    requires small { i < 2 ^ 63 }
    ensures some { IfSome result (λ items. items_in (item_at (window_of lists.now) i) ≡ items_of (window_of items)) }
    ensures none { IfNone result (items_in (item_at (window_of lists.now) i) ≡ []) }
{
    match lists.value(i as i64) {
        ValueRef::Items(items) => Some(items),
        _ => None,
    }
}

/// The number of items of a list, and 0 of a null.
pub(crate) fn list_length(lists: &Col<'_>, i: u64) -> u64
    requires inside { i < (window_of lists.now).count }
    requires small { i < 2 ^ 63 }
    ensures length { result ≡ length (items_in (item_at (window_of lists.now) i)) }
    ensures few { result < 2 ^ 63 }
{
    match list_at(lists, i) {
        Some(items) => count_items(&items),
        None => 0,
    }
}

/// The runs of the rows with these lists, of which the first one is that of item `first` of each column.
pub(crate) fn list_runs(alloc: Global, lists: &Col<'_>, first: u64) -> Result<Vec<Run>, NoMemory>
    requires near { first + (window_of lists.now).count ≤ window_limit }
    ensures { IfOk result (λ runs. runs.items ≡ list_runs first (item_at (window_of lists.now)) (window_of lists.now).count) }
{
    let count = count_items(lists);
    let mut runs = Vec::with_capacity(alloc, count as usize)?;
    for i in 0..count {
        runs.push_reserved(Run {
            item: first + i,
            times: list_length(lists, i),
        });
    }
    Ok(runs)
}
