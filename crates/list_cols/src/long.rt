//! Whether a column of the new rows has too many bytes.
ghost use Rattle.std.specs.Prelude.{◌≡◌, ◌≢◌, ◌<◌, ◌≤◌, ℕ, true, false, All, IfSome, IfNone, length, get_or, replicate};
ghost use Rattle.std.specs.List.{flat_map};
ghost use Rattle.arr_import.specs.Cols.{window_of};
ghost use Rattle.arr_import.specs.Window.{item_at};
ghost use Rattle.data_types.specs.declared.kind.DataType.TheVariants as kinds;
ghost use Rattle.data_types.specs.KindTrees.{TypedOk};
ghost use Rattle.data_types.specs.promise.TypedView.{typed_of};
ghost use Rattle.layout_rules.specs.promise.Rules.{window_limit};
ghost use Rattle.layout_rules.specs.promise.Values.{rows_of};
ghost use Rattle.tree_model.specs.promise.TreeParts.{children_of};
ghost use Rattle.list_cols.specs.promise.Exploded.{exploded_kinds};
ghost use Rattle.list_cols.specs.Listed.{HasTotal, listed};
ghost use Rattle.list_cols.specs.promise.Nested.{Explode};
ghost use Rattle.list_cols.specs.Reaching.{IsHeld, IsLong, IsReached, wide_of};
ghost use Rattle.list_cols.specs.Spreading.{AllFit, CanSpread, FitsAt, chunk_runs, spread_values};

use crate::fault::ListFault;
use crate::kinds::{child_count, child_kinds, list_column};
use crate::runs::MOST_NAMED;
use crate::totals::{lists_bytes, runs_bytes};
use arr_import::Col;
use array_laws::lawful_values_fit;
use column_fill::{Run, flat_kind};
use data_types::{DataType, Typed, kinds_of_typed};
use layout_rules::{chunks_are_tables, lawful_trees};
use raw_array::RawArray;

/// Whether a type's offsets are wide, where it has some.
fn wide_of(kind: &DataType) -> Option<bool>
    ensures { result ≡ wide_of kind.now }
{
    match kind {
        DataType::Binary { wide } | DataType::Utf8 { wide } => Some(*wide),
        _ => None,
    }
}

/// Why offsets of 64 bits don't reach this many bytes: no buffer has 2^63.
fn wide_fault(total: Option<u64>) -> Option<ListFault>
    ensures { (bytes : ℕ) → HasTotal bytes total → IsReached true bytes result }
{
    match total {
        Some(_) => None,
        None => Some(ListFault::NoMemory),
    }
}

/// Why offsets of 32 bits don't: they end at 2^31 - 1.
fn narrow_fault(total: Option<u64>) -> Option<ListFault>
    ensures { (bytes : ℕ) → HasTotal bytes total → IsReached false bytes result }
{
    match total {
        Some(total) => {
            if total > MOST_NAMED {
                Some(ListFault::TooLong)
            } else {
                None
            }
        }
        None => Some(ListFault::TooLong),
    }
}

/// Why offsets don't reach this many bytes.
fn reach_fault(wide: bool, total: Option<u64>) -> Option<ListFault>
    ensures { (bytes : ℕ) → HasTotal bytes total → IsReached wide bytes result }
{
    if wide {
        wide_fault(total)
    } else {
        narrow_fault(total)
    }
}

/// Why the items of lists have more bytes than offsets of this type reach.
fn lists_fault(kind: &DataType, lists: &Col<'_>) -> Option<ListFault>
    ensures { IsHeld kind.now (listed (item_at (window_of lists.now)) (window_of lists.now).count) result }
{
    match wide_of(kind) {
        Some(wide) => reach_fault(wide, lists_bytes(lists)),
        None => None,
    }
}

/// Why the items of runs have more bytes than offsets of this type reach.
fn runs_fault(kind: &DataType, items: &Col<'_>, runs: &[Run]) -> Option<ListFault>
    requires inside { All (λ run. run.item < (window_of items.now).count) runs.now }
    requires near { (window_of items.now).count ≤ window_limit }
    ensures { IsHeld kind.now (flat_map (λ run. replicate run.times (item_at (window_of items.now) run.item)) runs.now) result }
{
    match wide_of(kind) {
        Some(wide) => reach_fault(wide, runs_bytes(items, runs)),
        None => None,
    }
}

/// Why the column that is spread out has more bytes than its offsets reach. Where there is no reason, its values have an encoding.
fn own_fault(typed: &Typed, array: &RawArray, column: usize) -> Option<ListFault>
    requires types { TypedOk (typed_of typed.now) }
    requires rows { CanSpread column (typed_of typed.now) array.now }
    requires few { length (Explode column (rows_of (typed_of typed.now) array.now)) ≤ window_limit }
    ensures none { IfNone result (FitsAt column (typed_of typed.now) array.now column) }
    ensures some { IfSome result (λ fault. IsLong (get_or (exploded_kinds column (typed_of typed.now)) column kinds.Null)
        (spread_values column (typed_of typed.now) array.now column) fault) }
{
    kinds_of_typed(typed);
    lawful_trees();
    chunks_are_tables();
    let list = child_kinds(typed, column);
    let items = child_kinds(list, 0);
    let child = array.child(column);
    lawful_values_fit(items, child.child(0));
    let kind = flat_kind(items);
    let lists = list_column(typed, array, column);
    lists_fault(kind, &lists)
}

/// Why another column has more bytes than its offsets reach. Where there is no reason, its values have an encoding.
fn other_fault(
    typed: &Typed,
    array: &RawArray,
    column: usize,
    k: usize,
    runs: &[Run],
) -> Option<ListFault>
    requires types { TypedOk (typed_of typed.now) }
    requires rows { CanSpread column (typed_of typed.now) array.now }
    requires runs { runs.now ≡ chunk_runs column (typed_of typed.now) array.now }
    requires few { length (Explode column (rows_of (typed_of typed.now) array.now)) ≤ window_limit }
    requires inside { k < length (children_of (typed_of typed.now)) }
    requires other { k ≢ column }
    ensures none { IfNone result (FitsAt column (typed_of typed.now) array.now k) }
    ensures some { IfSome result (λ fault. IsLong (get_or (exploded_kinds column (typed_of typed.now)) k kinds.Null)
        (spread_values column (typed_of typed.now) array.now k) fault) }
{
    kinds_of_typed(typed);
    lawful_trees();
    chunks_are_tables();
    let kid = child_kinds(typed, k);
    let child = array.child(k);
    lawful_values_fit(kid, child);
    let kind = flat_kind(kid);
    let items = Col::of(kid, child);
    runs_fault(kind, &items, runs)
}

/// Why a column of the new rows has more bytes than its offsets reach. Where there is no reason, its values have an encoding.
fn column_fault(
    typed: &Typed,
    array: &RawArray,
    column: usize,
    k: usize,
    runs: &[Run],
) -> Option<ListFault>
    requires types { TypedOk (typed_of typed.now) }
    requires rows { CanSpread column (typed_of typed.now) array.now }
    requires runs { runs.now ≡ chunk_runs column (typed_of typed.now) array.now }
    requires few { length (Explode column (rows_of (typed_of typed.now) array.now)) ≤ window_limit }
    requires inside { k < length (children_of (typed_of typed.now)) }
    ensures none { IfNone result (FitsAt column (typed_of typed.now) array.now k) }
    ensures some { IfSome result (λ fault. IsLong (get_or (exploded_kinds column (typed_of typed.now)) k kinds.Null)
        (spread_values column (typed_of typed.now) array.now k) fault) }
{
    if k == column {
        own_fault(typed, array, column)
    } else {
        other_fault(typed, array, column, k, runs)
    }
}

/// Why a column of the new rows has more bytes than its offsets reach. Where there is no reason, the values of each have an encoding.
pub(crate) fn bytes_fault(
    typed: &Typed,
    array: &RawArray,
    column: usize,
    runs: &[Run],
) -> Option<ListFault>
    requires types { TypedOk (typed_of typed.now) }
    requires rows { CanSpread column (typed_of typed.now) array.now }
    requires runs { runs.now ≡ chunk_runs column (typed_of typed.now) array.now }
    requires few { length (Explode column (rows_of (typed_of typed.now) array.now)) ≤ window_limit }
    ensures none { IfNone result (AllFit column (typed_of typed.now) array.now) }
    ensures some { IfSome result (λ fault. (k : ℕ) × (k < length (children_of (typed_of typed.now)))
        × IsLong (get_or (exploded_kinds column (typed_of typed.now)) k kinds.Null) (spread_values column (typed_of typed.now) array.now k) fault) }
{
    for k in 0..child_count(typed) {
        if let Some(fault) = column_fault(typed, array, column, k, runs) {
            return Some(fault);
        }
    }
    None
}
