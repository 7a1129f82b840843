//! How long the text of a chunk's rows is once the lists of a column are spread out, found before a row is made.
ghost use Rattle.std.specs.Prelude.{◌≡◌, ◌+◌, ◌<◌, ◌≤◌, ◌^◌, IfOk, IsTrue, length};
ghost use Rattle.arr_import.specs.Cols.{window_of};
ghost use Rattle.arr_import.specs.Window.{IsStruct, item_at};
ghost use Rattle.data_types.specs.KindTrees.{TypedOk};
ghost use Rattle.data_types.specs.promise.Storage.{storage_of as storage_is};
ghost use Rattle.data_types.specs.promise.TypedView.{typed_of};
ghost use Rattle.data_types.specs.TypedView.{kids_of, kind_of};
ghost use Rattle.data_types.specs.declared.storage.Storage.TheVariants as storages;
ghost use Rattle.data_types.specs.ValueTexts.{text_limit};
ghost use Rattle.layout_rules.specs.promise.Values.{rows_of, tree_items};
ghost use Rattle.layout_rules.specs.promise.Walk.{ChunkOk, LayoutOk};
ghost use Rattle.list_cols.specs.promise.Faults.{most_columns, most_named};
ghost use Rattle.list_cols.specs.promise.Nested.{Explode, items_in};
ghost use Rattle.list_cols.specs.Spreading.{list_at};
ghost use Rattle.tree_top.specs.NewLengths.{exploded_length, most_lines};
ghost use Rattle.tree_model.specs.promise.TreeParts.{children_of};
ghost use Rattle.value_text.specs.Lengths.{AreSums, TellsKids};

use arr_import::{Col, ValueRef};
use data_types::{Storage, Typed, kinds_of_typed, storage_of};
use layout_rules::{chunks_are_tables, lawful_root, lawful_trees};
use raw_array::RawArray;
use std::alloc::Global;
use unit_pass::NoMemory;
use value_text::{
    FieldSums, Lengths, children_measured, field_length_at, field_sums, struct_length_at,
    text_bound,
};

/// The most bytes of a text.
const LIMIT: u64 = 1 << 31;

/// The most bytes that offsets of 32 bits name.
const MOST_NAMED: u64 = (1 << 31) - 1;

/// The number of items.
fn count_items(col: &Col<'_>) -> u64
    ensures count { result ≡ (window_of col.now).count }
    ensures small { result < 2 ^ 63 }
{
    col.len() as u64
}

/// How many items a list has; a null has none.
fn list_items(lists: &Col<'_>, i: u64) -> u64
    requires inside { i < (window_of lists.now).count }
    requires small { i < 2 ^ 63 }
    ensures { result ≡ length (items_in (item_at (window_of lists.now) i)) }
{
    match lists.value(i as i64) {
        ValueRef::Items(items) => count_items(&items),
        _ => 0,
    }
}

/// At most how many bytes the lines of the rows have that are made of a row with a list of this many items; the lengths are those of the
/// texts of the row and of the list. The row's text is written once for each item, with the item in the list's place, and a line's end.
fn lines_of(row: u32, list: u32, items: u64) -> u64
    ensures none { items ≡ 0 → result ≡ 0 }
    ensures most { result ≤ most_lines row list items }
{
    if items == 0 {
        return 0;
    }
    let line = u64::from(row.saturating_sub(list)) + 1;
    let inner = u64::from(list).saturating_sub(items.saturating_add(1));
    items.saturating_mul(line).saturating_add(inner)
}

/// At most how many bytes the text has of all rows that are made of a chunk's.
fn rows_length(
    typed: &Typed,
    array: &RawArray,
    lists: &Col<'_>,
    columns: &[Lengths],
    sums: &FieldSums,
    column: usize,
) -> u64
    requires lawful { LayoutOk (typed_of typed.now) array.now }
    requires storage { storage_is (kind_of typed.now) ≡ storages.Children }
    requires columns { TellsKids columns.now (kids_of typed.now) array.now (length (kids_of typed.now)) }
    requires sums { AreSums columns.now sums.now }
    requires inside { column < length (kids_of typed.now) }
    requires lists { item_at (window_of lists.now) ≡ list_at column (typed_of typed.now) array.now }
    requires count { (window_of lists.now).count ≡ tree_items array.now }
    ensures { result ≤ exploded_length column (rows_of (typed_of typed.now) array.now) }
{
    let mut sum = 3u64;
    for i in 0..count_items(lists) {
        let row = struct_length_at(typed, array, columns, sums, i);
        let list = field_length_at(typed, array, columns, column, i);
        sum = sum.saturating_add(lines_of(row, list, list_items(lists, i)));
    }
    sum
}

/// The most items that a list has.
fn most_items(lists: &Col<'_>) -> u64 {
    let mut most = 0;
    for i in 0..count_items(lists) {
        most = most.max(list_items(lists, i));
    }
    most
}

/// The bytes of a column's items, each as often as a list has items.
fn spread_bytes(items: &Col<'_>, lists: &Col<'_>) -> u64
    requires { (window_of items.now).count ≡ (window_of lists.now).count }
{
    let mut sum = 0u64;
    for i in 0..count_items(lists) {
        let bytes = match items.bytes(i as i64) {
            Some(bytes) => bytes.len() as u64,
            None => 0,
        };
        sum = sum.saturating_add(bytes.saturating_mul(list_items(lists, i)));
    }
    sum
}

/// Whether another column has more bytes than its offsets name, so that this is to be reported.
fn has_long_column(typed: &Typed, table: &Col<'_>, lists: &Col<'_>, column: usize) -> bool
    requires kind { IsStruct (window_of table.now).typed }
    requires kinds { (window_of table.now).typed ≡ typed_of typed.now }
    requires same { (window_of lists.now).count ≡ (window_of table.now).count }
{
    kinds_of_typed(typed);
    for k in 0..table.n_children() {
        let is_narrow = matches!(
            storage_of(&typed.kids[k].kind),
            Storage::Between { wide: false, .. }
        );
        if k != column && is_narrow && spread_bytes(&table.child(k), lists) > MOST_NAMED {
            return true;
        }
    }
    false
}

/// Whether the text of a chunk's rows with the lists of a column spread out has more than 2^31 bytes, though each column has as many
/// bytes as its offsets name. The columns are measured only where it isn't short anyway: a row is written once for each item of a list.
fn has_long_lines(
    alloc: Global,
    typed: &Typed,
    array: &RawArray,
    column: usize,
) -> Result<bool, NoMemory>
    requires types { TypedOk (typed_of typed.now) }
    requires chunk { ChunkOk (typed_of typed.now) array.now }
    requires inside { column < length (children_of (typed_of typed.now)) }
    ensures { IfOk result (λ long. IsTrue long → text_limit < exploded_length column (rows_of (typed_of typed.now) array.now)) }
{
    kinds_of_typed(typed);
    lawful_root(typed, array);
    lawful_trees();
    chunks_are_tables();
    let table = Col::of(typed, array);
    let lists = table.child(column);
    let repeated = most_items(&lists).saturating_add(1);
    if text_bound(typed, array).saturating_mul(repeated) <= LIMIT - 3 {
        return Ok(false);
    }
    let columns = children_measured(alloc, typed, array)?;
    let sums = field_sums(alloc, &columns)?;
    if rows_length(typed, array, &lists, &columns, &sums, column) <= LIMIT {
        return Ok(false);
    }
    Ok(!has_long_column(typed, &table, &lists, column))
}

/// Whether the text of the rows that are made of a chunk's has more than 2^31 bytes: where the number of rows shows it at once, since a row
/// has two bytes at least for its braces and its line's end, and two for each column; and else by the lengths of the columns' texts, where
/// each column has as many bytes as its offsets name.
pub(crate) fn is_exploded_too_long(
    alloc: Global,
    typed: &Typed,
    array: &RawArray,
    column: usize,
    rows: u64,
) -> Result<bool, NoMemory>
    requires types { TypedOk (typed_of typed.now) }
    requires chunk { ChunkOk (typed_of typed.now) array.now }
    requires inside { column < length (children_of (typed_of typed.now)) }
    requires few { length (children_of (typed_of typed.now)) ≤ most_columns }
    requires rows { rows ≡ length (Explode column (rows_of (typed_of typed.now) array.now)) }
    requires named { rows ≤ most_named }
    ensures { IfOk result (λ long. IsTrue long → text_limit < exploded_length column (rows_of (typed_of typed.now) array.now)) }
{
    kinds_of_typed(typed);
    lawful_trees();
    chunks_are_tables();
    let row_bytes = 2 + 2 * typed.kids.len() as u64;
    if rows * row_bytes > LIMIT - 3 {
        return Ok(true);
    }
    has_long_lines(alloc, typed, array, column)
}
