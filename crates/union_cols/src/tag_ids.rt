//! Which column each item of a union comes from, and where it is there.
ghost use Rattle.std.specs.Prelude.{◌≡◌, ◌<◌, ◌≤◌, ◌^◌, ◌∷◌, [], ℕ, true, IfOk, IfSome, IsTrue, if◌then◌else◌, get_or, length, map};
ghost use Rattle.data_types.specs.promise.Value.{Null, is_null};
ghost use Rattle.tree_model.specs.promise.TreeParts.{children_of};
ghost use Rattle.data_types.specs.KindTrees.{TypedOk};
ghost use Rattle.data_types.specs.promise.TypedView.{typed_of};
ghost use Rattle.layout_rules.specs.promise.Values.{rows_of, value_at};
ghost use Rattle.layout_rules.specs.promise.Walk.{ChunkOk, LayoutOk};
ghost use Rattle.arr_import.specs.declared.col.Col.{Col as ACol};
ghost use Rattle.arr_import.specs.Cols.{window_of};
ghost use Rattle.arr_import.specs.Window.{item_at};
ghost use Rattle.union_cols.specs.NullColumns.{AreAllBut, IsNullColumn};
ghost use Rattle.union_cols.specs.promise.Tags.{tag_of};
ghost use Rattle.union_cols.specs.Tags.{block_of, start_bytes};
ghost use Rattle.union_cols.specs.TagViews.{starts_in};

use arr_import::{Col, ValueRef};
use data_types::{Storage, Typed, kinds_of_typed, storage_of};
use layout_rules::{chunks_are_tables, lawful_root, lawful_trees};
use raw_array::RawArray;
use std::alloc::Global;
use unit_pass::NoMemory;

/// Whether each item of an array is null since its type has no values.
fn has_no_values(typed: &Typed, array: &RawArray) -> bool
    requires { LayoutOk (typed_of typed.now) array.now }
    ensures { IsTrue result → (i : ℕ) → value_at (typed_of typed.now) array.now i ≡ Null }
{
    kinds_of_typed(typed);
    lawful_root(typed, array);
    typed.dict.is_none() && matches!(storage_of(&typed.kind), Storage::Nothing)
}

/// Whether a column of a chunk is null in each row since its type has no values.
fn is_null_column(typed: &Typed, array: &RawArray, k: usize) -> bool
    requires types { TypedOk (typed_of typed.now) }
    requires chunk { ChunkOk (typed_of typed.now) array.now }
    requires inside { k < length (children_of (typed_of typed.now)) }
    ensures { IsTrue result → IsNullColumn (typed_of typed.now) array.now k }
{
    kinds_of_typed(typed);
    lawful_trees();
    chunks_are_tables();
    lawful_root(typed, array);
    let _items = Col::of(typed, array).child(k);
    has_no_values(&typed.kids[k], array.child(k))
}

/// The number of the first column of a chunk that has values. All before it are null in each row.
pub fn first_valued(typed: &Typed, array: &RawArray) -> Option<usize>
    requires types { TypedOk (typed_of typed.now) }
    requires chunk { ChunkOk (typed_of typed.now) array.now }
    ensures inside { IfSome result (λ k. k < length (children_of (typed_of typed.now))) }
    ensures nulls { IfSome result (λ k. (j : ℕ) → j < k → IsNullColumn (typed_of typed.now) array.now j) }
{
    kinds_of_typed(typed);
    for k in 0..typed.kids.len() {
        if !is_null_column(typed, array, k) {
            return Some(k);
        }
    }
    None
}

/// The numbers of the columns of a chunk that have values, in their order.
fn valued_columns(alloc: Global, typed: &Typed, array: &RawArray) -> Result<Vec<usize>, NoMemory>
    requires types { TypedOk (typed_of typed.now) }
    requires chunk { ChunkOk (typed_of typed.now) array.now }
    ensures { IfOk result (λ numbers. AreAllBut (IsNullColumn (typed_of typed.now) array.now) (length (children_of (typed_of typed.now))) numbers.items) }
{
    kinds_of_typed(typed);
    let mut numbers = Vec::new(alloc);
    for k in 0..typed.kids.len() {
        if !is_null_column(typed, array, k) {
            numbers.push(k)?;
        }
    }
    Ok(numbers)
}

/// Whether item `i` of the column of this number is null.
#[inline(always)]
fn is_null(columns: &[Col<'_>], k: usize, i: u64) -> bool
    requires column { k < length columns.now }
    requires inside { (d : ACol) → i < (window_of (get_or columns.now k d)).count }
    requires small { i < 2 ^ 63 }
    ensures { result ≡ is_null (get_or (map (λ c. item_at (window_of c) i) columns.now) k Null) }
{
    match columns[k].value(i as i64) {
        ValueRef::Null => true,
        _ => false,
    }
}

/// The number of the first of these columns of which item `i` isn't null, and 0 where all are null. Those of these numbers are looked
/// at; in all others the item is null.
fn tag_at(columns: &[Col<'_>], numbers: &[usize], i: u64) -> u8
    requires few { length columns.now ≤ 128 }
    requires numbers { AreAllBut (λ k. is_null (get_or (map (λ c. item_at (window_of c) i) columns.now) k Null) ≡ true) (length columns.now) numbers.now }
    requires inside { (k : ℕ) (d : ACol) → k < length columns.now → i < (window_of (get_or columns.now k d)).count }
    requires small { i < 2 ^ 63 }
    ensures { result ≡ tag_of (map (λ c. item_at (window_of c) i) columns.now) }
{
    for p in 0..numbers.len() {
        let k = numbers[p];
        if !is_null(columns, k, i) {
            return k as u8;
        }
    }
    0
}

/// The number of items.
fn count_items(table: &Col<'_>) -> u64
    ensures count { result ≡ (window_of table.now).count }
    ensures small { result < 2 ^ 63 }
{
    table.len() as u64
}

/// The ids of a chunk's rows: of each row the number of its first column that isn't null, and 0 where all are null. Room for all is
/// taken at once, before an item is read. Columns of nulls alone aren't looked at.
pub(crate) fn chunk_tags(
    alloc: Global,
    typed: &Typed,
    array: &RawArray,
) -> Result<Vec<u8>, NoMemory>
    requires types { TypedOk (typed_of typed.now) }
    requires chunk { ChunkOk (typed_of typed.now) array.now }
    requires few { length (children_of (typed_of typed.now)) ≤ 128 }
    ensures { IfOk result (λ ids. ids.items ≡ map tag_of (rows_of (typed_of typed.now) array.now)) }
{
    lawful_trees();
    chunks_are_tables();
    let table = Col::of(typed, array);
    table.rows_are_whole();
    let numbers = valued_columns(alloc, typed, array)?;
    let columns = table.columns(alloc)?;
    let count = count_items(&table);
    let mut ids = Vec::with_capacity(alloc, count as usize)?;
    for i in 0..count {
        ids.push_reserved(tag_at(&columns, &numbers, i));
    }
    Ok(ids)
}

/// The offsets 0, 1, 2 and so on, this many of them, with four bytes each.
pub(crate) fn row_starts(alloc: Global, count: u32) -> Result<Vec<u8>, NoMemory>
    ensures { IfOk result (λ bytes. bytes.items ≡ start_bytes count) }
{
    let mut bytes = Vec::with_capacity(alloc, 4 * count as usize)?;
    for i in 0..count {
        bytes.extend_from_slice(&i.to_le_bytes())?;
    }
    Ok(bytes)
}

/// The offsets of a dense union with this many items.
pub(crate) fn starts_if(
    alloc: Global,
    dense: bool,
    count: usize,
) -> Result<Option<Vec<u8>>, NoMemory>
    requires { IsTrue dense → count < 2 ^ 31 }
    ensures { IfOk result (λ starts. starts_in starts ≡ (if dense then block_of (start_bytes count) ∷ [] else [])) }
{
    if !dense {
        return Ok(None);
    }
    Ok(Some(row_starts(alloc, count as u32)?))
}
