//! A chunk with another column in the place of one, by moves.
ghost use Rattle.std.specs.Prelude.{◌≡◌, ◌≤◌, ◌<◌, ◌+◌, ◌^◌, ◌≤ℤ◌, ◌-◌, ℕ, [], All, pos, length, vec_capacity, IfOk, MatchResult};
ghost use Rattle.tree_model.specs.promise.TreeParts.{child_at, children_of};
ghost use Rattle.tree_model.specs.promise.TreeData.{trees};
ghost use Rattle.tree_model.specs.Tree.{Depth};
ghost use Rattle.raw_array.specs.promise.Members.{ArrayTree, Cost, members_of};
ghost use Rattle.raw_array.specs.Members.{cost_of_all};
ghost use Rattle.unit_pass.specs.promise.Tally.{risen};
ghost use Rattle.unit_pass.specs.declared.pass.TheConstants.{SUPPLY};
ghost use Rattle.layout_rules.specs.promise.Layout.{natural};
ghost use Rattle.arr_export.specs.ArrayTrees.{IsColumn};
ghost use Rattle.array_laws.specs.Picking.{Replaced};
ghost use Rattle.stages.specs.Children.{ShowsChildren};
ghost use Rattle.dict_stage.specs.Recoded.{HasPlace};
ghost use Rattle.layout_rules.specs.promise.Rules.{window_limit};

use arr_export::export_table;
use arr_move::{count_children, move_children};
use array_laws::{
    column_types_follow_picks, columns_can_be_taken, lawful_structs_have_columns, windows_are_parts,
};
use raw_array::{PartlyMoved, RawArray, release_all, windows_keep_measures};
use std::alloc::Global;
use unit_pass::{NoMemory, Pass, SUPPLY};

/// A law: a chunk has children that can be cut to what it shows, and with another column in the place of one they make the
/// columns of a table.
fn columns_can_be_replaced()
    ensures shown { (place : ℕ) (chunk : ArrayTree) → HasPlace place chunk → ShowsChildren chunk }
    ensures inside { (place : ℕ) (chunk : ArrayTree) → HasPlace place chunk → place < length (children_of chunk) }
    ensures columns { (place : ℕ) (chunk column : ArrayTree) → HasPlace place chunk → Depth chunk ≤ 128
        → IsColumn (natural (members_of chunk).length) column
        → All (IsColumn (natural (members_of chunk).length)) (children_of (Replaced chunk place column)) }
    ensures as_many { (place : ℕ) (chunk column : ArrayTree) → HasPlace place chunk
        → length (children_of (Replaced chunk place column)) ≡ length (children_of chunk) }
    ensures placed { (place : ℕ) (chunk column : ArrayTree) → HasPlace place chunk → child_at (Replaced chunk place column) place ≡ column }
    ensures few_rows { (place : ℕ) (chunk : ArrayTree) → HasPlace place chunk → (members_of chunk).length ≤ℤ pos window_limit }
{
    lawful_structs_have_columns();
    windows_are_parts();
    columns_can_be_taken();
    column_types_follow_picks();
}

/// Moves all columns of an array, with another one in the place of one, into an empty list that has room for them, and
/// releases what is left of the array.
fn move_replaced_children(
    array: RawArray,
    place: usize,
    column: RawArray,
    columns: &mut Vec<RawArray>,
    pass: &mut Pass,
)
    requires shown { ShowsChildren array }
    requires inside { place < length (children_of array) }
    requires empty { columns.old.items ≡ [] }
    requires room { length (children_of array) ≤ vec_capacity columns.old }
    requires units { pass.old.units + Cost array ≤ SUPPLY }
    ensures columns { columns.new.items ≡ children_of (Replaced array place column) }
    ensures units { pass.new.units + cost_of_all (trees columns.new.items) ≡ pass.old.units + Cost array + Cost column }
    ensures more { pass.old.units ≤ pass.new.units }
    ensures nodes { pass.new.nodes ≡ pass.old.nodes }
    ensures blocks { pass.new.blocks ≡ pass.old.blocks }
{
    windows_keep_measures();
    let count = count_children(&array);
    let off = array.offset();
    let len = array.length();
    let mut moved = PartlyMoved::begin(array);
    move_children(&mut moved, 0, place, off, len, columns);
    columns.push_reserved(column);
    move_children(&mut moved, place + 1, count, off, len, columns);
    moved.finish(pass);
}

/// The columns of an array with another one in the place of one; what is left of the array is released. Where memory runs out
/// all is released.
fn replaced_children(
    alloc: Global,
    array: RawArray,
    place: usize,
    column: RawArray,
    pass: &mut Pass,
) -> Result<Vec<RawArray>, NoMemory>
    requires shown { ShowsChildren array }
    requires inside { place < length (children_of array) }
    requires room { pass.old.units + (Cost array + Cost column) ≤ SUPPLY }
    ensures columns { IfOk result (λ columns. columns.items ≡ children_of (Replaced array place column)) }
    ensures few { length (children_of array) < 2 ^ 32 - 1 }
    ensures units { MatchResult result
        (λ columns. pass.new.units + cost_of_all (trees columns.items) ≡ pass.old.units + (Cost array + Cost column))
        (λ _. pass.new.units ≡ pass.old.units + (Cost array + Cost column)) }
    ensures more { IfOk result (λ _. pass.old.units ≤ pass.new.units) }
    ensures nodes { pass.new.nodes ≡ pass.old.nodes }
    ensures blocks { pass.new.blocks ≡ pass.old.blocks }
{
    let count = count_children(&array);
    let Ok(mut columns) = Vec::with_capacity(alloc, count) else {
        array.end(pass);
        column.end(pass);
        return Err(NoMemory);
    };
    move_replaced_children(array, place, column, &mut columns, pass);
    Ok(columns)
}

/// The chunk with another column, which is long enough, in the place of one ("The Arrow C Data Interface", "Moving child
/// arrays"). The other columns are cut to the items that it shows, and no block is made. The new struct draws one unit; the old
/// one and the column that was there are released. Where memory runs out all is released.
pub(crate) fn replaced(
    alloc: Global,
    chunk: RawArray,
    place: usize,
    column: RawArray,
    pass: &mut Pass,
) -> Result<RawArray, NoMemory>
    requires chunk { HasPlace place chunk }
    requires column { IsColumn (natural (members_of chunk).length) column }
    requires unit { 1 ≤ pass.old.units }
    requires room { pass.old.units + (Cost chunk + Cost column) ≤ SUPPLY }
    ensures tree { IfOk result (λ made. made ≡ Replaced chunk place column) }
    ensures column { IfOk result (λ made. child_at made place ≡ column) }
    ensures units { MatchResult result
        (λ made. pass.new.units + Cost made ≡ pass.old.units + (Cost chunk + Cost column))
        (λ _. pass.new.units ≡ pass.old.units + (Cost chunk + Cost column)) }
    ensures nodes { IfOk result (λ _. pass.new.nodes ≡ risen pass.old.nodes 1) }
    ensures blocks { pass.new.blocks ≡ pass.old.blocks }
{
    columns_can_be_replaced();
    chunk.levels_are_few();
    let rows = chunk.length();
    let columns = replaced_children(alloc, chunk, place, column, pass)?;
    match export_table(alloc, columns, rows, pass) {
        Ok(made) => Ok(made),
        Err((columns, NoMemory)) => {
            release_all(columns, pass);
            Err(NoMemory)
        }
    }
}
