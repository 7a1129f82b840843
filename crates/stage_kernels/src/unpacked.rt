//! A struct column's children, moved into its place.
ghost use Rattle.std.specs.Prelude.{◌≡◌, ◌+◌, ◌-◌, ◌<◌, ◌≤◌, ◌≤ℤ◌, ℕ, pos, [], ◌∷◌, ◌++◌, All, length, map, take, drop, vec_len, vec_capacity};
ghost use Rattle.std.specs.Prelude.{if◌then◌else◌, is_ok, IfOk, MatchResult};
ghost use Rattle.tree_model.specs.promise.TreeData.{Released, trees};
ghost use Rattle.tree_model.specs.promise.TreeParts.{IsLive, children_of, child_at};
ghost use Rattle.tree_model.specs.Tree.{Depth, with_child};
ghost use Rattle.raw_array.specs.promise.Members.{ArrayTree, Cost, members_of};
ghost use Rattle.raw_array.specs.Members.{cost_of_all};
ghost use Rattle.raw_array.specs.Windows.{FitsWindow, Window};
ghost use Rattle.unit_pass.specs.promise.Tally.{risen};
ghost use Rattle.unit_pass.specs.declared.pass.TheConstants.{SUPPLY};
ghost use Rattle.layout_rules.specs.promise.Layout.{natural};
ghost use Rattle.arr_export.specs.ArrayTrees.{IsColumn};
ghost use Rattle.array_laws.specs.Picking.{Unpacked, cut_children};
ghost use Rattle.layout_rules.specs.promise.Rules.{window_limit};
ghost use Rattle.stages.specs.Children.{ShowsChildren};
ghost use Rattle.stage_kernels.specs.Unpacks.{HasStruct, ShowsInner};

use arr_export::export_table;
use arr_move::{count_children, move_children, slice};
use array_laws::{
    column_types_follow_picks, columns_can_be_taken, columns_of_a_table,
    lawful_structs_have_columns, taken_columns_are_no_deeper, taken_columns_cost_no_more,
    windows_are_parts,
};
use raw_array::{Gone, PartlyMoved, RawArray, release_all, windows_keep_measures};
use std::alloc::Global;
use unit_pass::{NoMemory, Pass, SUPPLY};

/// A chunk with a struct's columns in the struct's place, each cut to the items that it shows ("The Arrow C Data Interface",
/// "Moving child arrays"). No block is made or copied. The new struct of all columns draws one unit; the old one and the
/// emptied struct are released. Where memory runs out all is released.
pub(crate) fn unpack_column(
    alloc: Global,
    chunk: RawArray,
    place: usize,
    pass: &mut Pass,
) -> Result<RawArray, NoMemory>
    requires chunk { HasStruct place chunk }
    requires unit { 1 ≤ pass.old.units }
    requires room { pass.old.units + Cost chunk ≤ SUPPLY }
    ensures tree { IfOk result (λ taken. taken ≡ Unpacked chunk place) }
    ensures cost { IfOk result (λ taken. Cost taken ≤ Cost chunk) }
    ensures units { MatchResult result
        (λ taken. pass.new.units + Cost taken ≡ pass.old.units + Cost chunk)
        (λ _. pass.new.units ≡ pass.old.units + Cost chunk) }
    ensures nodes { pass.new.nodes ≡ (if is_ok result then risen pass.old.nodes 1 else pass.old.nodes) }
    ensures blocks { pass.new.blocks ≡ pass.old.blocks }
{
    structs_can_be_unpacked();
    taken_columns_cost_no_more();
    chunk.levels_are_few();
    let rows = chunk.length();
    let columns = unpacked_children(alloc, chunk, place, pass)?;
    match export_table(alloc, columns, rows, pass) {
        Ok(taken) => Ok(taken),
        Err((columns, NoMemory)) => {
            release_all(columns, pass);
            Err(NoMemory)
        }
    }
}

/// A law: a chunk with a struct column has children that can be cut to what it shows, and so has the struct; the struct's
/// children in its place make the columns of a table.
fn structs_can_be_unpacked()
    ensures shown { (place : ℕ) (chunk : ArrayTree) → HasStruct place chunk → ShowsInner place chunk }
    ensures columns { (place : ℕ) (chunk : ArrayTree) → HasStruct place chunk → Depth chunk ≤ 128
        → All (IsColumn (natural (members_of chunk).length)) (children_of (Unpacked chunk place)) }
    ensures few_columns { (place : ℕ) (chunk : ArrayTree) → HasStruct place chunk → Depth chunk ≤ 128
        → length (children_of (Unpacked chunk place)) < Cost chunk }
    ensures few_rows { (place : ℕ) (chunk : ArrayTree) → HasStruct place chunk → (members_of chunk).length ≤ℤ pos window_limit }
{
    lawful_structs_have_columns();
    windows_are_parts();
    columns_can_be_taken();
    column_types_follow_picks();
    columns_of_a_table();
    taken_columns_cost_no_more();
    taken_columns_are_no_deeper();
}

/// The columns of an array with those of a struct in its place; what is left of the array is released. Where memory runs out
/// all is released.
fn unpacked_children(
    alloc: Global,
    array: RawArray,
    place: usize,
    pass: &mut Pass,
) -> Result<Vec<RawArray>, NoMemory>
    requires shown { ShowsInner place array }
    requires room { pass.old.units + Cost array ≤ SUPPLY }
    ensures columns { IfOk result (λ columns. columns.items ≡ children_of (Unpacked array place)) }
    ensures units { MatchResult result
        (λ columns. pass.new.units + cost_of_all (trees columns.items) ≡ pass.old.units + Cost array)
        (λ _. pass.new.units ≡ pass.old.units + Cost array) }
    ensures more { IfOk result (λ _. pass.old.units ≤ pass.new.units) }
    ensures nodes { pass.new.nodes ≡ pass.old.nodes }
    ensures blocks { pass.new.blocks ≡ pass.old.blocks }
{
    let count = count_children(&array) - 1 + count_children(array.child(place));
    let Ok(mut columns) = Vec::with_capacity(alloc, count) else {
        array.end(pass);
        return Err(NoMemory);
    };
    move_unpacked_children(array, place, &mut columns, pass);
    Ok(columns)
}

/// Moves all columns of an array, and those of a struct in its place, into an empty list that has room for them, and
/// releases what is left of the array.
fn move_unpacked_children(
    array: RawArray,
    place: usize,
    columns: &mut Vec<RawArray>,
    pass: &mut Pass,
)
    requires shown { ShowsInner place array }
    requires empty { columns.old.items ≡ [] }
    requires room { length (children_of array) + length (children_of (child_at array place)) ≤ vec_capacity columns.old + 1 }
    requires units { pass.old.units + Cost array ≤ SUPPLY }
    ensures columns { columns.new.items ≡ children_of (Unpacked array place) }
    ensures units { pass.new.units + cost_of_all (trees columns.new.items) ≡ pass.old.units + Cost array }
    ensures more { pass.old.units + 1 ≤ pass.new.units }
    ensures nodes { pass.new.nodes ≡ pass.old.nodes }
    ensures blocks { pass.new.blocks ≡ pass.old.blocks }
{
    windows_keep_measures();
    let count = count_children(&array);
    let off = array.offset();
    let len = array.length();
    let mut moved = PartlyMoved::begin(array);
    move_children(&mut moved, 0, place, off, len, columns);
    match moved.take_child(place) {
        Ok(inner) => move_all_children(slice(inner, off, len), columns, pass),
        Err(Gone) => unreachable!(),
    }
    move_children(&mut moved, place + 1, count, off, len, columns);
    moved.finish(pass);
}

/// Moves all columns of a struct, each cut to the items that the struct shows, behind those of a list that has room for
/// them, and releases the struct.
fn move_all_children(array: RawArray, columns: &mut Vec<RawArray>, pass: &mut Pass)
    requires shown { ShowsChildren array }
    requires room { vec_len columns.old + length (children_of array) ≤ vec_capacity columns.old }
    requires units { pass.old.units + Cost array ≤ SUPPLY }
    ensures columns { columns.new.items ≡ columns.old.items ++ cut_children array }
    ensures len { vec_len columns.new ≡ vec_len columns.old + length (children_of array) }
    ensures capacity { vec_capacity columns.new ≡ vec_capacity columns.old }
    ensures units { pass.new.units + cost_of_all (trees columns.new.items) ≡ pass.old.units + Cost array + cost_of_all (trees columns.old.items) }
    ensures less { pass.new.units ≤ pass.old.units + Cost array }
    ensures more { pass.old.units ≤ pass.new.units }
    ensures nodes { pass.new.nodes ≡ pass.old.nodes }
    ensures blocks { pass.new.blocks ≡ pass.old.blocks }
{
    let count = count_children(&array);
    let off = array.offset();
    let len = array.length();
    let mut moved = PartlyMoved::begin(array);
    move_children(&mut moved, 0, count, off, len, columns);
    moved.finish(pass);
}
