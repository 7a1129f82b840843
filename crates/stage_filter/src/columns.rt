//! New columns of some items of columns, at all depths, in the place of the columns.
ghost use Rattle.std.specs.Prelude.{◌≡◌, ◌+◌, ◌<◌, ◌≤◌, ◌≤ℤ◌, pos, [], length, map, vec_capacity, IfOk, OnOk, OnErr};
ghost use Rattle.data_types.specs.ColumnView.{column_of, kind_of};
ghost use Rattle.tree_model.specs.promise.TreeData.{Released, trees};
ghost use Rattle.tree_model.specs.promise.TreeParts.{child_at, children_of};
ghost use Rattle.tree_model.specs.Tree.{with_child};
ghost use Rattle.unit_pass.specs.declared.pass.TheConstants.{SUPPLY};
ghost use Rattle.raw_array.specs.promise.Members.{Cost, members_of};
ghost use Rattle.raw_array.specs.Members.{cost_of_all};
ghost use Rattle.data_types.specs.promise.ColumnKinds.{type_of_columns, type_of_kind};
ghost use Rattle.data_types.specs.KindTrees.{TypedOk};
ghost use Rattle.layout_rules.specs.promise.Layout.{first};
ghost use Rattle.data_types.specs.promise.TypedView.{typed_of};
ghost use Rattle.stage_filter.specs.Kept.{rows_at};
ghost use Rattle.stage_filter.specs.Moving.{AreFiltered, CanMove, CanMoveRows, IsFiltered, IsFilteredStruct};
ghost use Rattle.stage_filter.specs.Plain.{most_cost, most_of_columns};

use crate::column::filtered_values;
use crate::dictionary::filtered_entries;
use arr_export::export_table;
use data_types::{ColKind, ColumnType, Typed, kinds_of_typed};
use layout_rules::lawful_trees;
use raw_array::{Gone, PartlyMoved, RawArray, release_all};
use std::alloc::Global;
use unit_pass::{NoMemory, Pass, SUPPLY};

/// The array of the items of these numbers, in their order, in the place of the array, which is released. The numbers are counted
/// from an item of the array on. Where memory runs out all units are back.
#[cycle(filtered)]
fn filtered_kind(
    alloc: Global,
    kind: &ColKind,
    typed: &Typed,
    array: RawArray,
    start: u64,
    kept: &[u32],
    pass: &mut Pass,
) -> Result<RawArray, NoMemory>
    requires typed { typed_of typed.now ≡ type_of_kind (kind_of kind.now) }
    requires types { TypedOk (typed_of typed.now) }
    requires items { CanMove (kind_of kind.now) array start kept.now }
    requires units { most_cost (kind_of kind.now) ≤ pass.old.units }
    requires room { pass.old.units + Cost array ≤ SUPPLY }
    ensures moved { IfOk result (λ made. IsFiltered (kind_of kind.now) array start kept.now made pass.old pass.new) }
    ensures units_back { OnErr result (pass.new.units ≡ pass.old.units + Cost array) }
{
    match kind {
        ColKind::Flat(kind) => filtered_values(alloc, kind, typed, array, start, kept, pass),
        ColKind::Dict(kind) => filtered_entries(alloc, kind, array, start, kept, pass),
        ColKind::Columns(columns) => {
            filtered_struct(alloc, columns.as_slice(), typed, array, start, kept, pass)
        }
    }
}

/// The struct of the rows of these numbers, in their order, in the place of the struct, which is released. Where memory runs out
/// all units are back.
#[cycle(filtered)]
pub(crate) fn filtered_struct(
    alloc: Global,
    columns: &[ColumnType],
    typed: &Typed,
    array: RawArray,
    start: u64,
    kept: &[u32],
    pass: &mut Pass,
) -> Result<RawArray, NoMemory>
    requires typed { typed_of typed.now ≡ type_of_columns (map column_of columns.now) }
    requires types { TypedOk (typed_of typed.now) }
    requires rows { CanMoveRows (map column_of columns.now) array start kept.now }
    requires units { 1 + most_of_columns (map column_of columns.now) ≤ pass.old.units }
    requires room { pass.old.units + Cost array ≤ SUPPLY }
    ensures moved { IfOk result (λ made. IsFilteredStruct (map column_of columns.now) array start kept.now made pass.old pass.new) }
    ensures units_back { OnErr result (pass.new.units ≡ pass.old.units + Cost array) }
{
    lawful_trees();
    let arrays = filtered_columns(alloc, columns, typed, array, start, kept, pass)?;
    match export_table(alloc, arrays, kept.len() as i64, pass) {
        Ok(made) => Ok(made),
        Err((arrays, NoMemory)) => {
            release_all(arrays, pass);
            Err(NoMemory)
        }
    }
}

/// The arrays of the columns of these rows, one after the other; what is left of the struct is released.
#[cycle(filtered)]
fn filtered_columns(
    alloc: Global,
    columns: &[ColumnType],
    typed: &Typed,
    array: RawArray,
    start: u64,
    kept: &[u32],
    pass: &mut Pass,
) -> Result<Vec<RawArray>, NoMemory>
    requires typed { typed_of typed.now ≡ type_of_columns (map column_of columns.now) }
    requires types { TypedOk (typed_of typed.now) }
    requires rows { CanMoveRows (map column_of columns.now) array start kept.now }
    requires units { most_of_columns (map column_of columns.now) ≤ pass.old.units }
    requires room { pass.old.units + Cost array ≤ SUPPLY }
    ensures moved { IfOk result (λ arrays. AreFiltered (map column_of columns.now) array start kept.now
        (rows_at (type_of_columns (map column_of columns.now)) array start kept.now) arrays.items pass.old pass.new) }
    ensures units { IfOk result (λ arrays. pass.new.units + cost_of_all (trees arrays.items) ≡ pass.old.units + Cost array) }
    ensures units_back { OnErr result (pass.new.units ≡ pass.old.units + Cost array) }
{
    lawful_trees();
    let Ok(mut arrays) = Vec::with_capacity(alloc, columns.len()) else {
        array.end(pass);
        return Err(NoMemory);
    };
    let mut moved = PartlyMoved::begin(array);
    let filled = move_columns(
        alloc,
        columns,
        typed,
        &mut moved,
        start,
        kept,
        &mut arrays,
        pass,
    );
    moved.finish(pass);
    match filled {
        Ok(()) => Ok(arrays),
        Err(NoMemory) => {
            release_all(arrays, pass);
            Err(NoMemory)
        }
    }
}

/// The number of items of the buffers that come before a struct's first.
fn first_of(array: &PartlyMoved) -> u64
    requires { pos 0 ≤ℤ (members_of array.now).offset }
    ensures { result ≡ first (members_of array.now) }
{
    array.offset() as u64
}

/// Puts the arrays of the columns of these rows into an empty list that has room for them. Each column is moved out of the struct.
/// Where memory runs out the list has those before.
#[cycle(filtered)]
fn move_columns(
    alloc: Global,
    columns: &[ColumnType],
    typed: &Typed,
    array: &mut PartlyMoved,
    start: u64,
    kept: &[u32],
    arrays: &mut Vec<RawArray>,
    pass: &mut Pass,
) -> Result<(), NoMemory>
    requires typed { typed_of typed.now ≡ type_of_columns (map column_of columns.now) }
    requires types { TypedOk (typed_of typed.now) }
    requires rows { CanMoveRows (map column_of columns.now) array.old start kept.now }
    requires units { most_of_columns (map column_of columns.now) ≤ pass.old.units }
    requires room { pass.old.units + Cost array.old ≤ SUPPLY }
    requires empty { arrays.old.items ≡ [] }
    requires capacity { length columns.now ≤ vec_capacity arrays.old }
    ensures moved { OnOk result (AreFiltered (map column_of columns.now) array.old start kept.now
        (rows_at (type_of_columns (map column_of columns.now)) array.old start kept.now) arrays.new.items pass.old pass.new) }
    ensures units { pass.new.units + (Cost array.new + cost_of_all (trees arrays.new.items)) ≡ pass.old.units + Cost array.old }
{
    lawful_trees();
    kinds_of_typed(typed);
    let inner = first_of(array) + start;
    for (k, column) in columns.iter().enumerate() {
        let kid = &typed.kids[k];
        match moved_child(alloc, &column.kind, kid, array, k, inner, kept, pass) {
            Ok(made) => arrays.push_reserved(made),
            Err(NoMemory) => return Err(NoMemory),
        }
    }
    Ok(())
}

/// The array of the items of these numbers of a child, which is moved out of its struct and released.
#[cycle(filtered)]
fn moved_child(
    alloc: Global,
    kind: &ColKind,
    typed: &Typed,
    array: &mut PartlyMoved,
    k: usize,
    start: u64,
    kept: &[u32],
    pass: &mut Pass,
) -> Result<RawArray, NoMemory>
    requires typed { typed_of typed.now ≡ type_of_kind (kind_of kind.now) }
    requires types { TypedOk (typed_of typed.now) }
    requires inside { k < length (children_of array.old) }
    requires items { CanMove (kind_of kind.now) (child_at array.old k) start kept.now }
    requires units { most_cost (kind_of kind.now) ≤ pass.old.units }
    requires room { pass.old.units + Cost array.old ≤ SUPPLY }
    ensures moved { IfOk result (λ made. IsFiltered (kind_of kind.now) (child_at array.old k) start kept.now made pass.old pass.new) }
    ensures taken { array.new ≡ with_child array.old k Released }
    ensures cost { Cost array.new + Cost (child_at array.old k) ≡ Cost array.old }
    ensures units_back { OnErr result (pass.new.units ≡ pass.old.units + Cost (child_at array.old k)) }
{
    lawful_trees();
    match array.take_child(k) {
        Ok(child) => filtered_kind(alloc, kind, typed, child, start, kept, pass),
        Err(Gone) => unreachable!(),
    }
}
