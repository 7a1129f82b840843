//! The parts of a struct moved under a new top ("The Arrow C Data Interface", "Moving child arrays").
ghost use Rattle.std.specs.Prelude.{◌≡◌, ◌+◌, ◌<◌, ◌≤◌, ◌≤ℤ◌, ℕ, pos, length, map};
ghost use Rattle.tree_model.specs.promise.TreeParts.{IsLive, child_at, children_of};
ghost use Rattle.tree_model.specs.promise.TreeData.{Released};
ghost use Rattle.tree_model.specs.Tree.{Depth, with_child};
ghost use Rattle.raw_array.specs.promise.Members.{Cost};
ghost use Rattle.raw_array.specs.Windows.{FitsWindow, Window};
ghost use Rattle.tree_model.specs.promise.TreeCost.{Nodes};
ghost use Rattle.arr_move.specs.TreeActs.{with_children};

use arr_move::slice;
use raw_array::{Gone, PartlyMoved, RawArray, windows_keep_measures};
use raw_schema::{Gone as NoField, PartlyMovedSchema, RawSchema};
use unit_pass::{Pass, SUPPLY};

// ---- schemas

/// The new top over a schema's children, in their order. The old top is released.
pub(crate) fn move_schemas(schema: RawSchema, top: RawSchema, pass: &mut Pass) -> RawSchema
    requires live { IsLive schema }
    requires places { length (children_of top) ≡ length (children_of schema) }
    requires vacant { (k : ℕ) → child_at top k ≡ Released }
    requires room { pass.old.units + (Nodes schema + Nodes top) ≤ SUPPLY }
    ensures top { result ≡ with_children top (children_of schema) }
    ensures units { pass.new.units + Nodes result ≡ pass.old.units + (Nodes schema + Nodes top) }
    ensures blocks { pass.new.blocks ≡ pass.old.blocks }
    ensures nodes { pass.new.nodes ≡ pass.old.nodes }
{
    let mut top = top;
    schema.levels_are_few();
    let count = schema.n_children() as usize;
    let mut moved = PartlyMovedSchema::begin(schema);
    move_fields(&mut moved, count, &mut top);
    moved.finish(pass);
    top
}

/// Moves all children into the places of the new top.
fn move_fields(moved: &mut PartlyMovedSchema, count: usize, top: &mut RawSchema)
    requires count { count ≡ length (children_of moved.old) }
    requires shallow { Depth moved.old ≤ 128 }
    requires places { length (children_of top.old) ≡ length (children_of moved.old) }
    requires vacant { (k : ℕ) → child_at top.old k ≡ Released }
    ensures top { top.new ≡ with_children top.old (children_of moved.old) }
    ensures cost { Nodes moved.new + Nodes top.new ≡ Nodes moved.old + Nodes top.old }
{
    for place in 0..count {
        move_field(moved, place, top);
    }
}

/// Moves one child into the same place of the new top; a child that is released leaves the place as it is.
fn move_field(moved: &mut PartlyMovedSchema, place: usize, top: &mut RawSchema)
    requires inside { place < length (children_of moved.old) }
    requires shallow { Depth (child_at moved.old place) ≤ 127 }
    requires place { place < length (children_of top.old) }
    requires vacant { child_at top.old place ≡ Released }
    ensures moved { moved.new ≡ with_child moved.old place Released }
    ensures top { top.new ≡ with_child top.old place (child_at moved.old place) }
{
    match moved.take_child(place) {
        Ok(mut child) => {
            top.put_child(place, &mut child);
            child.discard();
        }
        Err(NoField) => {}
    }
}

// ---- arrays

/// The new top over an array's children, each cut to a window, in their order. The old top is released.
pub(crate) fn move_arrays(
    array: RawArray,
    top: RawArray,
    off: i64,
    len: i64,
    pass: &mut Pass,
) -> RawArray
    requires live { IsLive array }
    requires off { pos 0 ≤ℤ off }
    requires len { pos 0 ≤ℤ len }
    requires fit { (k : ℕ) → k < length (children_of array) → FitsWindow (child_at array k) off len }
    requires places { length (children_of top) ≡ length (children_of array) }
    requires vacant { (k : ℕ) → child_at top k ≡ Released }
    requires room { pass.old.units + (Cost array + Cost top) ≤ SUPPLY }
    ensures top { result ≡ with_children top (map (λ c. Window c off len) (children_of array)) }
    ensures units { pass.new.units + Cost result ≡ pass.old.units + (Cost array + Cost top) }
    ensures blocks { pass.new.blocks ≡ pass.old.blocks }
    ensures nodes { pass.new.nodes ≡ pass.old.nodes }
{
    let mut top = top;
    array.levels_are_few();
    let count = array.n_children() as usize;
    let mut moved = PartlyMoved::begin(array);
    move_columns(&mut moved, count, &mut top, off, len);
    moved.finish(pass);
    top
}

/// Moves all children, cut to the window, into the places of the new top.
fn move_columns(moved: &mut PartlyMoved, count: usize, top: &mut RawArray, off: i64, len: i64)
    requires count { count ≡ length (children_of moved.old) }
    requires off { pos 0 ≤ℤ off }
    requires len { pos 0 ≤ℤ len }
    requires fit { (k : ℕ) → k < length (children_of moved.old) → FitsWindow (child_at moved.old k) off len }
    requires shallow { Depth moved.old ≤ 128 }
    requires places { length (children_of top.old) ≡ length (children_of moved.old) }
    requires vacant { (k : ℕ) → child_at top.old k ≡ Released }
    ensures top { top.new ≡ with_children top.old (map (λ c. Window c off len) (children_of moved.old)) }
    ensures cost { Cost moved.new + Cost top.new ≡ Cost moved.old + Cost top.old }
{
    for place in 0..count {
        move_column(moved, place, top, off, len);
    }
}

/// Moves one child, cut to the window, into the same place of the new top.
fn move_column(moved: &mut PartlyMoved, place: usize, top: &mut RawArray, off: i64, len: i64)
    requires off { pos 0 ≤ℤ off }
    requires len { pos 0 ≤ℤ len }
    requires inside { place < length (children_of moved.old) }
    requires fits { FitsWindow (child_at moved.old place) off len }
    requires shallow { Depth (child_at moved.old place) ≤ 127 }
    requires place { place < length (children_of top.old) }
    requires vacant { child_at top.old place ≡ Released }
    ensures moved { moved.new ≡ with_child moved.old place Released }
    ensures top { top.new ≡ with_child top.old place (Window (child_at moved.old place) off len) }
{
    windows_keep_measures();
    match moved.take_child(place) {
        Ok(child) => {
            let mut child = slice(child, off, len);
            top.put_child(place, &mut child);
            child.discard();
        }
        Err(Gone) => unreachable!(),
    }
}
