//! The columns of grouped rows.
ghost use Rattle.std.specs.Prelude.{◌≡◌, ◌+◌, ◌-◌, ◌*◌, ◌<◌, ◌≤◌, ◌≤ℤ◌, ◌==◌, if◌then◌else◌, ℕ, pos, None, IfOk, OnOk, MatchResult, length, map};
ghost use Rattle.data_types.specs.promise.KindTrees.{kind_in};
ghost use Rattle.data_types.specs.KindTrees.{TypedOk};
ghost use Rattle.data_types.specs.promise.TypedView.{typed_of};
ghost use Rattle.data_types.specs.TypedView.{kids_of, kind_of};
ghost use Rattle.layout_rules.specs.promise.Layout.{first};
ghost use Rattle.layout_rules.specs.promise.Values.{each, rows_of, tree_items};
ghost use Rattle.raw_array.specs.promise.Members.{Cost, members_of};
ghost use Rattle.raw_array.specs.Members.{cost_of_all};
ghost use Rattle.tree_model.specs.promise.TreeParts.{IsLive, children_of};
ghost use Rattle.tree_model.specs.promise.TreeData.{trees};
ghost use Rattle.unit_pass.specs.promise.Tally.{risen};
ghost use Rattle.unit_pass.specs.declared.pass.TheConstants.{SUPPLY};
ghost use Rattle.list_cols.specs.NestedGroups.{AreRowGroups, CanNest};
ghost use Rattle.list_cols.specs.promise.NestedTables.{nested_column};
ghost use Rattle.list_cols.specs.NestedTables.{FitColumn, nodes_to};

use crate::nest_lists::{list_column, picked_column};
use array_laws::{flat_types_have_no_children, lawful_values_fit};
use data_types::{Typed, kinds_of_typed};
use layout_rules::{chunks_are_tables, lawful_root, lawful_trees};
use raw_array::{RawArray, release_all};
use row_groups::Groups;
use std::alloc::Global;
use unit_pass::{NoMemory, Pass, SUPPLY};

/// The item of each column that is a chunk's first row.
pub(crate) fn first_row(array: &RawArray) -> u64
    requires live { IsLive array.now }
    requires placed { pos 0 ≤ℤ (members_of array.now).offset }
    ensures { result ≡ first (members_of array.now) }
{
    array.offset() as u64
}

/// How many rows a chunk has.
pub(crate) fn row_count(array: &RawArray) -> u64
    requires live { IsLive array.now }
    requires sized { pos 0 ≤ℤ (members_of array.now).length }
    ensures { result ≡ tree_items array.now }
{
    array.length() as u64
}

/// A column of the grouped rows: the distinct values of the column itself, and a list for each of them of another.
fn nested_column(
    alloc: Global,
    typed: &Typed,
    array: &RawArray,
    column: usize,
    k: usize,
    groups: &Groups,
    pass: &mut Pass,
) -> Result<RawArray, NoMemory>
    requires types { TypedOk (typed_of typed.now) }
    requires chunk { CanNest column (typed_of typed.now) array.now }
    requires groups { AreRowGroups column (typed_of typed.now) array.now groups.now }
    requires inside { k < length (kids_of typed.now) }
    requires units { 6 ≤ pass.old.units }
    ensures made { IfOk result (λ made. made
        ≡ nested_column column (map kind_in (children_of (typed_of typed.now))) (rows_of (typed_of typed.now) array.now) k) }
    ensures fits { OnOk result (FitColumn column (map kind_in (children_of (typed_of typed.now))) (rows_of (typed_of typed.now) array.now) k) }
    ensures units { MatchResult result (λ made. pass.new.units + Cost made ≡ pass.old.units) (λ _. pass.new.units ≡ pass.old.units) }
    ensures left { IfOk result (λ _. pass.old.units ≤ pass.new.units + 6) }
    ensures least { OnOk result (pass.new.units + (if k == column then 1 else 2) ≤ pass.old.units) }
    ensures blocks { OnOk result (pass.new.blocks ≡ risen pass.old.blocks (pass.old.units - pass.new.units - (if k == column then 1 else 2))) }
    ensures nodes { OnOk result (pass.new.nodes ≡ risen pass.old.nodes (if k == column then 1 else 2)) }
{
    kinds_of_typed(typed);
    lawful_trees();
    chunks_are_tables();
    lawful_root(typed, array);
    flat_types_have_no_children();
    let kid = &typed.kids[k];
    kinds_of_typed(kid);
    let items = array.child(k);
    lawful_values_fit(kid, items);
    let start = first_row(array);
    if k == column {
        picked_column(alloc, kid, items, start, &groups.firsts, pass)
    } else {
        list_column(alloc, kid, items, start, groups, pass)
    }
}

/// All columns of the grouped rows.
pub(crate) fn nested_columns(
    alloc: Global,
    typed: &Typed,
    array: &RawArray,
    column: usize,
    groups: &Groups,
    pass: &mut Pass,
) -> Result<Vec<RawArray>, NoMemory>
    requires types { TypedOk (typed_of typed.now) }
    requires chunk { CanNest column (typed_of typed.now) array.now }
    requires groups { AreRowGroups column (typed_of typed.now) array.now groups.now }
    requires units { 6 * length (kids_of typed.now) ≤ pass.old.units }
    ensures columns { IfOk result (λ columns. columns.items
        ≡ each (nested_column column (map kind_in (children_of (typed_of typed.now))) (rows_of (typed_of typed.now) array.now)) 0 (length (kids_of typed.now))) }
    ensures fits { OnOk result ((k : ℕ) → k < length (kids_of typed.now)
        → FitColumn column (map kind_in (children_of (typed_of typed.now))) (rows_of (typed_of typed.now) array.now) k) }
    ensures units { MatchResult result
        (λ columns. pass.new.units + cost_of_all (trees columns.items) ≡ pass.old.units)
        (λ _. pass.new.units ≡ pass.old.units) }
    ensures left { IfOk result (λ _. pass.old.units ≤ pass.new.units + 6 * length (kids_of typed.now)) }
    ensures least { OnOk result (pass.new.units + nodes_to 1 column (length (kids_of typed.now)) ≤ pass.old.units) }
    ensures blocks { OnOk result (pass.new.blocks
        ≡ risen pass.old.blocks (pass.old.units - pass.new.units - nodes_to 1 column (length (kids_of typed.now)))) }
    ensures nodes { OnOk result (pass.new.nodes ≡ risen pass.old.nodes (nodes_to 1 column (length (kids_of typed.now)))) }
{
    let count = typed.kids.len();
    let Ok(mut columns) = Vec::with_capacity(alloc, count) else {
        return Err(NoMemory);
    };
    for k in 0..count {
        match nested_column(alloc, typed, array, column, k, groups, pass) {
            Ok(made) => columns.push_reserved(made),
            Err(NoMemory) => {
                release_all(columns, pass);
                return Err(NoMemory);
            }
        }
    }
    Ok(columns)
}
