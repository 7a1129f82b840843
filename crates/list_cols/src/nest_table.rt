//! The array of grouped rows.
ghost use Rattle.std.specs.Prelude.{◌≡◌, ◌≢◌, ◌⊎◌, ◌+◌, ◌-◌, ◌*◌, ◌<◌, ◌≤◌, ◌≤ℤ◌, true, false, pos, IfOk, IfErr, OnOk, MatchResult, length, map};
ghost use Rattle.col_build.specs.promise.Encoding.{narrow_limit};
ghost use Rattle.data_types.specs.promise.KindTrees.{kind_in};
ghost use Rattle.data_types.specs.KindTrees.{TypedOk};
ghost use Rattle.data_types.specs.promise.TypedView.{typed_of};
ghost use Rattle.data_types.specs.TypedView.{kids_of};
ghost use Rattle.layout_rules.specs.promise.Values.{rows_of, tree_items};
ghost use Rattle.raw_array.specs.promise.Members.{Cost, members_of};
ghost use Rattle.tree_model.specs.promise.TreeParts.{IsLive, children_of};
ghost use Rattle.data_types.specs.promise.Groups.{distinct};
ghost use Rattle.unit_pass.specs.promise.Tally.{risen};
ghost use Rattle.unit_pass.specs.declared.pass.TheConstants.{CHUNK};
ghost use Rattle.list_cols.specs.promise.Faults.{most_columns, most_named};
ghost use Rattle.list_cols.specs.promise.NestFaults.{is_nest_too_long};
ghost use Rattle.list_cols.specs.NestedGroups.{AreRowGroups, CanNest};
ghost use Rattle.list_cols.specs.NestedTables.{FitNested, nested_array};

use crate::fault::ListFault;
use crate::nest_alone::lone_table;
use crate::nest_columns::{first_row, nested_columns, row_count};
use crate::runs::MOST_NAMED;
use arr_export::export_table;
use array_laws::flat_types_have_no_children;
use data_types::{Typed, kinds_of_typed};
use layout_rules::{chunks_are_tables, lawful_root, lawful_trees};
use raw_array::{RawArray, release_all};
use row_groups::{Groups, grouped};
use std::alloc::Global;
use unit_pass::{CHUNK, NoMemory, Pass};

/// How many rows a chunk has, of which there aren't more than are named.
fn few_rows(array: &RawArray) -> u32
    requires live { IsLive array.now }
    requires sized { pos 0 ≤ℤ (members_of array.now).length }
    requires few { tree_items array.now < narrow_limit }
    ensures { result ≡ tree_items array.now }
{
    row_count(array) as u32
}

/// The rows of a chunk in groups, by the items of a column.
fn chunk_groups(
    alloc: Global,
    typed: &Typed,
    array: &RawArray,
    column: usize,
) -> Result<Groups, NoMemory>
    requires types { TypedOk (typed_of typed.now) }
    requires chunk { CanNest column (typed_of typed.now) array.now }
    requires inside { column < length (kids_of typed.now) }
    requires few { tree_items array.now < narrow_limit }
    ensures { IfOk result (λ groups. AreRowGroups column (typed_of typed.now) array.now groups) }
{
    kinds_of_typed(typed);
    lawful_trees();
    chunks_are_tables();
    lawful_root(typed, array);
    flat_types_have_no_children();
    let kid = &typed.kids[column];
    kinds_of_typed(kid);
    let items = array.child(column);
    let start = first_row(array);
    let count = few_rows(array);
    match grouped(alloc, kid, items, start, count) {
        Ok(groups) => Ok(groups),
        Err(NoMemory) => Err(NoMemory),
    }
}

/// The table of grouped rows, of which there aren't more than items of a list column are named.
fn grouped_table(
    alloc: Global,
    typed: &Typed,
    array: &RawArray,
    column: usize,
    pass: &mut Pass,
) -> Result<RawArray, NoMemory>
    requires types { TypedOk (typed_of typed.now) }
    requires chunk { CanNest column (typed_of typed.now) array.now }
    requires inside { column < length (kids_of typed.now) }
    requires few { tree_items array.now < narrow_limit }
    requires narrow { length (kids_of typed.now) ≤ most_columns }
    requires units { CHUNK ≤ pass.old.units }
    ensures made { IfOk result (λ made. made ≡ nested_array column (typed_of typed.now) array.now) }
    ensures fits { OnOk result (FitNested column (map kind_in (children_of (typed_of typed.now))) (rows_of (typed_of typed.now) array.now)) }
    ensures units { MatchResult result (λ made. pass.new.units + Cost made ≡ pass.old.units) (λ _. pass.new.units ≡ pass.old.units) }
    ensures left { OnOk result (pass.old.units ≤ pass.new.units + 6145) }
    ensures least { OnOk result (pass.new.units + 2 * length (kids_of typed.now) ≤ pass.old.units) }
    ensures blocks { OnOk result (pass.new.blocks ≡ risen pass.old.blocks (pass.old.units - pass.new.units - 2 * length (kids_of typed.now))) }
    ensures nodes { OnOk result (pass.new.nodes ≡ risen pass.old.nodes (2 * length (kids_of typed.now))) }
{
    kinds_of_typed(typed);
    let groups = chunk_groups(alloc, typed, array, column)?;
    let columns = nested_columns(alloc, typed, array, column, &groups, pass)?;
    match export_table(alloc, columns, groups.firsts.len() as i64, pass) {
        Ok(made) => Ok(made),
        Err((columns, NoMemory)) => {
            release_all(columns, pass);
            Err(NoMemory)
        }
    }
}

/// The array of a chunk's rows grouped by a column, or why there is none: too many distinct values, or too many items in a list column,
/// which is answered before anything is made.
pub(crate) fn nested_table(
    alloc: Global,
    typed: &Typed,
    array: &RawArray,
    column: usize,
    pass: &mut Pass,
) -> Result<RawArray, ListFault>
    requires types { TypedOk (typed_of typed.now) }
    requires chunk { CanNest column (typed_of typed.now) array.now }
    requires narrow { length (children_of (typed_of typed.now)) ≤ most_columns }
    requires units { CHUNK ≤ pass.old.units }
    ensures made { IfOk result (λ made. made ≡ nested_array column (typed_of typed.now) array.now) }
    ensures fits { OnOk result (FitNested column (map kind_in (children_of (typed_of typed.now))) (rows_of (typed_of typed.now) array.now)) }
    ensures short { OnOk result (is_nest_too_long (length (children_of (typed_of typed.now))) column (rows_of (typed_of typed.now) array.now) ≡ false) }
    ensures fault { IfErr result (λ fault. (fault ≡ ListFault.NoMemory) ⊎ ((fault ≡ ListFault.TooLong)
        × (is_nest_too_long (length (children_of (typed_of typed.now))) column (rows_of (typed_of typed.now) array.now) ≡ true))) }
    ensures many { 1 < length (kids_of typed.now) → most_named < tree_items array.now → MatchResult result (λ _. ⊥) (λ fault. fault ≡ ListFault.TooLong) }
    ensures untouched { IfErr result (λ fault. fault ≢ ListFault.NoMemory → pass.new ≡ pass.old) }
    ensures units { MatchResult result (λ made. pass.new.units + Cost made ≡ pass.old.units) (λ _. pass.new.units ≡ pass.old.units) }
    ensures left { OnOk result (pass.old.units ≤ pass.new.units + 6145) }
    ensures least { OnOk result (pass.new.units + 2 * length (kids_of typed.now) ≤ pass.old.units) }
    ensures blocks { OnOk result (pass.new.blocks ≡ risen pass.old.blocks (pass.old.units - pass.new.units - 2 * length (kids_of typed.now))) }
    ensures nodes { OnOk result (pass.new.nodes ≡ risen pass.old.nodes (2 * length (kids_of typed.now))) }
{
    kinds_of_typed(typed);
    lawful_trees();
    chunks_are_tables();
    lawful_root(typed, array);
    if typed.kids.len() == 1 {
        return lone_table(alloc, typed, array, column, pass);
    }
    if row_count(array) > MOST_NAMED {
        return Err(ListFault::TooLong);
    }
    match grouped_table(alloc, typed, array, column, pass) {
        Ok(made) => Ok(made),
        Err(NoMemory) => Err(ListFault::NoMemory),
    }
}
