//! The array of the distinct values of a column alone.
ghost use Rattle.std.specs.Prelude.{◌≡◌, ◌≢◌, ◌⊎◌, ◌+◌, ◌-◌, ◌<◌, ◌≤◌, ◌∷◌, [], All, true, false, None, IfOk, IfErr, OnOk, MatchResult, length, map};
ghost use Rattle.arr_export.specs.promise.ArrayTrees.{column_tree, table_tree};
ghost use Rattle.arr_export.specs.ArrayTrees.{IsColumn};
ghost use Rattle.column_fill.specs.Gathered.{CanGatherRuns, values_at};
ghost use Rattle.data_types.specs.promise.Table.{Flat};
ghost use Rattle.data_types.specs.promise.ColumnKinds.{type_of_kind};
ghost use Rattle.data_types.specs.promise.KindTrees.{kind_in};
ghost use Rattle.data_types.specs.KindTrees.{TypedOk};
ghost use Rattle.data_types.specs.promise.TypedView.{typed_of};
ghost use Rattle.data_types.specs.TypedView.{kids_of, kind_of};
ghost use Rattle.layout_rules.specs.promise.Rules.{window_limit};
ghost use Rattle.layout_rules.specs.promise.Values.{rows_of};
ghost use Rattle.raw_array.specs.promise.Members.{Cost};
ghost use Rattle.tree_model.specs.promise.TreeParts.{children_of};
ghost use Rattle.data_types.specs.promise.Groups.{distinct};
ghost use Rattle.row_groups.specs.Items.{IsRefusedFor, most_groups};
ghost use Rattle.unit_pass.specs.promise.Tally.{risen};
ghost use Rattle.unit_pass.specs.declared.pass.TheConstants.{SUPPLY};
ghost use Rattle.list_cols.specs.promise.NestFaults.{is_nest_too_long};
ghost use Rattle.list_cols.specs.NestedGroups.{AreFirsts, CanNest, row_keys, run_at};
ghost use Rattle.list_cols.specs.NestedTables.{FitNested, nested_array};

use crate::fault::ListFault;
use crate::nest_columns::{first_row, row_count};
use crate::nest_lists::one_child;
use arr_export::export_table;
use array_laws::{flat_types_have_no_children, lawful_values_fit};
use column_fill::{Run, built_column, gathered_runs};
use data_types::{Typed, kinds_of_typed};
use layout_rules::{chunks_are_tables, lawful_root, lawful_trees};
use raw_array::{RawArray, release_all};
use row_groups::{GroupFault, first_items};
use std::alloc::Global;
use unit_pass::{NoMemory, Pass, SUPPLY};

/// Each of these items once, counted from item `start` on.
fn once_each(alloc: Global, firsts: &[u64], start: u64) -> Result<Vec<Run>, NoMemory>
    requires near { All (λ i. start + i < window_limit) firsts.now }
    ensures { IfOk result (λ runs. runs.items ≡ map (run_at start) firsts.now) }
{
    let mut runs = Vec::with_capacity(alloc, firsts.len())?;
    for first in firsts {
        runs.push_reserved(Run {
            item: start + *first,
            times: 1,
        });
    }
    Ok(runs)
}

/// The items of these numbers as a column, counted from item `start` on.
fn far_column(
    alloc: Global,
    kid: &Typed,
    items: &RawArray,
    start: u64,
    firsts: &[u64],
    pass: &mut Pass,
) -> Result<RawArray, NoMemory>
    requires typed { typed_of kid.now ≡ type_of_kind (Flat (kind_of kid.now)) }
    requires types { TypedOk (typed_of kid.now) }
    requires items { CanGatherRuns (kind_of kid.now) items.now (map (run_at start) firsts.now) }
    requires near { All (λ i. start + i < window_limit) firsts.now }
    requires units { 4 ≤ pass.old.units }
    ensures made { IfOk result (λ made. made ≡ column_tree (kind_of kid.now) (values_at (type_of_kind (Flat (kind_of kid.now))) items.now start firsts.now) None) }
    ensures units { MatchResult result (λ made. pass.new.units + Cost made ≡ pass.old.units) (λ _. pass.new.units ≡ pass.old.units) }
    ensures left { IfOk result (λ _. pass.old.units ≤ pass.new.units + 4) }
    ensures least { OnOk result (pass.new.units + 1 ≤ pass.old.units) }
    ensures blocks { OnOk result (pass.new.blocks ≡ risen pass.old.blocks (pass.old.units - pass.new.units - 1)) }
    ensures nodes { OnOk result (pass.new.nodes ≡ risen pass.old.nodes 1) }
{
    let runs = once_each(alloc, firsts, start)?;
    let builder = gathered_runs(alloc, &kid.kind, kid, items, &runs)?;
    match built_column(alloc, builder, None, pass) {
        Ok(made) => Ok(made),
        Err(NoMemory) => Err(NoMemory),
    }
}

/// A table of one column with this many rows. Where memory runs out the column is released.
fn table_of_one(
    alloc: Global,
    column: RawArray,
    rows: usize,
    pass: &mut Pass,
) -> Result<RawArray, NoMemory>
    requires column { IsColumn rows column }
    requires few { rows ≤ window_limit }
    requires unit { 1 ≤ pass.old.units }
    requires room { pass.old.units + Cost column ≤ SUPPLY }
    ensures made { IfOk result (λ made. made ≡ table_tree rows (column ∷ [])) }
    ensures units { MatchResult result
        (λ made. pass.new.units + Cost made ≡ pass.old.units + Cost column)
        (λ _. pass.new.units ≡ pass.old.units + Cost column) }
    ensures left { OnOk result (pass.new.units + 1 ≡ pass.old.units) }
    ensures blocks { OnOk result (pass.new.blocks ≡ pass.old.blocks) }
    ensures nodes { OnOk result (pass.new.nodes ≡ risen pass.old.nodes 1) }
{
    let columns = one_child(alloc, column, pass)?;
    match export_table(alloc, columns, rows as i64, pass) {
        Ok(made) => Ok(made),
        Err((columns, NoMemory)) => {
            release_all(columns, pass);
            Err(NoMemory)
        }
    }
}

/// The distinct values of the only column, whose first items these are, as a table.
fn keys_table(
    alloc: Global,
    typed: &Typed,
    array: &RawArray,
    column: usize,
    firsts: &[u64],
    pass: &mut Pass,
) -> Result<RawArray, NoMemory>
    requires types { TypedOk (typed_of typed.now) }
    requires chunk { CanNest column (typed_of typed.now) array.now }
    requires inside { column < length (kids_of typed.now) }
    requires alone { length (children_of (typed_of typed.now)) ≡ 1 }
    requires firsts { AreFirsts column (typed_of typed.now) array.now firsts.now }
    requires units { 5 ≤ pass.old.units }
    ensures made { IfOk result (λ made. made ≡ nested_array column (typed_of typed.now) array.now) }
    ensures fits { OnOk result (FitNested column (map kind_in (children_of (typed_of typed.now))) (rows_of (typed_of typed.now) array.now)) }
    ensures units { MatchResult result (λ made. pass.new.units + Cost made ≡ pass.old.units) (λ _. pass.new.units ≡ pass.old.units) }
    ensures left { OnOk result (pass.old.units ≤ pass.new.units + 5) }
    ensures least { OnOk result (pass.new.units + 2 ≤ pass.old.units) }
    ensures blocks { OnOk result (pass.new.blocks ≡ risen pass.old.blocks (pass.old.units - pass.new.units - 2)) }
    ensures nodes { OnOk result (pass.new.nodes ≡ risen pass.old.nodes 2) }
{
    kinds_of_typed(typed);
    lawful_trees();
    chunks_are_tables();
    lawful_root(typed, array);
    flat_types_have_no_children();
    let kid = &typed.kids[column];
    kinds_of_typed(kid);
    let items = array.child(column);
    lawful_values_fit(kid, items);
    let start = first_row(array);
    let keys = far_column(alloc, kid, items, start, firsts, pass)?;
    match table_of_one(alloc, keys, firsts.len(), pass) {
        Ok(made) => Ok(made),
        Err(NoMemory) => Err(NoMemory),
    }
}

/// The first item of each distinct value of the only column.
fn only_firsts(
    alloc: Global,
    typed: &Typed,
    array: &RawArray,
    column: usize,
) -> Result<Vec<u64>, GroupFault>
    requires types { TypedOk (typed_of typed.now) }
    requires chunk { CanNest column (typed_of typed.now) array.now }
    requires inside { column < length (kids_of typed.now) }
    requires alone { length (children_of (typed_of typed.now)) ≡ 1 }
    ensures firsts { IfOk result (λ firsts. AreFirsts column (typed_of typed.now) array.now firsts.items) }
    ensures few { OnOk result (length (distinct (row_keys column (typed_of typed.now) array.now)) ≤ most_groups) }
    ensures fault { IfErr result (IsRefusedFor (length (distinct (row_keys column (typed_of typed.now) array.now)))) }
{
    kinds_of_typed(typed);
    lawful_trees();
    chunks_are_tables();
    lawful_root(typed, array);
    flat_types_have_no_children();
    let kid = &typed.kids[column];
    kinds_of_typed(kid);
    let items = array.child(column);
    let start = first_row(array);
    let count = row_count(array);
    match first_items(alloc, kid, items, start, count) {
        Ok(firsts) => Ok(firsts),
        Err(fault) => Err(fault),
    }
}

/// The distinct values of the only column as a table, or why there is none.
pub(crate) fn lone_table(
    alloc: Global,
    typed: &Typed,
    array: &RawArray,
    column: usize,
    pass: &mut Pass,
) -> Result<RawArray, ListFault>
    requires types { TypedOk (typed_of typed.now) }
    requires chunk { CanNest column (typed_of typed.now) array.now }
    requires inside { column < length (kids_of typed.now) }
    requires alone { length (children_of (typed_of typed.now)) ≡ 1 }
    requires units { 5 ≤ pass.old.units }
    ensures made { IfOk result (λ made. made ≡ nested_array column (typed_of typed.now) array.now) }
    ensures fits { OnOk result (FitNested column (map kind_in (children_of (typed_of typed.now))) (rows_of (typed_of typed.now) array.now)) }
    ensures short { OnOk result (is_nest_too_long (length (children_of (typed_of typed.now))) column (rows_of (typed_of typed.now) array.now) ≡ false) }
    ensures fault { IfErr result (λ fault. (fault ≡ ListFault.NoMemory) ⊎ ((fault ≡ ListFault.TooLong)
        × (is_nest_too_long (length (children_of (typed_of typed.now))) column (rows_of (typed_of typed.now) array.now) ≡ true))) }
    ensures untouched { IfErr result (λ fault. fault ≢ ListFault.NoMemory → pass.new ≡ pass.old) }
    ensures units { MatchResult result (λ made. pass.new.units + Cost made ≡ pass.old.units) (λ _. pass.new.units ≡ pass.old.units) }
    ensures left { OnOk result (pass.old.units ≤ pass.new.units + 5) }
    ensures least { OnOk result (pass.new.units + 2 ≤ pass.old.units) }
    ensures blocks { OnOk result (pass.new.blocks ≡ risen pass.old.blocks (pass.old.units - pass.new.units - 2)) }
    ensures nodes { OnOk result (pass.new.nodes ≡ risen pass.old.nodes 2) }
{
    match only_firsts(alloc, typed, array, column) {
        Ok(firsts) => match keys_table(alloc, typed, array, column, &firsts, pass) {
            Ok(made) => Ok(made),
            Err(NoMemory) => Err(ListFault::NoMemory),
        },
        Err(GroupFault::TooMany) => Err(ListFault::TooLong),
        Err(GroupFault::NoMemory) => Err(ListFault::NoMemory),
    }
}
