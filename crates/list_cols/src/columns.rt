//! The columns of the rows whose lists are spread out.
ghost use Rattle.std.specs.Prelude.{◌≡◌, ◌≢◌, ◌+◌, ◌*◌, ◌<◌, ◌≤◌, IfOk, OnOk, MatchResult, get_or, length, map};
ghost use Rattle.arr_export.specs.ValueColumns.{tree_of};
ghost use Rattle.col_build.specs.promise.Finished.{blocks_of};
ghost use Rattle.col_build.specs.Holding.{Holds};
ghost use Rattle.data_types.specs.declared.kind.DataType.TheVariants as kinds;
ghost use Rattle.data_types.specs.KindTrees.{TypedOk};
ghost use Rattle.data_types.specs.promise.TypedView.{typed_of};
ghost use Rattle.raw_array.specs.promise.Members.{Cost};
ghost use Rattle.raw_array.specs.Members.{cost_of_all};
ghost use Rattle.tree_model.specs.promise.TreeParts.{children_of};
ghost use Rattle.tree_model.specs.promise.TreeData.{trees};
ghost use Rattle.unit_pass.specs.promise.Tally.{risen};
ghost use Rattle.list_cols.specs.promise.Exploded.{exploded_blocks, exploded_kinds};
ghost use Rattle.list_cols.specs.Exploded.{exploded_columns};
ghost use Rattle.list_cols.specs.Spreading.{AllFit, CanSpread, FitsAt, chunk_runs, spread_column, spread_values};

use crate::kinds::{child_count, child_kinds, list_column};
use crate::lists::list_items;
use col_build::Builder;
use column_fill::{Run, built_column, flat_kind, gathered_runs};
use data_types::{Typed, kinds_of_typed};
use layout_rules::{chunks_are_tables, lawful_trees};
use raw_array::{RawArray, release_all};
use std::alloc::Global;
use unit_pass::{NoMemory, Pass};

/// A builder of the column that is spread out: the items of the lists, one list behind the other.
fn own_builder(
    alloc: Global,
    typed: &Typed,
    array: &RawArray,
    column: usize,
) -> Result<Builder, NoMemory>
    requires types { TypedOk (typed_of typed.now) }
    requires rows { CanSpread column (typed_of typed.now) array.now }
    requires fits { FitsAt column (typed_of typed.now) array.now column }
    ensures { IfOk result (λ builder. Holds builder (get_or (exploded_kinds column (typed_of typed.now)) column kinds.Null)
        (spread_values column (typed_of typed.now) array.now column)) }
{
    kinds_of_typed(typed);
    lawful_trees();
    chunks_are_tables();
    let list = child_kinds(typed, column);
    let items = child_kinds(list, 0);
    let lists = list_column(typed, array, column);
    list_items(alloc, flat_kind(items), &lists)
}

/// A builder of another column: its items, each as often as the list of its row has items.
fn other_builder(
    alloc: Global,
    typed: &Typed,
    array: &RawArray,
    column: usize,
    k: usize,
    runs: &[Run],
) -> Result<Builder, NoMemory>
    requires types { TypedOk (typed_of typed.now) }
    requires rows { CanSpread column (typed_of typed.now) array.now }
    requires runs { runs.now ≡ chunk_runs column (typed_of typed.now) array.now }
    requires inside { k < length (children_of (typed_of typed.now)) }
    requires other { k ≢ column }
    requires fits { FitsAt column (typed_of typed.now) array.now k }
    ensures { IfOk result (λ builder. Holds builder (get_or (exploded_kinds column (typed_of typed.now)) k kinds.Null)
        (spread_values column (typed_of typed.now) array.now k)) }
{
    kinds_of_typed(typed);
    lawful_trees();
    chunks_are_tables();
    let kid = child_kinds(typed, k);
    gathered_runs(alloc, flat_kind(kid), kid, array.child(k), runs)
}

/// A builder of a column of the new rows.
fn column_builder(
    alloc: Global,
    typed: &Typed,
    array: &RawArray,
    column: usize,
    k: usize,
    runs: &[Run],
) -> Result<Builder, NoMemory>
    requires types { TypedOk (typed_of typed.now) }
    requires rows { CanSpread column (typed_of typed.now) array.now }
    requires runs { runs.now ≡ chunk_runs column (typed_of typed.now) array.now }
    requires inside { k < length (children_of (typed_of typed.now)) }
    requires fits { FitsAt column (typed_of typed.now) array.now k }
    ensures { IfOk result (λ builder. Holds builder (get_or (exploded_kinds column (typed_of typed.now)) k kinds.Null)
        (spread_values column (typed_of typed.now) array.now k)) }
{
    if k == column {
        own_builder(alloc, typed, array, column)
    } else {
        other_builder(alloc, typed, array, column, k, runs)
    }
}

/// A column of the new rows.
fn new_column(
    alloc: Global,
    typed: &Typed,
    array: &RawArray,
    column: usize,
    k: usize,
    runs: &[Run],
    pass: &mut Pass,
) -> Result<RawArray, NoMemory>
    requires types { TypedOk (typed_of typed.now) }
    requires rows { CanSpread column (typed_of typed.now) array.now }
    requires runs { runs.now ≡ chunk_runs column (typed_of typed.now) array.now }
    requires inside { k < length (children_of (typed_of typed.now)) }
    requires fits { FitsAt column (typed_of typed.now) array.now k }
    requires units { 4 ≤ pass.old.units }
    ensures made { IfOk result (λ made. made ≡ spread_column column (typed_of typed.now) array.now k) }
    ensures cost { IfOk result (λ made. Cost made ≤ 4) }
    ensures units { MatchResult result (λ made. pass.new.units + Cost made ≡ pass.old.units) (λ _. pass.new.units ≡ pass.old.units) }
    ensures blocks { OnOk result (pass.new.blocks
        ≡ risen pass.old.blocks (blocks_of (get_or (exploded_kinds column (typed_of typed.now)) k kinds.Null) (spread_values column (typed_of typed.now) array.now k))) }
    ensures nodes { OnOk result (pass.new.nodes ≡ risen pass.old.nodes 1) }
{
    let builder = column_builder(alloc, typed, array, column, k, runs)?;
    built_column(alloc, builder, None, pass)
}

/// All columns of the new rows.
pub(crate) fn new_columns(
    alloc: Global,
    typed: &Typed,
    array: &RawArray,
    column: usize,
    runs: &[Run],
    pass: &mut Pass,
) -> Result<Vec<RawArray>, NoMemory>
    requires types { TypedOk (typed_of typed.now) }
    requires rows { CanSpread column (typed_of typed.now) array.now }
    requires runs { runs.now ≡ chunk_runs column (typed_of typed.now) array.now }
    requires fits { AllFit column (typed_of typed.now) array.now }
    requires units { 4 * length (children_of (typed_of typed.now)) ≤ pass.old.units }
    ensures columns { IfOk result (λ columns. columns.items ≡ map tree_of (exploded_columns column (typed_of typed.now) array.now)) }
    ensures cost { IfOk result (λ columns. cost_of_all (trees columns.items) ≤ 4 * length (children_of (typed_of typed.now))) }
    ensures units { MatchResult result
        (λ columns. pass.new.units + cost_of_all (trees columns.items) ≡ pass.old.units)
        (λ _. pass.new.units ≡ pass.old.units) }
    ensures blocks { OnOk result (pass.new.blocks ≡ risen pass.old.blocks (exploded_blocks column (typed_of typed.now) array.now)) }
    ensures nodes { OnOk result (pass.new.nodes ≡ risen pass.old.nodes (length (children_of (typed_of typed.now)))) }
{
    let count = child_count(typed);
    let Ok(mut columns) = Vec::with_capacity(alloc, count) else {
        return Err(NoMemory);
    };
    for k in 0..count {
        match new_column(alloc, typed, array, column, k, runs, pass) {
            Ok(made) => columns.push_reserved(made),
            Err(NoMemory) => {
                release_all(columns, pass);
                return Err(NoMemory);
            }
        }
    }
    Ok(columns)
}
