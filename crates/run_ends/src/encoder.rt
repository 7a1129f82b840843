//! A column's values as runs.
ghost use Rattle.std.specs.Prelude.{◌≡◌, ◌≢◌, ◌+◌, ◌<◌, ◌≤◌, [], true, length, map, IfOk, IfErr, OnOk, MatchResult};
ghost use Rattle.unit_pass.specs.promise.Tally.{risen};
ghost use Rattle.tree_model.specs.promise.TreeCost.{Nodes};
ghost use Rattle.raw_array.specs.promise.Members.{Cost};
ghost use Rattle.data_types.specs.declared.kind.DataType.{DataType as AType};
ghost use Rattle.data_types.specs.promise.Storage.{storage_of as stored_as};
ghost use Rattle.data_types.specs.promise.Table.{Flat};
ghost use Rattle.data_types.specs.promise.FieldText.{form_of};
ghost use Rattle.col_build.specs.promise.Encoding.{narrow_limit};
ghost use Rattle.col_build.specs.Encoding.{Fits, HasForm};
ghost use Rattle.data_types.specs.promise.ColumnKinds.{type_of_kind};
ghost use Rattle.data_types.specs.promise.KindTrees.{kind_in};
ghost use Rattle.data_types.specs.KindTrees.{TypedOk};
ghost use Rattle.data_types.specs.promise.TypedView.{typed_of};
ghost use Rattle.layout_rules.specs.promise.Values.{tree_items, values_of};
ghost use Rattle.layout_rules.specs.promise.Walk.{LayoutOk};
ghost use Rattle.arr_import.specs.Cols.{window_of};
ghost use Rattle.arr_import.specs.Window.{items_of};
ghost use Rattle.run_ends.specs.promise.Runs.{run_values};
ghost use Rattle.run_ends.specs.RunRules.{RunsOk};
ghost use Rattle.run_ends.specs.promise.RunSchemas.{RunsOf};
ghost use Rattle.run_ends.specs.promise.RunCoding.{runs_from};
ghost use Rattle.run_ends.specs.RunCoding.{end_kind, runs_blocks, runs_schema, runs_tree, runs_type};
ghost use Rattle.run_ends.specs.RunMaking.{HoldsRuns, HoldsUpTo};
ghost use Rattle.run_ends.specs.promise.CodeFaults.{code_fault};
ghost use Rattle.run_ends.specs.CodeFaults.{refused_code};
ghost use Rattle.run_ends.specs.ColumnRuns.{values_in};

use crate::code_fault::{CodeFault, encode_fault};
use crate::coding::coded_values_are_the_values;
use crate::column_runs::ColumnRuns;
use crate::run_tops::{runs_array, runs_schema};
use arr_import::Col;
use array_laws::lawful_values_fit;
use col_build::Builder;
use column_fill::{flat_kind, push_item};
use data_types::{DataType, Storage, Typed, clone_kind, storage_of};
use raw_array::RawArray;
use raw_schema::RawSchema;
use std::alloc::Global;
use unit_pass::{NoMemory, Pass};

/// The values of a lawful column as runs ("Arrow Columnar Format", "Run-End Encoded Layout"): a root without a name over ends of kind
/// `i` and values of the column's kind. A run has items that are side by side and have the same value, as many as there are, so
/// that no two neighbouring runs have equal values; no items give no runs. The column stays as it is.
///
/// Six nodes are made, and the blocks of two columns. Where the answer is a fault, nothing is left of them.
pub fn encode(
    alloc: Global,
    typed: &Typed,
    array: &RawArray,
    pass: &mut Pass,
) -> Result<(RawSchema, RawArray), CodeFault>
    requires types { TypedOk (typed_of typed.now) }
    requires lawful { LayoutOk (typed_of typed.now) array.now }
    requires units { 16 ≤ pass.old.units }
    // The two trees, exactly.
    ensures schema { IfOk result (λ made. made.0 ≡ runs_schema (kind_in (typed_of typed.now))) }
    ensures array { IfOk result (λ made. made.1 ≡ runs_tree (kind_in (typed_of typed.now)) (values_of (typed_of typed.now) array.now)) }
    // They are runs of the column's kind, at which no rule fails, and their items are the column's.
    ensures reads { IfOk result (λ made. RunsOf made.0 (runs_type (kind_in (typed_of typed.now)))) }
    ensures checks { IfOk result (λ made. RunsOk (runs_type (kind_in (typed_of typed.now))) made.1) }
    ensures items { IfOk result (λ made. run_values (runs_type (kind_in (typed_of typed.now))) made.1 ≡ values_of (typed_of typed.now) array.now) }
    // Which fault it is, or out of memory where there is none.
    ensures fault { refused_code result ≡ code_fault (typed_of typed.now) (tree_items array.now) }
    ensures units { MatchResult result
        (λ made. pass.new.units + (Nodes made.0 + Cost made.1) ≡ pass.old.units)
        (λ _. pass.new.units ≡ pass.old.units) }
    ensures blocks { OnOk result (pass.new.blocks ≡ risen pass.old.blocks (runs_blocks (kind_in (typed_of typed.now)) (values_of (typed_of typed.now) array.now))) }
    ensures nodes { OnOk result (pass.new.nodes ≡ risen pass.old.nodes 6) }
    // Nothing is counted where the column isn't one to be made into runs.
    ensures refused { IfErr result (λ fault. fault ≢ CodeFault.NoMemory → pass.new ≡ pass.old) }
{
    if let Some(fault) = encode_fault(typed, array) {
        return Err(fault);
    }
    let kind = flat_kind(typed);
    runs_are_right(kind, typed, array);
    match coded(alloc, kind, typed, array, pass) {
        Ok(made) => Ok(made),
        Err(NoMemory) => Err(CodeFault::NoMemory),
    }
}

/// A law: the values of a lawful column have an encoding, and the array of their runs is lawful and has these values.
fn runs_are_right(kind: &DataType, typed: &Typed, array: &RawArray)
    requires typed { typed_of typed.now ≡ type_of_kind (Flat kind.now) }
    requires flat { HasForm (form_of kind.now) }
    requires types { TypedOk (typed_of typed.now) }
    requires lawful { LayoutOk (typed_of typed.now) array.now }
    requires few { tree_items array.now < narrow_limit }
    ensures fits { Fits kind.now (values_of (typed_of typed.now) array.now) }
    ensures reads { RunsOf (runs_schema kind.now) (runs_type kind.now) }
    ensures checks { RunsOk (runs_type kind.now) (runs_tree kind.now (values_of (typed_of typed.now) array.now)) }
    ensures items { run_values (runs_type kind.now) (runs_tree kind.now (values_of (typed_of typed.now) array.now)) ≡ values_of (typed_of typed.now) array.now }
{
    coded_values_are_the_values();
    lawful_values_fit(typed, array);
}

/// The same of a column of a flat kind with few enough items.
fn coded(
    alloc: Global,
    kind: &DataType,
    typed: &Typed,
    array: &RawArray,
    pass: &mut Pass,
) -> Result<(RawSchema, RawArray), NoMemory>
    requires typed { typed_of typed.now ≡ type_of_kind (Flat kind.now) }
    requires types { TypedOk (typed_of typed.now) }
    requires lawful { LayoutOk (typed_of typed.now) array.now }
    requires fits { Fits kind.now (values_of (typed_of typed.now) array.now) }
    requires few { tree_items array.now < narrow_limit }
    requires units { 16 ≤ pass.old.units }
    ensures schema { IfOk result (λ made. made.0 ≡ runs_schema kind.now) }
    ensures array { IfOk result (λ made. made.1 ≡ runs_tree kind.now (values_of (typed_of typed.now) array.now)) }
    ensures units { MatchResult result
        (λ made. pass.new.units + (Nodes made.0 + Cost made.1) ≡ pass.old.units)
        (λ _. pass.new.units ≡ pass.old.units) }
    ensures blocks { OnOk result (pass.new.blocks ≡ risen pass.old.blocks (runs_blocks kind.now (values_of (typed_of typed.now) array.now))) }
    ensures nodes { OnOk result (pass.new.nodes ≡ risen pass.old.nodes 6) }
{
    let runs = ColumnRuns::of(typed, array);
    let making = filled(alloc, kind, &runs, &Col::of(typed, array))?;
    let schema = runs_schema(alloc, kind, pass)?;
    match runs_array(alloc, making, runs.count(), pass) {
        Ok(array) => Ok((schema, array)),
        Err(NoMemory) => {
            schema.end(pass);
            Err(NoMemory)
        }
    }
}

/// The columns of runs in the making: of their ends, and of their values.
#[derive(Drop)]
pub(crate) struct Making {
    pub(crate) ends: Builder,
    pub(crate) values: Builder,
}

/// The type of the ends.
fn end_kind() -> DataType
    ensures { result ≡ end_kind }
{
    DataType::Int {
        bits: 32,
        signed: true,
    }
}

/// The runs of a column's items.
fn filled(
    alloc: Global,
    kind: &DataType,
    runs: &ColumnRuns<'_>,
    items: &Col<'_>,
) -> Result<Making, NoMemory>
    requires same { items_of (window_of items.now) ≡ values_in runs.now }
    requires fits { Fits kind.now (values_in runs.now) }
    requires few { length (values_in runs.now) < narrow_limit }
    ensures { IfOk result (λ making. HoldsRuns making kind.now (runs_from 0 (values_in runs.now))) }
{
    let ends = Builder::new(alloc, end_kind());
    let values = Builder::new(alloc, clone_kind(alloc, kind)?);
    let mut making = Making { ends, values };
    let storage = storage_of(kind);
    let count = runs.count();
    let mut at = 0;
    while at < count {
        at = push_run(&mut making, storage, runs, items, at)?;
    }
    Ok(making)
}

/// Adds the run that begins at an item, and answers where it ends.
fn push_run(
    making: &mut Making,
    storage: Storage,
    runs: &ColumnRuns<'_>,
    items: &Col<'_>,
    at: u64,
) -> Result<u64, NoMemory>
    requires same { items_of (window_of items.now) ≡ values_in runs.now }
    requires inside { at < length (values_in runs.now) }
    requires holds { (kind : AType) × HoldsUpTo making.old kind (values_in runs.now) at × (storage ≡ stored_as kind) }
    ensures above { IfOk result (λ stop. at < stop) }
    ensures within { IfOk result (λ stop. stop ≤ length (values_in runs.now)) }
    ensures added { IfOk result (λ stop. (kind : AType) → HoldsUpTo making.old kind (values_in runs.now) at → storage ≡ stored_as kind
        → HoldsUpTo making.new kind (values_in runs.now) stop) }
{
    runs.count();
    let stop = runs.stop_of(at);
    making.ends.add_whole(4, i128::from(stop))?;
    push_item(&mut making.values, storage, items, at)?;
    Ok(stop)
}
