//! The items of runs as a column.
ghost use Rattle.std.specs.Prelude.{◌≡◌, ◌≢◌, ◌+◌, ◌*◌, ◌-◌, ◌^◌, ◌<◌, ◌≤◌, ◌∷◌, [], ℕ, All, true, length, IfOk, IfErr, OnOk, MatchResult};
ghost use Rattle.unit_pass.specs.promise.Tally.{risen};
ghost use Rattle.raw_array.specs.promise.Members.{Cost, members_of};
ghost use Rattle.data_types.specs.promise.Table.{Flat};
ghost use Rattle.data_types.specs.promise.Value.{byte_total, bytes_of};
ghost use Rattle.tree_model.specs.promise.TreeParts.{child_at};
ghost use Rattle.col_build.specs.promise.Encoding.{are_within, is_wide};
ghost use Rattle.col_build.specs.Encoding.{Fits, HasForm, are_bounded};
ghost use Rattle.data_types.specs.promise.FieldText.{form_of};
ghost use Rattle.col_build.specs.promise.Finished.{blocks_of};
ghost use Rattle.col_build.specs.Holding.{Holds};
ghost use Rattle.column_fill.specs.Gathered.{values_of_runs};
ghost use Rattle.data_types.specs.promise.ColumnKinds.{type_of_kind};
ghost use Rattle.data_types.specs.promise.KindTrees.{kind_in};
ghost use Rattle.data_types.specs.KindTrees.{TypedOk};
ghost use Rattle.data_types.specs.promise.TypedView.{typed_of};
ghost use Rattle.layout_rules.specs.promise.Layout.{items};
ghost use Rattle.layout_rules.specs.promise.Rules.{window_limit};
ghost use Rattle.layout_rules.specs.promise.Values.{each, tree_items, value_at, values_of};
ghost use Rattle.layout_rules.specs.promise.Walk.{LayoutOk};
ghost use Rattle.run_ends.specs.promise.Runs.{run_of, run_values};
ghost use Rattle.run_ends.specs.Runs.{RunTypedOk, run_value};
ghost use Rattle.run_ends.specs.RunRules.{RunsOk};
ghost use Rattle.run_ends.specs.RunAnswers.{runs_of};
ghost use Rattle.run_ends.specs.RunCols.{kinds_in, array_in};
ghost use Rattle.run_ends.specs.RunCoding.{decoded_tree};
ghost use Rattle.run_ends.specs.RunWalks.{ReachesRun};
ghost use Rattle.run_ends.specs.CodeFaults.{decode_fault, is_narrow, refused_code};

use crate::code_fault::{CodeFault, is_narrow};
use crate::column::RunCol;
use crate::kinds::RunTyped;
use crate::laws::runs_hold;
use array_laws::lawful_values_fit;
use col_build::Builder;
use column_fill::{Run, built_column, flat_kind, gathered_runs, is_flat_column};
use data_types::DataType;
use raw_array::RawArray;
use std::alloc::Global;
use unit_pass::{NoMemory, Pass};

/// The most bytes that offsets of 32 bits reach, and those of 64 bits.
const MOST_NARROW: u128 = (1 << 31) - 1;

const MOST_WIDE: u128 = (1 << 63) - 1;

/// The items of a run-end encoded array that [`crate::check_runs`] accepted as a column of their kind ("Arrow Columnar Format",
/// "Run-End Encoded Layout"): without runs, and with an item of its own for each. The array stays as it is. The bytes of texts are
/// counted before anything is made.
///
/// A node is made, and the blocks of the column. Where the answer is a fault, nothing is left of them. A column of more bytes than any
/// memory has, between offsets of 64 bits, is out of memory.
pub fn decode(
    alloc: Global,
    typed: &RunTyped,
    array: &RawArray,
    pass: &mut Pass,
) -> Result<RawArray, CodeFault>
    requires types { RunTypedOk (runs_of typed.now) }
    requires lawful { RunsOk (runs_of typed.now) array.now }
    requires units { 16 ≤ pass.old.units }
    // The array, exactly.
    ensures array { IfOk result (λ made. made ≡ decoded_tree (runs_of typed.now) array.now) }
    // No rule fails at it, and its items are those of the runs.
    ensures checks { IfOk result (LayoutOk (typed_of typed.now.values)) }
    ensures items { IfOk result (λ made. values_of (typed_of typed.now.values) made ≡ run_values (runs_of typed.now) array.now) }
    // Which fault it is, or out of memory where there is none.
    ensures fault { refused_code result ≡ decode_fault (typed_of typed.now.values) (run_values (runs_of typed.now) array.now) }
    ensures units { MatchResult result (λ made. pass.new.units + Cost made ≡ pass.old.units) (λ _. pass.new.units ≡ pass.old.units) }
    ensures blocks { OnOk result (pass.new.blocks
        ≡ risen pass.old.blocks (blocks_of (kind_in (typed_of typed.now.values)) (run_values (runs_of typed.now) array.now))) }
    ensures nodes { OnOk result (pass.new.nodes ≡ risen pass.old.nodes 1) }
    // Nothing is counted where the runs aren't ones to be made into a column.
    ensures refused { IfErr result (λ fault. fault ≢ CodeFault.NoMemory → pass.new ≡ pass.old) }
{
    if !is_flat_column(&typed.values) {
        return Err(CodeFault::WrongKind);
    }
    let kind = flat_kind(&typed.values);
    let total = total_bytes(&RunCol::of(typed, array));
    if is_narrow(kind) && total > MOST_NARROW {
        return Err(CodeFault::TooLong);
    }
    if total > MOST_WIDE {
        return Err(CodeFault::NoMemory);
    }
    items_fit(kind, typed, array);
    arr_export::encoded_columns_are_lawful();
    match decoded(alloc, kind, typed, array, pass) {
        Ok(made) => Ok(made),
        Err(NoMemory) => Err(CodeFault::NoMemory),
    }
}

/// A law: the items of runs fit a column where its offsets reach their bytes.
fn items_fit(kind: &DataType, typed: &RunTyped, array: &RawArray)
    requires typed { typed_of typed.now.values ≡ type_of_kind (Flat kind.now) }
    requires flat { HasForm (form_of kind.now) }
    requires types { RunTypedOk (runs_of typed.now) }
    requires lawful { RunsOk (runs_of typed.now) array.now }
    requires within { are_within (is_wide kind.now) (form_of kind.now) (byte_total (run_values (runs_of typed.now) array.now)) ≡ true }
    requires bounded { are_bounded (form_of kind.now) (byte_total (run_values (runs_of typed.now) array.now)) ≡ true }
    ensures { Fits kind.now (run_values (runs_of typed.now) array.now) }
{
    runs_hold(typed, array);
    lawful_values_fit(&typed.values, array.child(1));
}

/// The same of runs whose values are of a flat kind, with so few bytes that a column reaches them.
fn decoded(
    alloc: Global,
    kind: &DataType,
    typed: &RunTyped,
    array: &RawArray,
    pass: &mut Pass,
) -> Result<RawArray, NoMemory>
    requires typed { typed_of typed.now.values ≡ type_of_kind (Flat kind.now) }
    requires types { RunTypedOk (runs_of typed.now) }
    requires lawful { RunsOk (runs_of typed.now) array.now }
    requires fits { Fits kind.now (run_values (runs_of typed.now) array.now) }
    requires units { 4 ≤ pass.old.units }
    ensures tree { IfOk result (λ made. made ≡ decoded_tree (runs_of typed.now) array.now) }
    ensures units { MatchResult result (λ made. pass.new.units + Cost made ≡ pass.old.units) (λ _. pass.new.units ≡ pass.old.units) }
    ensures blocks { OnOk result (pass.new.blocks ≡ risen pass.old.blocks (blocks_of kind.now (run_values (runs_of typed.now) array.now))) }
    ensures nodes { OnOk result (pass.new.nodes ≡ risen pass.old.nodes 1) }
{
    let builder = gathered_items(alloc, kind, typed, array)?;
    built_column(alloc, builder, None, pass)
}

/// The column in the making that holds all items.
fn gathered_items(
    alloc: Global,
    kind: &DataType,
    typed: &RunTyped,
    array: &RawArray,
) -> Result<Builder, NoMemory>
    requires typed { typed_of typed.now.values ≡ type_of_kind (Flat kind.now) }
    requires types { RunTypedOk (runs_of typed.now) }
    requires lawful { RunsOk (runs_of typed.now) array.now }
    requires fits { Fits kind.now (run_values (runs_of typed.now) array.now) }
    ensures { IfOk result (λ builder. Holds builder kind.now (run_values (runs_of typed.now) array.now)) }
{
    runs_hold(typed, array);
    let runs = listed(alloc, &RunCol::of(typed, array))?;
    gathered_runs(alloc, kind, &typed.values, array.child(1), &runs)
}

/// The number of a column's items.
fn count_items(col: &RunCol<'_>) -> u64
    ensures count { result ≡ items (members_of (array_in col.now)) }
    ensures few { result ≤ window_limit }
{
    runs_hold(col.typed, col.array);
    col.len() as u64
}

/// The number of bytes of all items of a column of texts or bytes, nulls counting 0.
fn total_bytes(col: &RunCol<'_>) -> u128
    ensures { result ≡ byte_total (run_values (kinds_in col.now) (array_in col.now)) }
{
    let count = count_items(col);
    let mut run = first_run(col);
    let mut at = 0;
    let mut total = 0;
    while at < count {
        let stop = stop_of(col, at, run);
        total += u128::from(stop - at) * u128::from(value_bytes(col, run));
        at = stop;
        run += 1;
    }
    total
}

/// The runs of a column's items, each with the number of items that lie in it.
fn listed(alloc: Global, col: &RunCol<'_>) -> Result<Vec<Run>, NoMemory>
    ensures values { IfOk result (λ runs. values_of_runs (kinds_in col.now).values (child_at (array_in col.now) 1) runs.items
        ≡ run_values (kinds_in col.now) (array_in col.now)) }
    ensures inside { IfOk result (λ runs. All (λ run. run.item < tree_items (child_at (array_in col.now) 1)) runs.items) }
{
    let count = count_items(col);
    let mut runs = Vec::new(alloc);
    let mut run = first_run(col);
    let mut at = 0;
    while at < count {
        let stop = stop_of(col, at, run);
        runs.push(Run {
            item: run,
            times: stop - at,
        })?;
        at = stop;
        run += 1;
    }
    Ok(runs)
}

/// The run of the first item, and 0 where there are no items.
fn first_run(col: &RunCol<'_>) -> u64
    ensures reaches { ReachesRun (kinds_in col.now) (array_in col.now) 0 result }
    ensures few { result < window_limit }
{
    if count_items(col) == 0 { 0 } else { col.run(0) }
}

/// The first item behind the run of an item.
fn stop_of(col: &RunCol<'_>, at: u64, run: u64) -> u64
    requires inside { at < items (members_of (array_in col.now)) }
    requires reaches { ReachesRun (kinds_in col.now) (array_in col.now) at run }
    ensures above { at < result }
    ensures within { result ≤ items (members_of (array_in col.now)) }
    ensures same { (j : ℕ) → at ≤ j → j < result → run_of (kinds_in col.now) (array_in col.now) j ≡ run }
    ensures next { ReachesRun (kinds_in col.now) (array_in col.now) result (run + 1) }
    ensures stored { run < tree_items (child_at (array_in col.now) 1) }
    ensures few { run < 2 ^ 63 }
{
    col.values().len();
    col.behind(at, run)
}

/// The number of bytes of a run's value, and 0 for a null and for what isn't bytes.
fn value_bytes(col: &RunCol<'_>, run: u64) -> u64
    requires inside { run < tree_items (child_at (array_in col.now) 1) }
    requires few { run < 2 ^ 63 }
    ensures bytes { result ≡ length (bytes_of (value_at (kinds_in col.now).values (child_at (array_in col.now) 1) run)) }
    ensures small { result < 2 ^ 64 }
{
    let values = col.values();
    values.len();
    match values.bytes(run as i64) {
        Some(bytes) => bytes.len() as u64,
        None => 0,
    }
}
