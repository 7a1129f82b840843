//! The runs of equal values of a flat column.
ghost use Rattle.std.specs.Prelude.{◌≡◌, ◌<◌, ◌≤◌, ◌^◌, ◌++◌, ◌⊎◌, get_or, length, IfOk, IfErr, OnOk};
ghost use Rattle.arr_import.specs.Cols.{window_of};
ghost use Rattle.arr_import.specs.Window.{items_of};
ghost use Rattle.data_types.specs.promise.Value.Value.{Null};
ghost use Rattle.data_types.specs.KindTrees.{TypedOk};
ghost use Rattle.data_types.specs.promise.TypedView.{typed_of};
ghost use Rattle.layout_rules.specs.promise.Values.{tree_items, values_of};
ghost use Rattle.layout_rules.specs.promise.Walk.{LayoutOk};
ghost use Rattle.run_ends.specs.ColumnRuns.{values_in};
ghost use Rattle.run_ends.specs.RunCoding.{IsRun};
ghost use Rattle.data_types.specs.NumberedTexts.{numbered_line};
ghost use Rattle.tree_top.specs.RunLines.{run_lines};
ghost use Rattle.tree_top.specs.promise.RunsAnswer.{RunsAnswer, runs_text};
ghost use Rattle.tree_top.specs.AnswerParts.{runs_of_column};
ghost use Rattle.tree_top.specs.promise.TextOrFault.{Fault, Text};

use crate::fault::TreeRunFault;
use arr_import::Col;
use data_types::Typed;
use layout_check::check_array;
use raw_array::RawArray;
use raw_schema::RawSchema;
use run_ends::{ColumnRuns, encode_fault};
use schema_check::check_schema;
use std::alloc::Global;
use tree_check::CheckFault;
use unit_pass::NoMemory;
use value_text::{BoundedText, push_numbered};

/// A line for each run of equal values of a flat column: the place behind its last item, and its value ("Arrow Columnar Format",
/// "Run-End Encoded Layout"); or the first fault: of the schema, of the array, of the column's kind and its number of items.
pub(crate) fn runs_text(
    alloc: Global,
    schema: &RawSchema,
    array: &RawArray,
) -> Result<Vec<u8>, TreeRunFault>
    ensures text { IfOk result (λ text. RunsAnswer schema.now array.now (Text text.items)) }
    ensures fault { IfErr result (λ fault. (fault ≡ TreeRunFault.NoMemory) ⊎ RunsAnswer schema.now array.now (Fault fault)) }
{
    let typed = match check_schema(alloc, schema) {
        Ok(typed) => typed,
        Err(fault) => return Err(TreeRunFault::from(CheckFault::from(fault))),
    };
    match check_array(&typed, array) {
        Ok(()) => column_text(alloc, &typed, array),
        Err(fault) => Err(TreeRunFault::from(CheckFault::from(fault))),
    }
}

/// The text of a lawful array's runs, or why it has none.
fn column_text(alloc: Global, typed: &Typed, array: &RawArray) -> Result<Vec<u8>, TreeRunFault>
    requires types { TypedOk (typed_of typed.now) }
    requires lawful { LayoutOk (typed_of typed.now) array.now }
    ensures text { IfOk result (λ text. Text text.items ≡ runs_of_column (typed_of typed.now) array.now) }
    ensures fault { IfErr result (λ fault. (fault ≡ TreeRunFault.NoMemory) ⊎ (Fault fault ≡ runs_of_column (typed_of typed.now) array.now)) }
{
    match encode_fault(typed, array) {
        None => Ok(lines(alloc, typed, array)?),
        Some(fault) => Err(TreeRunFault::Code(fault)),
    }
}

/// The text of a lawful array's runs.
fn lines(alloc: Global, typed: &Typed, array: &RawArray) -> Result<Vec<u8>, NoMemory>
    requires types { TypedOk (typed_of typed.now) }
    requires lawful { LayoutOk (typed_of typed.now) array.now }
    ensures { IfOk result (λ text. text.items ≡ runs_text (values_of (typed_of typed.now) array.now)) }
{
    let mut text = BoundedText::new(alloc);
    text.push_bytes(b"ok\n")?;
    push_runs(
        &mut text,
        &ColumnRuns::of(typed, array),
        &Col::of(typed, array),
    )?;
    Ok(text.into_bytes())
}

/// The number of a column's items.
fn count_items(runs: &ColumnRuns<'_>) -> u64
    ensures count { result ≡ length (values_in runs.now) }
    ensures small { result < 2 ^ 63 }
{
    runs.len() as u64
}

/// Appends a line for each run of a column's items.
fn push_runs(text: &mut BoundedText, runs: &ColumnRuns<'_>, items: &Col<'_>) -> Result<(), NoMemory>
    requires { items_of (window_of items.now) ≡ values_in runs.now }
    ensures { OnOk result (text.new ≡ text.old ++ run_lines 0 (values_in runs.now)) }
{
    let count = count_items(runs);
    let mut at = 0;
    while at < count {
        at = push_run(text, runs, items, at)?;
    }
    Ok(())
}

/// Where the run ends that begins at an item.
fn stop_of(runs: &ColumnRuns<'_>, at: u64) -> u64
    requires { at < length (values_in runs.now) }
    ensures above { at < result }
    ensures within { result ≤ length (values_in runs.now) }
    ensures run { IsRun (values_in runs.now) at result }
{
    count_items(runs);
    runs.stop(at as i64) as u64
}

/// Appends the line of the run that begins at an item, and answers where it ends.
fn push_run(
    text: &mut BoundedText,
    runs: &ColumnRuns<'_>,
    items: &Col<'_>,
    at: u64,
) -> Result<u64, NoMemory>
    requires same { items_of (window_of items.now) ≡ values_in runs.now }
    requires inside { at < length (values_in runs.now) }
    ensures above { IfOk result (λ stop. at < stop) }
    ensures within { IfOk result (λ stop. stop ≤ length (values_in runs.now)) }
    ensures run { IfOk result (λ stop. IsRun (values_in runs.now) at stop) }
    ensures line { IfOk result (λ stop. text.new ≡ text.old ++ numbered_line (stop, get_or (values_in runs.now) at Null)) }
{
    count_items(runs);
    let stop = stop_of(runs, at);
    push_numbered(text, stop, items, at)?;
    Ok(stop)
}
