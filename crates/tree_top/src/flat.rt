//! The items of a run-end encoded array.
ghost use Rattle.std.specs.Prelude.{◌≡◌, ◌<◌, ◌-◌, ◌^◌, ◌++◌, ◌⊎◌, ℕ, IfOk, IfErr, OnOk, length};
ghost use Rattle.std.specs.List.{flat_map};
ghost use Rattle.layout_rules.specs.promise.Layout.{items};
ghost use Rattle.data_types.specs.promise.TypedView.{typed_of};
ghost use Rattle.layout_rules.specs.promise.Values.{each, tree_items, value_at};
ghost use Rattle.layout_rules.specs.promise.Walk.{LayoutOk};
ghost use Rattle.raw_array.specs.promise.Members.{members_of};
ghost use Rattle.run_ends.specs.RunAnswers.{runs_of};
ghost use Rattle.run_ends.specs.RunCols.{array_in, kinds_in};
ghost use Rattle.run_ends.specs.RunRules.{RunsOk};
ghost use Rattle.run_ends.specs.promise.Runs.{run_of, run_values};
ghost use Rattle.run_ends.specs.Runs.{RunTypedOk, run_value};
ghost use Rattle.tree_model.specs.promise.TreeParts.{child_at, children_of};
ghost use Rattle.value_text.specs.Lengths.{Tells, capped};
ghost use Rattle.data_types.specs.promise.ValueTexts.{lines_text, value_line};
ghost use Rattle.tree_top.specs.promise.FlatAnswer.{FlatAnswer};
ghost use Rattle.tree_top.specs.RunLines.{Reaches};
ghost use Rattle.tree_top.specs.promise.TextOrFault.{Fault, Text};

use crate::fault::TreeRunFault;
use raw_array::RawArray;
use raw_schema::RawSchema;
use run_ends::{RunCol, RunTyped, check_runs, read_runs};
use std::alloc::Global;
use unit_pass::NoMemory;
use value_text::{BoundedText, Lengths, measured_lengths, plus, push_value, times};

/// A line for each item of a run-end encoded array under its schema, or the first fault: of the schema, and then of the array ("Arrow
/// Columnar Format", "Run-End Encoded Layout").
pub(crate) fn flat_text(
    alloc: Global,
    schema: &RawSchema,
    array: &RawArray,
) -> Result<Vec<u8>, TreeRunFault>
    ensures text { IfOk result (λ text. FlatAnswer schema.now array.now (Text text.items)) }
    ensures fault { IfErr result (λ fault. (fault ≡ TreeRunFault.NoMemory) ⊎ FlatAnswer schema.now array.now (Fault fault)) }
{
    let typed = match read_runs(alloc, schema) {
        Ok(typed) => typed,
        Err(fault) => return Err(TreeRunFault::from(fault)),
    };
    match check_runs(&typed, array) {
        Ok(()) => Ok(measured_lines(alloc, &typed, array)?),
        Err(fault) => Err(TreeRunFault::from(fault)),
    }
}

/// The text of an array's items. Its length is found first.
fn measured_lines(alloc: Global, typed: &RunTyped, array: &RawArray) -> Result<Vec<u8>, NoMemory>
    requires types { RunTypedOk (runs_of typed.now) }
    requires lawful { RunsOk (runs_of typed.now) array.now }
    ensures { IfOk result (λ text. text.items ≡ lines_text (run_values (runs_of typed.now) array.now)) }
{
    let length = flat_length(alloc, typed, array)?;
    lines(alloc, &RunCol::of(typed, array), length)
}

/// The text of a column's items, in room of this length.
fn lines(alloc: Global, col: &RunCol<'_>, length: u32) -> Result<Vec<u8>, NoMemory>
    ensures { IfOk result (λ text. text.items ≡ lines_text (run_values (kinds_in col.now) (array_in col.now))) }
{
    let mut text = BoundedText::new(alloc);
    text.take_room(length)?;
    text.push_bytes(b"ok\n")?;
    push_items(alloc, &mut text, col)?;
    Ok(text.into_bytes())
}

/// The length in bytes of the text of an array's items, where 2^31 + 1 stands for each above 2^31. Each value is measured once,
/// however long its run is.
fn flat_length(alloc: Global, typed: &RunTyped, array: &RawArray) -> Result<u32, NoMemory>
    requires types { RunTypedOk (runs_of typed.now) }
    requires lawful { RunsOk (runs_of typed.now) array.now }
    ensures { IfOk result (λ count. count ≡ capped (length (lines_text (run_values (runs_of typed.now) array.now)))) }
{
    values_are_lawful(typed, array);
    let lengths = measured_lengths(alloc, &typed.values, array.child(1))?;
    Ok(text_length(&RunCol::of(typed, array), &lengths))
}

/// A law: where no rule fails, the second child is there and lawful.
fn values_are_lawful(typed: &RunTyped, array: &RawArray)
    requires { RunsOk (runs_of typed.now) array.now }
    ensures children { length (children_of array.now) ≡ 2 }
    ensures values { LayoutOk (typed_of typed.now.values) (child_at array.now 1) }
{
    root_check::faultless_roots();
}

/// The same of a column whose values have texts of these lengths: that of a run at once.
fn text_length(col: &RunCol<'_>, lengths: &Lengths) -> u32
    requires { Tells lengths.now (value_at (kinds_in col.now).values (child_at (array_in col.now) 1)) (tree_items (child_at (array_in col.now) 1)) }
    ensures { result ≡ capped (length (lines_text (run_values (kinds_in col.now) (array_in col.now)))) }
{
    let count = count_items(col);
    let mut at = first_run(col);
    let mut sum = 3;
    let mut i = 0;
    while i < count {
        at = run_from(col, i, at);
        sum = plus(
            sum,
            times(at.stop - i, line_length(col, lengths, i, at.run)),
        );
        i = at.stop;
    }
    sum
}

/// The length of the line of an item of this run.
fn line_length(col: &RunCol<'_>, lengths: &Lengths, i: u64, run: u64) -> u32
    requires lengths { Tells lengths.now (value_at (kinds_in col.now).values (child_at (array_in col.now) 1)) (tree_items (child_at (array_in col.now) 1)) }
    requires inside { i < items (members_of (array_in col.now)) }
    requires at { run ≡ run_of (kinds_in col.now) (array_in col.now) i }
    ensures { result ≡ capped (length (value_line (run_value (kinds_in col.now) (array_in col.now) i))) }
{
    count_values(col);
    let _values = col.values();
    plus(lengths.at(run as usize), 1)
}

/// The number of a column's items.
fn count_items(col: &RunCol<'_>) -> u64
    ensures count { result ≡ items (members_of (array_in col.now)) }
    ensures small { result < 2 ^ 63 }
{
    col.len() as u64
}

/// The number of a column's values, among which the runs of all items are.
fn count_values(col: &RunCol<'_>) -> u64
    ensures stored { (i : ℕ) → i < items (members_of (array_in col.now)) → run_of (kinds_in col.now) (array_in col.now) i < result }
    ensures small { result < 2 ^ 63 }
{
    col.values().len() as u64
}

/// Appends a line for each item of a column. A line has two bytes at least, so very many items are refused at once.
fn push_items(alloc: Global, text: &mut BoundedText, col: &RunCol<'_>) -> Result<(), NoMemory>
    ensures { OnOk result (text.new ≡ text.old ++ flat_map value_line (run_values (kinds_in col.now) (array_in col.now))) }
{
    let count = count_items(col);
    text.has_room(count * 2)?;
    let mut at = first_run(col);
    let mut i = 0;
    while i < count {
        at = run_from(col, i, at);
        push_run(alloc, text, col, i, at)?;
        i = at.stop;
    }
    Ok(())
}

/// Appends a line for each item of a run from an item on. The text of their value is made once.
fn push_run(
    alloc: Global,
    text: &mut BoundedText,
    col: &RunCol<'_>,
    i: u64,
    at: Reached,
) -> Result<(), NoMemory>
    requires above { i < at.stop }
    requires reaches { Reaches (kinds_in col.now) (array_in col.now) i at.run at.stop }
    ensures { OnOk result (text.new ≡ text.old ++ flat_map value_line (each (run_value (kinds_in col.now) (array_in col.now)) i (at.stop - i))) }
{
    if at.stop - i == 1 {
        return push_item(text, col, i, at.run);
    }
    let mut line = BoundedText::new(alloc);
    push_item(&mut line, col, i, at.run)?;
    let line = line.into_bytes();
    for j in i..at.stop {
        let _number = j;
        text.push_bytes(&line)?;
    }
    Ok(())
}

/// A run, and the first item behind it.
#[derive(Clone, Copy)]
pub(crate) struct Reached {
    pub(crate) run: u64,
    pub(crate) stop: u64,
}

/// The run of the first item, and nothing where there are no items.
fn first_run(col: &RunCol<'_>) -> Reached
    ensures { Reaches (kinds_in col.now) (array_in col.now) 0 result.run result.stop }
{
    if count_items(col) == 0 {
        return Reached { run: 0, stop: 0 };
    }
    known_run(col, 0, col.run_of(0) as u64)
}

/// A run that an item lies in, from the item on.
fn known_run(col: &RunCol<'_>, i: u64, run: u64) -> Reached
    requires inside { i < items (members_of (array_in col.now)) }
    requires at { run ≡ run_of (kinds_in col.now) (array_in col.now) i }
    ensures run { result.run ≡ run }
    ensures above { i < result.stop }
    ensures reaches { Reaches (kinds_in col.now) (array_in col.now) i result.run result.stop }
{
    count_items(col);
    count_values(col);
    Reached {
        run,
        stop: col.next_run_start(i as i64, run as i64) as u64,
    }
}

/// The run of an item, where one is known up to it: that one, or the next.
fn run_from(col: &RunCol<'_>, i: u64, at: Reached) -> Reached
    requires inside { i < items (members_of (array_in col.now)) }
    requires known { Reaches (kinds_in col.now) (array_in col.now) i at.run at.stop }
    ensures above { i < result.stop }
    ensures reaches { Reaches (kinds_in col.now) (array_in col.now) i result.run result.stop }
{
    count_values(col);
    if i < at.stop {
        at
    } else {
        known_run(col, i, at.run + 1)
    }
}

/// Appends the line of an item of this run.
fn push_item(text: &mut BoundedText, col: &RunCol<'_>, i: u64, run: u64) -> Result<(), NoMemory>
    requires inside { i < items (members_of (array_in col.now)) }
    requires at { run ≡ run_of (kinds_in col.now) (array_in col.now) i }
    ensures { OnOk result (text.new ≡ text.old ++ value_line (run_value (kinds_in col.now) (array_in col.now) i)) }
{
    count_values(col);
    push_value(text, &col.values(), run)?;
    text.push(b'\n')
}
