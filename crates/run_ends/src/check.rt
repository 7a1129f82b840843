//! The rules of a run-end encoded array, one after the other.
ghost use Rattle.std.specs.Prelude.{◌≡◌, ◌↔◌, ◌<◌, ◌≤ℤ◌, nat_lt, int_lt, pos, IsOk, None, OnOk, Option, length};
ghost use Rattle.tree_model.specs.promise.TreeParts.{IsLive, child_at, children_of};
ghost use Rattle.raw_array.specs.promise.Members.{ArrayTree, members_of};
ghost use Rattle.data_types.specs.KindTrees.{TypedOk};
ghost use Rattle.data_types.specs.promise.TypedView.{typed_of};
ghost use Rattle.layout_rules.specs.promise.Layout.{end};
ghost use Rattle.layout_rules.specs.promise.Rules.{fault_if};
ghost use Rattle.layout_rules.specs.promise.Walk.{LayoutOk, first_fault};
ghost use Rattle.root_check.specs.Children.{at_child};
ghost use Rattle.arr_import.specs.Window.{item_at};
ghost use Rattle.arr_import.specs.Cols.{window_of};
ghost use Rattle.run_ends.specs.promise.Runs.{IsEnds, ends_in, run_count};
ghost use Rattle.run_ends.specs.Runs.{RunTypedOk, value_count};
ghost use Rattle.run_ends.specs.promise.RunRules.{runs_fault};
ghost use Rattle.root_check.specs.promise.Found.{by};
ghost use Rattle.run_ends.specs.RunRules.{RunsOk, child_rule, end_answers, first_answer, kids_fault};
ghost use Rattle.run_ends.specs.RunAnswers.{runs_of, rule_of, found_runs};

use crate::ends::{count, end_before, first_fall, first_null};
use crate::kinds::RunTyped;
use crate::rule::{RunsFault, RunsRule};
use arr_import::Col;
use data_types::Typed;
use layout_check::{Numbers, check_array, window_too_long};
use raw_array::RawArray;
use root_check::check_own;

/// Checks a run-end encoded array against its kinds ("Arrow Columnar Format", "Run-End Encoded Layout"). The fault is the first rule
/// of [`RunsRule`] that fails. The array's window isn't that of its children: all ends of the first child's own window are looked at.
/// Takes no memory.
pub fn check_runs(typed: &RunTyped, array: &RawArray) -> Result<(), RunsFault>
    requires { RunTypedOk (runs_of typed.now) }
    ensures fault { found_runs result ≡ runs_fault (runs_of typed.now) array.now }
    ensures lawful { IsOk result ↔ RunsOk (runs_of typed.now) array.now }
{
    check_own(array, 0, 2)?;
    check_kids(typed, array)?;
    check_ends(typed, array)
}

/// The rules on the children.
fn check_kids(typed: &RunTyped, array: &RawArray) -> Result<(), RunsFault>
    requires types { RunTypedOk (runs_of typed.now) }
    requires live { IsLive array.now }
    requires children { length (children_of array.now) ≡ 2 }
    ensures fault { found_runs result ≡ child_rule (kids_fault (runs_of typed.now) array.now) }
    ensures ends { OnOk result (LayoutOk (typed_of typed.now.ends) (child_at array.now 0)) }
    ensures values { OnOk result (LayoutOk (typed_of typed.now.values) (child_at array.now 1)) }
{
    check_child(&typed.ends, array, 0)?;
    check_child(&typed.values, array, 1)
}

/// The rules on one child.
fn check_child(typed: &Typed, array: &RawArray, k: usize) -> Result<(), RunsFault>
    requires types { TypedOk (typed_of typed.now) }
    requires live { IsLive array.now }
    requires inside { k < length (children_of array.now) }
    ensures fault { found_runs result ≡ child_rule (at_child k (first_fault (typed_of typed.now) (child_at array.now k))) }
    ensures passed { OnOk result (LayoutOk (typed_of typed.now) (child_at array.now k)) }
{
    match check_array(typed, array.child(k)) {
        Ok(()) => Ok(()),
        Err(fault) => Err(RunsFault {
            rule: RunsRule::Child(fault),
            place: k as u64,
            left: 0,
            right: 0,
        }),
    }
}

/// The rules on the ends, and on what the array needs of its children.
fn check_ends(typed: &RunTyped, array: &RawArray) -> Result<(), RunsFault>
    requires types { RunTypedOk (runs_of typed.now) }
    requires live { IsLive array.now }
    requires length { pos 0 ≤ℤ (members_of array.now).length }
    requires offset { pos 0 ≤ℤ (members_of array.now).offset }
    requires children { length (children_of array.now) ≡ 2 }
    requires ends { LayoutOk (typed_of typed.now.ends) (child_at array.now 0) }
    requires values { LayoutOk (typed_of typed.now.values) (child_at array.now 1) }
    ensures { found_runs result ≡ first_answer (end_answers (ends_in (runs_of typed.now) array.now) (run_count array.now) (value_count array.now) (end (members_of array.now))) }
{
    let ends = Col::of(&typed.ends, array.child(0));
    let values = Col::of(&typed.values, array.child(1));
    check_cols(&ends, count(&values), stop(array))
}

/// The place behind the window's last item.
fn stop(array: &RawArray) -> u64
    requires live { IsLive array.now }
    requires length { pos 0 ≤ℤ (members_of array.now).length }
    requires offset { pos 0 ≤ℤ (members_of array.now).offset }
    ensures { result ≡ end (members_of array.now) }
{
    array.offset() as u64 + array.length() as u64
}

/// The same of a column of ends, this many values and the place behind the window's last item.
fn check_cols(ends: &Col, values: u64, stop: u64) -> Result<(), RunsFault>
    requires { IsEnds (window_of ends.now).typed }
    ensures { found_runs result ≡ first_answer (end_answers (item_at (window_of ends.now)) (window_of ends.now).count values stop) }
{
    ruled(RunsRule::EndsNull, first_null(ends))?;
    ruled(RunsRule::EndsFall, first_fall(ends))?;
    let runs = ends.len() as u64;
    ruled(RunsRule::ValuesShort, fewer(values, runs))?;
    ruled(RunsRule::EndsShort, lower(end_before(ends, runs), stop))?;
    ruled(RunsRule::WindowTooLong, window_too_long(stop))
}

/// A number that is below another one: both.
fn fewer(found: u64, needed: u64) -> Option<Numbers>
    ensures { result ≡ fault_if (nat_lt found needed) 0 (pos found) (pos needed) }
{
    if found < needed {
        Some(Numbers {
            place: 0,
            left: i128::from(found),
            right: i128::from(needed),
        })
    } else {
        None
    }
}

/// An end that is below a place: both.
fn lower(end: i128, place: u64) -> Option<Numbers>
    ensures { result ≡ fault_if (int_lt end (pos place)) 0 end (pos place) }
{
    let place = i128::from(place);
    if end < place {
        Some(Numbers {
            place: 0,
            left: end,
            right: place,
        })
    } else {
        None
    }
}

/// A rule's answer.
fn ruled(rule: RunsRule, fault: Option<Numbers>) -> Result<(), RunsFault>
    ensures fault { found_runs result ≡ by (rule_of rule) fault }
    ensures passed { OnOk result (fault ≡ None) }
{
    match fault {
        None => Ok(()),
        Some(numbers) => Err(RunsFault {
            rule,
            place: numbers.place,
            left: numbers.left,
            right: numbers.right,
        }),
    }
}
