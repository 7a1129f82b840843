//! The runs of a column's values: items that are side by side and have the same value.
ghost use Rattle.std.specs.Prelude.{◌≡◌, ◌↔◌, IsTrue, is_none, true};
ghost use Rattle.tree_model.specs.promise.TreeParts.{child_at};
ghost use Rattle.data_types.specs.promise.TypedView.{typed_of};
ghost use Rattle.layout_rules.specs.promise.Walk.{first_fault};
ghost use Rattle.arr_import.specs.Window.{whole};
ghost use Rattle.arr_import.specs.Cols.{window_of};
ghost use Rattle.layout_rules.specs.promise.Rules.{window_limit};
ghost use Rattle.run_ends.specs.WindowProps.{window_prop};

use crate::ends::count;
use crate::same::is_same;
use arr_import::Col;
use data_types::{DataType, Typed, kinds_of_typed};
use layout_rules::{lawful_has_no_fault, lawful_root};
use raw_array::RawArray;

/// The items of a lawful column, of which the runs are looked for.
#[derive(Clone, Copy)]
pub struct ColumnRuns<'a> {
    pub(crate) typed: &'a Typed,
    pub(crate) array: &'a RawArray,
    items: Col<'a>,
    ghost lawful: { IsTrue (is_none (first_fault (typed_of typed.now) array.now)) },
    ghost items_are: { window_of items ≡ whole (typed_of typed.now) array.now } by { window_prop (window_of items) (whole (typed_of typed.now) array.now) },
}

impl<'a> ColumnRuns<'a> {
    ghost use Rattle.std.specs.Prelude.{ℕ, ◌+◌, ◌<◌, ◌≤◌, ◌≤ℤ◌, ◌<ℤ◌, pos, length, get_or};
    ghost use Rattle.data_types.specs.promise.Value.Value.{Null};
    ghost use Rattle.data_types.specs.KindTrees.{TypedOk};
    ghost use Rattle.layout_rules.specs.promise.Layout.{natural};
    ghost use Rattle.layout_rules.specs.promise.Values.{values_of};
    ghost use Rattle.layout_rules.specs.promise.Walk.{LayoutOk};
    ghost use Rattle.run_ends.specs.RunCoding.{IsRun, is_same};
    ghost use Rattle.run_ends.specs.ColumnRuns.{values_in};

    /// All items of an array that `layout_check::check_array` accepted.
    pub fn of(typed: &'a Typed, array: &'a RawArray) -> ColumnRuns<'a>
        requires lawful { LayoutOk (typed_of typed.now) array.now }
        requires types { TypedOk (typed_of typed.now) }
        ensures { values_in result ≡ values_of (typed_of typed.now) array.now }
    {
        lawful_has_no_fault(typed, array);
        ColumnRuns {
            typed,
            array,
            items: Col::of(typed, array),
        }
    }

    /// The number of items.
    pub fn len(&self) -> i64
        ensures { result ≡ pos (length (values_in self.now)) }
    {
        self.count() as i64
    }

    /// The number of the first item behind item `i` that hasn't its value, and the number of all items where there is none: the run
    /// that begins at item `i` ends there ("Arrow Columnar Format", "Run-End Encoded Layout"). A null is the same as a null, and
    /// floats are by their bits. The items of the run are looked at one by one, but for items without bytes of a column without a
    /// validity bitmap, which are all the same.
    pub fn stop(&self, i: i64) -> i64
        requires from { pos 0 ≤ℤ i }
        requires below { i <ℤ pos (length (values_in self.now)) }
        ensures above { i <ℤ result }
        ensures within { result ≤ℤ pos (length (values_in self.now)) }
        ensures run { IsRun (values_in self.now) (natural i) (natural result) }
    {
        self.stop_of(i as u64) as i64
    }

    /// The same of numbers without a sign.
    pub(crate) fn stop_of(&self, i: u64) -> u64
        requires { i < length (values_in self.now) }
        ensures above { i < result }
        ensures within { result ≤ length (values_in self.now) }
        ensures few { result ≤ window_limit }
        ensures run { IsRun (values_in self.now) i result }
    {
        let count = self.count();
        if self.are_alike() {
            return count;
        }
        for j in i..count - 1 {
            if !self.is_next_same(j) {
                return j + 1;
            }
        }
        count
    }

    /// The number of items, without a sign.
    pub(crate) fn count(&self) -> u64
        ensures count { result ≡ length (values_in self.now) }
        ensures few { result ≤ window_limit }
    {
        lawful_has_no_fault(self.typed, self.array);
        lawful_root(self.typed, self.array);
        count(&self.items)
    }

    /// Whether an item has the value of the one behind it.
    #[inline(always)]
    fn is_next_same(&self, i: u64) -> bool
        requires { i + 1 < length (values_in self.now) }
        ensures { IsTrue result ↔ (is_same (get_or (values_in self.now) i Null) (get_or (values_in self.now) (i + 1) Null) ≡ true) }
    {
        self.count();
        is_same(&self.items, i, i + 1)
    }

    /// Whether the items have no bytes and none is null, so that all are the same.
    fn are_alike(&self) -> bool
        ensures { IsTrue result → (k : ℕ) → k + 1 < length (values_in self.now)
            → is_same (get_or (values_in self.now) k Null) (get_or (values_in self.now) (k + 1) Null) ≡ true }
    {
        kinds_of_typed(self.typed);
        lawful_has_no_fault(self.typed, self.array);
        lawful_root(self.typed, self.array);
        match &self.typed.kind {
            DataType::FixedBinary { size: 0 } => {
                self.typed.dict.is_none() && self.array.buffer(0).is_none()
            }
            _ => false,
        }
    }
}
