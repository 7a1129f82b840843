//! The items of a run-end encoded array, read in place.
ghost use Rattle.std.specs.Prelude.{◌≡◌, IsTrue, is_none};
ghost use Rattle.tree_model.specs.promise.TreeParts.{child_at};
ghost use Rattle.raw_array.specs.promise.Members.{members_of};
ghost use Rattle.data_types.specs.promise.TypedView.{typed_of};
ghost use Rattle.layout_rules.specs.promise.Layout.{first, items};
ghost use Rattle.arr_import.specs.Window.{whole};
ghost use Rattle.arr_import.specs.Cols.{window_of};
ghost use Rattle.layout_rules.specs.promise.Rules.{window_limit};
ghost use Rattle.run_ends.specs.WindowProps.{window_prop};
ghost use Rattle.run_ends.specs.promise.RunRules.{runs_fault};
ghost use Rattle.run_ends.specs.RunAnswers.{runs_of};

use crate::ends::{count, ends_above, run_end};
use crate::kinds::RunTyped;
use crate::laws::runs_hold;
use arr_import::{Col, ValueRef};
use layout_rules::lawful_trees;
use raw_array::RawArray;

/// The items of a run-end encoded array that [`crate::check_runs`] accepted, in its window. The children are looked up once.
#[derive(Clone, Copy)]
pub struct RunCol<'a> {
    pub(crate) typed: &'a RunTyped,
    pub(crate) array: &'a RawArray,
    ends: Col<'a>,
    values: Col<'a>,
    /// The place of the window's first item.
    start: u64,
    /// The number of the window's items.
    count: u64,
    ghost lawful: { IsTrue (is_none (runs_fault (runs_of typed.now) array.now)) },
    ghost ends_are: { window_of ends ≡ whole (typed_of typed.now.ends) (child_at array.now 0) } by { window_prop (window_of ends) (whole (typed_of typed.now.ends) (child_at array.now 0)) },
    ghost values_are: { window_of values ≡ whole (typed_of typed.now.values) (child_at array.now 1) } by { window_prop (window_of values) (whole (typed_of typed.now.values) (child_at array.now 1)) },
    ghost starts_at: { start ≡ first (members_of array.now) },
    ghost counted: { count ≡ items (members_of array.now) },
}

impl<'a> RunCol<'a> {
    ghost use Rattle.std.specs.Prelude.{ℕ, ◌+◌, ◌<◌, ◌≤◌, ◌≤ℤ◌, ◌<ℤ◌, pos};
    ghost use Rattle.layout_rules.specs.promise.Layout.{natural};
    ghost use Rattle.arr_import.specs.Shown.{Shows};
    ghost use Rattle.run_ends.specs.promise.Runs.{run_count, ends_in, ends_above, run_end, run_of};
    ghost use Rattle.run_ends.specs.Runs.{RunTypedOk, run_at, run_value};
    ghost use Rattle.run_ends.specs.RunHolds.{Parted};
    ghost use Rattle.run_ends.specs.RunRules.{RunsOk};
    ghost use Rattle.run_ends.specs.RunCols.{kinds_in, array_in};

    /// All items of an array that [`crate::check_runs`] accepted.
    pub fn of(typed: &'a RunTyped, array: &'a RawArray) -> RunCol<'a>
        requires types { RunTypedOk (runs_of typed.now) }
        requires lawful { RunsOk (runs_of typed.now) array.now }
        ensures kinds { kinds_in result ≡ runs_of typed.now }
        ensures array { array_in result ≡ array.now }
    {
        runs_hold(typed, array);
        RunCol {
            typed,
            array,
            ends: Col::of(&typed.ends, array.child(0)),
            values: Col::of(&typed.values, array.child(1)),
            start: array.offset() as u64,
            count: array.length() as u64,
        }
    }

    /// The number of items.
    pub fn len(&self) -> i64
        ensures { result ≡ pos (items (members_of (array_in self.now))) }
    {
        runs_hold(self.typed, self.array);
        self.count as i64
    }

    /// The column of the values, one of each run, and the run of each item is among them.
    #[inline(always)]
    pub fn values(&self) -> Col<'a>
        ensures window { window_of result ≡ whole (kinds_in self.now).values (child_at (array_in self.now) 1) }
        ensures stored { (i : ℕ) → i < items (members_of (array_in self.now)) → run_of (kinds_in self.now) (array_in self.now) i < (window_of result).count }
    {
        runs_hold(self.typed, self.array);
        self.values
    }

    /// The number of the run that item `i` lies in, counted from 0: the first one whose end is above the item's place. The ends
    /// rise, so that the search takes a number of steps that grows with the logarithm of the number of runs.
    pub fn run_of(&self, i: i64) -> i64
        requires from { pos 0 ≤ℤ i }
        requires below { i <ℤ pos (items (members_of (array_in self.now))) }
        ensures run { result ≡ pos (run_of (kinds_in self.now) (array_in self.now) (natural i)) }
        ensures inside { run_of (kinds_in self.now) (array_in self.now) (natural i) < run_count (array_in self.now) }
    {
        runs_hold(self.typed, self.array);
        self.run(i as u64) as i64
    }

    /// The number of the first item behind a run that item `i` lies in, and the number of all items where the run is the window's
    /// last. A walk over all items needs no search: it begins at the run of item 0, and goes on at the next run.
    #[inline(always)]
    pub fn next_run_start(&self, i: i64, run: i64) -> i64
        requires from { pos 0 ≤ℤ i }
        requires below { i <ℤ pos (items (members_of (array_in self.now))) }
        requires at { run ≡ pos (run_of (kinds_in self.now) (array_in self.now) (natural i)) }
        ensures above { i <ℤ result }
        ensures within { result ≤ℤ pos (items (members_of (array_in self.now))) }
        ensures same { (j : ℕ) → natural i ≤ j → j < natural result → run_of (kinds_in self.now) (array_in self.now) j ≡ natural run }
        ensures next { natural result < items (members_of (array_in self.now))
            → run_of (kinds_in self.now) (array_in self.now) (natural result) ≡ natural run + 1 }
    {
        runs_hold(self.typed, self.array);
        self.behind(i as u64, run as u64) as i64
    }

    /// Where item `i` is: the column of the values, and the number of the item there, which is that of its run.
    pub fn item(&self, i: i64) -> (Col<'a>, i64)
        requires from { pos 0 ≤ℤ i }
        requires below { i <ℤ pos (items (members_of (array_in self.now))) }
        ensures values { window_of result.0 ≡ whole (kinds_in self.now).values (child_at (array_in self.now) 1) }
        ensures number { result.1 ≡ pos (run_of (kinds_in self.now) (array_in self.now) (natural i)) }
        ensures inside { result.1 <ℤ pos (window_of result.0).count }
    {
        runs_hold(self.typed, self.array);
        (self.values, self.run_of(i))
    }

    /// Item `i`: the value of its run. Bytes are lent from the values' blocks.
    pub fn value(&self, i: i64) -> ValueRef<'a>
        requires from { pos 0 ≤ℤ i }
        requires below { i <ℤ pos (items (members_of (array_in self.now))) }
        ensures { Shows result (run_value (kinds_in self.now) (array_in self.now) (natural i)) }
    {
        let (values, number) = self.item(i);
        values.value(number)
    }

    /// The run of an item.
    #[inline(always)]
    pub(crate) fn run(&self, i: u64) -> u64
        requires { i < items (members_of (array_in self.now)) }
        ensures run { result ≡ run_of (kinds_in self.now) (array_in self.now) i }
        ensures inside { result < run_count (array_in self.now) }
        ensures few { result < window_limit }
    {
        runs_hold(self.typed, self.array);
        lawful_trees();
        self.run_at(self.start + i)
    }

    /// The run of a place.
    fn run_at(&self, place: u64) -> u64
        ensures { result ≡ run_at (ends_in (kinds_in self.now) (array_in self.now)) (run_count (array_in self.now)) place }
    {
        runs_hold(self.typed, self.array);
        let mut low = 0;
        let mut high = self.run_count();
        while low < high {
            let middle = low + (high - low) / 2;
            if self.ends_above(middle, place) {
                high = middle;
            } else {
                low = middle + 1;
            }
        }
        self.search_ended(place, low, high);
        low
    }

    /// A law: where the search has ended is the run that was looked for.
    fn search_ended(&self, place: u64, low: u64, high: u64)
        requires parted { Parted (ends_above (ends_in (kinds_in self.now) (array_in self.now)) place) (run_count (array_in self.now)) low high }
        requires met { high ≤ low }
        ensures { low ≡ run_at (ends_in (kinds_in self.now) (array_in self.now)) (run_count (array_in self.now)) place }
    {}

    /// The number of runs.
    fn run_count(&self) -> u64
        ensures { result ≡ run_count (array_in self.now) }
    {
        count(&self.ends)
    }

    /// Whether a run ends above a place.
    #[inline(always)]
    fn ends_above(&self, run: u64, place: u64) -> bool
        requires { run < run_count (array_in self.now) }
        ensures { result ≡ ends_above (ends_in (kinds_in self.now) (array_in self.now)) place run }
    {
        ends_above(&self.ends, place, run)
    }

    /// Where a run ends, or a place that it ends behind.
    #[inline(always)]
    fn end_up_to(&self, run: u64, place: u64) -> u64
        requires { run < run_count (array_in self.now) }
        ensures ends { result ≤ natural (run_end (ends_in (kinds_in self.now) (array_in self.now)) run) }
        ensures places { result ≤ place }
        ensures exact { result < place → result ≡ natural (run_end (ends_in (kinds_in self.now) (array_in self.now)) run) }
    {
        runs_hold(self.typed, self.array);
        let end = run_end(&self.ends, run);
        if end < i128::from(place) {
            end as u64
        } else {
            place
        }
    }

    /// The number of the first item behind a run, up to that of all items.
    #[inline(always)]
    pub(crate) fn behind(&self, i: u64, run: u64) -> u64
        requires inside { i < items (members_of (array_in self.now)) }
        requires at { run ≡ run_of (kinds_in self.now) (array_in self.now) i }
        ensures above { i < result }
        ensures within { result ≤ items (members_of (array_in self.now)) }
        ensures same { (j : ℕ) → i ≤ j → j < result → run_of (kinds_in self.now) (array_in self.now) j ≡ run }
        ensures next { result < items (members_of (array_in self.now)) → run_of (kinds_in self.now) (array_in self.now) result ≡ run + 1 }
    {
        runs_hold(self.typed, self.array);
        self.end_up_to(run, self.start + self.count) - self.start
    }
}
