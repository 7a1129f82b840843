//! The ends of runs, read as the items of a column, and the rules on them.
ghost use Rattle.std.specs.Prelude.{◌≡◌, ◌<◌, ◌≤◌, pos, Option};
ghost use Rattle.layout_rules.specs.promise.Rules.{first_below};
ghost use Rattle.arr_import.specs.Window.{item_at};
ghost use Rattle.arr_import.specs.Cols.{window_of};
ghost use Rattle.run_ends.specs.promise.Runs.{IsEnds, ends_above, run_end, end_before};
ghost use Rattle.run_ends.specs.RunRules.{null_end, end_falls};

use arr_import::Col;
use layout_check::Numbers;

/// How many items a column has.
pub(crate) fn count(col: &Col) -> u64
    ensures { result ≡ (window_of col.now).count }
{
    col.len() as u64
}

/// Where a run ends: the number of the end's item, and 0 for a null.
#[inline(always)]
pub(crate) fn run_end(ends: &Col, k: u64) -> i128
    requires { k < (window_of ends.now).count }
    ensures { result ≡ run_end (item_at (window_of ends.now)) k }
{
    ends.len();
    match ends.whole(k as i64) {
        Some(end) => end,
        None => 0,
    }
}

/// Whether a run ends above a place.
#[inline(always)]
pub(crate) fn ends_above(ends: &Col, place: u64, k: u64) -> bool
    requires { k < (window_of ends.now).count }
    ensures { result ≡ ends_above (item_at (window_of ends.now)) place k }
{
    i128::from(place) < run_end(ends, k)
}

/// Where the run before one ends, and 0 for the first.
#[inline(always)]
pub(crate) fn end_before(ends: &Col, k: u64) -> i128
    requires { k ≤ (window_of ends.now).count }
    ensures { result ≡ end_before (item_at (window_of ends.now)) k }
{
    if k == 0 { 0 } else { run_end(ends, k - 1) }
}

/// An end that is null.
#[inline(always)]
fn null_end(ends: &Col, k: u64) -> Option<Numbers>
    requires kind { IsEnds (window_of ends.now).typed }
    requires inside { k < (window_of ends.now).count }
    ensures { result ≡ null_end (item_at (window_of ends.now)) k }
{
    ends.len();
    match ends.whole(k as i64) {
        Some(_) => None,
        None => Some(Numbers {
            place: k,
            left: 0,
            right: 0,
        }),
    }
}

/// The first end that is null.
pub(crate) fn first_null(ends: &Col) -> Option<Numbers>
    requires { IsEnds (window_of ends.now).typed }
    ensures { result ≡ first_below (null_end (item_at (window_of ends.now))) (window_of ends.now).count }
{
    for k in 0..ends.len() as u64 {
        if let Some(numbers) = null_end(ends, k) {
            return Some(numbers);
        }
    }
    None
}

/// An end that isn't above the one before it: the one before, and it.
#[inline(always)]
fn end_falls(ends: &Col, k: u64) -> Option<Numbers>
    requires { k < (window_of ends.now).count }
    ensures { result ≡ end_falls (item_at (window_of ends.now)) k }
{
    let before = end_before(ends, k);
    let end = run_end(ends, k);
    if before < end {
        None
    } else {
        Some(Numbers {
            place: k,
            left: before,
            right: end,
        })
    }
}

/// The first end that isn't above the one before it.
pub(crate) fn first_fall(ends: &Col) -> Option<Numbers>
    ensures { result ≡ first_below (end_falls (item_at (window_of ends.now))) (window_of ends.now).count }
{
    for k in 0..ends.len() as u64 {
        if let Some(numbers) = end_falls(ends, k) {
            return Some(numbers);
        }
    }
    None
}
