//! The items of runs, one by one and by a walk, and the runs of a column.
ghost use Rattle.std.specs.Prelude.{◌<◌, ◌≤◌, length};
ghost use Rattle.raw_array.specs.promise.Members.{members_of};
ghost use Rattle.layout_rules.specs.promise.Layout.{items};
ghost use Rattle.run_ends.specs.RunCols.{array_in};
ghost use Rattle.run_ends.specs.ColumnRuns.{values_in};

use crate::made::trees;
use arr_import::ValueRef;
use layout_check::check_array;
use run_ends::{ColumnRuns, RunCol, check_runs, read_runs};
use schema_check::check_schema;
use std::alloc::Global;
use std::process::Abort;
use unit_pass::open_desk;

/// The number of an item's run, and the first byte of its value, or 0 for a null.
fn item(col: &RunCol, i: u64) -> (i64, i64)
    requires { i < items (members_of (array_in col.now)) }
{
    col.len();
    let i = i as i64;
    let first = match col.value(i) {
        ValueRef::Bytes([first, ..]) => i64::from(*first),
        _ => 0,
    };
    (col.run_of(i), first)
}

/// The items of a window, one by one.
fn each(rt: &impl Abort, alloc: Global, col: &RunCol) -> Vec<(i64, i64)> {
    let mut found = Vec::new(alloc);
    for i in 0..col.len() as u64 {
        found.push(item(col, i)).expect(rt, "memory");
    }
    found
}

/// The number of an item's run, and the first item behind the run.
fn run(col: &RunCol, i: u64) -> (i64, u64)
    requires { i < items (members_of (array_in col.now)) }
    ensures above { i < result.1 }
    ensures within { result.1 ≤ items (members_of (array_in col.now)) }
{
    col.len();
    let i = i as i64;
    let run = col.run_of(i);
    (run, col.next_run_start(i, run) as u64)
}

/// The runs of a window, each with the first item behind it.
fn walked(rt: &impl Abort, alloc: Global, col: &RunCol) -> Vec<(i64, i64)> {
    let mut found = Vec::new(alloc);
    let count = col.len() as u64;
    let mut i = 0;
    while i < count {
        let (run, behind) = run(col, i);
        found.push((run, behind as i64)).expect(rt, "memory");
        i = behind;
    }
    found
}

/// What is read of the array of a text, item by item and by a walk.
fn read(
    rt: &impl Abort,
    alloc: Global,
    schema: &str,
    array: &str,
    by_item: bool,
) -> Vec<(i64, i64)> {
    let (desk, mut pass) = open_desk();
    let (schema, array) = trees(rt, alloc, schema, array, &mut pass);
    let Ok(typed) = read_runs(alloc, &schema) else {
        panic!(rt; "a schema of runs");
    };
    let found = match check_runs(&typed, &array) {
        Ok(()) => {
            let col = RunCol::of(&typed, &array);
            if by_item {
                each(rt, alloc, &col)
            } else {
                walked(rt, alloc, &col)
            }
        }
        Err(fault) => panic!(rt; "{fault}"),
    };
    schema.end(&mut pass);
    array.end(&mut pass);
    let _audit = desk.close(pass);
    found
}

#[test]
fn items_of_a_window_over_runs(rt: HostRuntime) {
    let schema = "S =+r ~ 0 2 0 ~\nS =i =run_ends 0 0 0 ~\nS =u =values 2 0 0 ~\n";
    let array =
        "A 3 0 1 0 2 0\nA 2 0 0 2 0 0\nB ~\nB =0200000004000000\nA 2 0 0 3 0 0\nB ~\nB =000000000100000002000000\nB =6162\n";
    let found = read(&rt, rt.alloc(), schema, array, true);
    assert_eq!(rt; found.as_slice(), [(0, 97), (1, 98), (1, 98)].as_slice());
    let walk = read(&rt, rt.alloc(), schema, array, false);
    assert_eq!(rt; walk.as_slice(), [(0, 1), (1, 3)].as_slice());
}

#[test]
fn a_window_of_two_to_the_forty_items_takes_no_walk(rt: HostRuntime) {
    let schema = "S =+r ~ 0 2 0 ~\nS =l =run_ends 0 0 0 ~\nS =w:0 =values 2 0 0 ~\n";
    let array =
        "A 1099511627775 0 1 0 2 0\nA 2 0 0 2 0 0\nB ~\nB =0200000000000000ffffffffffffff7f\nA 2 0 0 2 0 0\nB ~\nB ~\n";
    let walk = read(&rt, rt.alloc(), schema, array, false);
    assert_eq!(rt;
        walk.as_slice(),
        [(0, 1), (1, 1_099_511_627_775)].as_slice()
    );
}

/// Where the runs of a column's values end, each with its number.
fn stops(rt: &impl Abort, alloc: Global, schema: &str, array: &str) -> Vec<(i64, i64)> {
    let (desk, mut pass) = open_desk();
    let (schema, array) = trees(rt, alloc, schema, array, &mut pass);
    let Ok(typed) = check_schema(alloc, &schema) else {
        panic!(rt; "a schema");
    };
    let found = match check_array(&typed, &array) {
        Ok(()) => stops_of(rt, alloc, &ColumnRuns::of(&typed, &array)),
        Err(fault) => panic!(rt; "{fault}"),
    };
    schema.end(&mut pass);
    array.end(&mut pass);
    let _audit = desk.close(pass);
    found
}

/// The first item behind the run that begins at one.
fn stop(runs: &ColumnRuns, i: u64) -> u64
    requires { i < length (values_in runs.now) }
    ensures above { i < result }
    ensures within { result ≤ length (values_in runs.now) }
{
    runs.len();
    runs.stop(i as i64) as u64
}

fn stops_of(rt: &impl Abort, alloc: Global, runs: &ColumnRuns) -> Vec<(i64, i64)> {
    let mut found = Vec::new(alloc);
    let count = runs.len() as u64;
    let mut i = 0;
    while i < count {
        let stop = stop(runs, i);
        found.push((i as i64, stop as i64)).expect(rt, "memory");
        i = stop;
    }
    found
}

#[test]
fn a_null_equals_a_null_whatever_stands_under_it(rt: HostRuntime) {
    let array = "A 5 2 0 2 0 0\nB =13\nB =0700000007000000000000000100000007000000\n";
    let found = stops(&rt, rt.alloc(), "S =i ~ 2 0 0 ~\n", array);
    assert_eq!(rt; found.as_slice(), [(0, 2), (2, 4), (4, 5)].as_slice());
}

#[test]
fn floats_are_compared_by_their_bits(rt: HostRuntime) {
    let array = "A 4 0 0 2 0 0\nB ~\nB =0000000000000080000000800000c07f\n";
    let found = stops(&rt, rt.alloc(), "S =f ~ 2 0 0 ~\n", array);
    assert_eq!(rt; found.as_slice(), [(0, 1), (1, 3), (3, 4)].as_slice());
}

#[test]
fn items_without_bytes_are_one_run_at_once(rt: HostRuntime) {
    let array = "A 1099511627776 0 0 2 0 0\nB ~\nB ~\n";
    let found = stops(&rt, rt.alloc(), "S =w:0 ~ 2 0 0 ~\n", array);
    assert_eq!(rt; found.as_slice(), [(0, 1_099_511_627_776)].as_slice());
}
