//! Columns made into runs, and runs into columns: their items, and the faults.
ghost use Rattle.std.specs.Prelude.{◌≡◌, ◌<◌, ◌^◌};
ghost use Rattle.data_types.specs.KindTrees.{TypedOk};
ghost use Rattle.data_types.specs.promise.TypedView.{typed_of};
ghost use Rattle.arr_import.specs.Cols.{window_of};

use crate::made::trees;
use arr_import::Col;
use data_types::Typed;
use layout_check::check_array;
use raw_array::RawArray;
use raw_schema::RawSchema;
use run_ends::{CodeFault, check_runs, decode, encode, read_runs};
use schema_check::check_schema;
use std::alloc::Global;
use std::process::Abort;
use unit_pass::{NoMemory, Pass, open_desk};
use value_text::{BoundedText, push_value};

/// Three items of 1, 2, 4, 8 and 16 bytes each, of which the first two are the same.
static ONE: &str = "A 3 0 0 2 0 0\nB ~\nB =0707ff\n";

static TWO: &str = "A 3 0 0 2 0 0\nB ~\nB =07000700ffff\n";

static FOUR: &str = "A 3 0 0 2 0 0\nB ~\nB =0700000007000000ffffffff\n";

static EIGHT: &str = "A 3 0 0 2 0 0\nB ~\nB =07000000000000000700000000000000ffffffffffffffff\n";

static SIXTEEN: &str =
    "A 3 0 0 2 0 0\nB ~\nB =0700000000000000000000000000000007000000000000000000000000000000ffffffffffffffffffffffffffffffff\n";

/// Three items of one byte, of one byte and of none, between offsets of 4 and of 8 bytes.
static NARROW: &str = "A 3 0 0 3 0 0\nB ~\nB =00000000010000000200000002000000\nB =6161\n";

static WIDE: &str =
    "A 3 0 0 3 0 0\nB ~\nB =0000000000000000010000000000000002000000000000000200000000000000\nB =6161\n";

fn count_items(items: &Col<'_>) -> u64
    ensures count { result ≡ (window_of items.now).count }
    ensures small { result < 2 ^ 63 }
{
    items.len() as u64
}

/// Appends the texts of a column's items, each behind a space.
fn push_items(text: &mut BoundedText, items: &Col<'_>) -> Result<(), NoMemory> {
    let count = count_items(items);
    for i in 0..count {
        text.push(b' ')?;
        push_value(text, items, i)?;
    }
    Ok(())
}

/// The texts of the items of a column that meets all rules.
fn shown(rt: &impl Abort, text: &mut BoundedText, typed: &Typed, array: &RawArray)
    requires { TypedOk (typed_of typed.now) }
{
    match check_array(typed, array) {
        Ok(()) => match push_items(text, &Col::of(typed, array)) {
            Ok(()) => {}
            Err(NoMemory) => panic!(rt; "memory"),
        },
        Err(fault) => panic!(rt; "{fault}"),
    }
}

fn said(rt: &impl Abort, text: &mut BoundedText, bytes: &[u8]) {
    match text.push_bytes(bytes) {
        Ok(()) => {}
        Err(NoMemory) => panic!(rt; "memory"),
    }
}

fn name(fault: CodeFault) -> &'static [u8] {
    match fault {
        CodeFault::WrongKind => b"WrongKind",
        CodeFault::TooLong => b"TooLong",
        CodeFault::NoMemory => b"NoMemory",
    }
}

/// The ends of runs that meet all rules, and behind a bar their values.
fn runs_shown(
    rt: &impl Abort,
    alloc: Global,
    text: &mut BoundedText,
    schema: &RawSchema,
    array: &RawArray,
) {
    let Ok(typed) = read_runs(alloc, schema) else {
        panic!(rt; "a schema of runs");
    };
    if array.is_released() || array.n_children() != 2 {
        panic!(rt; "ends and values");
    }
    match check_runs(&typed, array) {
        Ok(()) => {
            shown(rt, text, &typed.ends, array.child(0));
            said(rt, text, b" |");
            shown(rt, text, &typed.values, array.child(1));
        }
        Err(fault) => panic!(rt; "{fault}"),
    }
}

/// A column as runs: their ends and their values, or the fault.
fn encoded(rt: &impl Abort, alloc: Global, schema: &str, array: &str) -> Vec<u8> {
    let (desk, mut pass) = open_desk();
    let (schema, array) = trees(rt, alloc, schema, array, &mut pass);
    let mut text = BoundedText::new(alloc);
    push_encoded(rt, alloc, &mut text, &schema, &array, &mut pass);
    schema.end(&mut pass);
    array.end(&mut pass);
    let _audit = desk.close(pass);
    text.into_bytes()
}

fn push_encoded(
    rt: &impl Abort,
    alloc: Global,
    text: &mut BoundedText,
    schema: &RawSchema,
    array: &RawArray,
    pass: &mut Pass,
)
    ensures { pass.new.units ≡ pass.old.units }
{
    let Ok(typed) = check_schema(alloc, schema) else {
        panic!(rt; "a schema");
    };
    if check_array(&typed, array).is_err() || pass.units() < 16 {
        panic!(rt; "an array");
    }
    match encode(alloc, &typed, array, pass) {
        Ok((schema, array)) => {
            runs_shown(rt, alloc, text, &schema, &array);
            schema.end(pass);
            array.end(pass);
        }
        Err(fault) => said(rt, text, name(fault)),
    }
}

/// Runs as a column: its items, or the fault.
fn decoded(rt: &impl Abort, alloc: Global, schema: &str, array: &str) -> Vec<u8> {
    let (desk, mut pass) = open_desk();
    let (schema, array) = trees(rt, alloc, schema, array, &mut pass);
    let mut text = BoundedText::new(alloc);
    push_decoded(rt, alloc, &mut text, &schema, &array, &mut pass);
    schema.end(&mut pass);
    array.end(&mut pass);
    let _audit = desk.close(pass);
    text.into_bytes()
}

fn push_decoded(
    rt: &impl Abort,
    alloc: Global,
    text: &mut BoundedText,
    schema: &RawSchema,
    array: &RawArray,
    pass: &mut Pass,
)
    ensures { pass.new.units ≡ pass.old.units }
{
    let Ok(typed) = read_runs(alloc, schema) else {
        panic!(rt; "a schema of runs");
    };
    if check_runs(&typed, array).is_err() || pass.units() < 16 {
        panic!(rt; "runs");
    }
    match decode(alloc, &typed, array, pass) {
        Ok(array) => {
            shown(rt, text, &typed.values, &array);
            array.end(pass);
        }
        Err(fault) => said(rt, text, name(fault)),
    }
}

// ---- columns as runs

#[test]
fn columns_of_each_flat_kind_as_runs(rt: HostRuntime) {
    for (kind, array, want) in [
        ("b", "A 3 0 0 2 0 0\nB ~\nB =03\n", " 2 3 | true false"),
        ("c", ONE, " 2 3 | 7 -1"),
        ("C", ONE, " 2 3 | 7 255"),
        ("s", TWO, " 2 3 | 7 -1"),
        ("S", TWO, " 2 3 | 7 65535"),
        ("i", FOUR, " 2 3 | 7 -1"),
        ("I", FOUR, " 2 3 | 7 4294967295"),
        ("l", EIGHT, " 2 3 | 7 -1"),
        ("L", EIGHT, " 2 3 | 7 18446744073709551615"),
        ("e", TWO, " 2 3 | x0000000000000007 x000000000000ffff"),
        ("f", FOUR, " 2 3 | x0000000000000007 x00000000ffffffff"),
        ("g", EIGHT, " 2 3 | x0000000000000007 xffffffffffffffff"),
        ("z", NARROW, " 2 3 | =a ="),
        ("u", NARROW, " 2 3 | =a ="),
        ("Z", WIDE, " 2 3 | =a ="),
        ("U", WIDE, " 2 3 | =a ="),
        (
            "w:2",
            "A 3 0 0 2 0 0\nB ~\nB =616161616162\n",
            " 2 3 | =aa =ab",
        ),
        ("d:5,2", SIXTEEN, " 2 3 | 7 -1"),
        ("tdD", FOUR, " 2 3 | 7 -1"),
        ("tdm", EIGHT, " 2 3 | 7 -1"),
        ("tts", FOUR, " 2 3 | 7 -1"),
        ("ttn", EIGHT, " 2 3 | 7 -1"),
        ("tsu:UTC", EIGHT, " 2 3 | 7 -1"),
        ("tDm", EIGHT, " 2 3 | 7 -1"),
        ("tiM", FOUR, " 2 3 | 7 -1"),
    ] {
        let Ok(schema) = format!(in rt.alloc(); "S ={kind} ~ 2 0 0 ~\n") else {
            panic!(rt; "memory");
        };
        let found = encoded(&rt, rt.alloc(), &schema, array);
        assert_eq!(rt; found.as_slice(), want.as_bytes(), "{kind}");
    }
}

#[test]
fn nulls_windows_and_no_items_as_runs(rt: HostRuntime) {
    let null_and_zero = "A 4 2 0 2 0 0\nB =09\nB =00000000000000000700000000000000\n";
    let window = "A 3 -1 2 2 0 0\nB =1b\nB =0700000007000000070000000700000007000000\n";
    for (array, want) in [
        (
            "A 5 2 0 2 0 0\nB =13\nB =0700000007000000000000000000000007000000\n",
            " 2 4 5 | 7 ~ 7",
        ),
        (null_and_zero, " 1 3 4 | 0 ~ 0"),
        (window, " 1 3 | ~ 7"),
        ("A 0 0 0 2 0 0\nB ~\nB ~\n", " |"),
    ] {
        let found = encoded(&rt, rt.alloc(), "S =i =x 2 0 0 ~\n", array);
        assert_eq!(rt; found.as_slice(), want.as_bytes(), "{array}");
    }
}

#[test]
fn columns_that_make_no_runs(rt: HostRuntime) {
    let most = "A 2147483647 0 0 2 0 0\nB ~\nB ~\n";
    let one_more = "A 2147483648 0 0 2 0 0\nB ~\nB ~\n";
    for (schema, array, want) in [
        ("S =w:0 ~ 2 0 0 ~\n", most, " 2147483647 | ="),
        ("S =w:0 ~ 2 0 0 ~\n", one_more, "TooLong"),
        (
            "S =n ~ 2 0 0 ~\n",
            "A 2147483648 2147483648 0 0 0 0\n",
            "WrongKind",
        ),
        ("S =+s ~ 2 0 0 ~\n", "A 3 0 0 1 0 0\nB ~\n", "WrongKind"),
        (
            "S =vu ~ 2 0 0 ~\n",
            "A 0 0 0 3 0 0\nB ~\nB ~\nB ~\n",
            "WrongKind",
        ),
        (
            "S =d:5,2,256 ~ 2 0 0 ~\n",
            "A 0 0 0 2 0 0\nB ~\nB ~\n",
            "WrongKind",
        ),
        (
            "S =i ~ 2 0 1 ~\nS =u ~ 2 0 0 ~\n",
            "A 0 0 0 2 0 1\nB ~\nB ~\nA 0 0 0 3 0 0\nB ~\nB ~\nB ~\n",
            "WrongKind",
        ),
    ] {
        let found = encoded(&rt, rt.alloc(), schema, array);
        assert_eq!(rt; found.as_slice(), want.as_bytes(), "{schema}{array}");
    }
}

// ---- runs as columns

/// The ends 2 and 4 of 64 bits, and the texts `a` and `b`.
static ENDS: &str = "A 2 0 0 2 0 0\nB ~\nB =02000000000000000400000000000000\n";

static TEXTS: &str = "A 2 0 0 3 0 0\nB ~\nB =000000000100000002000000\nB =6162\n";

#[test]
fn runs_as_columns(rt: HostRuntime) {
    for (kind, root, values, want) in [
        ("u", "A 3 0 1 0 2 0\n", TEXTS, " =a =b =b"),
        ("z", "A 4 -1 0 0 2 0\n", TEXTS, " =a =a =b =b"),
        ("u", "A 0 0 4 0 2 0\n", TEXTS, ""),
        (
            "u",
            "A 2 0 1 0 2 0\n",
            "A 2 1 0 3 0 0\nB =01\nB =000000000100000002000000\nB =6162\n",
            " =a ~",
        ),
        (
            "b",
            "A 4 0 0 0 2 0\n",
            "A 2 0 1 2 0 0\nB ~\nB =04\n",
            " false false true true",
        ),
        (
            "i",
            "A 1 0 3 0 2 0\n",
            "A 2 0 0 2 0 0\nB ~\nB =07000000ffffffff\n",
            " -1",
        ),
        (
            "f",
            "A 2 0 1 0 2 0\n",
            "A 2 0 0 2 0 0\nB ~\nB =0000000000000080\n",
            " x0000000000000000 x0000000080000000",
        ),
        (
            "w:0",
            "A 4 0 0 0 2 0\n",
            "A 2 1 0 2 0 0\nB =02\nB ~\n",
            " ~ ~ = =",
        ),
    ] {
        let Ok(schema) = format!(in rt.alloc();
            "S =+r ~ 0 2 0 ~\nS =l =run_ends 0 0 0 ~\nS ={kind} =values 2 0 0 ~\n"
        ) else {
            panic!(rt; "memory");
        };
        let Ok(array) = format!(in rt.alloc(); "{root}{ENDS}{values}") else {
            panic!(rt; "memory");
        };
        let found = decoded(&rt, rt.alloc(), &schema, &array);
        assert_eq!(rt; found.as_slice(), want.as_bytes(), "{kind} {array}");
    }
}

/// One end of 64 bits at 2^31, and one at 2^40.
static FAR: &str = "A 1 0 0 2 0 0\nB ~\nB =0000008000000000\n";

static FARTHEST: &str = "A 1 0 0 2 0 0\nB ~\nB =0000000000010000\n";

#[test]
fn runs_that_make_no_column(rt: HostRuntime) {
    let text = "A 1 0 0 3 0 0\nB ~\nB =0000000001000000\nB =61\n";
    for (kind, root, ends, values, want) in [
        ("u", "A 2147483648 0 0 0 2 0\n", FAR, text, "TooLong"),
        ("z", "A 2147483648 0 0 0 2 0\n", FAR, text, "TooLong"),
        (
            "z",
            "A 1099511627776 0 0 0 2 0\n",
            FARTHEST,
            text,
            "TooLong",
        ),
        (
            "n",
            "A 2147483648 0 0 0 2 0\n",
            FAR,
            "A 1 1 0 0 0 0\n",
            "WrongKind",
        ),
        (
            "+s",
            "A 1 0 0 0 2 0\n",
            FAR,
            "A 1 0 0 1 0 0\nB ~\n",
            "WrongKind",
        ),
    ] {
        let Ok(schema) = format!(in rt.alloc();
            "S =+r ~ 0 2 0 ~\nS =l =run_ends 0 0 0 ~\nS ={kind} =values 2 0 0 ~\n"
        ) else {
            panic!(rt; "memory");
        };
        let Ok(array) = format!(in rt.alloc(); "{root}{ends}{values}") else {
            panic!(rt; "memory");
        };
        let found = decoded(&rt, rt.alloc(), &schema, &array);
        assert_eq!(rt; found.as_slice(), want.as_bytes(), "{kind} {array}");
    }
}

#[test]
fn columns_as_runs_and_as_columns_again(rt: HostRuntime) {
    let (desk, mut pass) = open_desk();
    let array = "A 5 2 0 2 0 0\nB =13\nB =0700000007000000000000000000000007000000\n";
    let (schema, array) = trees(&rt, rt.alloc(), "S =i ~ 2 0 0 ~\n", array, &mut pass);
    let mut text = BoundedText::new(rt.alloc());
    push_again(&rt, rt.alloc(), &mut text, &schema, &array, &mut pass);
    schema.end(&mut pass);
    array.end(&mut pass);
    let audit = desk.close(pass);
    assert_eq!(rt; text.into_bytes().as_slice(), b" 7 7 ~ ~ 7".as_slice());
    assert_eq!(rt; audit.left, 0);
}

fn push_again(
    rt: &impl Abort,
    alloc: Global,
    text: &mut BoundedText,
    schema: &RawSchema,
    array: &RawArray,
    pass: &mut Pass,
)
    ensures { pass.new.units ≡ pass.old.units }
{
    let Ok(typed) = check_schema(alloc, schema) else {
        panic!(rt; "a schema");
    };
    if check_array(&typed, array).is_err() || pass.units() < 16 {
        panic!(rt; "an array");
    }
    match encode(alloc, &typed, array, pass) {
        Ok((schema, array)) => {
            push_decoded(rt, alloc, text, &schema, &array, pass);
            schema.end(pass);
            array.end(pass);
        }
        Err(fault) => said(rt, text, name(fault)),
    }
}
