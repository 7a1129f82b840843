//! Columns, dictionaries and a table as arrays, against the layouts that the standard shows.
ghost use Rattle.std.specs.Prelude.{◌≡◌, ◌≤ℤ◌, pos, List, [], ◌∷◌, Some};
ghost use Rattle.layout_rules.specs.promise.Layout.{natural};
ghost use Rattle.data_types.specs.promise.Value.{Value};
ghost use Rattle.data_types.specs.declared.kind.DataType.{DataType};
ghost use Rattle.col_build.specs.Finished.{IsMade};
ghost use Rattle.arr_export.specs.ArrayTrees.{HasValues, IsColumn};

use arr_export::{export_column, export_table};
use buf_block::BufView;
use col_build::FinishedColumn;
use raw_array::RawArray;
use std::alloc::Global;
use std::process::Abort;
use std::test::Fail;
use test_parts::view;
use unit_pass::{Pass, SUPPLY, open_desk};

// ---- columns of buffers that are made by hand

/// A view of the whole of a new block.
fn block(rt: &impl Abort, alloc: Global, bytes: &[u8], pass: &mut Pass) -> Option<BufView>
    ensures { IsMade result (Some bytes.now) }
{
    Some(view(alloc, bytes, pass).expect(rt, "there is memory"))
}

fn two(
    rt: &impl Abort,
    alloc: Global,
    first: Option<BufView>,
    second: Option<BufView>,
) -> Vec<Option<BufView>>
    ensures { result.items ≡ first ∷ second ∷ [] }
{
    let mut views = Vec::new(alloc);
    views.push(first).expect(rt, "there is memory");
    views.push(second).expect(rt, "there is memory");
    views
}

fn three(
    rt: &impl Abort,
    alloc: Global,
    first: Option<BufView>,
    second: Option<BufView>,
    third: Option<BufView>,
) -> Vec<Option<BufView>>
    ensures { result.items ≡ first ∷ second ∷ third ∷ [] }
{
    let mut views = two(rt, alloc, first, second);
    views.push(third).expect(rt, "there is memory");
    views
}

fn exported(
    rt: &impl Abort,
    alloc: Global,
    column: FinishedColumn,
    dictionary: Option<RawArray>,
    pass: &mut Pass,
) -> RawArray
    requires { (kind : DataType) × (values : List Value) × HasValues column dictionary kind values }
{
    assert!(rt; pass.units() >= 1);
    match export_column(alloc, column, dictionary, pass) {
        Ok(tree) => tree,
        Err(_refused) => panic!(rt; "there is memory"),
    }
}

/// The standard's 1, null, 2, 4, 8 ("Fixed-Size Primitive Layout").
fn numbers(rt: &impl Abort, alloc: Global, pass: &mut Pass) -> RawArray {
    let validity = block(rt, alloc, &[0b0001_1101], pass);
    let data = block(
        rt,
        alloc,
        &[1, 0, 0, 0, 0, 0, 0, 0, 2, 0, 0, 0, 4, 0, 0, 0, 8, 0, 0, 0],
        pass,
    );
    let column = FinishedColumn {
        length: 5,
        null_count: 1,
        buffers: two(rt, alloc, validity, data),
    };
    exported(rt, alloc, column, None, pass)
}

/// The standard's "joe", null, null, "mark" ("Variable-size Binary Layout").
fn texts(rt: &impl Abort, alloc: Global, pass: &mut Pass) -> RawArray {
    let validity = block(rt, alloc, &[0b0000_1001], pass);
    let offsets = block(
        rt,
        alloc,
        &[0, 0, 0, 0, 3, 0, 0, 0, 3, 0, 0, 0, 3, 0, 0, 0, 7, 0, 0, 0],
        pass,
    );
    let data = block(rt, alloc, b"joemark", pass);
    let column = FinishedColumn {
        length: 4,
        null_count: 2,
        buffers: three(rt, alloc, validity, offsets, data),
    };
    exported(rt, alloc, column, None, pass)
}

/// The bytes 1 and 2, none, and 3, with offsets of 64 bits.
fn binaries(rt: &impl Abort, alloc: Global, pass: &mut Pass) -> RawArray {
    let offsets = block(
        rt,
        alloc,
        &[
            0, 0, 0, 0, 0, 0, 0, 0, 2, 0, 0, 0, 0, 0, 0, 0, 2, 0, 0, 0, 0, 0, 0, 0, 3, 0, 0, 0, 0,
            0, 0, 0,
        ],
        pass,
    );
    let data = block(rt, alloc, &[1, 2, 3], pass);
    let column = FinishedColumn {
        length: 3,
        null_count: 0,
        buffers: three(rt, alloc, None, offsets, data),
    };
    exported(rt, alloc, column, None, pass)
}

/// True, false, null, true: a bit an item, the least significant first.
fn truths(rt: &impl Abort, alloc: Global, pass: &mut Pass) -> RawArray {
    let validity = block(rt, alloc, &[0b1011], pass);
    let data = block(rt, alloc, &[0b1001], pass);
    let column = FinishedColumn {
        length: 4,
        null_count: 1,
        buffers: two(rt, alloc, validity, data),
    };
    exported(rt, alloc, column, None, pass)
}

/// 1.5 and -2 as floats of 64 bits: 0x3ff8000000000000 and 0xc000000000000000 in IEEE 754.
fn floats(rt: &impl Abort, alloc: Global, pass: &mut Pass) -> RawArray {
    let data = block(
        rt,
        alloc,
        &[0, 0, 0, 0, 0, 0, 0xf8, 0x3f, 0, 0, 0, 0, 0, 0, 0, 0xc0],
        pass,
    );
    let column = FinishedColumn {
        length: 2,
        null_count: 0,
        buffers: two(rt, alloc, None, data),
    };
    exported(rt, alloc, column, None, pass)
}

/// 2.56 and -0.01 as decimals of five digits, two of them behind the point.
fn decimals(rt: &impl Abort, alloc: Global, pass: &mut Pass) -> RawArray {
    let data = block(
        rt,
        alloc,
        &[
            0, 1, 0, 0, 0, 0, 0, 0, 0, 0, 0, 0, 0, 0, 0, 0, 255, 255, 255, 255, 255, 255, 255, 255,
            255, 255, 255, 255, 255, 255, 255, 255,
        ],
        pass,
    );
    let column = FinishedColumn {
        length: 2,
        null_count: 0,
        buffers: two(rt, alloc, None, data),
    };
    exported(rt, alloc, column, None, pass)
}

/// "abc", null and "def", each of three bytes.
fn triples(rt: &impl Abort, alloc: Global, pass: &mut Pass) -> RawArray {
    let validity = block(rt, alloc, &[0b101], pass);
    let data = block(rt, alloc, b"abc\0\0\0def", pass);
    let column = FinishedColumn {
        length: 3,
        null_count: 1,
        buffers: two(rt, alloc, validity, data),
    };
    exported(rt, alloc, column, None, pass)
}

/// The places 1, 0, 1, 3 of the texts.
fn places(rt: &impl Abort, alloc: Global, pass: &mut Pass) -> RawArray {
    let dictionary = texts(rt, alloc, pass);
    assert!(rt; !dictionary.is_released());
    assert!(rt; dictionary.length() >= 4);
    assert!(rt; dictionary.depth() <= 127);
    let data = block(rt, alloc, &[1, 0, 1, 3], pass);
    let column = FinishedColumn {
        length: 4,
        null_count: 0,
        buffers: two(rt, alloc, None, data),
    };
    exported(rt, alloc, column, Some(dictionary), pass)
}

// ---- what is read of an array

fn shown(rt: &impl Abort, alloc: Global, tree: &RawArray) -> Result<String, Fail> {
    assert!(rt; !tree.is_released());
    let kind = tree.release_kind();
    let mut text = format!(in alloc;
        "{} {} {} {kind:?}",
        tree.length(),
        tree.null_count(),
        tree.offset()
    )?;
    for i in 0..tree.n_buffers() as usize {
        let buffer = format!(in alloc; " {:?}", tree.buffer(i))?;
        text.push_str(buffer.as_str())?;
    }
    Ok(text)
}

fn let_go(rt: &impl Abort, tree: RawArray, pass: &mut Pass) {
    assert!(rt; tree.cost() <= SUPPLY - pass.units());
    let mut tree = tree;
    tree.release(pass);
    tree.discard();
}

/// The array is shown as it should be, and all of it is let go.
fn check(
    rt: &impl Abort,
    alloc: Global,
    tree: RawArray,
    want: &str,
    pass: &mut Pass,
) -> Result<(), Fail> {
    let text = shown(rt, alloc, &tree);
    let_go(rt, tree, pass);
    assert_eq!(rt; text?.as_str(), want);
    Ok(())
}

const NUMBERS: &str =
    "5 1 0 Some(Exported) Some([29]) Some([1, 0, 0, 0, 0, 0, 0, 0, 2, 0, 0, 0, 4, 0, 0, 0, 8, 0, 0, 0])";

const TEXTS: &str =
    "4 2 0 Some(Exported) Some([9]) Some([0, 0, 0, 0, 3, 0, 0, 0, 3, 0, 0, 0, 3, 0, 0, 0, 7, 0, 0, 0]) Some([106, 111, 101, 109, 97, 114, 107])";

fn check_wholes(rt: &impl Abort, alloc: Global, pass: &mut Pass) -> Result<(), Fail> {
    let tree = numbers(rt, alloc, pass);
    check(rt, alloc, tree, NUMBERS, pass)?;
    let tree = decimals(rt, alloc, pass);
    let want =
        "2 0 0 Some(Exported) None Some([0, 1, 0, 0, 0, 0, 0, 0, 0, 0, 0, 0, 0, 0, 0, 0, 255, 255, 255, 255, 255, 255, 255, 255, 255, 255, 255, 255, 255, 255, 255, 255])";
    check(rt, alloc, tree, want, pass)
}

fn check_bytes(rt: &impl Abort, alloc: Global, pass: &mut Pass) -> Result<(), Fail> {
    let tree = texts(rt, alloc, pass);
    check(rt, alloc, tree, TEXTS, pass)?;
    let tree = binaries(rt, alloc, pass);
    let want =
        "3 0 0 Some(Exported) None Some([0, 0, 0, 0, 0, 0, 0, 0, 2, 0, 0, 0, 0, 0, 0, 0, 2, 0, 0, 0, 0, 0, 0, 0, 3, 0, 0, 0, 0, 0, 0, 0]) Some([1, 2, 3])";
    check(rt, alloc, tree, want, pass)?;
    let tree = triples(rt, alloc, pass);
    let want = "3 1 0 Some(Exported) Some([5]) Some([97, 98, 99, 0, 0, 0, 100, 101, 102])";
    check(rt, alloc, tree, want, pass)
}

fn check_bits(rt: &impl Abort, alloc: Global, pass: &mut Pass) -> Result<(), Fail> {
    let tree = truths(rt, alloc, pass);
    let want = "4 1 0 Some(Exported) Some([11]) Some([9])";
    check(rt, alloc, tree, want, pass)?;
    let tree = floats(rt, alloc, pass);
    let want =
        "2 0 0 Some(Exported) None Some([0, 0, 0, 0, 0, 0, 248, 63, 0, 0, 0, 0, 0, 0, 0, 192])";
    check(rt, alloc, tree, want, pass)
}

fn check_columns(rt: &impl Abort, alloc: Global, pass: &mut Pass) -> Result<(), Fail> {
    check_wholes(rt, alloc, pass)?;
    check_bytes(rt, alloc, pass)?;
    check_bits(rt, alloc, pass)
}

fn check_places(rt: &impl Abort, alloc: Global, tree: &RawArray) -> Result<(), Fail> {
    let text = shown(rt, alloc, tree)?;
    assert_eq!(rt;
        text.as_str(),
        "4 0 0 Some(Exported) None Some([1, 0, 1, 3])"
    );
    assert!(rt; !tree.is_released());
    match tree.dictionary() {
        Some(dictionary) => {
            assert_eq!(rt; shown(rt, alloc, dictionary)?.as_str(), TEXTS);
            Ok(())
        }
        None => panic!(rt; "there is a dictionary"),
    }
}

#[test]
fn columns_are_handed_out_as_they_are_laid_out(rt: HostRuntime) -> Result<(), Fail> {
    let alloc = rt.alloc();
    let (desk, mut pass) = open_desk();
    let checked = check_columns(&rt, alloc, &mut pass);
    assert_eq!(rt; pass.units(), SUPPLY);
    let audit = desk.close(pass);
    assert_eq!(rt; (audit.nodes, audit.blocks), (7, 13));
    checked
}

#[test]
fn indices_stand_before_their_dictionary(rt: HostRuntime) -> Result<(), Fail> {
    let alloc = rt.alloc();
    let (desk, mut pass) = open_desk();
    let tree = places(&rt, alloc, &mut pass);
    assert_eq!(rt; pass.units(), SUPPLY - 6);
    let checked = check_places(&rt, alloc, &tree);
    let_go(&rt, tree, &mut pass);
    assert_eq!(rt; pass.units(), SUPPLY);
    let audit = desk.close(pass);
    assert_eq!(rt; (audit.nodes, audit.blocks), (2, 4));
    checked
}

// ---- a table

/// A live array of at least this many items, as a column.
fn column(rt: &impl Abort, tree: &RawArray, rows: i64)
    requires { pos 0 ≤ℤ rows }
    ensures { IsColumn (natural rows) tree.now }
{
    assert!(rt; !tree.is_released());
    assert!(rt; tree.depth() <= 127);
    assert!(rt; tree.length() >= rows);
}

fn table(rt: &impl Abort, alloc: Global, rows: i64, pass: &mut Pass) -> RawArray
    requires some { pos 0 ≤ℤ rows }
    requires few { rows ≤ℤ pos 4 }
{
    let first = numbers(rt, alloc, pass);
    column(rt, &first, rows);
    let second = texts(rt, alloc, pass);
    column(rt, &second, rows);
    let mut columns = Vec::new(alloc);
    columns.push(first).expect(rt, "there is memory");
    columns.push(second).expect(rt, "there is memory");
    assert!(rt; pass.units() >= 1);
    match export_table(alloc, columns, rows, pass) {
        Ok(tree) => tree,
        Err(_refused) => panic!(rt; "there is memory"),
    }
}

/// An array is shown as it should be.
fn is_shown(rt: &impl Abort, alloc: Global, tree: &RawArray, want: &str) -> Result<(), Fail> {
    assert_eq!(rt; shown(rt, alloc, tree)?.as_str(), want);
    Ok(())
}

fn check_table(rt: &impl Abort, alloc: Global, tree: &RawArray) -> Result<(), Fail> {
    is_shown(rt, alloc, tree, "3 0 0 Some(Assembled) None")?;
    assert!(rt; !tree.is_released());
    assert!(rt; tree.dictionary().is_none());
    assert!(rt; tree.n_children() == 2);
    is_shown(rt, alloc, tree.child(0), NUMBERS)?;
    is_shown(rt, alloc, tree.child(1), TEXTS)
}

#[test]
fn a_table_has_its_columns_as_they_are(rt: HostRuntime) -> Result<(), Fail> {
    let alloc = rt.alloc();
    let (desk, mut pass) = open_desk();
    let tree = table(&rt, alloc, 3, &mut pass);
    let checked = check_table(&rt, alloc, &tree);
    let_go(&rt, tree, &mut pass);
    assert_eq!(rt; pass.units(), SUPPLY);
    let audit = desk.close(pass);
    assert_eq!(rt; (audit.nodes, audit.blocks), (3, 5));
    checked
}
