//! Tests of the text of chunks that no run makes: an empty text that is no null under the empty mark, and a null entry of a
//! dictionary.
ghost use Rattle.std.specs.Prelude.{◌≡◌, ◌≤◌, All, map};
ghost use Rattle.data_types.specs.ColumnView.{column_of};
ghost use Rattle.tree_model.specs.promise.TreeCost.{Nodes};
ghost use Rattle.tree_model.specs.Tree.{Depth};
ghost use Rattle.unit_pass.specs.declared.pass.TheConstants.{CHUNK};
ghost use Rattle.data_types.specs.KindTrees.{TypedOk};
ghost use Rattle.data_types.specs.promise.TypedView.{typed_of};
ghost use Rattle.data_types.specs.ColumnForms.{AreColumnKinds};
ghost use Rattle.data_types.specs.promise.ColumnKinds.{type_of_columns};
ghost use Rattle.schema_check.specs.promise.ColumnSchema.{SchemaOf};
ghost use Rattle.schema_check.specs.ColumnSchema.{KindsOk};
ghost use Rattle.field_codec.specs.TextColumns.{HaveTexts};

use crate::sources::{closed, same};
use arr_export::{column_schemas_are_lawful, export_schema};
use arr_import::Col;
use csv_write::CsvText;
use data_types::{ColKind, ColumnType, DataType, Typed};
use layout_check::check_array;
use raw_array::RawArray;
use raw_schema::RawSchema;
use schema_check::check_schema;
use std::alloc::Global;
use std::process::Abort;
use test_parts::{Items, array};
use unit_pass::{CHUNK, Name, Pass, SUPPLY, open_desk};

// ---- arrays

/// An array of this length and offset.
fn array_at(
    rt: &impl Abort,
    alloc: Global,
    (length, offset): (i64, i64),
    bytes: &[Option<&[u8]>],
    children: Vec<RawArray>,
    dictionary: Option<RawArray>,
    pass: &mut Pass,
) -> RawArray {
    let items = Items {
        length,
        null_count: -1,
        offset,
    };
    array(alloc, items, bytes, children, dictionary, pass).expect(rt, "no memory")
}

fn ended(rt: &impl Abort, array: RawArray, pass: &mut Pass) {
    let mut array = array;
    let before = pass.units();
    assert!(rt; array.cost() <= SUPPLY - before);
    array.release(pass);
    array.discard();
}

fn all_ended(rt: &impl Abort, mut arrays: Vec<RawArray>, pass: &mut Pass) {
    while let Some(array) = arrays.pop() {
        ended(rt, array, pass);
    }
    arrays.destroy_empty();
}

// ---- columns

fn column(rt: &impl Abort, alloc: Global, name: &[u8], kind: ColKind) -> ColumnType
    ensures { result.kind ≡ kind }
{
    let name = Name::from_slice(alloc, name).expect(rt, "no memory");
    ColumnType { name, kind }
}

fn schema_ended(rt: &impl Abort, schema: RawSchema, pass: &mut Pass) {
    let mut schema = schema;
    let before = pass.units();
    assert!(rt; schema.cost() <= SUPPLY - before);
    schema.release(pass);
    schema.discard();
}

/// The types of columns, read from their schema.
fn typed_columns(rt: &impl Abort, alloc: Global, columns: &[ColumnType], pass: &mut Pass) -> Typed
    requires small { Nodes (SchemaOf (map column_of columns.now)) ≤ CHUNK }
    requires not_deep { Depth (SchemaOf (map column_of columns.now)) ≤ 64 }
    requires spelled { All (λ c. KindsOk (column_of c).kind) columns.now }
    requires kinds { All (λ c. AreColumnKinds c.kind) (map column_of columns.now) }
    ensures typed { typed_of result ≡ type_of_columns (map column_of columns.now) }
    ensures ok { TypedOk (typed_of result) }
{
    column_schemas_are_lawful();
    assert!(rt; pass.units() >= CHUNK);
    let schema = match export_schema(alloc, columns, pass) {
        Ok(schema) => schema,
        Err(_no_memory) => panic!(rt; "no memory"),
    };
    let typed = match check_schema(alloc, &schema) {
        Ok(typed) => typed,
        Err(_fault) => panic!(rt; "a fault"),
    };
    schema_ended(rt, schema, pass);
    typed
}

/// The text of chunks under a mark for null.
fn written(
    rt: &impl Abort,
    alloc: Global,
    columns: &[ColumnType],
    typed: &Typed,
    chunks: &[RawArray],
    mark: &[u8],
) -> Vec<u8>
    requires texts { HaveTexts (map column_of columns.now) }
    requires typed { typed_of typed.now ≡ type_of_columns (map column_of columns.now) }
    requires ok { TypedOk (typed_of typed.now) }
{
    let mut text = match CsvText::new(alloc, columns, mark) {
        Ok(text) => text,
        Err(_no_memory) => panic!(rt; "no memory"),
    };
    for chunk in chunks {
        assert!(rt; check_array(typed, chunk).is_ok());
        match text.add(alloc, Col::of(typed, chunk)) {
            Ok(()) => {}
            Err(_no_memory) => panic!(rt; "no memory"),
        }
    }
    match text.finish() {
        Ok(text) => text,
        Err(_no_memory) => panic!(rt; "no memory"),
    }
}

/// The chunks of columns have this text under the empty mark, and that text under the mark `NULL`.
fn shows(
    rt: &impl Abort,
    alloc: Global,
    columns: &[ColumnType],
    chunks: Vec<RawArray>,
    want: &[u8],
    marked: &[u8],
    pass: &mut Pass,
)
    requires small { Nodes (SchemaOf (map column_of columns.now)) ≤ CHUNK }
    requires not_deep { Depth (SchemaOf (map column_of columns.now)) ≤ 64 }
    requires spelled { All (λ c. KindsOk (column_of c).kind) columns.now }
    requires kinds { All (λ c. AreColumnKinds c.kind) (map column_of columns.now) }
    requires texts { HaveTexts (map column_of columns.now) }
{
    let typed = typed_columns(rt, alloc, columns, pass);
    let text = written(rt, alloc, columns, &typed, &chunks, b"");
    same(rt, &("", text.as_slice()), &("", want));
    let text = written(rt, alloc, columns, &typed, &chunks, b"NULL");
    same(rt, &("NULL", text.as_slice()), &("NULL", marked));
    all_ended(rt, chunks, pass);
}

/// A chunk of two columns: an empty text, one that is quoted, and a null; and a null index, and the entries 1 and 0, of which the
/// first is null.
fn two_columns(rt: &impl Abort, alloc: Global, pass: &mut Pass) -> RawArray {
    let texts = array_at(
        rt,
        alloc,
        (3, 0),
        &[
            Some(b"\x03"),
            Some(b"\0\0\0\0\0\0\0\0\x04\0\0\0\x05\0\0\0"),
            Some(b"a\"b,q"),
        ],
        Vec::new(alloc),
        None,
        pass,
    );
    let entries = array_at(
        rt,
        alloc,
        (2, 0),
        &[
            Some(b"\x02"),
            Some(b"\0\0\0\0\0\0\0\0\x02\0\0\0"),
            Some(b"hi"),
        ],
        Vec::new(alloc),
        None,
        pass,
    );
    let indices = array_at(
        rt,
        alloc,
        (3, 1),
        &[Some(b"\x0d"), Some(b"\0\0\0\0\x07\0\0\0\x01\0\0\0\0\0\0\0")],
        Vec::new(alloc),
        Some(entries),
        pass,
    );
    let mut columns = Vec::new(alloc);
    columns.push(texts).expect(rt, "no memory");
    columns.push(indices).expect(rt, "no memory");
    array_at(rt, alloc, (3, 0), &[None], columns, None, pass)
}

#[test]
fn empty_texts_and_null_entries_are_written_as_the_mark_has_it(rt: HostRuntime) {
    let alloc = rt.alloc();
    let text = DataType::Utf8 { wide: false };
    let coded = DataType::Utf8 { wide: false };
    let columns = [
        column(&rt, alloc, b"u", ColKind::Flat(text)),
        column(&rt, alloc, b"t,", ColKind::Dict(coded)),
    ];
    let (desk, mut pass) = open_desk();
    let mut chunks = Vec::new(alloc);
    let chunk = two_columns(&rt, alloc, &mut pass);
    chunks.push(chunk).expect(&rt, "no memory");
    let want = b"u,\"t,\"\n,\n\"a\"\"b,\",hi\n,\n";
    let marked = b"u,\"t,\"\n,NULL\n\"a\"\"b,\",hi\nNULL,NULL\n";
    shows(&rt, alloc, &columns, chunks, want, marked, &mut pass);
    closed(&rt, 0, desk, pass);
}
