//! A table is shown twice, and what was kept is compared value by value.
use data_types::DataType;
use layout_check::check_chunk;
use pipe_top::{OwnedValue, RecordTap, SeenChunk};
use raw_array::RawArray;
use raw_schema::RawSchema;
use schema_check::check_schema;
use std::alloc::Global;
use std::process::Abort;
use stream_face::Tap;
use test_parts::{Items, array, node};
use unit_pass::{Name, Pass, SUPPLY, open_desk};

// ---- the table

/// A schema of this format and name.
fn field(
    rt: &impl Abort,
    alloc: Global,
    format: &[u8],
    name: Option<&[u8]>,
    children: Vec<RawSchema>,
    pass: &mut Pass,
) -> RawSchema {
    node(alloc, format, name, children, None, pass).expect(rt, "no memory")
}

/// An array of three items, of which this many are null.
fn array_of(
    rt: &impl Abort,
    alloc: Global,
    null_count: i64,
    bytes: &[Option<&[u8]>],
    children: Vec<RawArray>,
    pass: &mut Pass,
) -> RawArray {
    let items = Items {
        length: 3,
        null_count,
        offset: 0,
    };
    array(alloc, items, bytes, children, None, pass).expect(rt, "no memory")
}

/// A column of whole numbers, and one of structs of a text and a list of truth values.
fn table_schema(rt: &impl Abort, alloc: Global, pass: &mut Pass) -> RawSchema {
    let mut items = Vec::new(alloc);
    let item = field(rt, alloc, b"b", Some(b"item"), Vec::new(alloc), pass);
    items.push(item).expect(rt, "no memory");
    let mut fields = Vec::new(alloc);
    let text = field(rt, alloc, b"u", Some(b"x"), Vec::new(alloc), pass);
    fields.push(text).expect(rt, "no memory");
    let list = field(rt, alloc, b"+l", Some(b"y"), items, pass);
    fields.push(list).expect(rt, "no memory");
    let mut columns = Vec::new(alloc);
    let numbers = field(rt, alloc, b"c", Some(b"n"), Vec::new(alloc), pass);
    columns.push(numbers).expect(rt, "no memory");
    let structs = field(rt, alloc, b"+s", Some(b"s"), fields, pass);
    columns.push(structs).expect(rt, "no memory");
    field(rt, alloc, b"+s", None, columns, pass)
}

const ENDS: [u8; 16] = [0, 0, 0, 0, 2, 0, 0, 0, 2, 0, 0, 0, 3, 0, 0, 0];

const LISTS: [u8; 16] = [0, 0, 0, 0, 1, 0, 0, 0, 1, 0, 0, 0, 3, 0, 0, 0];

/// Three rows; the second number is null.
fn table(rt: &impl Abort, alloc: Global, pass: &mut Pass) -> RawArray {
    let mut items = Vec::new(alloc);
    let truths = array_of(rt, alloc, 0, &[None, Some(&[5])], Vec::new(alloc), pass);
    items.push(truths).expect(rt, "no memory");
    let mut fields = Vec::new(alloc);
    let buffers: [Option<&[u8]>; 3] = [None, Some(&ENDS), Some(b"hi!")];
    let texts = array_of(rt, alloc, 0, &buffers, Vec::new(alloc), pass);
    fields.push(texts).expect(rt, "no memory");
    let lists = array_of(rt, alloc, 0, &[None, Some(&LISTS)], items, pass);
    fields.push(lists).expect(rt, "no memory");
    let mut columns = Vec::new(alloc);
    let buffers: [Option<&[u8]>; 2] = [Some(&[5]), Some(&[7, 0, 255])];
    let numbers = array_of(rt, alloc, 1, &buffers, Vec::new(alloc), pass);
    columns.push(numbers).expect(rt, "no memory");
    let structs = array_of(rt, alloc, 0, &[None], fields, pass);
    columns.push(structs).expect(rt, "no memory");
    array_of(rt, alloc, 0, &[None], columns, pass)
}

// ---- what is wanted

/// What is to be kept.
#[derive(Clone, Copy)]
enum Want<'w> {
    Null,
    Truth(bool),
    Whole(i128),
    Bytes(&'w [u8]),
    Items(&'w [Want<'w>]),
    Fields(&'w [Want<'w>]),
}

static ROWS: [[Want<'static>; 2]; 3] = [
    [
        Want::Whole(7),
        Want::Fields(&[Want::Bytes(b"hi"), Want::Items(&[Want::Truth(true)])]),
    ],
    [
        Want::Null,
        Want::Fields(&[Want::Bytes(b""), Want::Items(&[])]),
    ],
    [
        Want::Whole(-1),
        Want::Fields(&[
            Want::Bytes(b"!"),
            Want::Items(&[Want::Truth(false), Want::Truth(true)]),
        ]),
    ],
];

static NAMES: [Option<&[u8]>; 6] = [
    None,
    Some(b"n"),
    Some(b"s"),
    Some(b"x"),
    Some(b"y"),
    Some(b"item"),
];

#[cycle(same)]
fn is_kept(rt: &impl Abort, value: &OwnedValue, want: &Want<'_>) {
    match (value, want) {
        (OwnedValue::Null, Want::Null) => {}
        (OwnedValue::Truth(found), Want::Truth(want)) => assert_eq!(rt; *found, *want),
        (OwnedValue::Whole(found), Want::Whole(want)) => assert_eq!(rt; *found, *want),
        (OwnedValue::Bytes(found), Want::Bytes(want)) => assert_eq!(rt; found.as_slice(), *want),
        (OwnedValue::Items(found), Want::Items(want)) => are_kept(rt, found.as_slice(), want),
        (OwnedValue::Fields(found), Want::Fields(want)) => are_kept(rt, found.as_slice(), want),
        _ => panic!(rt; "another kind of value"),
    }
}

#[cycle(same)]
fn are_kept(rt: &impl Abort, values: &[OwnedValue], wanted: &[Want<'_>]) {
    assert_eq!(rt; values.len(), wanted.len());
    for (value, want) in values.iter().zip(wanted.iter()) {
        is_kept(rt, value, want);
    }
}

fn name_is(rt: &impl Abort, name: &Option<Name>, want: Option<&[u8]>) {
    let found = match name {
        Some(name) => Some(name.as_slice()),
        None => None,
    };
    assert_eq!(rt; found, want);
}

fn chunk_is(rt: &impl Abort, seen: &SeenChunk, link: u32) {
    assert_eq!(rt; seen.link, link);
    assert_eq!(rt; seen.names.len(), NAMES.len());
    for (name, want) in seen.names.iter().zip(NAMES.iter()) {
        name_is(rt, name, *want);
    }
    assert!(rt; matches!(&seen.typed.kind, DataType::Struct));
    assert_eq!(rt; seen.typed.kids.len(), 2);
    assert!(rt; matches!(&seen.typed.kids[1].kind, DataType::Struct));
    assert_eq!(rt; seen.rows.len(), ROWS.len());
    for (row, want) in seen.rows.iter().zip(ROWS.iter()) {
        are_kept(rt, row.as_slice(), want.as_slice());
    }
}

/// Shows a chunk under two links.
fn show_twice(
    rt: &impl Abort,
    alloc: Global,
    tap: &mut RecordTap,
    schema: &RawSchema,
    chunk: &RawArray,
) {
    let Ok(typed) = check_schema(alloc, schema) else {
        panic!(rt; "the schema is refused");
    };
    if check_chunk(&typed, chunk).is_err() {
        panic!(rt; "the chunk is refused");
    }
    assert!(rt; tap.see(alloc, 3, schema, &typed, chunk).is_ok());
    assert!(rt; tap.see(alloc, 9, schema, &typed, chunk).is_ok());
}

#[test]
fn what_is_shown_is_kept(rt: HostRuntime) {
    let alloc = rt.alloc();
    let (desk, mut pass) = open_desk();
    let schema = table_schema(&rt, alloc, &mut pass);
    let chunk = table(&rt, alloc, &mut pass);
    let mut tap = RecordTap::new(alloc);
    assert!(rt; tap.seen().is_empty());
    show_twice(&rt, alloc, &mut tap, &schema, &chunk);
    let seen = tap.seen();
    assert_eq!(rt; seen.len(), 2);
    chunk_is(&rt, &seen[0], 3);
    chunk_is(&rt, &seen[1], 9);
    let before = pass.units();
    assert!(rt; chunk.cost() <= SUPPLY - before);
    chunk.end(&mut pass);
    let before = pass.units();
    assert!(rt; schema.cost() <= SUPPLY - before);
    schema.end(&mut pass);
    assert_eq!(rt; pass.units(), SUPPLY);
    desk.close(pass);
}
