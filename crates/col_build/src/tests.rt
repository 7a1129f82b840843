//! Finished columns, against buffers that were written by hand.
ghost use Rattle.std.specs.Prelude.{◌≡◌, ◌+◌, ◌<◌, ◌≤◌, [], List, length, pos, false};
ghost use Rattle.unit_pass.specs.declared.pass.TheConstants.{SUPPLY};
ghost use Rattle.data_types.specs.promise.Value.{Value};
ghost use Rattle.data_types.specs.declared.kind.DataType.{DataType};
ghost use Rattle.col_build.specs.promise.Finished.{blocks_of};
ghost use Rattle.col_build.specs.Finished.{IsEncoded};
ghost use Rattle.col_build.specs.Holding.{Adds, Holds, HoldsFew, HoldsSome};
ghost use Rattle.col_build.specs.Items.{value_of};
ghost use Rattle.data_types.specs.declared.kind.DataType.TheVariants.{Decimal, Int};

use crate::Item::{Null, Whole};
use crate::{Builder, FinishedColumn, Item, PushFault, SpareBuffers};
use buf_block::{BufView, let_go_all};
use data_types::DataType;
use std::alloc::Global;
use std::process::Abort;
use unit_pass::{NoMemory, Pass, open_desk};

/// Expects these bytes in a buffer, or none.
fn expect_buffer(rt: &impl Abort, view: &Option<BufView>, bytes: Option<&[u8]>) {
    match (view, bytes) {
        (Some(view), Some(bytes)) => {
            let found = (view.start, view.bytes(), view.hold.bytes());
            assert_eq!(rt; found, (0, bytes, bytes));
        }
        (None, None) => {}
        _ => assert!(rt; false, "a buffer is there or not"),
    }
}

/// Expects these counts and these bytes in the buffers.
fn expect_buffers(
    rt: &impl Abort,
    found: (i64, i64),
    views: &[Option<BufView>],
    counts: (i64, i64),
    buffers: &[Option<&[u8]>],
) {
    assert_eq!(rt; (found, views.len()), (counts, buffers.len()));
    for (view, bytes) in views.iter().zip(buffers.iter()) {
        expect_buffer(rt, view, *bytes);
    }
}

/// Pushes an item that is taken, once more where memory runs out.
fn push_one(rt: &impl Abort, builder: &mut Builder, item: Item<'_>)
    requires few { HoldsFew builder.old }
    ensures { Adds (value_of item.entry) builder.old builder.new }
{
    if let Err(fault) = builder.push(item) {
        assert_eq!(rt; (item, fault), (item, PushFault::NoMemory));
        match builder.push(item) {
            Ok(()) => {}
            Err(again) => panic!(rt; "{again:?} of {item:?}"),
        }
    }
}

/// Pushes items that are taken into a column without items.
fn push_taken(rt: &impl Abort, builder: &mut Builder, items: &[Item<'_>])
    requires empty { (kind : DataType) × Holds builder.old kind [] }
    requires few { length items.now ≤ 1000 }
    ensures { HoldsFew builder.new }
{
    for item in items {
        push_one(rt, builder, *item);
    }
}

/// Expects these counts and buffers of the column.
fn expect_column(
    rt: &impl Abort,
    column: FinishedColumn,
    pass: &mut Pass,
    counts: (i64, i64),
    buffers: &[Option<&[u8]>],
)
    requires { (kind : DataType) × (values : List Value) × IsEncoded column kind values × (pass.old.units + blocks_of kind values ≡ SUPPLY) }
    ensures { pass.new.units ≡ SUPPLY }
{
    let FinishedColumn {
        length,
        null_count,
        buffers: views,
    } = column;
    expect_buffers(rt, (length, null_count), &views, counts, buffers);
    let_go_all(views, pass);
}

/// Finishes the column, once more where memory runs out, and expects these counts and buffers.
pub(crate) fn expect_finish(
    rt: &impl Abort,
    alloc: Global,
    builder: &mut Builder,
    pass: &mut Pass,
    counts: (i64, i64),
    buffers: &[Option<&[u8]>],
)
    requires holds { HoldsSome builder.old }
    requires units { pass.old.units ≡ SUPPLY }
    ensures empty { (kind : DataType) × Holds builder.new kind [] }
    ensures units { pass.new.units ≡ SUPPLY }
{
    let blocks = buffers.iter().flatten().count() as u64;
    let mut spares = SpareBuffers::new(alloc);
    match builder.finish(alloc, &mut spares, pass) {
        Ok(column) => {
            assert_eq!(rt; pass.blocks(), blocks);
            expect_column(rt, column, pass, counts, buffers)
        }
        Err(NoMemory) => match builder.finish(alloc, &mut spares, pass) {
            Ok(column) => expect_column(rt, column, pass, counts, buffers),
            Err(NoMemory) => panic!(rt; "memory"),
        },
    }
}

/// A type of whole numbers.
pub(crate) fn int(bits: u8, signed: bool) -> DataType
    ensures { result ≡ Int bits signed }
{
    DataType::Int { bits, signed }
}

pub(crate) fn decimal() -> DataType
    ensures { result ≡ Decimal 1 (pos 0) false }
{
    DataType::Decimal {
        precision: 1,
        scale: 0,
        wide: false,
    }
}

/// The same items are finished twice by one builder.
#[test]
fn a_finished_builder_begins_anew(rt: HostRuntime) {
    let alloc = rt.alloc();
    let items = [Whole(7), Null, Whole(9)];
    let buffers: [Option<&[u8]>; 2] = [Some(&[0b101]), Some(&[7, 0, 9])];
    let mut builder = Builder::new(alloc, int(8, false));
    let (desk, mut pass) = open_desk();
    push_taken(&rt, &mut builder, &items);
    expect_finish(&rt, alloc, &mut builder, &mut pass, (3, 1), &buffers);
    let _audit = desk.close(pass);
    let Ok(()) = builder.begin_anew(alloc, 3, 3) else {
        panic!(&rt; "memory")
    };
    let (desk, mut pass) = open_desk();
    push_taken(&rt, &mut builder, &items);
    expect_finish(&rt, alloc, &mut builder, &mut pass, (3, 1), &buffers);
    let _audit = desk.close(pass);
}
