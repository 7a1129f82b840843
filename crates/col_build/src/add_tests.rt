//! Columns that items are added to, beside columns of the same items that are pushed to alone.
ghost use Rattle.std.specs.Prelude.{◌≡◌, ◌≤◌, ◌<◌, ◌⊎◌, [], List, length, OnOk};
ghost use Rattle.data_types.specs.promise.FieldText.{form_of};
ghost use Rattle.data_types.specs.Kinds.{KindOk};
ghost use Rattle.data_types.specs.promise.Value.{Value, Bits, Whole};
ghost use Rattle.col_build.specs.Encoding.{HasForm, most_values};
ghost use Rattle.col_build.specs.Holding.{Adds, Holds, Takes};
ghost use Rattle.col_build.specs.Items.{value_of};

use crate::Item::{Bits, Bytes, Null, Truth, Whole};
use crate::tests::{decimal, expect_finish, int};
use crate::{Builder, Item};
use data_types::{DataType, Storage, clone_kind, storage_of};
use std::alloc::Global;
use std::process::Abort;
use unit_pass::{NoMemory, open_desk};

/// Adds a whole number by its width.
fn add_number(builder: &mut Builder, kind: &DataType, number: i128) -> Result<(), NoMemory>
    requires takes { Takes builder.old (Whole number) }
    requires kind { builder.old.kind ≡ kind.now }
    ensures { OnOk result (Adds (Whole number) builder.old builder.new) }
{
    match storage_of(kind) {
        Storage::Wholes { bits, signed: _ } if bits % 8 == 0 => {
            builder.add_whole(usize::from(bits / 8), number)
        }
        _ => builder.add(Whole(number)),
    }
}

/// Adds the bits of a float by their width.
fn add_float(builder: &mut Builder, kind: &DataType, number: u64) -> Result<(), NoMemory>
    requires takes { Takes builder.old (Bits number) }
    requires kind { builder.old.kind ≡ kind.now }
    ensures { OnOk result (Adds (Bits number) builder.old builder.new) }
{
    match storage_of(kind) {
        Storage::Floats { bits } if bits % 8 == 0 => {
            builder.add_bits(usize::from(bits / 8), number)
        }
        _ => builder.add(Bits(number)),
    }
}

/// Adds an item by the call for its form, or by that for any.
fn add_item(
    builder: &mut Builder,
    kind: &DataType,
    item: Item<'_>,
    any: bool,
) -> Result<(), NoMemory>
    requires takes { Takes builder.old (value_of item) }
    requires kind { builder.old.kind ≡ kind.now }
    ensures { OnOk result (Adds (value_of item.entry) builder.old builder.new) }
{
    if any {
        return builder.add(item);
    }
    match item {
        Null => builder.add_null(),
        Truth(truth) => builder.add_truth(truth),
        Whole(number) => add_number(builder, kind, number),
        Bits(number) => add_float(builder, kind, number),
        Bytes(bytes) => builder.add_bytes(bytes),
    }
}

/// Pushes an item to one column, and adds it to another of the same items.
fn take_one(
    rt: &impl Abort,
    kind: &DataType,
    pushed: &mut Builder,
    added: &mut Builder,
    item: Item<'_>,
    any: bool,
)
    requires same { (values : List Value) × Holds pushed.old kind.now values × Holds added.old kind.now values × (length values < most_values) }
    ensures pushed { Adds (value_of item.entry) pushed.old pushed.new }
    ensures added { Adds (value_of item.entry) added.old added.new }
{
    match pushed.push(item) {
        Ok(()) => {}
        Err(fault) => assert!(rt; false, "{fault:?} of {item:?}"),
    }
    match add_item(added, kind, item, any) {
        Ok(()) => {}
        Err(NoMemory) => assert!(rt; false, "memory for {item:?}"),
    }
}

/// Takes this many items, these ones round and round, each eighth by the call for any.
fn take_round(
    rt: &impl Abort,
    kind: &DataType,
    pushed: &mut Builder,
    added: &mut Builder,
    items: &[Item<'_>],
    count: usize,
)
    requires none { Holds pushed.old kind.now [] × Holds added.old kind.now [] }
    requires some { 1 ≤ length items.now }
    requires few { count ≤ 100000 }
    ensures { (values : List Value) × Holds pushed.new kind.now values × Holds added.new kind.now values }
{
    for i in 0..count {
        take_one(rt, kind, pushed, added, items[i % items.len()], i % 8 == 7);
    }
}

/// A buffer, which is absent where it has no bytes.
fn buffer<'x>(bytes: &'x [u8]) -> Option<&'x [u8]> {
    if bytes.is_empty() { None } else { Some(bytes) }
}

/// Adds this many items to a column, and expects the buffers of one that they are pushed to.
fn expect_alike(
    rt: &impl Abort,
    alloc: Global,
    kind: DataType,
    room: usize,
    items: &[Item<'_>],
    count: usize,
)
    requires kind { KindOk kind }
    requires flat { HasForm (form_of kind) }
    requires some { 1 ≤ length items.now }
    requires few { count ≤ 100000 }
{
    let Ok(first) = clone_kind(alloc, &kind) else {
        assert!(rt; false, "memory");
        return;
    };
    let Ok(second) = clone_kind(alloc, &kind) else {
        assert!(rt; false, "memory");
        return;
    };
    let mut pushed = Builder::new(alloc, first);
    let Ok(mut added) = Builder::with_room(alloc, second, room, room) else {
        assert!(rt; false, "memory");
        return;
    };
    take_round(rt, &kind, &mut pushed, &mut added, items, count);
    pushed.settle();
    assert_eq!(rt; added.used().0, count);
    let counts = (count as i64, pushed.nulls as i64);
    let validity = buffer(pushed.validity.as_slice());
    let bytes = buffer(pushed.bytes.as_slice());
    let (desk, mut pass) = open_desk();
    if pushed.offsets.is_empty() {
        expect_finish(rt, alloc, &mut added, &mut pass, counts, &[validity, bytes]);
    } else {
        let offsets = buffer(pushed.offsets.as_slice());
        expect_finish(
            rt,
            alloc,
            &mut added,
            &mut pass,
            counts,
            &[validity, offsets, bytes],
        );
    }
    let _audit = desk.close(pass);
}

/// Columns of whole numbers of this many bits.
fn expect_ints(rt: &impl Abort, alloc: Global, bits: u8)
    requires { (bits ≡ 8) ⊎ (bits ≡ 16) ⊎ (bits ≡ 32) ⊎ (bits ≡ 64) }
{
    let numbers = [Whole(0), Whole(-1), Whole(1), Whole(127), Whole(-128)];
    expect_alike(rt, alloc, int(bits, true), 0, &numbers, 600);
    let nulls = [Whole(7), Null, Whole(-2)];
    expect_alike(rt, alloc, int(bits, true), 9, &nulls, 300);
    let small = [Whole(0), Whole(255), Whole(1)];
    expect_alike(rt, alloc, int(bits, false), 700, &small, 600);
}

/// Columns of floats of this many bits.
fn expect_floats(rt: &impl Abort, alloc: Global, bits: u8)
    requires { (bits ≡ 16) ⊎ (bits ≡ 32) ⊎ (bits ≡ 64) }
{
    let numbers = [Bits(0), Bits(0x7fff), Bits(0x3c00)];
    expect_alike(rt, alloc, DataType::Float { bits }, 0, &numbers, 600);
    let nulls = [Bits(1), Bits(2), Null];
    expect_alike(rt, alloc, DataType::Float { bits }, 3, &nulls, 300);
}

/// Columns of texts and of bytes.
fn expect_bytes(rt: &impl Abort, alloc: Global, wide: bool) {
    let texts = [
        Bytes(b"ab"),
        Bytes(b""),
        Bytes(b"abcdefgh"),
        Bytes(b"caf\xc3\xa9"),
        Bytes(b"abcdefghi"),
    ];
    expect_alike(rt, alloc, DataType::Utf8 { wide }, 0, &texts, 700);
    expect_alike(rt, alloc, DataType::Binary { wide }, 10, &texts, 300);
    let lengths = [
        Bytes(b"0123456789abcdef"),
        Bytes(b"0123456"),
        Bytes(b"0123456789abcdefg"),
        Bytes(b"0123456789abcde"),
        Bytes(b"012"),
        Bytes(b"0"),
    ];
    expect_alike(rt, alloc, DataType::Utf8 { wide }, 0, &lengths, 701);
    let nulls = [Bytes(b"abc"), Null, Bytes(b""), Bytes(b"0123456789")];
    expect_alike(rt, alloc, DataType::Utf8 { wide }, 800, &nulls, 700);
    expect_alike(rt, alloc, DataType::Binary { wide }, 0, &[Null], 300);
}

/// Numbers whose highest bit is no sign.
fn expect_large(rt: &impl Abort, alloc: Global) {
    let large = [Whole(0xffff_ffff), Whole(0), Whole(0x8000_0000)];
    expect_alike(rt, alloc, int(32, false), 0, &large, 600);
    let largest = [Whole(0xffff_ffff_ffff_ffff), Whole(0x8000_0000_0000_0000)];
    expect_alike(rt, alloc, int(64, false), 0, &largest, 600);
}

#[test]
fn added_numbers_lie_as_pushed_ones(rt: HostRuntime) {
    let alloc = rt.alloc();
    expect_ints(&rt, alloc, 8);
    expect_ints(&rt, alloc, 16);
    expect_ints(&rt, alloc, 32);
    expect_ints(&rt, alloc, 64);
    expect_large(&rt, alloc);
    let wide = [
        Whole(0x0102_0304_0506_0708_090a_0b0c_0d0e_0f10),
        Whole(-1),
        Whole(-0x0102_0304_0506_0708_090a_0b0c_0d0e_0f10),
    ];
    expect_alike(&rt, alloc, decimal(), 0, &wide, 600);
    expect_alike(&rt, alloc, decimal(), 1, &[Null, Whole(-3)], 40);
}

#[test]
fn added_floats_and_truth_values_lie_as_pushed_ones(rt: HostRuntime) {
    let alloc = rt.alloc();
    expect_floats(&rt, alloc, 16);
    expect_floats(&rt, alloc, 32);
    expect_floats(&rt, alloc, 64);
    let truths = [Truth(true), Truth(false), Truth(true)];
    expect_alike(&rt, alloc, DataType::Bool, 0, &truths, 100);
    expect_alike(&rt, alloc, DataType::Bool, 8, &[Truth(true), Null], 100);
}

#[test]
fn added_bytes_lie_as_pushed_ones(rt: HostRuntime) {
    let alloc = rt.alloc();
    expect_bytes(&rt, alloc, false);
    expect_bytes(&rt, alloc, true);
    let pairs = [Bytes(b"ab"), Bytes(b"\xff\x00"), Null];
    let kind = DataType::FixedBinary { size: 2 };
    expect_alike(&rt, alloc, kind, 0, &pairs, 100);
}
