//! Items of a column added to a builder.
ghost use Rattle.std.specs.Prelude.{◌≡◌, ◌≢◌, ◌<◌, ◌*◌, Bool, true, if◌then◌else◌, OnErr, OnOk};
ghost use Rattle.data_types.specs.declared.storage.Storage.{Storage as AStorage};
ghost use Rattle.data_types.specs.declared.storage.Storage.TheVariants.{Between, Truths, Wholes};
ghost use Rattle.col_build.specs.Holding.{Adds, Keeps};
ghost use Rattle.col_build.specs.Items.{value_of};
ghost use Rattle.col_build.specs.Times.{AddsSome, AddsTimes, TakesTimes};
ghost use Rattle.data_types.specs.promise.Value.{Null};
ghost use Rattle.arr_import.specs.Cols.{window_of};
ghost use Rattle.arr_import.specs.Plain.{IsItemThere, is_valid_in, storage_in, valid_item};
ghost use Rattle.arr_import.specs.Window.{item_at};
ghost use Rattle.column_fill.specs.Takes.{IsStored, Takes};
ghost use Rattle.layout_rules.specs.promise.Rules.{window_limit};

use arr_import::{Col, Plain};
use col_build::{Builder, Item, PushFault};
use data_types::Storage;
use unit_pass::NoMemory;

/// An item of a column whose items are null or stored so.
#[inline(always)]
fn item_of<'a>(items: &Col<'a>, storage: Storage, i: u64) -> Item<'a>
    requires inside { i < (window_of items.now).count }
    requires near { i < window_limit }
    requires stored { IsStored storage (item_at (window_of items.now) i) }
    ensures { value_of result ≡ item_at (window_of items.now) i }
{
    let i = i as i64;
    match storage {
        Storage::Truths => match items.truth(i) {
            Some(truth) => Item::Truth(truth),
            None => Item::Null,
        },
        Storage::Wholes { .. } => match items.whole(i) {
            Some(number) => Item::Whole(number),
            None => Item::Null,
        },
        Storage::Floats { .. } => match items.bits(i) {
            Some(bits) => Item::Bits(bits),
            None => Item::Null,
        },
        Storage::Sized { .. } | Storage::Between { .. } => match items.bytes(i) {
            Some(bytes) => Item::Bytes(bytes),
            None => Item::Null,
        },
        _ => Item::Null,
    }
}

/// Adds an item to a column in the making that takes it, of a text without testing it again. `storage` is how the column's values
/// are stored. An `Err` comes only where memory runs out; the column is as before then.
#[inline(always)]
fn push(builder: &mut Builder, storage: Storage, item: Item<'_>) -> Result<(), NoMemory>
    requires { Takes builder.old storage (value_of item) }
    ensures added { OnOk result (Adds (value_of item.entry) builder.old builder.new) }
    ensures kept { OnErr result (Keeps builder.old builder.new) }
{
    let pushed = match (storage, item) {
        (Storage::Between { text: true, .. }, Item::Bytes(text)) => builder.push_text(text),
        _ => builder.push(item),
    };
    match pushed {
        Ok(()) => Ok(()),
        Err(PushFault::NoMemory) => Err(NoMemory),
        Err(_) => unreachable!(),
    }
}

/// Adds bytes of a column, or a null.
#[inline(always)]
fn push_bytes(builder: &mut Builder, items: &Col<'_>, i: u64) -> Result<(), NoMemory>
    requires inside { i < (window_of items.now).count }
    requires near { i < window_limit }
    requires takes { (wide : Bool) × (text : Bool) × Takes builder.old (Between wide text) (item_at (window_of items.now) i) }
    ensures { OnOk result (Adds (item_at (window_of items.now) i) builder.old builder.new) }
{
    match items.bytes(i as i64) {
        Some(bytes) => builder.add_bytes(bytes),
        None => builder.add_null(),
    }
}

/// Adds a whole number of a column, of this many bytes, or a null.
#[inline(always)]
fn push_whole(builder: &mut Builder, width: usize, items: &Col<'_>, i: u64) -> Result<(), NoMemory>
    requires inside { i < (window_of items.now).count }
    requires near { i < window_limit }
    requires takes { (signed : Bool) × Takes builder.old (Wholes (8 * width) signed) (item_at (window_of items.now) i) }
    ensures { OnOk result (Adds (item_at (window_of items.now) i) builder.old builder.new) }
{
    match items.whole(i as i64) {
        Some(number) => builder.add_whole(width, number),
        None => builder.add_null(),
    }
}

/// Adds a truth value of a column, or a null.
#[inline(always)]
fn push_truth(builder: &mut Builder, items: &Col<'_>, i: u64) -> Result<(), NoMemory>
    requires inside { i < (window_of items.now).count }
    requires near { i < window_limit }
    requires takes { Takes builder.old Truths (item_at (window_of items.now) i) }
    ensures { OnOk result (Adds (item_at (window_of items.now) i) builder.old builder.new) }
{
    match items.truth(i as i64) {
        Some(truth) => builder.add_truth(truth),
        None => builder.add_null(),
    }
}

/// Adds an item of a column that is stored in any other way.
#[inline(never)]
fn push_rare(
    builder: &mut Builder,
    storage: Storage,
    items: &Col<'_>,
    i: u64,
) -> Result<(), NoMemory>
    requires inside { i < (window_of items.now).count }
    requires near { i < window_limit }
    requires takes { Takes builder.old storage (item_at (window_of items.now) i) }
    ensures { OnOk result (Adds (item_at (window_of items.now) i) builder.old builder.new) }
{
    push(builder, storage, item_of(items, storage, i))
}

/// Adds an item of a column to a builder of its type. The common ways to store an item are tried first, in line. `NoMemory`
/// comes only where memory runs out.
#[inline(always)]
pub fn push_item(
    builder: &mut Builder,
    storage: Storage,
    items: &Col<'_>,
    i: u64,
) -> Result<(), NoMemory>
    requires inside { i < (window_of items.now).count }
    requires near { i < window_limit }
    requires takes { Takes builder.old storage (item_at (window_of items.now) i) }
    ensures { OnOk result (Adds (item_at (window_of items.now) i) builder.old builder.new) }
{
    match storage {
        Storage::Between { .. } => push_bytes(builder, items, i),
        Storage::Wholes { bits: 32, .. } => push_whole(builder, 4, items, i),
        Storage::Wholes { bits: 64, .. } => push_whole(builder, 8, items, i),
        Storage::Wholes { bits: 128, .. } => push_whole(builder, 16, items, i),
        Storage::Truths => push_truth(builder, items, i),
        _ => push_rare(builder, storage, items, i),
    }
}

/// An item that isn't null of a column that is read by its places.
#[inline(always)]
fn item_in<'a>(items: &Plain<'a>, storage: Storage, i: u64) -> Item<'a>
    requires there { IsItemThere items.now i }
    requires stored { storage_in items.now ≡ storage }
    ensures { value_of result ≡ valid_item items.now i }
{
    match storage {
        Storage::Truths => Item::Truth(items.truth(i)),
        Storage::Wholes { bits, signed } => Item::Whole(items.whole(bits, signed, i)),
        Storage::Floats { bits } => Item::Bits(items.float_bits(bits, i)),
        Storage::Sized { size } => Item::Bytes(items.sized(size, i)),
        Storage::Between { wide, .. } => Item::Bytes(items.between(wide, i)),
        _ => Item::Null,
    }
}

/// Adds an item of a column that is read by its places. `storage` is how its items and the builder's values are stored. Where it is
/// a constant, an item of a common type costs one test of its validity and the stores.
///
/// # Errors
///
/// `NoMemory` where there is no memory for it.
#[inline(always)]
pub(crate) fn push_plain(
    builder: &mut Builder,
    storage: Storage,
    items: &Plain<'_>,
    i: u64,
) -> Result<(), NoMemory>
    requires there { IsItemThere items.now i }
    requires stored { storage_in items.now ≡ storage }
    requires takes { Takes builder.old storage (if is_valid_in items.now i then valid_item items.now i else Null) }
    ensures { OnOk result (Adds (if is_valid_in items.now i then valid_item items.now i else Null) builder.old builder.new) }
{
    if !items.is_valid(i) {
        return builder.add_null();
    }
    match storage {
        Storage::Between { wide, .. } => builder.add_bytes(items.between(wide, i)),
        Storage::Wholes { bits: 32, signed } => builder.add_whole(4, items.whole(32, signed, i)),
        Storage::Wholes { bits: 64, signed } => builder.add_whole(8, items.whole(64, signed, i)),
        Storage::Wholes { bits: 128, signed } => builder.add_whole(16, items.whole(128, signed, i)),
        Storage::Truths => builder.add_truth(items.truth(i)),
        _ => push(builder, storage, item_in(items, storage, i)),
    }
}

/// Adds an item of a column this many times. `storage` is how the builder's values are stored.
///
/// # Errors
///
/// `NoMemory` where there is no memory for them. The item is there less often then, or not at all.
pub fn push_item_times(
    builder: &mut Builder,
    storage: Storage,
    items: &Col<'_>,
    i: u64,
    times: u64,
) -> Result<(), NoMemory>
    requires inside { i < (window_of items.now).count }
    requires near { i < window_limit }
    requires stored { times ≢ 0 → IsStored storage (item_at (window_of items.now) i) }
    requires takes { TakesTimes builder.old (item_at (window_of items.now) i) times }
    ensures added { OnOk result (AddsTimes (item_at (window_of items.now) i) times builder.old builder.new) }
    ensures some { OnErr result (AddsSome (item_at (window_of items.now) i) times builder.old builder.new) }
{
    if times == 0 {
        return Ok(());
    }
    builder.add_times(item_of(items, storage, i), times)
}
