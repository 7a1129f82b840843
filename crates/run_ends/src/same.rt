//! Whether items of a column have the same value.
ghost use Rattle.std.specs.Prelude.{◌≡◌, ◌↔◌, ◌<◌, true, IsTrue};
ghost use Rattle.data_types.specs.promise.Value.Value.{Null, Truth, Whole, Bits, Bytes};
ghost use Rattle.arr_import.specs.Window.{item_at};
ghost use Rattle.arr_import.specs.Cols.{window_of};
ghost use Rattle.run_ends.specs.RunCoding.{is_same};

use arr_import::{Col, ValueRef};

/// Whether two items of a column have the same value: floats by their bits, bytes byte by byte, and a null is the same as a null,
/// whatever is under it. Lists and structs are the same as nothing.
#[inline(always)]
pub(crate) fn is_same(items: &Col, i: u64, j: u64) -> bool
    requires inside { i < (window_of items.now).count }
    requires other { j < (window_of items.now).count }
    ensures { IsTrue result ↔ (is_same (item_at (window_of items.now) i) (item_at (window_of items.now) j) ≡ true) }
{
    items.len();
    match items.value(i as i64) {
        ValueRef::Null => is_null(items, j),
        ValueRef::Truth(truth) => has_truth(items, j, truth),
        ValueRef::Whole(number) => has_whole(items, j, number),
        ValueRef::Bits(bits) => has_bits(items, j, bits),
        ValueRef::Bytes(bytes) => has_bytes(items, j, bytes),
        ValueRef::Items(_) | ValueRef::Struct => false,
    }
}

#[inline(always)]
fn is_null(items: &Col, i: u64) -> bool
    requires { i < (window_of items.now).count }
    ensures { IsTrue result ↔ (item_at (window_of items.now) i ≡ Null) }
{
    items.len();
    match items.value(i as i64) {
        ValueRef::Null => true,
        _ => false,
    }
}

#[inline(always)]
fn has_truth(items: &Col, i: u64, truth: bool) -> bool
    requires { i < (window_of items.now).count }
    ensures { IsTrue result ↔ (item_at (window_of items.now) i ≡ Truth truth) }
{
    items.len();
    match items.truth(i as i64) {
        Some(found) => found == truth,
        None => false,
    }
}

#[inline(always)]
fn has_whole(items: &Col, i: u64, number: i128) -> bool
    requires { i < (window_of items.now).count }
    ensures { IsTrue result ↔ (item_at (window_of items.now) i ≡ Whole number) }
{
    items.len();
    match items.whole(i as i64) {
        Some(found) => found == number,
        None => false,
    }
}

#[inline(always)]
fn has_bits(items: &Col, i: u64, bits: u64) -> bool
    requires { i < (window_of items.now).count }
    ensures { IsTrue result ↔ (item_at (window_of items.now) i ≡ Bits bits) }
{
    items.len();
    match items.bits(i as i64) {
        Some(found) => found == bits,
        None => false,
    }
}

#[inline(always)]
fn has_bytes(items: &Col, i: u64, bytes: &[u8]) -> bool
    requires { i < (window_of items.now).count }
    ensures { IsTrue result ↔ (item_at (window_of items.now) i ≡ Bytes bytes.now) }
{
    items.len();
    match items.bytes(i as i64) {
        Some(found) => found == bytes,
        None => false,
    }
}
