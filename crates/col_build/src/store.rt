//! Items, each behind the last in the buffers of a shape ("Arrow Columnar Format", "Physical memory layout").
ghost use Rattle.std.specs.Prelude.{◌≡◌, ◌≢◌, ◌==◌, ◌⊎◌, ◌+◌, ◌^◌, ◌<◌, ◌++◌, ◌∷◌, [], ℕ, Bool, List, None, Some, length, map, replicate, true, IsTrue, OnOk, OnErr, IfErr};
ghost use Rattle.std.specs.List.{concat};
ghost use Rattle.data_types.specs.promise.Packed.{le_bytes, offset_width};
ghost use Rattle.data_types.specs.Packed.{IsWidth};
ghost use Rattle.data_types.specs.promise.Value.{Value, bytes_of};
ghost use Rattle.col_build.specs.promise.Encoding.{bit_bytes, is_set, stored_item};
ghost use Rattle.col_build.specs.Encoding.{offset_bytes};
ghost use Rattle.col_build.specs.Items.{value_of};
ghost use Rattle.col_build.specs.Holding.{HasBytes, HasOffsets, ShapeOk};
ghost use Rattle.col_build.specs.Shapes.{IsAnswer, Stored, between_fault, range_fault, reaches, shape_fault};
ghost use Rattle.col_build.specs.declared.item.PushFault.TheVariants.{NoMemory};
ghost use Rattle.col_build.specs.declared.shape.Shape.TheVariants.{Truths, Wholes, Floats, Sized, Between};

use crate::bits::push_bit;
use crate::numbers::{append, append_bits, append_number, append_whole};
use crate::shape::Shape;
use crate::text::is_text;
use crate::{Item, PushFault};

/// Offsets of 32 bits reach fewer bytes than this.
const NARROW_LIMIT: usize = 1 << 31;

/// Appends this many zeros.
#[inline(always)]
fn append_zeros(bytes: &mut Vec<u8>, count: usize) -> Result<(), PushFault>
    requires { count < 2 ^ 31 }
    ensures { Stored result bytes.old.items bytes.new.items None (replicate count 0) }
{
    match bytes.resize(bytes.len() + count, 0) {
        Ok(()) => Ok(()),
        Err(_) => Err(PushFault::NoMemory),
    }
}

#[inline(always)]
fn store_whole(
    bytes: &mut Vec<u8>,
    width: usize,
    signed: bool,
    item: Item<'_>,
) -> Result<(), PushFault>
    requires width { IsWidth width }
    requires widest { width ≡ 16 → IsTrue signed }
    ensures { Stored result bytes.old.items bytes.new.items (shape_fault (Wholes width signed) 0 (value_of item.entry))
        (stored_item width (value_of item.entry)) }
{
    match item {
        Item::Null => append_zeros(bytes, width),
        Item::Whole(number) => append_whole(bytes, width, signed, number),
        _ => Err(PushFault::WrongKind),
    }
}

fn store_float(bytes: &mut Vec<u8>, width: usize, item: Item<'_>) -> Result<(), PushFault>
    requires width { IsWidth width }
    requires narrow { width ≢ 16 }
    ensures { Stored result bytes.old.items bytes.new.items (shape_fault (Floats width) 0 (value_of item.entry)) (stored_item width (value_of item.entry)) }
{
    match item {
        Item::Null => append_zeros(bytes, width),
        Item::Bits(number) => append_bits(bytes, width, number),
        _ => Err(PushFault::WrongKind),
    }
}

/// Appends bytes that are this many.
#[inline(always)]
fn append_sized(bytes: &mut Vec<u8>, size: usize, more: &[u8]) -> Result<(), PushFault>
    ensures { Stored result bytes.old.items bytes.new.items (range_fault (length more.now == size)) more.now }
{
    if more.len() != size {
        return Err(PushFault::OutOfRange);
    }
    append(bytes, more)
}

#[inline(always)]
fn store_sized(bytes: &mut Vec<u8>, size: usize, item: Item<'_>) -> Result<(), PushFault>
    requires { size < 2 ^ 31 }
    ensures { Stored result bytes.old.items bytes.new.items (shape_fault (Sized size) 0 (value_of item.entry)) (stored_item size (value_of item.entry)) }
{
    match item {
        Item::Null => append_zeros(bytes, size),
        Item::Bytes(more) => append_sized(bytes, size, more),
        _ => Err(PushFault::WrongKind),
    }
}

/// Appends an offset.
#[inline(always)]
fn append_offset(offsets: &mut Vec<u8>, wide: bool, end: usize) -> Result<(), PushFault>
    ensures { Stored result offsets.old.items offsets.new.items None (le_bytes (offset_width wide) end) }
{
    if wide {
        append_number(offsets, 8, end as u64)
    } else {
        append_number(offsets, 4, end as u64)
    }
}

/// Makes the first offset, where there is none yet.
#[inline(always)]
pub(crate) fn begin_offsets(offsets: &mut Vec<u8>, wide: bool) -> Result<(), PushFault>
    ensures begun { OnOk result ((items : List (List ℕ)) → HasOffsets wide items offsets.old.items → offsets.new.items ≡ offset_bytes wide items) }
    ensures kept { OnErr result (offsets.new.items ≡ offsets.old.items) }
    ensures why { IfErr result (λ fault. fault ≡ NoMemory) }
{
    if offsets.is_empty() {
        return append_offset(offsets, wide, 0);
    }
    Ok(())
}

/// Ends an item at a place in the bytes of all.
#[inline(always)]
fn end_item(offsets: &mut Vec<u8>, wide: bool, end: usize) -> Result<(), PushFault>
    ensures added { OnOk result ((items : List (List ℕ)) (item : List ℕ) → HasOffsets wide items offsets.old.items → length (concat items) + length item ≡ end
        → HasOffsets wide (items ++ item ∷ []) offsets.new.items) }
    ensures kept { OnErr result ((items : List (List ℕ)) → HasOffsets wide items offsets.old.items → HasOffsets wide items offsets.new.items) }
    ensures why { IfErr result (λ fault. fault ≡ NoMemory) }
{
    begin_offsets(offsets, wide)?;
    append_offset(offsets, wide, end)
}

/// Whether offsets reach this many bytes.
#[inline(always)]
fn is_reached(wide: bool, total: usize) -> bool
    ensures { result ≡ reaches wide total }
{
    wide || total < NARROW_LIMIT
}

/// Why bytes aren't taken behind this many.
#[inline(always)]
fn fault_between(wide: bool, text: bool, start: usize, more: &[u8]) -> Option<PushFault>
    requires { start < 2 ^ 63 }
    ensures { result ≡ between_fault wide text start more.now }
{
    if !is_reached(wide, start + more.len()) {
        return Some(PushFault::OutOfRange);
    }
    if text && !is_text(more) {
        return Some(PushFault::NotText);
    }
    None
}

/// Adds bytes between offsets.
#[inline(always)]
fn append_between(
    offsets: &mut Vec<u8>,
    bytes: &mut Vec<u8>,
    wide: bool,
    text: bool,
    more: &[u8],
) -> Result<(), PushFault>
    ensures added { OnOk result ((items : List (List ℕ)) → HasOffsets wide items offsets.old.items → bytes.old.items ≡ concat items
        → HasOffsets wide (items ++ more.now ∷ []) offsets.new.items) }
    ensures kept { OnErr result ((items : List (List ℕ)) → HasOffsets wide items offsets.old.items → HasOffsets wide items offsets.new.items) }
    ensures bytes { Stored result bytes.old.items bytes.new.items (between_fault wide text (length bytes.old.items) more.now) more.now }
{
    let start = bytes.len();
    if let Some(fault) = fault_between(wide, text, start, more) {
        return Err(fault);
    }
    append(bytes, more)?;
    match end_item(offsets, wide, bytes.len()) {
        Ok(()) => Ok(()),
        Err(fault) => {
            bytes.truncate(start);
            Err(fault)
        }
    }
}

#[inline(always)]
fn store_truth(bits: &mut Vec<u8>, count: usize, item: Item<'_>) -> Result<(), PushFault>
    requires has { (values : List Value) × HasBytes Truths values [] bits.old.items × (length values ≡ count) }
    ensures added { OnOk result ((values : List Value) → length values ≡ count → HasBytes Truths values [] bits.old.items
        → HasBytes Truths (values ++ value_of item.entry ∷ []) [] bits.new.items) }
    ensures kept { OnErr result (bits.new.items ≡ bits.old.items) }
    ensures answer { IsAnswer result (shape_fault Truths 0 (value_of item.entry)) }
{
    let flag = match item {
        Item::Null => false,
        Item::Truth(truth) => truth,
        _ => return Err(PushFault::WrongKind),
    };
    match push_bit(bits, count, flag) {
        Ok(()) => Ok(()),
        Err(_) => Err(PushFault::NoMemory),
    }
}

#[inline(always)]
fn store_between(
    offsets: &mut Vec<u8>,
    bytes: &mut Vec<u8>,
    wide: bool,
    text: bool,
    item: Item<'_>,
) -> Result<(), PushFault>
    ensures added { OnOk result ((values : List Value) → HasBytes (Between wide text) values offsets.old.items bytes.old.items
        → HasBytes (Between wide text) (values ++ value_of item.entry ∷ []) offsets.new.items bytes.new.items) }
    ensures kept { OnErr result ((values : List Value) → HasBytes (Between wide text) values offsets.old.items bytes.old.items
        → HasBytes (Between wide text) values offsets.new.items bytes.new.items) }
    ensures answer { IsAnswer result (shape_fault (Between wide text) (length bytes.old.items) (value_of item.entry)) }
{
    match item {
        Item::Null => end_item(offsets, wide, bytes.len()),
        Item::Bytes(more) => append_between(offsets, bytes, wide, text, more),
        _ => Err(PushFault::WrongKind),
    }
}

/// Adds an item behind this many. Where it isn't taken the values stay.
#[inline(always)]
pub(crate) fn store(
    shape: Shape,
    count: usize,
    offsets: &mut Vec<u8>,
    bytes: &mut Vec<u8>,
    item: Item<'_>,
) -> Result<(), PushFault>
    requires ok { ShapeOk shape }
    requires has { (values : List Value) × HasBytes shape values offsets.old.items bytes.old.items × (length values ≡ count) }
    ensures added { OnOk result ((values : List Value) → length values ≡ count → HasBytes shape values offsets.old.items bytes.old.items
        → HasBytes shape (values ++ value_of item.entry ∷ []) offsets.new.items bytes.new.items) }
    ensures kept { OnErr result
        ((values : List Value) → HasBytes shape values offsets.old.items bytes.old.items → HasBytes shape values offsets.new.items bytes.new.items) }
    ensures answer { IsAnswer result (shape_fault shape (length bytes.old.items) (value_of item.entry)) }
{
    match shape {
        Shape::Truths => store_truth(bytes, count, item),
        Shape::Wholes { width, signed } => store_whole(bytes, width, signed, item),
        Shape::Floats { width } => store_float(bytes, width, item),
        Shape::Sized { size } => store_sized(bytes, size, item),
        Shape::Between { wide, text } => store_between(offsets, bytes, wide, text, item),
    }
}
