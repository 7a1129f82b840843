//! A builder filled with the items of given numbers.
ghost use Rattle.std.specs.Prelude.{◌≡◌, false, IfOk};
ghost use Rattle.data_types.specs.promise.Table.{Flat};
ghost use Rattle.data_types.specs.declared.storage.Storage.TheVariants.{Between, Truths, Wholes};
ghost use Rattle.col_build.specs.Holding.{Holds};
ghost use Rattle.data_types.specs.promise.ColumnKinds.{type_of_kind};
ghost use Rattle.data_types.specs.KindTrees.{TypedOk};
ghost use Rattle.data_types.specs.promise.TypedView.{typed_of};
ghost use Rattle.arr_import.specs.Plain.{storage_in};
ghost use Rattle.column_fill.specs.Gathered.{CanGather, CanGatherPlaces, shown_at, values_at};

use crate::item::{push_item, push_plain};
use arr_import::{Col, Plain};
use col_build::Builder;
use data_types::{DataType, Storage, Typed, clone_kind, storage_of};
use layout_rules::lawful_trees;
use raw_array::RawArray;
use std::alloc::Global;
use unit_pass::NoMemory;

/// A builder that holds the items of these numbers of an array, each looked up by itself.
fn gathered_items(
    alloc: Global,
    kind: &DataType,
    typed: &Typed,
    array: &RawArray,
    start: u64,
    kept: &[u32],
) -> Result<Builder, NoMemory>
    requires typed { typed_of typed.now ≡ type_of_kind (Flat kind.now) }
    requires types { TypedOk (typed_of typed.now) }
    requires items { CanGather kind.now array.now start kept.now }
    ensures { IfOk result (λ builder. Holds builder kind.now (values_at (type_of_kind (Flat kind.now)) array.now start kept.now)) }
{
    lawful_trees();
    let items = Col::of(typed, array);
    let mut builder = Builder::new(alloc, clone_kind(alloc, kind)?);
    let storage = storage_of(kind);
    for i in kept {
        push_item(&mut builder, storage, &items, start + u64::from(*i))?;
    }
    Ok(builder)
}

/// How many bytes this many items take that are stored so. Of texts and bytes between offsets it is a guess, eight bytes each.
fn bytes_of(storage: Storage, items: usize) -> usize {
    match storage {
        Storage::Truths => items / 8 + 1,
        Storage::Wholes { bits, .. } => items.saturating_mul(usize::from(bits / 8)),
        Storage::Floats { bits } => items.saturating_mul(usize::from(bits / 8)),
        Storage::Sized { size } => items.saturating_mul(size as usize),
        _ => items.saturating_mul(8),
    }
}

/// A builder that holds the items of these numbers of a column that is read by its places, which are stored so.
#[inline(always)]
fn gathered_of_storage(
    alloc: Global,
    kind: &DataType,
    storage: Storage,
    items: Plain<'_>,
    start: u64,
    kept: &[u32],
) -> Result<Builder, NoMemory>
    requires items { CanGatherPlaces kind.now items start kept.now }
    requires stored { storage_in items ≡ storage }
    ensures { IfOk result (λ builder. Holds builder kind.now (shown_at items.entry start kept.now)) }
{
    let kind = clone_kind(alloc, kind)?;
    let room = bytes_of(storage, kept.len());
    let mut builder = Builder::with_room(alloc, kind, kept.len(), room)?;
    for i in kept {
        push_plain(&mut builder, storage, &items, start + u64::from(*i))?;
    }
    Ok(builder)
}

/// The same of texts or bytes between narrow offsets. It is called, so that its loop is compiled as what is run most.
#[inline(never)]
fn gathered_between(
    alloc: Global,
    kind: &DataType,
    text: bool,
    items: &Plain<'_>,
    start: u64,
    kept: &[u32],
) -> Result<Builder, NoMemory>
    requires items { CanGatherPlaces kind.now items.now start kept.now }
    requires stored { storage_in items.now ≡ Between false text }
    ensures { IfOk result (λ builder. Holds builder kind.now (shown_at items.now start kept.now)) }
{
    let stored = Storage::Between { wide: false, text };
    gathered_of_storage(alloc, kind, stored, *items, start, kept)
}

/// The same of whole numbers of this many bits.
#[inline(never)]
fn gathered_wholes<const BITS: u8>(
    alloc: Global,
    kind: &DataType,
    signed: bool,
    items: &Plain<'_>,
    start: u64,
    kept: &[u32],
) -> Result<Builder, NoMemory>
    requires items { CanGatherPlaces kind.now items.now start kept.now }
    requires stored { storage_in items.now ≡ Wholes BITS signed }
    ensures { IfOk result (λ builder. Holds builder kind.now (shown_at items.now start kept.now)) }
{
    let stored = Storage::Wholes { bits: BITS, signed };
    gathered_of_storage(alloc, kind, stored, *items, start, kept)
}

/// The same of truth values.
#[inline(never)]
fn gathered_truths(
    alloc: Global,
    kind: &DataType,
    items: &Plain<'_>,
    start: u64,
    kept: &[u32],
) -> Result<Builder, NoMemory>
    requires items { CanGatherPlaces kind.now items.now start kept.now }
    requires stored { storage_in items.now ≡ Truths }
    ensures { IfOk result (λ builder. Holds builder kind.now (shown_at items.now start kept.now)) }
{
    gathered_of_storage(alloc, kind, Storage::Truths, *items, start, kept)
}

/// The same of items that are stored in any way. Those of common types have a loop of their own, where it is a constant.
fn gathered_places(
    alloc: Global,
    kind: &DataType,
    items: &Plain<'_>,
    start: u64,
    kept: &[u32],
) -> Result<Builder, NoMemory>
    requires items { CanGatherPlaces kind.now items.now start kept.now }
    ensures { IfOk result (λ builder. Holds builder kind.now (shown_at items.now start kept.now)) }
{
    match items.storage() {
        Storage::Between { wide: false, text } => {
            gathered_between(alloc, kind, text, items, start, kept)
        }
        Storage::Wholes { bits: 32, signed } => {
            gathered_wholes::<32>(alloc, kind, signed, items, start, kept)
        }
        Storage::Wholes { bits: 64, signed } => {
            gathered_wholes::<64>(alloc, kind, signed, items, start, kept)
        }
        Storage::Wholes { bits: 128, signed } => {
            gathered_wholes::<128>(alloc, kind, signed, items, start, kept)
        }
        Storage::Truths => gathered_truths(alloc, kind, items, start, kept),
        stored => gathered_of_storage(alloc, kind, stored, *items, start, kept),
    }
}

/// A builder that holds the items of these numbers of an array, in their order. The numbers are counted from an item of the array
/// on (`start`, from 0). `typed` are the array's checked kinds, of which `kind` is the type.
///
/// # Errors
///
/// `NoMemory` where there is no memory for them.
pub fn gathered(
    alloc: Global,
    kind: &DataType,
    typed: &Typed,
    array: &RawArray,
    start: u64,
    kept: &[u32],
) -> Result<Builder, NoMemory>
    requires typed { typed_of typed.now ≡ type_of_kind (Flat kind.now) }
    requires types { TypedOk (typed_of typed.now) }
    requires items { CanGather kind.now array.now start kept.now }
    ensures { IfOk result (λ builder. Holds builder kind.now (values_at (type_of_kind (Flat kind.now)) array.now start kept.now)) }
{
    lawful_trees();
    let items = Col::of(typed, array);
    match items.plain() {
        Some(places) => gathered_places(alloc, kind, &places, start, kept),
        None => gathered_items(alloc, kind, typed, array, start, kept),
    }
}
