//! The items of a column by their keys.
ghost use Rattle.std.specs.Prelude.{◌≡◌, ◌<◌, ◌+◌, ◌*◌, ◌≤◌, ◌^◌, [], ◌∷◌, ℕ, Some, IsTrue, if◌then◌else◌, length};
ghost use Rattle.data_types.specs.ColumnForms.{HasForm};
ghost use Rattle.data_types.specs.promise.FieldText.{form_of};
ghost use Rattle.data_types.specs.promise.Table.{Flat};
ghost use Rattle.data_types.specs.promise.Value.Value.{Bytes};
ghost use Rattle.raw_array.specs.promise.Members.{members_of};
ghost use Rattle.tree_model.specs.promise.TreeParts.{IsLive};
ghost use Rattle.data_types.specs.promise.ColumnKinds.{type_of_kind};
ghost use Rattle.data_types.specs.promise.KindTrees.{kind_in};
ghost use Rattle.data_types.specs.KindTrees.{TypedOk};
ghost use Rattle.data_types.specs.promise.TypedView.{typed_of};
ghost use Rattle.layout_rules.specs.promise.Layout.{bytes, first, laid_out};
ghost use Rattle.layout_rules.specs.Layout.{stored_bytes};
ghost use Rattle.layout_rules.specs.declared.layout.Layout.TheVariants.{FixedWidth};
ghost use Rattle.layout_rules.specs.promise.Values.{tree_items};
ghost use Rattle.layout_rules.specs.promise.Walk.{LayoutOk};
ghost use Rattle.arr_import.specs.Lent.{lent_bytes};
ghost use Rattle.arr_import.specs.Shown.{Shows};
ghost use Rattle.layout_rules.specs.promise.Rules.{window_limit};
ghost use Rattle.row_groups.specs.ItemKeys.{AreNumberBytes, HasKey, IsColumn, IsFloat, IsWhole, array_of, item_of, stored_as, type_of};

use arr_import::{Col, ValueRef};
use data_types::{DataType, Storage, Typed, kinds_of_typed, storage_of};
use layout_rules::{lawful_items_lie_within, lawful_root};
use raw_array::RawArray;

/// A column of a flat type.
#[derive(Clone, Copy)]
pub(crate) struct Column<'a> {
    typed: &'a Typed,
    array: &'a RawArray,
    items: Col<'a>,
}

/// The key of a truth value.
fn truth_key<'a>(truth: bool) -> &'a [u8]
    ensures { result.now ≡ (if truth then 1 else 0) ∷ [] }
{
    if truth { &[1] } else { &[0] }
}

/// The bytes of the items of an array, and none where it has none.
fn item_bytes(array: &RawArray) -> &[u8]
    requires { IsLive array.now }
    ensures { result.now ≡ bytes (members_of array.now) 1 }
{
    if array.n_buffers() < 2 {
        return &[];
    }
    match array.buffer(1) {
        Some(bytes) => bytes,
        None => &[],
    }
}

impl<'a> Column<'a> {
    /// All items of an array.
    pub(crate) fn of(typed: &'a Typed, array: &'a RawArray) -> Column<'a>
        requires types { TypedOk (typed_of typed.now) }
        requires typed { typed_of typed.now ≡ type_of_kind (Flat (kind_in (typed_of typed.now))) }
        requires flat { HasForm (form_of (kind_in (typed_of typed.now))) }
        requires lawful { LayoutOk (typed_of typed.now) array.now }
        ensures column { IsColumn result }
        ensures type_is { type_of result ≡ typed_of typed.now }
        ensures array_is { array_of result ≡ array.now }
    {
        Column {
            typed,
            array,
            items: Col::of(typed, array),
        }
    }

    /// An item.
    #[inline(always)]
    fn value(&self, i: u64) -> ValueRef<'a>
        requires column { IsColumn self.now }
        requires inside { i < tree_items (array_of self.now) }
        requires near { i < 2 ^ 63 }
        ensures { Shows result (item_of self.now i) }
    {
        self.items.value(i as i64)
    }

    /// The bytes that an item of a fixed width is stored in ("Arrow Columnar Format", "Fixed-size primitive layout").
    #[inline(always)]
    fn stored_key(&self, width: u8, i: u64) -> &'a [u8]
        requires column { IsColumn self.now }
        requires inside { i < tree_items (array_of self.now) }
        requires width { laid_out (stored_as self.now) ≡ FixedWidth width }
        ensures bytes { result.now ≡ stored_bytes width (members_of (array_of self.now)) i }
        ensures number { AreNumberBytes width result.now }
    {
        lawful_root(self.typed, self.array);
        let from = self.place(i, width);
        let bytes = item_bytes(self.array);
        &bytes[from..from + usize::from(width)]
    }

    /// The place of the first byte of an item of a fixed width.
    #[inline(always)]
    fn place(&self, i: u64, width: u8) -> usize
        requires column { IsColumn self.now }
        requires inside { i < tree_items (array_of self.now) }
        requires width { laid_out (stored_as self.now) ≡ FixedWidth width }
        ensures place { result ≡ (first (members_of (array_of self.now)) + i) * width }
        ensures within { result + width ≤ length (bytes (members_of (array_of self.now)) 1) }
        ensures near { result + width < 2 ^ 63 }
    {
        kinds_of_typed(self.typed);
        lawful_items_lie_within(self.typed, self.array);
        (self.first() + i) as usize * usize::from(width)
    }

    /// The place of the first item among those of the buffers.
    #[inline(always)]
    fn first(&self) -> u64
        requires { IsColumn self.now }
        ensures first { result ≡ first (members_of (array_of self.now)) }
        ensures near { result + tree_items (array_of self.now) ≤ window_limit }
    {
        lawful_root(self.typed, self.array);
        self.array.offset() as u64
    }

    /// The key of a whole number.
    fn whole_key(&self, i: u64) -> &'a [u8]
        requires column { IsColumn self.now }
        requires inside { i < tree_items (array_of self.now) }
        requires whole { IsWhole (item_of self.now i) }
        ensures { HasKey (stored_as self.now) (item_of self.now i) (Some result.now) }
    {
        kinds_of_typed(self.typed);
        lawful_root(self.typed, self.array);
        match storage_of(&self.typed.kind) {
            Storage::Wholes { bits, .. } => self.stored_key(bits / 8, i),
            _ => unreachable!(),
        }
    }

    /// The key of a float.
    fn float_key(&self, i: u64) -> &'a [u8]
        requires column { IsColumn self.now }
        requires inside { i < tree_items (array_of self.now) }
        requires float { IsFloat (item_of self.now i) }
        ensures { HasKey (stored_as self.now) (item_of self.now i) (Some result.now) }
    {
        kinds_of_typed(self.typed);
        lawful_root(self.typed, self.array);
        match storage_of(&self.typed.kind) {
            Storage::Floats { bits } => self.stored_key(bits / 8, i),
            _ => unreachable!(),
        }
    }

    /// The key of an item, and none of a null.
    #[inline(always)]
    pub(crate) fn key(&self, i: u64) -> Option<&'a [u8]>
        requires column { IsColumn self.now }
        requires inside { i < tree_items (array_of self.now) }
        requires near { i < 2 ^ 63 }
        ensures { HasKey (stored_as self.now) (item_of self.now i) (lent_bytes result) }
    {
        lawful_root(self.typed, self.array);
        match self.value(i) {
            ValueRef::Null => None,
            ValueRef::Truth(truth) => Some(truth_key(truth)),
            ValueRef::Whole(_) => Some(self.whole_key(i)),
            ValueRef::Bits(_) => Some(self.float_key(i)),
            ValueRef::Bytes(bytes) => Some(bytes),
            ValueRef::Items(_) | ValueRef::Struct => unreachable!(),
        }
    }

    /// How many distinct values these many items can have, nulls aside.
    pub(crate) fn most_values(&self, count: u64) -> u32
        ensures few { result ≤ count }
    {
        let kinds = match storage_of(&self.typed.kind) {
            Storage::Truths => 2,
            Storage::Wholes { bits: 8, .. } | Storage::Sized { size: 1 } => 1 << 8,
            Storage::Wholes { bits: 16, .. }
            | Storage::Floats { bits: 16 }
            | Storage::Sized { size: 2 } => 1 << 16,
            Storage::Sized { size: 0 } => 1,
            _ => u32::MAX,
        };
        if count < u64::from(kinds) {
            count as u32
        } else {
            kinds
        }
    }

    /// Whether the items have no bytes and none is null, so that all are the same.
    pub(crate) fn are_alike(&self) -> bool
        requires { IsColumn self.now }
        ensures { IsTrue result → (k : ℕ) → k < tree_items (array_of self.now) → item_of self.now k ≡ Bytes [] }
    {
        kinds_of_typed(self.typed);
        lawful_root(self.typed, self.array);
        match &self.typed.kind {
            DataType::FixedBinary { size: 0 } => self.array.buffer(0).is_none(),
            _ => false,
        }
    }
}
