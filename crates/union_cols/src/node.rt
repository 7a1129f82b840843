//! A live union whose numbers and parts are counted: what the rules on its buffers and items are tried on.
ghost use Rattle.std.specs.Prelude.{◌≡◌, ◌≤ℤ◌, ◌<◌, ◌^◌, pos, length};
ghost use Rattle.tree_model.specs.promise.TreeParts.{IsLive};
ghost use Rattle.raw_array.specs.promise.Members.{ArrayTree, members_of};
ghost use Rattle.layout_rules.specs.promise.Layout.{first, end, bytes};
ghost use Rattle.layout_check.specs.Formed.{IsLive-prop};
ghost use Rattle.union_cols.specs.UnionRules.{buffer_count};

use crate::id_table::IdTable;
use bit_pack::{int_at, offset_at};
use layout_check::{Numbers, missing, too_short};
use raw_array::RawArray;

/// A live union: its length and its offset aren't below 0, and it has a types buffer, and an offsets buffer where it is dense.
/// Where its window begins and ends, and its buffers, are looked up once.
#[derive(Clone, Copy)]
pub(crate) struct UnionNode<'a> {
    pub(crate) array: &'a RawArray,
    pub(crate) dense: bool,
    /// The place of the window's first item.
    pub(crate) start: u64,
    /// The place behind the window's last item.
    pub(crate) stop: u64,
    /// The types buffer: an id of one byte for each place.
    ids: &'a [u8],
    /// The offsets buffer of a dense union: four bytes for each place.
    starts: &'a [u8],
    ghost live: { IsLive array.now } by { IsLive-prop array.now },
    ghost starts_at: { start ≡ first (members_of array.now) },
    ghost stops_at: { stop ≡ end (members_of array.now) },
    ghost counted: { length (members_of array.now).buffers ≡ buffer_count dense },
    ghost ids_are: { ids.now ≡ bytes (members_of array.now) 0 },
    ghost starts_are: { starts.now ≡ bytes (members_of array.now) 1 },
}

/// The bytes of a buffer, and none where it is absent or there is none of that number.
fn buffer_bytes(array: &RawArray, k: usize) -> &[u8]
    requires live { IsLive array.now }
    requires small { k < 2 ^ 63 }
    ensures { result.now ≡ bytes (members_of array.now) k }
{
    if (k as i64) < array.n_buffers() {
        match array.buffer(k) {
            Some(bytes) => bytes,
            None => &[],
        }
    } else {
        &[]
    }
}

impl<'a> UnionNode<'a> {
    ghost use Rattle.std.specs.Prelude.{◌+◌, ◌*◌, ◌≤◌, Option, None, All};
    ghost use Rattle.tree_model.specs.promise.TreeParts.{children_of};
    ghost use Rattle.layout_rules.specs.promise.Layout.{items};
    ghost use Rattle.layout_rules.specs.promise.Rules.{first_below};
    ghost use Rattle.union_cols.specs.promise.Unions.{id_at, start_at, child_number};
    ghost use Rattle.union_cols.specs.promise.UnionRules.{need, bad_id, bad_start};
    ghost use Rattle.union_cols.specs.UnionRules.{buffer_absent, buffer_short};

    /// The node of an array that the rules on its own numbers and parts hold of.
    pub(crate) fn of(dense: bool, array: &'a RawArray) -> UnionNode<'a>
        requires live { IsLive array.now }
        requires length { pos 0 ≤ℤ (members_of array.now).length }
        requires offset { pos 0 ≤ℤ (members_of array.now).offset }
        requires count { length (members_of array.now).buffers ≡ buffer_count dense }
        ensures array { result.array.now ≡ array.now }
        ensures dense { result.dense ≡ dense }
    {
        let start = array.offset() as u64;
        UnionNode {
            array,
            dense,
            start,
            stop: start + array.length() as u64,
            ids: buffer_bytes(array, 0),
            starts: buffer_bytes(array, 1),
        }
    }

    /// The number of the window's items.
    pub(crate) fn len(&self) -> u64
        ensures { result ≡ items (members_of self.now.array.now) }
    {
        self.stop - self.start
    }

    /// The number of buffers.
    fn buffer_count(&self) -> usize
        ensures { result ≡ buffer_count self.now.dense }
    {
        if self.dense { 2 } else { 1 }
    }

    /// How many bytes of its k-th buffer the union needs.
    fn need(&self, k: usize) -> u128
        ensures need { result ≡ need (members_of self.now.array.now) k }
        ensures bound { result < 2 ^ 97 }
    {
        if k == 0 {
            u128::from(self.stop)
        } else {
            4 * u128::from(self.stop)
        }
    }

    /// The first absent buffer of which something is needed.
    pub(crate) fn buffers_absent(&self) -> Option<Numbers>
        ensures { result ≡ first_below (buffer_absent (members_of self.now.array.now)) (buffer_count self.now.dense) }
    {
        for k in 0..self.buffer_count() {
            if let Some(numbers) = missing(self.need(k), self.array, k) {
                return Some(numbers);
            }
        }
        None
    }

    /// The first buffer that is shorter than its need.
    pub(crate) fn buffers_short(&self) -> Option<Numbers>
        ensures { result ≡ first_below (buffer_short (members_of self.now.array.now)) (buffer_count self.now.dense) }
    {
        for k in 0..self.buffer_count() {
            if let Some(numbers) = too_short(self.need(k), self.array, k) {
                return Some(numbers);
            }
        }
        None
    }

    /// An item's type id.
    #[inline(always)]
    pub(crate) fn id(&self, i: u64) -> i128
        requires inside { i < items (members_of self.now.array.now) }
        requires ids { end (members_of self.now.array.now) ≤ length (bytes (members_of self.now.array.now) 0) }
        ensures { result ≡ id_at (members_of self.now.array.now) i }
    {
        let place = self.start + i;
        int_at(self.ids, place as usize, 1, true)
    }

    /// An item's offset into its child, of a dense union.
    #[inline(always)]
    pub(crate) fn start(&self, i: u64) -> i64
        requires inside { i < items (members_of self.now.array.now) }
        requires starts { 4 * end (members_of self.now.array.now) ≤ length (bytes (members_of self.now.array.now) 1) }
        ensures { result ≡ start_at (members_of self.now.array.now) i }
    {
        let place = self.start + i;
        offset_at(self.starts, place as usize, false)
    }

    /// An item whose id no child has: the id, and 0.
    #[inline(always)]
    fn bad_id(&self, table: &IdTable, i: u64) -> Option<Numbers>
        requires inside { i < items (members_of self.now.array.now) }
        requires ids { end (members_of self.now.array.now) ≤ length (bytes (members_of self.now.array.now) 0) }
        ensures { result ≡ bad_id table.now.ids.now (members_of self.now.array.now) i }
    {
        let id = self.id(i);
        match table.child(id) {
            Some(_) => None,
            None => Some(Numbers {
                place: i,
                left: id,
                right: 0,
            }),
        }
    }

    /// The first item whose id no child has.
    pub(crate) fn ids_wrong(&self, table: &IdTable) -> Option<Numbers>
        requires { end (members_of self.now.array.now) ≤ length (bytes (members_of self.now.array.now) 0) }
        ensures { result ≡ first_below (bad_id table.now.ids.now (members_of self.now.array.now)) (items (members_of self.now.array.now)) }
    {
        for i in 0..self.len() {
            if let Some(numbers) = self.bad_id(table, i) {
                return Some(numbers);
            }
        }
        None
    }

    /// The number of the child that an item names, once each item names one.
    #[inline(always)]
    pub(crate) fn child_number(&self, table: &IdTable, i: u64) -> usize
        requires inside { i < items (members_of self.now.array.now) }
        requires ids { end (members_of self.now.array.now) ≤ length (bytes (members_of self.now.array.now) 0) }
        requires named { first_below (bad_id table.now.ids.now (members_of self.now.array.now)) (items (members_of self.now.array.now)) ≡ None }
        ensures number { result ≡ child_number table.now.ids.now (members_of self.now.array.now) i }
        ensures within { result < length table.now.ids.now }
    {
        match table.child(self.id(i)) {
            Some(k) => k,
            None => unreachable!(),
        }
    }

    /// An item of a dense union whose offset is no place of its child: the offset, and the child's length.
    #[inline(always)]
    fn bad_start(&self, table: &IdTable, i: u64) -> Option<Numbers>
        requires inside { i < items (members_of self.now.array.now) }
        requires ids { end (members_of self.now.array.now) ≤ length (bytes (members_of self.now.array.now) 0) }
        requires starts { 4 * end (members_of self.now.array.now) ≤ length (bytes (members_of self.now.array.now) 1) }
        requires named { first_below (bad_id table.now.ids.now (members_of self.now.array.now)) (items (members_of self.now.array.now)) ≡ None }
        requires children { length (children_of self.now.array.now) ≡ length table.now.ids.now }
        requires live { All IsLive (children_of self.now.array.now) }
        ensures { result ≡ bad_start table.now.ids.now self.now.array.now i }
    {
        let total = self.array.child(self.child_number(table, i)).length();
        let start = self.start(i);
        if start < 0 || start >= total {
            Some(Numbers {
                place: i,
                left: i128::from(start),
                right: i128::from(total),
            })
        } else {
            None
        }
    }

    /// The first item of a dense union whose offset is no place of its child.
    pub(crate) fn starts_wrong(&self, table: &IdTable) -> Option<Numbers>
        requires ids { end (members_of self.now.array.now) ≤ length (bytes (members_of self.now.array.now) 0) }
        requires starts { 4 * end (members_of self.now.array.now) ≤ length (bytes (members_of self.now.array.now) 1) }
        requires named { first_below (bad_id table.now.ids.now (members_of self.now.array.now)) (items (members_of self.now.array.now)) ≡ None }
        requires children { length (children_of self.now.array.now) ≡ length table.now.ids.now }
        requires live { All IsLive (children_of self.now.array.now) }
        ensures { result ≡ first_below (bad_start table.now.ids.now self.now.array.now) (items (members_of self.now.array.now)) }
    {
        for i in 0..self.len() {
            if let Some(numbers) = self.bad_start(table, i) {
                return Some(numbers);
            }
        }
        None
    }
}
