//! The items of a union, read in place.
ghost use Rattle.std.specs.Prelude.{◌≡◌, IsTrue, is_none, All, length, map};
ghost use Rattle.data_types.specs.KindTrees.{TypedOk};
ghost use Rattle.data_types.specs.promise.TypedView.{typed_of};
ghost use Rattle.union_cols.specs.TypedProps.{all_typed_prop};
ghost use Rattle.union_cols.specs.promise.UnionRules.{union_fault};
ghost use Rattle.union_cols.specs.UnionAnswers.{union_of};

use crate::id_table::IdTable;
use crate::kinds::UnionTyped;
use crate::laws::union_holds;
use crate::node::UnionNode;
use arr_import::{Col, ValueRef};
use raw_array::RawArray;

/// The items of a union's array that [`crate::check_union`] accepted, in its window. Its buffers are looked up once, and its
/// children by a table of their ids.
#[derive(Clone, Copy)]
pub struct UnionCol<'a> {
    pub(crate) typed: &'a UnionTyped,
    pub(crate) node: UnionNode<'a>,
    table: IdTable<'a>,
    ghost lawful: { IsTrue (is_none (union_fault (union_of typed.now) node.array.now)) },
    ghost same: { length typed.now.ids.items ≡ length typed.now.kids.items },
    ghost kids_are: { All TypedOk (map typed_of typed.now.kids.items) } by { all_typed_prop (map typed_of typed.now.kids.items) },
    ghost same_dense: { node.dense ≡ typed.now.dense },
    ghost same_ids: { table.ids.now ≡ typed.now.ids.items },
}

impl<'a> UnionCol<'a> {
    ghost use Rattle.std.specs.Prelude.{ℕ, ◌≤ℤ◌, ◌<ℤ◌, pos, ◌<◌};
    ghost use Rattle.tree_model.specs.promise.TreeParts.{child_at};
    ghost use Rattle.raw_array.specs.promise.Members.{ArrayTree, members_of};
    ghost use Rattle.layout_rules.specs.promise.Layout.{items, natural};
    ghost use Rattle.layout_rules.specs.promise.Values.{tree_items};
    ghost use Rattle.arr_import.specs.Cols.{window_of};
    ghost use Rattle.arr_import.specs.Shown.{Shows};
    ghost use Rattle.arr_import.specs.Window.{whole};
    ghost use Rattle.union_cols.specs.promise.Unions.{id_at, child_number, union_value};
    ghost use Rattle.union_cols.specs.Unions.{UnionTypedOk, item_number, kid_at};
    ghost use Rattle.union_cols.specs.UnionRules.{UnionOk};
    ghost use Rattle.union_cols.specs.UnionCols.{kinds_in, array_in};

    /// All items of an array that [`crate::check_union`] accepted.
    pub fn of(typed: &'a UnionTyped, array: &'a RawArray) -> UnionCol<'a>
        requires types { UnionTypedOk (union_of typed.now) }
        requires lawful { UnionOk (union_of typed.now) array.now }
        ensures kinds { kinds_in result ≡ union_of typed.now }
        ensures array { array_in result ≡ array.now }
    {
        union_holds(typed, array);
        UnionCol {
            typed,
            node: UnionNode::of(typed.dense, array),
            table: IdTable::of(&typed.ids),
        }
    }

    /// The number of items.
    pub fn len(&self) -> i64
        ensures { result ≡ pos (items (members_of (array_in self.now))) }
    {
        union_holds(self.typed, self.node.array);
        self.node.len() as i64
    }

    /// The type id of item `i`, counted from 0: one of the ids that the format names.
    pub fn id(&self, i: i64) -> u8
        requires from { pos 0 ≤ℤ i }
        requires below { i <ℤ pos (items (members_of (array_in self.now))) }
        ensures { pos result ≡ id_at (members_of (array_in self.now)) (natural i) }
    {
        union_holds(self.typed, self.node.array);
        self.node.id(i as u64) as u8
    }

    /// Where item `i` is: the column of the child that has the item's id, and the number of the item there. The number is the
    /// stored offset of a dense union, and the item's own place in a sparse one.
    #[inline(always)]
    pub fn item(&self, i: i64) -> (Col<'a>, i64)
        requires from { pos 0 ≤ℤ i }
        requires below { i <ℤ pos (items (members_of (array_in self.now))) }
        ensures child { window_of result.0 ≡ whole
            (kid_at (kinds_in self.now) (child_number (kinds_in self.now).ids (members_of (array_in self.now)) (natural i)))
            (child_at (array_in self.now) (child_number (kinds_in self.now).ids (members_of (array_in self.now)) (natural i))) }
        ensures number { result.1 ≡ pos (item_number (kinds_in self.now).dense (members_of (array_in self.now)) (natural i)) }
        ensures inside { result.1 <ℤ pos (window_of result.0).count }
    {
        let i = i as u64;
        (self.child(i), self.number(i))
    }

    /// The number of the child that has item `i`'s id, counted from 0.
    #[inline(always)]
    pub fn child_number(&self, i: i64) -> usize
        requires from { pos 0 ≤ℤ i }
        requires below { i <ℤ pos (items (members_of (array_in self.now))) }
        ensures number { result ≡ child_number (kinds_in self.now).ids (members_of (array_in self.now)) (natural i) }
        ensures within { result < length (kinds_in self.now).kids }
    {
        union_holds(self.typed, self.node.array);
        self.node.child_number(&self.table, i as u64)
    }

    /// Item `i`: the value of the item of its child. Bytes are lent from the child's blocks.
    pub fn value(&self, i: i64) -> ValueRef<'a>
        requires from { pos 0 ≤ℤ i }
        requires below { i <ℤ pos (items (members_of (array_in self.now))) }
        ensures { Shows result (union_value (kinds_in self.now) (array_in self.now) (natural i)) }
    {
        let (child, number) = self.item(i);
        child.value(number)
    }

    /// The column of the child that an item names.
    #[inline(always)]
    fn child(&self, i: u64) -> Col<'a>
        requires { i < items (members_of (array_in self.now)) }
        ensures { window_of result ≡ whole
            (kid_at (kinds_in self.now) (child_number (kinds_in self.now).ids (members_of (array_in self.now)) i))
            (child_at (array_in self.now) (child_number (kinds_in self.now).ids (members_of (array_in self.now)) i)) }
    {
        union_holds(self.typed, self.node.array);
        let k = self.node.child_number(&self.table, i);
        Col::of(&self.typed.kids[k], self.node.array.child(k))
    }

    /// The number of an item in its child.
    #[inline(always)]
    fn number(&self, i: u64) -> i64
        requires { i < items (members_of (array_in self.now)) }
        ensures number { result ≡ pos (item_number (kinds_in self.now).dense (members_of (array_in self.now)) i) }
        ensures inside { item_number (kinds_in self.now).dense (members_of (array_in self.now)) i
            < tree_items (child_at (array_in self.now) (child_number (kinds_in self.now).ids (members_of (array_in self.now)) i)) }
    {
        union_holds(self.typed, self.node.array);
        if self.node.dense {
            self.node.start(i)
        } else {
            (self.node.start + i) as i64
        }
    }
}
