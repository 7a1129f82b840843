//! What a column shows.
ghost use Rattle.std.specs.Prelude.{◌≡◌, ◌≢◌, true, None, ◌≤ℤ◌, ◌<ℤ◌, Bool, ℕ, ℤ, List, IfSome, IfNone, pos, ◌+◌, ◌<◌, ◌≤◌, length, get_or};
ghost use Rattle.data_types.specs.promise.Value.{Value};
ghost use Rattle.data_types.specs.promise.Value.Value.{Null, Truth, Whole, Bits, Bytes};
ghost use Rattle.tree_model.specs.promise.TreeData.{Released};
ghost use Rattle.tree_model.specs.promise.TreeParts.{child_at, children_of};
ghost use Rattle.raw_array.specs.promise.Members.{members_of};
ghost use Rattle.data_types.specs.promise.TypedView.{typed_of};
ghost use Rattle.data_types.specs.TypedView.{kids_of, dict_in};
ghost use Rattle.data_types.specs.declared.typed.Typed.{out-Typed};
ghost use Rattle.layout_rules.specs.promise.Layout.{first, natural, is_valid as is_valid_at};
ghost use Rattle.layout_rules.specs.promise.Values.{row_items, tree_items};
ghost use Rattle.arr_import.specs.Window.{IsRow, IsStruct, IsStructValue, child_window, home_of, item_at};
ghost use Rattle.arr_import.specs.Cols.{window_of};
ghost use Rattle.arr_import.specs.Shown.{Shows};

use crate::col::Col;
use crate::value_ref::ValueRef;
use data_types::kinds_of_typed;
use layout_rules::{lawful_has_no_fault, lawful_items_lie_within, lawful_root};

impl<'a> Col<'a> {
    /// Item `i`. Bytes are lent from the array's blocks, an index gives the dictionary's item, a list gives the window of
    /// its child, and a struct is read by [`Col::home`] and [`Col::child`].
    pub fn value(&self, i: i64) -> ValueRef<'a>
        requires from { pos 0 ≤ℤ i }
        requires below { i <ℤ pos (window_of self.now).count }
        ensures { Shows result (item_at (window_of self.now) (natural i)) }
    {
        let i = i as u64;
        if self.typed.dict.is_none() {
            return self.own_value(i);
        }
        let (home, place) = self.home_at(i);
        home.own_value(place)
    }

    /// Where item `i` is: this column and `i` where it has no dictionary or the index is null, else what the
    /// dictionary's `home` gives at the index. A struct's fields are the items of that column's children at the number
    /// that is given.
    pub fn home(&self, i: i64) -> (Col<'a>, i64)
        requires from { pos 0 ≤ℤ i }
        requires below { i <ℤ pos (window_of self.now).count }
        ensures window { window_of result.0 ≡ (home_of (window_of self.now) (natural i)).window }
        ensures place { result.1 ≡ pos ((home_of (window_of self.now) (natural i)).place) }
        ensures inside { result.1 <ℤ pos (window_of result.0).count }
        ensures value { item_at (window_of result.0) (natural result.1) ≡ item_at (window_of self.now) (natural i) }
        ensures row { IsStructValue (item_at (window_of self.now) (natural i))
            → IsRow (window_of result.0) (natural result.1) (item_at (window_of self.now) (natural i)) }
    {
        let (home, place) = self.home_at(i as u64);
        home.row_is_there(place);
        lawful_has_no_fault(home.typed, home.array);
        lawful_root(home.typed, home.array);
        (home, place as i64)
    }

    /// What a struct's value is, at home.
    fn row_is_there(&self, i: u64)
        requires { is_valid_at (members_of self.now.array.now) (self.now.start + i) ≡ true → dict_in (out-Typed self.now.typed.now).dict ≡ None }
        ensures { (v : Value) → v ≡ item_at (window_of self.now) i → IsStructValue v → IsRow (window_of self.now) i v }
    {
        kinds_of_typed(self.typed);
        lawful_has_no_fault(self.typed, self.array);
        lawful_root(self.typed, self.array);
    }

    /// The number of children, each a column of the items below this one's.
    #[tactic(auto, using(crate::proofs::Reading::children))]
    pub fn n_children(&self) -> usize
        ensures { result ≡ length (children_of (window_of self.now).typed) }
    {
        kinds_of_typed(self.typed);
        self.typed.kids.len()
    }

    /// What a child has of a struct's items.
    fn fields_are_there(&self, k: usize)
        requires kind { IsStruct (typed_of self.now.typed.now) }
        requires inside { k < length (children_of (typed_of self.now.typed.now)) }
        ensures kid { k < length (kids_of self.now.typed.now) }
        ensures typed { child_at (typed_of self.now.typed.now) k ≡ get_or (kids_of self.now.typed.now) k Released }
        ensures within { first (members_of self.now.array.now) + self.now.start + self.now.count ≤ tree_items (child_at self.now.array.now k) }
        ensures fields { (i : ℕ) → get_or (row_items (typed_of self.now.typed.now) self.now.array.now (self.now.start + i)) k Null
            ≡ item_at (child_window (window_of self.now) k) i }
    {
        kinds_of_typed(self.typed);
        lawful_has_no_fault(self.typed, self.array);
        lawful_root(self.typed, self.array);
        lawful_items_lie_within(self.typed, self.array);
    }

    /// The items of a struct's child `k`, counted from 0, over this column's window.
    #[inline(always)]
    pub fn child(&self, k: usize) -> Col<'a>
        requires kind { IsStruct (window_of self.now).typed }
        requires inside { k < length (children_of (window_of self.now).typed) }
        ensures window { window_of result ≡ child_window (window_of self.now) k }
        ensures fields { (i : ℕ) → get_or (row_items (window_of self.now).typed (window_of self.now).array ((window_of self.now).start + i)) k Null
            ≡ item_at (window_of result) i }
    {
        self.fields_are_there(k);
        lawful_has_no_fault(self.typed, self.array);
        lawful_root(self.typed, self.array);
        self.child_items(k, self.offset + self.start, self.count)
    }
}
