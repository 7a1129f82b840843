//! What a lawful array promises to its reader, as laws over the definitions. The calls do nothing.
ghost use Rattle.std.specs.Prelude.{◌≡◌, ◌↔◌, None, Some, IsTrue, is_none, ◌≤ℤ◌, pos, ℕ, ◌+◌, ◌<◌, ◌≤◌, length, get_or};
ghost use Rattle.tree_model.specs.promise.TreeData.{Released};
ghost use Rattle.tree_model.specs.promise.TreeParts.{IsLive, child_at, children_of, dictionary_of};
ghost use Rattle.raw_array.specs.promise.Members.{ArrayTree, members_of};
ghost use Rattle.data_types.specs.declared.typed.Typed.{out-Typed};
ghost use Rattle.data_types.specs.promise.KindTrees.{KindTree};
ghost use Rattle.data_types.specs.promise.TypedView.{typed_of};
ghost use Rattle.data_types.specs.TypedView.{kind_of, kids_of, dict_in};
ghost use Rattle.layout_rules.specs.promise.Layout.{layout_of, buffer_count, first, items, end};
ghost use Rattle.layout_rules.specs.Layout.{IsLongIfPresent};
ghost use Rattle.layout_rules.specs.promise.Rules.{one_if, items_need, window_limit};
ghost use Rattle.layout_rules.specs.promise.Walk.{LayoutOk, ChunkOk, first_fault};
ghost use Rattle.layout_rules.specs.promise.Values.{tree_items, rows_of};
ghost use Rattle.layout_rules.specs.Lawful.{RootHolds, PartsHold, ItemsHold, ChunkHolds};
ghost use Rattle.layout_rules.specs.Within.{StoredWithin, ViewWithin, ItemsWithin, IndexWithin};

use data_types::Typed;
use raw_array::RawArray;

/// A law: an array is lawful exactly where it has no first fault.
pub fn lawful_has_no_fault(typed: &Typed, array: &RawArray)
    ensures { IsTrue (is_none (first_fault (typed_of typed.now) array.now)) ↔ LayoutOk (typed_of typed.now) array.now }
{}

/// A law: what holds of the root of a lawful array.
pub fn lawful_root(typed: &Typed, array: &RawArray)
    requires { LayoutOk (typed_of typed.now) array.now }
    ensures live { IsLive array.now }
    ensures length { pos 0 ≤ℤ (members_of array.now).length }
    ensures offset { pos 0 ≤ℤ (members_of array.now).offset }
    ensures items { tree_items array.now ≡ items (members_of array.now) }
    ensures end { end (members_of array.now) ≤ window_limit }
    ensures count { length (members_of array.now).buffers ≡ buffer_count (layout_of (kind_of typed.now)) (length (members_of array.now).buffers) }
    ensures long { IsLongIfPresent (members_of array.now) }
    ensures children { length (children_of array.now) ≡ length (kids_of typed.now) }
    ensures dictionary { one_if (dictionary_of array.now) ≡ one_if (dict_in (out-Typed typed.now).dict) }
{}

/// A law: the children and the dictionary of a lawful array are lawful, and no child has more than 2^40 items.
pub fn lawful_parts(typed: &Typed, array: &RawArray)
    requires { LayoutOk (typed_of typed.now) array.now }
    ensures children { (k : ℕ) → k < length (kids_of typed.now) → LayoutOk (get_or (kids_of typed.now) k Released) (child_at array.now k) }
    ensures few { (k : ℕ) → k < length (kids_of typed.now) → tree_items (child_at array.now k) ≤ window_limit }
    ensures dictionary { (dict : KindTree) (dictionary : ArrayTree) → dict_in (out-Typed typed.now).dict ≡ Some dict → dictionary_of array.now ≡ Some dictionary
        → LayoutOk dict dictionary }
{}

/// A law: what is read of an item of a lawful array's window lies within its buffers, its children and its dictionary.
pub fn lawful_items_lie_within(typed: &Typed, array: &RawArray)
    requires { LayoutOk (typed_of typed.now) array.now }
    ensures stored { (i : ℕ) → i < tree_items array.now
        → StoredWithin (layout_of (kind_of typed.now)) (members_of array.now) (first (members_of array.now) + i) }
    ensures needed { (k : ℕ) → k < length (kids_of typed.now)
        → items_need (layout_of (kind_of typed.now)) (members_of array.now) ≤ tree_items (child_at array.now k) }
    ensures children { (i k : ℕ) → i < tree_items array.now → k < length (kids_of typed.now)
        → ItemsWithin (layout_of (kind_of typed.now)) (members_of array.now) (first (members_of array.now) + i) (tree_items (child_at array.now k)) }
    ensures views { (i : ℕ) → i < tree_items array.now → ViewWithin (layout_of (kind_of typed.now)) (members_of array.now) i }
    ensures index { (i : ℕ) (dict : KindTree) (dictionary : ArrayTree) → i < tree_items array.now → dict_in (out-Typed typed.now).dict ≡ Some dict
        → dictionary_of array.now ≡ Some dictionary → IndexWithin (kind_of typed.now) (members_of array.now) i dictionary }
{}

/// A law over all trees: what holds of a lawful array whose type is there, at its root, of its parts and of its items.
/// [`lawful_root`], [`lawful_parts`] and [`lawful_items_lie_within`] say it of the trees that a call holds.
pub fn lawful_trees()
    ensures root { (typed : KindTree) (array : ArrayTree) → IsLive typed → LayoutOk typed array → RootHolds typed array }
    ensures parts { (typed : KindTree) (array : ArrayTree) → IsLive typed → LayoutOk typed array → PartsHold typed array }
    ensures items { (typed : KindTree) (array : ArrayTree) → IsLive typed → LayoutOk typed array → ItemsHold typed array }
{}

/// A law over all trees: a chunk is a table without null rows, and an array has a row for each item.
pub fn chunks_are_tables()
    ensures chunk { (typed : KindTree) (array : ArrayTree) → IsLive typed → ChunkOk typed array → ChunkHolds typed array }
    ensures rows { (typed : KindTree) (array : ArrayTree) → length (rows_of typed array) ≡ tree_items array }
{}
