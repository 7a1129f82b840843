//! Children that are moved out of an array, one after the other ("The Arrow C Data Interface", "Moving child arrays").
ghost use Rattle.std.specs.Prelude.{◌≡◌, ◌+◌, ◌-◌, ◌<◌, ◌≤◌, ◌^◌, ◌≤ℤ◌, ℕ, pos, [], ◌∷◌, ◌++◌, length, map, take, drop, vec_len, vec_capacity};
ghost use Rattle.tree_model.specs.promise.TreeData.{Released, trees};
ghost use Rattle.tree_model.specs.promise.TreeParts.{IsLive, children_of, child_at};
ghost use Rattle.tree_model.specs.Tree.{with_child};
ghost use Rattle.raw_array.specs.promise.Members.{Cost};
ghost use Rattle.raw_array.specs.Members.{cost_of_all};
ghost use Rattle.raw_array.specs.Windows.{FitsWindow, Window};

use crate::columns::slice;
use raw_array::{Gone, PartlyMoved, RawArray, windows_keep_measures};

/// The number of children.
pub fn count_children(array: &RawArray) -> usize
    requires { IsLive array.now }
    ensures exact { result ≡ length (children_of array.now) }
    ensures few { length (children_of array.now) < 2 ^ 32 - 1 }
{
    array.n_children() as usize
}

/// Moves the children of some places, each cut to a window, behind the columns of a list that has room for them.
pub fn move_children(
    moved: &mut PartlyMoved,
    from: usize,
    to: usize,
    off: i64,
    len: i64,
    columns: &mut Vec<RawArray>,
)
    requires off { pos 0 ≤ℤ off }
    requires len { pos 0 ≤ℤ len }
    requires order { from ≤ to }
    requires inside { to ≤ length (children_of moved.old) }
    requires fit { (k : ℕ) → from ≤ k → k < to → FitsWindow (child_at moved.old k) off len }
    requires room { vec_len columns.old + to ≤ vec_capacity columns.old + from }
    ensures columns { columns.new.items ≡ columns.old.items ++ map (λ c. Window c off len) (take (to - from) (drop from (children_of moved.old))) }
    ensures len { vec_len columns.new + from ≡ vec_len columns.old + to }
    ensures capacity { vec_capacity columns.new ≡ vec_capacity columns.old }
    ensures places { length (children_of moved.new) ≡ length (children_of moved.old) }
    ensures rest { drop to (children_of moved.new) ≡ drop to (children_of moved.old) }
    ensures cost { Cost moved.new + cost_of_all (trees columns.new.items) ≡ Cost moved.old + cost_of_all (trees columns.old.items) }
    ensures less { Cost moved.new ≤ Cost moved.old }
{
    for place in from..to {
        move_child(moved, place, off, len, columns);
    }
}

/// Moves a child, cut to a window, behind the columns of a list that has room for it.
fn move_child(
    moved: &mut PartlyMoved,
    place: usize,
    off: i64,
    len: i64,
    columns: &mut Vec<RawArray>,
)
    requires off { pos 0 ≤ℤ off }
    requires len { pos 0 ≤ℤ len }
    requires inside { place < length (children_of moved.old) }
    requires fits { FitsWindow (child_at moved.old place) off len }
    requires room { vec_len columns.old < vec_capacity columns.old }
    ensures moved { moved.new ≡ with_child moved.old place Released }
    ensures columns { columns.new.items ≡ columns.old.items ++ Window (child_at moved.old place) off len ∷ [] }
    ensures len { vec_len columns.new ≡ vec_len columns.old + 1 }
    ensures capacity { vec_capacity columns.new ≡ vec_capacity columns.old }
    ensures cost { Cost moved.new + cost_of_all (trees columns.new.items) ≡ Cost moved.old + cost_of_all (trees columns.old.items) }
    ensures less { Cost moved.new ≤ Cost moved.old }
{
    windows_keep_measures();
    match moved.take_child(place) {
        Ok(child) => columns.push_reserved(slice(child, off, len)),
        Err(Gone) => unreachable!(),
    }
}
