//! What holds of array trees that are equal but for amounts, and of windows. Each call does nothing: what its clauses say
//! holds of all trees.
ghost use Rattle.std.specs.Prelude.{◌≡◌, ◌+◌, ◌≤◌, ℕ, ℤ};
ghost use Rattle.tree_model.specs.Tree.{Depth};
ghost use Rattle.raw_array.specs.promise.Members.{ArrayTree, Cost};
ghost use Rattle.raw_array.specs.Members.{LeastAmount, Like, OneLower, Lowered, LoweredBy};
ghost use Rattle.raw_array.specs.Windows.{Window};

/// A law: trees whose amounts are nowhere above their fellows are ordered, cost the same and are as deep. What a share
/// leaves of its source is below it, so does what a share leaves that memory ran out for, and so do any number of
/// shares.
#[tactic(auto, using(crate::proofs::Amounts::amounts))]
pub fn like_trees_are_ordered()
    ensures reflexive { (t : ArrayTree) → Like t t }
    ensures transitive { (t u v : ArrayTree) → Like t u → Like u v → Like t v }
    ensures lowered { (t : ArrayTree) → Like t (Lowered t) }
    ensures lowered_by { (n : ℕ) (t : ArrayTree) → Like t (LoweredBy n t) }
    ensures one_lower { (t u : ArrayTree) → OneLower t u → Like t u }
    ensures cost { (t u : ArrayTree) → Like t u → Cost u ≡ Cost t }
    ensures depth { (t u : ArrayTree) → Like t u → Depth u ≡ Depth t }
    ensures amount { (t u : ArrayTree) → Like t u → LeastAmount u ≤ LeastAmount t }
{}

/// A law: shares made one after another lower each amount by their number, and the least amount by no more.
#[tactic(auto, using(crate::proofs::Amounts::amounts))]
pub fn shares_add_up()
    ensures none { (t : ArrayTree) → LoweredBy 0 t ≡ t }
    ensures one_more { (n : ℕ) (t : ArrayTree) → Lowered (LoweredBy n t) ≡ LoweredBy (n + 1) t }
    ensures least { (t : ArrayTree) → LeastAmount t ≤ LeastAmount (Lowered t) + 1 }
    ensures least_by { (n : ℕ) (t : ArrayTree) → LeastAmount t ≤ LeastAmount (LoweredBy n t) + n }
    ensures least_left { (t u : ArrayTree) → OneLower t u → LeastAmount t ≤ LeastAmount u + 1 }
{}

/// A law: a window has the levels and the units of the array.
#[tactic(auto, using(crate::proofs::Windows::windows))]
pub fn windows_keep_measures()
    ensures depth { (t : ArrayTree) (off len : ℤ) → Depth (Window t off len) ≡ Depth t }
    ensures cost { (t : ArrayTree) (off len : ℤ) → Cost (Window t off len) ≡ Cost t }
{}
