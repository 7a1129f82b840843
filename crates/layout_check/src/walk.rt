//! The walk over an array and its kinds: the rules of each node in preorder.
ghost use Rattle.std.specs.Prelude.{◌≡◌, IsOk, IsTrue, is_none, ◌↔◌, ◌≤ℤ◌, pos, ◌+◌, ◌-◌, ◌^◌, ◌<◌, ◌≤◌, length, map, OnOk, [], ◌∷◌, ◌++◌, None, Option};
ghost use Rattle.std.specs.Global.{Box};
ghost use Rattle.tree_model.specs.promise.TreeParts.{IsLive, children_of, dictionary_of};
ghost use Rattle.tree_model.specs.promise.TreeData.{trees, maybe_tree};
ghost use Rattle.tree_model.specs.Tree.{Depth, depth_of_all, depth_of_maybe};
ghost use Rattle.raw_array.specs.promise.Members.{ArrayTree, members_of};
ghost use Rattle.data_types.specs.promise.KindTrees.{most_levels};
ghost use Rattle.data_types.specs.KindTrees.{NodesOk, AllNodesOk, DictNodesOk, TypedOk};
ghost use Rattle.data_types.specs.Kinds.{KindOk};
ghost use Rattle.layout_rules.specs.promise.Rules.{one_if, indices_wrong, length_if};
ghost use Rattle.data_types.specs.declared.typed.Typed.{out-Typed};
ghost use Rattle.data_types.specs.promise.TypedView.{typed_of};
ghost use Rattle.data_types.specs.TypedView.{kids_of, dict_in};
ghost use Rattle.layout_check.specs.NodeView.{live_node, AreReadable, own_of};
ghost use Rattle.layout_rules.specs.promise.Layout.{layout_of, buffer_count};
ghost use Rattle.layout_rules.specs.promise.Rules.{offsets_fall_if, is_behind_offsets};
ghost use Rattle.layout_rules.specs.Rules.{buffer_rules, form_rules, item_rules};
ghost use Rattle.data_types.specs.promise.Ways.{steps_of, Steps};
ghost use Rattle.layout_rules.specs.Found.{found};
ghost use Rattle.layout_check.specs.FoundAt.{found_at};
ghost use Rattle.layout_rules.specs.promise.Walk.{LayoutOk, first_fault};
ghost use Rattle.layout_rules.specs.Walk.{fault_from, rules_fault, own_fault, children_fault, dictionary_fault};

use crate::buffers::{buffers_absent, buffers_pass, buffers_short, layout_falls, layout_passes};
use crate::children::children_short;
use crate::counts::{buffers_wrong, children_wrong, dictionary_wrong, negative, window_too_long};
use crate::failing::{Failing, ruled};
use crate::indices::indices_wrong;
use crate::node::WellFormedNode;
use crate::nulls::nulls_wrong;
use crate::texts::{texts_pass, texts_wrong};
use crate::views::{prefixes_wrong, views_misplaced, views_pass};
use data_types::{DICTIONARY_STEP, DataType, Path, Typed};
use layout_rules::{LayoutFault, LayoutRule, Numbers, layout_of};
use raw_array::RawArray;

/// Checks an array against its kinds ("Arrow Columnar Format", "Physical memory layout"). The fault is the first rule of
/// [`LayoutRule`] that fails at the first failing node in preorder: children by number, then the dictionary. Takes no
/// memory.
#[tactic(auto, using(layout_rules::proofs::Lawful::lawful))]
pub fn check_array(typed: &Typed, array: &RawArray) -> Result<(), LayoutFault>
    requires { TypedOk (typed_of typed.now) }
    ensures fault { found result ≡ first_fault (typed_of typed.now) array.now }
    ensures lawful { IsOk result ↔ LayoutOk (typed_of typed.now) array.now }
{
    let mut path = Path::root();
    match check_from(typed, array, &mut path) {
        Ok(()) => Ok(()),
        Err(failing) => Err(failing.at(&path)),
    }
}

/// Whether all rules hold of an array and what is below it, so that [`check_array`] finds no fault.
#[cycle(passes)]
#[tactic(auto, using(crate::proofs::Faults::walks, crate::proofs::Passes::walks))]
pub(crate) fn passes(typed: &Typed, array: &RawArray) -> bool
    requires types { NodesOk (typed_of typed.now) }
    ensures { (path : Steps) → result ≡ is_none (fault_from (typed_of typed.now) path array.now) }
{
    own_passes(typed, array)
        && children_pass(&typed.kids, array)
        && dictionary_passes(&typed.dict, array)
}

/// Whether the rules of the node itself hold.
#[inline(always)]
#[tactic(auto, using(crate::proofs::Passes::own))]
fn own_passes(typed: &Typed, array: &RawArray) -> bool
    requires type_ok { KindOk (out-Typed typed.now).kind }
    ensures exact { (path : Steps) → result ≡ is_none (own_fault (typed_of typed.now) path array.now) }
    ensures live { IsTrue result → IsLive array.now }
    ensures children { IsTrue result → length (children_of array.now) ≡ length (out-Typed typed.now).kids.items }
{
    if array.is_released() {
        return false;
    }
    if !form_passes(typed, array) {
        return false;
    }
    let node = WellFormedNode::of(layout_of(&typed.kind), array);
    readable_passes(typed, &node) && items_pass(typed, &node)
}

/// Whether the rules of a live node's buffers hold.
#[inline(always)]
#[tactic(auto, using(crate::proofs::Passes::node))]
fn readable_passes(typed: &Typed, node: &WellFormedNode) -> bool
    requires layout { node.now.layout ≡ layout_of (out-Typed typed.now).kind }
    ensures exact { (path : Steps) → result ≡ is_none (rules_fault buffer_rules path (live_node typed.now node.now.array.now)) }
    ensures buffers { IsTrue result → AreReadable node.now.layout (own_of node.now) }
    ensures rise { IsTrue result → offsets_fall_if (is_behind_offsets node.now.layout) (own_of node.now) ≡ None }
{
    buffers_pass(node) && layout_passes(node)
}

/// Whether the rules of a live node's items hold, once its buffers are long enough.
#[inline(always)]
#[tactic(auto, using(crate::proofs::Passes::node))]
fn items_pass(typed: &Typed, node: &WellFormedNode) -> bool
    requires type_ok { KindOk (out-Typed typed.now).kind }
    requires layout { node.now.layout ≡ layout_of (out-Typed typed.now).kind }
    requires buffers { AreReadable node.now.layout (own_of node.now) }
    requires rise { offsets_fall_if (is_behind_offsets node.now.layout) (own_of node.now) ≡ None }
    requires dictionary { one_if (dictionary_of node.now.array.now) ≡ one_if (out-Typed typed.now).dict }
    ensures { (path : Steps) → result ≡ is_none (rules_fault item_rules path (live_node typed.now node.now.array.now)) }
{
    children_short(node).is_none()
        && nulls_wrong(node).is_none()
        && views_pass(node)
        && texts_pass(&typed.kind, node)
        && indices_pass(typed, node)
        && window_too_long(node.stop).is_none()
}

/// Whether each valid index is a place of the dictionary. Nothing is looked at where the type has none.
#[inline(always)]
fn indices_pass(typed: &Typed, node: &WellFormedNode) -> bool
    requires type_ok { KindOk (out-Typed typed.now).kind }
    requires layout { node.now.layout ≡ layout_of (out-Typed typed.now).kind }
    requires buffers { AreReadable node.now.layout (own_of node.now) }
    requires dictionary { one_if (dictionary_of node.now.array.now) ≡ one_if (out-Typed typed.now).dict }
    ensures { result ≡ is_none (indices_wrong (out-Typed typed.now).kind (own_of node.now) (length_if (dictionary_of node.now.array.now))) }
{
    typed.dict.is_none() || all_indices_pass(&typed.kind, node)
}

/// Whether each valid index is a place of the dictionary. The place of a fault gets its room here, and so not at each node.
#[inline(never)]
fn all_indices_pass(kind: &DataType, node: &WellFormedNode) -> bool
    requires layout { node.now.layout ≡ layout_of kind.now }
    requires type_ok { KindOk kind.now }
    requires buffers { AreReadable node.now.layout (own_of node.now) }
    ensures { result ≡ is_none (indices_wrong kind.now (own_of node.now) (length_if (dictionary_of node.now.array.now))) }
{
    indices_wrong(kind, node).is_none()
}

/// Whether the rules of a live node's form hold: its numbers, and how many parts it has.
#[inline(always)]
#[tactic(auto, using(crate::proofs::Passes::node))]
fn form_passes(typed: &Typed, array: &RawArray) -> bool
    requires live { IsLive array.now }
    ensures exact { (path : Steps) → result ≡ is_none (rules_fault form_rules path (live_node typed.now array.now)) }
    ensures length { IsTrue result → pos 0 ≤ℤ (members_of array.now).length }
    ensures offset { IsTrue result → pos 0 ≤ℤ (members_of array.now).offset }
    ensures buffers { IsTrue result
        → length (members_of array.now).buffers ≡ buffer_count (layout_of (out-Typed typed.now).kind) (length (members_of array.now).buffers) }
    ensures children { IsTrue result → length (children_of array.now) ≡ length (out-Typed typed.now).kids.items }
    ensures dictionary { IsTrue result → one_if (dictionary_of array.now) ≡ one_if (out-Typed typed.now).dict }
{
    negative(array.length()).is_none()
        && negative(array.offset()).is_none()
        && buffers_wrong(layout_of(&typed.kind), array).is_none()
        && children_wrong(&typed.kids, array).is_none()
        && dictionary_wrong(&typed.dict, array).is_none()
}

/// Whether all rules hold of the children and what is below them.
#[cycle(passes)]
fn children_pass(kids: &[Typed], array: &RawArray) -> bool
    requires types { AllNodesOk (trees (map typed_of kids.now)) }
    requires live { IsLive array.now }
    requires children { length (children_of array.now) ≡ length kids.now }
    ensures { (path : Steps) → result ≡ is_none (children_fault (map typed_of kids.now) 0 path (children_of array.now)) }
{
    for i in 0..kids.len() {
        if !passes(&kids[i], array.child(i)) {
            return false;
        }
    }
    true
}

/// Whether all rules hold of the dictionary and what is below it.
#[cycle(passes)]
fn dictionary_passes(dict: &Option<Box<Typed>>, array: &RawArray) -> bool
    requires types { DictNodesOk (maybe_tree (dict_in dict.now)) }
    requires live { IsLive array.now }
    ensures { (path : Steps) → result ≡ is_none (dictionary_fault (dict_in dict.now) path (dictionary_of array.now)) }
{
    match (dict, array.dictionary()) {
        (Some(dict), Some(dictionary)) => passes(dict, dictionary),
        _ => true,
    }
}

#[cycle(check)]
#[tactic(auto, using(crate::proofs::Faults::walks))]
fn check_from(typed: &Typed, array: &RawArray, path: &mut Path) -> Result<(), Failing>
    requires levels { path.old.depth + Depth (typed_of typed.now) ≤ most_levels }
    requires types { NodesOk (typed_of typed.now) }
    ensures fault { found_at (steps_of path.new) result ≡ fault_from (typed_of typed.now) (steps_of path.old) array.now }
    ensures way { OnOk result (steps_of path.new ≡ steps_of path.old) }
    ensures depth { OnOk result (path.new.depth ≡ path.old.depth) }
{
    check_own(typed, array)?;
    check_children(&typed.kids, array, path)?;
    check_dictionary(&typed.dict, array, path)
}

/// The rules of the node itself.
#[tactic(auto, using(crate::proofs::Faults::own_rules))]
fn check_own(typed: &Typed, array: &RawArray) -> Result<(), Failing>
    requires type_ok { KindOk (out-Typed typed.now).kind }
    ensures fault { (path : Steps) → found_at path result ≡ own_fault (typed_of typed.now) path array.now }
    ensures live { OnOk result (IsLive array.now) }
    ensures children { OnOk result (length (children_of array.now) ≡ length (out-Typed typed.now).kids.items) }
    ensures few { OnOk result (length (out-Typed typed.now).kids.items < 2 ^ 32 - 1) }
{
    if array.is_released() {
        let none = Numbers {
            place: 0,
            left: 0,
            right: 0,
        };
        return ruled(LayoutRule::Released, Some(none));
    }
    check_form(typed, array)?;
    let node = WellFormedNode::of(layout_of(&typed.kind), array);
    check_buffers(typed, &node)?;
    check_items(typed, &node)
}

/// The rules of a live node's buffers.
fn check_buffers(typed: &Typed, node: &WellFormedNode) -> Result<(), Failing>
    requires layout { node.now.layout ≡ layout_of (out-Typed typed.now).kind }
    ensures fault { (path : Steps) → found_at path result ≡ rules_fault buffer_rules path (live_node typed.now node.now.array.now) }
    ensures buffers { OnOk result (AreReadable node.now.layout (own_of node.now)) }
    ensures rise { OnOk result (offsets_fall_if (is_behind_offsets node.now.layout) (own_of node.now) ≡ None) }
{
    ruled(LayoutRule::BufferAbsent, buffers_absent(node))?;
    ruled(LayoutRule::BufferShort, buffers_short(node))?;
    ruled(LayoutRule::OffsetsFall, layout_falls(node))
}

/// The rules of a live node's items, once its buffers are long enough.
fn check_items(typed: &Typed, node: &WellFormedNode) -> Result<(), Failing>
    requires type_ok { KindOk (out-Typed typed.now).kind }
    requires layout { node.now.layout ≡ layout_of (out-Typed typed.now).kind }
    requires buffers { AreReadable node.now.layout (own_of node.now) }
    requires rise { offsets_fall_if (is_behind_offsets node.now.layout) (own_of node.now) ≡ None }
    ensures { (path : Steps) → found_at path result ≡ rules_fault item_rules path (live_node typed.now node.now.array.now) }
{
    ruled(LayoutRule::ChildShort, children_short(node))?;
    ruled(LayoutRule::NullCount, nulls_wrong(node))?;
    ruled(LayoutRule::ViewPlace, views_misplaced(node))?;
    ruled(LayoutRule::ViewPrefix, prefixes_wrong(node))?;
    ruled(LayoutRule::NotText, texts_wrong(&typed.kind, node))?;
    ruled(LayoutRule::IndexRange, indices_wrong(&typed.kind, node))?;
    ruled(LayoutRule::WindowTooLong, window_too_long(node.stop))
}

/// The rules of a live node's form: its numbers, and how many parts it has.
#[tactic(auto, using(crate::proofs::Faults::form))]
fn check_form(typed: &Typed, array: &RawArray) -> Result<(), Failing>
    requires live { IsLive array.now }
    ensures fault { (path : Steps) → found_at path result ≡ rules_fault form_rules path (live_node typed.now array.now) }
    ensures length { OnOk result (pos 0 ≤ℤ (members_of array.now).length) }
    ensures offset { OnOk result (pos 0 ≤ℤ (members_of array.now).offset) }
    ensures buffers { OnOk result
        (length (members_of array.now).buffers ≡ buffer_count (layout_of (out-Typed typed.now).kind) (length (members_of array.now).buffers)) }
    ensures children { OnOk result (length (children_of array.now) ≡ length (out-Typed typed.now).kids.items) }
    ensures few { OnOk result (length (out-Typed typed.now).kids.items < 2 ^ 32 - 1) }
{
    ruled(LayoutRule::NegativeLength, negative(array.length()))?;
    ruled(LayoutRule::NegativeOffset, negative(array.offset()))?;
    ruled(
        LayoutRule::BufferCount,
        buffers_wrong(layout_of(&typed.kind), array),
    )?;
    ruled(LayoutRule::ChildCount, children_wrong(&typed.kids, array))?;
    ruled(LayoutRule::Dictionary, dictionary_wrong(&typed.dict, array))
}

/// The same of a part of the node, to which this step leads.
#[cycle(check)]
fn check_part(typed: &Typed, array: &RawArray, path: &mut Path, step: u32) -> Result<(), Failing>
    requires levels { path.old.depth + 1 + Depth (typed_of typed.now) ≤ most_levels }
    requires types { NodesOk (typed_of typed.now) }
    ensures fault { found_at (steps_of path.new) result ≡ fault_from (typed_of typed.now) (steps_of path.old ++ step ∷ []) array.now }
    ensures way { OnOk result (steps_of path.new ≡ steps_of path.old) }
    ensures depth { OnOk result (path.new.depth ≡ path.old.depth) }
{
    path.push(step);
    check_from(typed, array, path)?;
    path.pop();
    Ok(())
}

#[cycle(check)]
fn check_children(kids: &[Typed], array: &RawArray, path: &mut Path) -> Result<(), Failing>
    requires levels { path.old.depth + 1 + depth_of_all (trees (map typed_of kids.now)) ≤ most_levels }
    requires types { AllNodesOk (trees (map typed_of kids.now)) }
    requires few { length kids.now < 2 ^ 32 - 1 }
    requires live { IsLive array.now }
    requires children { length (children_of array.now) ≡ length kids.now }
    ensures fault { found_at (steps_of path.new) result ≡ children_fault (map typed_of kids.now) 0 (steps_of path.old) (children_of array.now) }
    ensures way { OnOk result (steps_of path.new ≡ steps_of path.old) }
    ensures depth { OnOk result (path.new.depth ≡ path.old.depth) }
{
    for i in 0..kids.len() {
        check_part(&kids[i], array.child(i), path, i as u32)?;
    }
    Ok(())
}

#[cycle(check)]
fn check_dictionary(
    dict: &Option<Box<Typed>>,
    array: &RawArray,
    path: &mut Path,
) -> Result<(), Failing>
    requires levels { path.old.depth + 1 + depth_of_maybe (maybe_tree (dict_in dict.now)) ≤ most_levels }
    requires types { DictNodesOk (maybe_tree (dict_in dict.now)) }
    requires live { IsLive array.now }
    ensures fault { found_at (steps_of path.new) result ≡ dictionary_fault (dict_in dict.now) (steps_of path.old) (dictionary_of array.now) }
    ensures way { OnOk result (steps_of path.new ≡ steps_of path.old) }
    ensures depth { OnOk result (path.new.depth ≡ path.old.depth) }
{
    match (dict, array.dictionary()) {
        (Some(dict), Some(dictionary)) => check_part(dict, dictionary, path, DICTIONARY_STEP),
        _ => Ok(()),
    }
}
