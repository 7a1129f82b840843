//! A second tree over the same blocks.
ghost use Rattle.std.specs.Prelude.{◌≡◌, ◌+◌, ◌<◌, ◌≤◌, length, map, get_or, slice_set, if◌then◌else◌, is_ok, IfOk, OnOk, OnErr};
ghost use Rattle.tree_model.specs.promise.TreeData.{Released, trees, maybe_tree};
ghost use Rattle.tree_model.specs.promise.TreeParts.{IsLive};
ghost use Rattle.tree_model.specs.Tree.{map_trees, map_maybe};
ghost use Rattle.raw_place.specs.Kept.{value_of, value_if, values_of};
ghost use Rattle.raw_array.specs.promise.Members.{Cost, holds_of};
ghost use Rattle.raw_array.specs.Members.{cost_of_all, cost_of_maybe, LeastAmount, least_of, least_of_all, least_of_maybe, shared_buffer};
ghost use Rattle.raw_array.specs.Members.{lowered_buffer, shared_members, lowered_members, ShareOf, Lowered, Like, OneLowerBuffers, OneLower, AllOneLower};
ghost use Rattle.raw_array.specs.Members.{MaybeOneLower};
ghost use Rattle.raw_array.specs.View.{buffers_of, tree_of_node};

use crate::array::{Node, RawArray, ReleaseKind, State};
use crate::private_data::{Private, end_private, placed_private};
use crate::release::{end_all, release_all};
use crate::views::shared_views;
use buf_block::let_go_all;
use raw_place::{Kids, Place};
use std::alloc::Global;
use unit_pass::{NoMemory, Pass, SUPPLY};

impl RawArray {
    /// A second live tree over the same blocks, with the same members and the kind `Shared`. Each hold gives it 1 of its
    /// amount. Each node and each hold of it draws a unit, and none is counted. Where memory ran out this tree is as
    /// before, but that amounts may be one lower, and every unit that was drawn on the way is back.
    #[tactic(auto, using(crate::proofs::Costs::costs))]
    pub fn share(&mut self, alloc: Global, pass: &mut Pass) -> Result<RawArray, NoMemory>
        requires live { IsLive self.old }
        requires amounts { 2 ≤ LeastAmount self.old }
        requires units { Cost self.old ≤ pass.old.units }
        ensures tree { IfOk result (λ tree. tree ≡ ShareOf self.old) }
        ensures lowered { OnOk result (self.new ≡ Lowered self.old) }
        ensures one_lower { OnErr result (OneLower self.old self.new) }
        ensures like { Like self.old self.new }
        ensures cost { IfOk result (λ tree. Cost tree ≡ Cost self.old) }
        ensures cost_kept { Cost self.new ≡ Cost self.old }
        ensures units { pass.new.units + (if is_ok result then Cost self.old else 0) ≡ pass.old.units }
        ensures blocks { pass.new.blocks ≡ pass.old.blocks }
        ensures nodes { pass.new.nodes ≡ pass.old.nodes }
    {
        self.shared(alloc, pass)
    }

    /// A share of a tree, which may be released.
    #[cycle(shared)]
    #[tactic(auto, using(crate::proofs::Shares::shares, crate::proofs::Bounds::bounds))]
    fn shared(&mut self, alloc: Global, pass: &mut Pass) -> Result<RawArray, NoMemory>
        requires amounts { 2 ≤ LeastAmount self.old }
        requires units { Cost self.old ≤ pass.old.units }
        ensures tree { IfOk result (λ tree. tree ≡ ShareOf self.old) }
        ensures lowered { OnOk result (self.new ≡ Lowered self.old) }
        ensures one_lower { OnErr result (OneLower self.old self.new) }
        ensures units { pass.new.units + (if is_ok result then Cost self.old else 0) ≡ pass.old.units }
        ensures blocks { pass.new.blocks ≡ pass.old.blocks }
        ensures nodes { pass.new.nodes ≡ pass.old.nodes }
    {
        match &mut self.state {
            State::Released => Ok(RawArray::released()),
            State::Live(node) => match shared_node(node, alloc, pass) {
                Ok(node) => Ok(RawArray {
                    state: State::Live(node),
                }),
                Err(NoMemory) => Err(NoMemory),
            },
        }
    }
}

/// The shared node, whose source has lowered amounts then.
#[cycle(shared)]
#[tactic(auto, using(crate::proofs::Shares::shares))]
fn shared_node(node: &mut Node, alloc: Global, pass: &mut Pass) -> Result<Node, NoMemory>
    requires amounts { 2 ≤ LeastAmount (tree_of_node node.old) }
    requires units { Cost (tree_of_node node.old) ≤ pass.old.units }
    ensures tree { IfOk result (λ copy. tree_of_node copy ≡ ShareOf (tree_of_node node.old)) }
    ensures lowered { OnOk result (tree_of_node node.new ≡ Lowered (tree_of_node node.old)) }
    ensures one_lower { OnErr result (OneLower (tree_of_node node.old) (tree_of_node node.new)) }
    ensures units { pass.new.units + (if is_ok result then Cost (tree_of_node node.old) else 0) ≡ pass.old.units }
    ensures blocks { pass.new.blocks ≡ pass.old.blocks }
    ensures nodes { pass.new.nodes ≡ pass.old.nodes }
{
    let private = match shared_private(&mut node.private, alloc, pass) {
        Ok(private) => private,
        Err(NoMemory) => return Err(NoMemory),
    };
    let children = match shared_all(&mut node.children, alloc, pass) {
        Ok(children) => children,
        Err(NoMemory) => {
            end_private(private, pass);
            return Err(NoMemory);
        }
    };
    let dictionary = match shared_behind(&mut node.dictionary, alloc, pass) {
        Ok(dictionary) => dictionary,
        Err(NoMemory) => {
            end_all(children, pass);
            end_private(private, pass);
            return Err(NoMemory);
        }
    };
    Ok(Node {
        length: node.length(),
        null_count: node.null_count(),
        offset: node.offset(),
        kind: ReleaseKind::Shared,
        children,
        dictionary,
        private,
    })
}

#[cycle(shared)]
#[tactic(auto, using(crate::proofs::Shares::shares))]
fn shared_behind(
    tree: &mut Option<Place<RawArray>>,
    alloc: Global,
    pass: &mut Pass,
) -> Result<Option<Place<RawArray>>, NoMemory>
    requires amounts { 2 ≤ least_of_maybe (maybe_tree (value_if tree.old)) }
    requires units { cost_of_maybe (maybe_tree (value_if tree.old)) ≤ pass.old.units }
    ensures tree { IfOk result (λ copy. maybe_tree (value_if copy) ≡ map_maybe shared_members (maybe_tree (value_if tree.old))) }
    ensures lowered { OnOk result (maybe_tree (value_if tree.new) ≡ map_maybe lowered_members (maybe_tree (value_if tree.old))) }
    ensures one_lower { OnErr result (MaybeOneLower (maybe_tree (value_if tree.old)) (maybe_tree (value_if tree.new))) }
    ensures units { pass.new.units + (if is_ok result then cost_of_maybe (maybe_tree (value_if tree.old)) else 0) ≡ pass.old.units }
    ensures blocks { pass.new.blocks ≡ pass.old.blocks }
    ensures nodes { pass.new.nodes ≡ pass.old.nodes }
{
    match tree {
        None => Ok(None),
        Some(place) => match place.get_mut().shared(alloc, pass) {
            Ok(copy) => match Place::put(alloc, copy) {
                Ok(place) => Ok(Some(place)),
                Err((copy, NoMemory)) => {
                    copy.end(pass);
                    Err(NoMemory)
                }
            },
            Err(NoMemory) => Err(NoMemory),
        },
    }
}

#[cycle(shared)]
#[tactic(auto, using(crate::proofs::Shares::shares))]
fn shared_all(
    children: &mut Kids<RawArray>,
    alloc: Global,
    pass: &mut Pass,
) -> Result<Kids<RawArray>, NoMemory>
    requires amounts { 2 ≤ least_of_all (trees (values_of children.old)) }
    requires units { cost_of_all (trees (values_of children.old)) ≤ pass.old.units }
    ensures trees { IfOk result (λ copies. trees (values_of copies) ≡ map_trees shared_members (trees (values_of children.old))) }
    ensures lowered { OnOk result (trees (values_of children.new) ≡ map_trees lowered_members (trees (values_of children.old))) }
    ensures one_lower { OnErr result (AllOneLower (trees (values_of children.old)) (trees (values_of children.new))) }
    ensures units { pass.new.units + (if is_ok result then cost_of_all (trees (values_of children.old)) else 0) ≡ pass.old.units }
    ensures blocks { pass.new.blocks ≡ pass.old.blocks }
    ensures nodes { pass.new.nodes ≡ pass.old.nodes }
{
    let Ok(mut copies) = Vec::with_capacity(alloc, children.len()) else {
        return Err(NoMemory);
    };
    for i in 0..children.len() {
        match shared_child(children, i, alloc, pass) {
            Ok(copy) => copies.push_reserved(copy),
            Err(NoMemory) => {
                release_all(copies, pass);
                return Err(NoMemory);
            }
        }
    }
    kept_all(alloc, copies, pass)
}

#[cycle(shared)]
#[tactic(auto, using(crate::proofs::Children::swaps))]
fn shared_child(
    children: &mut Kids<RawArray>,
    i: usize,
    alloc: Global,
    pass: &mut Pass,
) -> Result<RawArray, NoMemory>
    requires inside { i < length (values_of children.old) }
    requires amounts { 2 ≤ LeastAmount (get_or (values_of children.old) i Released) }
    requires units { Cost (get_or (values_of children.old) i Released) ≤ pass.old.units }
    ensures tree { IfOk result (λ copy. copy ≡ ShareOf (get_or (values_of children.old) i Released)) }
    ensures lowered { OnOk result (values_of children.new ≡ slice_set (values_of children.old) i (Lowered (get_or (values_of children.old) i Released))) }
    ensures one_lower { OnErr result (OneLower (get_or (values_of children.old) i Released) (get_or (values_of children.new) i Released)) }
    ensures rest { values_of children.new ≡ slice_set (values_of children.old) i (get_or (values_of children.new) i Released) }
    ensures units { pass.new.units + (if is_ok result then Cost (get_or (values_of children.old) i Released) else 0) ≡ pass.old.units }
    ensures blocks { pass.new.blocks ≡ pass.old.blocks }
    ensures nodes { pass.new.nodes ≡ pass.old.nodes }
{
    let mut child = RawArray::released();
    children.swap(i, &mut child);
    let copy = child.shared(alloc, pass);
    children.swap(i, &mut child);
    child.discard();
    copy
}

fn kept_all(
    alloc: Global,
    copies: Vec<RawArray>,
    pass: &mut Pass,
) -> Result<Kids<RawArray>, NoMemory>
    requires { pass.old.units + cost_of_all (trees copies.items) ≤ SUPPLY }
    ensures trees { IfOk result (λ kids. values_of kids ≡ copies.items) }
    ensures units { pass.new.units ≡ pass.old.units + (if is_ok result then 0 else cost_of_all (trees copies.items)) }
    ensures blocks { pass.new.blocks ≡ pass.old.blocks }
    ensures nodes { pass.new.nodes ≡ pass.old.nodes }
{
    match Kids::from_vec(alloc, copies) {
        Ok(kids) => Ok(kids),
        Err((copies, NoMemory)) => {
            release_all(copies, pass);
            Err(NoMemory)
        }
    }
}

/// A node's own record over the same blocks, with one of each amount.
#[tactic(auto, using(crate::proofs::Shares::shares))]
fn shared_private(
    private: &mut Place<Private>,
    alloc: Global,
    pass: &mut Pass,
) -> Result<Place<Private>, NoMemory>
    requires amounts { 2 ≤ least_of (buffers_of (value_of private.old).buffers.items) }
    requires units { 1 + holds_of (buffers_of (value_of private.old).buffers.items) ≤ pass.old.units }
    ensures shared { IfOk result (λ place. buffers_of (value_of place).buffers.items ≡ map shared_buffer (buffers_of (value_of private.old).buffers.items)) }
    ensures lowered { OnOk result (buffers_of (value_of private.new).buffers.items ≡ map lowered_buffer (buffers_of (value_of private.old).buffers.items)) }
    ensures one_lower { OnErr result (OneLowerBuffers (buffers_of (value_of private.old).buffers.items) (buffers_of (value_of private.new).buffers.items)) }
    ensures units { pass.new.units + (if is_ok result then 1 + holds_of (buffers_of (value_of private.old).buffers.items) else 0) ≡ pass.old.units }
    ensures blocks { pass.new.blocks ≡ pass.old.blocks }
    ensures nodes { pass.new.nodes ≡ pass.old.nodes }
{
    let record = private.get_mut();
    match shared_views(&mut record.buffers, alloc, pass) {
        Ok(views) => match placed_private(alloc, views, pass) {
            Ok(place) => Ok(place),
            Err((views, NoMemory)) => {
                let_go_all(views, pass);
                Err(NoMemory)
            }
        },
        Err(NoMemory) => Err(NoMemory),
    }
}
