//! A second tree with the same members.
ghost use Rattle.std.specs.Prelude.{◌≡◌, ◌+◌, ◌≤◌, if◌then◌else◌, is_ok, IfOk};
ghost use Rattle.tree_model.specs.promise.TreeParts.{IsLive};
ghost use Rattle.tree_model.specs.promise.TreeData.{trees, maybe_tree};
ghost use Rattle.raw_place.specs.Kept.{value_if, values_of};
ghost use Rattle.tree_model.specs.promise.TreeCost.{Nodes};
ghost use Rattle.raw_schema.specs.Members.{nodes_of_all, nodes_of_maybe};
ghost use Rattle.raw_schema.specs.View.{bytes_of, tree_of_node};

use crate::private_data::{give_back_placed, placed_unit};
use crate::release::{end_all, release_all};
use crate::schema::{Node, RawSchema, State};
use raw_place::{Kids, Place};
use std::alloc::Global;
use unit_pass::{Name, NoMemory, Pass, SUPPLY};

impl RawSchema {
    /// A second live tree with the same members, whose texts but the names are copies. Each of its nodes draws a unit, and none is
    /// counted. Where memory runs out every unit that was drawn on the way is back.
    pub fn share(&self, alloc: Global, pass: &mut Pass) -> Result<RawSchema, NoMemory>
        requires live { IsLive self.now }
        requires units { Nodes self.now ≤ pass.old.units }
        ensures tree { IfOk result (λ tree. tree ≡ self.now) }
        ensures units { pass.new.units + (if is_ok result then Nodes self.now else 0) ≡ pass.old.units }
        ensures blocks { pass.new.blocks ≡ pass.old.blocks }
        ensures nodes { pass.new.nodes ≡ pass.old.nodes }
    {
        self.copied(alloc, pass)
    }

    /// A copy of a tree, which may be released.
    #[cycle(copied)]
    #[tactic(auto, using(tree_model::proofs::Measures::measures))]
    fn copied(&self, alloc: Global, pass: &mut Pass) -> Result<RawSchema, NoMemory>
        requires { Nodes self.now ≤ pass.old.units }
        ensures tree { IfOk result (λ tree. tree ≡ self.now) }
        ensures units { pass.new.units + (if is_ok result then Nodes self.now else 0) ≡ pass.old.units }
        ensures blocks { pass.new.blocks ≡ pass.old.blocks }
        ensures nodes { pass.new.nodes ≡ pass.old.nodes }
    {
        match &self.state {
            State::Released => Ok(RawSchema::released()),
            State::Live(node) => match copied_node(node, alloc, pass) {
                Ok(node) => Ok(RawSchema {
                    state: State::Live(node),
                }),
                Err(NoMemory) => Err(NoMemory),
            },
        }
    }
}

fn copied_bytes(bytes: &Vec<u8>) -> Result<Vec<u8>, NoMemory>
    ensures { IfOk result (λ copy. copy.items ≡ bytes.now.items) }
{
    match bytes.clone() {
        Ok(copy) => Ok(copy),
        Err(_) => Err(NoMemory),
    }
}

fn copied_text(text: &Option<Vec<u8>>) -> Result<Option<Vec<u8>>, NoMemory>
    ensures { IfOk result (λ copy. bytes_of copy ≡ bytes_of text.now) }
{
    match text {
        None => Ok(None),
        Some(bytes) => Ok(Some(copied_bytes(bytes)?)),
    }
}

fn copied_name(name: &Option<Name>, alloc: Global) -> Result<Option<Name>, NoMemory>
    ensures { IfOk result (λ copy. copy ≡ name.now) }
{
    match name {
        None => Ok(None),
        Some(name) => Ok(Some(name.share(alloc)?)),
    }
}

#[cycle(copied)]
#[tactic(auto, using(tree_model::proofs::Measures::measures))]
fn copied_node(node: &Node, alloc: Global, pass: &mut Pass) -> Result<Node, NoMemory>
    requires { Nodes (tree_of_node node.now) ≤ pass.old.units }
    ensures tree { IfOk result (λ copy. tree_of_node copy ≡ tree_of_node node.now) }
    ensures units { pass.new.units + (if is_ok result then Nodes (tree_of_node node.now) else 0) ≡ pass.old.units }
    ensures blocks { pass.new.blocks ≡ pass.old.blocks }
    ensures nodes { pass.new.nodes ≡ pass.old.nodes }
{
    let format = copied_bytes(&node.format)?;
    let name = copied_name(&node.name, alloc)?;
    let metadata = copied_text(&node.metadata)?;
    let private = placed_unit(alloc, pass)?;
    let children = match copied_all(&node.children, alloc, pass) {
        Ok(children) => children,
        Err(NoMemory) => {
            give_back_placed(private, pass);
            return Err(NoMemory);
        }
    };
    let dictionary = match copied_behind(&node.dictionary, alloc, pass) {
        Ok(dictionary) => dictionary,
        Err(NoMemory) => {
            end_all(children, pass);
            give_back_placed(private, pass);
            return Err(NoMemory);
        }
    };
    Ok(Node {
        format,
        name,
        metadata,
        flags: node.flags(),
        children,
        dictionary,
        private,
    })
}

#[cycle(copied)]
#[tactic(auto, using(tree_model::proofs::Measures::measures))]
fn copied_behind(
    tree: &Option<Place<RawSchema>>,
    alloc: Global,
    pass: &mut Pass,
) -> Result<Option<Place<RawSchema>>, NoMemory>
    requires { nodes_of_maybe (maybe_tree (value_if tree.now)) ≤ pass.old.units }
    ensures tree { IfOk result (λ copy. value_if copy ≡ value_if tree.now) }
    ensures units { pass.new.units + (if is_ok result then nodes_of_maybe (maybe_tree (value_if tree.now)) else 0) ≡ pass.old.units }
    ensures blocks { pass.new.blocks ≡ pass.old.blocks }
    ensures nodes { pass.new.nodes ≡ pass.old.nodes }
{
    let Some(tree) = tree else {
        return Ok(None);
    };
    let copy = tree.get().copied(alloc, pass)?;
    match Place::put(alloc, copy) {
        Ok(place) => Ok(Some(place)),
        Err((copy, NoMemory)) => {
            copy.end(pass);
            Err(NoMemory)
        }
    }
}

#[cycle(copied)]
#[tactic(auto, using(tree_model::proofs::Measures::measures))]
fn copied_all(
    children: &Kids<RawSchema>,
    alloc: Global,
    pass: &mut Pass,
) -> Result<Kids<RawSchema>, NoMemory>
    requires { nodes_of_all (trees (values_of children.now)) ≤ pass.old.units }
    ensures trees { IfOk result (λ copies. values_of copies ≡ values_of children.now) }
    ensures units { pass.new.units + (if is_ok result then nodes_of_all (trees (values_of children.now)) else 0) ≡ pass.old.units }
    ensures blocks { pass.new.blocks ≡ pass.old.blocks }
    ensures nodes { pass.new.nodes ≡ pass.old.nodes }
{
    let mut copies = Vec::new(alloc);
    for i in 0..children.len() {
        let Ok(copy) = children.get(i).copied(alloc, pass) else {
            release_all(copies, pass);
            return Err(NoMemory);
        };
        if let Err(failed) = copies.push(copy) {
            failed.value.end(pass);
            release_all(copies, pass);
            return Err(NoMemory);
        }
    }
    kept_all(alloc, copies, pass)
}

fn kept_all(
    alloc: Global,
    copies: Vec<RawSchema>,
    pass: &mut Pass,
) -> Result<Kids<RawSchema>, NoMemory>
    requires { pass.old.units + nodes_of_all (trees copies.items) ≤ SUPPLY }
    ensures trees { IfOk result (λ kids. values_of kids ≡ copies.items) }
    ensures units { pass.new.units ≡ pass.old.units + (if is_ok result then 0 else nodes_of_all (trees copies.items)) }
    ensures blocks { pass.new.blocks ≡ pass.old.blocks }
    ensures nodes { pass.new.nodes ≡ pass.old.nodes }
{
    match Kids::from_vec(alloc, copies) {
        Ok(kids) => Ok(kids),
        Err((copies, NoMemory)) => {
            release_all(copies, pass);
            Err(NoMemory)
        }
    }
}
