//! The release of a structure and of all that it still owns.
ghost use Rattle.std.specs.Prelude.{◌≡◌, ◌+◌, ◌≤◌, ◌↔◌};
ghost use Rattle.tree_model.specs.promise.TreeData.{Released, trees};
ghost use Rattle.tree_model.specs.promise.TreeParts.{IsLive};
ghost use Rattle.raw_place.specs.Kept.{values_of};
ghost use Rattle.raw_array.specs.promise.Members.{Cost};
ghost use Rattle.raw_array.specs.Members.{cost_of_all};

use crate::array::{Acted, Node, RawArray, State};
use crate::private_data::end_private;
use raw_place::Kids;
use unit_pass::{Pass, SUPPLY};

impl RawArray {
    /// Releases a live structure with the children and the dictionary that it still owns: each live node gives its unit
    /// back and lets its holds go, once ("Memory management", "Release callback semantics -- for producers"). A released
    /// structure stays as it is, and the answer is `Was`. Takes no memory.
    pub fn release(&mut self, pass: &mut Pass) -> Acted
        requires { pass.old.units + Cost self.old ≤ SUPPLY }
        ensures acted { result ≡ Acted.Acted ↔ IsLive self.old }
        ensures released { self.new ≡ Released }
        ensures units { pass.new.units ≡ pass.old.units + Cost self.old }
        ensures blocks { pass.new.blocks ≡ pass.old.blocks }
        ensures nodes { pass.new.nodes ≡ pass.old.nodes }
    {
        let acted = match &self.state {
            State::Released => Acted::Was,
            State::Live(_) => Acted::Acted,
        };
        self.move_out().end(pass);
        acted
    }

    /// Releases the structure with all that it still owns, and gives it up: each live node gives its unit back and lets its holds go,
    /// once. A released structure has nothing to give. Takes no memory.
    #[cycle(ending)]
    #[tactic(auto, using(tree_model::proofs::Measures::measures))]
    pub fn end(self, pass: &mut Pass)
        requires { pass.old.units + Cost self ≤ SUPPLY }
        ensures units { pass.new.units ≡ pass.old.units + Cost self }
        ensures blocks { pass.new.blocks ≡ pass.old.blocks }
        ensures nodes { pass.new.nodes ≡ pass.old.nodes }
    {
        let RawArray { state } = self;
        match state {
            State::Released => {}
            State::Live(node) => {
                let Node {
                    length: _,
                    null_count: _,
                    offset: _,
                    kind: _,
                    children,
                    dictionary,
                    private,
                } = node;
                end_private(private, pass);
                end_all(children, pass);
                if let Some(tree) = dictionary {
                    tree.take().end(pass);
                }
            }
        }
    }
}

#[cycle(ending)]
#[tactic(auto, using(tree_model::proofs::Measures::measures))]
pub(crate) fn end_all(mut children: Kids<RawArray>, pass: &mut Pass)
    requires { pass.old.units + cost_of_all (trees (values_of children)) ≤ SUPPLY }
    ensures units { pass.new.units ≡ pass.old.units + cost_of_all (trees (values_of children)) }
    ensures blocks { pass.new.blocks ≡ pass.old.blocks }
    ensures nodes { pass.new.nodes ≡ pass.old.nodes }
{
    while let Some(child) = children.pop() {
        child.end(pass);
    }
    children.destroy_empty();
}

/// Releases all structures of a list, which have no parent, and gives them up: [`RawArray::end`] for each of them.
#[tactic(auto, using(tree_model::proofs::Measures::measures))]
pub fn release_all(mut children: Vec<RawArray>, pass: &mut Pass)
    requires { pass.old.units + cost_of_all (trees children.items) ≤ SUPPLY }
    ensures units { pass.new.units ≡ pass.old.units + cost_of_all (trees children.items) }
    ensures blocks { pass.new.blocks ≡ pass.old.blocks }
    ensures nodes { pass.new.nodes ≡ pass.old.nodes }
{
    while let Some(child) = children.pop() {
        child.end(pass);
    }
    children.destroy_empty();
}
