//! Parts that move into a structure and out of it.
ghost use Rattle.std.specs.Prelude.{◌≡◌, ◌+◌, ◌<◌, ◌≤◌, length, IfOk, OnOk, OnErr};
ghost use Rattle.tree_model.specs.promise.TreeData.{Released};
ghost use Rattle.tree_model.specs.promise.TreeParts.{IsLive, children_of, child_at};
ghost use Rattle.tree_model.specs.Tree.{Depth, dictionary_at, with_child, without_dictionary};
ghost use Rattle.tree_model.specs.promise.TreeCost.{Nodes};
ghost use Rattle.raw_schema.specs.Members.{with_name};
ghost use Rattle.raw_schema.specs.View.{tree_of_node};

use crate::schema::{Gone, Node, RawSchema, State};
use unit_pass::Name;

impl RawSchema {
    /// The same structure under this name. Takes no memory, and no unit changes hands.
    pub fn named(self, name: Name) -> RawSchema
        requires { IsLive self }
        ensures { result ≡ with_name self name }
    {
        let RawSchema { state } = self;
        match state {
            State::Released => unreachable!(),
            State::Live(node) => RawSchema {
                state: State::Live(renamed(node, name)),
            },
        }
    }

    /// Moves a structure into the place of a child that is released ("Moving child arrays"); the given one is
    /// released then. Takes no memory, and no unit changes hands.
    #[tactic(auto, using(crate::proofs::Moved::moved))]
    pub fn put_child(&mut self, i: usize, child: &mut RawSchema)
        requires inside { i < length (children_of self.old) }
        requires vacant { child_at self.old i ≡ Released }
        requires not_deep { Depth child.old ≤ 127 }
        ensures put { self.new ≡ with_child self.old i child.old }
        ensures left { child.new ≡ Released }
        ensures places { length (children_of self.new) ≡ length (children_of self.old) }
        ensures cost { Nodes self.new ≡ Nodes self.old + Nodes child.old }
    {
        self.swap_child(i, child);
    }

    /// Exchanges a child and another structure.
    #[tactic(auto, using(crate::proofs::Moved::moved))]
    fn swap_child(&mut self, i: usize, child: &mut RawSchema)
        requires inside { i < length (children_of self.old) }
        requires not_deep { Depth child.old ≤ 127 }
        ensures put { self.new ≡ with_child self.old i child.old }
        ensures given { child.new ≡ child_at self.old i }
        ensures live { IsLive self.new }
    {
        match &mut self.state {
            State::Released => unreachable!(),
            State::Live(node) => node.children.swap(i, child),
        }
    }

    /// Takes a child out, and leaves a released one in its place.
    #[tactic(auto, using(crate::proofs::Moved::moved))]
    pub(crate) fn cut_child(&mut self, i: usize) -> RawSchema
        requires inside { i < length (children_of self.old) }
        ensures child { result ≡ child_at self.old i }
        ensures rest { self.new ≡ with_child self.old i Released }
        ensures live { IsLive self.new }
    {
        let mut hole = RawSchema::released();
        self.swap_child(i, &mut hole);
        hole
    }

    /// Takes the dictionary out, and leaves a released one in its place.
    pub(crate) fn cut_dictionary(&mut self) -> Result<RawSchema, Gone>
        requires { IsLive self.old }
        ensures tree { IfOk result (λ tree. tree ≡ dictionary_at self.old) }
        ensures tree_live { IfOk result (λ tree. IsLive tree) }
        ensures released { OnErr result (dictionary_at self.old ≡ Released) }
        ensures rest { OnOk result (self.new ≡ without_dictionary self.old) }
        ensures kept { OnErr result (self.new ≡ self.old) }
        ensures live { IsLive self.new }
    {
        match &mut self.state {
            State::Released => unreachable!(),
            State::Live(node) => match &mut node.dictionary {
                None => Err(Gone),
                Some(tree) => {
                    if tree.get().is_released() {
                        return Err(Gone);
                    }
                    let mut hole = RawSchema::released();
                    tree.swap(&mut hole);
                    Ok(hole)
                }
            },
        }
    }
}

/// The same node under another name.
fn renamed(node: Node, name: Name) -> Node
    ensures { tree_of_node result ≡ with_name (tree_of_node node) name }
{
    let Node {
        format,
        name: _,
        metadata,
        flags,
        children,
        dictionary,
        private,
    } = node;
    Node {
        format,
        name: Some(name),
        metadata,
        flags,
        children,
        dictionary,
        private,
    }
}
