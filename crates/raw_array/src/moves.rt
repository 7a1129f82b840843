//! Parts that move into a structure and out of it.
ghost use Rattle.std.specs.Prelude.{◌≡◌, ◌+◌, ◌<◌, ◌≤◌, length, IfOk, OnOk, OnErr};
ghost use Rattle.tree_model.specs.promise.TreeData.{Released};
ghost use Rattle.tree_model.specs.promise.TreeParts.{IsLive, children_of, child_at};
ghost use Rattle.tree_model.specs.Tree.{Depth, dictionary_at, with_child, without_dictionary};
ghost use Rattle.raw_array.specs.promise.Members.{Cost};

use crate::array::{Gone, RawArray, State};

impl RawArray {
    /// Moves a structure into the place of a child that is released ("Moving child arrays"); the given one is
    /// released then. Takes no memory, and no unit changes hands.
    #[tactic(auto, using(crate::proofs::Moved::moved))]
    pub fn put_child(&mut self, i: usize, child: &mut RawArray)
        requires inside { i < length (children_of self.old) }
        requires vacant { child_at self.old i ≡ Released }
        requires not_deep { Depth child.old ≤ 127 }
        ensures put { self.new ≡ with_child self.old i child.old }
        ensures left { child.new ≡ Released }
        ensures places { length (children_of self.new) ≡ length (children_of self.old) }
        ensures cost { Cost self.new ≡ Cost self.old + Cost child.old }
    {
        self.swap_child(i, child);
    }

    /// Exchanges a child and another structure.
    #[tactic(auto, using(crate::proofs::Moved::moved))]
    fn swap_child(&mut self, i: usize, child: &mut RawArray)
        requires inside { i < length (children_of self.old) }
        requires not_deep { Depth child.old ≤ 127 }
        ensures put { self.new ≡ with_child self.old i child.old }
        ensures given { child.new ≡ child_at self.old i }
        ensures live { IsLive self.new }
    {
        match &mut self.state {
            State::Released => unreachable!(),
            State::Live(node) => node.children.swap(i, child),
        }
    }

    /// Takes a child out, and leaves a released one in its place.
    #[tactic(auto, using(crate::proofs::Moved::moved))]
    pub(crate) fn cut_child(&mut self, i: usize) -> RawArray
        requires inside { i < length (children_of self.old) }
        ensures child { result ≡ child_at self.old i }
        ensures rest { self.new ≡ with_child self.old i Released }
        ensures live { IsLive self.new }
    {
        let mut hole = RawArray::released();
        self.swap_child(i, &mut hole);
        hole
    }

    /// Takes the dictionary out, and leaves a released one in its place.
    pub(crate) fn cut_dictionary(&mut self) -> Result<RawArray, Gone>
        requires { IsLive self.old }
        ensures tree { IfOk result (λ tree. tree ≡ dictionary_at self.old) }
        ensures tree_live { IfOk result (λ tree. IsLive tree) }
        ensures released { OnErr result (dictionary_at self.old ≡ Released) }
        ensures rest { OnOk result (self.new ≡ without_dictionary self.old) }
        ensures kept { OnErr result (self.new ≡ self.old) }
        ensures live { IsLive self.new }
    {
        match &mut self.state {
            State::Released => unreachable!(),
            State::Live(node) => match &mut node.dictionary {
                None => Err(Gone),
                Some(tree) => {
                    if tree.get().is_released() {
                        return Err(Gone);
                    }
                    let mut hole = RawArray::released();
                    tree.swap(&mut hole);
                    Ok(hole)
                }
            },
        }
    }
}
