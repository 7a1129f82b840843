//! The members of a live structure, lent.
ghost use Rattle.std.specs.Prelude.{◌≡◌, ◌-◌, ◌^◌, ◌<◌, pos, length, None, Some, MatchOption};
ghost use Rattle.tree_model.specs.promise.TreeParts.{IsLive, children_of, dictionary_of, child_at};
ghost use Rattle.raw_schema.specs.promise.Members.{members_of};

use crate::schema::{RawSchema, State};

impl RawSchema {
    /// The format string's bytes ("Data type description -- format strings").
    pub fn format(&self) -> &[u8]
        requires { IsLive self.now }
        ensures { result.now ≡ (members_of self.now).format }
    {
        match &self.state {
            State::Released => unreachable!(),
            State::Live(node) => node.format.as_slice(),
        }
    }

    /// The name's bytes, or `None` for a null pointer.
    pub fn name(&self) -> Option<&[u8]>
        requires { IsLive self.now }
        ensures { MatchOption result ((members_of self.now).name ≡ None) (λ text. (members_of self.now).name ≡ Some text.now) }
    {
        match &self.state {
            State::Released => unreachable!(),
            State::Live(node) => match &node.name {
                None => None,
                Some(text) => Some(text.as_slice()),
            },
        }
    }

    /// The binary metadata's bytes as they are, or `None` for a null pointer.
    pub fn metadata(&self) -> Option<&[u8]>
        requires { IsLive self.now }
        ensures { MatchOption result ((members_of self.now).metadata ≡ None) (λ text. (members_of self.now).metadata ≡ Some text.now) }
    {
        match &self.state {
            State::Released => unreachable!(),
            State::Live(node) => match &node.metadata {
                None => None,
                Some(text) => Some(text.as_slice()),
            },
        }
    }

    /// The flags: 1 dictionary ordered, 2 nullable, 4 map keys sorted. Other bits are kept.
    pub fn flags(&self) -> i64
        requires { IsLive self.now }
        ensures { result ≡ (members_of self.now).flags }
    {
        match &self.state {
            State::Released => unreachable!(),
            State::Live(node) => node.flags,
        }
    }

    /// The number of children, released ones among them.
    #[tactic(auto, using(tree_model::proofs::Lists::tree_lists))]
    pub fn n_children(&self) -> i64
        requires { IsLive self.now }
        ensures exact { result ≡ pos (length (children_of self.now)) }
        ensures few { length (children_of self.now) < 2 ^ 32 - 1 }
    {
        match &self.state {
            State::Released => unreachable!(),
            State::Live(node) => node.children.len() as i64,
        }
    }

    /// The child at a place, counted from 0. It may be released.
    #[tactic(auto, using(tree_model::proofs::Lists::tree_lists))]
    pub fn child(&self, i: usize) -> &RawSchema
        requires { i < length (children_of self.now) }
        ensures { result.now ≡ child_at self.now i }
    {
        match &self.state {
            State::Released => unreachable!(),
            State::Live(node) => node.children.get(i),
        }
    }

    /// The schema of the dictionary's values, or `None` where the type isn't dictionary-encoded. It may be released.
    pub fn dictionary(&self) -> Option<&RawSchema>
        requires { IsLive self.now }
        ensures { MatchOption result (dictionary_of self.now ≡ None) (λ tree. dictionary_of self.now ≡ Some tree.now) }
    {
        match &self.state {
            State::Released => unreachable!(),
            State::Live(node) => match &node.dictionary {
                None => None,
                Some(tree) => Some(tree.get()),
            },
        }
    }
}
