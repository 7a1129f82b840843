//! The members of a live structure, lent.
ghost use Rattle.std.specs.Prelude.{◌≡◌, ◌-◌, ◌^◌, ◌<◌, pos, length, None, Some, IfSome, IsTrue, IsUtf8, MatchOption, get_or};
ghost use Rattle.tree_model.specs.promise.TreeParts.{IsLive, children_of, dictionary_of, child_at};
ghost use Rattle.raw_array.specs.promise.Members.{members_of, bytes_in};
ghost use Rattle.raw_array.specs.Members.{kind_of};

use crate::array::{RawArray, ReleaseKind, State};
use crate::views::is_text;

impl RawArray {
    /// The number of items.
    pub fn length(&self) -> i64
        requires { IsLive self.now }
        ensures { result ≡ (members_of self.now).length }
    {
        match &self.state {
            State::Released => unreachable!(),
            State::Live(node) => node.length,
        }
    }

    /// The number of null items, or -1 where it wasn't computed.
    pub fn null_count(&self) -> i64
        requires { IsLive self.now }
        ensures { result ≡ (members_of self.now).null_count }
    {
        match &self.state {
            State::Released => unreachable!(),
            State::Live(node) => node.null_count,
        }
    }

    /// The number of items of the buffers that come before the structure's first.
    pub fn offset(&self) -> i64
        requires { IsLive self.now }
        ensures { result ≡ (members_of self.now).offset }
    {
        match &self.state {
            State::Released => unreachable!(),
            State::Live(node) => node.offset,
        }
    }

    /// The number of buffers, absent ones among them.
    #[tactic(auto, using(crate::proofs::Buffers::buffer_lists))]
    pub fn n_buffers(&self) -> i64
        requires { IsLive self.now }
        ensures exact { result ≡ pos (length (members_of self.now).buffers) }
        ensures few { length (members_of self.now).buffers < 2 ^ 32 - 1 }
    {
        match &self.state {
            State::Released => unreachable!(),
            State::Live(node) => node.private.get().buffers.len() as i64,
        }
    }

    /// The bytes of the buffer at a place, counted from 0, or `None` for a null pointer. They are lent from the block.
    #[tactic(auto, using(crate::proofs::Buffers::buffer_lists))]
    pub fn buffer(&self, i: usize) -> Option<&[u8]>
        requires { i < length (members_of self.now).buffers }
        ensures { MatchOption result (get_or (members_of self.now).buffers i None ≡ None)
            (λ bytes. bytes_in (get_or (members_of self.now).buffers i None) ≡ Some bytes.now) }
    {
        match &self.state {
            State::Released => unreachable!(),
            State::Live(node) => match &node.private.get().buffers[i] {
                None => None,
                Some(view) => Some(view.bytes()),
            },
        }
    }

    /// Whether the buffer at a place is the whole of a block that is marked as text, so that its bytes are UTF-8. The mark is
    /// no member of the structure: `false` says nothing of the bytes. A share, a window and a move keep it.
    #[tactic(auto, using(crate::proofs::Buffers::buffer_lists))]
    pub fn buffer_is_text(&self, i: usize) -> bool
        requires { i < length (members_of self.now).buffers }
        ensures { IsTrue result → IfSome (bytes_in (get_or (members_of self.now).buffers i None)) IsUtf8 }
    {
        match &self.state {
            State::Released => unreachable!(),
            State::Live(node) => is_text(&node.private.get().buffers[i]),
        }
    }

    /// The release kind of a live structure, and `None` exactly where it is released.
    pub fn release_kind(&self) -> Option<ReleaseKind>
        ensures { result ≡ kind_of self.now }
    {
        match &self.state {
            State::Released => None,
            State::Live(node) => Some(node.kind),
        }
    }

    /// The number of children, released ones among them.
    #[tactic(auto, using(tree_model::proofs::Lists::tree_lists))]
    pub fn n_children(&self) -> i64
        requires { IsLive self.now }
        ensures exact { result ≡ pos (length (children_of self.now)) }
        ensures few { length (children_of self.now) < 2 ^ 32 - 1 }
    {
        match &self.state {
            State::Released => unreachable!(),
            State::Live(node) => node.children.len() as i64,
        }
    }

    /// The child at a place, counted from 0. It may be released.
    #[tactic(auto, using(tree_model::proofs::Lists::tree_lists))]
    pub fn child(&self, i: usize) -> &RawArray
        requires { i < length (children_of self.now) }
        ensures { result.now ≡ child_at self.now i }
    {
        match &self.state {
            State::Released => unreachable!(),
            State::Live(node) => node.children.get(i),
        }
    }

    /// The dictionary's values, or `None` where the array isn't dictionary-encoded. It may be released.
    pub fn dictionary(&self) -> Option<&RawArray>
        requires { IsLive self.now }
        ensures { MatchOption result (dictionary_of self.now ≡ None) (λ tree. dictionary_of self.now ≡ Some tree.now) }
    {
        match &self.state {
            State::Released => unreachable!(),
            State::Live(node) => match &node.dictionary {
                None => None,
                Some(tree) => Some(tree.get()),
            },
        }
    }
}
