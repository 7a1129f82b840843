//! A live array whose numbers and parts are counted: what the rules behind the first five are tried on.
ghost use Rattle.std.specs.Prelude.{◌≡◌, ◌≤ℤ◌, pos, length};
ghost use Rattle.tree_model.specs.promise.TreeParts.{IsLive};
ghost use Rattle.raw_array.specs.promise.Members.{ArrayTree, members_of};
ghost use Rattle.layout_rules.specs.promise.Layout.{first, end, buffer_count};
ghost use Rattle.layout_check.specs.Formed.{IsLive-prop};

use layout_rules::Layout;
use raw_array::RawArray;

/// A live array of a layout: its length and its offset aren't below 0, and it has as many buffers as the layout wants.
/// Where its window begins and ends is computed once.
#[derive(Clone, Copy)]
pub struct WellFormedNode<'a> {
    pub array: &'a RawArray,
    pub layout: Layout,
    /// The place of the window's first item.
    pub start: u64,
    /// The place behind the window's last item.
    pub stop: u64,
    ghost live: { IsLive array.now } by { IsLive-prop array.now },
    ghost starts: { start ≡ first (members_of array.now) },
    ghost stops: { stop ≡ end (members_of array.now) },
    ghost counted: { length (members_of array.now).buffers ≡ buffer_count layout (length (members_of array.now).buffers) },
}

impl<'a> WellFormedNode<'a> {
    ghost use Rattle.std.specs.Prelude.{◌<◌};
    ghost use Rattle.layout_rules.specs.promise.Layout.{items, bytes};
    ghost use Rattle.layout_check.specs.NodeView.{own_of};

    /// The node of an array that the first rules hold of.
    pub fn of(layout: Layout, array: &'a RawArray) -> WellFormedNode<'a>
        requires live { IsLive array.now }
        requires length { pos 0 ≤ℤ (members_of array.now).length }
        requires offset { pos 0 ≤ℤ (members_of array.now).offset }
        requires count { length (members_of array.now).buffers ≡ buffer_count layout (length (members_of array.now).buffers) }
        ensures array { result.array.now ≡ array.now }
        ensures layout { result.layout ≡ layout }
    {
        let start = array.offset() as u64;
        WellFormedNode {
            array,
            layout,
            start,
            stop: start + array.length() as u64,
        }
    }

    /// The number of the window's items.
    pub fn len(&self) -> u64
        ensures { result ≡ items (own_of self.now) }
    {
        self.stop - self.start
    }

    /// The number of buffers, absent ones among them: as many as the layout wants.
    pub fn buffer_count(&self) -> usize
        ensures { result ≡ buffer_count self.now.layout (length (own_of self.now).buffers) }
    {
        self.array.n_buffers() as usize
    }

    /// A buffer's bytes, and none where it is absent.
    pub fn bytes(&self, k: usize) -> &'a [u8]
        requires { k < length (own_of self.now).buffers }
        ensures { result.now ≡ bytes (own_of self.now) k }
    {
        match self.array.buffer(k) {
            Some(bytes) => bytes,
            None => &[],
        }
    }
}
