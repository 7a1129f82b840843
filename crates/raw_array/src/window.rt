//! A part of the items, in place.
ghost use Rattle.std.specs.Prelude.{◌≡◌, ◌-◌, ◌^◌, pos, ◌≤ℤ◌, ◌+ℤ◌};
ghost use Rattle.raw_array.specs.Members.{nulls_in_part};
ghost use Rattle.raw_array.specs.Windows.{Window, FitsWindow};

use crate::array::{RawArray, State};

impl RawArray {
    /// Narrows the structure to `len` of its items, from the item `off` on: the offset and the length say which they are
    /// ("The ArrowArray structure", offset). A null count other than 0 is not known then, and is -1. The buffers and the
    /// children stay as they are. Takes no memory.
    #[tactic(auto, using(crate::proofs::Windows::windows))]
    pub fn window(&mut self, off: i64, len: i64)
        requires off { pos 0 ≤ℤ off }
        requires len { pos 0 ≤ℤ len }
        requires fits { FitsWindow self.old off len }
        ensures { self.new ≡ Window self.old off len }
    {
        match &mut self.state {
            State::Released => unreachable!(),
            State::Live(node) => {
                if off == 0 && len == node.length {
                    return;
                }
                node.offset = moved_offset(node.offset(), off, len);
                node.length = len;
                node.null_count = nulls_within(node.null_count());
            }
        }
    }
}

/// The null count of a part of an array.
fn nulls_within(null_count: i64) -> i64
    ensures { result ≡ nulls_in_part null_count }
{
    if null_count == 0 { 0 } else { -1 }
}

/// The offset of the part from the item `off` on, which has `len` items.
fn moved_offset(offset: i64, off: i64, len: i64) -> i64
    requires off { pos 0 ≤ℤ off }
    requires len { pos 0 ≤ℤ len }
    requires fits { ((offset +ℤ off) +ℤ len) ≤ℤ pos (2 ^ 63 - 1) }
    ensures { result ≡ offset +ℤ off }
{
    offset + off
}
