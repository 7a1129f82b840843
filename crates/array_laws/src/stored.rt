//! The range of the numbers in a buffer.
ghost use Rattle.std.specs.Prelude.{◌*◌, ◌<◌, ◌^◌, ℕ};
ghost use Rattle.data_types.specs.promise.Packed.{number_at};
ghost use Rattle.tree_model.specs.promise.TreeParts.{IsLive};
ghost use Rattle.raw_array.specs.promise.Members.{members_of};
ghost use Rattle.layout_rules.specs.promise.Layout.{bytes};

use raw_array::RawArray;

/// A law: this many bytes make a number of this many bits.
#[inline(always)]
fn bytes_make_numbers(stored: &[u8])
    ensures { (at width : ℕ) → number_at stored.now at width < 2 ^ (8 * width) }
{}

/// The numbers in the buffer of an array's values are those of bytes.
#[inline(always)]
pub(crate) fn numbers_of_bytes(array: &RawArray)
    requires { IsLive array.now }
    ensures { (at width : ℕ) → number_at (bytes (members_of array.now) 1) at width < 2 ^ (8 * width) }
{
    if array.n_buffers() > 1 {
        match array.buffer(1) {
            Some(stored) => bytes_make_numbers(stored),
            None => (),
        }
    }
}
