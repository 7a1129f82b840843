//! How many items an array needs of its children, and the first child that has fewer.
ghost use Rattle.std.specs.Prelude.{◌≡◌, None, ◌^◌, ◌<◌, length, Option};
ghost use Rattle.tree_model.specs.promise.TreeParts.{IsLive, children_of};
ghost use Rattle.raw_array.specs.promise.Members.{ArrayTree};
ghost use Rattle.layout_check.specs.NodeView.{AreReadable, own_of};
ghost use Rattle.layout_rules.specs.promise.Layout.{buffer_count};
ghost use Rattle.layout_rules.specs.promise.Rules.{items_need, short_child, live_length, child_short};

use crate::buffers::{last_offset, wide_need};
use crate::node::WellFormedNode;
use layout_rules::{Layout, Numbers};
use raw_array::RawArray;

/// How many items an array needs of each child.
#[tactic(auto, using(layout_rules::proofs::Long::long))]
fn items_need(node: &WellFormedNode) -> u128
    requires buffers { AreReadable node.now.layout (own_of node.now) }
    ensures need { result ≡ items_need node.now.layout (own_of node.now) }
    ensures bound { result < 2 ^ 97 }
{
    match node.layout {
        Layout::ListOffsets { wide } => last_offset(wide, node),
        Layout::FixedItems { size } => wide_need(node.stop, size),
        Layout::ByChildren => u128::from(node.stop),
        _ => 0,
    }
}

fn short_child(needed: u128, k: usize, child: &RawArray) -> Option<Numbers>
    requires { needed < 2 ^ 97 }
    ensures { result ≡ short_child needed k (live_length child.now) }
{
    if child.is_released() {
        return None;
    }
    let found = i128::from(child.length());
    if found < needed as i128 {
        Some(Numbers {
            place: k as u64,
            left: found,
            right: needed as i128,
        })
    } else {
        None
    }
}

/// The first live child that has fewer items than are needed: at the child, its length and the need.
#[tactic(auto, using(crate::proofs::ChildSteps::steps))]
pub fn first_short(needed: u128, array: &RawArray) -> Option<Numbers>
    requires live { IsLive array.now }
    requires bound { needed < 2 ^ 97 }
    ensures { result ≡ child_short needed 0 (children_of array.now) }
{
    for k in 0..array.n_children() as usize {
        if let Some(numbers) = short_child(needed, k, array.child(k)) {
            return Some(numbers);
        }
    }
    None
}

/// The first child that is too short.
pub(crate) fn children_short(node: &WellFormedNode) -> Option<Numbers>
    requires buffers { AreReadable node.now.layout (own_of node.now) }
    ensures { result ≡ child_short (items_need node.now.layout (own_of node.now)) 0 (children_of node.now.array.now) }
{
    first_short(items_need(node), node.array)
}
