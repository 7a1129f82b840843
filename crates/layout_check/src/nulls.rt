//! The null items of a window, and the rule on their number.
ghost use Rattle.std.specs.Prelude.{◌≡◌, None, not, ◌&&◌, ◌+◌, ◌*◌, ◌<◌, ◌==◌, pos, negsuc, length, Option};
ghost use Rattle.std.specs.Ordering.{int_eq};
ghost use Rattle.data_types.specs.promise.Packed.{bit};
ghost use Rattle.layout_check.specs.NodeView.{own_of};
ghost use Rattle.layout_rules.specs.promise.Layout.{items, is_valid, buffer_count};
ghost use Rattle.layout_rules.specs.Layout.{IsLongIfPresent};
ghost use Rattle.layout_rules.specs.promise.Rules.{fault_if, null_total, null_count_wrong, null_count_wrong_in, first_below};
ghost use Rattle.layout_rules.specs.Rules.{buffer_short};

use crate::node::WellFormedNode;
use bit_pack::{bit_at, count_clear};
use layout_rules::Numbers;

/// How many items of the window are null.
#[inline(always)]
#[tactic(auto, using(crate::proofs::NullSums::nulls))]
pub(crate) fn null_total(node: &WellFormedNode) -> u64
    requires validity { 0 < length (own_of node.now).buffers }
    requires long { IsLongIfPresent (own_of node.now) }
    ensures { result ≡ null_total (own_of node.now) (items (own_of node.now)) }
{
    match node.array.buffer(0) {
        Some(validity) => {
            let len = node.stop - node.start;
            count_clear(validity, node.start as usize, len as usize) as u64
        }
        None => 0,
    }
}

/// An item is null where its bit is clear.
pub(crate) fn is_valid(node: &WellFormedNode, i: u64) -> bool
    requires inside { i < items (own_of node.now) }
    requires buffers { 0 < length (own_of node.now).buffers }
    requires long { IsLongIfPresent (own_of node.now) }
    ensures { result ≡ is_valid (own_of node.now) i }
{
    let place = node.start + i;
    match node.array.buffer(0) {
        Some(validity) => is_set(validity, place as usize),
        None => true,
    }
}

fn is_set(validity: &[u8], place: usize) -> bool
    requires { place < 8 * length validity.now }
    ensures { result ≡ (bit validity.now place == 1) }
{
    bit_at(validity, place)
}

fn known_count_wrong(found: i64, nulls: u64) -> Option<Numbers>
    requires { ¬ (found ≡ negsuc 0) }
    ensures { result ≡ fault_if (not (int_eq found (negsuc 0)) && not (int_eq found (pos nulls))) 0 found (pos nulls) }
{
    if i128::from(found) == i128::from(nulls) {
        return None;
    }
    Some(Numbers {
        place: 0,
        left: i128::from(found),
        right: i128::from(nulls),
    })
}

/// A number of nulls that is known has to be right. Nothing is counted where it isn't known.
fn null_count_wrong(node: &WellFormedNode) -> Option<Numbers>
    requires validity { 0 < length (own_of node.now).buffers }
    requires long { IsLongIfPresent (own_of node.now) }
    ensures { result ≡ null_count_wrong (own_of node.now) }
{
    let found = node.array.null_count();
    if found == -1 {
        return None;
    }
    known_count_wrong(found, null_total(node))
}

/// The number of nulls, which is not tried where the layout has no buffer.
#[tactic(auto, using(layout_rules::proofs::Long::valid, crate::proofs::NullSums::by_layout))]
pub(crate) fn nulls_wrong(node: &WellFormedNode) -> Option<Numbers>
    requires enough { first_below (buffer_short node.now.layout (own_of node.now)) (buffer_count node.now.layout (length (own_of node.now).buffers)) ≡ None }
    ensures { result ≡ null_count_wrong_in node.now.layout (own_of node.now) }
{
    if node.buffer_count() == 0 {
        None
    } else {
        null_count_wrong(node)
    }
}
