//! The rules on the places and the prefixes of views, item by item.
ghost use Rattle.std.specs.Prelude.{◌≡◌, ◌==◌, is_none, ◌&&◌, not, nat_lt, None, IsTrue, true, ◌+◌, ◌*◌, ◌^◌, ◌<◌, ◌≤◌, ◌≤ℤ◌, pos, length, Option};
ghost use Rattle.data_types.specs.promise.Packed.{meant};
ghost use Rattle.layout_check.specs.NodeView.{AreReadable, own_of};
ghost use Rattle.layout_check.specs.Scans.{sized_data};
ghost use Rattle.layout_rules.specs.promise.Layout.{layout_of, items, end, bytes, is_valid, view_width, data_buffers, data_lengths};
ghost use Rattle.layout_rules.specs.Layout.{IsLongIfPresent};
ghost use Rattle.layout_rules.specs.promise.Layout.{lengths_need, data_length};
ghost use Rattle.layout_rules.specs.promise.Views.{view_number, view_length, view_buffer, view_offset, view_data, is_long};
ghost use Rattle.layout_rules.specs.Views.{view_prefix};
ghost use Rattle.layout_rules.specs.promise.Rules.{fault, fault_if, is_outside, first_below, named_outside, view_outside, prefix_wrong, views_misplaced};
ghost use Rattle.layout_rules.specs.Rules.{misplaced};
ghost use Rattle.layout_rules.specs.promise.Rules.{prefixes_wrong};
ghost use Rattle.layout_rules.specs.Within.{DataWithin, AreThere};

use crate::node::WellFormedNode;
use crate::nulls::is_valid;
use bit_pack::{offset_at, unsigned_at};
use layout_rules::{Layout, Numbers};

/// The longest item that is in its view.
pub const MOST_IN_VIEW: i64 = 12;

/// How many data buffers there are.
pub(crate) fn data_buffers(node: &WellFormedNode) -> usize
    requires buffers { 3 ≤ length (own_of node.now).buffers }
    ensures count { result ≡ data_buffers (own_of node.now) }
    ensures few { result < 2 ^ 32 }
{
    node.array.n_buffers() as usize - 3
}

/// What the lengths say of a data buffer.
pub(crate) fn data_length(node: &WellFormedNode, k: usize) -> u64
    requires buffers { 3 ≤ length (own_of node.now).buffers }
    requires inside { k < data_buffers (own_of node.now) }
    requires lengths { lengths_need (own_of node.now) ≤ length (data_lengths (own_of node.now)) }
    ensures size { result ≡ data_length (own_of node.now) k }
    ensures bound { result < 2 ^ 63 }
{
    let size = offset_at(node.bytes(data_buffers(node) + 2), k, true);
    if size < 0 { 0 } else { size as u64 }
}

/// A data buffer as far as its length goes.
pub(crate) fn sized_data<'a>(node: &WellFormedNode<'a>, k: usize) -> &'a [u8]
    requires buffers { 3 ≤ length (own_of node.now).buffers }
    requires inside { k < data_buffers (own_of node.now) }
    requires few { k < 2 ^ 63 }
    requires lengths { lengths_need (own_of node.now) ≤ length (data_lengths (own_of node.now)) }
    requires named { AreThere (own_of node.now) }
    ensures { result.now ≡ sized_data (own_of node.now) k }
{
    &node.bytes(k + 2)[..data_length(node, k) as usize]
}

/// One of the four numbers of an item's view.
fn view_word(node: &WellFormedNode, i: u64, word: usize) -> i64
    requires buffers { 3 ≤ length (own_of node.now).buffers }
    requires inside { i < items (own_of node.now) }
    requires long { end (own_of node.now) * view_width ≤ length (bytes (own_of node.now) 1) }
    requires four { word < 4 }
    ensures { result ≡ meant 4 true (view_number (own_of node.now) i word) }
{
    let place = (node.start + i) as usize;
    offset_at(node.bytes(1), place * 4 + word, false)
}

pub(crate) fn view_length(node: &WellFormedNode, i: u64) -> i64
    requires buffers { 3 ≤ length (own_of node.now).buffers }
    requires inside { i < items (own_of node.now) }
    requires long { end (own_of node.now) * view_width ≤ length (bytes (own_of node.now) 1) }
    ensures { result ≡ view_length (own_of node.now) i }
{
    view_word(node, i, 0)
}

pub(crate) fn view_buffer(node: &WellFormedNode, i: u64) -> i64
    requires buffers { 3 ≤ length (own_of node.now).buffers }
    requires inside { i < items (own_of node.now) }
    requires long { end (own_of node.now) * view_width ≤ length (bytes (own_of node.now) 1) }
    ensures { result ≡ view_buffer (own_of node.now) i }
{
    view_word(node, i, 2)
}

pub(crate) fn view_offset(node: &WellFormedNode, i: u64) -> i64
    requires buffers { 3 ≤ length (own_of node.now).buffers }
    requires inside { i < items (own_of node.now) }
    requires long { end (own_of node.now) * view_width ≤ length (bytes (own_of node.now) 1) }
    ensures { result ≡ view_offset (own_of node.now) i }
{
    view_word(node, i, 3)
}

fn fault(i: u64, left: i128, right: i128) -> Option<Numbers>
    ensures { result ≡ fault i left right }
{
    Some(Numbers {
        place: i,
        left,
        right,
    })
}

/// A number that is no place of this many.
fn is_outside(total: usize, index: i64) -> bool
    requires { total < 2 ^ 32 }
    ensures { result ≡ is_outside (pos total) index }
{
    index < 0 || index >= total as i64
}

/// Data that end behind this many bytes.
fn ends_behind(i: u64, size: u64, to: u64) -> Option<Numbers>
    ensures { result ≡ fault_if (nat_lt size to) i (pos to) (pos size) }
{
    if size < to {
        fault(i, i128::from(to), i128::from(size))
    } else {
        None
    }
}

/// A long view that names no data.
#[tactic(auto, using(layout_rules::proofs::Named::named))]
fn named_outside(node: &WellFormedNode, i: u64) -> Option<Numbers>
    requires buffers { 3 ≤ length (own_of node.now).buffers }
    requires inside { i < items (own_of node.now) }
    requires long { end (own_of node.now) * view_width ≤ length (bytes (own_of node.now) 1) }
    requires lengths { lengths_need (own_of node.now) ≤ length (data_lengths (own_of node.now)) }
    requires size { pos 0 ≤ℤ view_length (own_of node.now) i }
    ensures { result ≡ named_outside (own_of node.now) i }
{
    let count = data_buffers(node);
    let buffer = view_buffer(node, i);
    if is_outside(count, buffer) {
        return fault(i, i128::from(buffer), count as i128);
    }
    let from = view_offset(node, i);
    if from < 0 {
        return fault(i, i128::from(from), 0);
    }
    let to = from as u64 + view_length(node, i) as u64;
    ends_behind(i, data_length(node, buffer as usize), to)
}

/// A view with a length below 0, or a long one that names no data.
fn view_outside(node: &WellFormedNode, i: u64) -> Option<Numbers>
    requires buffers { 3 ≤ length (own_of node.now).buffers }
    requires inside { i < items (own_of node.now) }
    requires long { end (own_of node.now) * view_width ≤ length (bytes (own_of node.now) 1) }
    requires lengths { lengths_need (own_of node.now) ≤ length (data_lengths (own_of node.now)) }
    ensures { result ≡ view_outside (own_of node.now) i }
{
    let size = view_length(node, i);
    if size < 0 {
        fault(i, i128::from(size), 0)
    } else if size > MOST_IN_VIEW {
        named_outside(node, i)
    } else {
        None
    }
}

fn misplaced(node: &WellFormedNode, i: u64) -> Option<Numbers>
    requires buffers { 3 ≤ length (own_of node.now).buffers }
    requires validity { IsLongIfPresent (own_of node.now) }
    requires inside { i < items (own_of node.now) }
    requires long { end (own_of node.now) * view_width ≤ length (bytes (own_of node.now) 1) }
    requires lengths { lengths_need (own_of node.now) ≤ length (data_lengths (own_of node.now)) }
    ensures { result ≡ misplaced (own_of node.now) i }
{
    if is_valid(node, i) {
        view_outside(node, i)
    } else {
        None
    }
}

/// The first valid view that names no data.
pub(crate) fn first_misplaced(node: &WellFormedNode) -> Option<Numbers>
    requires buffers { 3 ≤ length (own_of node.now).buffers }
    requires validity { IsLongIfPresent (own_of node.now) }
    requires long { end (own_of node.now) * view_width ≤ length (bytes (own_of node.now) 1) }
    requires lengths { lengths_need (own_of node.now) ≤ length (data_lengths (own_of node.now)) }
    ensures { result ≡ first_below (misplaced (own_of node.now)) (items (own_of node.now)) }
{
    for i in 0..node.len() {
        if let Some(numbers) = misplaced(node, i) {
            return Some(numbers);
        }
    }
    None
}

/// The bytes of an item.
pub(crate) fn view_data<'a>(node: &WellFormedNode<'a>, i: u64) -> &'a [u8]
    requires buffers { 3 ≤ length (own_of node.now).buffers }
    requires inside { i < items (own_of node.now) }
    requires long { end (own_of node.now) * view_width ≤ length (bytes (own_of node.now) 1) }
    requires within { DataWithin (own_of node.now) i }
    ensures bytes { result.now ≡ view_data (own_of node.now) i }
    ensures size { pos (length result.now) ≡ view_length (own_of node.now) i }
{
    let size = view_length(node, i);
    if size > MOST_IN_VIEW {
        let from = view_offset(node, i) as usize;
        let place = view_buffer(node, i) as usize + 2;
        &node.bytes(place)[from..from + size as usize]
    } else {
        let views = node.bytes(1);
        let from = (node.start + i) as usize * 16 + 4;
        &views[from..from + size as usize]
    }
}

fn view_prefix(node: &WellFormedNode, i: u64) -> u64
    requires buffers { 3 ≤ length (own_of node.now).buffers }
    requires inside { i < items (own_of node.now) }
    requires long { end (own_of node.now) * view_width ≤ length (bytes (own_of node.now) 1) }
    ensures { result ≡ view_prefix (own_of node.now) i }
{
    let views = node.bytes(1);
    let place = (node.start + i) as usize;
    unsigned_at(views, (place * 4 + 1) * 4, 4)
}

fn other_prefix(i: u64, prefix: u64, begin: u64) -> Option<Numbers>
    ensures { result ≡ fault_if (not (prefix == begin)) i (pos prefix) (pos begin) }
{
    if prefix == begin {
        None
    } else {
        fault(i, i128::from(prefix), i128::from(begin))
    }
}

fn prefix_wrong(node: &WellFormedNode, i: u64) -> Option<Numbers>
    requires buffers { 3 ≤ length (own_of node.now).buffers }
    requires inside { i < items (own_of node.now) }
    requires long { end (own_of node.now) * view_width ≤ length (bytes (own_of node.now) 1) }
    requires validity { IsLongIfPresent (own_of node.now) }
    requires within { IsTrue (is_valid (own_of node.now) i) → DataWithin (own_of node.now) i }
    ensures { result ≡ prefix_wrong (own_of node.now) i }
{
    if is_valid(node, i) && view_length(node, i) > MOST_IN_VIEW {
        let begin = unsigned_at(view_data(node, i), 0, 4);
        other_prefix(i, view_prefix(node, i), begin)
    } else {
        None
    }
}

/// The first valid long view whose prefix isn't how its data begin, once each valid view names some.
#[tactic(auto, using(layout_rules::proofs::Placed::placed))]
pub(crate) fn first_wrong_prefix(node: &WellFormedNode) -> Option<Numbers>
    requires buffers { 3 ≤ length (own_of node.now).buffers }
    requires validity { IsLongIfPresent (own_of node.now) }
    requires long { end (own_of node.now) * view_width ≤ length (bytes (own_of node.now) 1) }
    requires named { AreThere (own_of node.now) }
    requires placed { first_below (misplaced (own_of node.now)) (items (own_of node.now)) ≡ None }
    ensures { result ≡ first_below (prefix_wrong (own_of node.now)) (items (own_of node.now)) }
{
    for i in 0..node.len() {
        if let Some(numbers) = prefix_wrong(node, i) {
            return Some(numbers);
        }
    }
    None
}

/// Whether each valid view names data. The place of a fault gets its room here, and so not at each node that has no views.
#[inline(never)]
fn all_are_placed(node: &WellFormedNode) -> bool
    requires buffers { 3 ≤ length (own_of node.now).buffers }
    requires validity { IsLongIfPresent (own_of node.now) }
    requires long { end (own_of node.now) * view_width ≤ length (bytes (own_of node.now) 1) }
    requires lengths { lengths_need (own_of node.now) ≤ length (data_lengths (own_of node.now)) }
    ensures { result ≡ is_none (first_below (misplaced (own_of node.now)) (items (own_of node.now))) }
{
    first_misplaced(node).is_none()
}

/// Whether each valid long view has the prefix of its data, once each valid view names some.
#[inline(never)]
fn all_prefixes_pass(node: &WellFormedNode) -> bool
    requires buffers { 3 ≤ length (own_of node.now).buffers }
    requires validity { IsLongIfPresent (own_of node.now) }
    requires long { end (own_of node.now) * view_width ≤ length (bytes (own_of node.now) 1) }
    requires named { AreThere (own_of node.now) }
    requires placed { first_below (misplaced (own_of node.now)) (items (own_of node.now)) ≡ None }
    ensures { result ≡ is_none (first_below (prefix_wrong (own_of node.now)) (items (own_of node.now))) }
{
    first_wrong_prefix(node).is_none()
}

/// Whether views name data and have its prefixes, once the buffers are long enough.
#[inline(always)]
#[tactic(auto, using(layout_rules::proofs::Long::long))]
pub(crate) fn views_pass(node: &WellFormedNode) -> bool
    requires buffers { AreReadable node.now.layout (own_of node.now) }
    ensures exact { result ≡ (is_none (views_misplaced node.now.layout (own_of node.now)) && is_none (prefixes_wrong node.now.layout (own_of node.now))) }
    ensures placed { IsTrue result → views_misplaced node.now.layout (own_of node.now) ≡ None }
{
    match node.layout {
        Layout::Views => all_are_placed(node) && all_prefixes_pass(node),
        _ => true,
    }
}

/// The rule on the places of views, once the buffers are long enough.
#[tactic(auto, using(layout_rules::proofs::Long::long))]
pub(crate) fn views_misplaced(node: &WellFormedNode) -> Option<Numbers>
    requires buffers { AreReadable node.now.layout (own_of node.now) }
    ensures { result ≡ views_misplaced node.now.layout (own_of node.now) }
{
    match node.layout {
        Layout::Views => first_misplaced(node),
        _ => None,
    }
}

/// The rule on prefixes, once each valid view names data.
#[tactic(auto, using(layout_rules::proofs::Long::long))]
pub(crate) fn prefixes_wrong(node: &WellFormedNode) -> Option<Numbers>
    requires buffers { AreReadable node.now.layout (own_of node.now) }
    requires placed { views_misplaced node.now.layout (own_of node.now) ≡ None }
    ensures { result ≡ prefixes_wrong node.now.layout (own_of node.now) }
{
    match node.layout {
        Layout::Views => first_wrong_prefix(node),
        _ => None,
    }
}
