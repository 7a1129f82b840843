//! What an array needs of its buffers, and whether it has that: buffers that are there, long enough, and with offsets
//! that rise.
ghost use Rattle.std.specs.Prelude.{◌≡◌, ◌↔◌, None, is_none, IsTrue, not, ◌&&◌, is_some, nat_lt, if◌then◌else◌, ◌==◌, int_lt, ◌+◌, ◌*◌, ◌^◌, ◌<◌, ◌≤◌, pos, length, Option};
ghost use Rattle.data_types.specs.promise.Packed.{offset_width};
ghost use Rattle.tree_model.specs.promise.TreeParts.{IsLive};
ghost use Rattle.raw_array.specs.promise.Members.{ArrayTree, members_of};
ghost use Rattle.layout_check.specs.NodeView.{AreReadable, own_of};
ghost use Rattle.layout_rules.specs.promise.Layout.{natural, items, offset, end, bytes, offsets_need, data_need, need, buffer_count};
ghost use Rattle.layout_rules.specs.Layout.{named_need};
ghost use Rattle.layout_rules.specs.promise.Rules.{missing, too_short, offsets_fall_if, is_behind_offsets, buffer_absent, fault_if, offsets_fall};
ghost use Rattle.layout_rules.specs.Rules.{offset_falls, buffer_short};
ghost use Rattle.layout_rules.specs.promise.Rules.{first_below};

use crate::node::WellFormedNode;
use crate::scans::offsets_rise;
use crate::views::{data_buffers, data_length};
use bit_pack::offset_at;
use layout_rules::{Layout, Numbers};
use raw_array::RawArray;

fn offsets_need(wide: bool, end: u128) -> u128
    requires { end < 2 ^ 64 }
    ensures need { result ≡ offsets_need wide end }
    ensures bound { result < 2 ^ 68 }
{
    if end == 0 {
        0
    } else if wide {
        (end + 1) * 8
    } else {
        (end + 1) * 4
    }
}

fn data_need(wide: bool, node: &WellFormedNode) -> u128
    requires offsets { 1 < length (own_of node.now).buffers }
    ensures need { result ≡ data_need wide (own_of node.now) }
    ensures bound { result < 2 ^ 68 }
{
    let end = node.stop;
    let offsets = node.bytes(1);
    if end == 0 {
        return 0;
    }
    if (offsets.len() as u128) < offsets_need(wide, u128::from(end)) {
        return 0;
    }
    let offset = offset_at(offsets, end as usize, wide);
    if offset < 0 { 0 } else { offset as u128 }
}

pub(crate) fn wide_need(end: u64, width: u32) -> u128
    ensures need { result ≡ end * width }
    ensures bound { result < 2 ^ 97 }
{
    u128::from(end) * u128::from(width)
}

/// What a data buffer of views needs, counted from the first, and the lengths behind the last.
fn named_need(node: &WellFormedNode, k: usize) -> u128
    requires buffers { 3 ≤ length (own_of node.now).buffers }
    ensures need { result ≡ named_need (own_of node.now) k }
    ensures bound { result < 2 ^ 64 }
{
    let count = data_buffers(node);
    let needed = count as u128 * 8;
    if k >= count {
        return needed;
    }
    if (node.bytes(count + 2).len() as u128) < needed {
        return 0;
    }
    u128::from(data_length(node, k))
}

/// How many bytes of its k-th buffer an array needs.
#[tactic(auto, using(layout_rules::proofs::Long::some_views))]
fn need(node: &WellFormedNode, k: usize) -> u128
    ensures need { result ≡ need node.now.layout (own_of node.now) k }
    ensures bound { result < 2 ^ 97 }
{
    let end = node.stop;
    if k == 0 {
        return (u128::from(end) + 7) / 8;
    }
    match node.layout {
        Layout::FixedWidth { width } => wide_need(end, width),
        Layout::TruthBits => (u128::from(end) + 7) / 8,
        Layout::ByOffsets { wide } => {
            if k == 1 {
                offsets_need(wide, u128::from(end))
            } else {
                data_need(wide, node)
            }
        }
        Layout::ListOffsets { wide } => offsets_need(wide, u128::from(end)),
        Layout::Views => {
            if k == 1 {
                wide_need(end, 16)
            } else {
                named_need(node, k - 2)
            }
        }
        Layout::NoBuffers | Layout::FixedItems { .. } | Layout::ByChildren => 0,
    }
}

/// Whether buffer `k` is absent and this many bytes of it are needed, more than 0. The place is `k`, and the numbers are 0
/// and the need.
pub fn missing(needed: u128, array: &RawArray, k: usize) -> Option<Numbers>
    requires live { IsLive array.now }
    requires inside { k < length (members_of array.now).buffers }
    requires bound { needed < 2 ^ 97 }
    ensures { result ≡ missing needed (members_of array.now) k }
{
    match array.buffer(k) {
        Some(_) => None,
        None => {
            if needed > 0 {
                Some(Numbers {
                    place: k as u64,
                    left: 0,
                    right: needed as i128,
                })
            } else {
                None
            }
        }
    }
}

/// Whether buffer `k` is there and has fewer bytes than are needed. The place is `k`, and the numbers are its length and the
/// need, in bytes.
pub fn too_short(needed: u128, array: &RawArray, k: usize) -> Option<Numbers>
    requires live { IsLive array.now }
    requires inside { k < length (members_of array.now).buffers }
    requires bound { needed < 2 ^ 97 }
    ensures { result ≡ too_short needed (members_of array.now) k }
{
    match array.buffer(k) {
        Some(bytes) => {
            let found = bytes.len();
            if (found as u128) < needed {
                Some(Numbers {
                    place: k as u64,
                    left: found as i128,
                    right: needed as i128,
                })
            } else {
                None
            }
        }
        None => None,
    }
}

fn buffer_short(node: &WellFormedNode, k: usize) -> Option<Numbers>
    requires { k < length (own_of node.now).buffers }
    ensures { result ≡ buffer_short node.now.layout (own_of node.now) k }
{
    match node.array.buffer(k) {
        Some(_) => too_short(need(node, k), node.array, k),
        None => None,
    }
}

fn buffer_absent(node: &WellFormedNode, k: usize) -> Option<Numbers>
    requires { k < length (own_of node.now).buffers }
    ensures { result ≡ buffer_absent node.now.layout (own_of node.now) k }
{
    if k == 0 || node.array.buffer(k).is_some() {
        None
    } else {
        missing(need(node, k), node.array, k)
    }
}

/// The first absent buffer of which something is needed.
pub(crate) fn buffers_absent(node: &WellFormedNode) -> Option<Numbers>
    ensures { result ≡ first_below (buffer_absent node.now.layout (own_of node.now)) (buffer_count node.now.layout (length (own_of node.now).buffers)) }
{
    for k in 0..node.buffer_count() {
        if let Some(numbers) = buffer_absent(node, k) {
            return Some(numbers);
        }
    }
    None
}

/// The first buffer that is shorter than its need.
pub(crate) fn buffers_short(node: &WellFormedNode) -> Option<Numbers>
    ensures { result ≡ first_below (buffer_short node.now.layout (own_of node.now)) (buffer_count node.now.layout (length (own_of node.now).buffers)) }
{
    for k in 0..node.buffer_count() {
        if let Some(numbers) = buffer_short(node, k) {
            return Some(numbers);
        }
    }
    None
}

/// Whether each buffer is there of which something is needed, and is as long as its need.
#[inline(always)]
pub(crate) fn buffers_pass(node: &WellFormedNode) -> bool
    ensures { IsTrue result ↔ AreReadable node.now.layout (own_of node.now) }
{
    for k in 0..node.buffer_count() {
        if !buffer_passes(node, k) {
            return false;
        }
    }
    true
}

/// The same of one buffer.
#[inline(always)]
fn buffer_passes(node: &WellFormedNode, k: usize) -> bool
    requires { k < length (own_of node.now).buffers }
    ensures { IsTrue result ↔ (buffer_absent node.now.layout (own_of node.now) k ≡ None) × (buffer_short node.now.layout (own_of node.now) k ≡ None) }
{
    match node.array.buffer(k) {
        Some(bytes) => bytes.len() as u128 >= need(node, k),
        None => k == 0 || need(node, k) == 0,
    }
}

/// The offset at a place of the offsets buffer.
pub(crate) fn offset_of(wide: bool, node: &WellFormedNode, place: u64) -> i64
    requires offsets { 1 < length (own_of node.now).buffers }
    requires long { (place + 1) * offset_width wide ≤ length (bytes (own_of node.now) 1) }
    ensures { result ≡ offset wide (own_of node.now) place }
{
    offset_at(node.bytes(1), place as usize, wide)
}

/// The offset at the window's end, and 0 where no place lies before it.
pub(crate) fn last_offset(wide: bool, node: &WellFormedNode) -> u128
    requires offsets { 1 < length (own_of node.now).buffers }
    requires long { offsets_need wide (end (own_of node.now)) ≤ length (bytes (own_of node.now) 1) }
    ensures last { result ≡ (if end (own_of node.now) == 0 then 0 else natural (offset wide (own_of node.now) (end (own_of node.now)))) }
    ensures bound { result < 2 ^ 68 }
{
    let end = node.stop;
    if end == 0 {
        return 0;
    }
    let offset = offset_of(wide, node, end);
    if offset < 0 { 0 } else { offset as u128 }
}

fn fall(i: u64, here: i64, next: i64) -> Option<Numbers>
    ensures { result ≡ fault_if (int_lt next here) i here next }
{
    if next < here {
        Some(Numbers {
            place: i,
            left: i128::from(here),
            right: i128::from(next),
        })
    } else {
        None
    }
}

fn offset_falls(wide: bool, node: &WellFormedNode, i: u64) -> Option<Numbers>
    requires offsets { 1 < length (own_of node.now).buffers }
    requires inside { i < items (own_of node.now) }
    requires long { (end (own_of node.now) + 1) * offset_width wide ≤ length (bytes (own_of node.now) 1) }
    ensures { result ≡ offset_falls wide (own_of node.now) i }
{
    let place = node.start + i;
    let here = offset_of(wide, node, place);
    let next = offset_of(wide, node, place + 1);
    fall(i, here, next)
}

/// An offset below 0 at the first item, or the first item whose offset is above the next one.
pub(crate) fn offsets_fall(wide: bool, node: &WellFormedNode) -> Option<Numbers>
    requires offsets { 1 < length (own_of node.now).buffers }
    requires long { offsets_need wide (end (own_of node.now)) ≤ length (bytes (own_of node.now) 1) }
    ensures { result ≡ offsets_fall wide (own_of node.now) }
{
    if node.stop == 0 {
        return None;
    }
    let first = offset_of(wide, node, node.start);
    if first < 0 {
        return Some(Numbers {
            place: 0,
            left: 0,
            right: i128::from(first),
        });
    }
    if offsets_rise(
        wide,
        node.bytes(1),
        node.start as usize,
        node.len() as usize,
    ) {
        return None;
    }
    first_fall(wide, node)
}

/// Whether the first offset isn't below 0, and no offset is above the next one.
fn offsets_pass(wide: bool, node: &WellFormedNode) -> bool
    requires offsets { 1 < length (own_of node.now).buffers }
    requires long { offsets_need wide (end (own_of node.now)) ≤ length (bytes (own_of node.now) 1) }
    ensures { result ≡ is_none (offsets_fall wide (own_of node.now)) }
{
    node.stop == 0
        || (offset_of(wide, node, node.start) >= 0
            && offsets_rise(
                wide,
                node.bytes(1),
                node.start as usize,
                node.len() as usize,
            ))
}

/// Whether the offsets of a layout that has some pass, once its buffers are long enough.
#[inline(always)]
#[tactic(auto, using(layout_rules::proofs::Long::long))]
pub(crate) fn layout_passes(node: &WellFormedNode) -> bool
    requires buffers { AreReadable node.now.layout (own_of node.now) }
    ensures { result ≡ is_none (offsets_fall_if (is_behind_offsets node.now.layout) (own_of node.now)) }
{
    match node.layout {
        Layout::ByOffsets { wide } => offsets_pass(wide, node),
        Layout::ListOffsets { wide } => offsets_pass(wide, node),
        _ => true,
    }
}

/// The offsets of a layout that has some, once its buffers are long enough.
#[tactic(auto, using(layout_rules::proofs::Long::long))]
pub(crate) fn layout_falls(node: &WellFormedNode) -> Option<Numbers>
    requires buffers { AreReadable node.now.layout (own_of node.now) }
    ensures { result ≡ offsets_fall_if (is_behind_offsets node.now.layout) (own_of node.now) }
{
    match node.layout {
        Layout::ByOffsets { wide } => offsets_fall(wide, node),
        Layout::ListOffsets { wide } => offsets_fall(wide, node),
        _ => None,
    }
}

/// The first item whose offset is above the next one, item by item.
pub(crate) fn first_fall(wide: bool, node: &WellFormedNode) -> Option<Numbers>
    requires offsets { 1 < length (own_of node.now).buffers }
    requires long { (end (own_of node.now) + 1) * offset_width wide ≤ length (bytes (own_of node.now) 1) }
    ensures { result ≡ first_below (offset_falls wide (own_of node.now)) (items (own_of node.now)) }
{
    for i in 0..node.len() {
        if let Some(numbers) = offset_falls(wide, node, i) {
            return Some(numbers);
        }
    }
    None
}
