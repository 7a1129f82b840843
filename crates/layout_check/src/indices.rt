//! The rule on the indices of a dictionary-encoded array.
ghost use Rattle.std.specs.Prelude.{◌≡◌, None, ◌⊎◌, ◌+◌, ◌*◌, ◌/◌, ◌<◌, ◌≤◌, pos, length, Option};
ghost use Rattle.data_types.specs.Packed.{IsWidth};
ghost use Rattle.data_types.specs.Kinds.{KindOk};
ghost use Rattle.tree_model.specs.promise.TreeParts.{IsLive, dictionary_of};
ghost use Rattle.raw_array.specs.promise.Members.{ArrayTree};
ghost use Rattle.layout_check.specs.NodeView.{AreReadable, own_of};
ghost use Rattle.layout_rules.specs.promise.Layout.{layout_of, items, end, stored_number, bytes};
ghost use Rattle.layout_rules.specs.Layout.{IsLongIfPresent};
ghost use Rattle.layout_rules.specs.promise.Rules.{fault_if, is_outside, first_below, index_wrong, indices_wrong, length_if};

use crate::node::WellFormedNode;
use crate::nulls::is_valid;
use crate::scans::indices_inside;
use bit_pack::int_at;
use data_types::DataType;
use layout_rules::Numbers;
use raw_array::RawArray;

/// The stored index of an item.
fn index_of(width: usize, signed: bool, node: &WellFormedNode, i: u64) -> i128
    requires buffers { 1 < length (own_of node.now).buffers }
    requires width { (width ≡ 1) ⊎ (width ≡ 2) ⊎ (width ≡ 4) ⊎ (width ≡ 8) }
    requires inside { i < items (own_of node.now) }
    requires long { end (own_of node.now) * width ≤ length (bytes (own_of node.now) 1) }
    ensures { result ≡ stored_number width signed (own_of node.now) i }
{
    let place = node.start + i;
    int_at(node.bytes(1), place as usize * width, width, signed)
}

fn outside(i: u64, index: i128, total: i64) -> Option<Numbers>
    ensures { result ≡ fault_if (is_outside total index) i index total }
{
    if index < 0 || index >= i128::from(total) {
        Some(Numbers {
            place: i,
            left: index,
            right: i128::from(total),
        })
    } else {
        None
    }
}

fn bad_index(
    width: usize,
    signed: bool,
    node: &WellFormedNode,
    total: i64,
    i: u64,
) -> Option<Numbers>
    requires buffers { 1 < length (own_of node.now).buffers }
    requires width { (width ≡ 1) ⊎ (width ≡ 2) ⊎ (width ≡ 4) ⊎ (width ≡ 8) }
    requires inside { i < items (own_of node.now) }
    requires validity { IsLongIfPresent (own_of node.now) }
    requires long { end (own_of node.now) * width ≤ length (bytes (own_of node.now) 1) }
    ensures { result ≡ index_wrong width signed (own_of node.now) total i }
{
    if is_valid(node, i) {
        outside(i, index_of(width, signed, node, i), total)
    } else {
        None
    }
}

/// The first valid index that is no place of a dictionary of this many items, item by item.
pub(crate) fn first_bad_index(
    width: usize,
    signed: bool,
    node: &WellFormedNode,
    total: i64,
) -> Option<Numbers>
    requires buffers { 1 < length (own_of node.now).buffers }
    requires width { (width ≡ 1) ⊎ (width ≡ 2) ⊎ (width ≡ 4) ⊎ (width ≡ 8) }
    requires validity { IsLongIfPresent (own_of node.now) }
    requires long { end (own_of node.now) * width ≤ length (bytes (own_of node.now) 1) }
    ensures { result ≡ first_below (index_wrong width signed (own_of node.now) total) (items (own_of node.now)) }
{
    for i in 0..node.len() {
        if let Some(numbers) = bad_index(width, signed, node, total, i) {
            return Some(numbers);
        }
    }
    None
}

/// The first valid index that is no place of a dictionary of this many items.
#[tactic(auto, using(crate::proofs::Scanned::indices))]
fn index_wrong(width: usize, signed: bool, node: &WellFormedNode, total: i64) -> Option<Numbers>
    requires buffers { 1 < length (own_of node.now).buffers }
    requires width { (width ≡ 1) ⊎ (width ≡ 2) ⊎ (width ≡ 4) ⊎ (width ≡ 8) }
    requires validity { IsLongIfPresent (own_of node.now) }
    requires long { end (own_of node.now) * width ≤ length (bytes (own_of node.now) 1) }
    ensures { result ≡ first_below (index_wrong width signed (own_of node.now) total) (items (own_of node.now)) }
{
    let start = node.start as usize;
    let len = node.len() as usize;
    if indices_inside(width, signed, node.bytes(1), start, len, total) {
        None
    } else {
        first_bad_index(width, signed, node, total)
    }
}

/// The length of a live dictionary.
fn dictionary_total(array: &RawArray) -> Option<i64>
    requires live { IsLive array.now }
    ensures { result ≡ length_if (dictionary_of array.now) }
{
    let dictionary = array.dictionary()?;
    if dictionary.is_released() {
        None
    } else {
        Some(dictionary.length())
    }
}

/// The first valid index that is no place of the dictionary.
#[tactic(auto, using(layout_rules::proofs::Long::valid))]
pub(crate) fn indices_wrong(kind: &DataType, node: &WellFormedNode) -> Option<Numbers>
    requires layout { node.now.layout ≡ layout_of kind.now }
    requires type_ok { KindOk kind.now }
    requires buffers { AreReadable node.now.layout (own_of node.now) }
    ensures { result ≡ indices_wrong kind.now (own_of node.now) (length_if (dictionary_of node.now.array.now)) }
{
    let total = dictionary_total(node.array)?;
    match kind {
        DataType::Int { bits, signed } => {
            index_wrong(usize::from(*bits) / 8, *signed, node, total)
        }
        _ => None,
    }
}
