//! The rule on texts between offsets.
ghost use Rattle.std.specs.Prelude.{◌≡◌, ◌↔◌, None, is_none, IsTrue, IsUtf8, MatchResult, not, ◌+◌, ◌*◌, ◌^◌, ◌<◌, ◌≤◌, ◌≤ℤ◌, pos, length, Option};
ghost use Rattle.std.specs.Str.{is_utf8};
ghost use Rattle.std.specs.Str.Lossy.{utf8_valid_len};
ghost use Rattle.data_types.specs.promise.Packed.{offset_width};
ghost use Rattle.layout_check.specs.NodeView.{AreReadable, own_of};
ghost use Rattle.layout_rules.specs.promise.Layout.{natural, data_between, layout_of, first, items, offset, end, data_of, bytes, offsets_need};
ghost use Rattle.layout_rules.specs.Layout.{IsLongIfPresent};
ghost use Rattle.layout_rules.specs.promise.Layout.{data_need};
ghost use Rattle.layout_check.specs.Scans.{used_data};
ghost use Rattle.layout_rules.specs.promise.Rules.{fault_if, first_below, offsets_fall, offsets_fall_if, is_behind_offsets};
ghost use Rattle.layout_rules.specs.Rules.{not_text};
ghost use Rattle.layout_rules.specs.promise.Rules.{texts_wrong, views_misplaced};

use crate::buffers::offset_of;
use crate::node::WellFormedNode;
use crate::nulls::is_valid;
use crate::runs::is_border;
use crate::scans::cut_between_characters;
use crate::view_texts::{view_text_wrong, view_texts_pass};
use data_types::DataType;
use layout_rules::Numbers;

/// The place in the data at which an offset is.
fn data_place(wide: bool, node: &WellFormedNode, place: u64) -> usize
    requires buffers { 1 < length (own_of node.now).buffers }
    requires long { (place + 1) * offset_width wide ≤ length (bytes (own_of node.now) 1) }
    requires from { pos 0 ≤ℤ offset wide (own_of node.now) place }
    ensures { result ≡ natural (offset wide (own_of node.now) place) }
{
    offset_of(wide, node, place) as usize
}

/// The data between the offsets at two places.
#[tactic(auto, using(layout_rules::proofs::TextData::naturals))]
fn data_between<'a>(wide: bool, node: &WellFormedNode<'a>, from: u64, to: u64) -> &'a [u8]
    requires buffers { 2 < length (own_of node.now).buffers }
    requires order { from ≤ to }
    requires long { (to + 1) * offset_width wide ≤ length (bytes (own_of node.now) 1) }
    requires from { pos 0 ≤ℤ offset wide (own_of node.now) from }
    requires rise { offset wide (own_of node.now) from ≤ℤ offset wide (own_of node.now) to }
    requires within { offset wide (own_of node.now) to ≤ℤ pos (length (bytes (own_of node.now) 2)) }
    ensures { result.now ≡ data_between wide (own_of node.now) from to }
{
    let here = data_place(wide, node, from);
    let next = data_place(wide, node, to);
    &node.bytes(2)[here..next]
}

/// The data of an item.
fn item_data<'a>(wide: bool, node: &WellFormedNode<'a>, i: u64) -> &'a [u8]
    requires buffers { 2 < length (own_of node.now).buffers }
    requires inside { i < items (own_of node.now) }
    requires long { (end (own_of node.now) + 1) * offset_width wide ≤ length (bytes (own_of node.now) 1) }
    requires from { pos 0 ≤ℤ offset wide (own_of node.now) (first (own_of node.now) + i) }
    requires rise { offset wide (own_of node.now) (first (own_of node.now) + i) ≤ℤ offset wide (own_of node.now) (first (own_of node.now) + i + 1) }
    requires within { offset wide (own_of node.now) (first (own_of node.now) + i + 1) ≤ℤ pos (length (bytes (own_of node.now) 2)) }
    ensures { result.now ≡ data_of wide (own_of node.now) i }
{
    let place = node.start + i;
    data_between(wide, node, place, place + 1)
}

/// Bytes as a text, or how many of them, from the first on, are one.
pub(crate) fn as_text(bytes: &[u8]) -> Result<&str, usize>
    ensures { MatchResult result (λ text. (text.now ≡ bytes.now) × IsUtf8 bytes.now) (λ valid. ¬ (IsUtf8 bytes.now) × (valid ≡ utf8_valid_len bytes.now)) }
{
    if bytes.len() < 64 {
        return match str::from_utf8(bytes) {
            Ok(text) => Ok(text),
            Err(error) => Err(error.valid_up_to()),
        };
    }
    match simdutf8::compat::from_utf8(bytes) {
        Ok(text) => Ok(text),
        Err(error) => Err(error.valid_up_to()),
    }
}

pub(crate) fn is_text(bytes: &[u8]) -> bool
    ensures { IsTrue result ↔ IsUtf8 bytes.now }
{
    as_text(bytes).is_ok()
}

/// A text that isn't UTF-8.
#[tactic(auto, using(layout_rules::proofs::TextData::utf8))]
pub(crate) fn not_utf8(i: u64, text: &[u8]) -> Option<Numbers>
    ensures { result ≡ fault_if (not (is_utf8 text.now)) i (pos (utf8_valid_len text.now)) (pos (length text.now)) }
{
    match as_text(text) {
        Ok(_) => None,
        Err(valid) => Some(Numbers {
            place: i,
            left: valid as i128,
            right: text.len() as i128,
        }),
    }
}

fn bad_text(wide: bool, node: &WellFormedNode, i: u64) -> Option<Numbers>
    requires buffers { 2 < length (own_of node.now).buffers }
    requires inside { i < items (own_of node.now) }
    requires validity { IsLongIfPresent (own_of node.now) }
    requires long { (end (own_of node.now) + 1) * offset_width wide ≤ length (bytes (own_of node.now) 1) }
    requires from { pos 0 ≤ℤ offset wide (own_of node.now) (first (own_of node.now) + i) }
    requires rise { offset wide (own_of node.now) (first (own_of node.now) + i) ≤ℤ offset wide (own_of node.now) (first (own_of node.now) + i + 1) }
    requires within { offset wide (own_of node.now) (first (own_of node.now) + i + 1) ≤ℤ pos (length (bytes (own_of node.now) 2)) }
    ensures { result ≡ not_text wide (own_of node.now) i }
{
    if is_valid(node, i) {
        not_utf8(i, item_data(wide, node, i))
    } else {
        None
    }
}

/// The first valid item that isn't UTF-8, item by item.
#[tactic(auto, using(layout_rules::proofs::TextData::items_lie))]
pub(crate) fn first_bad_text(wide: bool, node: &WellFormedNode) -> Option<Numbers>
    requires buffers { 2 < length (own_of node.now).buffers }
    requires validity { IsLongIfPresent (own_of node.now) }
    requires long { offsets_need wide (end (own_of node.now)) ≤ length (bytes (own_of node.now) 1) }
    requires data { data_need wide (own_of node.now) ≤ length (bytes (own_of node.now) 2) }
    requires rise { offsets_fall wide (own_of node.now) ≡ None }
    ensures { result ≡ first_below (not_text wide (own_of node.now)) (items (own_of node.now)) }
{
    for i in 0..node.len() {
        if let Some(numbers) = bad_text(wide, node, i) {
            return Some(numbers);
        }
    }
    None
}

/// The data between the offsets at the window's borders.
#[tactic(auto, using(layout_rules::proofs::TextData::borders_lie))]
fn used_data<'a>(wide: bool, node: &WellFormedNode<'a>) -> &'a [u8]
    requires buffers { 2 < length (own_of node.now).buffers }
    requires some { 0 < items (own_of node.now) }
    requires long { offsets_need wide (end (own_of node.now)) ≤ length (bytes (own_of node.now) 1) }
    requires data { data_need wide (own_of node.now) ≤ length (bytes (own_of node.now) 2) }
    requires rise { offsets_fall wide (own_of node.now) ≡ None }
    ensures { result.now ≡ used_data wide (own_of node.now) }
{
    data_between(wide, node, node.start, node.stop)
}

/// The used data is UTF-8: it lies between characters of a block that is marked as text, or it is read.
#[tactic(auto, using(layout_rules::proofs::TextData::borders_lie))]
fn used_is_text(wide: bool, node: &WellFormedNode, used: &[u8]) -> bool
    requires buffers { 2 < length (own_of node.now).buffers }
    requires some { 0 < items (own_of node.now) }
    requires long { offsets_need wide (end (own_of node.now)) ≤ length (bytes (own_of node.now) 1) }
    requires data { data_need wide (own_of node.now) ≤ length (bytes (own_of node.now) 2) }
    requires rise { offsets_fall wide (own_of node.now) ≡ None }
    requires used { used.now ≡ used_data wide (own_of node.now) }
    ensures { IsTrue result → IsUtf8 used.now }
{
    if !node.array.buffer_is_text(2) {
        return is_text(used);
    }
    let all = node.bytes(2);
    let from = data_place(wide, node, node.start);
    let to = data_place(wide, node, node.stop);
    is_border(all, from) && is_border(all, to)
}

/// The used data is UTF-8, and each item ends between two characters of it.
#[tactic(auto, using(crate::proofs::Scanned::texts, layout_rules::proofs::TextData::borders_lie))]
fn is_text_in_items(wide: bool, node: &WellFormedNode, used: &[u8]) -> bool
    requires buffers { 2 < length (own_of node.now).buffers }
    requires some { 0 < items (own_of node.now) }
    requires long { offsets_need wide (end (own_of node.now)) ≤ length (bytes (own_of node.now) 1) }
    requires data { data_need wide (own_of node.now) ≤ length (bytes (own_of node.now) 2) }
    requires rise { offsets_fall wide (own_of node.now) ≡ None }
    requires used { used.now ≡ used_data wide (own_of node.now) }
    ensures { IsTrue result → first_below (not_text wide (own_of node.now)) (items (own_of node.now)) ≡ None }
{
    let base = data_place(wide, node, node.start);
    used_is_text(wide, node, used)
        && cut_between_characters(
            wide,
            node.bytes(1),
            node.start as usize,
            node.len() as usize,
            base,
            used,
        )
}

/// The used data passes as a whole: there is none, it is ASCII, or it is UTF-8 that is cut between characters.
#[inline(always)]
#[tactic(auto, using(crate::proofs::Scanned::texts))]
fn passes_whole(wide: bool, node: &WellFormedNode) -> bool
    requires buffers { 2 < length (own_of node.now).buffers }
    requires long { offsets_need wide (end (own_of node.now)) ≤ length (bytes (own_of node.now) 1) }
    requires data { data_need wide (own_of node.now) ≤ length (bytes (own_of node.now) 2) }
    requires rise { offsets_fall wide (own_of node.now) ≡ None }
    ensures { IsTrue result → first_below (not_text wide (own_of node.now)) (items (own_of node.now)) ≡ None }
{
    if node.len() == 0 {
        return true;
    }
    let used = used_data(wide, node);
    if used.is_ascii() {
        return true;
    }
    is_text_in_items(wide, node, used)
}

/// The first valid item that isn't UTF-8.
fn text_wrong(wide: bool, node: &WellFormedNode) -> Option<Numbers>
    requires buffers { 2 < length (own_of node.now).buffers }
    requires validity { IsLongIfPresent (own_of node.now) }
    requires long { offsets_need wide (end (own_of node.now)) ≤ length (bytes (own_of node.now) 1) }
    requires data { data_need wide (own_of node.now) ≤ length (bytes (own_of node.now) 2) }
    requires rise { offsets_fall wide (own_of node.now) ≡ None }
    ensures { result ≡ first_below (not_text wide (own_of node.now)) (items (own_of node.now)) }
{
    if passes_whole(wide, node) {
        None
    } else {
        first_bad_text(wide, node)
    }
}

/// Whether each valid item is UTF-8, item by item. The place of a fault gets its room here, and so not at each node.
#[inline(never)]
fn all_are_texts(wide: bool, node: &WellFormedNode) -> bool
    requires buffers { 2 < length (own_of node.now).buffers }
    requires validity { IsLongIfPresent (own_of node.now) }
    requires long { offsets_need wide (end (own_of node.now)) ≤ length (bytes (own_of node.now) 1) }
    requires data { data_need wide (own_of node.now) ≤ length (bytes (own_of node.now) 2) }
    requires rise { offsets_fall wide (own_of node.now) ≡ None }
    ensures { result ≡ is_none (first_below (not_text wide (own_of node.now)) (items (own_of node.now))) }
{
    first_bad_text(wide, node).is_none()
}

/// Whether each valid text is UTF-8.
#[tactic(auto, using(layout_rules::proofs::Long::long))]
pub(crate) fn texts_pass(kind: &DataType, node: &WellFormedNode) -> bool
    requires layout { node.now.layout ≡ layout_of kind.now }
    requires buffers { AreReadable node.now.layout (own_of node.now) }
    requires rise { offsets_fall_if (is_behind_offsets node.now.layout) (own_of node.now) ≡ None }
    requires placed { views_misplaced node.now.layout (own_of node.now) ≡ None }
    ensures { result ≡ is_none (texts_wrong kind.now (own_of node.now)) }
{
    match kind {
        DataType::Utf8 { wide } => passes_whole(*wide, node) || all_are_texts(*wide, node),
        DataType::Utf8View => view_texts_pass(node),
        _ => true,
    }
}

/// The first valid text that isn't UTF-8.
#[tactic(auto, using(layout_rules::proofs::Long::long))]
pub(crate) fn texts_wrong(kind: &DataType, node: &WellFormedNode) -> Option<Numbers>
    requires layout { node.now.layout ≡ layout_of kind.now }
    requires buffers { AreReadable node.now.layout (own_of node.now) }
    requires rise { offsets_fall_if (is_behind_offsets node.now.layout) (own_of node.now) ≡ None }
    requires placed { views_misplaced node.now.layout (own_of node.now) ≡ None }
    ensures { result ≡ texts_wrong kind.now (own_of node.now) }
{
    match kind {
        DataType::Utf8 { wide } => text_wrong(*wide, node),
        DataType::Utf8View => view_text_wrong(node),
        _ => None,
    }
}
