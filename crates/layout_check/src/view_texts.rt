//! The rule on texts, for views. Views may overlap, so no time is spent on a byte for each view that names it: data buffers
//! are tested as a whole, and where one isn't text, the views are tested by a table of the buffers' texts.
ghost use Rattle.std.specs.Prelude.{◌≡◌, None, is_none, IsTrue, ◌*◌, ◌<◌, ◌≤◌, length};
ghost use Rattle.layout_check.specs.NodeView.{own_of};
ghost use Rattle.layout_rules.specs.promise.Layout.{items, end, bytes as bytes_at, is_valid, view_width, data_buffers, data_lengths, lengths_need};
ghost use Rattle.layout_rules.specs.Layout.{IsLongIfPresent};
ghost use Rattle.layout_rules.specs.promise.Rules.{first_below};
ghost use Rattle.layout_rules.specs.Rules.{misplaced, view_not_text};
ghost use Rattle.layout_rules.specs.Within.{DataWithin, AreThere};
ghost use Rattle.layout_check.specs.Scans.{AreTexts, AreMarks};

use crate::marks::{ENTRIES, Mark, NO_MARK, note_all, part_is_text};
use crate::node::WellFormedNode;
use crate::nulls::is_valid;
use crate::runs::is_border;
use crate::texts::{is_text, not_utf8};
use crate::views::{
    MOST_IN_VIEW, data_buffers, sized_data, view_buffer, view_data, view_length, view_offset,
};
use layout_rules::Numbers;

fn view_not_text(node: &WellFormedNode, i: u64) -> Option<Numbers>
    requires buffers { 3 ≤ length (own_of node.now).buffers }
    requires inside { i < items (own_of node.now) }
    requires long { end (own_of node.now) * view_width ≤ length (bytes_at (own_of node.now) 1) }
    requires validity { IsLongIfPresent (own_of node.now) }
    requires within { IsTrue (is_valid (own_of node.now) i) → DataWithin (own_of node.now) i }
    ensures { result ≡ view_not_text (own_of node.now) i }
{
    if is_valid(node, i) {
        not_utf8(i, view_data(node, i))
    } else {
        None
    }
}

/// The first valid view whose bytes aren't UTF-8, from an item on before which there is none.
#[tactic(auto, using(layout_rules::proofs::Placed::placed))]
fn first_bad_text(node: &WellFormedNode, from: u64) -> Option<Numbers>
    requires buffers { 3 ≤ length (own_of node.now).buffers }
    requires validity { IsLongIfPresent (own_of node.now) }
    requires long { end (own_of node.now) * view_width ≤ length (bytes_at (own_of node.now) 1) }
    requires named { AreThere (own_of node.now) }
    requires placed { first_below (misplaced (own_of node.now)) (items (own_of node.now)) ≡ None }
    requires from { from ≤ items (own_of node.now) }
    requires before { first_below (view_not_text (own_of node.now)) from ≡ None }
    ensures { result ≡ first_below (view_not_text (own_of node.now)) (items (own_of node.now)) }
{
    for i in from..node.len() {
        if let Some(numbers) = view_not_text(node, i) {
            return Some(numbers);
        }
    }
    None
}

/// Each data buffer is UTF-8, as far as its length goes.
#[tactic(auto, using(crate::proofs::ViewsScanned::buffers))]
fn are_texts(node: &WellFormedNode) -> bool
    requires buffers { 3 ≤ length (own_of node.now).buffers }
    requires lengths { lengths_need (own_of node.now) ≤ length (data_lengths (own_of node.now)) }
    requires named { AreThere (own_of node.now) }
    ensures { IsTrue result → AreTexts (own_of node.now) (data_buffers (own_of node.now)) }
{
    for k in 0..data_buffers(node) {
        if !is_text(sized_data(node, k)) {
            return false;
        }
    }
    true
}

/// A view of a text is a text: it is short and UTF-8, or cut from a data buffer that is.
#[tactic(auto, using(crate::proofs::ViewsScanned::views))]
fn is_cut_well(node: &WellFormedNode, i: u64) -> bool
    requires buffers { 3 ≤ length (own_of node.now).buffers }
    requires inside { i < items (own_of node.now) }
    requires validity { IsLongIfPresent (own_of node.now) }
    requires long { end (own_of node.now) * view_width ≤ length (bytes_at (own_of node.now) 1) }
    requires lengths { lengths_need (own_of node.now) ≤ length (data_lengths (own_of node.now)) }
    requires named { AreThere (own_of node.now) }
    requires texts { AreTexts (own_of node.now) (data_buffers (own_of node.now)) }
    requires within { IsTrue (is_valid (own_of node.now) i) → DataWithin (own_of node.now) i }
    ensures { IsTrue result → view_not_text (own_of node.now) i ≡ None }
{
    if !is_valid(node, i) {
        return true;
    }
    let size = view_length(node, i);
    if size <= MOST_IN_VIEW {
        return is_text(view_data(node, i));
    }
    let from = view_offset(node, i) as usize;
    let text = sized_data(node, view_buffer(node, i) as usize);
    is_border(text, from) && is_border(text, from + size as usize)
}

/// Each view of a text is a text.
#[tactic(auto, using(layout_rules::proofs::Placed::placed, layout_rules::proofs::Firsts::one_more))]
fn are_cut_well(node: &WellFormedNode) -> bool
    requires buffers { 3 ≤ length (own_of node.now).buffers }
    requires validity { IsLongIfPresent (own_of node.now) }
    requires long { end (own_of node.now) * view_width ≤ length (bytes_at (own_of node.now) 1) }
    requires lengths { lengths_need (own_of node.now) ≤ length (data_lengths (own_of node.now)) }
    requires named { AreThere (own_of node.now) }
    requires placed { first_below (misplaced (own_of node.now)) (items (own_of node.now)) ≡ None }
    requires texts { AreTexts (own_of node.now) (data_buffers (own_of node.now)) }
    ensures { IsTrue result → first_below (view_not_text (own_of node.now)) (items (own_of node.now)) ≡ None }
{
    for i in 0..node.len() {
        if !is_cut_well(node, i) {
            return false;
        }
    }
    true
}

// ---- where a data buffer isn't text as a whole

/// A view is a text, where the table of the data buffers' texts says so or its bytes are read.
#[tactic(auto, using(crate::proofs::ViewsScanned::views, crate::proofs::TextRuns::marked))]
fn passes(node: &WellFormedNode, marks: &[Mark], i: u64) -> bool
    requires buffers { 3 ≤ length (own_of node.now).buffers }
    requires inside { i < items (own_of node.now) }
    requires validity { IsLongIfPresent (own_of node.now) }
    requires long { end (own_of node.now) * view_width ≤ length (bytes_at (own_of node.now) 1) }
    requires lengths { lengths_need (own_of node.now) ≤ length (data_lengths (own_of node.now)) }
    requires named { AreThere (own_of node.now) }
    requires within { IsTrue (is_valid (own_of node.now) i) → DataWithin (own_of node.now) i }
    requires marks { AreMarks (own_of node.now) marks.now }
    ensures { IsTrue result → view_not_text (own_of node.now) i ≡ None }
{
    if !is_valid(node, i) {
        return true;
    }
    let size = view_length(node, i);
    if size <= MOST_IN_VIEW {
        return is_text(view_data(node, i));
    }
    let from = view_offset(node, i) as usize;
    let k = view_buffer(node, i) as usize;
    part_is_text(sized_data(node, k), k, marks, from, size as usize)
}

/// How many views, from the first on, are texts, by the table of the data buffers' texts.
#[tactic(auto, using(layout_rules::proofs::Placed::placed, layout_rules::proofs::Firsts::one_more))]
fn passed_by(node: &WellFormedNode, marks: &[Mark]) -> u64
    requires buffers { 3 ≤ length (own_of node.now).buffers }
    requires validity { IsLongIfPresent (own_of node.now) }
    requires long { end (own_of node.now) * view_width ≤ length (bytes_at (own_of node.now) 1) }
    requires lengths { lengths_need (own_of node.now) ≤ length (data_lengths (own_of node.now)) }
    requires named { AreThere (own_of node.now) }
    requires placed { first_below (misplaced (own_of node.now)) (items (own_of node.now)) ≡ None }
    requires marks { AreMarks (own_of node.now) marks.now }
    ensures bound { result ≤ items (own_of node.now) }
    ensures pass { first_below (view_not_text (own_of node.now)) result ≡ None }
{
    for i in 0..node.len() {
        if !passes(node, marks, i) {
            return i;
        }
    }
    node.len()
}

/// How many views, from the first on, are texts.
#[inline(never)]
fn passed(node: &WellFormedNode) -> u64
    requires buffers { 3 ≤ length (own_of node.now).buffers }
    requires validity { IsLongIfPresent (own_of node.now) }
    requires long { end (own_of node.now) * view_width ≤ length (bytes_at (own_of node.now) 1) }
    requires lengths { lengths_need (own_of node.now) ≤ length (data_lengths (own_of node.now)) }
    requires named { AreThere (own_of node.now) }
    requires placed { first_below (misplaced (own_of node.now)) (items (own_of node.now)) ≡ None }
    ensures bound { result ≤ items (own_of node.now) }
    ensures pass { first_below (view_not_text (own_of node.now)) result ≡ None }
{
    let mut marks = [NO_MARK; ENTRIES];
    note_all(node, &mut marks);
    passed_by(node, &marks)
}

/// The first valid view whose bytes aren't UTF-8: none where the data buffers as a whole
/// pass, else item by item, once those before it are passed by the table of the buffers' texts.
pub(crate) fn view_text_wrong(node: &WellFormedNode) -> Option<Numbers>
    requires buffers { 3 ≤ length (own_of node.now).buffers }
    requires validity { IsLongIfPresent (own_of node.now) }
    requires long { end (own_of node.now) * view_width ≤ length (bytes_at (own_of node.now) 1) }
    requires lengths { lengths_need (own_of node.now) ≤ length (data_lengths (own_of node.now)) }
    requires named { AreThere (own_of node.now) }
    requires placed { first_below (misplaced (own_of node.now)) (items (own_of node.now)) ≡ None }
    ensures { result ≡ first_below (view_not_text (own_of node.now)) (items (own_of node.now)) }
{
    if are_texts(node) && are_cut_well(node) {
        None
    } else {
        first_bad_text(node, passed(node))
    }
}

/// Whether each valid view's bytes are UTF-8. The place of a fault gets its room here, and so not at each node.
#[inline(never)]
pub(crate) fn view_texts_pass(node: &WellFormedNode) -> bool
    requires buffers { 3 ≤ length (own_of node.now).buffers }
    requires validity { IsLongIfPresent (own_of node.now) }
    requires long { end (own_of node.now) * view_width ≤ length (bytes_at (own_of node.now) 1) }
    requires lengths { lengths_need (own_of node.now) ≤ length (data_lengths (own_of node.now)) }
    requires named { AreThere (own_of node.now) }
    requires placed { first_below (misplaced (own_of node.now)) (items (own_of node.now)) ≡ None }
    ensures { result ≡ is_none (first_below (view_not_text (own_of node.now)) (items (own_of node.now))) }
{
    view_text_wrong(node).is_none()
}
