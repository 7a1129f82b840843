//! Where in the data buffers of views texts are, so that parts of them that overlap are each tested in a few steps: one
//! table of fixed size for all buffers of a node. Each buffer is cut into blocks of one length, and the table has an entry
//! for each border of two blocks that lies in a text, in the order of the buffers and of the places.
ghost use Rattle.std.specs.Prelude.{◌≡◌, IsTrue, ◌+◌, ◌-◌, ◌*◌, ◌^◌, ◌<◌, ◌≤◌, length, take, drop, IsUtf8};
ghost use Rattle.raw_array.specs.promise.Members.{ArrayMembers};
ghost use Rattle.layout_rules.specs.promise.Layout.{data_buffers, data_lengths, lengths_need};
ghost use Rattle.layout_rules.specs.Within.{AreThere};
ghost use Rattle.layout_check.specs.NodeView.{own_of};
ghost use Rattle.layout_check.specs.Scans.{sized_data, IsRun, AreMarks, MarksIn};

use crate::node::WellFormedNode;
use crate::runs::{Run, goes_on, rest_of, run_from};
use crate::texts::is_text;
use crate::views::{data_buffers, data_length, sized_data};

/// How many entries a table has, which lies on the stack. The blocks are so long that there are fewer borders of two.
pub const ENTRIES: usize = 2048;

/// A text in a data buffer.
#[derive(Clone, Copy)]
pub struct Mark {
    pub buffer: usize,
    pub run: Run,
}

/// Behind each text of a table.
pub const NO_MARK: Mark = Mark {
    buffer: usize::MAX,
    run: Run { from: 0, to: 0 },
};

/// The length of the blocks.
fn block_size(node: &WellFormedNode) -> usize
    requires buffers { 3 ≤ length (own_of node.now).buffers }
    requires lengths { lengths_need (own_of node.now) ≤ length (data_lengths (own_of node.now)) }
    ensures some { 1 ≤ result }
    ensures bound { result ≤ 2 ^ 62 }
{
    let mut total: u64 = 0;
    for k in 0..data_buffers(node) {
        total = total.saturating_add(data_length(node, k));
    }
    (total / ENTRIES as u64) as usize + 1
}

/// Notes a text of a data buffer at each border of two blocks in it, from one entry on.
#[tactic(auto, using(crate::proofs::TextRuns::noted))]
fn note(bytes: &[u8], k: usize, run: Run, block: usize, marks: &mut [Mark], first: usize) -> usize
    requires run { IsRun bytes.now run }
    requires block { (1 ≤ block) × (block ≤ 2 ^ 62) }
    ensures { (own : ArrayMembers) → bytes.now ≡ sized_data own k → AreMarks own marks.old → AreMarks own marks.new }
{
    let mut next = first;
    let mut place = run.from - run.from % block + block;
    while next < marks.len() && place < run.to {
        marks[next] = Mark {
            buffer: k,
            run: rest_of(bytes, run, place),
        };
        next += 1;
        place += block;
    }
    next
}

/// Notes the texts of a data buffer, from one entry on.
fn note_buffer(bytes: &[u8], k: usize, block: usize, marks: &mut [Mark], first: usize) -> usize
    requires block { (1 ≤ block) × (block ≤ 2 ^ 62) }
    ensures { (own : ArrayMembers) → bytes.now ≡ sized_data own k → AreMarks own marks.old → AreMarks own marks.new }
{
    let mut next = first;
    let mut place = 0;
    while place < bytes.len() {
        let run = run_from(bytes, place);
        next = note(bytes, k, run, block, marks, next);
        place = run.to + 1;
    }
    next
}

/// Notes the texts of all data buffers.
pub(crate) fn note_all(node: &WellFormedNode, marks: &mut [Mark])
    requires buffers { 3 ≤ length (own_of node.now).buffers }
    requires lengths { lengths_need (own_of node.now) ≤ length (data_lengths (own_of node.now)) }
    requires named { AreThere (own_of node.now) }
    requires marks { AreMarks (own_of node.now) marks.old }
    ensures { AreMarks (own_of node.now) marks.new }
{
    let block = block_size(node);
    let mut next = 0;
    for k in 0..data_buffers(node) {
        next = note_buffer(sized_data(node, k), k, block, marks, next);
    }
}

/// The first entry whose text doesn't begin before a place of a data buffer.
fn entry_from(marks: &[Mark], k: usize, place: usize) -> usize
    ensures { result ≤ length marks.now }
{
    marks.partition_point(|mark| { mark.buffer < k || (mark.buffer == k && mark.run.from < place) })
}

/// A part of a data buffer is text: it is up to the first text that begins in it, and that one goes on.
fn lies_in_text(bytes: &[u8], k: usize, marks: &[Mark], from: usize, to: usize) -> bool
    requires order { from ≤ to }
    requires within { to ≤ length bytes.now }
    requires marks { MarksIn bytes.now k marks.now }
    ensures { IsTrue result → IsUtf8 (take (to - from) (drop from bytes.now)) }
{
    let entry = entry_from(marks, k, from);
    if entry >= marks.len() || marks[entry].buffer != k {
        return false;
    }
    goes_on(bytes, marks[entry].run, from, to)
}

/// This many bytes of a data buffer from a place on are text: by the table where it says so, else read as a whole.
pub(crate) fn part_is_text(bytes: &[u8], k: usize, marks: &[Mark], from: usize, size: usize) -> bool
    requires within { from + size ≤ length bytes.now }
    requires marks { MarksIn bytes.now k marks.now }
    ensures { IsTrue result → IsUtf8 (take size (drop from bytes.now)) }
{
    lies_in_text(bytes, k, marks, from, from + size) || is_text(&bytes[from..from + size])
}
