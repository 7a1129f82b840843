//! The buffers of an array node of a text.
ghost use Rattle.std.specs.Prelude.{◌≡◌, ◌+◌, ◌-◌, ◌≤◌, [], ◌∷◌, ◌++◌, length, replicate, Option, IfOk, IfErr, OnOk, MatchResult};
ghost use Rattle.unit_pass.specs.promise.Tally.{risen};
ghost use Rattle.raw_array.specs.promise.Members.{Buffer, holds_of, whole};
ghost use Rattle.raw_array.specs.View.{buffer_of, buffer_if, buffers_of};
ghost use Rattle.tree_text.specs.promise.Standing.{AtBuffer, read_buffer_line};
ghost use Rattle.tree_text.specs.Cursors.{left, IsCursor, Stops, BufferLineRead, BufferRead, BuffersRead};
ghost use Rattle.tree_text.specs.LineView.{buffer_told};

use crate::cursor::Cursor;
use crate::fault::TextFault;
use crate::node_line::{BufferLine, buffer_line};
use buf_block::{BufView, let_go_all, make};
use std::alloc::Global;
use unit_pass::{NoMemory, Pass, SUPPLY};

/// A view of a whole new block.
#[tactic(auto, using(crate::proofs::ArraySteps::whole_range))]
fn whole_view(alloc: Global, bytes: Vec<u8>, pass: &mut Pass) -> Result<BufView, NoMemory>
    requires { 1 ≤ pass.old.units }
    ensures view { IfOk result (λ v. buffer_of v ≡ record { bytes = bytes.items; amount = whole }) }
    ensures units { MatchResult result (λ v. pass.new.units + 1 ≡ pass.old.units) (λ e. pass.new.units ≡ pass.old.units) }
    ensures blocks { OnOk result (pass.new.blocks ≡ risen pass.old.blocks 1) }
    ensures nodes { pass.new.nodes ≡ pass.old.nodes }
{
    match make(alloc, bytes, pass) {
        Ok(hold) => Ok(BufView::whole(hold)),
        Err((_, NoMemory)) => Err(NoMemory),
    }
}

/// What the line at a cursor says of a buffer, and the cursor behind it.
#[tactic(auto, using(crate::proofs::ArraySteps::line_steps))]
fn told_buffer(
    alloc: Global,
    bytes: &[u8],
    cursor: Cursor,
) -> Result<(BufferLine, Cursor), TextFault>
    requires { IsCursor bytes.now cursor }
    ensures read { IfOk result (λ r. BufferLineRead bytes.now cursor r.1 (buffer_told r.0)) }
    ensures fault { IfErr result (Stops bytes.now cursor (AtBuffer ∷ [])) }
{
    let Some((line, next)) = cursor.take_line(bytes) else {
        return Err(cursor.fault());
    };
    match buffer_line(alloc, line) {
        Ok(Some(told)) => Ok((told, next)),
        Ok(None) => Err(cursor.fault()),
        Err(NoMemory) => Err(TextFault::NoMemory),
    }
}

/// The buffer whose line is at a cursor, and the cursor behind it.
fn buffer(
    alloc: Global,
    bytes: &[u8],
    cursor: Cursor,
    pass: &mut Pass,
) -> Result<(Option<BufView>, Cursor), TextFault>
    requires cursor { IsCursor bytes.now cursor }
    requires room { length (left bytes.now cursor) ≤ pass.old.units }
    ensures read { IfOk result (λ r. BufferRead bytes.now cursor r.1 (buffer_if r.0)) }
    ensures fault { IfErr result (Stops bytes.now cursor (AtBuffer ∷ [])) }
    ensures units { MatchResult result (λ r. pass.new.units + holds_of (buffer_if r.0 ∷ []) ≡ pass.old.units) (λ f. pass.new.units ≡ pass.old.units) }
    ensures blocks { IfOk result (λ r. pass.new.blocks ≡ risen pass.old.blocks (holds_of (buffer_if r.0 ∷ []))) }
    ensures nodes { pass.new.nodes ≡ pass.old.nodes }
{
    let (told, next) = told_buffer(alloc, bytes, cursor)?;
    match told {
        BufferLine::Absent => Ok((None, next)),
        BufferLine::Present(content) => match whole_view(alloc, content, pass) {
            Ok(view) => Ok((Some(view), next)),
            Err(NoMemory) => Err(TextFault::NoMemory),
        },
    }
}

/// One buffer more; all are let go where there is no memory for it.
#[tactic(auto, using(raw_array::proofs::Buffers::buffer_lists))]
fn added(
    views: Vec<Option<BufView>>,
    view: Option<BufView>,
    pass: &mut Pass,
) -> Result<Vec<Option<BufView>>, NoMemory>
    requires { pass.old.units + holds_of (buffers_of views.items) + holds_of (buffer_if view ∷ []) ≤ SUPPLY }
    ensures more { IfOk result (λ all. all.items ≡ views.items ++ view ∷ []) }
    ensures units { MatchResult result (λ all. pass.new.units ≡ pass.old.units) (λ e. pass.new.units ≡ pass.old.units + holds_of (buffers_of views.items)
        + holds_of (buffer_if view ∷ [])) }
    ensures blocks { pass.new.blocks ≡ pass.old.blocks }
    ensures nodes { pass.new.nodes ≡ pass.old.nodes }
{
    let mut views = views;
    match views.push(view) {
        Ok(()) => Ok(views),
        Err(failed) => {
            if let Some(view) = failed.value {
                let _left = view.let_go(pass);
            }
            let_go_all(views, pass);
            Err(NoMemory)
        }
    }
}

/// This many buffers whose lines are from a cursor on, and the cursor behind them.
#[tactic(auto, using(raw_array::proofs::Buffers::buffer_lists))]
pub(crate) fn buffers(
    alloc: Global,
    bytes: &[u8],
    cursor: Cursor,
    count: u64,
    pass: &mut Pass,
) -> Result<(Vec<Option<BufView>>, Cursor), TextFault>
    requires cursor { IsCursor bytes.now cursor }
    requires room { length (left bytes.now cursor) ≤ pass.old.units }
    ensures read { IfOk result (λ r. BuffersRead bytes.now cursor r.1 count (buffers_of r.0.items)) }
    ensures fault { IfErr result (Stops bytes.now cursor (replicate count AtBuffer)) }
    ensures units { MatchResult result (λ r. pass.new.units + holds_of (buffers_of r.0.items) ≡ pass.old.units) (λ f. pass.new.units ≡ pass.old.units) }
    ensures blocks { IfOk result (λ r. pass.new.blocks ≡ risen pass.old.blocks (holds_of (buffers_of r.0.items))) }
    ensures nodes { pass.new.nodes ≡ pass.old.nodes }
{
    let mut made = Vec::new(alloc);
    let mut here = cursor;
    for _ in 0..count {
        match buffer(alloc, bytes, here, pass) {
            Ok((view, next)) => {
                made = added(made, view, pass)?;
                here = next;
            }
            Err(fault) => {
                let_go_all(made, pass);
                return Err(fault);
            }
        }
    }
    Ok((made, here))
}
