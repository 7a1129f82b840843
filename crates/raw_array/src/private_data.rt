//! What a live node keeps of its own, behind the private data of the C data interface: the holds of its buffers and its
//! unit.
ghost use Rattle.std.specs.Prelude.{◌≡◌, ◌+◌, ◌<◌, ◌≤◌, if◌then◌else◌, is_ok, IfOk, IfErr};
ghost use Rattle.raw_place.specs.Kept.{value_of};
ghost use Rattle.raw_array.specs.promise.Members.{holds_of};
ghost use Rattle.raw_array.specs.View.{buffers_of};

use buf_block::{BufView, let_go_all};
use raw_place::Place;
use std::alloc::Global;
use unit_pass::{NoMemory, Pass, SUPPLY, Unit};

/// A node's own record.
pub(crate) struct Private {
    pub(crate) buffers: Vec<Option<BufView>>,
    unit: Unit,
}

/// Draws a unit for a node, and places it with the node's buffers. Where memory runs out the buffers come back.
#[inline(always)]
pub(crate) fn placed_private(
    alloc: Global,
    buffers: Vec<Option<BufView>>,
    pass: &mut Pass,
) -> Result<Place<Private>, (Vec<Option<BufView>>, NoMemory)>
    requires { 1 ≤ pass.old.units }
    ensures kept { IfOk result (λ place. (value_of place).buffers.items ≡ buffers.items) }
    ensures handed_back { IfErr result (λ refused. refused.0.items ≡ buffers.items) }
    ensures units { pass.new.units + (if is_ok result then 1 else 0) ≡ pass.old.units }
    ensures blocks { pass.new.blocks ≡ pass.old.blocks }
    ensures nodes { pass.new.nodes ≡ pass.old.nodes }
{
    let private = Private {
        buffers,
        unit: pass.draw(),
    };
    match Place::put(alloc, private) {
        Ok(place) => Ok(place),
        Err((private, NoMemory)) => {
            let Private { buffers, unit } = private;
            pass.give_back(unit);
            Err((buffers, NoMemory))
        }
    }
}

/// Ends a node's record: its unit goes back, and its buffers are handed out.
pub(crate) fn taken_private(private: Place<Private>, pass: &mut Pass) -> Vec<Option<BufView>>
    requires { pass.old.units < SUPPLY }
    ensures buffers { result.items ≡ (value_of private).buffers.items }
    ensures units { pass.new.units ≡ pass.old.units + 1 }
    ensures blocks { pass.new.blocks ≡ pass.old.blocks }
    ensures nodes { pass.new.nodes ≡ pass.old.nodes }
{
    let Private { buffers, unit } = private.take();
    pass.give_back(unit);
    buffers
}

/// Ends a node's record with its holds, whose units go back.
#[inline(always)]
#[tactic(auto, using(crate::proofs::Buffers::buffer_lists))]
pub(crate) fn end_private(private: Place<Private>, pass: &mut Pass)
    requires { pass.old.units + 1 + holds_of (buffers_of (value_of private).buffers.items) ≤ SUPPLY }
    ensures units { pass.new.units ≡ pass.old.units + 1 + holds_of (buffers_of (value_of private).buffers.items) }
    ensures blocks { pass.new.blocks ≡ pass.old.blocks }
    ensures nodes { pass.new.nodes ≡ pass.old.nodes }
{
    let buffers = taken_private(private, pass);
    let_go_all(buffers, pass);
}
