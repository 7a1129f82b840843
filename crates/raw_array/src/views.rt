//! The views of a node's buffers, one after another: counted, let go, and shared.
ghost use Rattle.std.specs.Prelude.{◌≡◌, ◌+◌, ◌≤◌, [], ◌∷◌, map, if◌then◌else◌, is_ok, IfOk, IfSome, IsTrue, IsUtf8, OnOk, OnErr};
ghost use Rattle.raw_array.specs.promise.Members.{bytes_in, holds_of, whole};
ghost use Rattle.raw_array.specs.Members.{least_of, shared_buffer, lowered_buffer, OneLowerBuffers};
ghost use Rattle.raw_array.specs.View.{buffer_if, buffers_of};

use buf_block::{AMOUNT, BufView, let_go_all};
use std::alloc::Global;
use unit_pass::{NoMemory, Pass};

#[tactic(auto, using(crate::proofs::Buffers::buffer_lists))]
pub(crate) fn count_holds(buffers: &[Option<BufView>]) -> u64
    ensures { result ≡ holds_of (buffers_of buffers.now) }
{
    let mut holds = 0;
    for buffer in buffers {
        holds += holds_in(buffer);
    }
    holds
}

fn holds_in(buffer: &Option<BufView>) -> u64
    ensures exact { result ≡ holds_of (buffer_if buffer.now ∷ []) }
    ensures bounded { result ≤ 1 }
{
    match buffer {
        None => 0,
        Some(_) => 1,
    }
}

/// A buffer is the whole of a block that is marked as text.
pub(crate) fn is_text(buffer: &Option<BufView>) -> bool
    ensures { IsTrue result → IfSome (bytes_in (buffer_if buffer.now)) IsUtf8 }
{
    match buffer {
        None => false,
        Some(view) => view.is_text(),
    }
}

/// The least amount of the holds.
#[tactic(auto, using(crate::proofs::Buffers::buffer_lists))]
pub(crate) fn least_in(buffers: &[Option<BufView>]) -> u64
    ensures exact { result ≡ least_of (buffers_of buffers.now) }
    ensures bounded { least_of (buffers_of buffers.now) ≤ whole }
{
    let mut least = AMOUNT;
    for buffer in buffers {
        least = least.min(amount_in(buffer));
    }
    least
}

fn amount_in(buffer: &Option<BufView>) -> u64
    ensures exact { result ≡ least_of (buffer_if buffer.now ∷ []) }
    ensures bounded { result ≤ whole }
{
    match buffer {
        None => AMOUNT,
        Some(view) => view.hold.amount(),
    }
}

/// The views of a share. The holds they were taken from have lowered amounts then.
#[tactic(auto, using(crate::proofs::Shares::shares))]
pub(crate) fn shared_views(
    buffers: &mut Vec<Option<BufView>>,
    alloc: Global,
    pass: &mut Pass,
) -> Result<Vec<Option<BufView>>, NoMemory>
    requires amounts { 2 ≤ least_of (buffers_of buffers.old.items) }
    requires units { holds_of (buffers_of buffers.old.items) ≤ pass.old.units }
    ensures shared { IfOk result (λ views. buffers_of views.items ≡ map shared_buffer (buffers_of buffers.old.items)) }
    ensures lowered { OnOk result (buffers_of buffers.new.items ≡ map lowered_buffer (buffers_of buffers.old.items)) }
    ensures one_lower { OnErr result (OneLowerBuffers (buffers_of buffers.old.items) (buffers_of buffers.new.items)) }
    ensures units { pass.new.units + (if is_ok result then holds_of (buffers_of buffers.old.items) else 0) ≡ pass.old.units }
    ensures blocks { pass.new.blocks ≡ pass.old.blocks }
    ensures nodes { pass.new.nodes ≡ pass.old.nodes }
{
    let Ok(mut views) = Vec::with_capacity(alloc, buffers.len()) else {
        return Err(NoMemory);
    };
    for i in 0..buffers.len() {
        match shared_view(&mut buffers[i], pass) {
            Ok(view) => views.push_reserved(view),
            Err(NoMemory) => {
                let_go_all(views, pass);
                return Err(NoMemory);
            }
        }
    }
    Ok(views)
}

fn shared_view(buffer: &mut Option<BufView>, pass: &mut Pass) -> Result<Option<BufView>, NoMemory>
    requires amount { 2 ≤ least_of (buffer_if buffer.old ∷ []) }
    requires units { holds_of (buffer_if buffer.old ∷ []) ≤ pass.old.units }
    ensures shared { IfOk result (λ view. buffer_if view ≡ shared_buffer (buffer_if buffer.old)) }
    ensures lowered { OnOk result (buffer_if buffer.new ≡ lowered_buffer (buffer_if buffer.old)) }
    ensures kept { OnErr result (buffer_if buffer.new ≡ buffer_if buffer.old) }
    ensures units { pass.new.units + (if is_ok result then holds_of (buffer_if buffer.old ∷ []) else 0) ≡ pass.old.units }
    ensures blocks { pass.new.blocks ≡ pass.old.blocks }
    ensures nodes { pass.new.nodes ≡ pass.old.nodes }
{
    match buffer {
        None => Ok(None),
        Some(view) => match view.hold.take(pass) {
            Ok(hold) => Ok(Some(BufView {
                hold,
                start: view.start,
                len: view.len,
            })),
            Err(NoMemory) => Err(NoMemory),
        },
    }
}
