//! The consumer: it takes the chunks of a stream and adds up their first column.
ghost use Rattle.std.specs.Prelude.{◌≡◌, ◌≤◌, ◌+◌, [], IsTrue};
ghost use Rattle.data_types.specs.KindTrees.{TypedOk};
ghost use Rattle.data_types.specs.promise.TypedView.{typed_of};
ghost use Rattle.layout_rules.specs.promise.Walk.{ChunkOk};
ghost use Rattle.stream_face.specs.Meaning.{meaning};
ghost use Rattle.stream_face.specs.Streams.{kept};
ghost use Rattle.unit_pass.specs.declared.pass.TheConstants.{CHUNK, ROOM, SUPPLY};

use arr_import::Col;
use data_types::Typed;
use edge_io::OpenGate;
use layout_rules::chunks_are_tables;
use raw_array::RawArray;
use std::alloc::Global;
use std::thread::Threads;
use stream_face::{ArrayStream, NoTap, RawStream, StreamFault};
use unit_pass::{CHUNK, Pass, ROOM, SUPPLY};

/// How many chunks are taken at most.
const MOST: u32 = 1000;

/// The rows, and the sum of those whose number isn't null.
#[derive(Clone, Copy)]
pub struct Total {
    pub rows: u64,
    pub sum: i128,
}

/// Adds up a chunk.
fn add(total: &mut Total, typed: &Typed, chunk: &RawArray)
    requires types { TypedOk (typed_of typed.now) }
    requires lawful { ChunkOk (typed_of typed.now) chunk.now }
{
    chunks_are_tables();
    let table = Col::of(typed, chunk);
    if table.n_children() == 0 {
        return;
    }
    let numbers = table.child(0);
    for row in 0..numbers.len() {
        total.rows = total.rows.saturating_add(1);
        total.sum = total.sum.saturating_add(numbers.whole(row).unwrap_or(0));
    }
}

/// Takes the chunks of a stream, each of which is released.
///
/// # Errors
///
/// Why the stream refused; none where it gave too many chunks.
fn take<S: ArrayStream, R: Threads + Sync>(
    rt: &R,
    alloc: Global,
    stream: &mut RawStream<S>,
    pass: &mut Pass,
) -> Result<Total, Option<StreamFault>>
    requires live { IsTrue (meaning S.state stream.old).live }
    requires room { ROOM ≤ pass.old.units }
    ensures live { (meaning S.state stream.new).live ≡ (meaning S.state stream.old).live }
    ensures held { (meaning S.state stream.new).held ≡ (meaning S.state stream.old).held }
    ensures units { pass.new.units ≡ pass.old.units }
{
    let mut total = Total { rows: 0, sum: 0 };
    let mut chunk = RawArray::released();
    for _ in 0..MOST {
        let code = stream.next(rt, alloc, &mut chunk, pass, &mut NoTap, &OpenGate);
        if code != 0 {
            chunk.discard();
            return Err(stream.fault());
        }
        if chunk.is_released() {
            chunk.discard();
            return Ok(total);
        }
        add(&mut total, stream.typed(), &chunk);
        chunk.release(pass);
    }
    chunk.discard();
    Err(None)
}

/// Releases a stream with all below it.
pub fn end<S: ArrayStream>(stream: S, pass: &mut Pass)
    requires supply { pass.old.units + kept (S.state stream) ≤ SUPPLY }
    ensures units { pass.new.units ≡ pass.old.units + kept (S.state stream) }
{
    let mut stream = stream;
    stream.release(pass);
    stream.discard();
}

/// Adds up what a lawful stream gives, and releases it. None where it refused.
pub fn read<S: ArrayStream, R: Threads + Sync>(
    rt: &R,
    alloc: Global,
    stream: S,
    pass: &mut Pass,
) -> Option<Total>
    requires live { IsTrue (S.state stream).live }
    requires lawful { IsTrue (S.state stream).lawful }
    requires own_link { (S.state stream).joints 1 ≡ [] }
    requires room { ROOM + CHUNK ≤ pass.old.units }
    requires supply { pass.old.units + kept (S.state stream) ≤ SUPPLY }
    ensures units { pass.new.units ≡ pass.old.units + kept (S.state stream) }
{
    match RawStream::start(alloc, stream, 1, pass) {
        Ok(mut checked) => {
            let total = take(rt, alloc, &mut checked, pass);
            checked.release(pass);
            checked.discard();
            total.ok()
        }
        Err((stream, _fault)) => {
            end(stream, pass);
            None
        }
    }
}
