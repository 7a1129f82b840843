//! Pulling the stream below a step until the step gives a chunk, or the stream comes to its end.
ghost use Rattle.std.specs.Prelude.{◌≡◌, ◌≢◌, ◌+◌, ◌≤◌, List, [], ◌∷◌, map, pos, None, IsTrue, IfOk, OnErr, OnOk, MatchResult, get_or, true, false};
ghost use Rattle.std.specs.Thread.{IsSync};
ghost use Rattle.data_types.specs.ColumnView.{column_of};
ghost use Rattle.data_types.specs.promise.Table.{Column, Row};
ghost use Rattle.tree_model.specs.promise.TreeParts.{IsLive};
ghost use Rattle.tree_model.specs.promise.TreeData.{Released};
ghost use Rattle.raw_array.specs.promise.Members.{ArrayTree, Cost};
ghost use Rattle.data_types.specs.promise.TypedView.{typed_of};
ghost use Rattle.unit_pass.specs.declared.pass.TheConstants.{ROOM, SUPPLY};
ghost use Rattle.stream_face.specs.Calls.{Answers, Counts, IsCode, IsRowFault, Repeats, ShowsInOrder, Tells};
ghost use Rattle.stream_face.specs.Codes.{enomem};
ghost use Rattle.stream_face.specs.Lawful.{LawfulColumns};
ghost use Rattle.stream_face.specs.Meaning.{meaning, raw_link};
ghost use Rattle.stream_face.specs.Streams.{IsFresh, Keeps};
ghost use Rattle.stages.specs.Steps.{GivesNothing, GivesOut, IsNext, TakesIn, Turns, due_by, stepped};

use crate::step::ChunkStep;
use data_types::Typed;
use edge_io::Gate;
use raw_array::RawArray;
use std::alloc::Global;
use std::thread::Threads;
use stream_face::{ArrayStream, RawStream, Tap};
use unit_pass::{NoMemory, Pass, ROOM, SUPPLY};

/// Pushes the chunk that the stream below gave, or tells the step that it came to its end. What is given then lies in `out`,
/// which is released where that is nothing. Whether that is all: more is pulled where a chunk was taken and none given.
fn turn<S: ChunkStep, R: Threads + Sync>(
    step: &mut S,
    typed: &Typed,
    rt: &R,
    alloc: Global,
    out: &mut RawArray,
    pass: &mut Pass,
    gate: &(dyn Gate + Sync),
) -> Result<bool, NoMemory>
    requires shared { IsSync R.row }
    requires next { IsLive out.old → (before : List Column) × (rows : List Row) × (more : List (List Row)) × ∥ S.fits step.old before ∥₁
        × S.takes step.old before (rows ∷ more) × IsNext before rows more (typed_of typed.now) out.old }
    requires end { out.old ≡ Released → (before : List Column) × ∥ S.fits step.old before ∥₁ × LawfulColumns before × S.takes step.old before [] }
    requires room { ROOM ≤ pass.old.units + Cost out.old }
    requires supply { pass.old.units + Cost out.old ≤ SUPPLY }
    ensures columns { S.columns step.new ≡ S.columns step.old }
    ensures fits { (before : List Column) → ∥ S.fits step.old before ∥₁ → ∥ S.fits step.new before ∥₁ }
    ensures own_blocks { (rows : List Row) → S.blocks step.new rows ≡ S.blocks step.old rows }
    ensures own_nodes { (rows : List Row) → S.nodes step.new rows ≡ S.nodes step.old rows }
    ensures besides { (rows : List Row) (chunk : ArrayTree) → S.gives step.new rows chunk → S.gives step.old rows chunk }
    ensures units { pass.new.units + Cost out.new ≡ pass.old.units + Cost out.old }
    ensures released { OnErr result (out.new ≡ Released) }
    ensures goes_on { IfOk result (λ done. done ≡ false → IsLive out.old × (out.new ≡ Released)) }
    ensures done { IfOk result (λ done. done ≡ true → IsLive out.old → IsLive out.new) }
    ensures rests { OnErr result (IsTrue (S.rests step.new)) }
    ensures pushed { IsLive out.old → (before : List Column) (rows : List Row) (more : List (List Row)) → ∥ S.fits step.old before ∥₁
        → S.takes step.old before (rows ∷ more) → IsNext before rows more (typed_of typed.now) out.old
        → OnOk result (Turns (TakesIn (λ ending. S.ahead step.old ending (rows ∷ more)) (λ ending. S.ahead step.new ending more)
        (S.takes step.new before more) pass.old pass.new)
        (GivesOut (map column_of (S.columns step.old)) (S.blocks step.old) (S.nodes step.old) (S.gives step.old)
        (λ ending. S.ahead step.old ending (rows ∷ more)) (λ ending. S.ahead step.new ending more) (S.rests step.new) pass.old pass.new)
        out.new) }
    ensures finished { out.old ≡ Released → (before : List Column) → ∥ S.fits step.old before ∥₁ → LawfulColumns before → S.takes step.old before []
        → OnOk result (Turns (GivesNothing (S.ahead step.old None []) (S.ahead step.new None []) (S.rests step.new) pass.old pass.new)
        (GivesOut (map column_of (S.columns step.old)) (S.blocks step.old) (S.nodes step.old) (S.gives step.old)
        (λ _. S.ahead step.old None []) (λ _. S.ahead step.new None []) (S.rests step.new) pass.old pass.new)
        out.new) }
{
    if out.is_released() {
        match step.finish(alloc, pass) {
            Ok(None) => Ok(true),
            Ok(Some(last)) => {
                out.put(last);
                Ok(true)
            }
            Err(NoMemory) => {
                step.forget();
                Err(NoMemory)
            }
        }
    } else {
        match step.push(out.move_out(), typed, rt, alloc, pass, gate) {
            Ok(None) => Ok(false),
            Ok(Some(chunk)) => {
                out.put(chunk);
                Ok(true)
            }
            Err(NoMemory) => {
                step.forget();
                Err(NoMemory)
            }
        }
    }
}

/// Pulls the stream below a step, and pushes what it gives, until the step gives a chunk or has finished, or until a call is
/// refused. The step holds nothing of chunks before and after it.
pub(crate) fn pull<S: ChunkStep, U: ArrayStream, R: Threads + Sync, T: Tap>(
    step: &mut S,
    up: &mut RawStream<U>,
    rt: &R,
    alloc: Global,
    out: &mut RawArray,
    pass: &mut Pass,
    tap: &mut T,
    gate: &(dyn Gate + Sync),
) -> Result<i32, NoMemory>
    requires rests { IsTrue (S.rests step.old) }
    requires shared { IsSync R.row }
    requires live { IsTrue (meaning U.state up.old).live }
    requires lawful { IsTrue (meaning U.state up.old).lawful }
    requires fits { ∥ S.fits step.old (meaning U.state up.old).columns ∥₁ }
    requires empty { out.old ≡ Released }
    requires room { ROOM ≤ pass.old.units }
    ensures rests { IsTrue (S.rests step.new) }
    ensures keeps { Keeps (meaning U.state up.old) (meaning U.state up.new) }
    ensures columns { S.columns step.new ≡ S.columns step.old }
    ensures fits { (before : List Column) → ∥ S.fits step.old before ∥₁ → ∥ S.fits step.new before ∥₁ }
    ensures besides { (rows : List Row) (chunk : ArrayTree) → S.gives step.new rows chunk → S.gives step.old rows chunk }
    ensures code { IfOk result IsCode }
    ensures tells { IfOk result (λ code. Tells code (meaning U.state up.new).said) }
    ensures refuses { IfOk result (λ code. code ≢ pos 0 → out.new ≡ Released) }
    ensures released { OnErr result (out.new ≡ Released) }
    ensures units { pass.new.units + Cost out.new ≡ pass.old.units }
    ensures failure { OnOk result ((meaning U.state up.new).failure ≡ (meaning U.state up.new).said) }
    ensures row_fault { IfOk result (λ code. IsRowFault code (meaning U.state up.new).ending (meaning U.state up.new).fault) }
    ensures no_failure { OnErr result ((meaning U.state up.old).failure ≡ None) }
    ensures repeats { IfOk result
        (λ code. Repeats (meaning U.state up.old) (meaning U.state up.new) code pass.old pass.new (T.seen tap.old) (T.seen tap.new)) }
    ensures answers { IsFresh (meaning U.state up.old) → IfOk result
        (λ code. Answers (stepped (S.columns step.old) (S.ahead step.old) (raw_link up.old) (meaning U.state up.old))
        (stepped (S.columns step.new) (S.ahead step.new) (raw_link up.new) (meaning U.state up.new)) code out.new) }
    ensures gives { IsFresh (meaning U.state up.old) → IfOk result (λ code. code ≡ pos 0 → IsLive out.new
        → S.gives step.old (get_or (S.ahead step.old (meaning U.state up.old).ending (meaning U.state up.old).ahead) 0 []) out.new) }
    ensures counts { IsFresh (meaning U.state up.old) → IfOk result (λ code. code ≢ enomem
        → Counts (due_by (S.blocks step.old) (S.nodes step.old)
        (S.ahead step.old (meaning U.state up.old).ending (meaning U.state up.old).ahead) (meaning U.state up.old).due)
        (due_by (S.blocks step.new) (S.nodes step.new)
        (S.ahead step.new (meaning U.state up.new).ending (meaning U.state up.new).ahead) (meaning U.state up.new).due)
        pass.old pass.new out.new) }
    ensures shows { IsFresh (meaning U.state up.old) → MatchResult result
        (λ code. ShowsInOrder (stepped (S.columns step.old) (S.ahead step.old) (raw_link up.old) (meaning U.state up.old))
        (stepped (S.columns step.new) (S.ahead step.new) (raw_link up.new) (meaning U.state up.new)) code out.new (T.seen tap.old) (T.seen tap.new))
        (λ _. ShowsInOrder (stepped (S.columns step.old) (S.ahead step.old) (raw_link up.old) (meaning U.state up.old))
        (stepped (S.columns step.new) (S.ahead step.new) (raw_link up.new) (meaning U.state up.new)) enomem out.new (T.seen tap.old) (T.seen tap.new)) }
{
    let _units = pass.units();
    let _blocks = pass.blocks();
    let _nodes = pass.nodes();
    up.lawful_facts();
    step.lawful_facts();
    'chunks: loop {
        let code = up.next(rt, alloc, out, pass, tap, gate);
        if code != 0 {
            step.forget();
            return Ok(code);
        }
        match turn(step, up.typed(), rt, alloc, out, pass, gate) {
            Ok(true) => return Ok(0),
            Ok(false) => {}
            Err(NoMemory) => return Err(NoMemory),
        }
    }
}
