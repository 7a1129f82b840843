//! The text of all chunks of a stream.
ghost use Rattle.std.specs.Prelude.{◌≡◌, ◌≤◌, ◌+◌, ◌++◌, ◌∷◌, List, Option, Some, None, ℕ, IsTrue, IfOk, IfErr, OnOk, OnErr};
ghost use Rattle.std.specs.Thread.{IsSync};
ghost use Rattle.data_types.specs.promise.Table.{Column};
ghost use Rattle.data_types.specs.Parts.{joined_rows};
ghost use Rattle.tree_model.specs.promise.TreeData.{Released};
ghost use Rattle.raw_array.specs.promise.Members.{ArrayTree, Cost};
ghost use Rattle.csv_model.specs.Text.{rows_text};
ghost use Rattle.csv_write.specs.CsvTexts.{HasText};
ghost use Rattle.data_types.specs.KindTrees.{TypedOk};
ghost use Rattle.data_types.specs.promise.TypedView.{typed_of};
ghost use Rattle.layout_rules.specs.promise.Values.{rows_of};
ghost use Rattle.layout_rules.specs.promise.Walk.{LayoutOk};
ghost use Rattle.data_types.specs.promise.ColumnKinds.{type_of_columns};
ghost use Rattle.data_types.specs.declared.row_fault.RowFault.{RowFault as ARow};
ghost use Rattle.unit_pass.specs.declared.pass.TheConstants.{ROOM, SUPPLY};
ghost use Rattle.stream_face.specs.Meaning.{meaning};
ghost use Rattle.stream_face.specs.Streams.{IsFresh, Keeps, Stream, kept};
ghost use Rattle.csv_write.specs.promise.Runs.{ShowsAll, ShowsSome};
ghost use Rattle.csv_write.specs.Runs.{Counted};
ghost use Rattle.csv_write.specs.Faults.{IfRow, OnRow};

use crate::CsvText;
use crate::fault::DriveFault;
use arr_import::Col;
use data_types::{RowFault, Typed};
use edge_io::Gate;
use raw_array::RawArray;
use std::alloc::Global;
use std::thread::Threads;
use stream_face::{ArrayStream, EINVAL, RawStream, Tap};
use unit_pass::{NoMemory, Pass, ROOM, SUPPLY};

/// Why a stream that refused has no text.
fn fault_of(row: Option<RowFault>) -> DriveFault
    ensures told { IfRow result (λ fault. row ≡ Some fault) }
    ensures stays { (fault : ARow) → row ≡ Some fault → result ≡ DriveFault.Row fault }
{
    match row {
        Some(row) => DriveFault::Row(row),
        None => DriveFault::NoMemory,
    }
}

/// Writes the rows of a chunk, which are read from where they are.
fn add_chunk(
    alloc: Global,
    typed: &Typed,
    chunk: &RawArray,
    text: &mut CsvText,
) -> Result<(), NoMemory>
    requires types { TypedOk (typed_of typed.now) }
    requires lawful { LayoutOk (typed_of typed.now) chunk.now }
    requires text { (mark : List ℕ) × (columns : List Column) × (written : List ℕ) × HasText text.old mark columns written
        × (typed_of typed.now ≡ type_of_columns columns) }
    ensures { OnOk result ((mark : List ℕ) (columns : List Column) (written : List ℕ) → HasText text.old mark columns written
        → typed_of typed.now ≡ type_of_columns columns
        → HasText text.new mark columns (written ++ rows_text mark columns (rows_of (typed_of typed.now) chunk.now))) }
{
    text.add(alloc, Col::of(typed, chunk))
}

/// Writes the rows of all chunks that a lawful stream still gives.
fn pull_all<U: ArrayStream, R: Threads + Sync, T: Tap>(
    stream: &mut RawStream<U>,
    rt: &R,
    alloc: Global,
    text: &mut CsvText,
    pass: &mut Pass,
    tap: &mut T,
    gate: &(dyn Gate + Sync),
) -> Result<(), DriveFault>
    requires shared { IsSync R.row }
    requires live { IsTrue (meaning U.state stream.old).live }
    requires lawful { IsTrue (meaning U.state stream.old).lawful }
    requires room { ROOM ≤ pass.old.units }
    requires text { (mark : List ℕ) × (written : List ℕ) × HasText text.old mark (meaning U.state stream.old).columns written }
    ensures keeps { Keeps (meaning U.state stream.old) (meaning U.state stream.new) }
    ensures units { pass.new.units ≡ pass.old.units }
    ensures text { OnOk result ((mark : List ℕ) (written : List ℕ) → HasText text.old mark (meaning U.state stream.old).columns written
        → HasText text.new mark (meaning U.state stream.old).columns
        (written ++ rows_text mark (meaning U.state stream.old).columns (joined_rows (meaning U.state stream.old).ahead))) }
    ensures ends { OnOk result ((meaning U.state stream.old).ending ≡ None) }
    ensures row { IfErr result (λ e. IfRow e (λ fault. (meaning U.state stream.old).ending ≡ Some fault)) }
    ensures counts { OnOk result (Counted (meaning U.state stream.old).due pass.old pass.new) }
    ensures refused_counts { IsFresh (meaning U.state stream.old) → OnRow result (Counted (meaning U.state stream.old).due pass.old pass.new) }
    ensures shows { OnOk result (ShowsAll (meaning U.state stream.old).joints (meaning U.state stream.old).makings (T.seen tap.old) (T.seen tap.new)) }
    ensures refused_shows { IsFresh (meaning U.state stream.old)
        → OnRow result (ShowsAll (meaning U.state stream.old).joints (meaning U.state stream.old).makings (T.seen tap.old) (T.seen tap.new)) }
    ensures shows_some { OnErr result (ShowsSome (meaning U.state stream.old).joints (meaning U.state stream.old).makings (T.seen tap.old) (T.seen tap.new)) }
{
    let _supply = pass.units();
    let _blocks = pass.blocks();
    let _nodes = pass.nodes();
    let mut chunk = RawArray::released();
    'chunks: loop {
        let code = stream.next(rt, alloc, &mut chunk, pass, tap, gate);
        if code != 0 {
            chunk.discard();
            return Err(if code == EINVAL {
                fault_of(stream.row_fault())
            } else {
                DriveFault::NoMemory
            });
        }
        if chunk.is_released() {
            chunk.discard();
            return Ok(());
        }
        let added = add_chunk(alloc, stream.typed(), &chunk, text);
        chunk.release(pass);
        match added {
            Ok(()) => {}
            Err(NoMemory) => {
                chunk.discard();
                return Err(DriveFault::NoMemory);
            }
        }
    }
}

/// Adds the rows of all chunks that a lawful stream still gives to a text, and gives the text. The stream is spent.
///
/// # Errors
///
/// The record at which the stream ends, or `NoMemory`, which comes only where memory runs out. Either way all units of the
/// stream are back.
// A function of its own, since a chain of streams has one for each of its levels.
#[inline(never)]
pub fn write_rows<U: ArrayStream, R: Threads + Sync, T: Tap>(
    stream: RawStream<U>,
    rt: &R,
    alloc: Global,
    text: CsvText,
    pass: &mut Pass,
    tap: &mut T,
    gate: &(dyn Gate + Sync),
) -> Result<Vec<u8>, DriveFault>
    requires shared { IsSync R.row }
    requires live { IsTrue (meaning U.state stream).live }
    requires lawful { IsTrue (meaning U.state stream).lawful }
    requires room { ROOM ≤ pass.old.units }
    requires supply { pass.old.units + kept (meaning U.state stream) ≤ SUPPLY }
    requires text { (mark : List ℕ) × (written : List ℕ) × HasText text mark (meaning U.state stream).columns written }
    ensures text { IfOk result (λ made. (mark written : List ℕ) → HasText text mark (meaning U.state stream).columns written
        → made.items ≡ written ++ rows_text mark (meaning U.state stream).columns (joined_rows (meaning U.state stream).ahead)) }
    ensures ends { OnOk result ((meaning U.state stream).ending ≡ None) }
    ensures row { IfErr result (λ e. IfRow e (λ fault. (meaning U.state stream).ending ≡ Some fault)) }
    ensures units { pass.new.units ≡ pass.old.units + kept (meaning U.state stream) }
    ensures counts { OnOk result (Counted (meaning U.state stream).due pass.old pass.new) }
    // All was counted and shown as well where a record is refused, if the stream had not refused before.
    ensures refused_counts { IsFresh (meaning U.state stream) → OnRow result (Counted (meaning U.state stream).due pass.old pass.new) }
    ensures shows { OnOk result (ShowsAll (meaning U.state stream).joints (meaning U.state stream).makings (T.seen tap.old) (T.seen tap.new)) }
    ensures refused_shows { IsFresh (meaning U.state stream)
        → OnRow result (ShowsAll (meaning U.state stream).joints (meaning U.state stream).makings (T.seen tap.old) (T.seen tap.new)) }
    ensures shows_some { OnErr result (ShowsSome (meaning U.state stream).joints (meaning U.state stream).makings (T.seen tap.old) (T.seen tap.new)) }
{
    let mut stream = stream;
    let mut text = text;
    let pulled = pull_all(&mut stream, rt, alloc, &mut text, pass, tap, gate);
    stream.release(pass);
    stream.discard();
    match pulled {
        Ok(()) => match text.finish() {
            Ok(text) => Ok(text),
            Err(NoMemory) => Err(DriveFault::NoMemory),
        },
        Err(fault) => Err(fault),
    }
}
