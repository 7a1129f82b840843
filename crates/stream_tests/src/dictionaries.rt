//! What the holder of a stage that gives a column a dictionary learns of the chunks that it gets.
ghost use Rattle.std.specs.Prelude.{◌≡◌, ◌≢◌, ◌<◌, ◌≤◌, All, IsTrue, List, [], ◌∷◌, get_or, length, pos};
ghost use Rattle.std.specs.Thread.{IsSync};
ghost use Rattle.data_types.specs.promise.Parts.{column_values};
ghost use Rattle.data_types.specs.promise.Table.{Dict, Flat, Row};
ghost use Rattle.data_types.specs.promise.Value.{Null};
ghost use Rattle.data_types.specs.declared.kind.DataType.{DataType};
ghost use Rattle.tree_model.specs.promise.TreeParts.{IsLive, child_at};
ghost use Rattle.tree_model.specs.promise.TreeData.{Released};
ghost use Rattle.tree_model.specs.Tree.{dictionary_at};
ghost use Rattle.raw_array.specs.promise.Members.{ArrayTree};
ghost use Rattle.data_types.specs.promise.ColumnKinds.{type_of_kind};
ghost use Rattle.layout_rules.specs.promise.Values.{values_of};
ghost use Rattle.unit_pass.specs.declared.pass.TheConstants.{ROOM};
ghost use Rattle.stage_model.specs.promise.Dictionary.{Dictionary};
ghost use Rattle.stage_model.specs.Typing.{column_at};
ghost use Rattle.stages.specs.Stages.{stage_gives};
ghost use Rattle.stream_face.specs.Streams.{IsFresh};
ghost use Rattle.dict_stage.specs.Indices.{HasColumn};

use dict_stage::{RecodeStep, dictionaries_are_exact};
use edge_io::Gate;
use raw_array::RawArray;
use stages::{ChunkStep, Stage};
use std::alloc::Global;
use std::thread::Threads;
use stream_face::{ArrayStream, Tap};
use unit_pass::{Pass, ROOM};

/// The next chunk of such a stage. The values of the column's dictionary are the distinct ones of the column, in the order in
/// which they first appear, and none of them is null; and so it stays at the next call.
fn next_coded<U: ArrayStream, R: Threads + Sync, T: Tap>(
    stage: &mut Stage<U, RecodeStep>,
    column: usize,
    rt: &R,
    alloc: Global,
    out: &mut RawArray,
    pass: &mut Pass,
    tap: &mut T,
    gate: &(dyn Gate + Sync),
) -> i32
    requires shared { IsSync R.row }
    requires live { IsTrue (⟦<Stage<U, RecodeStep> as ArrayStream>⟧.state stage.old).live }
    requires fresh { IsFresh (⟦<Stage<U, RecodeStep> as ArrayStream>⟧.state stage.old) }
    requires empty { out.old ≡ Released }
    requires room { ROOM ≤ pass.old.units }
    requires coded { (rows : List Row) (chunk : ArrayTree) → stage_gives ⟦<RecodeStep as ChunkStep>⟧.gives stage.old rows chunk
        → HasColumn column (⟦<Stage<U, RecodeStep> as ArrayStream>⟧.state stage.old).columns (rows ∷ []) chunk }
    ensures coded { (rows : List Row) (chunk : ArrayTree) → stage_gives ⟦<RecodeStep as ChunkStep>⟧.gives stage.new rows chunk
        → HasColumn column (⟦<Stage<U, RecodeStep> as ArrayStream>⟧.state stage.new).columns (rows ∷ []) chunk }
    ensures dictionary { (type : DataType) → column < length (⟦<Stage<U, RecodeStep> as ArrayStream>⟧.state stage.old).columns
        → (column_at (⟦<Stage<U, RecodeStep> as ArrayStream>⟧.state stage.old).columns column).kind ≡ Dict type → result ≡ pos 0 → IsLive out.new
        → values_of (type_of_kind (Flat type)) (dictionary_at (child_at out.new column))
        ≡ Dictionary (column_values column (get_or (⟦<Stage<U, RecodeStep> as ArrayStream>⟧.state stage.old).ahead 0 [])) }
    ensures full { All (λ value. value ≢ Null)
        (Dictionary (column_values column (get_or (⟦<Stage<U, RecodeStep> as ArrayStream>⟧.state stage.old).ahead 0 []))) }
{
    stage.lawful_facts();
    dictionaries_are_exact();
    stage.get_next(rt, alloc, out, pass, tap, gate)
}
