//! A step: what a stage does to a chunk, and at the end of the stream below it.
ghost use Rattle.std.specs.Prelude.{◌≡◌, ◌+◌, ◌≤◌, ℕ, Bool, List, [], ◌∷◌, map, Option, None, Some, IsTrue, IfOk, MatchResult};
ghost use Rattle.std.specs.Thread.{IsSync};
ghost use Rattle.data_types.specs.ColumnView.{column_of};
ghost use Rattle.data_types.specs.promise.Table.{Column, Row};
ghost use Rattle.data_types.specs.declared.kind.ColumnType.{ColumnType};
ghost use Rattle.data_types.specs.declared.row_fault.RowFault.{RowFault};
ghost use Rattle.raw_array.specs.promise.Members.{ArrayTree, Cost};
ghost use Rattle.data_types.specs.promise.TypedView.{typed_of};
ghost use Rattle.unit_pass.specs.declared.pass.TheConstants.{ROOM, SUPPLY};
ghost use Rattle.stream_face.specs.Lawful.{LawfulColumns, LawfulTables};
ghost use Rattle.stages.specs.Steps.{Finishes, IsNext, Pushes, cost_given};

use crate::out_columns::OutColumns;
use data_types::Typed;
use edge_io::Gate;
use raw_array::RawArray;
use std::alloc::Global;
use std::thread::Threads;
use unit_pass::{NoMemory, Pass, ROOM, SUPPLY};

/// What a stage does to chunks. It sees no stream: it is pushed one chunk after the other and gives at most one for each, and
/// at the end of the stream below it may give one more.
///
/// Who adds a stage writes its rows (`fits`, `columns`, `ahead`), its counts (`blocks`, `nodes`), what its chunks have besides
/// (`gives`; `rows_only` where that is nothing), what `push` makes of a chunk, and the law of `lawful_facts`. A step that holds
/// nothing of chunks has `always` for `rests` and `any_tables` for `takes`, gives nothing in `finish` and does nothing in `forget`.
/// The stream needs no work: its schema, the order of calls, an out-of-memory that stays, refusals, what is shown and counted
/// below ([`Stage`](crate::Stage)).
///
/// After a chunk that it gave, a step holds nothing of chunks (`rests`). One that keeps something of them between two chunks that it
/// gives needs more: a stage that has `takes` in its ghost field in the place of `rests`, and an `ahead` that is empty once a call
/// has failed, since a stream is lawful at every moment.
pub trait ChunkStep: Drop {
    /// The columns after it.
    ghost columns: { Self → List ColumnType };

    /// It is made for these columns.
    ghost fits: { Self → List Column → Type 0 };

    /// The tables that it still gives, from how the stream below it ends and the tables that are still to be pushed.
    ghost ahead: { Self → Option RowFault → List (List Row) → List (List Row) };

    /// The blocks that it counts for a chunk of these rows that it gives.
    ghost blocks: { Self → List Row → ℕ };

    /// And the nodes.
    ghost nodes: { Self → List Row → ℕ };

    /// What a chunk of these rows that it gives has besides them.
    ghost gives: { Self → List Row → ArrayTree → Type 0 };

    /// It holds nothing of chunks that were pushed.
    ghost rests: { Self → Bool };

    /// It can be pushed these tables, of these columns, behind those of which it holds something.
    ghost takes: { Self → List Column → List (List Row) → Type 0 };

    /// The columns after it, lent.
    fn after(&self) -> &OutColumns
        ensures { result.now ≡ columns self.now };

    /// Takes a chunk, and gives one or none. Where memory runs out the chunk is released.
    fn push<R: Threads + Sync>(
        &mut self,
        chunk: RawArray,
        typed: &Typed,
        rt: &R,
        alloc: Global,
        pass: &mut Pass,
        gate: &(dyn Gate + Sync),
    ) -> Result<Option<RawArray>, NoMemory>
        requires shared { IsSync R.row }
        requires next { (before : List Column) × (rows : List Row) × (more : List (List Row)) × ∥ fits self.old before ∥₁
            × takes self.old before (rows ∷ more) × IsNext before rows more (typed_of typed.now) chunk }
        requires room { ROOM ≤ pass.old.units + Cost chunk }
        requires supply { pass.old.units + Cost chunk ≤ SUPPLY }
        ensures columns { columns self.new ≡ columns self.old }
        ensures fits { (before : List Column) → ∥ fits self.old before ∥₁ → ∥ fits self.new before ∥₁ }
        ensures own_blocks { (rows : List Row) → blocks self.new rows ≡ blocks self.old rows }
        ensures own_nodes { (rows : List Row) → nodes self.new rows ≡ nodes self.old rows }
        ensures besides { (rows : List Row) (chunk : ArrayTree) → gives self.new rows chunk → gives self.old rows chunk }
        ensures units { MatchResult result (λ given. pass.new.units + cost_given given ≡ pass.old.units + Cost chunk)
            (λ _. pass.new.units ≡ pass.old.units + Cost chunk) }
        ensures pushed { (before : List Column) (rows : List Row) (more : List (List Row)) → ∥ fits self.old before ∥₁
            → takes self.old before (rows ∷ more) → IsNext before rows more (typed_of typed.now) chunk
            → IfOk result (Pushes (map column_of (columns self.old)) (blocks self.old) (nodes self.old) (gives self.old)
            (λ ending. ahead self.old ending (rows ∷ more)) (λ ending. ahead self.new ending more)
            (takes self.new before more) (rests self.new) pass.old pass.new) };

    /// Gives a last chunk, or none, at the end of the stream below it.
    fn finish(&mut self, alloc: Global, pass: &mut Pass) -> Result<Option<RawArray>, NoMemory>
        requires end { (before : List Column) × ∥ fits self.old before ∥₁ × LawfulColumns before × takes self.old before [] }
        requires room { ROOM ≤ pass.old.units }
        ensures columns { columns self.new ≡ columns self.old }
        ensures fits { (before : List Column) → ∥ fits self.old before ∥₁ → ∥ fits self.new before ∥₁ }
        ensures own_blocks { (rows : List Row) → blocks self.new rows ≡ blocks self.old rows }
        ensures own_nodes { (rows : List Row) → nodes self.new rows ≡ nodes self.old rows }
        ensures besides { (rows : List Row) (chunk : ArrayTree) → gives self.new rows chunk → gives self.old rows chunk }
        ensures units { MatchResult result (λ given. pass.new.units + cost_given given ≡ pass.old.units) (λ _. pass.new.units ≡ pass.old.units) }
        ensures finished { (before : List Column) → ∥ fits self.old before ∥₁ → LawfulColumns before → takes self.old before []
            → IfOk result (Finishes (map column_of (columns self.old)) (blocks self.old) (nodes self.old) (gives self.old)
            (ahead self.old None []) (ahead self.new None []) (rests self.new) pass.old pass.new) };

    /// Forgets what it holds of chunks, since no more will come: the stream below it was refused, or memory ran out.
    fn forget(&mut self)
        ensures rests { IsTrue (rests self.new) }
        ensures columns { columns self.new ≡ columns self.old }
        ensures fits { (before : List Column) → ∥ fits self.old before ∥₁ → ∥ fits self.new before ∥₁ }
        ensures own_blocks { (rows : List Row) → blocks self.new rows ≡ blocks self.old rows }
        ensures own_nodes { (rows : List Row) → nodes self.new rows ≡ nodes self.old rows }
        ensures besides { (rows : List Row) (chunk : ArrayTree) → gives self.new rows chunk → gives self.old rows chunk }
        ensures refused { (fault : RowFault) → (ahead self.old (Some fault) [] ≡ []) × (ahead self.new (Some fault) [] ≡ []) };

    /// A law: the columns after it are lawful, and so are the tables that it gives, since those before it are; and while it
    /// holds nothing, it can be pushed whatever is lawful. The call does nothing.
    fn lawful_facts(&self)
        ensures columns { (before : List Column) → ∥ fits self.now before ∥₁ → LawfulColumns before
            → LawfulColumns (map column_of (columns self.now)) }
        ensures tables { IsTrue (rests self.now) → (before : List Column) (ending : Option RowFault) (tables : List (List Row)) → ∥ fits self.now before ∥₁
            → LawfulColumns before → LawfulTables before tables
            → LawfulTables (map column_of (columns self.now)) (ahead self.now ending tables) }
        ensures begins { IsTrue (rests self.now) → (before : List Column) (tables : List (List Row)) → ∥ fits self.now before ∥₁
            → LawfulColumns before → LawfulTables before tables → takes self.now before tables };
}
