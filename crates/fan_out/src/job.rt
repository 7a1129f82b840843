//! The trait of jobs, which are done on a window of a chunk's rows.
ghost use Rattle.std.specs.Prelude.{◌≤ℤ◌, ℤ, pos, List, length, IfOk};
ghost use Rattle.data_types.specs.promise.Table.{Row};
ghost use Rattle.raw_array.specs.promise.Members.{ArrayTree};
ghost use Rattle.data_types.specs.promise.KindTrees.{KindTree};
ghost use Rattle.data_types.specs.KindTrees.{TypedOk};
ghost use Rattle.data_types.specs.promise.TypedView.{typed_of};
ghost use Rattle.layout_rules.specs.promise.Values.{rows_of};
ghost use Rattle.layout_rules.specs.promise.Walk.{ChunkOk};

use data_types::Typed;
use raw_array::RawArray;
use unit_pass::NoMemory;

/// Work on a window of a chunk's rows, which any thread may do. What it answers is said by the chunk's types and rows and by
/// the window: not by how the rows lie in blocks, nor by how much of a block a hold has.
///
/// A job that needs memory has its allocator, and one that needs a column asks for it in `fits`.
pub trait Job {
    /// What is answered for one window. It is plain data: no tree and no hold comes out of a worker.
    type Out;

    /// The answers that the job may give, by the chunk's types, its rows, and the window's two ends, counted from 0.
    ghost gives: { Self → KindTree → List Row → ℤ → ℤ → Self.Out → Type 0 };

    /// What an answer has to do with the very tree that it was read from, beside what its rows say. Of most jobs that is nothing.
    ghost reads: { Self → ArrayTree → ℤ → ℤ → Self.Out → Type 0 };

    /// The chunks that the job can read, by their types and rows.
    ghost fits: { Self → KindTree → List Row → Type 0 };

    /// The answer for the rows from `from` on, up to `to` and without it. `NoMemory` comes only where memory runs out.
    fn run(
        &self,
        typed: &Typed,
        chunk: &RawArray,
        from: i64,
        to: i64,
    ) -> Result<Self::Out, NoMemory>
        requires types { TypedOk (typed_of typed.now) }
        requires chunk { ChunkOk (typed_of typed.now) chunk.now }
        requires fits { fits self.now (typed_of typed.now) (rows_of (typed_of typed.now) chunk.now) }
        requires window { (pos 0 ≤ℤ from) × (from ≤ℤ to) × (to ≤ℤ pos (length (rows_of (typed_of typed.now) chunk.now))) }
        ensures answer { IfOk result (gives self.now (typed_of typed.now) (rows_of (typed_of typed.now) chunk.now) from to) }
        ensures read { IfOk result (reads self.now chunk.now from to) };
}
