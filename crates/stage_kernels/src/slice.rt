//! The step that keeps the rows of a window.
ghost use Rattle.std.specs.Prelude.{◌≡◌, ◌+◌, ◌-◌, ◌≤◌, pos, List, Some, map};
ghost use Rattle.data_types.specs.ColumnView.{column_of};
ghost use Rattle.data_types.specs.promise.Table.{Column};
ghost use Rattle.raw_array.specs.promise.Members.{Cost};
ghost use Rattle.raw_array.specs.Windows.{Window};
ghost use Rattle.unit_pass.specs.declared.pass.TheConstants.{SUPPLY};
ghost use Rattle.data_types.specs.promise.ColumnKinds.{type_of_columns};
ghost use Rattle.layout_rules.specs.promise.Rules.{window_limit};
ghost use Rattle.layout_rules.specs.promise.Values.{tree_items};
ghost use Rattle.layout_rules.specs.promise.Walk.{ChunkOk};
ghost use Rattle.stage_model.specs.promise.Stages.{chunks_after};
ghost use Rattle.stage_model.specs.declared.stage.Step.TheVariants as steps;
ghost use Rattle.stage_model.specs.promise.Traffic.{made_blocks, made_nodes};
ghost use Rattle.stages.specs.Steps.{always, any_tables, cost_given, rows_only};
ghost use Rattle.stage_kernels.specs.Slices.{SliceFits, kept_part};

use arr_move::slice;
use array_laws::windows_are_parts;
use data_types::Typed;
use edge_io::Gate;
use layout_rules::{chunks_are_tables, lawful_trees};
use raw_array::{RawArray, windows_keep_measures};
use stage_model::slices_are_windows;
use stages::{ChunkStep, OutColumns};
use std::alloc::Global;
use std::thread::Threads;
use unit_pass::{NoMemory, Pass, SUPPLY};

/// The window: how many rows are still skipped, and how many are kept after them.
#[derive(Drop)]
pub struct SliceStep {
    skip: u64,
    keep: u64,
    out: OutColumns,
}

impl SliceStep {
    /// Keeps the rows from number `off` on, counted from 0 over all chunks, and at most `len` of them; `out` are the columns.
    /// Takes no memory.
    pub fn new(off: u64, len: u64, out: OutColumns) -> SliceStep
        ensures skip { result.skip ≡ off }
        ensures keep { result.keep ≡ len }
        ensures out { result.out ≡ out }
    {
        SliceStep {
            skip: off,
            keep: len,
            out,
        }
    }

    /// Narrows a chunk to those of its rows that are kept, and counts its rows off. A chunk without such rows is released.
    fn narrow(&mut self, chunk: RawArray, pass: &mut Pass) -> Option<RawArray>
        requires chunk { (columns : List Column) × ChunkOk (type_of_columns columns) chunk }
        requires room { pass.old.units + Cost chunk ≤ SUPPLY }
        ensures skip { self.new.skip ≡ self.old.skip - tree_items chunk }
        ensures keep { self.new.keep ≡ self.old.keep - (tree_items chunk - self.old.skip) }
        ensures out { self.new.out ≡ self.old.out }
        ensures part { result ≡ kept_part self.old.skip self.old.keep chunk }
        ensures units { pass.new.units + cost_given result ≡ pass.old.units + Cost chunk }
        ensures blocks { pass.new.blocks ≡ pass.old.blocks }
        ensures nodes { pass.new.nodes ≡ pass.old.nodes }
    {
        let count = row_count(&chunk);
        let start = self.skip.min(count);
        let kept = self.keep.min(count - start);
        self.skip -= start;
        self.keep -= kept;
        if kept == 0 {
            chunk.end(pass);
            None
        } else {
            Some(cut(chunk, start, kept))
        }
    }
}

/// How many rows a chunk has.
fn row_count(chunk: &RawArray) -> u64
    requires { (columns : List Column) × ChunkOk (type_of_columns columns) chunk.now }
    ensures exact { result ≡ tree_items chunk.now }
    ensures few { result ≤ window_limit }
{
    lawful_trees();
    chunk.length() as u64
}

/// A number of rows.
fn signed(count: u64) -> i64
    requires { count ≤ window_limit }
    ensures { result ≡ pos count }
{
    count as i64
}

/// This many rows of a chunk, from row `start` on.
fn cut(chunk: RawArray, start: u64, count: u64) -> RawArray
    requires chunk { (columns : List Column) × ChunkOk (type_of_columns columns) chunk }
    requires within { start + count ≤ tree_items chunk }
    requires few { start + count ≤ window_limit }
    ensures window { result ≡ Window chunk (pos start) (pos count) }
    ensures cost { Cost result ≡ Cost chunk }
{
    windows_are_parts();
    windows_keep_measures();
    slice(chunk, signed(start), signed(count))
}

impl ChunkStep for SliceStep {
    ghost columns = { λ s. s.out };

    ghost fits = { λ s before. SliceFits s.out before };

    ghost ahead = { λ s ending tables. chunks_after (steps.Slice s.skip s.keep) ending tables };

    ghost blocks = { λ s rows. made_blocks (Some (steps.Slice s.skip s.keep)) (map column_of s.out) rows };

    ghost nodes = { λ s rows. made_nodes (Some (steps.Slice s.skip s.keep)) (map column_of s.out) };

    ghost gives = { rows_only };

    ghost rests = { always };

    ghost takes = { any_tables };

    fn after(&self) -> &OutColumns {
        &self.out
    }

    fn push<R: Threads + Sync>(
        &mut self,
        chunk: RawArray,
        _typed: &Typed,
        _rt: &R,
        _alloc: Global,
        pass: &mut Pass,
        _gate: &(dyn Gate + Sync),
    ) -> Result<Option<RawArray>, NoMemory> {
        chunks_are_tables();
        slices_are_windows();
        windows_are_parts();
        windows_keep_measures();
        Ok(self.narrow(chunk, pass))
    }

    fn finish(&mut self, _alloc: Global, _pass: &mut Pass) -> Result<Option<RawArray>, NoMemory> {
        Ok(None)
    }

    fn forget(&mut self) {}

    fn lawful_facts(&self) {}
}
