//! The numbers of the rows of a chunk that pass, which workers find piece by piece.
ghost use Rattle.std.specs.Prelude.{◌≡◌, ◌*◌, ◌-◌, ◌≤◌, length, vec_len, IfOk};
ghost use Rattle.std.specs.List.{flat_map};
ghost use Rattle.raw_array.specs.promise.Members.{Cost};
ghost use Rattle.raw_array.specs.Members.{Like};
ghost use Rattle.data_types.specs.KindTrees.{TypedOk};
ghost use Rattle.layout_rules.specs.promise.Layout.{natural};
ghost use Rattle.data_types.specs.promise.TypedView.{typed_of};
ghost use Rattle.layout_rules.specs.promise.Values.{rows_of, tree_items};
ghost use Rattle.layout_rules.specs.promise.Walk.{ChunkOk};
ghost use Rattle.arr_import.specs.Window.{child_window, whole};
ghost use Rattle.stage_filter.specs.Kept.{kept_numbers};
ghost use Rattle.stage_filter.specs.Workers.{HaveColumn, row_numbers};

use crate::chunk::FilterTask;
use crate::kept::kept_rows;
use arr_import::Col;
use data_types::{Typed, kinds_of_typed};
use edge_io::Gate;
use fan_out::{Job, Workers, fan_out, piece_count, pieces_are_in_order};
use layout_rules::lawful_root;
use raw_array::RawArray;
use std::alloc::Global;
use std::thread::Threads;
use unit_pass::{NoMemory, Pass};

/// Finds the rows of a window that pass.
#[derive(Drop)]
struct FindJob<'a> {
    alloc: Global,
    asked: FilterTask<'a>,
}

impl<'a> Job for FindJob<'a> {
    type Out = Vec<u32>;

    ghost gives = { λ job _ rows from to kept. kept.items
        ≡ row_numbers job.asked.column job.asked.test job.asked.constant.now rows (natural from) (natural to - natural from) };

    ghost reads = { λ _ _ _ _ _. Unit {0} };

    ghost fits = { λ job typed rows. HaveColumn job.asked.column typed rows };

    fn run(
        &self,
        typed: &Typed,
        chunk: &RawArray,
        from: i64,
        to: i64,
    ) -> Result<Vec<u32>, NoMemory> {
        found_rows(self.alloc, typed, chunk, self.asked, from as u32, to as u32)
    }
}

/// The numbers of the rows that pass, of those from one number to another.
fn found_rows(
    alloc: Global,
    typed: &Typed,
    chunk: &RawArray,
    asked: FilterTask<'_>,
    from: u32,
    to: u32,
) -> Result<Vec<u32>, NoMemory>
    requires types { TypedOk (typed_of typed.now) }
    requires chunk { ChunkOk (typed_of typed.now) chunk.now }
    requires column { HaveColumn asked.column (typed_of typed.now) (rows_of (typed_of typed.now) chunk.now) }
    requires order { from ≤ to }
    requires inside { to ≤ length (rows_of (typed_of typed.now) chunk.now) }
    ensures { IfOk result (λ kept. kept.items
        ≡ row_numbers asked.entry.column asked.entry.test asked.entry.constant.now (rows_of (typed_of typed.now) chunk.now) from (to - from)) }
{
    let rows = Col::of(typed, chunk);
    let items = rows.child(asked.column);
    kept_rows(alloc, &items, from, to, asked.test, asked.constant)
}

/// What was found, one behind another: the first is handed on, and the others are copied behind it.
fn joined(mut found: Vec<Vec<u32>>) -> Result<Vec<u32>, NoMemory>
    requires { 1 ≤ vec_len found }
    ensures { IfOk result (λ kept. kept.items ≡ flat_map (λ v. v.items) found.items) }
{
    let mut kept = found.remove(0);
    for more in &found {
        kept.extend_from_slice(more.as_slice())?;
    }
    Ok(kept)
}

/// The numbers of the rows whose item in the column passes, in order, each piece of the rows looked through by a worker. The
/// chunk keeps its rows, and all units are back.
pub(crate) fn kept_by_workers<R: Threads + Sync>(
    rt: &R,
    alloc: Global,
    chunk: &mut RawArray,
    typed: &Typed,
    workers: Workers,
    asked: FilterTask<'_>,
    pass: &mut Pass,
    gate: &(dyn Gate + Sync),
) -> Result<Vec<u32>, NoMemory>
    requires types { TypedOk (typed_of typed.now) }
    requires chunk { ChunkOk (typed_of typed.now) chunk.old }
    requires column { HaveColumn asked.column (typed_of typed.now) (rows_of (typed_of typed.now) chunk.old) }
    requires units { workers.count * Cost chunk.old ≤ pass.old.units }
    ensures numbers { IfOk result (λ kept. kept.items ≡ row_numbers asked.entry.column asked.entry.test asked.entry.constant.now
        (rows_of (typed_of typed.now) chunk.old) 0 (length (rows_of (typed_of typed.now) chunk.old))) }
    ensures kept { IfOk result (λ kept. kept.items ≡ kept_numbers asked.entry.test asked.entry.constant.now
        (child_window (whole (typed_of typed.now) chunk.new) asked.entry.column) 0 (tree_items chunk.new)) }
    ensures like { Like chunk.old chunk.new }
    ensures lawful { ChunkOk (typed_of typed.now) chunk.new }
    ensures rows { rows_of (typed_of typed.now) chunk.new ≡ rows_of (typed_of typed.now) chunk.old }
    ensures cost { Cost chunk.new ≡ Cost chunk.old }
    ensures units { pass.new.units ≡ pass.old.units }
    ensures blocks { pass.new.blocks ≡ pass.old.blocks }
    ensures nodes { pass.new.nodes ≡ pass.old.nodes }
{
    let job = FindJob { alloc, asked };
    let pieces = piece_count(typed, chunk, workers);
    let found = fan_out(rt, alloc, chunk, typed, pieces, pass, &job, gate)?;
    kinds_of_typed(typed);
    lawful_root(typed, chunk);
    pieces_are_in_order();
    joined(found)
}
