//! The totals of columns, and what a chunk adds to them.
ghost use Rattle.std.specs.Prelude.{◌≡◌, ◌≤◌, ◌+◌, ◌*◌, ◌^◌, ◌++◌, [], ℕ, List, length, IfOk, OnOk};
ghost use Rattle.data_types.specs.promise.Table.{Row};
ghost use Rattle.raw_array.specs.promise.Members.{Cost};
ghost use Rattle.data_types.specs.promise.TypedView.{typed_of};
ghost use Rattle.layout_rules.specs.promise.Values.{rows_of};
ghost use Rattle.total_stage.specs.Sums.{AreParts, AreSums, CanAdd, HaveBegun};

use crate::job::SumJob;
use crate::numbers::Totals;
use array_laws::pieces_are_the_whole;
use data_types::Typed;
use edge_io::Gate;
use fan_out::{Workers, fan_out, piece_count, pieces_are_in_order};
use raw_array::RawArray;
use std::alloc::Global;
use std::thread::Threads;
use unit_pass::{NoMemory, Pass};

/// The totals of the picked columns, without rows.
fn no_sums(alloc: Global, picks: &[usize]) -> Result<Vec<Totals>, NoMemory>
    ensures { IfOk result (λ sums. AreSums sums.items picks.now []) }
{
    let mut sums = Vec::new(alloc);
    for _pick in picks {
        sums.push(Totals::none())?;
    }
    Ok(sums)
}

/// Makes room for the totals of the picked columns, where there is none yet.
pub(crate) fn begin(alloc: Global, sums: &mut Vec<Totals>, picks: &[usize]) -> Result<(), NoMemory>
    ensures { OnOk result ((rows : List Row) → HaveBegun sums.old.items picks.now rows → AreSums sums.new.items picks.now rows) }
{
    if sums.is_empty() {
        *sums = no_sums(alloc, picks)?;
    }
    Ok(())
}

/// Adds the totals of other rows to those of these rows, column by column.
fn join_sums(sums: &mut [Totals], others: &[Totals])
    requires few { (picks : List ℕ) × (rows : List Row) × (more : List Row) × AreSums sums.old picks rows × AreSums others.now picks more
        × (length rows + length more ≤ 2 ^ 30) }
    ensures { (picks : List ℕ) (rows more : List Row) → AreSums sums.old picks rows → AreSums others.now picks more → AreSums sums.new picks (rows ++ more) }
{
    for k in 0..others.len() {
        let mut sum = sums[k];
        sum.join(others[k]);
        sums[k] = sum;
    }
}

/// Adds the totals of the pieces of some rows, one behind the other.
fn join_parts(sums: &mut [Totals], parts: &[Vec<Totals>], workers: u32)
    requires some { 1 ≤ workers }
    requires few { (picks : List ℕ) × (before : List Row) × (rows : List Row) × AreSums sums.old picks before × AreParts picks rows workers parts.now
        × (length before + length rows ≤ 2 ^ 30) }
    ensures { (picks : List ℕ) (before rows : List Row) → AreSums sums.old picks before → AreParts picks rows workers parts.now
        → AreSums sums.new picks (before ++ rows) }
{
    pieces_are_in_order();
    pieces_are_the_whole();
    for part in parts {
        join_sums(sums, part.as_slice());
    }
}

/// Adds the rows of a chunk, each piece of them by a worker. The chunk keeps its rows, and all units are back.
pub(crate) fn add_chunk<R: Threads + Sync>(
    rt: &R,
    alloc: Global,
    sums: &mut [Totals],
    picks: &[usize],
    typed: &Typed,
    chunk: &mut RawArray,
    workers: Workers,
    pass: &mut Pass,
    gate: &(dyn Gate + Sync),
) -> Result<(), NoMemory>
    requires chunk { CanAdd picks.now (typed_of typed.now) chunk.old }
    requires few { (rows : List Row) × AreSums sums.old picks.now rows
        × (length rows + length (rows_of (typed_of typed.now) chunk.old) ≤ 2 ^ 30) }
    requires units { workers.count * Cost chunk.old ≤ pass.old.units }
    ensures sums { OnOk result ((rows : List Row) → AreSums sums.old picks.now rows
        → AreSums sums.new picks.now (rows ++ rows_of (typed_of typed.now) chunk.old)) }
    ensures cost { Cost chunk.new ≡ Cost chunk.old }
    ensures units { pass.new.units ≡ pass.old.units }
    ensures blocks { pass.new.blocks ≡ pass.old.blocks }
    ensures nodes { pass.new.nodes ≡ pass.old.nodes }
{
    let job = SumJob { alloc, picks };
    let pieces = piece_count(typed, chunk, workers);
    let parts = fan_out(rt, alloc, chunk, typed, pieces, pass, &job, gate)?;
    join_parts(sums, parts.as_slice(), pieces.count);
    Ok(())
}
