//! A chunk with some of its columns under a new struct, by moves.
ghost use Rattle.std.specs.Prelude.{◌≡◌, ◌≤◌, ◌<◌, ◌+◌, ◌-◌, ◌^◌, ◌++◌, ◌∷◌, ◌≤ℤ◌, [], List, All, pos, length, map, vec_len, vec_capacity, IfOk, MatchResult};
ghost use Rattle.data_types.specs.Parts.{AreWithin};
ghost use Rattle.data_types.specs.promise.Table.{Column};
ghost use Rattle.tree_model.specs.promise.TreeData.{Released, trees};
ghost use Rattle.tree_model.specs.promise.TreeParts.{child_at, children_of};
ghost use Rattle.tree_model.specs.Tree.{Depth, depth_of_all, with_child};
ghost use Rattle.raw_array.specs.promise.Members.{Cost, members_of};
ghost use Rattle.raw_array.specs.Members.{cost_of_all};
ghost use Rattle.raw_array.specs.Windows.{FitsWindow};
ghost use Rattle.unit_pass.specs.promise.Tally.{risen};
ghost use Rattle.unit_pass.specs.declared.pass.TheConstants.{SUPPLY};
ghost use Rattle.data_types.specs.promise.ColumnKinds.{type_of_columns};
ghost use Rattle.layout_rules.specs.promise.Layout.{natural};
ghost use Rattle.layout_rules.specs.promise.Walk.{ChunkOk};
ghost use Rattle.arr_move.specs.TreeActs.{Distinct, FitParentWindow, InRange};
ghost use Rattle.arr_export.specs.promise.ArrayTrees.{table_tree};
ghost use Rattle.arr_export.specs.ArrayTrees.{IsColumn};
ghost use Rattle.array_laws.specs.Picking.{Packed};
ghost use Rattle.layout_rules.specs.promise.Rules.{window_limit};
ghost use Rattle.stage_kernels.specs.Packs.{LeftOf, column_in};

use arr_export::export_table;
use arr_move::slice;
use array_laws::{columns_of_a_table, windows_are_parts};
use layout_rules::lawful_trees;
use raw_array::{Gone, PartlyMoved, RawArray, release_all};
use std::alloc::Global;
use unit_pass::{NoMemory, Pass, SUPPLY};

/// Moves a column out of a struct, cut to the items that the struct shows.
fn take_column(moved: &mut PartlyMoved, pick: usize) -> RawArray
    requires offset { pos 0 ≤ℤ (members_of moved.old).offset }
    requires length { pos 0 ≤ℤ (members_of moved.old).length }
    requires pick { pick < length (children_of moved.old) }
    requires fits { FitsWindow (child_at moved.old pick) (members_of moved.old).offset (members_of moved.old).length }
    ensures moved { moved.new ≡ with_child moved.old pick Released }
    ensures column { result ≡ column_in moved.old pick }
{
    let off = moved.offset();
    let len = moved.length();
    match moved.take_child(pick) {
        Ok(column) => slice(column, off, len),
        Err(Gone) => unreachable!(),
    }
}

/// Moves the picked columns out of a struct, in the order of the picks, each cut to the items that the struct shows.
fn move_columns(moved: &mut PartlyMoved, picks: &[usize], columns: &mut Vec<RawArray>)
    requires offset { pos 0 ≤ℤ (members_of moved.old).offset }
    requires length { pos 0 ≤ℤ (members_of moved.old).length }
    requires distinct { Distinct picks.now }
    requires in_range { InRange moved.old picks.now }
    requires fit { FitParentWindow moved.old picks.now }
    requires empty { columns.old.items ≡ [] }
    requires room { length picks.now ≤ vec_capacity columns.old }
    ensures columns { columns.new.items ≡ map (column_in moved.old) picks.now }
    ensures capacity { vec_capacity columns.new ≡ vec_capacity columns.old }
    ensures left { LeftOf moved.old picks.now (length picks.now) moved.new }
    ensures cost { Cost moved.new + cost_of_all (trees columns.new.items) ≡ Cost moved.old }
{
    for place in 0..picks.len() {
        let column = take_column(moved, picks[place]);
        columns.push_reserved(column);
    }
}

/// A struct of some columns and, behind them, a struct of others. Where memory runs out all are released.
#[tactic(auto, using(tree_model::proofs::Measures::measures))]
fn built(
    alloc: Global,
    columns: Vec<RawArray>,
    members: Vec<RawArray>,
    len: i64,
    pass: &mut Pass,
) -> Result<RawArray, NoMemory>
    requires room { vec_len columns < vec_capacity columns }
    requires some { pos 0 ≤ℤ len }
    requires few { len ≤ℤ pos window_limit }
    requires columns { All (IsColumn (natural len)) columns.items }
    requires members { All (IsColumn (natural len)) members.items }
    requires not_deep { depth_of_all (trees members.items) ≤ 126 }
    requires few_columns { length columns.items + 1 < 2 ^ 32 - 1 }
    requires few_members { length members.items < 2 ^ 32 - 1 }
    requires units { 2 ≤ pass.old.units }
    requires supply { pass.old.units + (cost_of_all (trees columns.items) + cost_of_all (trees members.items)) ≤ SUPPLY }
    ensures tree { IfOk result (λ tree. tree ≡ table_tree (natural len) (columns.items ++ table_tree (natural len) members.items ∷ [])) }
    ensures units { MatchResult result
        (λ tree. pass.new.units + Cost tree ≡ pass.old.units + (cost_of_all (trees columns.items) + cost_of_all (trees members.items)))
        (λ _. pass.new.units ≡ pass.old.units + (cost_of_all (trees columns.items) + cost_of_all (trees members.items))) }
    ensures nodes { IfOk result (λ _. pass.new.nodes ≡ risen pass.old.nodes 2) }
    ensures blocks { IfOk result (λ _. pass.new.blocks ≡ pass.old.blocks) }
{
    let mut columns = columns;
    match export_table(alloc, members, len, pass) {
        Ok(fields) => {
            columns.push_reserved(fields);
            match export_table(alloc, columns, len, pass) {
                Ok(tree) => Ok(tree),
                Err((columns, NoMemory)) => {
                    release_all(columns, pass);
                    Err(NoMemory)
                }
            }
        }
        Err((members, NoMemory)) => {
            release_all(members, pass);
            release_all(columns, pass);
            Err(NoMemory)
        }
    }
}

/// The chunk with the columns that stay and, behind them, a struct of the picked ones. No item of it is null. Where memory runs
/// out the chunk is released.
pub(crate) fn packed(
    alloc: Global,
    chunk: RawArray,
    rest: &[usize],
    picks: &[usize],
    pass: &mut Pass,
) -> Result<RawArray, NoMemory>
    requires chunk { (columns : List Column) × ChunkOk (type_of_columns columns) chunk × AreWithin (length columns) rest.now
        × AreWithin (length columns) picks.now }
    requires distinct { Distinct (rest.now ++ picks.now) }
    requires not_deep { Depth chunk ≤ 127 }
    requires units { 2 ≤ pass.old.units }
    requires supply { pass.old.units + Cost chunk ≤ SUPPLY }
    ensures tree { IfOk result (λ tree. tree ≡ Packed chunk rest.now picks.now) }
    ensures units { MatchResult result
        (λ tree. pass.new.units + Cost tree ≡ pass.old.units + Cost chunk)
        (λ _. pass.new.units ≡ pass.old.units + Cost chunk) }
    ensures nodes { IfOk result (λ _. pass.new.nodes ≡ risen pass.old.nodes 2) }
    ensures blocks { IfOk result (λ _. pass.new.blocks ≡ pass.old.blocks) }
{
    lawful_trees();
    columns_of_a_table();
    windows_are_parts();
    let Ok(mut columns) = Vec::with_capacity(alloc, rest.len() + 1) else {
        chunk.end(pass);
        return Err(NoMemory);
    };
    let Ok(mut members) = Vec::with_capacity(alloc, picks.len()) else {
        columns.destroy_empty();
        chunk.end(pass);
        return Err(NoMemory);
    };
    let len = chunk.length();
    let mut moved = PartlyMoved::begin(chunk);
    move_columns(&mut moved, rest, &mut columns);
    move_columns(&mut moved, picks, &mut members);
    moved.finish(pass);
    built(alloc, columns, members, len, pass)
}
