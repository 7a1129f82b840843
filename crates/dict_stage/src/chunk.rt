//! The chunk with a column made anew.
ghost use Rattle.std.specs.Prelude.{◌≡◌, ◌+◌, ◌<◌, ◌≤◌, false, length, map, IfOk, MatchResult, OnErr};
ghost use Rattle.data_types.specs.ColumnView.{column_of};
ghost use Rattle.data_types.specs.promise.Parts.{column_values};
ghost use Rattle.unit_pass.specs.promise.Tally.{risen};
ghost use Rattle.unit_pass.specs.declared.pass.TheConstants.{SUPPLY};
ghost use Rattle.tree_model.specs.promise.TreeParts.{child_at};
ghost use Rattle.raw_array.specs.promise.Members.{Cost};
ghost use Rattle.data_types.specs.KindTrees.{TypedOk};
ghost use Rattle.data_types.specs.promise.TypedView.{typed_of};
ghost use Rattle.layout_rules.specs.promise.Values.{rows_of};
ghost use Rattle.array_laws.specs.Picking.{Replaced};
ghost use Rattle.stage_model.specs.promise.Traffic.{Made, kind_blocks, kind_nodes};
ghost use Rattle.stage_model.specs.promise.Typing.{is_struct};
ghost use Rattle.stage_model.specs.Typing.{column_at};
ghost use Rattle.dict_stage.specs.Indices.{recoded_tree};
ghost use Rattle.dict_stage.specs.Recoded.{CanRecodeChunk, IsRecoded, text_kind, type_in};

use crate::column::recoded_column;
use crate::replaced::replaced;
use arr_import::Col;
use data_types::{ColKind, ColumnType, DataType, Typed};
use raw_array::RawArray;
use std::alloc::Global;
use unit_pass::{NoMemory, Pass, SUPPLY};

/// The type of a column that is no struct.
pub(crate) fn type_at(columns: &[ColumnType], place: usize) -> &DataType
    requires inside { place < length columns.now }
    requires one { is_struct (column_at (map column_of columns.now) place).kind ≡ false }
    ensures { result.now ≡ type_in (column_at (map column_of columns.now) place).kind }
{
    match &columns[place].kind {
        ColKind::Flat(kind) | ColKind::Dict(kind) => kind,
        ColKind::Columns(_) => unreachable!(),
    }
}

/// The array of a chunk's column, of texts or bytes: with a dictionary, or without. Where memory runs out all units are back.
fn new_column(
    alloc: Global,
    dict: bool,
    kind: &DataType,
    typed: &Typed,
    chunk: &RawArray,
    place: usize,
    pass: &mut Pass,
) -> Result<RawArray, NoMemory>
    requires types { TypedOk (typed_of typed.now) }
    requires chunk { CanRecodeChunk kind.now place (typed_of typed.now) chunk.now }
    requires units { 8 ≤ pass.old.units }
    requires room { pass.old.units ≤ SUPPLY }
    ensures made { IfOk result (λ column.
        IsRecoded (text_kind dict kind.now) (column_values place (rows_of (typed_of typed.now) chunk.now)) column pass.old pass.new) }
    ensures units_back { OnErr result (pass.new.units ≡ pass.old.units) }
{
    let rows = Col::of(typed, chunk);
    recoded_column(alloc, dict, kind, &rows.child(place), pass)
}

/// The chunk whose column of a place, of texts or bytes, is made anew: with a dictionary (`dict`) of its distinct
/// values in the order in which they first appear, or without one. The other columns are moved, and the column that was there is
/// released. Blocks are made for the one column, and a node for the struct and for each array of the column. Where memory runs out
/// the chunk is released.
pub fn recoded_chunk(
    alloc: Global,
    dict: bool,
    kind: &DataType,
    typed: &Typed,
    chunk: RawArray,
    place: usize,
    pass: &mut Pass,
) -> Result<RawArray, NoMemory>
    requires types { TypedOk (typed_of typed.now) }
    requires chunk { CanRecodeChunk kind.now place (typed_of typed.now) chunk }
    requires units { 16 ≤ pass.old.units }
    requires room { pass.old.units + Cost chunk ≤ SUPPLY }
    ensures tree { IfOk result
        (λ made. made ≡ Replaced chunk place (recoded_tree (text_kind dict kind.now) (column_values place (rows_of (typed_of typed.now) chunk)))) }
    ensures column { IfOk result
        (λ made. child_at made place ≡ recoded_tree (text_kind dict kind.now) (column_values place (rows_of (typed_of typed.now) chunk))) }
    ensures units { MatchResult result
        (λ made. pass.new.units + Cost made ≡ pass.old.units + Cost chunk)
        (λ _. pass.new.units ≡ pass.old.units + Cost chunk) }
    ensures blocks { IfOk result (λ _. pass.new.blocks
        ≡ risen pass.old.blocks (kind_blocks Made (text_kind dict kind.now) (column_values place (rows_of (typed_of typed.now) chunk)))) }
    ensures nodes { IfOk result (λ _. pass.new.nodes ≡ risen pass.old.nodes (kind_nodes Made (text_kind dict kind.now) + 1)) }
{
    match new_column(alloc, dict, kind, typed, &chunk, place, pass) {
        Ok(column) => match replaced(alloc, chunk, place, column, pass) {
            Ok(made) => Ok(made),
            Err(NoMemory) => Err(NoMemory),
        },
        Err(NoMemory) => {
            chunk.end(pass);
            Err(NoMemory)
        }
    }
}
