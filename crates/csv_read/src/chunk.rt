//! The chunk of the rows that builders hold.
ghost use Rattle.std.specs.Prelude.{◌≡◌, ◌+◌, ◌-◌, ◌*◌, ◌<◌, ◌≤◌, ◌^◌, ◌++◌, ◌∷◌, [], List, None, pos, length, All, IfOk, OnOk, OnErr};
ghost use Rattle.data_types.specs.promise.Table.{Column, Row};
ghost use Rattle.tree_model.specs.promise.TreeData.{trees};
ghost use Rattle.unit_pass.specs.promise.Tally.{risen};
ghost use Rattle.raw_array.specs.promise.Members.{Cost};
ghost use Rattle.raw_array.specs.Members.{cost_of_all};
ghost use Rattle.col_build.specs.Encoding.{most_values};
ghost use Rattle.col_build.specs.Holding.{HoldsSome};
ghost use Rattle.col_build.specs.declared.builder.Builder.{Builder as ABuilder};
ghost use Rattle.layout_rules.specs.promise.Rules.{window_limit};
ghost use Rattle.layout_rules.specs.promise.Values.{rows_of};
ghost use Rattle.layout_rules.specs.promise.Walk.{ChunkOk};
ghost use Rattle.data_types.specs.promise.ColumnKinds.{type_of_columns};
ghost use Rattle.csv_read.specs.Body.{HoldRows};
ghost use Rattle.csv_read.specs.Emptied.{AreEmptied, AreSpent, IsEmptied, IsSpent};
ghost use Rattle.csv_read.specs.Chunks.{AreColumnsOf, FitFrom, IsColumnOf, all_blocks, chunk_blocks, chunk_of, own_blocks};

use arr_export::{export_column, export_table, let_go_column};
use col_build::{Builder, SpareBuffers};
use raw_array::{RawArray, release_all};
use std::alloc::Global;
use unit_pass::{NoMemory, Pass};

/// A law: the chunk of rows meets the rules of a chunk, and its rows are these ("Arrow Columnar Format", "Struct Layout").
pub fn chunks_have_their_rows()
    ensures chunk { (columns : List Column) (rows : List Row) → FitFrom 0 columns rows → length rows ≤ window_limit
        → ChunkOk (type_of_columns columns) (chunk_of columns rows) }
    ensures rows { (columns : List Column) (rows : List Row) → FitFrom 0 columns rows → All (λ row. length row ≡ length columns) rows
        → rows_of (type_of_columns columns) (chunk_of columns rows) ≡ rows }
{
    arr_export::encoded_columns_are_lawful();
    arr_export::lawful_columns_make_a_chunk();
}

/// A law: builders that hold rows hold a column each, and the columns of these rows have an encoding.
pub fn batch_rows_fit()
    ensures some { (builders : List ABuilder) (columns : List Column) (rows : List Row) → HoldRows builders columns rows → All HoldsSome builders }
    ensures fit { (builders : List ABuilder) (columns : List Column) (rows : List Row) → HoldRows builders columns rows → FitFrom 0 columns rows }
{}

/// How many rows builders hold, of which there is at least one.
pub fn count_rows(builders: &[Builder]) -> i64
    requires some { 1 ≤ length builders.now }
    requires held { (columns : List Column) × (rows : List Row) × HoldRows builders.now columns rows × (length rows ≤ 2 ^ 30) }
    ensures { (columns : List Column) (rows : List Row) → HoldRows builders.now columns rows → result ≡ pos (length rows) }
{
    batch_rows_fit();
    builders[0].len()
}

/// The array of the column that a builder holds, which holds nothing then.
fn column_array(
    alloc: Global,
    builder: &mut Builder,
    spares: &mut SpareBuffers,
    pass: &mut Pass,
) -> Result<RawArray, NoMemory>
    requires holds { HoldsSome builder.old }
    requires units { 4 ≤ pass.old.units }
    ensures column { IfOk result (λ array. IsColumnOf builder.old array) }
    ensures emptied { OnOk result (IsEmptied builder.old builder.new) }
    ensures spent { OnErr result (IsSpent builder.old builder.new) }
    ensures units { IfOk result (λ array. pass.new.units + Cost array ≡ pass.old.units) }
    ensures units_back { OnErr result (pass.new.units ≡ pass.old.units) }
    ensures small { IfOk result (λ array. Cost array ≤ 4) }
    ensures blocks { IfOk result (λ array. pass.new.blocks ≡ risen pass.old.blocks (own_blocks array)) }
    ensures nodes { OnOk result (pass.new.nodes ≡ risen pass.old.nodes 1) }
{
    let column = builder.finish(alloc, spares, pass)?;
    match export_column(alloc, column, None, pass) {
        Ok(array) => Ok(array),
        Err((column, dictionary, NoMemory)) => {
            let_go_column(column, dictionary, pass);
            Err(NoMemory)
        }
    }
}

/// The arrays of the columns, one after the other.
#[tactic(auto, using(tree_model::proofs::Measures::measures))]
fn column_arrays(
    alloc: Global,
    builders: &mut [Builder],
    spares: &mut SpareBuffers,
    pass: &mut Pass,
) -> Result<Vec<RawArray>, NoMemory>
    requires holds { All HoldsSome builders.old }
    requires units { 4 * length builders.old ≤ pass.old.units }
    ensures columns { IfOk result (λ arrays. AreColumnsOf builders.old arrays.items) }
    ensures emptied { OnOk result (AreEmptied builders.old builders.new) }
    ensures spent { OnErr result (AreSpent builders.old builders.new) }
    ensures units { IfOk result (λ arrays. pass.new.units + cost_of_all (trees arrays.items) ≡ pass.old.units) }
    ensures units_back { OnErr result (pass.new.units ≡ pass.old.units) }
    ensures small { IfOk result (λ arrays. cost_of_all (trees arrays.items) ≤ 4 * length builders.old) }
    ensures blocks { IfOk result (λ arrays. pass.new.blocks ≡ risen pass.old.blocks (all_blocks arrays.items)) }
    ensures nodes { OnOk result (pass.new.nodes ≡ risen pass.old.nodes (length builders.old)) }
{
    let Ok(mut arrays) = Vec::with_capacity(alloc, builders.len()) else {
        return Err(NoMemory);
    };
    for j in 0..builders.len() {
        match column_array(alloc, &mut builders[j], spares, pass) {
            Ok(array) => arrays.push_reserved(array),
            Err(NoMemory) => {
                release_all(arrays, pass);
                return Err(NoMemory);
            }
        }
    }
    Ok(arrays)
}

/// The chunk of the rows that builders hold ("Arrow Columnar Format", "Struct Layout"): their buffers are moved into blocks,
/// and no byte is copied. It draws a unit for each structure and each buffer, and counts the nodes and the blocks. `NoMemory`
/// comes only where memory runs out, and gives all units back. The spares are room that serves for many chunks.
#[inline(always)]
pub fn export_rows(
    alloc: Global,
    builders: &mut [Builder],
    rows: i64,
    spares: &mut SpareBuffers,
    pass: &mut Pass,
) -> Result<RawArray, NoMemory>
    requires held { (columns : List Column) × (values : List Row) × HoldRows builders.old columns values × (rows ≡ pos (length values))
        × (length values ≤ most_values) }
    requires few { length builders.old < 2 ^ 31 }
    requires units { 1 + 4 * length builders.old ≤ pass.old.units }
    ensures chunk { IfOk result (λ chunk. (columns : List Column) (values : List Row) → HoldRows builders.old columns values → rows ≡ pos (length values)
        → chunk ≡ chunk_of columns values) }
    // The builders are of the same columns, and hold nothing; where memory runs out each holds nothing or what it held.
    ensures emptied { OnOk result (AreEmptied builders.old builders.new) }
    ensures spent { OnErr result (AreSpent builders.old builders.new) }
    ensures units { IfOk result (λ chunk. pass.new.units + Cost chunk ≡ pass.old.units) }
    ensures units_back { OnErr result (pass.new.units ≡ pass.old.units) }
    ensures cost { IfOk result (λ chunk. Cost chunk ≤ 1 + 4 * length builders.old) }
    ensures blocks { OnOk result ((columns : List Column) (values : List Row) → HoldRows builders.old columns values
        → pass.new.blocks ≡ risen pass.old.blocks (chunk_blocks columns values)) }
    ensures nodes { OnOk result (pass.new.nodes ≡ risen pass.old.nodes (1 + length builders.old)) }
{
    let arrays = column_arrays(alloc, builders, spares, pass)?;
    match export_table(alloc, arrays, rows, pass) {
        Ok(chunk) => Ok(chunk),
        Err((arrays, NoMemory)) => {
            release_all(arrays, pass);
            Err(NoMemory)
        }
    }
}
