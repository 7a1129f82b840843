//! The array that is made of a builder's column.
ghost use Rattle.std.specs.Prelude.{◌≡◌, ◌+◌, ◌≤◌, List, Option, IfOk, OnErr, OnOk};
ghost use Rattle.data_types.specs.promise.Value.{Value};
ghost use Rattle.data_types.specs.declared.kind.DataType.{DataType as AType};
ghost use Rattle.tree_model.specs.promise.TreeData.{maybe_tree};
ghost use Rattle.unit_pass.specs.promise.Tally.{risen};
ghost use Rattle.unit_pass.specs.declared.pass.TheConstants.{SUPPLY};
ghost use Rattle.raw_array.specs.promise.Members.{Cost};
ghost use Rattle.raw_array.specs.Members.{cost_of_maybe};
ghost use Rattle.col_build.specs.Encoding.{Fits};
ghost use Rattle.col_build.specs.promise.Finished.{blocks_of};
ghost use Rattle.col_build.specs.Holding.{Holds};
ghost use Rattle.arr_export.specs.promise.ArrayTrees.{column_tree};
ghost use Rattle.arr_export.specs.ArrayTrees.{AreIndicesIf};

use arr_export::{export_column, let_go_column};
use col_build::{Builder, SpareBuffers};
use raw_array::RawArray;
use std::alloc::Global;
use unit_pass::{NoMemory, Pass, SUPPLY};

/// Releases a dictionary, where there is one.
fn end_dictionary(dictionary: Option<RawArray>, pass: &mut Pass)
    requires { pass.old.units + cost_of_maybe (maybe_tree dictionary) ≤ SUPPLY }
    ensures units { pass.new.units ≡ pass.old.units + cost_of_maybe (maybe_tree dictionary) }
    ensures blocks { pass.new.blocks ≡ pass.old.blocks }
    ensures nodes { pass.new.nodes ≡ pass.old.nodes }
{
    match dictionary {
        None => {}
        Some(dictionary) => dictionary.end(pass),
    }
}

/// The array of the column that a builder holds, over a dictionary, where there is one: the items are its indices then ("Arrow
/// Columnar Format", "Dictionary-encoded Layout"). It counts a block for each buffer, and one node. Where memory runs out all is
/// released, the dictionary too.
pub fn built_column(
    alloc: Global,
    builder: Builder,
    dictionary: Option<RawArray>,
    pass: &mut Pass,
) -> Result<RawArray, NoMemory>
    requires holds { (kind : AType) × (values : List Value) × Holds builder kind values × AreIndicesIf kind values dictionary }
    requires units { 4 ≤ pass.old.units }
    requires room { pass.old.units + cost_of_maybe (maybe_tree dictionary) ≤ SUPPLY }
    ensures tree { IfOk result (λ array. (kind : AType) (values : List Value) → Holds builder kind values → array ≡ column_tree kind values dictionary) }
    ensures fits { (kind : AType) (values : List Value) → Holds builder kind values → Fits kind values }
    ensures units { OnOk result ((kind : AType) (values : List Value) → Holds builder kind values
        → pass.new.units + (1 + blocks_of kind values) ≡ pass.old.units) }
    ensures blocks { OnOk result ((kind : AType) (values : List Value) → Holds builder kind values
        → pass.new.blocks ≡ risen pass.old.blocks (blocks_of kind values)) }
    ensures nodes { OnOk result (pass.new.nodes ≡ risen pass.old.nodes 1) }
    ensures units_back { OnErr result (pass.new.units ≡ pass.old.units + cost_of_maybe (maybe_tree dictionary)) }
{
    let mut builder = builder;
    match builder.finish(alloc, &mut SpareBuffers::new(alloc), pass) {
        Ok(column) => match export_column(alloc, column, dictionary, pass) {
            Ok(array) => Ok(array),
            Err((column, dictionary, NoMemory)) => {
                let_go_column(column, dictionary, pass);
                Err(NoMemory)
            }
        },
        Err(NoMemory) => {
            end_dictionary(dictionary, pass);
            Err(NoMemory)
        }
    }
}
