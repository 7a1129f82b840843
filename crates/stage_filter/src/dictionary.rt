//! A new column of some items of a column with a dictionary: it has their indices, and the dictionary is moved.
ghost use Rattle.std.specs.Prelude.{◌≡◌, ◌+◌, ◌≤◌, IfOk, OnErr};
ghost use Rattle.data_types.specs.promise.Table.{Dict};
ghost use Rattle.tree_model.specs.promise.TreeParts.{IsLive};
ghost use Rattle.tree_model.specs.Tree.{dictionary_at};
ghost use Rattle.unit_pass.specs.declared.pass.TheConstants.{SUPPLY};
ghost use Rattle.raw_array.specs.promise.Members.{Cost};
ghost use Rattle.stage_filter.specs.Moving.{CanMove, IsFiltered};

use crate::indices::moved_indices;
use column_fill::built_column;
use data_types::DataType;
use layout_rules::lawful_trees;
use raw_array::{Gone, PartlyMoved, RawArray};
use std::alloc::Global;
use unit_pass::{NoMemory, Pass, SUPPLY};

/// The dictionary of an array, moved out of it; what is left of the array is released.
fn own_dictionary(array: RawArray, pass: &mut Pass) -> RawArray
    requires live { IsLive array }
    requires there { IsLive (dictionary_at array) }
    requires room { pass.old.units + Cost array ≤ SUPPLY }
    ensures dictionary { result ≡ dictionary_at array }
    ensures units { pass.new.units + Cost result ≡ pass.old.units + Cost array }
    ensures more { pass.old.units + 1 ≤ pass.new.units }
    ensures blocks { pass.new.blocks ≡ pass.old.blocks }
    ensures nodes { pass.new.nodes ≡ pass.old.nodes }
{
    let mut moved = PartlyMoved::begin(array);
    let taken = moved.take_dictionary();
    moved.finish(pass);
    match taken {
        Ok(dictionary) => dictionary,
        Err(Gone) => unreachable!(),
    }
}

/// The array of the items of these numbers, in their order, over the array's dictionary, in the place of the array, which is
/// released ("Arrow Columnar Format", "Dictionary-encoded Layout"). Where memory runs out all units are back.
pub(crate) fn filtered_entries(
    alloc: Global,
    kind: &DataType,
    array: RawArray,
    start: u64,
    kept: &[u32],
    pass: &mut Pass,
) -> Result<RawArray, NoMemory>
    requires items { CanMove (Dict kind.now) array start kept.now }
    requires units { 4 ≤ pass.old.units }
    requires room { pass.old.units + Cost array ≤ SUPPLY }
    ensures moved { IfOk result (λ made. IsFiltered (Dict kind.now) array start kept.now made pass.old pass.new) }
    ensures units_back { OnErr result (pass.new.units ≡ pass.old.units + Cost array) }
{
    lawful_trees();
    let indices = moved_indices(alloc, &array, start, kept);
    let dictionary = own_dictionary(array, pass);
    match indices {
        Ok(builder) => match built_column(alloc, builder, Some(dictionary), pass) {
            Ok(made) => Ok(made),
            Err(NoMemory) => Err(NoMemory),
        },
        Err(NoMemory) => {
            dictionary.end(pass);
            Err(NoMemory)
        }
    }
}
