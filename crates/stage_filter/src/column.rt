//! A new column of some items of a column of values.
ghost use Rattle.std.specs.Prelude.{◌≡◌, ◌+◌, ◌≤◌, IfOk, OnErr};
ghost use Rattle.data_types.specs.promise.Table.{Flat};
ghost use Rattle.unit_pass.specs.declared.pass.TheConstants.{SUPPLY};
ghost use Rattle.raw_array.specs.promise.Members.{Cost};
ghost use Rattle.data_types.specs.promise.ColumnKinds.{type_of_kind};
ghost use Rattle.data_types.specs.KindTrees.{TypedOk};
ghost use Rattle.data_types.specs.promise.TypedView.{typed_of};
ghost use Rattle.stage_filter.specs.Moving.{CanMove, IsFiltered};

use column_fill::{built_column, gathered};
use data_types::{DataType, Typed};
use raw_array::RawArray;
use std::alloc::Global;
use unit_pass::{NoMemory, Pass, SUPPLY};

/// The array of the items of these numbers, in their order, in the place of the array, which is released. Where memory runs out
/// all units are back.
pub(crate) fn filtered_values(
    alloc: Global,
    kind: &DataType,
    typed: &Typed,
    array: RawArray,
    start: u64,
    kept: &[u32],
    pass: &mut Pass,
) -> Result<RawArray, NoMemory>
    requires typed { typed_of typed.now ≡ type_of_kind (Flat kind.now) }
    requires types { TypedOk (typed_of typed.now) }
    requires items { CanMove (Flat kind.now) array start kept.now }
    requires units { 4 ≤ pass.old.units }
    requires room { pass.old.units + Cost array ≤ SUPPLY }
    ensures moved { IfOk result (λ made. IsFiltered (Flat kind.now) array start kept.now made pass.old pass.new) }
    ensures units_back { OnErr result (pass.new.units ≡ pass.old.units + Cost array) }
{
    let items = gathered(alloc, kind, typed, &array, start, kept);
    array.end(pass);
    match items {
        Ok(builder) => match built_column(alloc, builder, None, pass) {
            Ok(made) => Ok(made),
            Err(NoMemory) => Err(NoMemory),
        },
        Err(NoMemory) => Err(NoMemory),
    }
}
