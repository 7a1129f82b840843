//! A builder filled with the items of runs.
ghost use Rattle.std.specs.Prelude.{◌≡◌, IfOk};
ghost use Rattle.data_types.specs.promise.Table.{Flat};
ghost use Rattle.col_build.specs.Holding.{Holds};
ghost use Rattle.data_types.specs.promise.ColumnKinds.{type_of_kind};
ghost use Rattle.data_types.specs.KindTrees.{TypedOk};
ghost use Rattle.data_types.specs.promise.TypedView.{typed_of};
ghost use Rattle.column_fill.specs.Gathered.{CanGatherRuns, values_of_runs};

use crate::push_item_times;
use arr_import::Col;
use col_build::Builder;
use data_types::{DataType, Typed, clone_kind, storage_of};
use layout_rules::lawful_trees;
use raw_array::RawArray;
use std::alloc::Global;
use unit_pass::NoMemory;

/// An item of a column, by its number from 0 on, and how many times it is there.
#[derive(Clone, Copy)]
pub struct Run {
    pub item: u64,
    pub times: u64,
}

/// A builder that holds an item of an array for each run, as often as the run says, in the order of the runs. `typed` are the
/// array's checked kinds, of which `kind` is the type.
///
/// # Errors
///
/// `NoMemory` where there is no memory for them.
pub fn gathered_runs(
    alloc: Global,
    kind: &DataType,
    typed: &Typed,
    array: &RawArray,
    runs: &[Run],
) -> Result<Builder, NoMemory>
    requires typed { typed_of typed.now ≡ type_of_kind (Flat kind.now) }
    requires types { TypedOk (typed_of typed.now) }
    requires items { CanGatherRuns kind.now array.now runs.now }
    ensures { IfOk result (λ builder. Holds builder kind.now (values_of_runs (type_of_kind (Flat kind.now)) array.now runs.now)) }
{
    lawful_trees();
    let items = Col::of(typed, array);
    let mut builder = Builder::new(alloc, clone_kind(alloc, kind)?);
    let storage = storage_of(kind);
    for run in runs {
        push_item_times(&mut builder, storage, &items, run.item, run.times)?;
    }
    Ok(builder)
}
