//! The rows of a tree of any kind.
ghost use Rattle.std.specs.Prelude.{◌≡◌, ◌⊎◌, IfOk, IfErr};
ghost use Rattle.tree_top.specs.promise.RowsAnswer.{RowsAnswer};
ghost use Rattle.tree_top.specs.promise.TextOrFault.{Fault, Text};

use crate::fault::TreeRunFault;
use layout_check::check_array;
use raw_array::RawArray;
use raw_schema::RawSchema;
use schema_check::check_schema;
use std::alloc::Global;
use tree_check::CheckFault;
use value_text::items_text;

/// A line for each item of an array under a schema, or the first fault: of the schema, and then of the array.
pub(crate) fn rows_text(
    alloc: Global,
    schema: &RawSchema,
    array: &RawArray,
) -> Result<Vec<u8>, TreeRunFault>
    ensures text { IfOk result (λ text. RowsAnswer schema.now array.now (Text text.items)) }
    ensures fault { IfErr result (λ fault. (fault ≡ TreeRunFault.NoMemory) ⊎ RowsAnswer schema.now array.now (Fault fault)) }
{
    let typed = match check_schema(alloc, schema) {
        Ok(typed) => typed,
        Err(fault) => return Err(TreeRunFault::from(CheckFault::from(fault))),
    };
    match check_array(&typed, array) {
        Ok(()) => Ok(items_text(alloc, &typed, array)?),
        Err(fault) => Err(TreeRunFault::from(CheckFault::from(fault))),
    }
}
