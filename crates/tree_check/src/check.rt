//! The check of the two trees of a text.
ghost use Rattle.std.specs.Prelude.{◌≡◌, ◌≤◌, IfOk, IfErr, OnOk, Ok};
ghost use Rattle.unit_pass.specs.declared.pass.TheConstants.{ROOM};
ghost use Rattle.tree_check.specs.promise.Checks.{ChecksTo, CountsTrees, TreesCome};
ghost use Rattle.tree_check.specs.Checks.{IsToldOf};

use crate::fault::CheckFault;
use layout_check::check_array;
use raw_array::RawArray;
use raw_schema::RawSchema;
use schema_check::check_schema;
use std::alloc::Global;
use tree_text::{read_tree, report};
use unit_pass::{Pass, ROOM};

/// The report of an array under a schema, or the first fault: of the schema, and then of the array.
fn check_trees(alloc: Global, schema: &RawSchema, array: &RawArray) -> Result<Vec<u8>, CheckFault>
    ensures report { IfOk result (λ report. TreesCome schema.now array.now (Ok report.items)) }
    ensures fault { IfErr result (IsToldOf (TreesCome schema.now array.now)) }
{
    let typed = match check_schema(alloc, schema) {
        Ok(typed) => typed,
        Err(fault) => return Err(CheckFault::from(fault)),
    };
    match check_array(&typed, array) {
        Ok(()) => Ok(report(alloc, &typed, array)?),
        Err(fault) => Err(CheckFault::from(fault)),
    }
}

/// The report of the array whose tree a text spells behind its schema's. The array may be of any kind. What was read is
/// released on every path.
///
/// # Errors
///
/// The first fault: of the text, of the schema ("The Arrow C Data Interface", "The ArrowSchema structure"), of the array
/// ("Arrow Columnar Format", "Physical memory layout"). `NoMemory` comes only where memory runs out. The numbers of a fault
/// take none, so a tree of 2^40 items is checked in the time of its text.
pub fn check_tree(alloc: Global, bytes: &[u8], pass: &mut Pass) -> Result<Vec<u8>, CheckFault>
    requires { ROOM ≤ pass.old.units }
    ensures report { IfOk result (λ report. ChecksTo bytes.now (Ok report.items)) }
    ensures fault { IfErr result (IsToldOf (ChecksTo bytes.now)) }
    ensures units { pass.new.units ≡ pass.old.units }
    ensures counts { OnOk result (CountsTrees bytes.now pass.old.blocks pass.old.nodes pass.new.blocks pass.new.nodes) }
{
    let (schema, array) = match read_tree(alloc, bytes, pass) {
        Ok(trees) => trees,
        Err(fault) => return Err(CheckFault::from(fault)),
    };
    let checked = check_trees(alloc, &schema, &array);
    schema.end(pass);
    array.end(pass);
    checked
}
