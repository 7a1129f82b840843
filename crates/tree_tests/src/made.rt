//! Trees that are made of texts.
ghost use Rattle.std.specs.Prelude.{◌≡◌, ◌+◌, ◌≤◌};
ghost use Rattle.unit_pass.specs.declared.pass.TheConstants.{ROOM};
ghost use Rattle.raw_array.specs.promise.Members.{Cost};
ghost use Rattle.tree_model.specs.promise.TreeCost.{Nodes};

use raw_array::RawArray;
use raw_schema::RawSchema;
use std::alloc::Global;
use std::process::Abort;
use tree_text::read_tree;
use unit_pass::{Pass, ROOM};

/// The two trees of the lines of a schema and of an array.
pub(crate) fn trees(
    rt: &impl Abort,
    alloc: Global,
    schema: &str,
    array: &str,
    pass: &mut Pass,
) -> (RawSchema, RawArray)
    requires { ROOM ≤ pass.old.units }
    ensures { pass.new.units + (Nodes result.0 + Cost result.1) ≡ pass.old.units }
{
    let Ok(text) = format!(in alloc; "tree 1\n{schema}{array}") else {
        panic!(rt; "memory");
    };
    match read_tree(alloc, text.as_bytes(), pass) {
        Ok((schema, array)) => (schema, array),
        Err(fault) => panic!(rt; "{fault}"),
    }
}
