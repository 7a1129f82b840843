//! Structures that are made of their parts, or of which nothing is left.
ghost use Rattle.std.specs.Prelude.{◌≡◌, ◌+◌, ◌-◌, ◌^◌, ◌<◌, ◌≤◌, length, if◌then◌else◌, is_ok, IfOk, OnOk};
ghost use Rattle.unit_pass.specs.promise.Tally.{risen};
ghost use Rattle.tree_model.specs.Tree.{Depth};
ghost use Rattle.tree_model.specs.promise.TreeCost.{Nodes};
ghost use Rattle.raw_schema.specs.Parts.{tree_of_parts};

use crate::release::release_all;
use crate::schema::{RawSchema, SchemaParts};
use std::alloc::Global;
use unit_pass::{NoMemory, Pass, SUPPLY};

/// Releases what a structure was to be made of.
fn end_parts(parts: SchemaParts, pass: &mut Pass)
    requires { pass.old.units + Nodes (tree_of_parts parts) ≤ SUPPLY + 1 }
    ensures units { pass.new.units + 1 ≡ pass.old.units + Nodes (tree_of_parts parts) }
    ensures blocks { pass.new.blocks ≡ pass.old.blocks }
    ensures nodes { pass.new.nodes ≡ pass.old.nodes }
{
    let SchemaParts {
        format: _,
        name: _,
        metadata: _,
        flags: _,
        children,
        dictionary,
    } = parts;
    release_all(children, pass);
    match dictionary {
        None => {}
        Some(tree) => tree.end(pass),
    }
}

/// A live structure of these parts, as [`RawSchema::build`] makes it: it draws a unit and counts a node. Where memory runs out
/// the parts are released.
pub fn built_schema(
    alloc: Global,
    parts: SchemaParts,
    pass: &mut Pass,
) -> Result<RawSchema, NoMemory>
    requires some { 1 ≤ pass.old.units }
    requires units { pass.old.units + Nodes (tree_of_parts parts) ≤ SUPPLY + 1 }
    requires few_children { length parts.children.items < 2 ^ 32 - 1 }
    requires not_deep { Depth (tree_of_parts parts) ≤ 128 }
    ensures tree { IfOk result (λ tree. tree ≡ tree_of_parts parts) }
    ensures units { pass.new.units + 1 ≡ pass.old.units + (if is_ok result then 0 else Nodes (tree_of_parts parts)) }
    ensures blocks { pass.new.blocks ≡ pass.old.blocks }
    ensures nodes { OnOk result (pass.new.nodes ≡ risen pass.old.nodes 1) }
{
    match RawSchema::build(alloc, parts, pass) {
        Ok(tree) => Ok(tree),
        Err((parts, NoMemory)) => {
            end_parts(parts, pass);
            Err(NoMemory)
        }
    }
}
