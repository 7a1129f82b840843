//! Structures that are made of their parts, or of which nothing is left.
ghost use Rattle.std.specs.Prelude.{◌≡◌, ◌+◌, ◌-◌, ◌^◌, ◌<◌, ◌≤◌, length, if◌then◌else◌, is_ok, IfOk, OnOk};
ghost use Rattle.unit_pass.specs.promise.Tally.{risen};
ghost use Rattle.tree_model.specs.Tree.{Depth};
ghost use Rattle.raw_array.specs.promise.Members.{Cost};
ghost use Rattle.raw_array.specs.Parts.{tree_of_parts};

use crate::array::{ArrayParts, RawArray};
use crate::release::release_all;
use buf_block::let_go_all;
use std::alloc::Global;
use unit_pass::{NoMemory, Pass, SUPPLY};

/// Releases what a structure was to be made of.
fn end_parts(parts: ArrayParts, pass: &mut Pass)
    requires { pass.old.units + Cost (tree_of_parts parts) ≤ SUPPLY + 1 }
    ensures units { pass.new.units + 1 ≡ pass.old.units + Cost (tree_of_parts parts) }
    ensures blocks { pass.new.blocks ≡ pass.old.blocks }
{
    let ArrayParts {
        length: _,
        null_count: _,
        offset: _,
        buffers,
        children,
        dictionary,
        kind: _,
    } = parts;
    let_go_all(buffers, pass);
    release_all(children, pass);
    match dictionary {
        None => {}
        Some(tree) => tree.end(pass),
    }
}

/// A live structure of these parts, as [`RawArray::build`] makes it: it draws a unit and counts a node. Where memory runs out the
/// parts are released.
pub fn built_array(alloc: Global, parts: ArrayParts, pass: &mut Pass) -> Result<RawArray, NoMemory>
    requires unit { 1 ≤ pass.old.units }
    requires room { pass.old.units + Cost (tree_of_parts parts) ≤ SUPPLY + 1 }
    requires few_buffers { length parts.buffers.items < 2 ^ 32 - 1 }
    requires few_children { length parts.children.items < 2 ^ 32 - 1 }
    requires not_deep { Depth (tree_of_parts parts) ≤ 128 }
    ensures tree { IfOk result (λ tree. tree ≡ tree_of_parts parts) }
    ensures units { pass.new.units + 1 ≡ pass.old.units + (if is_ok result then 0 else Cost (tree_of_parts parts)) }
    ensures blocks { pass.new.blocks ≡ pass.old.blocks }
    ensures nodes { OnOk result (pass.new.nodes ≡ risen pass.old.nodes 1) }
{
    match RawArray::build(alloc, parts, pass) {
        Ok(tree) => Ok(tree),
        Err((parts, NoMemory)) => {
            end_parts(parts, pass);
            Err(NoMemory)
        }
    }
}
