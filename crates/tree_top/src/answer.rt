//! The text of a command, made of the bytes of an input.
ghost use Rattle.std.specs.Prelude.{◌≡◌, ◌+◌, ◌⊎◌, ◌≤◌, IfOk, IfErr, OnOk};
ghost use Rattle.raw_array.specs.promise.Members.{Cost};
ghost use Rattle.tree_model.specs.promise.TreeCost.{Nodes};
ghost use Rattle.unit_pass.specs.declared.pass.TheConstants.{CHUNK, ROOM, SUPPLY};
ghost use Rattle.tree_top.specs.promise.Answer.{CountsCommand, Makes, TextAnswer, TreesAnswer};
ghost use Rattle.tree_top.specs.promise.TextOrFault.{Fault, Text};

use crate::command::Command;
use crate::fault::TreeRunFault;
use crate::flat::flat_text;
use crate::foreign::foreign_text;
use crate::lists::explode_text;
use crate::nested::nest_text;
use crate::rows::rows_text;
use crate::runs::runs_text;
use crate::tags::tag_text;
use crate::union::union_text;
use raw_array::RawArray;
use raw_schema::RawSchema;
use std::alloc::Global;
use tree_check::CheckFault;
use tree_text::read_tree;
use unit_pass::{CHUNK, Pass, ROOM, SUPPLY};

/// The text of a command over two trees, or the first fault: of the schema ("The Arrow C Data Interface", "The ArrowSchema
/// structure"), of the array ("Arrow Columnar Format", "Physical memory layout"), of the command. Both are released.
fn trees_text(
    alloc: Global,
    command: Command,
    schema: RawSchema,
    array: RawArray,
    pass: &mut Pass,
) -> Result<Vec<u8>, TreeRunFault>
    requires some { CHUNK ≤ pass.old.units }
    requires room { pass.old.units + (Nodes schema + Cost array) ≤ SUPPLY }
    ensures text { IfOk result (λ text. TreesAnswer command schema array (Text text.items)) }
    ensures fault { IfErr result (λ fault. (fault ≡ TreeRunFault.NoMemory) ⊎ TreesAnswer command schema array (Fault fault)) }
    ensures units { pass.new.units ≡ pass.old.units + (Nodes schema + Cost array) }
    ensures made { OnOk result (Makes command schema array pass.old.blocks pass.old.nodes pass.new.blocks pass.new.nodes) }
{
    let answer = match command {
        Command::Rows => rows_text(alloc, &schema, &array),
        Command::Union => union_text(alloc, &schema, &array),
        Command::Tag { dense } => return tag_text(alloc, schema, array, dense, pass),
        Command::Foreign => return foreign_text(alloc, schema, array, pass),
        Command::Runs => runs_text(alloc, &schema, &array),
        Command::Flat => flat_text(alloc, &schema, &array),
        Command::Explode { column } => return explode_text(alloc, schema, array, column, pass),
        Command::Nest { column } => return nest_text(alloc, schema, array, column, pass),
    };
    schema.end(pass);
    array.end(pass);
    answer
}

/// The text of a command over the trees whose text the bytes are, or the first fault: of the text, and then of the trees. What was
/// read is released on every path.
pub(crate) fn answer_text(
    alloc: Global,
    command: Command,
    bytes: &[u8],
    pass: &mut Pass,
) -> Result<Vec<u8>, TreeRunFault>
    requires { ROOM ≤ pass.old.units }
    ensures text { IfOk result (λ text. TextAnswer command bytes.now (Text text.items)) }
    ensures fault { IfErr result (λ fault. (fault ≡ TreeRunFault.NoMemory) ⊎ TextAnswer command bytes.now (Fault fault)) }
    ensures units { pass.new.units ≡ pass.old.units }
    ensures counts { OnOk result (CountsCommand command bytes.now pass.old.blocks pass.old.nodes pass.new.blocks pass.new.nodes) }
{
    match read_tree(alloc, bytes, pass) {
        Ok((schema, array)) => trees_text(alloc, command, schema, array, pass),
        Err(fault) => Err(TreeRunFault::from(CheckFault::from(fault))),
    }
}
