//! The two trees of a text.
ghost use Rattle.std.specs.Prelude.{◌≡◌, ◌≢◌, ◌+◌, ◌≤◌, [], ◌∷◌, length, codes, Result, IfOk, IfErr, MatchResult};
ghost use Rattle.std.specs.Str.Lines.{lines};
ghost use Rattle.tree_model.specs.promise.TreeCost.{Nodes as NodesOf, Holds};
ghost use Rattle.unit_pass.specs.promise.Tally.{risen};
ghost use Rattle.unit_pass.specs.declared.pass.TheConstants.{ROOM};
ghost use Rattle.raw_schema.specs.promise.Members.{SchemaTree};
ghost use Rattle.tree_model.specs.promise.TreeCost.{Nodes};
ghost use Rattle.raw_array.specs.promise.Members.{ArrayTree, Cost, holds};
ghost use Rattle.tree_text.specs.declared.fault.TextFault.{TextFault as AFault};
ghost use Rattle.tree_text.specs.declared.fault.TextFault.TheVariants.{NoMemory as NoMemoryFault};
ghost use Rattle.tree_text.specs.TreeText.{schema_lines, array_lines, SchemaFits, ArrayFits};
ghost use Rattle.tree_text.specs.promise.Standing.{AtFirst, AtSchema, AtArray};
ghost use Rattle.tree_text.specs.promise.Answers.{most_lines, Reads};
ghost use Rattle.tree_text.specs.Answers.{Gives};
ghost use Rattle.tree_text.specs.Cursors.{left, IsCursor, Stops, StopsLast, Between, TreesRead};

use crate::array_tree::array;
use crate::cursor::Cursor;
use crate::fault::TextFault;
use crate::lines::has_few_lines;
use crate::schema_tree::schema;
use raw_array::RawArray;
use raw_schema::RawSchema;
use std::alloc::Global;
use unit_pass::Pass;

/// The cursor behind the first line.
#[tactic(auto, using(crate::proofs::WholeText::first_steps))]
fn first_line(bytes: &[u8], origin: Cursor) -> Result<Cursor, TextFault>
    requires { IsCursor bytes.now origin }
    ensures read { IfOk result (λ next. Between bytes.now origin next (codes "tree 1" ∷ [])) }
    ensures fault { IfErr result (Stops bytes.now origin (AtFirst ∷ [])) }
{
    let Some((line, next)) = origin.take_line(bytes) else {
        return Err(origin.fault());
    };
    if line == b"tree 1".as_slice() {
        Ok(next)
    } else {
        Err(origin.fault())
    }
}

/// The two trees from a cursor on, and nothing behind them. Of what was made before a fault, no unit is out.
fn both_trees(
    alloc: Global,
    bytes: &[u8],
    cursor: Cursor,
    pass: &mut Pass,
) -> Result<(RawSchema, RawArray), TextFault>
    requires cursor { IsCursor bytes.now cursor }
    requires room { length (left bytes.now cursor) ≤ pass.old.units }
    ensures read { IfOk result (λ trees. TreesRead bytes.now cursor trees.0 trees.1) }
    ensures fault { IfErr result (StopsLast bytes.now cursor (AtSchema 1 ∷ AtArray 1 ∷ [])) }
    ensures units { MatchResult result (λ trees. pass.new.units + (Nodes trees.0 + Cost trees.1) ≡ pass.old.units) (λ f. pass.new.units ≡ pass.old.units) }
    ensures nodes { IfOk result (λ trees. pass.new.nodes ≡ risen pass.old.nodes (Nodes trees.0 + NodesOf trees.1)) }
    ensures blocks { IfOk result (λ trees. pass.new.blocks ≡ risen pass.old.blocks (Holds holds trees.1)) }
{
    let (schema, middle) = schema(alloc, bytes, cursor, 1, pass)?;
    match array(alloc, bytes, middle, 1, pass) {
        Ok((array, end)) => match end.take_line(bytes) {
            None => Ok((schema, array)),
            Some(_) => {
                schema.end(pass);
                array.end(pass);
                Err(end.fault())
            }
        },
        Err(fault) => {
            schema.end(pass);
            Err(fault)
        }
    }
}

/// The schema tree and the array tree that a text spells, line by line ("The Arrow C Data Interface", "Structure
/// definitions"). More than 1,048,576 lines are refused whatever they hold, and else the first line that isn't
/// allowed at its place. Each live array is one that was made by an export, and each buffer is the whole of a block of its
/// own. A unit is drawn for each live node and each present buffer, of which a text has at most as many as lines; after a
/// fault no unit is out. Time and memory grow with the bytes of the text.
#[tactic(auto, using(crate::proofs::WholeText::text_steps))]
pub fn read_tree(
    alloc: Global,
    bytes: &[u8],
    pass: &mut Pass,
) -> Result<(RawSchema, RawArray), TextFault>
    requires { ROOM ≤ pass.old.units }
    // What is read is the text's.
    ensures found { IfOk result (λ trees. Reads bytes.now (Ok (trees.0, trees.1))) }
    // Which fault it is.
    ensures fault { IfErr result (λ f. f ≢ NoMemoryFault → Reads bytes.now (Err f)) }
    // What the text is, is answered, unless memory runs out.
    ensures only { (read : Result (SchemaTree × ArrayTree) AFault) → Reads bytes.now read → Gives result read }
    ensures units { MatchResult result (λ trees. pass.new.units + (Nodes trees.0 + Cost trees.1) ≡ pass.old.units) (λ f. pass.new.units ≡ pass.old.units) }
    ensures nodes { IfOk result (λ trees. pass.new.nodes ≡ risen pass.old.nodes (Nodes trees.0 + NodesOf trees.1)) }
    ensures blocks { IfOk result (λ trees. pass.new.blocks ≡ risen pass.old.blocks (Holds holds trees.1)) }
{
    if !has_few_lines(bytes) {
        return Err(TextFault::TooManyLines);
    }
    let origin = Cursor { at: 0, line: 1 };
    match first_line(bytes, origin) {
        Ok(cursor) => both_trees(alloc, bytes, cursor, pass),
        Err(fault) => Err(fault),
    }
}
