//! The line of the fault of a tree. The way to a node may be long, so the line is written piece by piece and takes no memory.
ghost use Rattle.std.specs.Prelude.{◌++◌, codes, decimal, flat_map};
ghost use Rattle.std.specs.Fmt.{signed_decimal};
ghost use Rattle.schema_check.specs.promise.FaultTexts.{schema_rule_text};
ghost use Rattle.data_types.specs.promise.WayTexts.{way_text};
ghost use Rattle.data_types.specs.WayTexts.{step_text};
ghost use Rattle.layout_rules.specs.promise.FaultTexts.{layout_fault_text, rule_text};
ghost use Rattle.data_types.specs.promise.Ways.{steps_of};
ghost use Rattle.tree_check.specs.promise.FaultTexts.{tree_fault_text};
ghost use Rattle.tree_text.specs.promise.FaultTexts.{text_fault_text};
ghost use Rattle.run_model.specs.Diagnostics.{Says, line_of};

use crate::diagnostics::say;
use data_types::{DICTIONARY_STEP, Path};
use edge_io::{Sink, WriteFault};
use itoa::Buffer;
use layout_rules::LayoutFault;
use schema_check::SchemaRule;
use tree_check::TreeFault;
use tree_text::TextFault;

/// The line of the fault of a tree.
pub(crate) fn tell_tree<E: Sink>(errs: &mut E, fault: &TreeFault) -> Result<(), WriteFault>
    ensures { Says result (E.taken errs.old) (E.taken errs.new) (E.faults errs.old) (E.faults errs.new) (line_of (tree_fault_text fault.now)) }
{
    match fault {
        TreeFault::Text(fault) => tell_text(errs, *fault),
        TreeFault::Schema { path, rule } => tell_schema(errs, path, *rule),
        TreeFault::Layout(fault) => tell_layout(errs, fault),
    }
}

/// The line of the fault of a text.
fn tell_text<E: Sink>(errs: &mut E, fault: TextFault) -> Result<(), WriteFault>
    ensures { Says result (E.taken errs.old) (E.taken errs.new) (E.faults errs.old) (E.faults errs.new) (line_of (text_fault_text fault)) }
{
    let mut room = Buffer::new();
    match fault {
        TextFault::Line { line } => say(
            errs,
            &[
                "arrowpipe: tree line ",
                room.format(line),
                ": not expected\n",
            ],
        ),
        TextFault::TooManyLines => say(errs, &["arrowpipe: tree: too many lines\n"]),
        TextFault::NoMemory => say(errs, &["arrowpipe: out of memory\n"]),
    }
}

/// The line of a rule that fails at a node of a schema.
fn tell_schema<E: Sink>(errs: &mut E, path: &Path, rule: SchemaRule) -> Result<(), WriteFault>
    ensures { Says result (E.taken errs.old) (E.taken errs.new) (E.faults errs.old) (E.faults errs.new)
        (line_of (codes "tree " ++ way_text (steps_of path.now) ++ codes ": schema: " ++ schema_rule_text rule)) }
{
    tell_way(errs, path)?;
    say(errs, &[": schema: ", rule.name(), "\n"])
}

/// The line of a rule that fails at a node of an array.
fn tell_layout<E: Sink>(errs: &mut E, fault: &LayoutFault) -> Result<(), WriteFault>
    ensures { Says result (E.taken errs.old) (E.taken errs.new) (E.faults errs.old) (E.faults errs.new)
        (line_of (codes "tree " ++ layout_fault_text fault.now)) }
{
    tell_way(errs, &fault.path)?;
    tell_numbers(errs, fault)
}

/// The rule, its place and its numbers, behind the way to the node.
fn tell_numbers<E: Sink>(errs: &mut E, fault: &LayoutFault) -> Result<(), WriteFault>
    ensures { Says result (E.taken errs.old) (E.taken errs.new) (E.faults errs.old) (E.faults errs.new)
        (codes ": " ++ rule_text fault.now.rule ++ codes " at " ++ decimal fault.now.place ++ codes ": " ++ signed_decimal fault.now.left ++ codes ", "
        ++ signed_decimal fault.now.right ++ codes "\n") }
{
    let mut place = Buffer::new();
    let mut left = Buffer::new();
    let mut right = Buffer::new();
    let place = place.format(fault.place);
    let left = left.format(fault.left);
    let right = right.format(fault.right);
    let rule = fault.rule.name();
    say(
        errs,
        &[": ", rule, " at ", place, ": ", left, ", ", right, "\n"],
    )
}

/// The front of a line, with the way to a node.
fn tell_way<E: Sink>(errs: &mut E, path: &Path) -> Result<(), WriteFault>
    ensures { Says result (E.taken errs.old) (E.taken errs.new) (E.faults errs.old) (E.faults errs.new)
        (codes "arrowpipe: tree " ++ way_text (steps_of path.now)) }
{
    say(errs, &["arrowpipe: tree "])?;
    tell_steps_if(errs, path.way())
}

/// The steps from the root, which has none and is a `/`.
fn tell_steps_if<E: Sink>(errs: &mut E, way: &[u32]) -> Result<(), WriteFault>
    ensures { Says result (E.taken errs.old) (E.taken errs.new) (E.faults errs.old) (E.faults errs.new) (way_text way.now) }
{
    if way.is_empty() {
        say(errs, &["/"])
    } else {
        tell_steps(errs, way)
    }
}

/// The steps, one behind the other.
fn tell_steps<E: Sink>(errs: &mut E, way: &[u32]) -> Result<(), WriteFault>
    ensures { Says result (E.taken errs.old) (E.taken errs.new) (E.faults errs.old) (E.faults errs.new) (flat_map step_text way.now) }
{
    for step in way {
        tell_step(errs, *step)?;
    }
    Ok(())
}

/// One step, to a child or to the dictionary.
fn tell_step<E: Sink>(errs: &mut E, step: u32) -> Result<(), WriteFault>
    ensures { Says result (E.taken errs.old) (E.taken errs.new) (E.faults errs.old) (E.faults errs.new) (step_text step) }
{
    let mut room = Buffer::new();
    if step == DICTIONARY_STEP {
        say(errs, &["/d"])
    } else {
        say(errs, &["/", room.format(step)])
    }
}
