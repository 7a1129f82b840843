//! What is written of the fault and of the audit. No line takes memory.
ghost use Rattle.std.specs.Prelude.{◌++◌};
ghost use Rattle.run_model.specs.NumberedTexts.{numbered_text};
ghost use Rattle.run_model.specs.promise.Diagnostics.{audit_if, fault_line, fault_text};
ghost use Rattle.run_model.specs.Diagnostics.{Says, audit_line, joined, line_of};

use crate::fault::RunFault;
use crate::fault_text::{NumberedText, Told, digits, message_of};
use crate::tree_line::tell_tree;
use edge_io::{Sink, WriteFault, write_all};
use itoa::Buffer;
use unit_pass::Audit;

/// Writes the line of the fault, where there is one, and that of the audit where it is wanted.
pub fn write_diagnostics<E: Sink>(
    errs: &mut E,
    fault: Option<RunFault>,
    audit: &Audit,
    wanted: bool,
) -> Result<(), WriteFault>
    ensures { Says result (E.taken errs.old) (E.taken errs.new) (E.faults errs.old) (E.faults errs.new) (fault_line fault ++ audit_if wanted audit.now) }
{
    tell_fault_if(errs, fault)?;
    tell_audit_if(errs, audit, wanted)?;
    Ok(())
}

/// The fault's line, where there is one.
fn tell_fault_if<E: Sink>(errs: &mut E, fault: Option<RunFault>) -> Result<(), WriteFault>
    ensures { Says result (E.taken errs.old) (E.taken errs.new) (E.faults errs.old) (E.faults errs.new) (fault_line fault) }
{
    match fault {
        Some(fault) => tell_fault(errs, fault),
        None => say(errs, &[]),
    }
}

/// The audit's line, where it is wanted.
fn tell_audit_if<E: Sink>(errs: &mut E, audit: &Audit, wanted: bool) -> Result<(), WriteFault>
    ensures { Says result (E.taken errs.old) (E.taken errs.new) (E.faults errs.old) (E.faults errs.new) (audit_if wanted audit.now) }
{
    if wanted {
        tell_audit(errs, audit)
    } else {
        say(errs, &[])
    }
}

/// The audit's line.
fn tell_audit<E: Sink>(errs: &mut E, audit: &Audit) -> Result<(), WriteFault>
    ensures { Says result (E.taken errs.old) (E.taken errs.new) (E.faults errs.old) (E.faults errs.new) (audit_line audit.now) }
{
    let mut blocks = Buffer::new();
    let mut nodes = Buffer::new();
    let blocks = blocks.format(audit.blocks);
    let nodes = nodes.format(audit.nodes);
    say(
        errs,
        &["audit blocks=", blocks, " nodes=", nodes, " left=0\n"],
    )
}

/// The fault's line.
fn tell_fault<E: Sink>(errs: &mut E, fault: RunFault) -> Result<(), WriteFault>
    ensures { Says result (E.taken errs.old) (E.taken errs.new) (E.faults errs.old) (E.faults errs.new) (line_of (fault_text fault)) }
{
    match message_of(fault) {
        Told::Text(said) => tell_said(errs, &said),
        Told::Tree(fault) => tell_tree(errs, &fault),
    }
}

/// The line of a text.
fn tell_said<E: Sink>(errs: &mut E, said: &NumberedText) -> Result<(), WriteFault>
    ensures { Says result (E.taken errs.old) (E.taken errs.new) (E.faults errs.old) (E.faults errs.new) (line_of (numbered_text said.now)) }
{
    let mut one = Buffer::new();
    let mut two = Buffer::new();
    let first = digits(said.first, &mut one);
    let second = digits(said.second, &mut two);
    say(
        errs,
        &[
            "arrowpipe: ",
            said.front,
            first,
            said.middle,
            second,
            said.back,
            "\n",
        ],
    )
}

/// Writes the pieces one after the other.
pub(crate) fn say<E: Sink>(errs: &mut E, pieces: &[&str]) -> Result<(), WriteFault>
    ensures { Says result (E.taken errs.old) (E.taken errs.new) (E.faults errs.old) (E.faults errs.new) (joined pieces.now) }
{
    for piece in pieces {
        say_piece(errs, piece.as_bytes())?;
    }
    Ok(())
}

/// Writes one piece.
fn say_piece<E: Sink>(errs: &mut E, piece: &[u8]) -> Result<(), WriteFault>
    ensures { Says result (E.taken errs.old) (E.taken errs.new) (E.faults errs.old) (E.faults errs.new) piece.now }
{
    write_all(errs, piece)
}
