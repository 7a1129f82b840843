//! What came of a run, as answers.
use crate::ran::Ran;
use case_text::Answers;
use schema_check::SchemaRule;
use std::alloc::{AllocError, Global};
use tree_top::TreeRunFault;

/// What a rule of schemas says besides.
fn rule_text(alloc: Global, rule: SchemaRule) -> Result<String, AllocError> {
    match rule {
        SchemaRule::Format(fault) => format!(in alloc; ", {fault}"),
        SchemaRule::Meta(fault) => format!(in alloc; ", {fault}"),
        _ => Ok(String::new(alloc)),
    }
}

/// A fault: of a schema or an array with the way to the node, the rule, and what else the fault has.
fn fault_text(alloc: Global, fault: TreeRunFault) -> Result<String, AllocError> {
    match fault {
        TreeRunFault::Words => String::from_str(alloc, "words refused"),
        TreeRunFault::InputTooLong => String::from_str(alloc, "input too long"),
        TreeRunFault::ReadFault => String::from_str(alloc, "read failed"),
        TreeRunFault::WriteFault { taken } => {
            format!(in alloc; "write failed after {taken} bytes")
        }
        TreeRunFault::Text(fault) => format!(in alloc; "{fault}"),
        TreeRunFault::Schema { path, rule } => {
            format!(in alloc; "schema {path}: {rule}{}", rule_text(alloc, rule)?)
        }
        TreeRunFault::Layout(fault) => format!(in alloc; "array {fault}"),
        TreeRunFault::UnionSchema(fault) => format!(in alloc; "union schema: {fault}"),
        TreeRunFault::Union(fault) => format!(in alloc; "union: {fault}"),
        TreeRunFault::Tag(fault) => format!(in alloc; "tag: {fault}"),
        TreeRunFault::RunsSchema(fault) => format!(in alloc; "runs schema: {fault}"),
        TreeRunFault::Runs(fault) => format!(in alloc; "runs: {fault}"),
        TreeRunFault::Code(fault) => format!(in alloc; "code: {fault}"),
        TreeRunFault::TooManyColumns { count } => { format!(in alloc; "too many columns: {count}") }
        TreeRunFault::Column { column } => format!(in alloc; "no column {column}"),
        TreeRunFault::Lists(fault) => format!(in alloc; "lists: {fault}"),
        TreeRunFault::NoMemory => String::from_str(alloc, "out of memory"),
    }
}

/// The status; the fault; whether a source that was to fail wasn't called; the units that are left, where any are.
fn end_text(alloc: Global, ran: &Ran) -> Result<String, AllocError> {
    let mut text = format!(in alloc; "{}", ran.outcome.status)?;
    if let Some(fault) = ran.outcome.fault {
        text.push_str(", ")?;
        text.push_str(fault_text(alloc, fault)?.as_str())?;
    }
    if ran.is_unread {
        text.push_str(", unread")?;
    }
    let left = ran.outcome.audit.left;
    if left != 0 {
        text.push_str(format!(in alloc; ", {left} left")?.as_str())?;
    }
    Ok(text)
}

/// What came of a run: the text, the diagnostics, the status, and, without a fault, what was made. Behind a row there is neither
/// the last nor the line of diagnostics of a fault nor a status 0.
pub(crate) fn answers_of(alloc: Global, ran: &Ran, is_row: bool) -> Result<Answers, AllocError> {
    let mut answers = Answers::new(alloc);
    answers.push_text(alloc, ">", ran.text.taken())?;
    if !is_row {
        answers.push_text(alloc, "!", ran.told.taken())?;
    }
    let made = match ran.outcome.fault {
        None => Some(ran.outcome.audit),
        Some(_) => None,
    };
    answers.push_end(alloc, end_text(alloc, ran)?, made, is_row)?;
    Ok(answers)
}
