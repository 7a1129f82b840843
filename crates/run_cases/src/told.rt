//! What came of a run, as answers.
use crate::ran::Ran;
use case_text::{Answers, spelling_of};
use pipe_top::{OwnedValue, RunFault, SeenChunk};
use std::alloc::{AllocError, Global};

/// The links of a run with sixteen stages.
const LINKS: u32 = 17;

/// A value of a chunk.
fn value_text(alloc: Global, value: &OwnedValue) -> Result<String, AllocError> {
    match value {
        OwnedValue::Null => String::from_str(alloc, "null"),
        OwnedValue::Truth(truth) => format!(in alloc; "{truth}"),
        OwnedValue::Whole(number) => format!(in alloc; "{number}"),
        OwnedValue::Bytes(bytes) => spelling_of(alloc, bytes.as_slice()),
        _ => format!(in alloc; "{value:?}"),
    }
}

/// A row of a chunk, in brackets.
fn row_text(alloc: Global, row: &[OwnedValue]) -> Result<String, AllocError> {
    let mut text = String::from_str(alloc, " (")?;
    let mut between = "";
    for value in row {
        text.push_str(between)?;
        text.push_str(value_text(alloc, value)?.as_str())?;
        between = ", ";
    }
    text.push(')')?;
    Ok(text)
}

/// The number of a chunk's link, and its rows.
fn chunk_text(alloc: Global, chunk: &SeenChunk) -> Result<String, AllocError> {
    let mut text = format!(in alloc; "{}:", chunk.link)?;
    for row in &chunk.rows {
        text.push_str(row_text(alloc, row.as_slice())?.as_str())?;
    }
    Ok(text)
}

/// Adds the chunks that a tap was shown, link by link. In which order those of two links came is left open.
fn push_chunks(answers: &mut Answers, alloc: Global, seen: &[SeenChunk]) -> Result<(), AllocError> {
    for link in 0..LINKS {
        for chunk in seen.iter().filter(|chunk| chunk.link == link) {
            answers.push(alloc, "|", chunk_text(alloc, chunk)?.as_str())?;
        }
    }
    Ok(())
}

/// Adds a fault to a text, where no line of diagnostics tells it.
fn push_untold(
    text: &mut String,
    alloc: Global,
    fault: RunFault,
    told: &[u8],
) -> Result<(), AllocError> {
    let line = format!(in alloc; "arrowpipe: {fault}\n")?;
    if !told.starts_with(line.as_bytes()) {
        text.push_str(format!(in alloc; ", {fault}")?.as_str())?;
    }
    Ok(())
}

/// The status; the fault where no line tells it; whether a source that was to fail wasn't called; the units that are left, where any are.
fn end_text(alloc: Global, ran: &Ran) -> Result<String, AllocError> {
    let mut text = format!(in alloc; "{}", ran.outcome.status)?;
    if let Some(fault) = ran.outcome.fault {
        push_untold(&mut text, alloc, fault, ran.told.taken())?;
    }
    if ran.is_unread {
        text.push_str(", unread")?;
    }
    let left = ran.outcome.audit.left;
    if left != 0 {
        text.push_str(format!(in alloc; ", {left} left")?.as_str())?;
    }
    Ok(text)
}

/// What came of a run: the text, the diagnostics, what the tap was shown, the status, and, without a fault, what was made. Behind a
/// row there is neither that nor a status 0.
pub(crate) fn answers_of(alloc: Global, ran: &Ran, is_row: bool) -> Result<Answers, AllocError> {
    let mut answers = Answers::new(alloc);
    answers.push_text(alloc, ">", ran.text.taken())?;
    answers.push_text(alloc, "!", ran.told.taken())?;
    if let Some(tap) = &ran.tap.kept {
        push_chunks(&mut answers, alloc, tap.seen())?;
    }
    let made = match ran.outcome.fault {
        None => Some(ran.outcome.audit),
        Some(_) => None,
    };
    answers.push_end(alloc, end_text(alloc, ran)?, made, is_row)?;
    Ok(answers)
}
