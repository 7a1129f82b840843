//! What a program does with a transcript: it reads the cases, and writes them again with what came of each.
use crate::{Answers, Case, Line, line_of};
use std::alloc::Global;
use std::io;
use std::io::{Error, ErrorKind, Input};

/// Writes a line that isn't understood behind `??`, and ends the program.
fn refuse(rt: &impl Print, line: &str) -> io::Result<()> {
    println!(rt; "?? {line}")?;
    Err(Error::from(ErrorKind::InvalidData))
}

/// Runs a case that has no rows, and writes what came of it.
fn finish<R: Print, F: Fn(&Case, bool) -> io::Result<Option<Answers>>>(
    rt: &R,
    case: Option<Case>,
    run: &F,
) -> io::Result<()>
    requires { F.IsAlwaysCallable run.now }
{
    let Some(case) = case else {
        return Ok(());
    };
    if case.has_rows {
        return Ok(());
    }
    match run(&case, false)? {
        Some(answers) => answers.write(rt),
        None => refuse(rt, case.words.as_str()),
    }
}

/// Runs a row of a case, and writes what came of it behind the row.
fn run_row<R: Print, F: Fn(&Case, bool) -> io::Result<Option<Answers>>>(
    rt: &R,
    alloc: Global,
    case: &mut Case,
    row: &str,
    run: &F,
) -> io::Result<()>
    requires { F.IsAlwaysCallable run.now }
{
    case.has_rows = true;
    match run(&case.filled(alloc, row)?, true)? {
        Some(answers) => answers.write_row(rt, row),
        None => refuse(rt, row),
    }
}

/// Reads a transcript from standard input, and writes it again with what `run` says came of each case and of each row. It is told
/// whether it runs a row, and answers none where it doesn't understand the case, which ends the program.
pub fn run_transcript<R: Input + Print, F: Fn(&Case, bool) -> io::Result<Option<Answers>>>(
    rt: &R,
    alloc: Global,
    run: &F,
) -> io::Result<()>
    requires { F.IsAlwaysCallable run.now }
{
    let mut case: Option<Case> = None;
    for line in rt.lines(alloc) {
        let line = line?;
        let text = line.as_str();
        match (line_of(text), &mut case) {
            (Line::Answer, _) => continue,
            (Line::Row(row), Some(case)) => {
                run_row(rt, alloc, case, row, run)?;
                continue;
            }
            (Line::Part(part), Some(case)) => case.push(alloc, part)?,
            (Line::Case(words), _) => {
                finish(rt, case, run)?;
                case = Some(Case::new(alloc, words)?);
            }
            (Line::Note, _) => {
                finish(rt, case, run)?;
                case = None;
            }
            _ => return refuse(rt, text),
        }
        println!(rt; "{text}")?;
    }
    finish(rt, case, run)
}
