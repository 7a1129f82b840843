//! A program that runs cases of the crates' public calls on texts: it reads a transcript from standard input, and writes it
//! again with what came of each case.
//!
//! A case is a `$` line, whose first word says what is called and whose other words are what it is called with, and `<`
//! lines of input. Behind it is what came of it, which is skipped in the input and written anew: `>` lines of what was
//! answered, `!` lines of faults, and a `=` line of what was made. A `?` line is a row: the case once more, its parts in
//! the places `{}`, `{1}`, `{2}` of the case, and behind `->` all lines that came of it. Any other line ends a case and is
//! copied. So a transcript whose answers are right comes out as it went in.
#![tactic(auto)]

mod added;
mod columns;
mod commands;
mod formats;
mod items;
mod metadata;
mod spellings;
mod stages;
mod subject;
mod times;
mod transcript;
mod trees;
mod ways;

use case_text::{Answers, Case, push_input, run_transcript};
use std::alloc::{AllocError, Global};
use std::io;
use subject::run_subject;
use transcript::Transcript;

/// The input that the lines of a case spell. None where one of them spells none.
fn input_of(alloc: Global, case: &Case) -> Result<Option<Vec<u8>>, AllocError> {
    let mut input = Vec::new(alloc);
    for line in &case.lines {
        if !push_input(&mut input, alloc, line.as_str())? {
            return Ok(None);
        }
    }
    Ok(Some(input))
}

/// Runs a case, where it is understood, and says what came of it.
fn run(alloc: Global, case: &Case) -> io::Result<Option<Answers>> {
    match (case.words(alloc)?, input_of(alloc, case)?) {
        (Some(words), Some(input)) => {
            let mut told = Transcript::new(alloc);
            run_subject(alloc, words.as_slice(), input.as_slice(), &mut told)?;
            Ok(Some(told.answers))
        }
        _ => Ok(None),
    }
}

fn main(rt: HostRuntime) -> io::Result<()> {
    let alloc = rt.alloc();
    run_transcript(
        &rt,
        alloc,
        &|case: &Case, _is_row: bool| { run(alloc, case) },
    )
}
