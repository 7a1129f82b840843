//! A program that runs cases of the top call of the program for trees, [`tree_top::run_tree`]: it reads a transcript from
//! standard input, and writes it again with what came of each case.
//!
//! A case is a `$` line with the words of the command, `<` lines of input, and `@` lines where a source or a sink is to
//! behave in a way of its own. Behind it is what came of it, which is skipped in the input and written anew: `>` lines of
//! the text, `!` lines of diagnostics, and a `=` line of the status. A `?` line is a row: the case once more, its parts in
//! the places `{}`, `{1}`, `{2}` of the case, and behind `->` what came of it. An empty line or a `#` line ends a case and
//! is copied. So a transcript whose answers are right comes out as it went in.
#![tactic(auto)]

mod ran;
mod told;

use case_text::{Answers, Case, Plan, run_transcript};
use ran::run_plan;
use std::alloc::Global;
use std::io;
use told::answers_of;

/// Runs a case, where it is understood, and says what came of it.
fn run_case(alloc: Global, case: &Case, is_row: bool) -> io::Result<Option<Answers>> {
    match Plan::of(alloc, case)? {
        Some(plan) if !plan.is_tapped => {
            Ok(Some(answers_of(alloc, &run_plan(alloc, plan)?, is_row)?))
        }
        _ => Ok(None),
    }
}

fn main(rt: HostRuntime) -> io::Result<()> {
    let alloc = rt.alloc();
    run_transcript(
        &rt,
        alloc,
        &|case: &Case, is_row: bool| { run_case(alloc, case, is_row) },
    )
}
