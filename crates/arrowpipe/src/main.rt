//! The program `arrowpipe`: reads CSV from standard input and writes the table that the stages of its words make of it to
//! standard output.
#![tactic(auto)]

use edge_io::{StdSink, StdSource, program_words};
use pipe_top::run_to_exit;
use std::io::ErrorKind;
use std::process::ExitCode;

/// The status for arguments that are not text, which no command takes.
const REFUSED: u8 = 2;
/// The status where there is no memory.
const NO_MEMORY: u8 = 9;

/// Tells why there are no words: one is no text, or there is no memory.
fn no_words(rt: &HostRuntime, why: ErrorKind) -> ExitCode {
    match why {
        ErrorKind::OutOfMemory => {
            let _told = eprintln!(rt; "arrowpipe: out of memory");
            ExitCode::from(NO_MEMORY)
        }
        _ => {
            let _told = eprintln!(rt; "arrowpipe: words refused");
            ExitCode::from(REFUSED)
        }
    }
}

fn main(rt: HostRuntime) -> ExitCode {
    let words = match program_words(&rt) {
        Ok(words) => words,
        Err(error) => return no_words(&rt, error.kind()),
    };
    let mut source = StdSource::new(rt.stdin());
    let mut sink = StdSink::new(rt.stdout());
    let mut errs = StdSink::new(rt.stderr());
    run_to_exit(&rt, rt.alloc(), &words, &mut source, &mut sink, &mut errs)
}
