//! The program `arrowtree`: reads the text of a schema tree and an array tree from standard input and writes what a command
//! makes of them to standard output.
#![tactic(auto)]

use edge_io::{StdSink, StdSource, program_words};
use std::io::ErrorKind;
use std::process::ExitCode;
use tree_top::run_tree_to_exit;

/// The status for arguments that are not text, which no command takes.
const REFUSED: u8 = 2;
/// The status where there is no memory.
const NO_MEMORY: u8 = 9;

/// Tells why there are no words: one is no text, or there is no memory.
fn no_words(rt: &HostRuntime, why: ErrorKind) -> ExitCode {
    match why {
        ErrorKind::OutOfMemory => {
            let _told = eprintln!(rt; "arrowtree: status {NO_MEMORY}");
            ExitCode::from(NO_MEMORY)
        }
        _ => {
            let _told = eprintln!(rt; "arrowtree: status {REFUSED}");
            ExitCode::from(REFUSED)
        }
    }
}

fn main(rt: HostRuntime) -> ExitCode {
    let words = match program_words(&rt) {
        Ok(words) => words,
        Err(error) => return no_words(&rt, error.kind()),
    };
    let mut source = StdSource::new(rt.stdin());
    let mut sink = StdSink::new(rt.stdout());
    let mut errs = StdSink::new(rt.stderr());
    run_tree_to_exit(rt.alloc(), &words, &mut source, &mut sink, &mut errs)
}
