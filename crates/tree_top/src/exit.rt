//! A run as the end of a process.
ghost use Rattle.std.specs.Prelude.{◌≡◌};
ghost use Rattle.std.specs.Process.{exit_status};
ghost use Rattle.tree_top.specs.promise.Answer.{texts_of};
ghost use Rattle.tree_top.specs.declared.outcome.TreeOutcome.{TreeOutcome as AnOutcome};
ghost use Rattle.tree_top.specs.promise.Ran.{Ran};

use crate::top::run_tree;
use edge_io::{Sink, Source};
use std::alloc::Global;
use std::process::ExitCode;

/// [`run_tree`]. It answers the exit status.
pub fn run_tree_to_exit<S: Source, K: Sink, E: Sink>(
    alloc: Global,
    words: &[String],
    source: &mut S,
    sink: &mut K,
    errs: &mut E,
) -> ExitCode
    // All that `run_tree` promises of its outcome, which has this status.
    ensures ran { (outcome : AnOutcome) × (exit_status result ≡ outcome.status) × Ran (texts_of words.now)
        (record {
          left = S.left source.old;
          read_faults = S.faults source.old;
          taken = K.taken sink.old;
          write_faults = K.faults sink.old;
          told = E.taken errs.old;
          tell_faults = E.faults errs.old;
        })
        (record {
          left = S.left source.new;
          read_faults = S.faults source.new;
          taken = K.taken sink.new;
          write_faults = K.faults sink.new;
          told = E.taken errs.new;
          tell_faults = E.faults errs.new;
        }) outcome }
{
    let outcome = run_tree(alloc, words, source, sink, errs);
    ExitCode::from(outcome.status)
}
