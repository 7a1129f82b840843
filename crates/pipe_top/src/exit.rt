//! A run as the end of a process.
ghost use Rattle.std.specs.Prelude.{◌≡◌, None};
ghost use Rattle.std.specs.Process.{exit_status};
ghost use Rattle.run_model.specs.promise.Words.{texts_of};
ghost use Rattle.run_model.specs.declared.outcome.Outcome.{Outcome as AnOutcome};
ghost use Rattle.pipe_top.specs.promise.Ran.{Ran};

use crate::top::run;
use edge_io::{OpenGate, Sink, Source};
use std::alloc::Global;
use std::process::ExitCode;
use std::thread::Threads;
use stream_face::NoTap;

/// [`run`] with a tap that keeps nothing and a gate that is always open. It answers the exit status.
pub fn run_to_exit<R: Threads + Sync, S: Source, K: Sink, E: Sink>(
    rt: &R,
    alloc: Global,
    words: &[String],
    source: &mut S,
    sink: &mut K,
    errs: &mut E,
) -> ExitCode
    // All that `run` promises of its outcome, which has this status.
    ensures ran { (outcome : AnOutcome) × (exit_status result ≡ outcome.status) × Ran (texts_of words.now)
        (record {
          left = S.left source.old;
          read_faults = S.faults source.old;
          taken = K.taken sink.old;
          write_faults = K.faults sink.old;
          told = E.taken errs.old;
          tell_faults = E.faults errs.old;
          seen = None;
        })
        (record {
          left = S.left source.new;
          read_faults = S.faults source.new;
          taken = K.taken sink.new;
          write_faults = K.faults sink.new;
          told = E.taken errs.new;
          tell_faults = E.faults errs.new;
          seen = None;
        }) outcome }
{
    let outcome = run(rt, alloc, words, source, sink, errs, &mut NoTap, &OpenGate);
    ExitCode::from(outcome.status)
}
