//! The top call.
ghost use Rattle.run_model.specs.promise.Words.{texts_of};
ghost use Rattle.pipe_top.specs.promise.Ran.{Ran};

use crate::any_step::AnyStep;
use crate::{memory_stands_alone, one_answer, run_task};
use edge_io::{Gate, Sink, Source};
use run_model::{CommandLine, Outcome, RunFault, outcome_of, read_command_line, write_diagnostics};
use std::alloc::Global;
use std::thread::Threads;
use stream_face::Tap;
use unit_pass::open_desk;

/// Reads the source to its end and writes the text of the table that the stages make of the table that it spells, or the report
/// of the tree that it spells.
///
/// `words` are those after the program's name:
/// `[--schema TEXT] [--batch N] [--workers W] [--audit] [--check] [--selftest N] [--null MARK] [--ahead A] [STAGE ...]`. A
/// column holds values of the type that the schema text asks for, and UTF-8 text where it asks for none; a field that equals
/// the mark is a null, by default the empty one, and a null is written as the mark. The header's names are UTF-8 and differ,
/// there are at most 1,024 of them, and each entry of the schema text names one of them. There are at most 16 stages, each
/// over the chunks of the one before it; the rows are read in chunks of at most `N` of them, 1,024 by default, and with
/// `--ahead A` ahead of the stages, in a thread beside them, `A` chunks a round.
///
/// The first of these faults is reported: of the words, of the stage texts, of the schema text, of reading, of the header, of the
/// stages over its columns, of the records.
///
/// With `--check`, which takes no stage and no schema text, the source is a schema tree and an array tree as lines of text. They
/// are checked as a foreign producer's would be, and the text is the report of the array. The first of these faults is reported: of the
/// words, of reading, of the text, of the schema, of the array. The tap sees nothing, and `N`, `W`, `A` and the mark change nothing.
///
/// With `--selftest N`, which takes no stage, no schema text and no `--check`, the source is left alone: `N` rows are made in
/// its place (`made` of `csv_model`), and go through a chain of stages of their own (`chain_stages` in `run_model`). The mark changes nothing.
///
/// Each chunk that passes from the source or from a stage is checked and then shown to the tap: link 0 is the source's, link
/// K that of stage K ("The Arrow C Stream Interface").
///
/// To `errs` goes the line `arrowpipe: TEXT` of the fault, and then, with `--audit`, the line
/// `audit blocks=B nodes=N left=0`.
pub fn run<R: Threads + Sync, S: Source, K: Sink, E: Sink, T: Tap>(
    rt: &R,
    alloc: Global,
    words: &[String],
    source: &mut S,
    sink: &mut K,
    errs: &mut E,
    tap: &mut T,
    gate: &(dyn Gate + Sync),
) -> Outcome
    // The answer, how far the source was read, what the sink, the tap and the sink of diagnostics got, the cause of each fault, and that
    // nothing is left: the members of `Ran` (`specs/promise/Ran.antt`), each of which says one of these.
    ensures ran { Ran (texts_of words.now)
        (record {
          left = S.left source.old;
          read_faults = S.faults source.old;
          taken = K.taken sink.old;
          write_faults = K.faults sink.old;
          told = E.taken errs.old;
          tell_faults = E.faults errs.old;
          seen = T.seen tap.old;
        })
        (record {
          left = S.left source.new;
          read_faults = S.faults source.new;
          taken = K.taken sink.new;
          write_faults = K.faults sink.new;
          told = E.taken errs.new;
          tell_faults = E.faults errs.new;
          seen = T.seen tap.new;
        }) result }
{
    one_answer();
    memory_stands_alone();
    let (desk, mut pass) = open_desk();
    let CommandLine {
        audit: wanted,
        made,
        task,
    } = read_command_line(alloc, words);
    let carried = run_task::<AnyStep, _, _, _, _>(
        rt, alloc, made, task, source, sink, &mut pass, tap, gate,
    );
    let audit = desk.close(pass);
    let outcome = outcome_of(carried, audit);
    let _told = write_diagnostics(errs, outcome.fault, &outcome.audit, wanted);
    outcome
}
