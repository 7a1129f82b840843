//! The top call.
ghost use Rattle.tree_top.specs.promise.Answer.{texts_of};
ghost use Rattle.tree_top.specs.promise.Ran.{Ran};

use crate::carry::run_over_source;
use crate::command::read_command;
use crate::diagnostics::write_diagnostics;
use crate::laws::memory_stands_alone;
use crate::outcome::{TreeOutcome, outcome_of};
use edge_io::{Sink, Source};
use std::alloc::Global;
use unit_pass::open_desk;

/// Reads the source to its end and writes the text that a command makes of the schema tree and the array tree of that text.
///
/// `words` are those after the program's name. The text is `ok` and a line for each item of the array. Without words the
/// array may be of any kind, and a line is the text of an item's value. Under `union` it is read as a union ("Arrow Columnar
/// Format", "Union Layout"), and a line begins with the item's type id. Under `tag` and `tagdense` the columns of a chunk are
/// made the children of a sparse or dense union, and a line is the number of the first column that isn't null in a row, with
/// its value. Under `foreign` a chunk is given to an owner with a release of its own, and drained. Under `runs` there is a
/// line for each run of equal values of a flat column, with the place behind its last item and its value. Under `flat` the
/// array is read as a run-end encoded one ("Arrow Columnar Format", "Run-End Encoded Layout"). Under `explode` and `nest` a
/// column of a chunk is named by its number from 0: its lists are spread out, a row for each item, or the rows are grouped by
/// its values, and there is a line for each row that is made. A text of more than 2^31 bytes is refused as out of memory.
///
/// The first of these faults is reported: of the words, of reading, of the text, of the schema, of the array, of the command,
/// of writing. To `errs` goes the line `arrowtree: status N` of a fault.
pub fn run_tree<S: Source, K: Sink, E: Sink>(
    alloc: Global,
    words: &[String],
    source: &mut S,
    sink: &mut K,
    errs: &mut E,
) -> TreeOutcome
    // The answer, how far the source was read, what the sink and the sink of diagnostics got, the cause of each fault, and that
    // nothing is left: the members of `Ran` (`specs/promise/Ran.antt`), each of which says one of these.
    ensures ran { Ran (texts_of words.now)
        (record {
          left = S.left source.old;
          read_faults = S.faults source.old;
          taken = K.taken sink.old;
          write_faults = K.faults sink.old;
          told = E.taken errs.old;
          tell_faults = E.faults errs.old;
        })
        (record {
          left = S.left source.new;
          read_faults = S.faults source.new;
          taken = K.taken sink.new;
          write_faults = K.faults sink.new;
          told = E.taken errs.new;
          tell_faults = E.faults errs.new;
        }) result }
{
    memory_stands_alone();
    let (desk, mut pass) = open_desk();
    let command = read_command(words);
    let carried = run_over_source(alloc, command, source, sink, &mut pass);
    let audit = desk.close(pass);
    let outcome = outcome_of(carried, audit);
    let _told = write_diagnostics(errs, outcome.fault);
    outcome
}
