//! The records of a text, read ahead of the stages in a thread beside them.
ghost use Rattle.std.specs.Prelude.{◌≡◌, ◌⊎◌, ◌≤◌, ◌^◌, length, IfErr, IfOk, All, map, false};
ghost use Rattle.csv_source.specs.AheadSources.{ahead_state};
ghost use Rattle.csv_model.specs.promise.Batches.{batches_in};
ghost use Rattle.csv_model.specs.promise.Header.{most_columns};
ghost use Rattle.csv_model.specs.promise.Reading.{records_of};
ghost use Rattle.csv_source.specs.Sources.{stream_of};
ghost use Rattle.field_codec.specs.TextColumns.{AreAllowed, AreProper, IsAllowed, NamesDiffer};
ghost use Rattle.data_types.specs.ColumnView.{column_of};
ghost use Rattle.data_types.specs.Kinds.{KindOk};
ghost use Rattle.stage_plan.specs.promise.PlanWords.{most_stages};
ghost use Rattle.run_model.specs.promise.Answer.{Fault};
ghost use Rattle.run_model.specs.Outcomes.{request_of};
ghost use Rattle.tree_check.specs.promise.Runs.{input_limit};
ghost use Rattle.run_model.specs.promise.RunAnswer.{answer_of_records};
ghost use Rattle.pipe_top.specs.Begun.{IsBegun};
ghost use Rattle.pipe_top.specs.promise.Over.{is_behind_records};

use crate::answer::{header_columns, plan_stages, read_columns};
use csv_read::{Records, TextBlocks};
use csv_source::CsvAhead;
use data_types::{ColumnType, clone_columns};
use run_model::{Request, RunFault};
use stage_plan::Plan;
use std::alloc::Global;
use std::thread::Threads;
use unit_pass::NoMemory;

/// The records behind a header as a stream of chunks of the columns that a plan reads, this many of which a round reads ahead.
fn source_ahead<'a, R: Threads>(
    rt: &'a R,
    alloc: Global,
    records: Records<TextBlocks>,
    columns: &[ColumnType],
    batch: u32,
    mark: &[u8],
    ahead: u32,
) -> Result<CsvAhead<&'a R>, NoMemory>
    requires short { records.size ≤ 2 ^ 30 }
    requires some { 1 ≤ length columns.now }
    requires few { length columns.now ≤ most_columns }
    requires differ { NamesDiffer (map column_of columns.now) }
    requires proper { AreProper (map column_of columns.now) }
    requires allowed { AreAllowed (map column_of columns.now) }
    requires some_rows { 1 ≤ batch }
    requires some_ahead { 1 ≤ ahead }
    ensures { IfOk result (λ source. ahead_state source
        ≡ stream_of (map column_of columns.now) (batches_in mark.now (map column_of columns.now) records.records batch)) }
{
    let columns = clone_columns(alloc, columns)?;
    CsvAhead::start(alloc, rt, records, columns, mark, batch, ahead)
}

/// The records behind the header of a text as a stream that reads this many chunks a round ahead, and what the stages are over its
/// columns; or the first fault: of the header, of the stages.
pub(crate) fn begin_ahead<'a, R: Threads>(
    rt: &'a R,
    alloc: Global,
    bytes: Vec<u8>,
    request: &Request,
    ahead: u32,
) -> Result<(CsvAhead<&'a R>, Plan), RunFault>
    requires short { length bytes.items ≤ input_limit }
    requires proper { All (λ e. KindOk e.kind) request.now.entries.items }
    requires allowed { All (λ e. IsAllowed e.kind) request.now.entries.items }
    requires some_ahead { 1 ≤ ahead }
    ensures begun { IfOk result (λ made. IsBegun (request_of request.now) (records_of bytes.items) (ahead_state made.0) made.1) }
    ensures few { IfOk result (λ made. length made.1.steps.items ≤ most_stages) }
    ensures fault { IfErr result
        (λ fault. (fault ≡ RunFault.NoMemory) ⊎ (answer_of_records (request_of request.now) (records_of bytes.items) ≡ Fault fault)) }
    ensures no_record { IfErr result (λ fault. is_behind_records fault ≡ false) }
{
    let mark = request.mark.as_slice();
    let mut records = Records::start_owned(alloc, bytes)?;
    let columns = match header_columns(alloc, &mut records, request.entries.as_slice()) {
        Ok(columns) => columns,
        Err(fault) => return Err(fault),
    };
    let plan = plan_stages(alloc, columns, request.stages.as_slice())?;
    let columns = read_columns(&plan);
    let source = source_ahead(rt, alloc, records, columns, request.batch, mark, ahead)?;
    Ok((source, plan))
}
