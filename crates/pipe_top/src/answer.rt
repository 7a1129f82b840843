//! The text of a table, made of the bytes of an input.
ghost use Rattle.std.specs.Prelude.{◌≡◌, ◌⊎◌, ◌≤◌, ◌*◌, ◌^◌, vec_len, length, ℕ, List, IfErr, IfOk, OnErr, OnOk, All, Ok, map, get_or, [], true, false};
ghost use Rattle.csv_model.specs.promise.Batches.{batches_in};
ghost use Rattle.csv_model.specs.promise.Header.{header_of, most_columns};
ghost use Rattle.csv_model.specs.promise.Reading.{behind_header, records_of};
ghost use Rattle.stage_plan.specs.promise.Entries.{entries_of};
ghost use Rattle.csv_source.specs.Sources.{source_state, stream_of};
ghost use Rattle.field_codec.specs.TextColumns.{AreAllowed, AreProper, IsAllowed, NamesDiffer};
ghost use Rattle.data_types.specs.ColumnView.{column_of};
ghost use Rattle.data_types.specs.Kinds.{KindOk};
ghost use Rattle.stage_chain.specs.promise.Chains.{ShowsFirst, ShowsLinks};
ghost use Rattle.stage_chain.specs.Plans.{links_of as plan_links};
ghost use Rattle.stage_model.specs.promise.Typing.{plan_of};
ghost use Rattle.stage_plan.specs.promise.PlanWords.{most_stages};
ghost use Rattle.stage_plan.specs.PlanWords.{IsPlan, columns_in};
ghost use Rattle.unit_pass.specs.declared.pass.TheConstants.{ROOM, SUPPLY};
ghost use Rattle.run_model.specs.promise.Answer.{Fault, Request as ARequest, Text};
ghost use Rattle.run_model.specs.Outcomes.{request_of};
ghost use Rattle.tree_check.specs.promise.Runs.{input_limit};
ghost use Rattle.run_model.specs.promise.RunAnswer.{answer_of_records};
ghost use Rattle.run_model.specs.RunAnswer.{answer_of_plan};
ghost use Rattle.pipe_top.specs.ChainFaults.{fault_of_chain};
ghost use Rattle.pipe_top.specs.Begun.{IsBegun};
ghost use Rattle.pipe_top.specs.promise.Over.{is_behind_records};
ghost use Rattle.pipe_top.specs.promise.Traffic.{LinksTraffic, links_of};

use crate::ahead::begin_ahead;
use csv_read::{Records, TextBlocks, read_header};
use csv_source::CsvSource;
use data_types::{ColumnType, RowFault, clone_columns};
use edge_io::Gate;
use run_model::{Request, RunFault};
use stage_chain::{DriveFault, PlanStep, drive_steps};
use stage_plan::{Plan, StageText, TypeEntry, type_plan};
use std::alloc::Global;
use std::thread::Threads;
use stream_face::{ArrayStream, Tap};
use unit_pass::{NoMemory, Pass, ROOM, SUPPLY};

/// The columns that the header of a text names, or why it is refused. The records behind it are left.
pub(crate) fn header_columns(
    alloc: Global,
    records: &mut Records<TextBlocks>,
    entries: &[TypeEntry],
) -> Result<Vec<ColumnType>, RunFault>
    requires proper { All (λ e. KindOk e.kind) entries.now }
    requires allowed { All (λ e. IsAllowed e.kind) entries.now }
    ensures found { IfOk result (λ columns. header_of (entries_of entries.now) records.old.records ≡ Ok (map column_of columns.items)) }
    ensures some { IfOk result (λ columns. 1 ≤ vec_len columns) }
    ensures few { IfOk result (λ columns. vec_len columns ≤ most_columns) }
    ensures differ { IfOk result (λ columns. NamesDiffer (map column_of columns.items)) }
    ensures proper { IfOk result (λ columns. AreProper (map column_of columns.items)) }
    ensures allowed { IfOk result (λ columns. AreAllowed (map column_of columns.items)) }
    ensures fault { IfErr result
        (λ fault. (fault ≡ RunFault.NoMemory)
        ⊎ ((request : ARequest) → request.entries ≡ entries.now → answer_of_records request records.old.records ≡ Fault fault)) }
    ensures no_record { IfErr result (λ fault. is_behind_records fault ≡ false) }
    ensures behind { OnOk result (records.new.records ≡ behind_header records.old.records) }
    ensures size { records.new.size ≤ records.old.size }
{
    match read_header(alloc, records, entries) {
        Ok(columns) => Ok(columns),
        Err(fault) => Err(RunFault::from(fault)),
    }
}

/// What stages are over columns, or why they don't fit.
pub(crate) fn plan_stages(
    alloc: Global,
    columns: Vec<ColumnType>,
    stages: &[StageText],
) -> Result<Plan, RunFault>
    requires proper { AreProper (map column_of columns.items) }
    requires few { length stages.now ≤ most_stages }
    ensures found { IfOk result (IsPlan (map column_of columns.items) stages.now) }
    ensures few { IfOk result (λ plan. length plan.steps.items ≤ most_stages) }
    ensures read { IfOk result (λ plan. get_or (plan_links plan) 0 [] ≡ map column_of columns.items) }
    ensures links { IfOk result (λ plan. 1 ≤ vec_len plan.links) }
    ensures fault { IfErr result (λ fault. (fault ≡ RunFault.NoMemory)
        ⊎ ((mark : List ℕ) (records : List (List (List ℕ)))
        → answer_of_plan mark (map column_of columns.items) (plan_of (map column_of columns.items) stages.now) records ≡ Fault fault)) }
    ensures no_record { IfErr result (λ fault. is_behind_records fault ≡ false) }
{
    match type_plan(alloc, columns, stages) {
        Ok(plan) => Ok(plan),
        Err(fault) => Err(RunFault::from(fault)),
    }
}

/// The columns that a plan reads.
pub(crate) fn read_columns(plan: &Plan) -> &[ColumnType]
    requires { 1 ≤ vec_len plan.now.links }
    ensures { columns_in result.now ≡ get_or (plan_links plan.now) 0 [] }
{
    plan.links[0].as_slice()
}

/// The records behind a header as a stream of chunks of the columns that a plan reads.
fn source_of(
    alloc: Global,
    records: Records<TextBlocks>,
    columns: &[ColumnType],
    batch: u32,
    mark: &[u8],
) -> Result<CsvSource<TextBlocks>, NoMemory>
    requires short { records.size ≤ 2 ^ 30 }
    requires some { 1 ≤ length columns.now }
    requires few { length columns.now ≤ most_columns }
    requires differ { NamesDiffer (map column_of columns.now) }
    requires proper { AreProper (map column_of columns.now) }
    requires allowed { AreAllowed (map column_of columns.now) }
    requires some_rows { 1 ≤ batch }
    ensures { IfOk result (λ source. source_state source
        ≡ stream_of (map column_of columns.now) (batches_in mark.now (map column_of columns.now) records.records batch)) }
{
    let columns = clone_columns(alloc, columns)?;
    CsvSource::start(alloc, records, columns, mark, batch)
}

/// The fault of a run whose chain of stages gives no text.
fn run_fault(fault: DriveFault) -> RunFault
    ensures { result ≡ fault_of_chain fault }
{
    match fault {
        DriveFault::Row(RowFault::Ragged { row, found }) => RunFault::Ragged { row, found },
        DriveFault::Row(RowFault::Field { row, column }) => RunFault::Field { row, column },
        DriveFault::NoMemory => RunFault::NoMemory,
    }
}

/// The records behind the header of a text as a stream, and what the stages are over its columns; or the first fault: of the
/// header, of the stages.
fn begin(
    alloc: Global,
    bytes: Vec<u8>,
    request: &Request,
) -> Result<(CsvSource<TextBlocks>, Plan), RunFault>
    requires short { length bytes.items ≤ input_limit }
    requires proper { All (λ e. KindOk e.kind) request.now.entries.items }
    requires allowed { All (λ e. IsAllowed e.kind) request.now.entries.items }
    ensures begun { IfOk result (λ made. IsBegun (request_of request.now) (records_of bytes.items) (source_state made.0) made.1) }
    ensures few { IfOk result (λ made. length made.1.steps.items ≤ most_stages) }
    ensures fault { IfErr result
        (λ fault. (fault ≡ RunFault.NoMemory) ⊎ (answer_of_records (request_of request.now) (records_of bytes.items) ≡ Fault fault)) }
    ensures no_record { IfErr result (λ fault. is_behind_records fault ≡ false) }
{
    let mark = request.mark.as_slice();
    let mut records = Records::start_owned(alloc, bytes)?;
    let columns = match header_columns(alloc, &mut records, request.entries.as_slice()) {
        Ok(columns) => columns,
        Err(fault) => return Err(fault),
    };
    let plan = plan_stages(alloc, columns, request.stages.as_slice())?;
    let source = source_of(alloc, records, read_columns(&plan), request.batch, mark)?;
    Ok((source, plan))
}

/// The text of the table that stages make, by these steps, of the records that a source has, or the first record at fault.
fn answer_begun<W: PlanStep, S: ArrayStream, R: Threads + Sync, T: Tap>(
    rt: &R,
    alloc: Global,
    source: S,
    plan: Plan,
    request: &Request,
    pass: &mut Pass,
    tap: &mut T,
    gate: &(dyn Gate + Sync),
) -> Result<Vec<u8>, RunFault>
    requires begun { (records : List (List (List ℕ))) × IsBegun (request_of request.now) records (S.state source) plan }
    requires few { length plan.steps.items ≤ most_stages }
    requires units { 2 * ROOM ≤ pass.old.units }
    ensures text { (records : List (List (List ℕ))) → IsBegun (request_of request.now) records (S.state source) plan
        → IfOk result (λ text. answer_of_records (request_of request.now) records ≡ Text text.items) }
    ensures fault { (records : List (List (List ℕ))) → IsBegun (request_of request.now) records (S.state source) plan
        → IfErr result (λ fault. (fault ≡ RunFault.NoMemory) ⊎ (answer_of_records (request_of request.now) records ≡ Fault fault)) }
    ensures units { pass.new.units ≡ pass.old.units }
    ensures counts { (records : List (List (List ℕ))) → IsBegun (request_of request.now) records (S.state source) plan
        → OnOk result (LinksTraffic (links_of (request_of request.now) records) pass.old.blocks pass.old.nodes pass.new.blocks pass.new.nodes) }
    ensures shows { (records : List (List (List ℕ))) → IsBegun (request_of request.now) records (S.state source) plan
        → OnOk result (ShowsLinks (links_of (request_of request.now) records) (T.seen tap.old) (T.seen tap.new)) }
    ensures shows_some { (records : List (List (List ℕ))) → IsBegun (request_of request.now) records (S.state source) plan
        → OnErr result (ShowsFirst (links_of (request_of request.now) records) (T.seen tap.old) (T.seen tap.new)) }
    ensures behind { (records : List (List (List ℕ))) → IsBegun (request_of request.now) records (S.state source) plan
        → IfErr result (λ fault. is_behind_records fault ≡ true
        → LinksTraffic (links_of (request_of request.now) records) pass.old.blocks pass.old.nodes pass.new.blocks pass.new.nodes
        × ShowsLinks (links_of (request_of request.now) records) (T.seen tap.old) (T.seen tap.new)) }
{
    stage_model::batches_give_the_whole();
    let mark = request.mark.as_slice();
    let workers = request.workers;
    match drive_steps::<W, _, _, _>(rt, alloc, source, plan, mark, workers, pass, tap, gate) {
        Ok(text) => Ok(text),
        Err(fault) => Err(run_fault(fault)),
    }
}

/// The text of the table that stages make, by these steps, of the table that a text spells, or the first fault: of the header,
/// of the stages over its columns, of the records. The records are read ahead where that is asked for.
pub(crate) fn answer_input<W: PlanStep, R: Threads + Sync, T: Tap>(
    rt: &R,
    alloc: Global,
    bytes: Vec<u8>,
    request: &Request,
    pass: &mut Pass,
    tap: &mut T,
    gate: &(dyn Gate + Sync),
) -> Result<Vec<u8>, RunFault>
    requires short { length bytes.items ≤ input_limit }
    requires units { 2 * ROOM ≤ pass.old.units }
    requires proper { All (λ e. KindOk e.kind) request.now.entries.items }
    requires allowed { All (λ e. IsAllowed e.kind) request.now.entries.items }
    ensures text { IfOk result (λ text. answer_of_records (request_of request.now) (records_of bytes.items) ≡ Text text.items) }
    ensures fault { IfErr result
        (λ fault. (fault ≡ RunFault.NoMemory) ⊎ (answer_of_records (request_of request.now) (records_of bytes.items) ≡ Fault fault)) }
    ensures units { pass.new.units ≡ pass.old.units }
    ensures counts { OnOk result (LinksTraffic (links_of (request_of request.now)
        (records_of bytes.items)) pass.old.blocks pass.old.nodes pass.new.blocks pass.new.nodes) }
    ensures shows { OnOk result (ShowsLinks (links_of (request_of request.now) (records_of bytes.items)) (T.seen tap.old) (T.seen tap.new)) }
    ensures shows_some { OnErr result (ShowsFirst (links_of (request_of request.now)
        (records_of bytes.items)) (T.seen tap.old) (T.seen tap.new)) }
    ensures behind { IfErr result (λ fault. is_behind_records fault ≡ true
        → LinksTraffic (links_of (request_of request.now) (records_of bytes.items)) pass.old.blocks pass.old.nodes pass.new.blocks pass.new.nodes
        × ShowsLinks (links_of (request_of request.now) (records_of bytes.items)) (T.seen tap.old) (T.seen tap.new)) }
{
    match request.ahead {
        None => {
            let (source, plan) = begin(alloc, bytes, request)?;
            answer_begun::<W, _, _, _>(rt, alloc, source, plan, request, pass, tap, gate)
        }
        Some(ahead) => {
            let (source, plan) = begin_ahead(rt, alloc, bytes, request, ahead)?;
            answer_begun::<W, _, _, _>(rt, alloc, source, plan, request, pass, tap, gate)
        }
    }
}
