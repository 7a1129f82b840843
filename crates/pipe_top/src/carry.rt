//! What a run does between its words and its lines: it reads, makes the text and writes it.
ghost use Rattle.std.specs.Prelude.{◌≡◌, ◌<◌, ◌≤◌, ◌+◌, ◌*◌, ◌⊎◌, true, false, All, Some, None, Ok, Err, IfOk, IfErr, IfSome, OnOk, OnErr, length, ℕ, List};
ghost use Rattle.std.specs.Io.KnownBytes.{IsAtEnd, Keeps};
ghost use Rattle.field_codec.specs.TextColumns.{IsAllowed};
ghost use Rattle.data_types.specs.Kinds.{KindOk};
ghost use Rattle.edge_io.specs.promise.Edge.{LosesWithin, Rose};
ghost use Rattle.unit_pass.specs.declared.pass.TheConstants.{ROOM};
ghost use Rattle.csv_model.specs.promise.Made.{made};
ghost use Rattle.run_model.specs.promise.Words.{most_rows};
ghost use Rattle.run_model.specs.promise.Answer.{Fault, Text, cause_of};
ghost use Rattle.run_model.specs.Outcomes.{AtWriteFault, is_early, is_write_fault};
ghost use Rattle.run_model.specs.Outcomes.{IfTable, asked_of, task_of};
ghost use Rattle.tree_check.specs.promise.Runs.{input_limit, IsRead, ReadFor};
ghost use Rattle.run_model.specs.promise.RunAnswer.{input_by};
ghost use Rattle.run_model.specs.RunAnswer.{AnswersBytes, AreBytes, IsTooLong};
ghost use Rattle.pipe_top.specs.promise.Over.{is_behind_records};
ghost use Rattle.pipe_top.specs.Over.{CarriedOver};
ghost use Rattle.pipe_top.specs.promise.Traffic.{CountsTask, ShowsAsked, ShowsTask};

use crate::answer::answer_input;
use csv_model::{made, made_is_short};
use edge_io::{Gate, ReadFault, Sink, Source, WriteFault, read_all, write_all};
use run_model::{RunFault, Task};
use stage_chain::PlanStep;
use std::alloc::Global;
use std::thread::Threads;
use stream_face::Tap;
use tree_check::check_tree;
use unit_pass::{Pass, ROOM};

/// The most bytes that are read.
const INPUT_LIMIT: u64 = 1 << 30;

/// The bytes of the input: those that the source has, which is read to its end, or those of this many rows that are made.
fn read_input<S: Source>(
    alloc: Global,
    rows: Option<u32>,
    source: &mut S,
) -> Result<Vec<u8>, RunFault>
    requires few { IfSome rows (λ n. n ≤ most_rows) }
    ensures bytes { IfOk result (λ v. AreBytes (input_by rows (S.left source.old)) v.items) }
    ensures fits { IfOk result (λ v. length v.items ≤ input_limit) }
    ensures end { OnOk result (IsRead rows (S.left source.old) (S.left source.new)) }
    ensures fault { IfErr result (λ fault. (fault ≡ RunFault.NoMemory)
        ⊎ (fault ≡ RunFault.ReadFault) × (rows ≡ None) × Rose (S.faults source.old) (S.faults source.new)
        ⊎ (fault ≡ RunFault.InputTooLong) × IsTooLong (input_by rows (S.left source.old))) }
    ensures read { IfErr result (λ fault. ReadFor (cause_of fault) rows (S.left source.old) (S.left source.new)) }
    ensures made_unread { IfSome rows (λ n. Keeps (S.left source.old) (S.left source.new)) }
    ensures made_unfailed { IfSome rows (λ n. S.faults source.new ≡ S.faults source.old) }
    ensures prefix { LosesWithin (S.left source.old) (S.left source.new) (input_limit + 1) }
{
    match rows {
        Some(rows) => make_input(alloc, rows),
        None => read_source(alloc, source),
    }
}

/// The bytes of this many rows.
fn make_input(alloc: Global, rows: u32) -> Result<Vec<u8>, RunFault>
    requires few { rows ≤ most_rows }
    ensures bytes { IfOk result (λ v. made rows ≡ v.items) }
    ensures fits { IfOk result (λ v. length v.items ≤ input_limit) }
    ensures fault { IfErr result (λ fault. fault ≡ RunFault.NoMemory) }
{
    made_is_short();
    let bytes = made(alloc, rows)?;
    Ok(bytes)
}

/// Reads the source to its end.
fn read_source<S: Source>(alloc: Global, source: &mut S) -> Result<Vec<u8>, RunFault>
    ensures bytes { IfOk result (λ v. AreBytes (S.left source.old) v.items) }
    ensures fits { IfOk result (λ v. length v.items ≤ input_limit) }
    ensures end { OnOk result (IsAtEnd (S.left source.new)) }
    ensures fault { IfErr result (λ fault. (fault ≡ RunFault.NoMemory)
        ⊎ (fault ≡ RunFault.ReadFault) × Rose (S.faults source.old) (S.faults source.new)
        ⊎ (fault ≡ RunFault.InputTooLong) × IsTooLong (S.left source.old)) }
    ensures read { IfErr result (λ fault. ReadFor (cause_of fault) None (S.left source.old) (S.left source.new)) }
    ensures prefix { LosesWithin (S.left source.old) (S.left source.new) (input_limit + 1) }
{
    match read_all(alloc, source, INPUT_LIMIT) {
        Ok(bytes) => Ok(bytes),
        Err(ReadFault::Failed) => Err(RunFault::ReadFault),
        Err(ReadFault::TooLong) => Err(RunFault::InputTooLong),
        Err(ReadFault::NoMemory) => Err(RunFault::NoMemory),
    }
}

/// The text that answers a task and an input, or the first fault of the input.
fn answer_task<W: PlanStep, R: Threads + Sync, T: Tap>(
    rt: &R,
    alloc: Global,
    bytes: Vec<u8>,
    task: &Task,
    pass: &mut Pass,
    tap: &mut T,
    gate: &(dyn Gate + Sync),
) -> Result<Vec<u8>, RunFault>
    requires short { length bytes.items ≤ input_limit }
    requires units { 2 * ROOM ≤ pass.old.units }
    requires proper { IfTable task.now (λ r. All (λ e. KindOk e.kind) r.entries.items) }
    requires allowed { IfTable task.now (λ r. All (λ e. IsAllowed e.kind) r.entries.items) }
    ensures text { IfOk result (λ text. AnswersBytes (task_of task.now) bytes.items (Text text.items)) }
    ensures fault { IfErr result (λ fault. (fault ≡ RunFault.NoMemory) ⊎ AnswersBytes (task_of task.now) bytes.items (Fault fault)) }
    ensures units { pass.new.units ≡ pass.old.units }
    ensures counts { OnOk result (CountsTask (task_of task.now) bytes.items pass.old.blocks pass.old.nodes pass.new.blocks pass.new.nodes) }
    ensures shows { OnOk result (ShowsTask (task_of task.now) bytes.items (T.seen tap.old) (T.seen tap.new)) }
    ensures shows_some { OnErr result (ShowsAsked (Ok (task_of task.now)) bytes.items (T.seen tap.old) (T.seen tap.new)) }
    ensures behind { IfErr result (λ fault. is_behind_records fault ≡ true
        → CountsTask (task_of task.now) bytes.items pass.old.blocks pass.old.nodes pass.new.blocks pass.new.nodes
        × ShowsTask (task_of task.now) bytes.items (T.seen tap.old) (T.seen tap.new)) }
{
    match task {
        Task::Table(request) => answer_input::<W, _, _>(rt, alloc, bytes, request, pass, tap, gate),
        Task::Tree => match check_tree(alloc, &bytes, pass) {
            Ok(report) => Ok(report),
            Err(fault) => Err(RunFault::from(fault)),
        },
    }
}

/// Reads the source or makes this many rows, makes the text, by these steps of the stages, and writes it, where the words are
/// taken.
pub fn run_task<W: PlanStep, R: Threads + Sync, S: Source, K: Sink, T: Tap>(
    rt: &R,
    alloc: Global,
    rows: Option<u32>,
    task: Result<Task, RunFault>,
    source: &mut S,
    sink: &mut K,
    pass: &mut Pass,
    tap: &mut T,
    gate: &(dyn Gate + Sync),
) -> Result<(), RunFault>
    requires few_rows { IfSome rows (λ n. n ≤ most_rows) }
    requires units { 2 * ROOM ≤ pass.old.units }
    requires proper { IfOk task (λ t. IfTable t (λ r. All (λ e. KindOk e.kind) r.entries.items)) }
    requires allowed { IfOk task (λ t. IfTable t (λ r. All (λ e. IsAllowed e.kind) r.entries.items)) }
    requires early { IfErr task (λ fault. (is_early fault ≡ true) ⊎ (fault ≡ RunFault.NoMemory)) }
    // Of the bytes of one input all of this is so: those that are made or that the source states; where it states none, some
    // bytes.
    ensures over { (bytes : List ℕ) × AreBytes (input_by rows (S.left source.old)) bytes
        × CarriedOver (asked_of task) bytes result (K.taken sink.old) (K.taken sink.new) (T.seen tap.old) (T.seen tap.new)
        pass.old.blocks pass.old.nodes pass.new.blocks pass.new.nodes }
    ensures text_read_to_end { OnOk result (IsRead rows (S.left source.old) (S.left source.new)) }
    ensures fault_read { IfErr result (λ fault. ReadFor (cause_of fault) rows (S.left source.old) (S.left source.new)) }
    ensures refused_early { IfErr task (λ fault. result ≡ Err fault) }
    ensures refused_early_only { IfErr result (λ fault. is_early fault ≡ true → asked_of task ≡ Err fault) }
    ensures refused_unread { IfErr task (λ _. Keeps (S.left source.old) (S.left source.new)) }
    ensures refused_unfailed { IfErr task (λ _. S.faults source.new ≡ S.faults source.old) }
    ensures made_unread { IfSome rows (λ n. Keeps (S.left source.old) (S.left source.new)) }
    ensures made_unfailed { IfSome rows (λ n. S.faults source.new ≡ S.faults source.old) }
    ensures read_fault { result ≡ Err RunFault.ReadFault → (rows ≡ None) × Rose (S.faults source.old) (S.faults source.new) }
    ensures write_fault { IfErr result (λ fault. AtWriteFault fault (λ taken. Rose (K.faults sink.old) (K.faults sink.new))) }
    ensures unwritten { IfErr result (λ fault. is_write_fault fault ≡ false → Keeps (K.taken sink.old) (K.taken sink.new)) }
    ensures prefix { LosesWithin (S.left source.old) (S.left source.new) (input_limit + 1) }
    ensures units { pass.new.units ≡ pass.old.units }
    ensures unshown { IfErr task (λ _. T.seen tap.new ≡ T.seen tap.old) }
{
    let task = task?;
    let bytes = read_input(alloc, rows, source)?;
    let text = answer_task::<W, _, _>(rt, alloc, bytes, &task, pass, tap, gate)?;
    match write_all(sink, &text) {
        Ok(()) => Ok(()),
        Err(WriteFault::Failed { taken }) => Err(RunFault::WriteFault { taken }),
    }
}
