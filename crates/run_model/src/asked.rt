//! What the words ask for.
ghost use Rattle.std.specs.Prelude.{◌≡◌, ◌≤◌, ◌⊎◌, ◌∷◌, true, false, [], ℕ, List, Result, All, Ok, Err, IfErr, IfOk, IfSome, None, length, map, option_map, vec_len};
ghost use Rattle.std.specs.Option.{unwrap_or};
ghost use Rattle.fan_out.specs.promise.Counts.{most_workers};
ghost use Rattle.field_codec.specs.TextColumns.{IsAllowed};
ghost use Rattle.data_types.specs.Kinds.{KindOk};
ghost use Rattle.stage_plan.specs.promise.PlanWords.{most_stages};
ghost use Rattle.stage_plan.specs.declared.types.TypeEntry.{TypeEntry as AnEntry};
ghost use Rattle.run_model.specs.promise.Words.{audit_of, made_of, most_ahead, most_batch, most_rows, texts_of, words_of};
ghost use Rattle.run_model.specs.Words.{options_of};
ghost use Rattle.run_model.specs.promise.Answer.{Asks, EntriesAsk, Request as ARequest, RequestIs, StagesAsk, Task as ATask, TaskIs, meant_by};
ghost use Rattle.run_model.specs.Answer.{chain_of};
ghost use Rattle.run_model.specs.promise.Answer.{stages_from};
ghost use Rattle.run_model.specs.Outcomes.{IfTable, asked_of, entries_asked, is_early, request_asked};
ghost use Rattle.run_model.specs.declared.fault.RunFault.{RunFault as AFault};

use crate::fault::RunFault;
use crate::request::Request;
use crate::{Words, WordsError, read_words};
use fan_out::Workers;
use stage_plan::{StageFault, StageText, TypeEntry, TypesFault, read_stage, read_types};
use std::alloc::Global;
use unit_pass::{Name, NoMemory};

/// The types of the columns of a table that is made from a number.
const CHAIN_SCHEMA: &str = "id:l;amount:d:10,2;paid:b";

/// The stages over a table that is made from a number.
const CHAIN_STAGES: [&str; 6] = [
    "pack=p,id,amount",
    "unpack=p",
    "dict=name",
    "filter=paid,eq,true",
    "plain=name",
    "totals=id,amount",
];

/// What is asked for: a table by stages, or a tree to check.
#[derive(Drop)]
pub enum Task {
    /// A table by stages.
    Table(Request),
    /// The check of a tree that is given as a text.
    Tree,
}

/// What the words ask for, or why they are refused.
#[derive(Drop)]
pub struct CommandLine {
    /// The audit is to be written, also where the words are refused.
    pub audit: bool,
    /// How many rows are made in place of an input, where that is asked for.
    pub made: Option<u32>,
    /// The first fault is reported: of the words, of the stage texts, of the schema text.
    pub task: Result<Task, RunFault>,
}

/// Reads the words after the program's name, and the texts of the stages and of the schema among them. `NoMemory` is a fault
/// of its own.
pub fn read_command_line(alloc: Global, words: &[String]) -> CommandLine
    ensures asks { (result.task ≡ Err RunFault.NoMemory) ⊎ Asks (texts_of words.now) (asked_of result.task) }
    ensures only { (result.task ≡ Err RunFault.NoMemory)
        ⊎ ((asked : Result ATask AFault) → Asks (texts_of words.now) asked → asked ≡ asked_of result.task) }
    ensures early { IfErr result.task (λ fault. (is_early fault ≡ true) ⊎ (fault ≡ RunFault.NoMemory)) }
    ensures proper { IfOk result.task (λ t. IfTable t (λ r. All (λ e. KindOk e.kind) r.entries.items)) }
    ensures allowed { IfOk result.task (λ t. IfTable t (λ r. All (λ e. IsAllowed e.kind) r.entries.items)) }
    ensures as_asked { IfOk result.task (λ t. IfTable t (λ r. IfOk (words_of (texts_of words.now)) (λ options. r.workers.count ≡ options.workers))) }
    ensures ahead_as_asked { IfOk result.task (λ t. IfTable t (λ r. IfOk (words_of (texts_of words.now)) (λ options. r.ahead ≡ options.ahead))) }
    ensures audit { (result.task ≡ Err RunFault.NoMemory) × (result.audit ≡ false) ⊎ (result.audit ≡ audit_of (texts_of words.now)) }
    ensures made { (result.task ≡ Err RunFault.NoMemory) ⊎ (result.made ≡ made_of (texts_of words.now)) }
    ensures few_rows { IfSome result.made (λ rows. rows ≤ most_rows) }
{
    match read_words(alloc, words) {
        Ok(read) => CommandLine {
            audit: read.audit,
            made: read.selftest,
            task: read_task(alloc, &read),
        },
        Err(WordsError::Words { fault, audit }) => refused(RunFault::Words(fault), audit),
        Err(WordsError::NoMemory) => refused(RunFault::NoMemory, false),
    }
}

/// The words are refused, and may ask for the audit yet.
fn refused(fault: RunFault, audit: bool) -> CommandLine
    ensures task { result.task ≡ Err fault }
    ensures audit { result.audit ≡ audit }
    ensures made { result.made ≡ None }
{
    CommandLine {
        audit,
        made: None,
        task: Err(fault),
    }
}

/// What options ask for: the check of a tree, or else a table, which may be one that is made.
fn read_task(alloc: Global, options: &Words<'_>) -> Result<Task, RunFault>
    requires few { length options.now.stages.items ≤ most_stages }
    requires batch { (1 ≤ options.now.batch) × (options.now.batch ≤ most_batch) }
    requires workers { (1 ≤ options.now.workers) × (options.now.workers ≤ most_workers) }
    requires ahead { IfSome options.now.ahead (λ n. (1 ≤ n) × (n ≤ most_ahead)) }
    ensures asks { (result ≡ Err RunFault.NoMemory)
        ⊎ TaskIs options.now.check (meant_by options.now.selftest (options_of options.now)) (asked_of result) }
    ensures only { (result ≡ Err RunFault.NoMemory)
        ⊎ ((asked : Result ATask AFault) → TaskIs options.now.check (meant_by options.now.selftest (options_of options.now)) asked
        → asked ≡ asked_of result) }
    ensures early { IfErr result (λ fault. (is_early fault ≡ true) ⊎ (fault ≡ RunFault.NoMemory)) }
    ensures proper { IfOk result (λ t. IfTable t (λ r. All (λ e. KindOk e.kind) r.entries.items)) }
    ensures allowed { IfOk result (λ t. IfTable t (λ r. All (λ e. IsAllowed e.kind) r.entries.items)) }
    ensures as_asked { IfOk result (λ t. IfTable t (λ r. r.workers.count ≡ options.now.workers)) }
    ensures ahead_as_asked { IfOk result (λ t. IfTable t (λ r. r.ahead ≡ options.now.ahead)) }
{
    if options.check {
        return Ok(Task::Tree);
    }
    match options.selftest {
        None => read_table(alloc, options),
        Some(_) => {
            let chain = chain_options(alloc, options)?;
            read_table(alloc, &chain)
        }
    }
}

/// The options of a run made from a number: the chain over the columns that are made, with the batch, the workers and the
/// batches ahead as taken.
fn chain_options(alloc: Global, options: &Words<'_>) -> Result<Words<'static>, NoMemory>
    ensures chain { IfOk result (λ chain. options_of chain ≡ chain_of (options_of options.now)) }
    ensures few { IfOk result (λ chain. length chain.stages.items ≤ most_stages) }
    ensures batch { IfOk result (λ chain. chain.batch ≡ options.now.batch) }
    ensures workers { IfOk result (λ chain. chain.workers ≡ options.now.workers) }
    ensures ahead { IfOk result (λ chain. chain.ahead ≡ options.now.ahead) }
{
    let stages = Vec::from_slice(alloc, &CHAIN_STAGES)?;
    Ok(Words {
        schema: Some(CHAIN_SCHEMA),
        batch: options.batch,
        workers: options.workers,
        audit: options.audit,
        check: options.check,
        selftest: options.selftest,
        null: None,
        ahead: options.ahead,
        stages,
    })
}

/// The table that options ask for.
fn read_table(alloc: Global, options: &Words<'_>) -> Result<Task, RunFault>
    requires few { length options.now.stages.items ≤ most_stages }
    requires batch { (1 ≤ options.now.batch) × (options.now.batch ≤ most_batch) }
    requires workers { (1 ≤ options.now.workers) × (options.now.workers ≤ most_workers) }
    requires ahead { IfSome options.now.ahead (λ n. (1 ≤ n) × (n ≤ most_ahead)) }
    ensures asks { (result ≡ Err RunFault.NoMemory) ⊎ TaskIs false (options_of options.now) (asked_of result) }
    ensures only { (result ≡ Err RunFault.NoMemory)
        ⊎ ((asked : Result ATask AFault) → TaskIs false (options_of options.now) asked → asked ≡ asked_of result) }
    ensures early { IfErr result (λ fault. (is_early fault ≡ true) ⊎ (fault ≡ RunFault.NoMemory)) }
    ensures proper { IfOk result (λ t. IfTable t (λ r. All (λ e. KindOk e.kind) r.entries.items)) }
    ensures allowed { IfOk result (λ t. IfTable t (λ r. All (λ e. IsAllowed e.kind) r.entries.items)) }
    ensures as_asked { IfOk result (λ t. IfTable t (λ r. r.workers.count ≡ options.now.workers)) }
    ensures ahead_as_asked { IfOk result (λ t. IfTable t (λ r. r.ahead ≡ options.now.ahead)) }
{
    match read_request(alloc, options) {
        Ok(request) => Ok(Task::Table(request)),
        Err(fault) => Err(fault),
    }
}

/// What options ask for of a table: a stage text is refused before the schema text.
fn read_request(alloc: Global, options: &Words<'_>) -> Result<Request, RunFault>
    requires few { length options.now.stages.items ≤ most_stages }
    requires batch { (1 ≤ options.now.batch) × (options.now.batch ≤ most_batch) }
    requires workers { (1 ≤ options.now.workers) × (options.now.workers ≤ most_workers) }
    requires ahead { IfSome options.now.ahead (λ n. (1 ≤ n) × (n ≤ most_ahead)) }
    ensures asks { (result ≡ Err RunFault.NoMemory) ⊎ RequestIs (options_of options.now) (request_asked result) }
    ensures only { (result ≡ Err RunFault.NoMemory)
        ⊎ ((asked : Result ARequest AFault) → RequestIs (options_of options.now) asked → asked ≡ request_asked result) }
    ensures early { IfErr result (λ fault. (is_early fault ≡ true) ⊎ (fault ≡ RunFault.NoMemory)) }
    ensures proper { IfOk result (λ r. All (λ e. KindOk e.kind) r.entries.items) }
    ensures allowed { IfOk result (λ r. All (λ e. IsAllowed e.kind) r.entries.items) }
    ensures workers { IfOk result (λ r. r.workers.count ≡ options.now.workers) }
    ensures ahead { IfOk result (λ r. r.ahead ≡ options.now.ahead) }
{
    match read_stages(alloc, options.stages.as_slice()) {
        Ok(stages) => read_others(alloc, options, stages),
        Err(fault) => Err(fault),
    }
}

/// What options with these stages ask for: no mark is the empty one.
fn read_others(
    alloc: Global,
    options: &Words<'_>,
    stages: Vec<StageText>,
) -> Result<Request, RunFault>
    requires few { vec_len stages ≤ most_stages }
    requires batch { (1 ≤ options.now.batch) × (options.now.batch ≤ most_batch) }
    requires workers { (1 ≤ options.now.workers) × (options.now.workers ≤ most_workers) }
    requires ahead { IfSome options.now.ahead (λ n. (1 ≤ n) × (n ≤ most_ahead)) }
    ensures asks { (result ≡ Err RunFault.NoMemory) ⊎ StagesAsk (options_of options.now) (Ok stages.items) (request_asked result) }
    ensures only { (result ≡ Err RunFault.NoMemory)
        ⊎ ((asked : Result ARequest AFault) → StagesAsk (options_of options.now) (Ok stages.items) asked → asked ≡ request_asked result) }
    ensures early { IfErr result (λ fault. (is_early fault ≡ true) ⊎ (fault ≡ RunFault.NoMemory)) }
    ensures proper { IfOk result (λ r. All (λ e. KindOk e.kind) r.entries.items) }
    ensures allowed { IfOk result (λ r. All (λ e. IsAllowed e.kind) r.entries.items) }
    ensures stages { IfOk result (λ r. r.stages.items ≡ stages.items) }
    ensures workers { IfOk result (λ r. r.workers.count ≡ options.now.workers) }
    ensures ahead { IfOk result (λ r. r.ahead ≡ options.now.ahead) }
{
    match read_entries(alloc, options.schema) {
        Ok(entries) => {
            let mark = read_mark(alloc, options.null)?;
            Ok(Request {
                entries,
                stages,
                batch: options.batch,
                workers: Workers {
                    count: options.workers,
                },
                mark,
                ahead: options.ahead,
            })
        }
        Err(fault) => Err(fault),
    }
}

/// The stages that texts spell, or the first that is none. They are counted from 1.
fn read_stages(alloc: Global, texts: &[&str]) -> Result<Vec<StageText>, RunFault>
    requires few { length texts.now ≤ most_stages }
    ensures found { IfOk result (λ stages. stages_from 1 (map (λ t. t.now) texts.now) ≡ Ok stages.items) }
    ensures fault { IfErr result (λ fault. (fault ≡ RunFault.NoMemory) ⊎ (stages_from 1 (map (λ t. t.now) texts.now) ≡ Err fault)) }
    ensures early { IfErr result (λ fault. (is_early fault ≡ true) ⊎ (fault ≡ RunFault.NoMemory)) }
    ensures count { IfOk result (λ stages. length stages.items ≡ length texts.now) }
{
    let mut stages = Vec::new(alloc);
    for place in 0..texts.len() {
        let stage = read_numbered(alloc, place as u32 + 1, texts[place])?;
        match stages.push(stage) {
            Ok(()) => {}
            Err(_) => return Err(RunFault::NoMemory),
        }
    }
    Ok(stages)
}

/// The stage that a text spells, where it has this number.
fn read_numbered(alloc: Global, number: u32, text: &str) -> Result<StageText, RunFault>
    ensures found { IfOk result (λ stage. stages_from number (text.now ∷ []) ≡ Ok (stage ∷ [])) }
    ensures fault { IfErr result (λ fault. (fault ≡ RunFault.NoMemory) ⊎ (stages_from number (text.now ∷ []) ≡ Err fault)) }
    ensures early { IfErr result (λ fault. (is_early fault ≡ true) ⊎ (fault ≡ RunFault.NoMemory)) }
{
    match read_stage(alloc, text) {
        Ok(stage) => Ok(stage),
        Err(StageFault::NoMemory) => Err(RunFault::NoMemory),
        Err(rule) => Err(RunFault::Stage {
            stage: number,
            rule,
        }),
    }
}

/// The mark for null.
fn read_mark(alloc: Global, null: Option<&str>) -> Result<Name, NoMemory>
    ensures { IfOk result (λ mark. mark ≡ unwrap_or (option_map (λ s. s.now) null.entry) []) }
{
    match null {
        Some(text) => Name::from_slice(alloc, text.as_bytes()),
        None => Name::from_slice(alloc, b""),
    }
}

/// The entries of a schema text, where there is one.
fn read_entries(alloc: Global, schema: Option<&str>) -> Result<Vec<TypeEntry>, RunFault>
    ensures asks { (result ≡ Err RunFault.NoMemory) ⊎ EntriesAsk (option_map (λ s. s.now) schema.entry) (entries_asked result) }
    ensures early { IfErr result (λ fault. (is_early fault ≡ true) ⊎ (fault ≡ RunFault.NoMemory)) }
    ensures proper { IfOk result (λ v. All (λ e. KindOk e.kind) v.items) }
    ensures allowed { IfOk result (λ v. All (λ e. IsAllowed e.kind) v.items) }
    ensures only { (result ≡ Err RunFault.NoMemory)
        ⊎ ((asked : Result (List AnEntry) AFault) → EntriesAsk (option_map (λ s. s.now) schema.entry) asked → asked ≡ entries_asked result) }
{
    let Some(text) = schema else {
        return Ok(Vec::new(alloc));
    };
    match read_types(alloc, text) {
        Ok(entries) => Ok(entries),
        Err(TypesFault::At { entry, rule }) => Err(RunFault::Schema { entry, rule }),
        Err(TypesFault::NoMemory) => Err(RunFault::NoMemory),
    }
}
