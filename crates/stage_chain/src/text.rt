//! The text of a table that stages make of a stream.
ghost use Rattle.std.specs.Prelude.{◌≡◌, ◌≤◌, ◌+◌, ◌*◌, List, None, Some, ℕ, [], All, IsTrue, IfErr, IfOk, OnErr, OnOk, length, get_or};
ghost use Rattle.std.specs.List.{AllByRecursion};
ghost use Rattle.csv_model.specs.promise.Text.{table_text};
ghost use Rattle.csv_model.specs.Text.{header_text};
ghost use Rattle.csv_write.specs.CsvTexts.{HasText};
ghost use Rattle.field_codec.specs.TextColumns.{HaveTexts};
ghost use Rattle.data_types.specs.Parts.{joined_rows};
ghost use Rattle.stages.specs.Structs.{column_structs};
ghost use Rattle.stage_model.specs.promise.Links.{Whole};
ghost use Rattle.stage_model.specs.promise.Stages.{table};
ghost use Rattle.stage_model.specs.declared.stage.StageText.{StageText as AText};
ghost use Rattle.stage_plan.specs.promise.PlanWords.{most_stages};
ghost use Rattle.stage_plan.specs.PlanWords.{IsPlan};
ghost use Rattle.unit_pass.specs.declared.pass.TheConstants.{ROOM, SUPPLY};
ghost use Rattle.stream_face.specs.Streams.{IsFresh, kept};
ghost use Rattle.stage_chain.specs.promise.Chains.{ShowsFirst, ShowsLinks};
ghost use Rattle.stage_chain.specs.Chains.{chain_links, chain_traffic};
ghost use Rattle.csv_write.specs.Faults.{IfRow, OnRow};
ghost use Rattle.stage_chain.specs.Plans.{links_of, plan_stages, stages_in};
ghost use Rattle.csv_write.specs.Runs.{Counted};

use crate::boxed::Boxed;
use crate::chain::{Chain, MostStages, refuse};
use crate::planned::{PlannedStage, planned};
use crate::step_of::PlanStep;
use csv_write::{CsvText, DriveFault};
use edge_io::Gate;
use fan_out::Workers;
use stage_plan::Plan;
use std::alloc::Global;
use std::thread::Threads;
use stream_face::{ArrayStream, Tap};
use unit_pass::{NoMemory, Pass, ROOM, SUPPLY};

/// The text with its header, and the stages of a plan.
fn prepare(alloc: Global, plan: Plan, mark: &[u8]) -> Result<(CsvText, Vec<PlannedStage>), NoMemory>
    requires as_many { length plan.links.items ≡ 1 + length plan.steps.items }
    requires texts { HaveTexts (get_or (links_of plan) (length plan.steps.items) []) }
    ensures stages { IfOk result (λ made. stages_in made.1.items ≡ plan_stages plan) }
    ensures text { IfOk result (λ made. HasText made.0 mark.now (get_or (links_of plan) (length plan.steps.items) [])
        (header_text (get_or (links_of plan) (length plan.steps.items) []))) }
{
    let text = CsvText::new(alloc, &plan.links[plan.steps.len()], mark)?;
    let stages = planned(alloc, plan)?;
    Ok((text, stages))
}

/// The text of the table that the stages of a plan make of all rows of a source, by these steps, a null as the mark. Each stage
/// works on the chunks of a checked stream, and each chunk of each link is shown to the tap: link 0 is the source's, link K
/// that of stage K. The stages that have work for several workers (a filter, totals) give each chunk to this many; the text is
/// the same for every number of them. The source is released and spent on every outcome.
pub fn drive_steps<W: PlanStep, S: ArrayStream, R: Threads + Sync, T: Tap>(
    rt: &R,
    alloc: Global,
    source: S,
    plan: Plan,
    mark: &[u8],
    workers: Workers,
    pass: &mut Pass,
    tap: &mut T,
    gate: &(dyn Gate + Sync),
) -> Result<Vec<u8>, DriveFault>
    requires live { IsTrue (S.state source).live }
    // The source is lawful and is over no other checked stream.
    requires lawful { IsTrue (S.state source).lawful }
    requires no_joints { (link : ℕ) → (S.state source).joints link ≡ [] }
    // None of its columns is a struct.
    requires flat { column_structs (S.state source).columns ≡ 0 }
    // The plan is what stages are over these columns, and they are at most 16.
    requires plan { (texts : List AText) × IsPlan (S.state source).columns texts plan }
    requires few { length plan.steps.items ≤ most_stages }
    requires room { 2 * ROOM ≤ pass.old.units }
    requires supply { pass.old.units + kept (S.state source) ≤ SUPPLY }
    // The text is that of the one table that the stages make of all rows, however they came in chunks.
    ensures text { IfOk result (λ text. text.items
        ≡ table_text mark.now (Whole (table (S.state source).columns (joined_rows (S.state source).ahead)) (plan_stages plan))) }
    // There is one where the source ends well; else there is its record at fault. Memory may run out.
    ensures ends { OnOk result ((S.state source).ending ≡ None) }
    ensures row { IfErr result (λ e. IfRow e (λ fault. (S.state source).ending ≡ Some fault)) }
    ensures units { pass.new.units ≡ pass.old.units + kept (S.state source) }
    ensures counts { OnOk result (Counted (chain_traffic (S.state source) (plan_stages plan)) pass.old pass.new) }
    // As much was counted where a record is refused, if the source had not refused before.
    ensures refused_counts { IsFresh (S.state source) → OnRow result (Counted (chain_traffic (S.state source) (plan_stages plan)) pass.old pass.new) }
    // Each chunk of each link was shown once, in order, and so where a record is refused, if the source had not refused before; on
    // an error the first ones of each.
    ensures shows { OnOk result (ShowsLinks (chain_links (S.state source) (plan_stages plan)) (T.seen tap.old) (T.seen tap.new)) }
    ensures refused_shows { IsFresh (S.state source)
        → OnRow result (ShowsLinks (chain_links (S.state source) (plan_stages plan)) (T.seen tap.old) (T.seen tap.new)) }
    ensures shows_some { OnErr result (ShowsFirst (chain_links (S.state source) (plan_stages plan)) (T.seen tap.old) (T.seen tap.new)) }
{
    stage_model::chunks_give_the_whole();
    stages::stages_keep_columns();
    source.lawful_facts();
    let source = match Boxed::new(alloc, source) {
        Ok(source) => source,
        Err((source, NoMemory)) => return refuse(source, pass),
    };
    match prepare(alloc, plan, mark) {
        Ok((text, stages)) => MostStages::drive_from::<W, _, _, _>(
            rt,
            alloc,
            source,
            0,
            stages.into_iter(),
            text,
            workers,
            pass,
            tap,
            gate,
        ),
        Err(NoMemory) => refuse(source, pass),
    }
}
