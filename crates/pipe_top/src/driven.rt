//! The text of a table that stages make of a stream.
ghost use Rattle.std.specs.Prelude.{◌≡◌, ◌≤◌, ◌+◌, ◌*◌, List, None, Some, ℕ, [], IsTrue, IfErr, IfOk, OnErr, OnOk, length};
ghost use Rattle.csv_model.specs.promise.Text.{table_text};
ghost use Rattle.data_types.specs.Parts.{joined_rows};
ghost use Rattle.stages.specs.Structs.{column_structs};
ghost use Rattle.stage_model.specs.promise.Links.{Whole};
ghost use Rattle.stage_model.specs.promise.Stages.{table};
ghost use Rattle.stage_model.specs.declared.stage.StageText.{StageText as AText};
ghost use Rattle.stage_plan.specs.promise.PlanWords.{most_stages};
ghost use Rattle.stage_plan.specs.PlanWords.{IsPlan};
ghost use Rattle.unit_pass.specs.declared.pass.TheConstants.{ROOM, SUPPLY};
ghost use Rattle.stream_face.specs.Streams.{IsFresh, kept};
ghost use Rattle.stage_chain.specs.promise.Chains.{ShowsFirst, ShowsLinks};
ghost use Rattle.stage_chain.specs.Chains.{chain_links, chain_traffic};
ghost use Rattle.stage_chain.specs.Plans.{plan_stages};
ghost use Rattle.csv_write.specs.Faults.{IfRow, OnRow};
ghost use Rattle.csv_write.specs.Runs.{Counted};

use crate::any_step::AnyStep;
use edge_io::Gate;
use fan_out::Workers;
use stage_chain::{DriveFault, drive_steps};
use stage_plan::Plan;
use std::alloc::Global;
use std::thread::Threads;
use stream_face::{ArrayStream, Tap};
use unit_pass::{Pass, ROOM, SUPPLY};

/// The text of the table that the stages of a plan make of all rows of a source, a null as the mark: [`drive_steps`] by steps of
/// all kinds.
pub fn drive<S: ArrayStream, R: Threads + Sync, T: Tap>(
    rt: &R,
    alloc: Global,
    source: S,
    plan: Plan,
    mark: &[u8],
    workers: Workers,
    pass: &mut Pass,
    tap: &mut T,
    gate: &(dyn Gate + Sync),
) -> Result<Vec<u8>, DriveFault>
    requires live { IsTrue (S.state source).live }
    // The source is lawful and is over no other checked stream.
    requires lawful { IsTrue (S.state source).lawful }
    requires no_joints { (link : ℕ) → (S.state source).joints link ≡ [] }
    // None of its columns is a struct.
    requires flat { column_structs (S.state source).columns ≡ 0 }
    // The plan is what stages are over these columns, and they are at most 16.
    requires plan { (texts : List AText) × IsPlan (S.state source).columns texts plan }
    requires few { length plan.steps.items ≤ most_stages }
    requires room { 2 * ROOM ≤ pass.old.units }
    requires supply { pass.old.units + kept (S.state source) ≤ SUPPLY }
    // The text is that of the one table that the stages make of all rows, however they came in chunks.
    ensures text { IfOk result (λ text. text.items
        ≡ table_text mark.now (Whole (table (S.state source).columns (joined_rows (S.state source).ahead)) (plan_stages plan))) }
    // There is one where the source ends well; else there is its record at fault. Memory may run out.
    ensures ends { OnOk result ((S.state source).ending ≡ None) }
    ensures row { IfErr result (λ e. IfRow e (λ fault. (S.state source).ending ≡ Some fault)) }
    ensures units { pass.new.units ≡ pass.old.units + kept (S.state source) }
    ensures counts { OnOk result (Counted (chain_traffic (S.state source) (plan_stages plan)) pass.old pass.new) }
    // As much was counted where a record is refused, if the source had not refused before.
    ensures refused_counts { IsFresh (S.state source) → OnRow result (Counted (chain_traffic (S.state source) (plan_stages plan)) pass.old pass.new) }
    // Each chunk of each link was shown once, in order, and so where a record is refused, if the source had not refused before; on
    // an error the first ones of each.
    ensures shows { OnOk result (ShowsLinks (chain_links (S.state source) (plan_stages plan)) (T.seen tap.old) (T.seen tap.new)) }
    ensures refused_shows { IsFresh (S.state source)
        → OnRow result (ShowsLinks (chain_links (S.state source) (plan_stages plan)) (T.seen tap.old) (T.seen tap.new)) }
    ensures shows_some { OnErr result (ShowsFirst (chain_links (S.state source) (plan_stages plan)) (T.seen tap.old) (T.seen tap.new)) }
{
    drive_steps::<AnyStep, _, _, _>(rt, alloc, source, plan, mark, workers, pass, tap, gate)
}
