//! The chain of the stages, over numbers that are types: a stream of each stage is over the stream of the one before it.
ghost use Rattle.std.specs.Prelude.{◌≡◌, ◌≤◌, ◌+◌, ◌*◌, ◌++◌, ◌∷◌, ◌^◌, List, Option, Some, None, Err, ℕ, [], IsTrue, IfOk, IfErr, OnOk, OnErr, length, nat_lt, if◌then◌else◌};
ghost use Rattle.std.specs.Thread.{IsSync};
ghost use Rattle.csv_model.specs.Text.{rows_text};
ghost use Rattle.csv_write.specs.CsvTexts.{HasText};
ghost use Rattle.data_types.specs.ColumnForms.{AreColumnKinds};
ghost use Rattle.data_types.specs.promise.Table.{Column};
ghost use Rattle.unit_pass.specs.declared.pass.TheConstants.{CHUNK, ROOM, SUPPLY};
ghost use Rattle.stages.specs.Structs.{column_structs};
ghost use Rattle.stage_model.specs.Links.{last_columns};
ghost use Rattle.stage_plan.specs.promise.PlanWords.{most_stages};
ghost use Rattle.stream_face.specs.Streams.{IsFresh, Stream, kept};
ghost use Rattle.stage_chain.specs.Chains.{chain_links, chain_traffic, joints_with, last_rows, makings_with};
ghost use Rattle.csv_write.specs.Faults.{IfRow, OnRow};
ghost use Rattle.stage_chain.specs.Plans.{AreStages, stages_left};
ghost use Rattle.csv_write.specs.promise.Runs.{ShowsAll, ShowsSome};
ghost use Rattle.csv_write.specs.Runs.{Counted};

use crate::boxed::Boxed;
use crate::planned::PlannedStage;
use crate::stage_start::start_stage;
use crate::step_of::PlanStep;
use csv_write::{CsvText, DriveFault, write_rows};
use edge_io::Gate;
use fan_out::Workers;
use std::alloc::Global;
use std::marker::PhantomData;
use std::thread::Threads;
use std::vec::IntoIter;
use stream_face::{ArrayStream, RawStream, Tap};
use unit_pass::{CHUNK, NoMemory, Pass, ROOM, SUPPLY};

/// A number as a type: how many stages may be left.
pub(crate) trait Chain {
    ghost LEFT: { ℕ };

    const LEFT: usize;

    /// Adds the rows that come out of the stages over a source, by these steps, to a text. The source is spent.
    fn drive_from<W: PlanStep, S: ArrayStream, R: Threads + Sync, T: Tap>(
        rt: &R,
        alloc: Global,
        source: S,
        link: u32,
        stages: IntoIter<PlannedStage>,
        text: CsvText,
        workers: Workers,
        pass: &mut Pass,
        tap: &mut T,
        gate: &(dyn Gate + Sync),
    ) -> Result<Vec<u8>, DriveFault>
        requires shared { IsSync R.row }
        requires live { IsTrue (S.state source).live }
        requires lawful { IsTrue (S.state source).lawful }
        requires links { (later : ℕ) → link ≤ later → (S.state source).joints later ≡ [] }
        requires stages { AreStages (S.state source).columns (stages_left stages) }
        requires structs { column_structs (S.state source).columns ≤ link }
        requires numbers { link + length (stages_left stages) ≤ most_stages }
        requires few { length (stages_left stages) ≤ LEFT }
        requires room { ROOM + CHUNK * (1 + length (stages_left stages)) ≤ pass.old.units }
        requires supply { pass.old.units + kept (S.state source) ≤ SUPPLY }
        requires text { (mark : List ℕ) × (written : List ℕ) × HasText text mark (last_columns (S.state source).columns (stages_left stages)) written }
        ensures text { IfOk result (λ made. (mark written : List ℕ) → HasText text mark (last_columns (S.state source).columns (stages_left stages)) written
            → made.items ≡ written ++ rows_text mark (last_columns (S.state source).columns (stages_left stages)) (last_rows (S.state source)
            (stages_left stages))) }
        ensures ends { OnOk result ((S.state source).ending ≡ None) }
        ensures row { IfErr result (λ e. IfRow e (λ fault. (S.state source).ending ≡ Some fault)) }
        ensures units { pass.new.units ≡ pass.old.units + kept (S.state source) }
        ensures counts { OnOk result (Counted (chain_traffic (S.state source) (stages_left stages)) pass.old pass.new) }
        ensures refused_counts { IsFresh (S.state source)
            → OnRow result (Counted (chain_traffic (S.state source) (stages_left stages)) pass.old pass.new) }
        ensures shows { OnOk result
            (ShowsAll (joints_with link (S.state source).joints (chain_links (S.state source) (stages_left stages)))
            (makings_with (S.state source).ending link (S.state source).making (S.state source).makings
            (chain_links (S.state source) (stages_left stages))) (T.seen tap.old) (T.seen tap.new)) }
        ensures refused_shows { IsFresh (S.state source) → OnRow result
            (ShowsAll (joints_with link (S.state source).joints (chain_links (S.state source) (stages_left stages)))
            (makings_with (S.state source).ending link (S.state source).making (S.state source).makings
            (chain_links (S.state source) (stages_left stages))) (T.seen tap.old) (T.seen tap.new)) }
        ensures shows_some { OnErr result
            (ShowsSome (joints_with link (S.state source).joints (chain_links (S.state source) (stages_left stages)))
            (makings_with (S.state source).ending link (S.state source).making (S.state source).makings
            (chain_links (S.state source) (stages_left stages))) (T.seen tap.old) (T.seen tap.new)) };
}

/// No stage may be left.
pub(crate) struct Zero;

/// One more than by another number.
pub(crate) struct Succ<N> {
    less: PhantomData<N>,
}

/// Spends a source that gave no schema: memory ran out, since it is lawful.
pub(crate) fn refuse<S: ArrayStream>(source: S, pass: &mut Pass) -> Result<Vec<u8>, DriveFault>
    requires supply { pass.old.units + kept (S.state source) ≤ SUPPLY }
    ensures refused { result ≡ Err DriveFault.NoMemory }
    ensures units { pass.new.units ≡ pass.old.units + kept (S.state source) }
{
    let mut source = source;
    source.release(pass);
    source.discard();
    Err(DriveFault::NoMemory)
}

impl Chain for Zero {
    ghost LEFT = { 0 };

    const LEFT: usize = 0;

    fn drive_from<W: PlanStep, S: ArrayStream, R: Threads + Sync, T: Tap>(
        rt: &R,
        alloc: Global,
        source: S,
        link: u32,
        _stages: IntoIter<PlannedStage>,
        text: CsvText,
        _workers: Workers,
        pass: &mut Pass,
        tap: &mut T,
        gate: &(dyn Gate + Sync),
    ) -> Result<Vec<u8>, DriveFault> {
        stages::schemas_are_small();
        match RawStream::start(alloc, source, link, pass) {
            Ok(last) => write_rows(last, rt, alloc, text, pass, tap, gate),
            Err((source, _fault)) => refuse(source, pass),
        }
    }
}

impl<N: Chain> Chain for Succ<N> {
    ghost LEFT = { (if nat_lt N.LEFT 64 then N.LEFT + 1 else N.LEFT) };

    const LEFT: usize = if N::LEFT < 64 { N::LEFT + 1 } else { N::LEFT };

    // A function of its own, so that no level holds the code of those behind it.
    #[inline(never)]
    fn drive_from<W: PlanStep, S: ArrayStream, R: Threads + Sync, T: Tap>(
        rt: &R,
        alloc: Global,
        source: S,
        link: u32,
        stages: IntoIter<PlannedStage>,
        text: CsvText,
        workers: Workers,
        pass: &mut Pass,
        tap: &mut T,
        gate: &(dyn Gate + Sync),
    ) -> Result<Vec<u8>, DriveFault> {
        stages::stages_keep_columns();
        stages::schemas_are_small();
        let up = match RawStream::start(alloc, source, link, pass) {
            Ok(up) => up,
            Err((source, _fault)) => return refuse(source, pass),
        };
        let mut stages = stages;
        match stages.next() {
            None => write_rows(up, rt, alloc, text, pass, tap, gate),
            Some(stage) => match Boxed::new(alloc, start_stage::<W, S>(alloc, up, stage, workers)) {
                Ok(above) => N::drive_from::<W, _, _, _>(
                    rt,
                    alloc,
                    above,
                    link + 1,
                    stages,
                    text,
                    workers,
                    pass,
                    tap,
                    gate,
                ),
                Err((above, NoMemory)) => refuse(above, pass),
            },
        }
    }
}

type Four<N> = Succ<Succ<Succ<Succ<N>>>>;

/// As many stages as a run has at most.
pub(crate) type MostStages = Four<Four<Four<Four<Zero>>>>;
