//! A stage: the checked stream below it, and its step.
ghost use Rattle.std.specs.Prelude.{◌≡◌, ◌≢◌, ◌+◌, ◌≤◌, IsTrue, List, [], Some, false, get_or, pos, true};
ghost use Rattle.std.specs.Thread.{IsSync};
ghost use Rattle.data_types.specs.promise.Table.{Row};
ghost use Rattle.tree_model.specs.promise.TreeParts.{IsLive};
ghost use Rattle.tree_model.specs.promise.TreeData.{Released};
ghost use Rattle.raw_array.specs.promise.Members.{ArrayTree, Cost};
ghost use Rattle.unit_pass.specs.declared.pass.TheConstants.{ROOM};
ghost use Rattle.stream_face.specs.Calls.{Answers, Counts, IsCode, IsRowFault, IsTold, Repeats, ShowsInOrder, Tells};
ghost use Rattle.stream_face.specs.Codes.{enomem};
ghost use Rattle.stream_face.specs.Meaning.{meaning, raw_link};
ghost use Rattle.stream_face.specs.Streams.{IsFresh, Keeps};

use crate::pull::pull;
use crate::step::ChunkStep;
use data_types::RowFault;
use edge_io::Gate;
use raw_array::{Acted, RawArray};
use raw_schema::RawSchema;
use std::alloc::Global;
use std::thread::Threads;
use stream_face::{ArrayStream, ENOMEM, RawStream, Tap};
use unit_pass::{NoMemory, Pass, ROOM};

/// Who answered the last get call: the stage itself, or the stream below it.
#[derive(Clone, Copy)]
pub(crate) enum LastAnswer {
    Nothing,
    Memory,
    Upstream,
}

/// A stage: the checked stream below it, which it holds once, and its step, which holds nothing of chunks between two calls. It
/// can't be dropped.
pub struct Stage<U: ArrayStream, S: ChunkStep> {
    up: RawStream<U>,
    step: S,
    no_memory: bool,
    word: LastAnswer,
    ghost lawful: { IsTrue (meaning U.state up).live → (meaning U.state up).lawful ≡ true },
    ghost fits: { ∥ S.fits step (meaning U.state up).columns ∥₁ },
    ghost rests: { S.rests step ≡ true },
}

impl<U: ArrayStream, S: ChunkStep> Stage<U, S> {
    ghost use Rattle.stages.specs.Staged.{staged};
    ghost use Rattle.stages.specs.Stages.{stage_gives, stage_state};
    ghost use Rattle.stages.specs.declared.stage.LastAnswer.TheVariants as words;

    /// A stage over a lawful stream, whose columns the step fits. Takes no memory.
    pub fn start(up: RawStream<U>, step: S) -> Stage<U, S>
        requires lawful { IsTrue (meaning U.state up).lawful }
        requires fits { S.fits step (meaning U.state up).columns }
        requires rests { IsTrue (S.rests step) }
        ensures means { stage_state U.state S.columns S.ahead S.blocks S.nodes result
            ≡ staged S.columns S.ahead S.blocks S.nodes (raw_link up) step false words.Nothing (meaning U.state up) }
        ensures besides { (rows : List Row) (chunk : ArrayTree) → stage_gives S.gives result rows chunk → S.gives step rows chunk }
    {
        Stage {
            up,
            step,
            no_memory: false,
            word: LastAnswer::Nothing,
        }
    }
}

impl<U: ArrayStream, S: ChunkStep> ArrayStream for Stage<U, S> {
    ghost use Rattle.stages.specs.Stages.{stage_gives, stage_state};

    ghost state = { stage_state U.state S.columns S.ahead S.blocks S.nodes };

    fn get_schema(&mut self, alloc: Global, out: &mut RawSchema, pass: &mut Pass) -> i32 {
        match self.step.after().schema(alloc, pass) {
            Ok(schema) => {
                out.put(schema);
                self.word = LastAnswer::Nothing;
                0
            }
            Err(NoMemory) => {
                self.word = LastAnswer::Memory;
                ENOMEM
            }
        }
    }

    /// Gives the next chunk. Beside what each stream's call promises it says what the chunk has besides its rows, by the step (`gives`),
    /// and that this stays what the step said when the stage was started (`besides`).
    fn get_next<R: Threads + Sync, T: Tap>(
        &mut self,
        rt: &R,
        alloc: Global,
        out: &mut RawArray,
        pass: &mut Pass,
        tap: &mut T,
        gate: &(dyn Gate + Sync),
    ) -> i32
        requires shared { IsSync R.row }
        requires live { IsTrue (stage_state U.state S.columns S.ahead S.blocks S.nodes self.old).live }
        requires empty { out.old ≡ Released }
        requires room { ROOM ≤ pass.old.units }
        ensures keeps { Keeps (stage_state U.state S.columns S.ahead S.blocks S.nodes self.old)
            (stage_state U.state S.columns S.ahead S.blocks S.nodes self.new) }
        ensures code { IsCode result }
        ensures tells { Tells result (stage_state U.state S.columns S.ahead S.blocks S.nodes self.new).said }
        ensures refuses { result ≢ pos 0 → out.new ≡ Released }
        ensures told { result ≡ pos 0 → IsTold (stage_state U.state S.columns S.ahead S.blocks S.nodes self.old).chunk out.new }
        ensures gave { (stage_state U.state S.columns S.ahead S.blocks S.nodes self.old).lawful ≡ false → result ≡ pos 0
            → (stage_state U.state S.columns S.ahead S.blocks S.nodes self.new).gave ≡ Some out.new }
        ensures units { pass.new.units + Cost out.new ≡ pass.old.units }
        ensures failure { (stage_state U.state S.columns S.ahead S.blocks S.nodes self.new).failure
            ≡ (stage_state U.state S.columns S.ahead S.blocks S.nodes self.new).said }
        ensures row_fault { IsRowFault result (stage_state U.state S.columns S.ahead S.blocks S.nodes self.new).ending
            (stage_state U.state S.columns S.ahead S.blocks S.nodes self.new).fault }
        ensures repeats { Repeats (stage_state U.state S.columns S.ahead S.blocks S.nodes self.old)
            (stage_state U.state S.columns S.ahead S.blocks S.nodes self.new) result pass.old pass.new (T.seen tap.old) (T.seen tap.new) }
        ensures answers { IsFresh (stage_state U.state S.columns S.ahead S.blocks S.nodes self.old)
            → Answers (stage_state U.state S.columns S.ahead S.blocks S.nodes self.old)
            (stage_state U.state S.columns S.ahead S.blocks S.nodes self.new) result out.new }
        ensures counts { IsFresh (stage_state U.state S.columns S.ahead S.blocks S.nodes self.old) → result ≢ enomem
            → Counts (stage_state U.state S.columns S.ahead S.blocks S.nodes self.old).due
            (stage_state U.state S.columns S.ahead S.blocks S.nodes self.new).due pass.old pass.new out.new }
        ensures shows { IsFresh (stage_state U.state S.columns S.ahead S.blocks S.nodes self.old)
            → ShowsInOrder (stage_state U.state S.columns S.ahead S.blocks S.nodes self.old)
            (stage_state U.state S.columns S.ahead S.blocks S.nodes self.new) result out.new (T.seen tap.old) (T.seen tap.new) }
        ensures gives { IsFresh (stage_state U.state S.columns S.ahead S.blocks S.nodes self.old) → result ≡ pos 0 → IsLive out.new
            → stage_gives S.gives self.old (get_or (stage_state U.state S.columns S.ahead S.blocks S.nodes self.old).ahead 0 []) out.new }
        ensures besides { (rows : List Row) (chunk : ArrayTree) → stage_gives S.gives self.new rows chunk → stage_gives S.gives self.old rows chunk }
    {
        if self.no_memory {
            self.word = LastAnswer::Memory;
            return ENOMEM;
        }
        match pull(
            &mut self.step,
            &mut self.up,
            rt,
            alloc,
            out,
            pass,
            tap,
            gate,
        ) {
            Ok(code) => {
                self.word = LastAnswer::Upstream;
                code
            }
            Err(NoMemory) => {
                self.no_memory = true;
                self.word = LastAnswer::Memory;
                ENOMEM
            }
        }
    }

    fn get_last_error(&self) -> Option<&str> {
        match self.word {
            LastAnswer::Nothing => None,
            LastAnswer::Memory => Some("out of memory"),
            LastAnswer::Upstream => self.up.last_error(),
        }
    }

    fn fault(&self) -> Option<RowFault> {
        if self.no_memory {
            return None;
        }
        self.up.row_fault()
    }

    fn is_released(&self) -> bool {
        self.up.is_released()
    }

    fn release(&mut self, pass: &mut Pass) -> Acted {
        self.up.release(pass)
    }

    fn discard(self) {
        let Stage {
            up,
            step: _,
            no_memory: _,
            word: _,
        } = self;
        up.discard();
    }

    fn lawful_facts(&self) {
        self.up.lawful_facts();
        self.step.lawful_facts();
    }
}
