//! A sink in memory, which states its bytes and fails where it is asked to.
ghost use Rattle.std.specs.Prelude.{◌≡◌, ◌<◌, ◌≤◌, [], IfOk, Some, false, length, min};
ghost use Rattle.edge_io.specs.promise.Edge.{TakesFirst, TakesWithin, WriteFailsFor};
ghost use Rattle.edge_io.specs.Memory.{WroteOnce, bytes_taken, failing_writes, is_failing, most_taken, next_call, room_left, write_answer, writes_failed};
ghost use Rattle.edge_io.specs.Memory.{writes_made};

use crate::memory::MemSink;
use crate::{NoMemory, Sink, Took};
use std::alloc::Global;

impl MemSink {
    /// Call n, from 1, fails exactly where n is in `fails` or no room is left.
    pub fn new(
        alloc: Global,
        room: usize,
        step: usize,
        fails: Vec<u64>,
    ) -> Result<MemSink, NoMemory>
        requires { 1 ≤ step }
        ensures taken { IfOk result (λ s. bytes_taken s ≡ []) }
        ensures room { IfOk result (λ s. room_left s ≡ room) }
        ensures most { IfOk result (λ s. most_taken s ≡ step) }
        ensures fails { IfOk result (λ s. failing_writes s ≡ fails.items) }
        ensures calls { IfOk result (λ s. writes_made s ≡ 0) }
    {
        match Vec::with_capacity(alloc, room) {
            Ok(taken) => Ok(MemSink {
                taken,
                room,
                step,
                fails,
                calls: 0,
                faults: 0,
            }),
            Err(_) => Err(NoMemory),
        }
    }

    /// The bytes taken so far.
    pub fn taken(&self) -> &[u8]
        ensures { result.now ≡ bytes_taken self.now }
    {
        &self.taken
    }
}

impl Sink for MemSink {
    ghost taken = { λ s. Some s.taken.items };

    ghost faults = { λ s. s.faults };

    fn write(&mut self, piece: &[u8]) -> Took
        requires { 0 < length piece.now }
        ensures within { TakesWithin result (length piece.now) }
        ensures bytes { TakesFirst (Some (bytes_taken self.old)) (Some (bytes_taken self.new)) result piece.now }
        ensures later { writes_failed self.old ≤ writes_failed self.new }
        ensures cause { WriteFailsFor (writes_failed self.old) (writes_failed self.new) result }
        // Which answer it is.
        ensures exact { result ≡ write_answer (is_failing (failing_writes self.old) (next_call (writes_made self.old)))
            (min (min (length piece.now) (most_taken self.old)) (room_left self.old)) }
        ensures plan { WroteOnce self.old self.new }
    {
        self.calls = self.calls.saturating_add(1);
        if self.fails.contains(&self.calls) || self.taken.len() == self.room {
            self.faults = self.faults.saturating_add(1);
            return Took::Failed;
        }
        let count = piece.len().min(self.step).min(self.room - self.taken.len());
        match self.taken.extend_from_slice(&piece[..count]) {
            Ok(()) => Took::Bytes(count),
            Err(_) => unreachable!(),
        }
    }
}
