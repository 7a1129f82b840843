//! A source in memory, which states its bytes and fails where it is asked to.
ghost use Rattle.std.specs.Prelude.{◌≡◌, ◌<◌, ◌≤◌, Some, drop, length, min};
ghost use Rattle.edge_io.specs.promise.Edge.{GivesFirst, GivesWithin, ReadFailsFor};
ghost use Rattle.edge_io.specs.Memory.{ReadOnce, bytes_left, failing_reads, is_failing, most_given, next_call, read_answer, reads_failed, reads_made};

use crate::memory::MemSource;
use crate::{Got, Source};

impl MemSource {
    /// Call n, from 1, fails exactly where n is in `fails`.
    pub fn new(bytes: Vec<u8>, step: usize, fails: Vec<u64>) -> MemSource
        requires { 1 ≤ step }
        ensures left { bytes_left result ≡ bytes.items }
        ensures most { most_given result ≡ step }
        ensures fails { failing_reads result ≡ fails.items }
        ensures calls { reads_made result ≡ 0 }
    {
        MemSource {
            bytes,
            at: 0,
            step,
            fails,
            calls: 0,
            faults: 0,
        }
    }
}

impl Source for MemSource {
    ghost left = { λ s. Some (drop s.at s.bytes.items) };

    ghost faults = { λ s. s.faults };

    fn read(&mut self, room: &mut [u8]) -> Got
        requires { 0 < length room.old }
        ensures within { GivesWithin result (length room.old) }
        ensures bytes { GivesFirst (Some (bytes_left self.old)) (Some (bytes_left self.new)) result room.new }
        ensures later { reads_failed self.old ≤ reads_failed self.new }
        ensures cause { ReadFailsFor (reads_failed self.old) (reads_failed self.new) result }
        // Which answer it is.
        ensures exact { result ≡ read_answer (is_failing (failing_reads self.old) (next_call (reads_made self.old)))
            (min (min (length room.old) (most_given self.old)) (length (bytes_left self.old))) }
        ensures plan { ReadOnce self.old self.new }
    {
        self.calls = self.calls.saturating_add(1);
        if self.fails.contains(&self.calls) {
            self.faults = self.faults.saturating_add(1);
            return Got::Failed;
        }
        let count = room.len().min(self.step).min(self.bytes.len() - self.at);
        if count == 0 {
            return Got::End;
        }
        room[..count].copy_from_slice(&self.bytes[self.at..self.at + count]);
        self.at += count;
        Got::Bytes(count)
    }
}
