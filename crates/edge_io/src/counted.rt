//! A source of very many bytes that keeps none.
ghost use Rattle.std.specs.Prelude.{◌≡◌, ◌<◌, ◌≤◌, Some, false, length, min};
ghost use Rattle.edge_io.specs.promise.Edge.{GivesFirst, GivesWithin};
ghost use Rattle.edge_io.specs.Memory.{count_left, letters, read_answer};

use crate::{Got, Source};

/// A source of this many bytes `a`, which never fails.
#[derive(Drop)]
pub struct CountSource {
    left: u64,
}

impl CountSource {
    /// A source of this many bytes.
    pub fn new(total: u64) -> CountSource
        ensures { count_left result ≡ total }
    {
        CountSource { left: total }
    }
}

impl Source for CountSource {
    ghost use Rattle.std.specs.Prelude.{Some};
    ghost use Rattle.edge_io.specs.Memory.{letters};

    ghost left = { λ s. Some (letters s.left) };

    ghost faults = { λ s. 0 };

    fn read(&mut self, room: &mut [u8]) -> Got {
        if self.left == 0 {
            return Got::End;
        }
        let count = (room.len() as u64).min(self.left) as usize;
        room[..count].fill(b'a');
        self.left -= count as u64;
        Got::Bytes(count)
    }
}
