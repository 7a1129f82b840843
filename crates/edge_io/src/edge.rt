//! Sources and sinks of bytes, seen by what they have left, what they took and how often they failed.
ghost use Rattle.std.specs.Prelude.{◌≡◌, ◌<◌, ◌≤◌, ◌+◌, ◌-◌, ◌^◌, ℕ, List, Option, IfOk, IfErr, OnOk, OnErr, length, take, vec_len};
ghost use Rattle.std.specs.Io.KnownBytes.{Appends, Consumes, IsAtEnd};
ghost use Rattle.edge_io.specs.promise.Edge.{GivesFirst, GivesWithin, ReadFailsFor, Rose, TakesFirst, TakesWithin, WriteFailsFor};
ghost use Rattle.edge_io.specs.Edge.{taken_by};

/// What one read gave.
#[derive(Clone, Copy, PartialEq, Eq, Debug)]
pub enum Got {
    /// This many bytes, at the front of the room.
    Bytes(usize),
    /// There are no more.
    End,
    /// The source failed, and may go on.
    Failed,
}

/// What one write took.
#[derive(Clone, Copy, PartialEq, Eq, Debug)]
pub enum Took {
    /// This many bytes, from the front of the piece.
    Bytes(usize),
    /// The sink failed, and may go on.
    Failed,
}

/// Why a text was not read whole.
#[derive(Clone, Copy, PartialEq, Eq, Debug)]
pub enum ReadFault {
    Failed,
    TooLong,
    NoMemory,
}

/// Why a text was not written whole.
#[derive(Clone, Copy, PartialEq, Eq, Debug)]
pub enum WriteFault {
    Failed { taken: u64 },
}

/// A source of bytes. Contracts see the bytes that it has left, where it states them, and how often it has failed.
pub trait Source {
    /// The bytes not yet given, where the source states them.
    ghost left: { Self → Option (List ℕ) };

    /// How often the source has failed.
    ghost faults: { Self → ℕ };

    /// Gives some of the bytes that are left, at most as many as there is room for; or says that none is left, or that it
    /// failed.
    fn read(&mut self, room: &mut [u8]) -> Got
        requires { 0 < length room.old }
        ensures within { GivesWithin result (length room.old) }
        ensures bytes { GivesFirst (left self.old) (left self.new) result room.new }
        ensures later { faults self.old ≤ faults self.new }
        ensures cause { ReadFailsFor (faults self.old) (faults self.new) result };
}

/// A sink of bytes. Contracts see the bytes that it took, where it states them, and how often it has failed.
pub trait Sink {
    /// The bytes taken so far, where the sink states them.
    ghost taken: { Self → Option (List ℕ) };

    /// How often the sink has failed.
    ghost faults: { Self → ℕ };

    /// Takes some of these bytes, from the first on; or says that it failed.
    fn write(&mut self, piece: &[u8]) -> Took
        requires { 0 < length piece.now }
        ensures within { TakesWithin result (length piece.now) }
        ensures bytes { TakesFirst (taken self.old) (taken self.new) result piece.now }
        ensures later { faults self.old ≤ faults self.new }
        ensures cause { WriteFailsFor (faults self.old) (faults self.new) result };
}
