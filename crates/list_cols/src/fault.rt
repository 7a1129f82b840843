//! Why the rows of a chunk aren't grouped, or its lists aren't spread out.

/// Why the rows of a chunk aren't grouped, or its lists aren't spread out, tried from the first to the last.
#[derive(Clone, Copy, Debug, PartialEq, Eq)]
pub enum ListFault {
    /// A column isn't of a flat column kind, or the one that is spread out is no list of a flat column kind: the first such column,
    /// counted from 0. A dictionary is not flat.
    WrongKind { column: u32 },
    /// There would be more than 2^31 - 1 rows, items in one list column, or bytes in one column of texts or bytes between offsets of 32
    /// bits.
    TooLong,
    /// Memory ran out.
    NoMemory,
}
