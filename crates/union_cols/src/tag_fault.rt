//! Why columns make no union.

/// Why the columns of a chunk make no union, tried from the first to the last.
#[derive(Clone, Copy, Debug, PartialEq, Eq)]
pub enum TagFault {
    /// There aren't from 1 to 128 columns: their number.
    Columns { count: u64 },
    /// The union is dense, and there are more than 2^31 - 1 rows, so that offsets of 32 bits don't name each.
    TooLong,
    /// Memory ran out.
    NoMemory,
}
