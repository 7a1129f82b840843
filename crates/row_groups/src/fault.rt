//! Why the first items of a column's distinct values aren't found.

/// Why the first items of a column's distinct values aren't found.
#[derive(Clone, Copy, Debug, PartialEq, Eq)]
pub enum GroupFault {
    /// There are more than 2^31 - 1 distinct values.
    TooMany,
    /// Memory ran out.
    NoMemory,
}
