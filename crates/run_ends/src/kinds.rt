//! The kinds of a run-end encoded array as the code keeps them.
use data_types::Typed;

/// The kinds of the schema of a run-end encoded array: of the first child, whose items are the ends of the runs, and of the
/// second, whose items are the runs' values. Ends are whole numbers with a sign, of 16, 32 or 64 bits, without a dictionary.
#[derive(Debug, Drop)]
pub struct RunTyped {
    /// The kinds of the first child, the ends.
    pub ends: Typed,
    /// The kinds of the second child, the values.
    pub values: Typed,
}
