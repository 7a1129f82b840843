//! The kinds of a union as the code keeps them.
use data_types::Typed;

/// The kinds of a union's schema: whether it is dense, and for each child, in order, its type id and its kinds. A sparse union's
/// children are as long as the union; a dense one has an offset into its child for each item.
#[derive(Debug, Drop)]
pub struct UnionTyped {
    /// Whether there are offsets.
    pub dense: bool,
    /// The type id of each child.
    pub ids: Vec<u8>,
    /// The kinds of each child.
    pub kids: Vec<Typed>,
}
