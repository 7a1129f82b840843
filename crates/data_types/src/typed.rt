//! The kinds of a schema as the code keeps them.
use crate::DataType;

/// The kinds of a schema.
#[derive(Debug, Drop)]
pub struct Typed {
    /// The type of the node.
    pub kind: DataType,
    /// The kinds of its dictionary, where it has one.
    pub dict: Option<Box<Typed>>,
    /// The kinds of its children, in their order.
    pub kids: Vec<Typed>,
}
