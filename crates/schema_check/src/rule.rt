//! The rules of schemas.
use fmt_string::FormatFault;
use schema_meta::MetaFault;

/// What a schema must meet, in the order in which it is tried at a node but for [`SchemaRule::Deep`], which comes first.
#[derive(Clone, Copy, Debug, PartialEq, Eq)]
pub enum SchemaRule {
    /// The node is released.
    Released,
    /// Its format string is refused.
    Format(FormatFault),
    /// Its metadata is present and refused.
    Meta(MetaFault),
    /// A list or map has not exactly one child, or a type that has none has one.
    ChildCount,
    /// It has a dictionary, and its type is no integer.
    DictIndexType,
    /// A map's child is released, or no struct of two.
    MapShape,
    /// The node's level is above 64.
    Deep,
}
