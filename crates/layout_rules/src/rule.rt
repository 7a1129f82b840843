//! The rules of arrays, and the fault where one fails.
use data_types::Path;

/// What an array must meet ("Arrow Columnar Format", "Physical memory layout"). At a node the rules are tried from the first
/// to the last of this list, but that the two on views come before [`LayoutRule::NotText`]. A fault's place is 0 where none
/// is named here. The places up to the window's end are its offset and its length together.
#[derive(Clone, Copy, Debug, PartialEq, Eq)]
pub enum LayoutRule {
    /// The node is released.
    Released,
    /// The length is below 0: the length, and 0.
    NegativeLength,
    /// The offset is below 0: the offset, and 0.
    NegativeOffset,
    /// The number of buffers isn't the layout's: found and needed. Views need at least 3.
    BufferCount,
    /// The number of children isn't the type's: found and needed.
    ChildCount,
    /// A dictionary is there and the type has none, or the reverse: 1 or 0 as found, and as needed.
    Dictionary,
    /// A buffer other than validity is absent, and bytes of it are needed: at the buffer, 0 and the need.
    BufferAbsent,
    /// A buffer is shorter than its need: at the buffer, its length and the need, in bytes.
    BufferShort,
    /// The first offset is below 0 (at item 0, 0 and the offset), or an item's offset is above the next one (at the item,
    /// the two offsets).
    OffsetsFall,
    /// A live child has too few items: at the child, its length and the need.
    ChildShort,
    /// The null count is known and wrong: the count, and the number of null items in the window.
    NullCount,
    /// A valid text isn't UTF-8: at the item, the length of its longest valid prefix, and its length.
    NotText,
    /// A valid index is no place of a live dictionary: at the item, the index and the dictionary's length.
    IndexRange,
    /// A chunk's root has null items: their number, and 0. Only `layout_check::check_chunk` tries it, last.
    TopNulls,
    /// There are more than 2^40 places up to the window's end: their number, and 2^40.
    WindowTooLong,
    /// A chunk's root isn't a struct, or has a dictionary. Only `layout_check::check_chunk` tries it, before
    /// [`LayoutRule::TopNulls`] and after all others.
    TopKind,
    /// A valid view names no data, at the item: its length is below 0 (the length, and 0); or it is above 12, and its data
    /// buffer is none (the buffer's number, and how many there are), its offset is below 0 (the offset, and 0), or its data
    /// end behind the buffer's length (their end, and that length).
    ViewPlace,
    /// A valid view of a length above 12 begins with other bytes than its data: at the item, its prefix and the first four
    /// bytes, as numbers.
    ViewPrefix,
}

/// The place of a fault, and its two numbers.
#[derive(Clone, Copy, Debug, PartialEq, Eq)]
pub struct Numbers {
    /// The place that the rule names, and 0 where it names none.
    pub place: u64,
    /// The first number that the rule names.
    pub left: i128,
    /// The second one.
    pub right: i128,
}

/// The first rule that fails at the first node at which one does, with the way to the node and the rule's place and
/// numbers.
#[derive(Clone, Copy, Debug, PartialEq, Eq)]
pub struct LayoutFault {
    /// The way from the root to the node.
    pub path: Path,
    /// The rule that fails there.
    pub rule: LayoutRule,
    /// The place that the rule names, and 0 where it names none.
    pub place: u64,
    /// The first number that the rule names.
    pub left: i128,
    /// The second one.
    pub right: i128,
}
