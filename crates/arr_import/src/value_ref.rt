//! What an item of a column is shown as.
use crate::col::Col;

/// An item of a column: bytes and lists are lent from the array's blocks.
#[derive(Clone, Copy)]
pub enum ValueRef<'a> {
    /// A null.
    Null,
    /// A truth value.
    Truth(bool),
    /// A whole number: of an integer, date, time or duration, or the unscaled number of a decimal.
    Whole(i128),
    /// The bits of a float, in the low bytes.
    Bits(u64),
    /// The bytes of a text, of binary, or of bytes of a fixed size.
    Bytes(&'a [u8]),
    /// A list, as the column of its items.
    Items(Col<'a>),
    /// A struct: its fields are the items of the children, at the same place ([`Col::child`]).
    Struct,
}
