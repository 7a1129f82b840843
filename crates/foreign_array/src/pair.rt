//! A live tree and its owner, as they are kept.

use crate::owner::Owner;
use raw_array::RawArray;

/// A live tree and its owner.
pub(crate) struct Pair<O: Owner> {
    pub(crate) array: RawArray,
    pub(crate) owner: O,
}
