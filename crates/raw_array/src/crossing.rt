//! That a tree may cross threads, shown once here so that a type that may not shows itself here.
use crate::array::RawArray;
use std::marker::Send;

fn crosses<T: Send>(_value: &T) {}

/// A tree may move to another thread.
pub(crate) fn tree_crosses(tree: &RawArray) {
    crosses(tree);
}
