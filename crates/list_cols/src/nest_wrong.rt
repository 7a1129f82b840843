//! Which column is at fault where rows are grouped.
ghost use Rattle.std.specs.Prelude.{◌≡◌, ◌<◌, ◌^◌, length};
ghost use Rattle.tree_model.specs.promise.TreeParts.{children_of};
ghost use Rattle.data_types.specs.promise.TypedView.{typed_of};
ghost use Rattle.data_types.specs.TypedView.{kids_of};
ghost use Rattle.list_cols.specs.promise.Faults.{first_wrong};
ghost use Rattle.list_cols.specs.Faults.{nests};

use column_fill::is_flat_column;
use data_types::{Typed, kinds_of_typed};

/// The number from 0 of the first column that isn't of a flat column kind, or has a dictionary. None where all are. Takes no
/// memory.
pub fn wrong_to_nest(typed: &Typed) -> Option<u32>
    requires few { length (kids_of typed.now) < 2 ^ 32 }
    ensures { result ≡ first_wrong nests 0 (children_of (typed_of typed.now)) }
{
    kinds_of_typed(typed);
    for k in 0..typed.kids.len() {
        if !is_flat_column(&typed.kids[k]) {
            return Some(k as u32);
        }
    }
    None
}
