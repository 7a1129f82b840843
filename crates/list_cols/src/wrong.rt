//! Which column is at fault.
ghost use Rattle.std.specs.Prelude.{◌≡◌, ◌<◌, ◌^◌, length};
ghost use Rattle.tree_model.specs.promise.TreeParts.{children_of};
ghost use Rattle.data_types.specs.promise.TypedView.{typed_of};
ghost use Rattle.data_types.specs.TypedView.{kids_of};
ghost use Rattle.list_cols.specs.promise.Faults.{explodes, first_wrong, is_flat_list};

use column_fill::is_flat_column;
use data_types::{DataType, Typed, kinds_of_typed};

/// Whether values are lists of a flat column kind, with offsets.
fn is_flat_list(typed: &Typed) -> bool
    ensures { result ≡ is_flat_list (typed_of typed.now) }
{
    kinds_of_typed(typed);
    match &typed.kind {
        DataType::List { .. } => typed.kids.len() > 0 && is_flat_column(&typed.kids[0]),
        _ => false,
    }
}

/// Whether a column is what it must be where the lists of `column` are spread out.
fn explodes(column: usize, k: usize, typed: &Typed) -> bool
    ensures { result ≡ explodes column k (typed_of typed.now) }
{
    if k == column {
        is_flat_list(typed)
    } else {
        is_flat_column(typed)
    }
}

/// The number from 0 of the first column that isn't what it must be where the lists of `column` are spread out: `column` is
/// no list of a flat column kind, or another one isn't of a flat column kind. None where all are. Takes no memory.
pub fn wrong_to_explode(typed: &Typed, column: usize) -> Option<u32>
    requires few { length (kids_of typed.now) < 2 ^ 32 }
    ensures { result ≡ first_wrong (explodes column) 0 (children_of (typed_of typed.now)) }
{
    kinds_of_typed(typed);
    for k in 0..typed.kids.len() {
        if !explodes(column, k, &typed.kids[k]) {
            return Some(k as u32);
        }
    }
    None
}
