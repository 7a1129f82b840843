//! Why a column isn't made into runs, or runs aren't made into a column.
ghost use Rattle.std.specs.Prelude.{◌≡◌};
ghost use Rattle.data_types.specs.KindTrees.{TypedOk};
ghost use Rattle.data_types.specs.promise.TypedView.{typed_of};
ghost use Rattle.layout_rules.specs.promise.Values.{tree_items};
ghost use Rattle.layout_rules.specs.promise.Walk.{LayoutOk};
ghost use Rattle.run_ends.specs.promise.CodeFaults.{code_fault};
ghost use Rattle.run_ends.specs.CodeFaults.{is_narrow};

use crate::ends::count;
use arr_import::Col;
use column_fill::is_flat_column;
use data_types::{DataType, Typed};
use raw_array::RawArray;

/// Why a column isn't made into runs, or runs aren't made into a column, tried from the first to the last.
#[derive(Clone, Copy, Debug, PartialEq, Eq)]
pub enum CodeFault {
    /// The values aren't of a flat column kind, or have a dictionary.
    WrongKind,
    /// A column has more than 2^31 - 1 items, so that ends of 32 bits don't name each; or the items of runs have more bytes than
    /// that, so that offsets of 32 bits don't reach all.
    TooLong,
    /// Memory ran out.
    NoMemory,
}

/// The most items that ends of 32 bits name.
const MOST_ITEMS: u64 = (1 << 31) - 1;

/// Why a lawful column isn't made into runs, unless memory runs out. Takes no memory.
pub fn encode_fault(typed: &Typed, array: &RawArray) -> Option<CodeFault>
    requires types { TypedOk (typed_of typed.now) }
    requires lawful { LayoutOk (typed_of typed.now) array.now }
    ensures { result ≡ code_fault (typed_of typed.now) (tree_items array.now) }
{
    if !is_flat_column(typed) {
        return Some(CodeFault::WrongKind);
    }
    if count(&Col::of(typed, array)) > MOST_ITEMS {
        return Some(CodeFault::TooLong);
    }
    None
}

/// Whether a type's items are texts or bytes between offsets of 32 bits.
pub(crate) fn is_narrow(kind: &DataType) -> bool
    ensures { result ≡ is_narrow kind.now }
{
    match kind {
        DataType::Utf8 { wide } | DataType::Binary { wide } => !*wide,
        _ => false,
    }
}
