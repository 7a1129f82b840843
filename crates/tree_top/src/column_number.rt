//! The number of a column, as a word spells it.
ghost use Rattle.std.specs.Prelude.{◌≡◌};
ghost use Rattle.tree_top.specs.promise.Columns.{column_number};

use tree_check::number_between;

/// The greatest number of a column.
const MOST_COLUMN: u32 = 1023;

/// The number of a column that decimal digits without sign or leading zero spell.
pub(crate) fn column_number(text: &str) -> Option<u32>
    ensures { result ≡ column_number text.now }
{
    number_between(text, 0, MOST_COLUMN)
}
