//! Lines of values, each behind a number.
ghost use Rattle.std.specs.Prelude.{◌≡◌, ◌<◌, ◌++◌, ◌^◌, OnOk, decimal};
ghost use Rattle.arr_import.specs.Cols.{window_of};
ghost use Rattle.arr_import.specs.Window.{item_at};
ghost use Rattle.data_types.specs.NumberedTexts.{numbered_line};

use crate::bounded::BoundedText;
use crate::value::push_value;
use arr_import::Col;
use unit_pass::NoMemory;

/// Appends a number in decimal.
fn push_number(text: &mut BoundedText, number: u64) -> Result<(), NoMemory>
    ensures { OnOk result (text.new ≡ text.old ++ decimal number) }
{
    text.push_whole(i128::from(number))
}

/// Appends a line with a number in decimal, a space, and the text of item `i` of a column.
pub fn push_numbered(
    text: &mut BoundedText,
    number: u64,
    col: &Col<'_>,
    i: u64,
) -> Result<(), NoMemory>
    requires inside { i < (window_of col.now).count }
    requires small { i < 2 ^ 63 }
    ensures { OnOk result (text.new ≡ text.old ++ numbered_line (number, item_at (window_of col.now) i)) }
{
    push_number(text, number)?;
    text.push(b' ')?;
    push_value(text, col, i)?;
    text.push(b'\n')
}
