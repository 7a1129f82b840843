//! Items that are read from a column of texts or bytes.
ghost use Rattle.std.specs.Prelude.{◌≡◌, ◌<◌, ◌≤◌, ◌^◌, OnOk};
ghost use Rattle.col_build.specs.Holding.{Adds, Takes};
ghost use Rattle.col_build.specs.Items.{value_of};
ghost use Rattle.arr_import.specs.Cols.{window_of};
ghost use Rattle.arr_import.specs.Indexing.{shown_by};
ghost use Rattle.arr_import.specs.Window.{item_at};
ghost use Rattle.dict_stage.specs.Texts.{IsText};

use arr_import::{Col, Indexed};
use col_build::{Builder, Item};
use unit_pass::NoMemory;

/// The number of items.
pub(crate) fn count(items: &Col<'_>) -> u32
    requires { (window_of items.now).count ≤ 2 ^ 30 }
    ensures { result ≡ (window_of items.now).count }
{
    items.len() as u32
}

/// An item that is bytes or null.
#[inline(always)]
pub(crate) fn item_of<'a>(items: &Col<'a>, i: u32) -> Item<'a>
    requires inside { i < (window_of items.now).count }
    requires text { IsText (item_at (window_of items.now) i) }
    ensures { value_of result ≡ item_at (window_of items.now) i }
{
    match items.bytes(i64::from(i)) {
        Some(bytes) => Item::Bytes(bytes),
        None => Item::Null,
    }
}

/// An item of a column with a dictionary, that is bytes or null. The dictionary was looked up before.
#[inline(always)]
pub(crate) fn entry_of<'a>(items: &Indexed<'a>, i: u32) -> Item<'a>
    requires inside { i < (shown_by items.now).count }
    requires text { IsText (item_at (shown_by items.now) i) }
    ensures { value_of result ≡ item_at (shown_by items.now) i }
{
    match items.bytes(i64::from(i)) {
        Some(bytes) => Item::Bytes(bytes),
        None => Item::Null,
    }
}

/// Adds an item that is bytes or null. A text isn't tested again.
#[inline(always)]
pub(crate) fn add_item(builder: &mut Builder, item: Item<'_>) -> Result<(), NoMemory>
    requires text { IsText (value_of item) }
    requires takes { Takes builder.old (value_of item) }
    ensures { OnOk result (Adds (value_of item.entry) builder.old builder.new) }
{
    match item {
        Item::Bytes(bytes) => builder.add_bytes(bytes),
        Item::Null => builder.add_null(),
        _ => unreachable!(),
    }
}
