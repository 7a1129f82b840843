//! A column that is made anew: of its values as they are, or of their indices into a dictionary.
ghost use Rattle.std.specs.Prelude.{◌≡◌, ◌+◌, ◌≤◌, IfOk, OnErr};
ghost use Rattle.data_types.specs.promise.Table.{Flat, Dict};
ghost use Rattle.unit_pass.specs.declared.pass.TheConstants.{SUPPLY};
ghost use Rattle.col_build.specs.Holding.{Holds};
ghost use Rattle.arr_import.specs.Cols.{window_of};
ghost use Rattle.arr_import.specs.Indexing.{shown_by};
ghost use Rattle.arr_import.specs.Window.{items_of};
ghost use Rattle.dict_stage.specs.Recoded.{IsRecoded, text_kind};
ghost use Rattle.dict_stage.specs.Texts.{HasTexts};

use crate::coder::coded;
use crate::item::{add_item, count, entry_of, item_of};
use arr_import::{Col, Indexed};
use col_build::Builder;
use column_fill::built_column;
use data_types::{DataType, clone_kind};
use raw_array::RawArray;
use std::alloc::Global;
use unit_pass::{NoMemory, Pass, SUPPLY};

/// A builder that holds the items of a column, each looked up by itself.
fn own_items(alloc: Global, kind: &DataType, items: &Col<'_>) -> Result<Builder, NoMemory>
    requires { HasTexts kind.now (window_of items.now) }
    ensures { IfOk result (λ builder. Holds builder kind.now (items_of (window_of items.now))) }
{
    let room = count(items) as usize;
    let mut builder = Builder::with_room(alloc, clone_kind(alloc, kind)?, room, 0)?;
    for i in 0..count(items) {
        add_item(&mut builder, item_of(items, i))?;
    }
    Ok(builder)
}

/// A builder that holds this many items of a column with a dictionary, which is all of them.
fn entry_items(
    alloc: Global,
    kind: &DataType,
    items: &Indexed<'_>,
    count: u32,
) -> Result<Builder, NoMemory>
    requires items { HasTexts kind.now (shown_by items.now) }
    requires all { count ≡ (shown_by items.now).count }
    ensures { IfOk result (λ builder. Holds builder kind.now (items_of (shown_by items.now))) }
{
    let mut builder = Builder::with_room(alloc, clone_kind(alloc, kind)?, count as usize, 0)?;
    for i in 0..count {
        add_item(&mut builder, entry_of(items, i))?;
    }
    Ok(builder)
}

/// A builder that holds the items of a column. Its dictionary, where it has one, is looked up once.
fn plain_items(alloc: Global, kind: &DataType, items: &Col<'_>) -> Result<Builder, NoMemory>
    requires { HasTexts kind.now (window_of items.now) }
    ensures { IfOk result (λ builder. Holds builder kind.now (items_of (window_of items.now))) }
{
    match items.indexed() {
        Some(entries) => entry_items(alloc, kind, &entries, count(items)),
        None => own_items(alloc, kind, items),
    }
}

/// The array of the items of a column, as they are. Where memory runs out all units are back.
fn plain_column(
    alloc: Global,
    kind: &DataType,
    items: &Col<'_>,
    pass: &mut Pass,
) -> Result<RawArray, NoMemory>
    requires items { HasTexts kind.now (window_of items.now) }
    requires units { 8 ≤ pass.old.units }
    requires room { pass.old.units ≤ SUPPLY }
    ensures made { IfOk result (λ array. IsRecoded (Flat kind.now) (items_of (window_of items.now)) array pass.old pass.new) }
    ensures units_back { OnErr result (pass.new.units ≡ pass.old.units) }
{
    let builder = plain_items(alloc, kind, items)?;
    match built_column(alloc, builder, None, pass) {
        Ok(array) => Ok(array),
        Err(NoMemory) => Err(NoMemory),
    }
}

/// The array of the indices of a column's items into their dictionary, which it owns ("Arrow Columnar Format",
/// "Dictionary-encoded Layout"). Where memory runs out all units are back.
fn dict_column(
    alloc: Global,
    kind: &DataType,
    items: &Col<'_>,
    pass: &mut Pass,
) -> Result<RawArray, NoMemory>
    requires items { HasTexts kind.now (window_of items.now) }
    requires units { 8 ≤ pass.old.units }
    requires room { pass.old.units ≤ SUPPLY }
    ensures made { IfOk result (λ array. IsRecoded (Dict kind.now) (items_of (window_of items.now)) array pass.old pass.new) }
    ensures units_back { OnErr result (pass.new.units ≡ pass.old.units) }
{
    let builders = coded(alloc, kind, items)?;
    let dictionary = built_column(alloc, builders.entries, None, pass)?;
    match built_column(alloc, builders.indices, Some(dictionary), pass) {
        Ok(array) => Ok(array),
        Err(NoMemory) => Err(NoMemory),
    }
}

/// The array of a column's items, of texts or bytes: as their indices into a dictionary, or as they are. Where memory runs out all
/// units are back.
pub(crate) fn recoded_column(
    alloc: Global,
    dict: bool,
    kind: &DataType,
    items: &Col<'_>,
    pass: &mut Pass,
) -> Result<RawArray, NoMemory>
    requires items { HasTexts kind.now (window_of items.now) }
    requires units { 8 ≤ pass.old.units }
    requires room { pass.old.units ≤ SUPPLY }
    ensures made { IfOk result (λ array. IsRecoded (text_kind dict kind.now) (items_of (window_of items.now)) array pass.old pass.new) }
    ensures units_back { OnErr result (pass.new.units ≡ pass.old.units) }
{
    if dict {
        dict_column(alloc, kind, items, pass)
    } else {
        plain_column(alloc, kind, items, pass)
    }
}
