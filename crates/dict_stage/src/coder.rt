//! A dictionary in the making, and the indices of values into it.
ghost use Rattle.std.specs.Prelude.{◌≡◌, ◌<◌, ◌-◌, ◌^◌, ℕ, List, [], ◌∷◌, length, IfOk, OnOk};
ghost use Rattle.data_types.specs.promise.Value.{Bytes};
ghost use Rattle.data_types.specs.declared.kind.DataType.{DataType as AType};
ghost use Rattle.col_build.specs.Holding.{Adds, Holds, HoldsWholes, Takes};
ghost use Rattle.col_build.specs.Items.{value_of};
ghost use Rattle.arr_import.specs.Cols.{window_of};
ghost use Rattle.arr_import.specs.Window.{items_of};
ghost use Rattle.stage_model.specs.promise.Dictionary.{Dictionary};
ghost use Rattle.dict_stage.specs.Indices.{Indices, index_type};
ghost use Rattle.dict_stage.specs.Texts.{Codes, HasTexts, IsText, index_by, texts_after};

use crate::item::{count, item_of};
use arr_import::Col;
use col_build::{Builder, Item};
use data_types::{DataType, clone_kind};
use item_keys::Distinct;
use std::alloc::Global;
use unit_pass::NoMemory;

/// Distinct texts, which are lent from the column, and a builder that holds them.
#[derive(Drop)]
pub(crate) struct Coder<'a> {
    pub(crate) texts: Distinct<'a>,
    pub(crate) entries: Builder,
}

/// Adds a text that is new to the dictionary.
#[inline(never)]
fn new_entry(entries: &mut Builder, text: &[u8]) -> Result<(), NoMemory>
    requires { Takes entries.old (Bytes text.now) }
    ensures { OnOk result (Adds (Bytes text.now) entries.old entries.new) }
{
    entries.add_bytes(text)
}

/// Adds the index of an item. A text that is new goes behind those before it.
#[inline(always)]
fn add_index<'a>(
    coder: &mut Coder<'a>,
    indices: &mut Builder,
    item: Item<'a>,
) -> Result<(), NoMemory>
    requires text { IsText (value_of item) }
    requires takes { Takes coder.old.entries (value_of item) }
    requires codes { (type : AType) × (texts : List (List ℕ)) × Codes coder.old type texts × Takes indices.old (index_by texts (value_of item))
        × (length texts < 2 ^ 32 - 1) }
    requires width { HoldsWholes 4 indices.old }
    ensures added { OnOk result ((type : AType) (texts : List (List ℕ)) → Codes coder.old type texts
        → Adds (index_by texts (value_of item.entry)) indices.old indices.new) }
    ensures coded { OnOk result ((type : AType) (texts : List (List ℕ)) → Codes coder.old type texts
        → Codes coder.new type (texts_after texts (value_of item.entry ∷ []))) }
{
    match item {
        Item::Bytes(text) => {
            let (number, new) = coder.texts.number(text)?;
            if new {
                new_entry(&mut coder.entries, text)?;
            }
            indices.add_whole(4, number as i128)
        }
        Item::Null => indices.add_null(),
        _ => unreachable!(),
    }
}

/// A builder of a dictionary, and one of the indices into it.
#[derive(Drop)]
pub(crate) struct Builders {
    pub(crate) entries: Builder,
    pub(crate) indices: Builder,
}

/// The dictionary of a column's items, and their indices into it.
pub(crate) fn coded(alloc: Global, kind: &DataType, items: &Col<'_>) -> Result<Builders, NoMemory>
    requires { HasTexts kind.now (window_of items.now) }
    ensures entries { IfOk result (λ coded. Holds coded.entries kind.now (Dictionary (items_of (window_of items.now)))) }
    ensures indices { IfOk result (λ coded. Holds coded.indices index_type (Indices (items_of (window_of items.now)))) }
{
    let mut coder = Coder {
        texts: Distinct::new(alloc, count(items))?,
        entries: Builder::new(alloc, clone_kind(alloc, kind)?),
    };
    let mut indices = Builder::new(
        alloc,
        DataType::Int {
            bits: 32,
            signed: true,
        },
    );
    for i in 0..count(items) {
        add_index(&mut coder, &mut indices, item_of(items, i))?;
    }
    let Coder { texts: _, entries } = coder;
    Ok(Builders { entries, indices })
}
