//! The items of a column, grouped by value.
ghost use Rattle.std.specs.Prelude.{◌≡◌, ◌==◌, ◌+◌, ◌<◌, ◌≤◌, ◌^◌, ◌∷◌, [], IfOk, All, if◌then◌else◌, length, map};
ghost use Rattle.data_types.specs.ColumnForms.{HasForm};
ghost use Rattle.data_types.specs.promise.FieldText.{form_of};
ghost use Rattle.data_types.specs.promise.Table.{Flat};
ghost use Rattle.data_types.specs.promise.ColumnKinds.{type_of_kind};
ghost use Rattle.data_types.specs.promise.KindTrees.{kind_in};
ghost use Rattle.data_types.specs.KindTrees.{TypedOk};
ghost use Rattle.data_types.specs.promise.TypedView.{typed_of};
ghost use Rattle.layout_rules.specs.promise.Values.{each, tree_items, value_at};
ghost use Rattle.layout_rules.specs.promise.Walk.{LayoutOk};
ghost use Rattle.array_laws.specs.Items.{AreApart};
ghost use Rattle.data_types.specs.promise.Groups.{distinct};
ghost use Rattle.data_types.specs.Groups.{firsts_of, offsets_of, order_of};
ghost use Rattle.row_groups.specs.Items.{items_from};

use crate::column::Column;
use crate::numbers::{ItemNumbers, numbered};
use crate::order::{Order, ordered};
use data_types::Typed;
use layout_rules::lawful_root;
use raw_array::RawArray;
use std::alloc::Global;
use unit_pass::NoMemory;

/// The items of a column by their values, each by its number.
#[derive(Drop)]
pub struct Groups {
    /// For each distinct value, in order of first appearance, the first item that has it.
    pub firsts: Vec<u32>,
    /// For each distinct value the items that have it, in order; one value's behind another's.
    pub order: Vec<u32>,
    /// Where each value's items begin in `order`, and where the last one's end.
    pub offsets: Vec<u32>,
}

/// The one group of this many items that are all the same; no items are no group.
fn one_group(alloc: Global, count: u32) -> Result<Groups, NoMemory>
    ensures firsts { IfOk result (λ groups. groups.firsts.items ≡ (if count == 0 then [] else 0 ∷ [])) }
    ensures order { IfOk result (λ groups. groups.order.items ≡ each (λ i. i) 0 count) }
    ensures offsets { IfOk result (λ groups. groups.offsets.items ≡ 0 ∷ (if count == 0 then [] else count ∷ [])) }
{
    let mut firsts = Vec::new(alloc);
    let mut offsets = Vec::new(alloc);
    offsets.push(0)?;
    if count > 0 {
        firsts.push(0)?;
        offsets.push(count)?;
    }
    Ok(Groups {
        firsts,
        order: all_places(alloc, count)?,
        offsets,
    })
}

/// The numbers from 0 on, this many of them.
fn all_places(alloc: Global, count: u32) -> Result<Vec<u32>, NoMemory>
    ensures { IfOk result (λ places. places.items ≡ each (λ i. i) 0 count) }
{
    let mut places = Vec::with_capacity(alloc, count as usize)?;
    for i in 0..count {
        places.push_reserved(i);
    }
    Ok(places)
}

/// The items of a column, grouped by value. `count` items of the array are looked at, from item `start` on; the numbers are counted
/// from `start`. A null is a value, and floats are by their bits. Items without bytes of a column without a validity bitmap are all the
/// same, and none is looked at.
///
/// # Errors
///
/// `NoMemory` where there is no memory for the groups.
pub fn grouped(
    alloc: Global,
    typed: &Typed,
    array: &RawArray,
    start: u64,
    count: u32,
) -> Result<Groups, NoMemory>
    requires types { TypedOk (typed_of typed.now) }
    requires typed { typed_of typed.now ≡ type_of_kind (Flat (kind_in (typed_of typed.now))) }
    requires flat { HasForm (form_of (kind_in (typed_of typed.now))) }
    requires lawful { LayoutOk (typed_of typed.now) array.now }
    requires inside { start + count ≤ tree_items array.now }
    requires few { count < 2 ^ 31 }
    ensures firsts { IfOk result (λ groups. groups.firsts.items ≡ firsts_of (items_from (typed_of typed.now) array.now start count)) }
    ensures order { IfOk result (λ groups. groups.order.items ≡ order_of (items_from (typed_of typed.now) array.now start count)) }
    ensures offsets { IfOk result (λ groups. groups.offsets.items ≡ offsets_of (items_from (typed_of typed.now) array.now start count)) }
    ensures values { IfOk result (λ groups. map (λ i. value_at (typed_of typed.now) array.now (start + i)) groups.firsts.items
        ≡ distinct (items_from (typed_of typed.now) array.now start count)) }
    ensures firsts_inside { IfOk result (λ groups. All (λ i. i < count) groups.firsts.items) }
    ensures firsts_apart { IfOk result (λ groups. AreApart groups.firsts.items) }
    ensures inside { IfOk result (λ groups. All (λ i. i < count) groups.order.items) }
    ensures apart { IfOk result (λ groups. AreApart groups.order.items) }
    ensures all { IfOk result (λ groups. length groups.order.items ≡ count) }
{
    lawful_root(typed, array);
    let column = Column::of(typed, array);
    if column.are_alike() {
        return one_group(alloc, count);
    }
    let ItemNumbers { numbers, firsts } = numbered(alloc, &column, start, count)?;
    let Order { places, offsets } = ordered(alloc, &numbers, firsts.len() as u32)?;
    Ok(Groups {
        firsts,
        order: places,
        offsets,
    })
}
