//! The numbers of items by their values.
ghost use Rattle.std.specs.Prelude.{◌≡◌, ◌+◌, ◌++◌, ◌<◌, ◌≤◌, ◌^◌, ◌∷◌, [], IfOk, OnOk, if◌then◌else◌};
ghost use Rattle.layout_rules.specs.promise.Values.{tree_items};
ghost use Rattle.row_groups.specs.ItemKeys.{IsColumn, array_of, item_of};
ghost use Rattle.row_groups.specs.Walk.{IsGrouped};
ghost use Rattle.layout_rules.specs.promise.Rules.{window_limit};

use crate::column::Column;
use crate::numbering::Numbering;
use std::alloc::Global;
use unit_pass::NoMemory;

/// The number of each item, and the first item of each number.
#[derive(Drop)]
pub(crate) struct ItemNumbers {
    pub(crate) numbers: Vec<u32>,
    pub(crate) firsts: Vec<u32>,
}

/// Appends an item whose value is new.
#[inline(always)]
fn add_first(firsts: &mut Vec<u32>, new: bool, item: u32) -> Result<(), NoMemory>
    ensures { OnOk result (firsts.new.items ≡ (if new then firsts.old.items ++ item ∷ [] else firsts.old.items)) }
{
    if new {
        firsts.push(item)?;
    }
    Ok(())
}

/// The numbers of this many items of a column by their values, in order of first appearance.
pub(crate) fn numbered(
    alloc: Global,
    column: &Column<'_>,
    start: u64,
    count: u32,
) -> Result<ItemNumbers, NoMemory>
    requires column { IsColumn column.now }
    requires inside { start + count ≤ tree_items (array_of column.now) }
    requires near { start + count ≤ window_limit }
    requires few { count < 2 ^ 31 }
    ensures { IfOk result (λ found. IsGrouped (λ i. item_of column.now (start + i)) count found.numbers.items found.firsts.items) }
{
    let mut numbering = Numbering::new(alloc, column.most_values(count as u64))?;
    let mut numbers = Vec::with_capacity(alloc, count as usize)?;
    let mut firsts = Vec::new(alloc);
    for i in 0..count {
        let key = column.key(start + u64::from(i));
        let (number, new) = numbering.number(key)?;
        add_first(&mut firsts, new, i)?;
        numbers.push(number)?;
    }
    Ok(ItemNumbers { numbers, firsts })
}
