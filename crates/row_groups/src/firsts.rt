//! The first item of each distinct value.
ghost use Rattle.std.specs.Prelude.{◌≡◌, ◌==◌, ◌+◌, ◌++◌, ◌<◌, ◌≤◌, ◌∷◌, [], ℕ, List, true, IfErr, IfOk, OnOk, All, if◌then◌else◌, length, map};
ghost use Rattle.data_types.specs.ColumnForms.{HasForm};
ghost use Rattle.data_types.specs.promise.FieldText.{form_of};
ghost use Rattle.data_types.specs.promise.Table.{Flat};
ghost use Rattle.data_types.specs.promise.ColumnKinds.{type_of_kind};
ghost use Rattle.data_types.specs.promise.KindTrees.{kind_in};
ghost use Rattle.data_types.specs.KindTrees.{TypedOk};
ghost use Rattle.data_types.specs.promise.TypedView.{typed_of};
ghost use Rattle.layout_rules.specs.promise.Values.{each, tree_items, value_at};
ghost use Rattle.layout_rules.specs.promise.Walk.{LayoutOk};
ghost use Rattle.array_laws.specs.Items.{AreApart};
ghost use Rattle.layout_rules.specs.promise.Rules.{window_limit};
ghost use Rattle.data_types.specs.promise.Groups.{distinct};
ghost use Rattle.data_types.specs.Groups.{firsts_of};
ghost use Rattle.row_groups.specs.ItemKeys.{IsColumn, array_of, item_of};
ghost use Rattle.row_groups.specs.Walk.{IsGrouped};
ghost use Rattle.row_groups.specs.declared.fault.GroupFault.TheVariants.{NoMemory};
ghost use Rattle.row_groups.specs.Items.{IsRefusedFor, items_from, most_groups};

use crate::column::Column;
use crate::fault::GroupFault;
use crate::numbering::Numbering;
use data_types::Typed;
use layout_rules::lawful_root;
use raw_array::RawArray;
use std::alloc::Global;

/// The most distinct values that are counted.
const MOST_GROUPS: usize = (1 << 31) - 1;

/// Appends an item whose value is new, where there aren't as many as are counted.
#[inline(always)]
fn add_first(firsts: &mut Vec<u64>, new: bool, item: u64) -> Result<(), GroupFault>
    ensures firsts { OnOk result (firsts.new.items ≡ (if new then firsts.old.items ++ item ∷ [] else firsts.old.items)) }
    ensures few { OnOk result (length firsts.old.items ≤ most_groups → length firsts.new.items ≤ most_groups) }
    ensures fault { IfErr result (λ fault. (length firsts.old.items ≤ most_groups) → (new ≡ true) × IsRefusedFor (length firsts.old.items + 1) fault) }
{
    if !new {
        return Ok(());
    }
    if firsts.len() >= MOST_GROUPS {
        return Err(GroupFault::TooMany);
    }
    match firsts.push(item) {
        Ok(()) => Ok(()),
        Err(_) => Err(GroupFault::NoMemory),
    }
}

/// The first item of items that are all the same.
fn only_first(alloc: Global, count: u64) -> Result<Vec<u64>, GroupFault>
    ensures firsts { IfOk result (λ firsts. firsts.items ≡ (if count == 0 then [] else 0 ∷ [])) }
    ensures fault { IfErr result (λ fault. fault ≡ NoMemory) }
{
    let mut firsts = Vec::new(alloc);
    if count == 0 {
        return Ok(firsts);
    }
    match firsts.push(0) {
        Ok(()) => Ok(firsts),
        Err(_) => Err(GroupFault::NoMemory),
    }
}

/// The first item of each distinct value, where each item is looked at.
fn walked_firsts(
    alloc: Global,
    column: &Column<'_>,
    start: u64,
    count: u64,
) -> Result<Vec<u64>, GroupFault>
    requires column { IsColumn column.now }
    requires inside { start + count ≤ tree_items (array_of column.now) }
    requires near { start + count ≤ window_limit }
    ensures firsts { IfOk result (λ firsts. (numbers : List ℕ) × IsGrouped (λ i. item_of column.now (start + i)) count numbers firsts.items) }
    ensures few { IfOk result (λ firsts. length firsts.items ≤ most_groups) }
    ensures fault { IfErr result (IsRefusedFor (length (distinct (each (λ i. item_of column.now (start + i)) 0 count)))) }
{
    let Ok(mut numbering) = Numbering::new(alloc, column.most_values(count)) else {
        return Err(GroupFault::NoMemory);
    };
    let mut firsts = Vec::new(alloc);
    for i in 0..count {
        let key = column.key(start + i);
        let Ok((_, new)) = numbering.number(key) else {
            return Err(GroupFault::NoMemory);
        };
        add_first(&mut firsts, new, i)?;
    }
    Ok(firsts)
}

/// The number of the first item of each distinct value, in order of first appearance. `count` items of the array are looked at, from
/// item `start` on; the numbers are counted from `start`. A null is a value, and floats are by their bits. Items without bytes of a
/// column without a validity bitmap are all the same, and none is looked at.
///
/// # Errors
///
/// `TooMany` where there are more than 2^31 - 1 distinct values, or `NoMemory`.
pub fn first_items(
    alloc: Global,
    typed: &Typed,
    array: &RawArray,
    start: u64,
    count: u64,
) -> Result<Vec<u64>, GroupFault>
    requires types { TypedOk (typed_of typed.now) }
    requires typed { typed_of typed.now ≡ type_of_kind (Flat (kind_in (typed_of typed.now))) }
    requires flat { HasForm (form_of (kind_in (typed_of typed.now))) }
    requires lawful { LayoutOk (typed_of typed.now) array.now }
    requires inside { start + count ≤ tree_items array.now }
    ensures firsts { IfOk result (λ firsts. firsts.items ≡ firsts_of (items_from (typed_of typed.now) array.now start count)) }
    ensures values { IfOk result (λ firsts. map (λ i. value_at (typed_of typed.now) array.now (start + i)) firsts.items
        ≡ distinct (items_from (typed_of typed.now) array.now start count)) }
    ensures firsts_inside { IfOk result (λ firsts. All (λ i. i < count) firsts.items) }
    ensures firsts_apart { IfOk result (λ firsts. AreApart firsts.items) }
    ensures few { OnOk result (length (distinct (items_from (typed_of typed.now) array.now start count)) ≤ most_groups) }
    ensures fault { IfErr result (IsRefusedFor (length (distinct (items_from (typed_of typed.now) array.now start count)))) }
{
    lawful_root(typed, array);
    let column = Column::of(typed, array);
    if column.are_alike() {
        return only_first(alloc, count);
    }
    walked_firsts(alloc, &column, start, count)
}
