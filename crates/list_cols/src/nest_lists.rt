//! A column of lists: the items of another one, in groups.
ghost use Rattle.std.specs.Prelude.{◌≡◌, ◌+◌, ◌-◌, ◌<◌, ◌≤◌, ◌^◌, ◌≤ℤ◌, ◌∷◌, [], List, None, pos, IfOk, OnOk, MatchResult, if◌then◌else◌, is_ok, length};
ghost use Rattle.std.specs.List.{flat_map};
ghost use Rattle.arr_export.specs.promise.ArrayTrees.{column_tree, made};
ghost use Rattle.data_types.specs.promise.Packed.{le_bytes};
ghost use Rattle.col_build.specs.promise.Encoding.{narrow_limit};
ghost use Rattle.col_build.specs.Encoding.{HasForm};
ghost use Rattle.column_fill.specs.Gathered.{CanGather, values_at};
ghost use Rattle.data_types.specs.promise.FieldText.{form_of};
ghost use Rattle.data_types.specs.promise.Table.{Flat};
ghost use Rattle.data_types.specs.promise.Value.{Value};
ghost use Rattle.data_types.specs.promise.ColumnKinds.{type_of_kind};
ghost use Rattle.data_types.specs.KindTrees.{TypedOk};
ghost use Rattle.data_types.specs.promise.TypedView.{typed_of};
ghost use Rattle.data_types.specs.TypedView.{kind_of};
ghost use Rattle.layout_rules.specs.promise.Layout.{natural};
ghost use Rattle.raw_array.specs.promise.Members.{Cost};
ghost use Rattle.raw_array.specs.View.{buffers_of};
ghost use Rattle.tree_model.specs.promise.TreeData.{Live, absent, trees};
ghost use Rattle.tree_model.specs.Tree.{Depth};
ghost use Rattle.unit_pass.specs.promise.Tally.{risen};
ghost use Rattle.unit_pass.specs.declared.pass.TheConstants.{SUPPLY};
ghost use Rattle.list_cols.specs.promise.ListTrees.{list_members, list_tree};
ghost use Rattle.list_cols.specs.NestedGroups.{AreGroups, HasItems, grouped_lists};

use array_laws::lawful_values_fit;
use buf_block::{BufView, make};
use column_fill::{built_column, gathered};
use data_types::Typed;
use raw_array::{ArrayParts, RawArray, ReleaseKind, built_array, release_all};
use row_groups::Groups;
use std::alloc::Global;
use unit_pass::{NoMemory, Pass, SUPPLY};

/// The bytes of offsets of 32 bits, the least significant first.
fn offset_bytes(alloc: Global, offsets: &[u32]) -> Result<Vec<u8>, NoMemory>
    requires few { length offsets.now ≤ 2 ^ 32 }
    ensures { IfOk result (λ bytes. bytes.items ≡ flat_map (le_bytes 4) offsets.now) }
{
    let mut bytes = Vec::with_capacity(alloc, 4 * offsets.len())?;
    for offset in offsets {
        bytes.extend_from_slice(&offset.to_le_bytes())?;
    }
    Ok(bytes)
}

/// The buffers of lists of which none is null: an absent validity bitmap, and the offsets as a new block.
fn list_views(
    alloc: Global,
    offsets: Vec<u8>,
    pass: &mut Pass,
) -> Result<Vec<Option<BufView>>, NoMemory>
    requires unit { 1 ≤ pass.old.units }
    ensures views { IfOk result (λ views. buffers_of views.items ≡ None ∷ Some (made offsets.items) ∷ []) }
    ensures count { IfOk result (λ views. length views.items ≡ 2) }
    ensures units { pass.new.units + (if is_ok result then 1 else 0) ≡ pass.old.units }
    ensures blocks { OnOk result (pass.new.blocks ≡ risen pass.old.blocks 1) }
    ensures nodes { pass.new.nodes ≡ pass.old.nodes }
{
    let Ok(mut views) = Vec::with_capacity(alloc, 2) else {
        return Err(NoMemory);
    };
    match make(alloc, offsets, pass) {
        Ok(hold) => {
            views.push_reserved(None);
            views.push_reserved(Some(BufView::whole(hold)));
            Ok(views)
        }
        Err((_offsets, NoMemory)) => {
            views.destroy_empty();
            Err(NoMemory)
        }
    }
}

/// An array alone in a list of children. Where memory runs out it is released.
pub(crate) fn one_child(
    alloc: Global,
    child: RawArray,
    pass: &mut Pass,
) -> Result<Vec<RawArray>, NoMemory>
    requires room { pass.old.units + Cost child ≤ SUPPLY }
    ensures child { IfOk result (λ children. children.items ≡ child ∷ []) }
    ensures units { pass.new.units ≡ pass.old.units + (if is_ok result then 0 else Cost child) }
    ensures blocks { pass.new.blocks ≡ pass.old.blocks }
    ensures nodes { pass.new.nodes ≡ pass.old.nodes }
{
    let Ok(mut children) = Vec::with_capacity(alloc, 1) else {
        child.end(pass);
        return Err(NoMemory);
    };
    children.push_reserved(child);
    Ok(children)
}

/// This many lists, none of them null, of an array's items between these offsets. Where memory runs out the array is released.
fn lists_over(
    alloc: Global,
    count: i64,
    offsets: Vec<u8>,
    items: RawArray,
    pass: &mut Pass,
) -> Result<RawArray, NoMemory>
    requires count { pos 0 ≤ℤ count }
    requires shallow { Depth items ≤ 127 }
    requires units { 2 ≤ pass.old.units }
    requires room { pass.old.units + Cost items ≤ SUPPLY }
    ensures made { IfOk result (λ made. made ≡ Live (list_members (natural count) offsets.items) (trees (items ∷ [])) absent) }
    ensures units { MatchResult result
        (λ made. pass.new.units + Cost made ≡ pass.old.units + Cost items)
        (λ _. pass.new.units ≡ pass.old.units + Cost items) }
    ensures left { OnOk result (pass.new.units + 2 ≡ pass.old.units) }
    ensures blocks { OnOk result (pass.new.blocks ≡ risen pass.old.blocks 1) }
    ensures nodes { OnOk result (pass.new.nodes ≡ risen pass.old.nodes 1) }
{
    let Ok(children) = one_child(alloc, items, pass) else {
        return Err(NoMemory);
    };
    let Ok(buffers) = list_views(alloc, offsets, pass) else {
        release_all(children, pass);
        return Err(NoMemory);
    };
    let parts = ArrayParts {
        length: count,
        null_count: 0,
        offset: 0,
        buffers,
        children,
        dictionary: None,
        kind: ReleaseKind::Exported,
    };
    built_array(alloc, parts, pass)
}

/// The items of these numbers as a column, counted from item `start` on.
pub(crate) fn picked_column(
    alloc: Global,
    kid: &Typed,
    items: &RawArray,
    start: u64,
    picks: &[u32],
    pass: &mut Pass,
) -> Result<RawArray, NoMemory>
    requires typed { typed_of kid.now ≡ type_of_kind (Flat (kind_of kid.now)) }
    requires types { TypedOk (typed_of kid.now) }
    requires items { CanGather (kind_of kid.now) items.now start picks.now }
    requires units { 4 ≤ pass.old.units }
    ensures made { IfOk result (λ made. made ≡ column_tree (kind_of kid.now) (values_at (type_of_kind (Flat (kind_of kid.now))) items.now start picks.now) None) }
    ensures units { MatchResult result (λ made. pass.new.units + Cost made ≡ pass.old.units) (λ _. pass.new.units ≡ pass.old.units) }
    ensures left { IfOk result (λ _. pass.old.units ≤ pass.new.units + 4) }
    ensures least { OnOk result (pass.new.units + 1 ≤ pass.old.units) }
    ensures blocks { OnOk result (pass.new.blocks ≡ risen pass.old.blocks (pass.old.units - pass.new.units - 1)) }
    ensures nodes { OnOk result (pass.new.nodes ≡ risen pass.old.nodes 1) }
{
    let builder = gathered(alloc, &kid.kind, kid, items, start, picks)?;
    match built_column(alloc, builder, None, pass) {
        Ok(made) => Ok(made),
        Err(NoMemory) => Err(NoMemory),
    }
}

/// A list for each group, of the items of an array that are where the group's are, counted from item `start` on.
pub(crate) fn list_column(
    alloc: Global,
    kid: &Typed,
    items: &RawArray,
    start: u64,
    groups: &Groups,
    pass: &mut Pass,
) -> Result<RawArray, NoMemory>
    requires typed { typed_of kid.now ≡ type_of_kind (Flat (kind_of kid.now)) }
    requires types { TypedOk (typed_of kid.now) }
    requires flat { HasForm (form_of (kind_of kid.now)) }
    requires groups { (vs : List Value) × AreGroups groups.now vs × HasItems (kind_of kid.now) items.now start vs × (length vs < narrow_limit) }
    requires units { 6 ≤ pass.old.units }
    ensures made { IfOk result (λ made. (vs : List Value) → AreGroups groups.now vs
        → made ≡ list_tree (kind_of kid.now) (grouped_lists (type_of_kind (Flat (kind_of kid.now))) items.now start vs)) }
    ensures units { MatchResult result (λ made. pass.new.units + Cost made ≡ pass.old.units) (λ _. pass.new.units ≡ pass.old.units) }
    ensures left { OnOk result (pass.old.units ≤ pass.new.units + 6) }
    ensures least { OnOk result (pass.new.units + 2 ≤ pass.old.units) }
    ensures blocks { OnOk result (pass.new.blocks ≡ risen pass.old.blocks (pass.old.units - pass.new.units - 2)) }
    ensures nodes { OnOk result (pass.new.nodes ≡ risen pass.old.nodes 2) }
{
    lawful_values_fit(kid, items);
    let offsets = offset_bytes(alloc, &groups.offsets)?;
    let values = picked_column(alloc, kid, items, start, &groups.order, pass)?;
    match lists_over(alloc, groups.firsts.len() as i64, offsets, values, pass) {
        Ok(made) => Ok(made),
        Err(NoMemory) => Err(NoMemory),
    }
}
