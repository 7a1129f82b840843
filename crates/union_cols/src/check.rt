//! The rules of a union's array, one after the other.
ghost use Rattle.std.specs.Prelude.{◌≡◌, ◌↔◌, IsOk, None, OnOk, Option, All, length};
ghost use Rattle.tree_model.specs.promise.TreeParts.{IsLive, children_of};
ghost use Rattle.raw_array.specs.promise.Members.{ArrayTree, members_of};
ghost use Rattle.layout_rules.specs.promise.Layout.{items};
ghost use Rattle.layout_rules.specs.promise.Rules.{first_below};
ghost use Rattle.union_cols.specs.Unions.{UnionTypedOk};
ghost use Rattle.union_cols.specs.promise.UnionRules.{bad_id, union_fault};
ghost use Rattle.root_check.specs.promise.Found.{by};
ghost use Rattle.union_cols.specs.UnionRules.{UnionOk, first_answer, place_answers};
ghost use Rattle.union_cols.specs.UnionHolds.{IsReadable};
ghost use Rattle.union_cols.specs.UnionAnswers.{union_of, rule_of, found_union};

use crate::id_table::IdTable;
use crate::kinds::UnionTyped;
use crate::node::UnionNode;
use crate::rule::{UnionFault, UnionRule};
use layout_check::{Numbers, first_short, window_too_long};
use layout_rules::lawful_trees;
use raw_array::RawArray;
use root_check::{check_children, check_own};

/// Checks a union's array against its kinds ("Arrow Columnar Format", "Union Layout"). The fault is the first rule of [`UnionRule`]
/// that fails. Ids and offsets outside the window are never looked at; a child that no item names is checked too. Takes no memory.
pub fn check_union(typed: &UnionTyped, array: &RawArray) -> Result<(), UnionFault>
    requires { UnionTypedOk (union_of typed.now) }
    ensures fault { found_union result ≡ union_fault (union_of typed.now) array.now }
    ensures lawful { IsOk result ↔ UnionOk (union_of typed.now) array.now }
{
    lawful_trees();
    let buffers = if typed.dense { 2 } else { 1 };
    check_own(array, buffers, typed.kids.len())?;
    let node = UnionNode::of(typed.dense, array);
    ruled(UnionRule::BufferAbsent, node.buffers_absent())?;
    ruled(UnionRule::BufferShort, node.buffers_short())?;
    let table = IdTable::of(&typed.ids);
    ruled(UnionRule::BadTypeId, node.ids_wrong(&table))?;
    check_children(&typed.kids, array)?;
    check_places(&node, &table)
}

/// The rules on what the items need of the children.
fn check_places(node: &UnionNode, table: &IdTable) -> Result<(), UnionFault>
    requires readable { IsReadable node.now.dense (members_of node.now.array.now) }
    requires named { first_below (bad_id table.now.ids.now (members_of node.now.array.now)) (items (members_of node.now.array.now)) ≡ None }
    requires children { length (children_of node.now.array.now) ≡ length table.now.ids.now }
    requires live { All IsLive (children_of node.now.array.now) }
    ensures { found_union result ≡ first_answer (place_answers node.now.dense table.now.ids.now node.now.array.now) }
{
    if node.dense {
        ruled(UnionRule::OffsetRange, node.starts_wrong(table))?;
    } else {
        ruled(
            UnionRule::ChildShort,
            first_short(u128::from(node.stop), node.array),
        )?;
    }
    ruled(UnionRule::WindowTooLong, window_too_long(node.stop))
}

/// A rule's answer.
fn ruled(rule: UnionRule, fault: Option<Numbers>) -> Result<(), UnionFault>
    ensures fault { found_union result ≡ by (rule_of rule) fault }
    ensures passed { OnOk result (fault ≡ None) }
{
    match fault {
        None => Ok(()),
        Some(numbers) => Err(UnionFault {
            rule,
            place: numbers.place,
            left: numbers.left,
            right: numbers.right,
        }),
    }
}
