//! The items of a union.
ghost use Rattle.std.specs.Prelude.{◌≡◌, ◌<◌, ◌^◌, ◌++◌, ◌⊎◌, IfOk, IfErr, OnOk, map};
ghost use Rattle.std.specs.List.{flat_map};
ghost use Rattle.layout_rules.specs.promise.Layout.{items};
ghost use Rattle.raw_array.specs.promise.Members.{members_of};
ghost use Rattle.union_cols.specs.UnionCols.{array_in, kinds_in};
ghost use Rattle.union_cols.specs.UnionAnswers.{union_of};
ghost use Rattle.union_cols.specs.UnionRules.{UnionOk};
ghost use Rattle.union_cols.specs.promise.Unions.{union_items};
ghost use Rattle.union_cols.specs.Unions.{UnionTypedOk, union_item};
ghost use Rattle.data_types.specs.NumberedTexts.{numbered_line};
ghost use Rattle.tree_top.specs.promise.TextOrFault.{Fault, Text};
ghost use Rattle.tree_top.specs.promise.UnionAnswer.{UnionAnswer, items_text};
ghost use Rattle.tree_top.specs.AnswerParts.{numbered_item};

use crate::fault::TreeRunFault;
use crate::union_length::union_length;
use raw_array::RawArray;
use raw_schema::RawSchema;
use std::alloc::Global;
use union_cols::{UnionCol, UnionTyped, check_union, read_union};
use unit_pass::NoMemory;
use value_text::{BoundedText, push_numbered};

/// A line for each item of a union's array under its schema, or the first fault: of the schema, and then of the array ("Arrow
/// Columnar Format", "Union Layout").
pub(crate) fn union_text(
    alloc: Global,
    schema: &RawSchema,
    array: &RawArray,
) -> Result<Vec<u8>, TreeRunFault>
    ensures text { IfOk result (λ text. UnionAnswer schema.now array.now (Text text.items)) }
    ensures fault { IfErr result (λ fault. (fault ≡ TreeRunFault.NoMemory) ⊎ UnionAnswer schema.now array.now (Fault fault)) }
{
    let typed = match read_union(alloc, schema) {
        Ok(typed) => typed,
        Err(fault) => return Err(TreeRunFault::from(fault)),
    };
    match check_union(&typed, array) {
        Ok(()) => Ok(measured_lines(alloc, &typed, array)?),
        Err(fault) => Err(TreeRunFault::from(fault)),
    }
}

/// The text of a union's items. Its length is found first.
fn measured_lines(alloc: Global, typed: &UnionTyped, array: &RawArray) -> Result<Vec<u8>, NoMemory>
    requires types { UnionTypedOk (union_of typed.now) }
    requires lawful { UnionOk (union_of typed.now) array.now }
    ensures { IfOk result (λ text. text.items ≡ items_text (union_items (union_of typed.now) array.now)) }
{
    let length = union_length(alloc, typed, array)?;
    lines(alloc, &UnionCol::of(typed, array), length)
}

/// The text of a column's items, in room of this length.
fn lines(alloc: Global, col: &UnionCol<'_>, length: u32) -> Result<Vec<u8>, NoMemory>
    ensures { IfOk result (λ text. text.items ≡ items_text (union_items (kinds_in col.now) (array_in col.now))) }
{
    let mut text = BoundedText::new(alloc);
    text.take_room(length)?;
    text.push_bytes(b"ok\n")?;
    push_items(&mut text, col)?;
    Ok(text.into_bytes())
}

/// The number of a union's items.
pub(crate) fn count_items(col: &UnionCol<'_>) -> u64
    ensures count { result ≡ items (members_of (array_in col.now)) }
    ensures small { result < 2 ^ 63 }
{
    col.len() as u64
}

/// Appends a line for each item of a union. A line has two bytes at least, so very many items are refused at once.
fn push_items(text: &mut BoundedText, col: &UnionCol<'_>) -> Result<(), NoMemory>
    ensures { OnOk result (text.new ≡ text.old ++ flat_map numbered_line (map numbered_item (union_items (kinds_in col.now) (array_in col.now)))) }
{
    let count = count_items(col);
    text.has_room(count * 2)?;
    for i in 0..count {
        push_item(text, col, i)?;
    }
    Ok(())
}

/// Appends the line of item `i` of a union.
fn push_item(text: &mut BoundedText, col: &UnionCol<'_>, i: u64) -> Result<(), NoMemory>
    requires inside { i < items (members_of (array_in col.now)) }
    requires small { i < 2 ^ 63 }
    ensures { OnOk result (text.new ≡ text.old ++ numbered_line (numbered_item (union_item (kinds_in col.now) (array_in col.now) i))) }
{
    let (child, place) = col.item(i as i64);
    push_numbered(text, u64::from(col.id(i as i64)), &child, place as u64)
}
