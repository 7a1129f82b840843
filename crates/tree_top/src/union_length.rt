//! How long the text of a union's items is, found before any text is made.
ghost use Rattle.std.specs.Prelude.{◌≡◌, ◌<◌, ◌^◌, IfOk, length};
ghost use Rattle.layout_rules.specs.promise.Layout.{items};
ghost use Rattle.raw_array.specs.promise.Members.{members_of};
ghost use Rattle.union_cols.specs.UnionAnswers.{union_of};
ghost use Rattle.union_cols.specs.UnionCols.{array_in, kinds_in};
ghost use Rattle.union_cols.specs.UnionRules.{UnionOk};
ghost use Rattle.union_cols.specs.promise.Unions.{union_items, union_value};
ghost use Rattle.union_cols.specs.Unions.{UnionTypedOk, union_item};
ghost use Rattle.value_text.specs.Lengths.{TellsKids, capped, text_length};
ghost use Rattle.data_types.specs.NumberedTexts.{numbered_line};
ghost use Rattle.tree_top.specs.promise.UnionAnswer.{items_text};
ghost use Rattle.tree_top.specs.AnswerParts.{numbered_item};

use crate::union::count_items;
use raw_array::RawArray;
use std::alloc::Global;
use union_cols::{UnionCol, UnionTyped, union_holds};
use unit_pass::NoMemory;
use value_text::{Lengths, measured_lengths, plus, whole_length};

/// The length in bytes of the text of a union's items, where 2^31 + 1 stands for each above 2^31. Each item of each child is measured
/// once, however often it is written.
pub(crate) fn union_length(
    alloc: Global,
    typed: &UnionTyped,
    array: &RawArray,
) -> Result<u32, NoMemory>
    requires types { UnionTypedOk (union_of typed.now) }
    requires lawful { UnionOk (union_of typed.now) array.now }
    ensures { IfOk result (λ count. count ≡ capped (length (items_text (union_items (union_of typed.now) array.now)))) }
{
    let kids = kid_lengths(alloc, typed, array)?;
    text_length(alloc, &UnionCol::of(typed, array), &kids)
}

/// The lengths of the texts of the items of each child.
fn kid_lengths(
    alloc: Global,
    typed: &UnionTyped,
    array: &RawArray,
) -> Result<Vec<Lengths>, NoMemory>
    requires types { UnionTypedOk (union_of typed.now) }
    requires lawful { UnionOk (union_of typed.now) array.now }
    ensures { IfOk result (λ kids. TellsKids kids.items (union_of typed.now).kids array.now (length (union_of typed.now).kids)) }
{
    union_holds(typed, array);
    let mut kids = Vec::new(alloc);
    for k in 0..typed.kids.len() {
        kids.push(measured_lengths(alloc, &typed.kids[k], array.child(k))?)?;
    }
    Ok(kids)
}

/// The same of a union whose children's items have texts of these lengths.
fn text_length(alloc: Global, col: &UnionCol<'_>, kids: &[Lengths]) -> Result<u32, NoMemory>
    requires { TellsKids kids.now (kinds_in col.now).kids (array_in col.now) (length (kinds_in col.now).kids) }
    ensures { IfOk result (λ count. count ≡ capped (length (items_text (union_items (kinds_in col.now) (array_in col.now))))) }
{
    let mut room = Vec::new(alloc);
    let mut sum = 3;
    for i in 0..count_items(col) {
        sum = plus(sum, line_length(col, kids, i, &mut room)?);
    }
    Ok(sum)
}

/// The length of the line of item `i`, whose number is made in this room.
fn line_length(
    col: &UnionCol<'_>,
    kids: &[Lengths],
    i: u64,
    room: &mut Vec<u8>,
) -> Result<u32, NoMemory>
    requires kids { TellsKids kids.now (kinds_in col.now).kids (array_in col.now) (length (kinds_in col.now).kids) }
    requires inside { i < items (members_of (array_in col.now)) }
    requires small { i < 2 ^ 63 }
    ensures { IfOk result (λ count. count
        ≡ capped (length (numbered_line (numbered_item (union_item (kinds_in col.now) (array_in col.now) i))))) }
{
    let id = whole_length(i128::from(col.id(i as i64)), room)?;
    Ok(plus(plus(id, 2), value_length(col, kids, i)))
}

/// The length of the text of item `i`'s value.
#[tactic(auto, using(value_text::proofs::LengthSums::known_lengths))]
fn value_length(col: &UnionCol<'_>, kids: &[Lengths], i: u64) -> u32
    requires kids { TellsKids kids.now (kinds_in col.now).kids (array_in col.now) (length (kinds_in col.now).kids) }
    requires inside { i < items (members_of (array_in col.now)) }
    requires small { i < 2 ^ 63 }
    ensures { result ≡ text_length (union_value (kinds_in col.now) (array_in col.now) i) }
{
    let (_, place) = col.item(i as i64);
    kids[col.child_number(i as i64)].at(place as usize)
}
