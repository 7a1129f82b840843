//! The places of columns by their names, and names that are there twice.
ghost use Rattle.std.specs.Prelude.{◌≡◌, ◌<◌, ℕ, List, [], None, Ok, IfOk, IfSome, IfNone, length, map, is_none, true, false};
ghost use Rattle.std.specs.Borrow.{Bor};
ghost use Rattle.std.specs.List.{list_any};
ghost use Rattle.csv_model.specs.promise.Header.{first_twice, is_among};
ghost use Rattle.data_types.specs.ColumnView.{column_of};
ghost use Rattle.data_types.specs.Parts.{AreWithin};
ghost use Rattle.stage_model.specs.promise.Typing.{place_if, places_of};
ghost use Rattle.stage_model.specs.Typing.{has_twice, others};
ghost use Rattle.stage_plan.specs.PlanWords.{has_text, place_among, texts};

use data_types::ColumnType;
use std::alloc::Global;
use std::collections::{HashMap, HashSet};
use unit_pass::{Name, NoMemory};

/// The place of the first column of each name.
fn places_by_name<'a>(
    alloc: Global,
    columns: &'a [ColumnType],
) -> Result<HashMap<&'a [u8], usize>, NoMemory>
    ensures { IfOk result (λ known. (name : Bor (List ℕ)) → place_among known name.now ≡ place_if (map column_of columns.now) name.now) }
{
    let mut known = HashMap::new(alloc);
    let mut place = columns.len();
    while place > 0 {
        place -= 1;
        known.insert(columns[place].name.as_slice(), place)?;
    }
    Ok(known)
}

/// The place that is known of a name.
fn place_of(known: &HashMap<&[u8], usize>, name: &[u8]) -> Option<usize>
    ensures { result ≡ place_among known.now name.now }
{
    known.get(name).copied()
}

/// The places of the columns of names, or none where a column isn't there.
pub(crate) fn places_of(
    alloc: Global,
    columns: &[ColumnType],
    names: &[Name],
) -> Result<Option<Vec<usize>>, NoMemory>
    ensures found { IfOk result (λ places. IfSome places (λ ps. ps.items ≡ places_of (map column_of columns.now) names.now)) }
    ensures all { IfOk result (λ places. IfSome places (λ _. list_any (λ name. is_none (place_if (map column_of columns.now) name)) names.now ≡ false)) }
    ensures none { IfOk result (λ places. IfNone places (list_any (λ name. is_none (place_if (map column_of columns.now) name)) names.now ≡ true)) }
{
    let known = places_by_name(alloc, columns)?;
    let mut places = Vec::new(alloc);
    for name in names {
        let Some(place) = place_of(&known, name.as_slice()) else {
            return Ok(None);
        };
        places.push(place)?;
    }
    Ok(Some(places))
}

/// The other numbers below `count`, in order.
#[tactic(auto, using(crate::proofs::PlanLists::others_more))]
pub(crate) fn others(alloc: Global, places: &[usize], count: usize) -> Result<Vec<usize>, NoMemory>
    ensures are { IfOk result (λ rest. rest.items ≡ others places.now count) }
    ensures within { IfOk result (λ rest. AreWithin count rest.items) }
{
    let mut rest = Vec::new(alloc);
    for place in 0..count {
        if !places.contains(&place) {
            rest.push(place)?;
        }
    }
    Ok(rest)
}

/// The place of the first name that is one of those before it. Where there is none, all names are known.
pub fn first_twice<'a>(
    names: &[&'a [u8]],
    known: &mut HashSet<&'a [u8]>,
) -> Result<Option<usize>, NoMemory>
    requires { known.old.keys ≡ [] }
    ensures place { IfOk result (λ place. place ≡ first_twice (texts names.now)) }
    ensures within { IfOk result (λ place. IfSome place (λ p. p < length names.now)) }
    ensures known { result ≡ Ok None → (name : List ℕ) → has_text known.new.keys name ≡ is_among (texts names.now) name }
{
    for place in 0..names.len() {
        if !known.insert(names[place])? {
            return Ok(Some(place));
        }
    }
    Ok(None)
}

/// Whether a name is one of those before it.
pub(crate) fn has_twice(alloc: Global, names: &[&[u8]]) -> Result<bool, NoMemory>
    ensures { IfOk result (λ twice. twice ≡ has_twice (texts names.now)) }
{
    let mut known = HashSet::new(alloc);
    Ok(first_twice(names, &mut known)?.is_some())
}
