//! Where the items of a dictionary are once its own dictionaries are followed. Each entry of each dictionary is looked up once, however
//! many items have it.
ghost use Rattle.std.specs.Prelude.{◌≡◌, ◌+◌, ◌<◌, ◌++◌, ◌^◌, IfOk, OnOk};
ghost use Rattle.arr_import.specs.Cols.{window_of};
ghost use Rattle.arr_import.specs.Indexing.{entries_of, shown_by};
ghost use Rattle.arr_import.specs.Window.{item_at};
ghost use Rattle.data_types.specs.promise.ValueTexts.{value_text};
ghost use Rattle.value_text.specs.Homes.{AreFound, AreHomes, IsAt, place_at};

use crate::bounded::BoundedText;
use crate::value::{count_items, number, push_value};
use arr_import::{Col, Indexed};
use std::alloc::Global;
use unit_pass::NoMemory;

/// Where the items of a column are among those of another.
#[derive(Drop)]
enum Places {
    /// Each is the other's of the same number.
    Same,
    /// For each the number of the other's; none where it is null.
    Own(Vec<Option<u64>>),
}

/// The items of a column as those of one without a dictionary.
#[derive(Drop)]
pub(crate) struct Homes<'a> {
    items: Col<'a>,
    places: Places,
}

impl<'a> Homes<'a> {
    /// The place of item `k`; none where it is null.
    #[inline(always)]
    fn at(&self, k: u64) -> Option<u64>
        requires { AreFound self.now.places (k + 1) }
        ensures { result ≡ place_at self.now.places k }
    {
        match &self.places {
            Places::Same => Some(k),
            Places::Own(places) => places[k as usize],
        }
    }
}

/// Where the items of a column are.
#[tactic(auto, using(crate::proofs::Entries::entries))]
pub(crate) fn homes_of<'a>(alloc: Global, col: &Col<'a>) -> Result<Homes<'a>, NoMemory>
    ensures { IfOk result (λ homes. AreHomes homes (window_of col.now)) }
{
    match col.indexed() {
        Some(indexed) => {
            let entries = homes_of(alloc, indexed.entries())?;
            entry_homes(alloc, col, &indexed, entries)
        }
        None => Ok(Homes {
            items: *col,
            places: Places::Same,
        }),
    }
}

/// Where the items of a column are whose dictionary's are there.
#[tactic(auto, using(crate::proofs::Entries::entries))]
fn entry_homes<'a>(
    alloc: Global,
    col: &Col<'a>,
    indexed: &Indexed<'a>,
    entries: Homes<'a>,
) -> Result<Homes<'a>, NoMemory>
    requires shown { shown_by indexed.now ≡ window_of col.now }
    requires entries { AreHomes entries (entries_of indexed.now) }
    ensures { IfOk result (λ homes. AreHomes homes (window_of col.now)) }
{
    let count = count_items(col);
    let mut places = Vec::with_capacity(alloc, count as usize)?;
    for i in 0..count {
        places.push(entry_place(indexed, &entries, i))?;
    }
    Ok(Homes {
        items: entries.items,
        places: Places::Own(places),
    })
}

/// Where item `i` of a column is whose dictionary's are there.
#[inline(always)]
#[tactic(auto, using(crate::proofs::Entries::entries))]
fn entry_place(indexed: &Indexed<'_>, entries: &Homes<'_>, i: u64) -> Option<u64>
    requires entries { AreHomes entries.now (entries_of indexed.now) }
    requires inside { i < (shown_by indexed.now).count }
    requires small { i < 2 ^ 63 }
    ensures { IsAt (window_of entries.now.items) result (item_at (shown_by indexed.now) i) }
{
    match indexed.index(number(i)) {
        Some(index) => entries.at(index),
        None => None,
    }
}

/// Appends the text of item `i` of a column whose dictionary's items are there.
#[inline(always)]
pub(crate) fn push_entry(
    text: &mut BoundedText,
    indexed: &Indexed<'_>,
    entries: &Homes<'_>,
    i: u64,
) -> Result<(), NoMemory>
    requires entries { AreHomes entries.now (entries_of indexed.now) }
    requires inside { i < (shown_by indexed.now).count }
    requires small { i < 2 ^ 63 }
    ensures { OnOk result (text.new ≡ text.old ++ value_text (item_at (shown_by indexed.now) i)) }
{
    count_items(&entries.items);
    match entry_place(indexed, entries, i) {
        Some(place) => push_value(text, &entries.items, place),
        None => text.push(b'~'),
    }
}
