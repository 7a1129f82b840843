//! The names of columns: that they are text, that none is there twice, and that entries know them.
ghost use Rattle.std.specs.Prelude.{◌≡◌, ◌≢◌, ◌≤◌, ◌<◌, ℕ, List, length, IfErr, OnOk, IfSome, None, Some};
ghost use Rattle.csv_model.specs.promise.Header.{is_among, most_columns};
ghost use Rattle.csv_model.specs.Header.{first_not_text, first_unknown, names_fault};
ghost use Rattle.stage_plan.specs.PlanWords.{has_text, texts};
ghost use Rattle.stage_plan.specs.promise.Entries.{entries_of};

use col_build::is_text;
use csv_model::HeaderFault;
use stage_plan::{TypeEntry, first_twice};
use std::alloc::Global;
use std::collections::HashSet;
use unit_pass::NoMemory;

/// Refuses names of which one isn't text or is there twice, and entries of which one has no such name.
pub(crate) fn check_names(
    alloc: Global,
    names: &[&[u8]],
    entries: &[TypeEntry],
) -> Result<(), HeaderFault>
    requires { length names.now ≤ most_columns }
    ensures none { OnOk result (names_fault (entries_of entries.now) (texts names.now) ≡ None) }
    ensures fault { IfErr result (λ f. f ≢ HeaderFault.NoMemory → names_fault (entries_of entries.now) (texts names.now) ≡ Some f) }
{
    if let Some(place) = first_not_text(names) {
        let column = place as u32 + 1;
        return Err(HeaderFault::NotText { column });
    }
    let mut known = HashSet::new(alloc);
    if let Some(place) = first_twice(names, &mut known)? {
        let column = place as u32 + 1;
        return Err(HeaderFault::Twice { column });
    }
    if let Some(place) = first_unknown(entries, &known) {
        let entry = place as u64 + 1;
        return Err(HeaderFault::Unknown { entry });
    }
    Ok(())
}

/// The place of the first name that isn't UTF-8.
fn first_not_text(names: &[&[u8]]) -> Option<usize>
    ensures place { result ≡ first_not_text (texts names.now) }
    ensures within { IfSome result (λ place. place < length names.now) }
{
    for place in 0..names.len() {
        if !is_text(names[place]) {
            return Some(place);
        }
    }
    None
}

/// The place of the first entry whose name isn't known.
fn first_unknown(entries: &[TypeEntry], known: &HashSet<&[u8]>) -> Option<usize>
    ensures place { (names : List (List ℕ)) → ((name : List ℕ) → has_text known.now.keys name ≡ is_among names name)
        → result ≡ first_unknown (entries_of entries.now) names }
    ensures within { IfSome result (λ place. place < length entries.now) }
{
    for place in 0..entries.len() {
        if !known.contains(entries[place].name.as_slice()) {
            return Some(place);
        }
    }
    None
}
