//! The totals of some items of a column.
ghost use Rattle.std.specs.Prelude.{◌≡◌, ◌≢◌, ◌-◌, ◌<◌, ◌≤◌, ◌^◌, ℕ, ℤ, IfNone, IfSome, if◌then◌else◌};
ghost use Rattle.data_types.specs.promise.Value.{Null, Whole};
ghost use Rattle.data_types.specs.declared.storage.Storage.TheVariants as storages;
ghost use Rattle.arr_import.specs.Cols.{window_of};
ghost use Rattle.arr_import.specs.Plain.{IsItemThere, is_valid_in, storage_in, valid_item};
ghost use Rattle.arr_import.specs.Window.{Window, item_at};
ghost use Rattle.total_stage.specs.Totals.{AreTotals, IsSmallItem, ShowsNumbers, numbers_in};

use crate::numbers::Totals;
use arr_import::{Col, Plain};
use data_types::Storage;

/// An item that is a number.
#[inline(always)]
pub(crate) fn number_at(items: &Col<'_>, i: u32) -> Option<i128>
    requires { i < (window_of items.now).count }
    ensures some { IfSome result (λ number. item_at (window_of items.now) i ≡ Whole number) }
    ensures none { IfNone result ((number : ℤ) → item_at (window_of items.now) i ≢ Whole number) }
{
    items.whole(i64::from(i))
}

/// An item that is a number, of a column that is read by its places.
#[inline(always)]
fn number_in(bits: u8, signed: bool, items: &Plain<'_>, i: u32) -> Option<i128>
    requires there { IsItemThere items.now i }
    requires stored { storage_in items.now ≡ storages.Wholes bits signed }
    ensures some { IfSome result (λ number. (if is_valid_in items.now i then valid_item items.now i else Null) ≡ Whole number) }
    ensures none { IfNone result ((number : ℤ) → (if is_valid_in items.now i then valid_item items.now i else Null) ≢ Whole number) }
{
    let i = u64::from(i);
    if !items.is_valid(i) {
        return None;
    }
    Some(items.whole(bits, signed, i))
}

/// The totals of the numbers from one to another, of a column of whole numbers of this many bits that is read by its places.
#[inline(always)]
fn place_totals(bits: u8, signed: bool, items: &Plain<'_>, from: u32, to: u32) -> Totals
    requires order { from ≤ to }
    requires few { to - from ≤ 2 ^ 30 }
    requires stored { storage_in items.now ≡ storages.Wholes bits signed }
    requires shown { (w : Window) × ShowsNumbers items.now w to }
    ensures { (w : Window) → ShowsNumbers items.now w to → AreTotals result (numbers_in w from (to - from)) }
{
    let mut totals = Totals::none();
    for i in from..to {
        if let Some(number) = number_in(bits, signed, items, i) {
            totals.add(number);
        }
    }
    totals
}

/// The totals of the numbers from one to another, each item looked up by itself.
fn item_totals(items: &Col<'_>, from: u32, to: u32) -> Totals
    requires order { from ≤ to }
    requires inside { to ≤ (window_of items.now).count }
    requires few { to - from ≤ 2 ^ 30 }
    requires small { (i : ℕ) → i < (window_of items.now).count → IsSmallItem (item_at (window_of items.now) i) }
    ensures { AreTotals result (numbers_in (window_of items.now) from (to - from)) }
{
    let mut totals = Totals::none();
    for i in from..to {
        if let Some(number) = number_at(items, i) {
            totals.add(number);
        }
    }
    totals
}

/// The totals of the numbers among the items from one number to another. A null is no number.
pub(crate) fn window_totals(items: &Col<'_>, from: u32, to: u32) -> Totals
    requires order { from ≤ to }
    requires inside { to ≤ (window_of items.now).count }
    requires few { to - from ≤ 2 ^ 30 }
    requires small { (i : ℕ) → i < (window_of items.now).count → IsSmallItem (item_at (window_of items.now) i) }
    ensures { AreTotals result (numbers_in (window_of items.now) from (to - from)) }
{
    let Some(places) = items.plain() else {
        return item_totals(items, from, to);
    };
    match places.storage() {
        Storage::Wholes {
            bits: 32,
            signed: true,
        } => place_totals(32, true, &places, from, to),
        Storage::Wholes {
            bits: 64,
            signed: true,
        } => place_totals(64, true, &places, from, to),
        Storage::Wholes {
            bits: 128,
            signed: true,
        } => place_totals(128, true, &places, from, to),
        _ => item_totals(items, from, to),
    }
}
