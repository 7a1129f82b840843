//! Validity bits, which begin with the first null ("Arrow Columnar Format", "Validity bitmaps").
ghost use Rattle.std.specs.Prelude.{◌≡◌, ◌≢◌, ◌+◌, ◌/◌, ◌≤◌, ◌++◌, ◌∷◌, [], Bool, List, true, false, replicate, OnErr, OnOk, IfErr, vec_len, vec_capacity};
ghost use Rattle.data_types.specs.promise.Value.{Value};
ghost use Rattle.col_build.specs.promise.Encoding.{bit_bytes, if_some, validity_of};
ghost use Rattle.data_types.specs.promise.Value.{is_null};
ghost use Rattle.col_build.specs.Holding.{HasValidity};
ghost use Rattle.col_build.specs.declared.item.PushFault.TheVariants as faults;

use crate::PushFault;
use crate::bits::{fill_to_clear, push_bit};
use unit_pass::NoMemory;

/// Makes room for the bit of an item behind this many, this many of them nulls.
#[inline(always)]
pub(crate) fn make_room(
    validity: &mut Vec<u8>,
    count: usize,
    nulls: usize,
    null: bool,
) -> Result<(), PushFault>
    ensures items { validity.new.items ≡ validity.old.items }
    ensures first { OnOk result (nulls ≡ 0 → null ≡ true → vec_len validity.new + (count / 8 + 1) ≤ vec_capacity validity.new) }
    ensures next { OnOk result (nulls ≢ 0 → vec_len validity.new + 1 ≤ vec_capacity validity.new) }
    ensures why { IfErr result (λ fault. fault ≡ faults.NoMemory) }
{
    if nulls == 0 && !null {
        return Ok(());
    }
    let more = if nulls != 0 { 1 } else { count / 8 + 1 };
    match validity.reserve(more) {
        Ok(()) => Ok(()),
        Err(_) => Err(PushFault::NoMemory),
    }
}

/// Adds the bit of an item behind this many, for which there is room.
#[inline(always)]
pub(crate) fn push_validity(validity: &mut Vec<u8>, count: usize, nulls: usize, null: bool)
    requires has { (values : List Value) × HasValidity validity.old.items count nulls values }
    requires first { nulls ≡ 0 → null ≡ true → vec_len validity.old + (count / 8 + 1) ≤ vec_capacity validity.old }
    requires next { nulls ≢ 0 → vec_len validity.old + 1 ≤ vec_capacity validity.old }
    ensures { (values : List Value) (value : Value) → HasValidity validity.old.items count nulls values → is_null value ≡ null
        → if_some validity.new.items ≡ validity_of (values ++ value ∷ []) }
{
    if nulls == 0 {
        if null {
            fill_to_clear(validity, count);
        }
        return;
    }
    match push_bit(validity, count, !null) {
        Ok(()) => {}
        Err(_) => unreachable!(),
    }
}

/// Makes the bits of this many items that are valid, and of a null behind them.
#[inline(never)]
fn begin_validity(validity: &mut Vec<u8>, count: usize) -> Result<(), NoMemory>
    requires none { validity.old.items ≡ [] }
    ensures made { OnOk result (validity.new.items ≡ bit_bytes (replicate count true ++ false ∷ [])) }
    ensures kept { OnErr result (validity.new.items ≡ validity.old.items) }
{
    match validity.reserve(count / 8 + 1) {
        Ok(()) => {}
        Err(_) => return Err(NoMemory),
    }
    fill_to_clear(validity, count);
    Ok(())
}

/// Adds the bit of an item behind this many, this many of them nulls. Bits begin with the first null.
#[inline(always)]
pub(crate) fn add_validity(
    validity: &mut Vec<u8>,
    count: usize,
    nulls: usize,
    null: bool,
) -> Result<(), NoMemory>
    requires has { (values : List Value) × HasValidity validity.old.items count nulls values }
    ensures added { OnOk result ((values : List Value) (value : Value) → HasValidity validity.old.items count nulls values → is_null value ≡ null
        → if_some validity.new.items ≡ validity_of (values ++ value ∷ [])) }
    ensures kept { OnErr result (validity.new.items ≡ validity.old.items) }
{
    if nulls != 0 {
        return push_bit(validity, count, !null);
    }
    if null {
        return begin_validity(validity, count);
    }
    Ok(())
}
