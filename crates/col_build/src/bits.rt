//! Bits, added one by one: eight a byte, the least significant first ("Arrow Columnar Format", "Validity bitmaps").
ghost use Rattle.std.specs.Prelude.{◌≡◌, ◌≢◌, ◌+◌, ◌*◌, ◌/◌, ◌%◌, ◌^◌, ◌<◌, ◌≤◌, ◌++◌, ◌∷◌, [], Bool, true, false, List, length, replicate, IsOk, OnOk, OnErr, vec_len};
ghost use Rattle.std.specs.Prelude.{vec_capacity};
ghost use Rattle.col_build.specs.promise.Encoding.{bit_bytes};
ghost use Rattle.col_build.specs.Encoding.{most_values};
ghost use Rattle.col_build.specs.Times.{AddsBits, ShowsBits};

use unit_pass::NoMemory;

/// Adds a bit behind this many.
#[inline(always)]
pub(crate) fn push_bit(bits: &mut Vec<u8>, count: usize, flag: bool) -> Result<(), NoMemory>
    requires shows { (flags : List Bool) × (length flags ≡ count) × (bits.old.items ≡ bit_bytes flags) }
    ensures added { OnOk result
        ((flags : List Bool) → length flags ≡ count → bits.old.items ≡ bit_bytes flags → bits.new.items ≡ bit_bytes (flags ++ flag ∷ [])) }
    ensures same { OnErr result (bits.new.items ≡ bits.old.items) }
    ensures room { (count % 8 ≡ 0 → vec_len bits.old < vec_capacity bits.old) → IsOk result }
    ensures len { vec_len bits.new ≤ vec_len bits.old + 1 }
    ensures capacity { vec_capacity bits.old ≤ vec_capacity bits.new }
{
    let place = count % 8;
    if place == 0 {
        match bits.push(u8::from(flag)) {
            Ok(()) => return Ok(()),
            Err(_) => return Err(NoMemory),
        }
    }
    if flag {
        bits[count / 8] += 1u8 << place;
    }
    Ok(())
}

/// Makes this many bits that are set, and a clear one behind them.
pub(crate) fn fill_to_clear(bits: &mut Vec<u8>, count: usize)
    requires none { bits.old.items ≡ [] }
    requires room { count / 8 + 1 ≤ vec_capacity bits.old }
    ensures { bits.new.items ≡ bit_bytes (replicate count true ++ false ∷ []) }
{
    match bits.resize(count / 8, 0xff) {
        Ok(()) => {}
        Err(_) => unreachable!(),
    }
    match bits.push((1u8 << (count % 8)) - 1) {
        Ok(()) => {}
        Err(_) => unreachable!(),
    }
}

/// Adds a bit behind this many, this many times, one by one.
fn push_each(bits: &mut Vec<u8>, count: usize, flag: bool, times: usize)
    requires shows { ShowsBits count bits.old.items }
    requires few { count + times ≤ 2 ^ 41 }
    requires room { vec_len bits.old + times ≤ vec_capacity bits.old }
    ensures added { AddsBits count flag times bits.old.items bits.new.items }
    ensures len { vec_len bits.new ≤ vec_len bits.old + times }
    ensures capacity { vec_capacity bits.old ≤ vec_capacity bits.new }
{
    for i in 0..times {
        match push_bit(bits, count + i, flag) {
            Ok(()) => {}
            Err(_) => unreachable!(),
        }
    }
}

/// Appends a byte this many times, for which there is room.
fn append_all(bytes: &mut Vec<u8>, byte: u8, times: usize)
    requires { vec_len bytes.old + times ≤ vec_capacity bytes.old }
    ensures items { bytes.new.items ≡ bytes.old.items ++ replicate times byte }
    ensures len { vec_len bytes.new ≤ vec_len bytes.old + times }
    ensures capacity { vec_capacity bytes.old ≤ vec_capacity bytes.new }
{
    match bytes.resize(bytes.len() + times, byte) {
        Ok(()) => {}
        Err(_) => unreachable!(),
    }
}

/// Adds a bit behind whole bytes of them, for this many bytes.
fn push_whole(bits: &mut Vec<u8>, count: usize, flag: bool, whole: usize)
    requires shows { ShowsBits count bits.old.items }
    requires even { whole ≢ 0 → count % 8 ≡ 0 }
    requires room { vec_len bits.old + whole ≤ vec_capacity bits.old }
    ensures added { AddsBits count flag (8 * whole) bits.old.items bits.new.items }
    ensures len { vec_len bits.new ≤ vec_len bits.old + whole }
    ensures capacity { vec_capacity bits.old ≤ vec_capacity bits.new }
{
    if whole == 0 {
        return;
    }
    let byte = if flag { 0xff } else { 0 };
    append_all(bits, byte, whole);
}

/// Adds a bit behind this many, this many times, by whole bytes where they are.
pub(crate) fn push_bits(bits: &mut Vec<u8>, count: usize, flag: bool, times: usize)
    requires shows { ShowsBits count bits.old.items }
    requires few { count + times ≤ most_values }
    requires room { vec_len bits.old + (times / 8 + 16) ≤ vec_capacity bits.old }
    ensures { AddsBits count flag times bits.old.items bits.new.items }
{
    let first = times.min((8 - count % 8) % 8);
    let whole = (times - first) / 8;
    let last = (times - first) % 8;
    push_each(bits, count, flag, first);
    push_whole(bits, count + first, flag, whole);
    push_each(bits, count + first + 8 * whole, flag, last);
}
