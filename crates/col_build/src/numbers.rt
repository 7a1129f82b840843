//! Numbers of a width in bytes, appended ("Arrow Columnar Format", "Byte order" and "Fixed-size primitive layout").
ghost use Rattle.std.specs.Prelude.{◌≡◌, ◌≢◌, ◌+◌, ◌*◌, ◌^◌, ◌<◌, ◌≤◌, ◌++◌, ℤ, pos, true, IsTrue, Option, None, nat_lt, vec_capacity, vec_len};
ghost use Rattle.data_types.specs.promise.Packed.{le_bytes, stored};
ghost use Rattle.data_types.specs.Packed.{IsWidth};
ghost use Rattle.data_types.specs.promise.FieldText.{in_range};
ghost use Rattle.col_build.specs.Shapes.{Stored, past, range_fault};

use crate::PushFault;

/// Appends bytes.
#[inline(always)]
pub(crate) fn append(bytes: &mut Vec<u8>, more: &[u8]) -> Result<(), PushFault>
    ensures { Stored result bytes.old.items bytes.new.items None more.now }
{
    match bytes.extend_from_slice(more) {
        Ok(()) => Ok(()),
        Err(_) => Err(PushFault::NoMemory),
    }
}

/// Appends the lowest bytes of a number, this many of them.
#[inline(always)]
pub(crate) fn append_number(bytes: &mut Vec<u8>, width: usize, number: u64) -> Result<(), PushFault>
    requires width { IsWidth width }
    requires narrow { width ≢ 16 }
    ensures { Stored result bytes.old.items bytes.new.items None (le_bytes width number) }
{
    match width {
        1 => append(bytes, &[(number % 0x100) as u8]),
        2 => append(bytes, &((number % 0x1_0000) as u16).to_le_bytes()),
        4 => append(bytes, &((number % 0x1_0000_0000) as u32).to_le_bytes()),
        _ => append(bytes, &number.to_le_bytes()),
    }
}

/// Appends the eight bytes of a number, for which there is room.
#[inline(always)]
fn append_eight(bytes: &mut Vec<u8>, number: u64)
    requires { vec_len bytes.old + 8 ≤ vec_capacity bytes.old }
    ensures items { bytes.new.items ≡ bytes.old.items ++ le_bytes 8 number }
    ensures len { vec_len bytes.new ≡ vec_len bytes.old + 8 }
    ensures capacity { vec_capacity bytes.old ≤ vec_capacity bytes.new }
{
    match bytes.extend_from_slice(&number.to_le_bytes()) {
        Ok(()) => {}
        Err(_) => unreachable!(),
    }
}

/// Appends the sixteen bytes of a number, by its halves.
#[inline(always)]
fn append_sixteen(bytes: &mut Vec<u8>, number: u128) -> Result<(), PushFault>
    ensures { Stored result bytes.old.items bytes.new.items None (le_bytes 16 number) }
{
    let low = (number % (1 << 64)) as u64;
    let high = (number >> 64) as u64;
    let Ok(()) = bytes.reserve(16) else {
        return Err(PushFault::NoMemory);
    };
    append_eight(bytes, low);
    append_eight(bytes, high);
    Ok(())
}

/// Two to the power of the bits that a number of a width has beside its sign.
#[inline(always)]
fn past_largest(width: usize, signed: bool) -> i128
    requires width { IsWidth width }
    requires narrow { width ≢ 16 }
    ensures { result ≡ pos (past (8 * width) signed) }
{
    match width {
        1 if signed => 0x80,
        1 => 0x100,
        2 if signed => 0x8000,
        2 => 0x1_0000,
        4 if signed => 0x8000_0000,
        4 => 0x1_0000_0000,
        _ if signed => 0x8000_0000_0000_0000,
        _ => 0x1_0000_0000_0000_0000,
    }
}

/// Whether a number is in the range of a width.
#[inline(always)]
fn fits(number: i128, width: usize, signed: bool) -> bool
    requires width { IsWidth width }
    requires narrow { width ≢ 16 }
    ensures { result ≡ in_range (8 * width) signed number }
{
    let past = past_largest(width, signed);
    number < past && if signed { -past <= number } else { 0 <= number }
}

/// Appends a whole number that is in the range of its width.
#[inline(always)]
fn append_fitting(
    bytes: &mut Vec<u8>,
    width: usize,
    signed: bool,
    number: i128,
) -> Result<(), PushFault>
    requires width { IsWidth width }
    requires narrow { width ≢ 16 }
    ensures { Stored result bytes.old.items bytes.new.items (range_fault (in_range (8 * width) signed number)) (le_bytes width (stored width number)) }
{
    if !fits(number, width, signed) {
        return Err(PushFault::OutOfRange);
    }
    let low = (number.cast_unsigned() % (1 << 64)) as u64;
    append_number(bytes, width, low)
}

/// Appends a whole number that is in the range of its width. Sixteen bytes hold each number. Each width has code of its own,
/// so that its bounds are constants.
#[inline(always)]
pub(crate) fn append_whole(
    bytes: &mut Vec<u8>,
    width: usize,
    signed: bool,
    number: i128,
) -> Result<(), PushFault>
    requires width { IsWidth width }
    requires widest { width ≡ 16 → IsTrue signed }
    ensures { Stored result bytes.old.items bytes.new.items (range_fault (in_range (8 * width) signed number)) (le_bytes width (stored width number)) }
{
    match width {
        1 => append_fitting(bytes, 1, signed, number),
        2 => append_fitting(bytes, 2, signed, number),
        4 => append_fitting(bytes, 4, signed, number),
        8 => append_fitting(bytes, 8, signed, number),
        _ => append_sixteen(bytes, number.cast_unsigned()),
    }
}

/// Appends the bits of a float that has no others.
pub(crate) fn append_bits(bytes: &mut Vec<u8>, width: usize, number: u64) -> Result<(), PushFault>
    requires width { IsWidth width }
    requires narrow { width ≢ 16 }
    ensures { Stored result bytes.old.items bytes.new.items (range_fault (nat_lt number (2 ^ (8 * width)))) (le_bytes width number) }
{
    if width < 8 && number >> (8 * width) != 0 {
        return Err(PushFault::OutOfRange);
    }
    append_number(bytes, width, number)
}
