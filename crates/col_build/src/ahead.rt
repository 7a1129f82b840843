//! What is made ahead of further items: bytes behind those of numbers, of narrow offsets and between them, which nothing
//! reads. An item that finds its place there is stored without a look at the vector's room.
ghost use Rattle.std.specs.Prelude.{◌≡◌, ◌^◌, ◌≢◌, ◌≤◌, ◌<◌, ◌+◌, ◌*◌, ◌++◌, Bool, true, OnOk, OnErr, length, replicate, take, vec_len};
ghost use Rattle.data_types.specs.promise.Packed.{le_bytes, stored};
ghost use Rattle.data_types.specs.Packed.{IsWidth};
ghost use Rattle.data_types.specs.promise.FieldText.{in_range};
ghost use Rattle.col_build.specs.Encoding.{most_values};
ghost use Rattle.col_build.specs.Holding.{HasEnd, ShapeOk, bytes_in, end_at, offsets_in};
ghost use Rattle.col_build.specs.Settled.{IsNarrow};

use crate::shape::Shape;
use unit_pass::NoMemory;

/// How many bytes are made ahead: so few that they are cleared by vectors, and not by a string instruction.
pub(crate) const AHEAD: usize = 1024;

/// The narrow offset behind this many items.
#[inline(always)]
pub(crate) fn last_end(offsets: &Vec<u8>, count: usize) -> usize
    requires { count * 4 + 4 ≤ vec_len offsets.now }
    ensures is { result ≡ end_at offsets.now.items count }
    ensures small { result < 2 ^ 32 }
{
    let at = count * 4;
    let four = [
        offsets[at],
        offsets[at + 1],
        offsets[at + 2],
        offsets[at + 3],
    ];
    u32::from_le_bytes(four) as usize
}

/// How many bytes this many items have by their narrow offsets, of which there may be none yet.
pub(crate) fn end_of(offsets: &Vec<u8>, count: usize) -> usize
    requires { HasEnd offsets.now.items count }
    ensures { result ≡ end_at offsets.now.items count }
{
    if offsets.is_empty() {
        return 0;
    }
    last_end(offsets, count)
}

/// Cuts what is made ahead of this many items.
#[inline(always)]
pub(crate) fn cut_ahead(shape: Shape, count: usize, offsets: &mut Vec<u8>, bytes: &mut Vec<u8>)
    requires ok { ShapeOk shape }
    requires few { count ≤ most_values }
    requires begun { IsNarrow shape → HasEnd offsets.old.items count }
    ensures bytes { bytes.new.items ≡ bytes_in shape count offsets.old.items bytes.old.items }
    ensures offsets { offsets.new.items ≡ offsets_in shape count offsets.old.items }
{
    match shape {
        Shape::Wholes { width, signed: _ } => bytes.truncate(count * width),
        Shape::Floats { width } => bytes.truncate(count * width),
        Shape::Between {
            wide: false,
            text: _,
        } => {
            bytes.truncate(end_of(offsets, count));
            offsets.truncate((count + 1) * 4);
        }
        _ => {}
    }
}

/// Makes zeros behind this many bytes, where the next items will be.
pub(crate) fn fill_ahead(bytes: &mut Vec<u8>, start: usize, width: usize) -> Result<(), NoMemory>
    requires start { start ≤ vec_len bytes.old }
    requires width { width ≤ 16 }
    ensures kept { take start bytes.new.items ≡ take start bytes.old.items }
    ensures place { OnOk result (start + width ≤ vec_len bytes.new) }
{
    let Ok(()) = bytes.reserve(width) else {
        return Err(NoMemory);
    };
    let room = bytes.capacity();
    let end = if room - start < AHEAD {
        room
    } else {
        start + AHEAD
    };
    match bytes.resize(end, 0) {
        Ok(()) => Ok(()),
        Err(_) => Err(NoMemory),
    }
}

/// Stores bytes in their place, which is there.
#[inline(always)]
fn put_at(bytes: &mut Vec<u8>, at: usize, more: &[u8])
    requires { at + length more.now ≤ vec_len bytes.old }
    ensures put { take (at + length more.now) bytes.new.items ≡ take at bytes.old.items ++ more.now }
    ensures len { vec_len bytes.new ≡ vec_len bytes.old }
{
    bytes[at..at + more.len()].copy_from_slice(more);
}

/// Stores the lowest bytes of a number in their place, this many of them.
#[inline(always)]
pub(crate) fn put_number(bytes: &mut Vec<u8>, at: usize, width: usize, number: u64)
    requires width { IsWidth width }
    requires narrow { width ≢ 16 }
    requires place { at + width ≤ vec_len bytes.old }
    ensures put { take (at + width) bytes.new.items ≡ take at bytes.old.items ++ le_bytes width number }
    ensures len { vec_len bytes.new ≡ vec_len bytes.old }
{
    match width {
        1 => put_at(bytes, at, &[(number % 0x100) as u8]),
        2 => put_at(bytes, at, &((number % 0x1_0000) as u16).to_le_bytes()),
        4 => put_at(bytes, at, &((number % 0x1_0000_0000) as u32).to_le_bytes()),
        _ => put_at(bytes, at, &number.to_le_bytes()),
    }
}

/// Stores the sixteen bytes of a number, by its halves.
#[inline(always)]
fn put_sixteen(bytes: &mut Vec<u8>, at: usize, number: u128)
    requires { at + 16 ≤ vec_len bytes.old }
    ensures { take (at + 16) bytes.new.items ≡ take at bytes.old.items ++ le_bytes 16 number }
{
    let low = (number % (1 << 64)) as u64;
    let high = (number >> 64) as u64;
    put_number(bytes, at, 8, low);
    put_number(bytes, at + 8, 8, high);
}

/// Stores a whole number that is in the range of its width.
#[inline(always)]
pub(crate) fn put_whole(bytes: &mut Vec<u8>, at: usize, width: usize, number: i128)
    requires width { IsWidth width }
    requires place { at + width ≤ vec_len bytes.old }
    requires range { (signed : Bool) × (in_range (8 * width) signed number ≡ true) }
    ensures { take (at + width) bytes.new.items ≡ take at bytes.old.items ++ le_bytes width (stored width number) }
{
    match width {
        16 => put_sixteen(bytes, at, number.cast_unsigned()),
        _ => put_number(
            bytes,
            at,
            width,
            (number.cast_unsigned() % (1 << 64)) as u64,
        ),
    }
}

/// Stores as many zeros as a number has bytes in its place.
#[inline(always)]
pub(crate) fn put_zeros(bytes: &mut Vec<u8>, at: usize, width: usize)
    requires width { IsWidth width }
    requires place { at + width ≤ vec_len bytes.old }
    ensures { take (at + width) bytes.new.items ≡ take at bytes.old.items ++ replicate width 0 }
{
    match width {
        1 => put_at(bytes, at, &[0]),
        2 => put_at(bytes, at, &[0; 2]),
        4 => put_at(bytes, at, &[0; 4]),
        8 => put_at(bytes, at, &[0; 8]),
        _ => put_at(bytes, at, &[0; 16]),
    }
}

/// Appends bytes.
#[inline(always)]
fn append(bytes: &mut Vec<u8>, more: &[u8]) -> Result<(), NoMemory>
    ensures added { OnOk result (bytes.new.items ≡ bytes.old.items ++ more.now) }
    ensures kept { OnErr result (bytes.new.items ≡ bytes.old.items) }
{
    match bytes.extend_from_slice(more) {
        Ok(()) => Ok(()),
        Err(_) => Err(NoMemory),
    }
}

/// Stores bytes in their place, at least N and at most twice as many: by two copies of a constant size, which overlap.
#[inline(always)]
fn put_ends<const N: usize>(bytes: &mut Vec<u8>, at: usize, more: &[u8])
    requires least { N ≤ length more.now }
    requires most { length more.now ≤ N + N }
    requires place { at + length more.now ≤ vec_len bytes.old }
    ensures put { take (at + length more.now) bytes.new.items ≡ take at bytes.old.items ++ more.now }
    ensures len { vec_len bytes.new ≡ vec_len bytes.old }
{
    let rest = more.len() - N;
    let mut first = [0; N];
    first.copy_from_slice(&more[..N]);
    let mut last = [0; N];
    last.copy_from_slice(&more[rest..]);
    put_at(bytes, at, &first);
    put_at(bytes, at + rest, &last);
}

/// Stores at most sixteen bytes in their place.
#[inline(always)]
fn put_few(bytes: &mut Vec<u8>, at: usize, more: &[u8])
    requires few { length more.now ≤ 16 }
    requires place { at + length more.now ≤ vec_len bytes.old }
    ensures put { take (at + length more.now) bytes.new.items ≡ take at bytes.old.items ++ more.now }
    ensures len { vec_len bytes.new ≡ vec_len bytes.old }
{
    match more.len() {
        0 => {}
        1 => put_ends::<1>(bytes, at, more),
        2..4 => put_ends::<2>(bytes, at, more),
        4..8 => put_ends::<4>(bytes, at, more),
        _ => put_ends::<8>(bytes, at, more),
    }
}

/// Stores bytes of any number behind the first ones. Where few find no place it makes others ahead, but not behind an item
/// that is the first.
#[inline(never)]
fn put_many(bytes: &mut Vec<u8>, at: usize, more: &[u8]) -> Result<(), NoMemory>
    requires inside { at ≤ vec_len bytes.old }
    ensures put { OnOk result (take (at + length more.now) bytes.new.items ≡ take at bytes.old.items ++ more.now) }
    ensures kept { OnErr result (take at bytes.new.items ≡ take at bytes.old.items) }
{
    if more.len() <= bytes.len() - at {
        put_at(bytes, at, more);
        return Ok(());
    }
    bytes.truncate(at);
    append(bytes, more)?;
    if at == 0 || more.len() > 16 {
        return Ok(());
    }
    fill_ahead(bytes, at + more.len(), 16)
}

/// Stores bytes behind the first ones, and few of them without a call where they have their place.
#[inline(always)]
pub(crate) fn put_bytes(bytes: &mut Vec<u8>, at: usize, more: &[u8]) -> Result<(), NoMemory>
    requires inside { at ≤ vec_len bytes.old }
    ensures put { OnOk result (take (at + length more.now) bytes.new.items ≡ take at bytes.old.items ++ more.now) }
    ensures kept { OnErr result (take at bytes.new.items ≡ take at bytes.old.items) }
{
    if more.len() <= 16 && bytes.len() - at >= 16 {
        put_few(bytes, at, more);
        return Ok(());
    }
    put_many(bytes, at, more)
}
