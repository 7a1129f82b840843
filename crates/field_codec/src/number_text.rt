//! Numbers as text.
ghost use Rattle.std.specs.Prelude.{◌≡◌, ◌++◌, ◌-◌, ◌∷◌, ◌<◌, ◌≤◌, ◌^◌, decimal, drop, length, replicate, take, if◌then◌else◌, IfOk};
ghost use Rattle.std.specs.Fmt.{signed_decimal};
ghost use Rattle.data_types.specs.promise.FieldText.{decimal_text, point_text};

use crate::powers::power;
use crate::room::sized;
use itoa::{Buffer, write_digits};
use unit_pass::NoMemory;

/// What the text of a number of 64 bits takes at most: a minus, 20 digits, a point and 18 digits.
const WIDTH: usize = 40;

/// The text of a whole number in decimal, made in the room. `NoMemory` comes only where memory runs out.
#[inline(always)]
pub fn whole_text<'a>(number: i128, room: &'a mut Vec<u8>) -> Result<&'a [u8], NoMemory>
    ensures { IfOk result (λ text. text.now ≡ signed_decimal number) }
{
    let Ok(short) = i64::try_from(number) else {
        return rare_whole_text(number, room);
    };
    sized(room, WIDTH)?;
    let start = write_whole(short < 0, short.unsigned_abs(), room.as_mut_slice(), WIDTH);
    Ok(&room.as_slice()[start..])
}

/// The same of a number of any size. What the long way answers gets its place here, and so not for each number.
#[inline(always)]
fn rare_whole_text<'a>(number: i128, room: &'a mut Vec<u8>) -> Result<&'a [u8], NoMemory>
    ensures { IfOk result (λ text. text.now ≡ signed_decimal number) }
{
    match long_whole_text(number, room) {
        Ok(text) => Ok(text),
        Err(NoMemory) => Err(NoMemory),
    }
}

/// The same, out of line.
#[inline(never)]
fn long_whole_text<'a>(number: i128, room: &'a mut Vec<u8>) -> Result<&'a [u8], NoMemory>
    ensures { IfOk result (λ text. text.now ≡ signed_decimal number) }
{
    let mut buffer = Buffer::new();
    room.clear();
    room.extend_from_slice(buffer.format(number).as_bytes())?;
    Ok(room.as_slice())
}

/// Writes the digits of a number so that they end at a place, behind a minus where one is asked for, and says where they start.
fn write_whole(minus: bool, number: u64, text: &mut [u8], end: usize) -> usize
    requires room { 21 ≤ end }
    requires within { end ≤ length text.old }
    ensures text { drop result text.new ≡ (if minus then 45 ∷ decimal number else decimal number) ++ drop end text.old }
    ensures start { result ≤ length text.new }
{
    let start = write_digits(number, text, end);
    if !minus {
        return start;
    }
    text[start - 1] = b'-';
    start - 1
}

/// The text of a decimal, which is given as a whole number in units of 10^-places, made in the room. `NoMemory` comes only
/// where memory runs out.
#[inline(always)]
pub fn decimal_text<'a>(
    places: u32,
    number: i128,
    room: &'a mut Vec<u8>,
) -> Result<&'a [u8], NoMemory>
    ensures { IfOk result (λ text. text.now ≡ decimal_text places number) }
{
    let size = match u64::try_from(number) {
        Ok(size) if places <= 18 => size,
        _ => return rare_decimal_text(places, number, room),
    };
    sized(room, WIDTH)?;
    let start = write_decimal(false, size, places as usize, room.as_mut_slice());
    Ok(&room.as_slice()[start..])
}

/// The same of any number of places, and of a number of any sign and size.
#[inline(always)]
fn rare_decimal_text<'a>(
    places: u32,
    number: i128,
    room: &'a mut Vec<u8>,
) -> Result<&'a [u8], NoMemory>
    ensures { IfOk result (λ text. text.now ≡ decimal_text places number) }
{
    match signed_decimal_text(places, number, room) {
        Ok(text) => Ok(text),
        Err(NoMemory) => Err(NoMemory),
    }
}

/// The same, out of line: most are negative numbers of 64 bits.
#[inline(never)]
fn signed_decimal_text<'a>(
    places: u32,
    number: i128,
    room: &'a mut Vec<u8>,
) -> Result<&'a [u8], NoMemory>
    ensures { IfOk result (λ text. text.now ≡ decimal_text places number) }
{
    let short = match i64::try_from(number) {
        Ok(short) if places <= 18 => short,
        _ => return long_decimal_text(places, number, room),
    };
    sized(room, WIDTH)?;
    let size = short.unsigned_abs();
    let start = write_decimal(short < 0, size, places as usize, room.as_mut_slice());
    Ok(&room.as_slice()[start..])
}

/// Writes a number at the end of a text, with a point before this many of its digits, and says where it starts.
#[inline(always)]
fn write_decimal(minus: bool, number: u64, places: usize, text: &mut [u8]) -> usize
    requires few { places ≤ 18 }
    requires room { length text.old ≡ 40 }
    ensures text { drop result text.new ≡ (if minus then 45 ∷ point_text places number else point_text places number) }
    ensures start { result ≤ length text.new }
{
    if places == 0 {
        return write_whole(minus, number, text, WIDTH);
    }
    let start = write_digits(number, text, WIDTH);
    let point = WIDTH - places;
    if start >= point || start + 16 < point {
        return rare_decimal(minus, number, places, text);
    }
    // Up to sixteen digits make room for the point; what is moved in front of them is no part of the text.
    move_ahead(text, point);
    text[point - 1] = b'.';
    if !minus {
        return start - 1;
    }
    text[start - 2] = b'-';
    start - 2
}

/// The same of a number with no digit before the point, or with more than sixteen there.
#[inline(never)]
fn rare_decimal(minus: bool, number: u64, places: usize, text: &mut [u8]) -> usize
    requires few { places ≤ 18 }
    requires room { length text.old ≡ 40 }
    ensures text { drop result text.new ≡ (if minus then 45 ∷ point_text places number else point_text places number) }
    ensures start { result ≤ length text.new }
{
    if places == 0 {
        return write_whole(minus, number, text, WIDTH);
    }
    let unit = power(places);
    // The unit puts a digit before the zeros behind the point, and it gives way to the point.
    let point = write_digits(unit + number % unit, text, WIDTH);
    text[point] = b'.';
    write_whole(minus, number / unit, text, point)
}

/// Moves the 16 bytes before a place ahead by one.
#[inline(always)]
fn move_ahead(text: &mut [u8], end: usize)
    requires room { 17 ≤ end }
    requires within { end ≤ length text.old }
    ensures text { text.new ≡ take (end - 17) text.old ++ take 16 (drop (end - 16) text.old) ++ drop (end - 1) text.old }
{
    let mut bytes = [0; 16];
    bytes.copy_from_slice(&text[end - 16..end]);
    text[end - 17..end - 1].copy_from_slice(&bytes);
}

/// The text of a decimal of any number of places and of any size, out of line.
#[inline(never)]
fn long_decimal_text<'a>(
    places: u32,
    number: i128,
    room: &'a mut Vec<u8>,
) -> Result<&'a [u8], NoMemory>
    ensures { IfOk result (λ text. text.now ≡ decimal_text places number) }
{
    room.clear();
    if number < 0 {
        room.push(b'-')?;
    }
    push_point(places as usize, number.unsigned_abs(), room)?;
    Ok(room.as_slice())
}

/// Appends a number, with a point before this many of its digits.
fn push_point(places: usize, number: u128, room: &mut Vec<u8>) -> Result<(), NoMemory>
    ensures { IfOk result (λ _. room.new.items ≡ room.old.items ++ point_text places number) }
{
    let mut buffer = Buffer::new();
    let digits = digits(number, &mut buffer);
    if places == 0 {
        room.extend_from_slice(digits)?;
        return Ok(());
    }
    if digits.len() > places {
        let (whole, fraction) = digits.split_at(digits.len() - places);
        room.extend_from_slice(whole)?;
        room.push(b'.')?;
        room.extend_from_slice(fraction)?;
        return Ok(());
    }
    room.extend_from_slice(b"0.")?;
    push_zeros(places - digits.len(), room)?;
    room.extend_from_slice(digits)?;
    Ok(())
}

/// Appends this many zeros.
fn push_zeros(count: usize, room: &mut Vec<u8>) -> Result<(), NoMemory>
    ensures { IfOk result (λ _. room.new.items ≡ room.old.items ++ replicate count 48) }
{
    match room.len().checked_add(count) {
        Some(len) => {
            room.resize(len, b'0')?;
            Ok(())
        }
        None => Err(NoMemory),
    }
}

/// The digits of a number.
fn digits<'a>(number: u128, buffer: &'a mut Buffer) -> &'a [u8]
    ensures { result.now ≡ decimal number }
{
    if number > u128::from(u64::MAX) {
        return buffer.format(number).as_bytes();
    }
    buffer.format(number as u64).as_bytes()
}
