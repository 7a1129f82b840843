//! The lengths of texts, counted without the texts.
ghost use Rattle.std.specs.Prelude.{◌≡◌, ◌+◌, ◌-◌, ◌*◌, ◌≤◌, ◌<◌, ◌++◌, true, ℕ, IfOk, IfSome, List, get_or, length};
ghost use Rattle.data_types.specs.promise.Value.{Value, values};
ghost use Rattle.data_types.specs.promise.Value.Value.{Bits, Bytes, Fields, Items, Truth, Whole};
ghost use Rattle.layout_rules.specs.promise.Values.{each};
ghost use Rattle.value_text.specs.Behind.{item_text};
ghost use Rattle.value_text.specs.Lengths.{AreFieldLengths, AreLengths, AreSums, Tells, AreReached, IsReached, capped, some_fields, text_length};
ghost use Rattle.data_types.specs.promise.ValueTexts.{byte_text, lines_text};
ghost use Rattle.data_types.specs.ValueTexts.{bytes_text};

use crate::escapes::is_plain;
use field_codec::{bits_text, whole_text};
use std::alloc::Global;
use unit_pass::NoMemory;

/// What stands for each length above 2^31.
const LONGER: u32 = (1 << 31) + 1;

/// A number of bytes as a length.
fn counted(count: usize) -> u32
    ensures { result ≡ capped count }
{
    if count < LONGER as usize {
        count as u32
    } else {
        LONGER
    }
}

/// The length of a text that has as many bytes and escapes, each of which has two bytes more, behind a byte.
pub(crate) fn escaped_length(bytes: usize, escapes: u64) -> u32
    ensures { result ≡ capped (bytes + 2 * escapes + 1) }
{
    let longer = escapes.saturating_mul(2).saturating_add(1);
    counted((bytes as u64).saturating_add(longer) as usize)
}

/// The sum of two lengths in bytes, of which each above 2^31 is given as 2^31 + 1.
pub fn plus(one: u32, other: u32) -> u32
    ensures { result ≡ capped (one + other) }
{
    one.saturating_add(other).min(LONGER)
}

/// This many times a length in bytes, where 2^31 + 1 stands for each number above 2^31.
pub fn times(count: u64, length: u32) -> u32
    ensures { result ≡ capped (count * length) }
{
    counted(count.saturating_mul(u64::from(length)) as usize)
}

/// The length with a part more of a list or a struct: behind a comma, unless it is the first.
pub(crate) fn with_part(so_far: u32, number: u64, part: u32) -> u32
    ensures { (before : List ℕ) (v : Value) → so_far ≡ capped (length before) → part ≡ text_length v
        → result ≡ capped (length (before ++ item_text number v)) }
{
    let comma = if number > 0 { 1 } else { 0 };
    plus(plus(so_far, comma), part)
}

/// The length of the text of a truth value.
pub(crate) fn truth_length(truth: bool) -> u32
    ensures { result ≡ text_length (Truth truth) }
{
    if truth { 4 } else { 5 }
}

/// The length in bytes of the text of a whole number, which is made in this room.
pub fn whole_length(whole: i128, room: &mut Vec<u8>) -> Result<u32, NoMemory>
    ensures { IfOk result (λ count. count ≡ text_length (Whole whole)) }
{
    let text = whole_text(whole, room)?;
    Ok(counted(text.len()))
}

/// The length of the text of a float's bits, which is made in this room.
pub(crate) fn bits_length(bits: u64, room: &mut Vec<u8>) -> Result<u32, NoMemory>
    ensures { IfOk result (λ count. count ≡ text_length (Bits bits)) }
{
    let text = bits_text(64, bits, room)?;
    Ok(counted(text.len() + 1))
}

/// The length of a byte's text.
fn byte_length(byte: u8) -> u32
    ensures { result ≡ length (byte_text byte) }
{
    if is_plain(byte) { 1 } else { 3 }
}

/// The length of the text of bytes.
pub(crate) fn bytes_length(bytes: &[u8]) -> u32
    ensures { result ≡ text_length (Bytes bytes.now) }
{
    let mut sum = 1;
    for byte in bytes {
        sum = plus(sum, byte_length(*byte));
    }
    sum
}

/// The lengths of the texts of a column's items.
#[derive(Drop)]
pub enum Lengths {
    /// All items have this one, however many they are.
    Same(u32),
    /// The length of each item.
    Own(Vec<u32>),
}

impl Lengths {
    ghost use Rattle.value_text.specs.Lengths.{IsReached, length_at};

    /// That of item `i`.
    #[inline(always)]
    pub fn at(&self, i: usize) -> u32
        requires { IsReached self.now (i + 1) }
        ensures { result ≡ length_at self.now i }
    {
        match self {
            Lengths::Same(one) => *one,
            Lengths::Own(lengths) => lengths[i],
        }
    }
}

/// The length of the text of a list of this many items that all have this length.
pub(crate) fn same_list(one: u32, count: u64) -> u32
    ensures { (item : ℕ → Value) (from : ℕ) → ((j : ℕ) → j < count → one ≡ text_length (item (from + j)))
        → result ≡ text_length (Items (values (each item from count))) }
{
    let commas = if count > 0 { count - 1 } else { 0 };
    plus(plus(times(count, one), counted(commas as usize)), 2)
}

/// The length of the text of a list of this many items, whose lengths begin at a place.
fn own_list(lengths: &[u32], from: usize, count: usize) -> u32
    requires { from + count ≤ length lengths.now }
    ensures { (item : ℕ → Value) → AreLengths lengths.now item (length lengths.now)
        → result ≡ text_length (Items (values (each item from count))) }
{
    let mut sum = 0;
    for k in 0..count {
        sum = with_part(sum, k as u64, lengths[from + k]);
    }
    plus(sum, 2)
}

/// The length of the text of a list of this many items, whose lengths begin at a place.
pub(crate) fn list_length(lengths: &Lengths, from: usize, count: usize) -> u32
    requires { IsReached lengths.now (from + count) }
    ensures { (item : ℕ → Value) (total : ℕ) → from + count ≤ total → Tells lengths.now item total
        → result ≡ text_length (Items (values (each item from count))) }
{
    match lengths {
        Lengths::Same(one) => same_list(*one, count as u64),
        Lengths::Own(lengths) => own_list(lengths, from, count),
    }
}

/// The lengths of the texts of a struct's fields: of all fields that have one for all rows their sum, and which fields have one for each
/// row.
#[derive(Drop)]
pub struct FieldSums {
    same: u32,
    own: Vec<usize>,
}

/// Those of fields with these lengths.
pub fn field_sums(alloc: Global, kids: &[Lengths]) -> Result<FieldSums, NoMemory>
    ensures { IfOk result (λ sums. AreSums kids.now sums) }
{
    let mut same = 0;
    let mut own = Vec::new(alloc);
    for k in 0..kids.len() {
        match &kids[k] {
            Lengths::Same(one) => same = plus(same, *one),
            Lengths::Own(_) => own.push(k)?,
        }
    }
    Ok(FieldSums { same, own })
}

/// The length of the text of a struct of this many fields, whose texts have so many bytes together.
fn braced(sum: u32, count: usize) -> u32
    ensures { result ≡ capped (sum + (count - 1) + 2) }
{
    plus(plus(sum, counted(count.saturating_sub(1))), 2)
}

/// The length of the text of a struct whose fields' lengths are at a place of each of these. Only those are looked at that differ.
pub(crate) fn row_length(kids: &[Lengths], sums: &FieldSums, place: usize) -> u32
    requires reached { AreReached kids.now (place + 1) }
    requires sums { AreSums kids.now sums.now }
    ensures { (row : List Value) → AreFieldLengths kids.now place row → result ≡ text_length (Fields (values row)) }
{
    braced(with_own(kids, &sums.own, sums.same, place), kids.len())
}

/// A sum, and with it the lengths at a place of the fields of these numbers.
fn with_own(kids: &[Lengths], own: &[usize], same: u32, place: usize) -> u32
    requires reached { AreReached kids.now (place + 1) }
    requires below { (q : ℕ) → q < length own.now → get_or own.now q 0 < length kids.now }
    ensures { capped result ≡ capped (same + some_fields kids.now place own.now) }
{
    let mut sum = same;
    for q in 0..own.len() {
        let k = own[q];
        sum = plus(sum, kids[k].at(place));
    }
    sum
}

/// The length of the text of a struct whose fields' lengths are the same at each place; none where one's differ.
pub(crate) fn same_row(kids: &[Lengths], sums: &FieldSums) -> Option<u32>
    requires { AreSums kids.now sums.now }
    ensures { IfSome result (λ length. (row : List Value) (place : ℕ) → AreFieldLengths kids.now place row → length ≡ text_length (Fields (values row))) }
{
    if sums.own.len() > 0 {
        return None;
    }
    Some(braced(sums.same, kids.len()))
}

/// The length in bytes of `ok` and lines of texts of these lengths.
pub(crate) fn lines_length(lengths: &Lengths, count: u64) -> u32
    ensures { (item : ℕ → Value) → Tells lengths.now item count → result ≡ capped (length (lines_text (each item 0 count))) }
{
    match lengths {
        Lengths::Same(one) => same_lines(*one, count),
        Lengths::Own(lengths) => own_lines(lengths),
    }
}

/// The same of lines that all have this length.
fn same_lines(one: u32, count: u64) -> u32
    ensures { (item : ℕ → Value) → ((j : ℕ) → j < count → one ≡ text_length (item j))
        → result ≡ capped (length (lines_text (each item 0 count))) }
{
    plus(3, plus(times(count, one), counted(count as usize)))
}

/// The same of lines that each have a length of their own.
fn own_lines(lengths: &[u32]) -> u32
    ensures { (item : ℕ → Value) → AreLengths lengths.now item (length lengths.now)
        → result ≡ capped (length (lines_text (each item 0 (length lengths.now)))) }
{
    let mut sum = 3;
    for i in 0..lengths.len() {
        sum = plus(sum, plus(lengths[i], 1));
    }
    sum
}
