//! The CSV text of a table that is made from a number n, in place of an input.
//!
//! It has the header `id,name,amount,paid` and then the rows 1 to n. Row i has i as its `id`, an item named for the last
//! digit of i, an amount of i and a quarter, and `true` where i is odd. Each line ends with a line feed, and no field is
//! quoted. So n alone gives each byte.
//!
//! [`made`] asks for the one block of memory of the text before it writes the first byte, and answers `NoMemory` only where
//! there is none. A row takes no memory of its own. The definitions are in `specs/promise/Made.antt`.
ghost use Rattle.std.specs.Prelude.{◌≡◌, ◌≤◌, ◌++◌, ℕ, length, codes, IfOk, OnOk};
ghost use Rattle.csv_model.specs.promise.Made.{made, made_row};
ghost use Rattle.csv_model.specs.Made.{paid_text};

use itoa::Buffer;
use std::alloc::Global;
use unit_pass::NoMemory;

/// The line of the names.
const HEADER: [u8; 20] = *b"id,name,amount,paid\n";

/// The text with this many rows. It answers [`NoMemory`] where the block for the whole text is refused.
pub fn made(alloc: Global, n: u32) -> Result<Vec<u8>, NoMemory>
    ensures text { IfOk result (λ v. v.items ≡ made n) }
{
    let mut text = Vec::with_capacity(alloc, room(n))?;
    text.extend_from_slice(&HEADER)?;
    for i in 0..n {
        push_row(&mut text, i + 1)?;
    }
    Ok(text)
}

/// As many bytes as the text with this many rows takes at most.
fn room(n: u32) -> usize
    ensures { length (made n) ≤ result }
{
    let mut buffer = Buffer::new();
    let digits = buffer.format(n).len();
    HEADER.len() + n as usize * (2 * digits + 17)
}

/// Appends a row.
fn push_row(bytes: &mut Vec<u8>, i: u32) -> Result<(), NoMemory>
    ensures { OnOk result (bytes.new.items ≡ bytes.old.items ++ made_row i) }
{
    let mut buffer = Buffer::new();
    let digits = buffer.format(i).as_bytes();
    bytes.extend_from_slice(digits)?;
    bytes.extend_from_slice(b",item")?;
    bytes.extend_from_slice(&[b'0' + (i % 10) as u8, b','])?;
    bytes.extend_from_slice(digits)?;
    bytes.extend_from_slice(b".25,")?;
    bytes.extend_from_slice(paid(i))?;
    Ok(())
}

/// Whether a row is paid, and the end of its line.
fn paid(i: u32) -> &'static [u8]
    ensures { result.now ≡ paid_text i ++ codes "\n" }
{
    if i % 2 == 1 { b"true\n" } else { b"false\n" }
}

/// A law: the text of a million rows or fewer has at most 2^30 bytes.
pub fn made_is_short()
    ensures { (n : ℕ) → n ≤ 1_000_000 → length (made n) ≤ 1_073_741_824 }
{}
