//! The lines of a report, appended to a text.
ghost use Rattle.std.specs.Prelude.{◌≡◌, ◌∷◌, ◌++◌, Some, IfOk};
ghost use Rattle.std.specs.Fmt.{signed_decimal};
ghost use Rattle.tree_text.specs.promise.TreeText.{byte_text, token};
ghost use Rattle.tree_text.specs.Report.{report_line};
ghost use Rattle.data_types.specs.promise.WayTexts.{way_text};
ghost use Rattle.data_types.specs.promise.Ways.{steps_of};

use crate::tokens::{is_plain, upper_digit};
use data_types::Path;
use itoa::Buffer;
use std::alloc::Global;
use unit_pass::NoMemory;

/// Appends a byte of a token.
fn push_byte(text: &mut Vec<u8>, byte: u8) -> Result<(), NoMemory>
    ensures { IfOk result (λ _. text.new.items ≡ text.old.items ++ byte_text byte) }
{
    if is_plain(byte) {
        text.push(byte)?;
        return Ok(());
    }
    let digits = [b'%', upper_digit(byte / 16), upper_digit(byte % 16)];
    text.extend_from_slice(&digits)?;
    Ok(())
}

/// Appends the token of present bytes.
fn push_token(text: &mut Vec<u8>, bytes: &[u8]) -> Result<(), NoMemory>
    ensures { IfOk result (λ _. text.new.items ≡ text.old.items ++ token (Some bytes.now)) }
{
    text.push(b'=')?;
    for byte in bytes {
        push_byte(text, *byte)?;
    }
    Ok(())
}

/// Appends the way to a node: a `/`, or a `/` with a child's number or `d` for each step.
fn push_way(alloc: Global, text: &mut Vec<u8>, path: &Path) -> Result<(), NoMemory>
    ensures { IfOk result (λ _. text.new.items ≡ text.old.items ++ way_text (steps_of path.now)) }
{
    let way = format!(in alloc; "{path}")?;
    text.extend_from_slice(way.as_bytes())?;
    Ok(())
}

/// Appends a space and a number.
fn push_number(text: &mut Vec<u8>, number: i64) -> Result<(), NoMemory>
    ensures { IfOk result (λ _. text.new.items ≡ text.old.items ++ (32 ∷ signed_decimal number)) }
{
    let mut buffer = Buffer::new();
    text.push(b' ')?;
    text.extend_from_slice(buffer.format(number).as_bytes())?;
    Ok(())
}

/// Appends the line of a node: the way to it, its format, its length and the number of its null items.
pub(crate) fn push_line(
    alloc: Global,
    text: &mut Vec<u8>,
    path: &Path,
    format: &[u8],
    length: i64,
    nulls: i64,
) -> Result<(), NoMemory>
    ensures { IfOk result (λ _. text.new.items ≡ text.old.items ++ report_line (steps_of path.now) format.now length nulls) }
{
    push_way(alloc, text, path)?;
    text.push(b' ')?;
    push_token(text, format)?;
    push_number(text, length)?;
    push_number(text, nulls)?;
    text.push(b'\n')?;
    Ok(())
}
