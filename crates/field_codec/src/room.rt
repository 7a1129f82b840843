//! The room of a text that is written.
ghost use Rattle.std.specs.Prelude.{◌≡◌, length, IfOk};

use unit_pass::NoMemory;

/// Gives a room this many bytes. A room that has them already stays as it is.
#[inline(always)]
pub(crate) fn sized(room: &mut Vec<u8>, count: usize) -> Result<(), NoMemory>
    ensures { IfOk result (λ _. length room.new.items ≡ count) }
{
    if room.len() == count {
        return Ok(());
    }
    resized(room, count)
}

/// The same of a room of another size.
#[inline(never)]
fn resized(room: &mut Vec<u8>, count: usize) -> Result<(), NoMemory>
    ensures { IfOk result (λ _. length room.new.items ≡ count) }
{
    room.resize(count, 0)?;
    Ok(())
}
