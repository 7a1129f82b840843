//! What a live node keeps of its own, behind the private data of the C data interface: its unit.
ghost use Rattle.std.specs.Prelude.{◌≡◌, ◌+◌, ◌<◌, ◌≤◌, if◌then◌else◌, is_ok};

use raw_place::Place;
use std::alloc::Global;
use unit_pass::{NoMemory, Pass, SUPPLY, Unit};

/// A node's own record.
pub(crate) struct Private {
    unit: Unit,
}

/// Draws a unit for a node, and places it.
pub(crate) fn placed_unit(alloc: Global, pass: &mut Pass) -> Result<Place<Private>, NoMemory>
    requires { 1 ≤ pass.old.units }
    ensures units { pass.new.units + (if is_ok result then 1 else 0) ≡ pass.old.units }
    ensures blocks { pass.new.blocks ≡ pass.old.blocks }
    ensures nodes { pass.new.nodes ≡ pass.old.nodes }
{
    match Place::put(alloc, Private { unit: pass.draw() }) {
        Ok(place) => Ok(place),
        Err((private, NoMemory)) => {
            let Private { unit } = private;
            pass.give_back(unit);
            Err(NoMemory)
        }
    }
}

/// Ends a node's record, whose unit goes back.
pub(crate) fn give_back_placed(private: Place<Private>, pass: &mut Pass)
    requires { pass.old.units < SUPPLY }
    ensures units { pass.new.units ≡ pass.old.units + 1 }
    ensures blocks { pass.new.blocks ≡ pass.old.blocks }
    ensures nodes { pass.new.nodes ≡ pass.old.nodes }
{
    let Private { unit } = private.take();
    pass.give_back(unit);
}
