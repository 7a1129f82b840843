//! An owner whose tree was parted from it.
ghost use Rattle.std.specs.Prelude.{◌≡◌, ◌+◌, ◌≤◌};
ghost use Rattle.unit_pass.specs.declared.pass.TheConstants.{SUPPLY};

use crate::owner::Owner;
use std::marker::Model;
use unit_pass::{Pass, SUPPLY};

/// An owner whose tree was parted from it. Contracts see the owner. It can't be dropped, also where the owner can: its release
/// is to be called.
pub struct Keep<O: Owner> {
    owner: O,
}

impl<O: Owner> Model for Keep<O> {
    ghost Value = { O };

    ghost coded = { O.code };

    ghost view = { λ k. k.owner };
}

impl<O: Owner> Keep<O> {
    /// An owner that waits for its release.
    pub(crate) fn new(owner: O) -> Keep<O>
        ensures { result ≡ owner }
    {
        Keep { owner }
    }

    /// The units that the owner's release gives back.
    pub fn owes(&self) -> u64
        ensures { result ≡ O.owes self.now }
    {
        self.owner.owes()
    }

    /// Releases the owner. Takes no memory.
    pub fn call(self, pass: &mut Pass)
        requires { pass.old.units + O.owes self ≤ SUPPLY }
        ensures released { O.releases self pass.old.units pass.new.units }
        ensures units { pass.new.units ≡ pass.old.units + O.owes self }
        ensures blocks { pass.new.blocks ≡ pass.old.blocks }
        ensures nodes { pass.new.nodes ≡ pass.old.nodes }
    {
        let Keep { owner } = self;
        owner.release(pass);
    }
}
