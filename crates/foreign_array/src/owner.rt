//! The trait of owners: what a foreign producer keeps beside a tree, and how it is given back.
ghost use Rattle.std.specs.Prelude.{◌≡◌, ◌+◌, ◌≤◌, ℕ};
ghost use Rattle.unit_pass.specs.declared.pass.TheConstants.{SUPPLY};

use unit_pass::{Pass, SUPPLY};

/// What a foreign producer keeps beside a tree, and how it is given back: the private data and the release callback of the C
/// interface ("The ArrowArray structure", `release` and `private_data`). It may hold what must be spent, as a block.
pub trait Owner {
    /// The units that its release gives back.
    ghost owes: { Self → ℕ };

    /// What its release says of itself, by the pass's units before and behind it. Only a call of the release has this to say, so a
    /// clause that names it says that the owner was released, and with which units: those of its tree are back by then.
    ghost releases: { Self → ℕ → ℕ → Type 0 };

    /// The units that its release gives back.
    fn owes(&self) -> u64
        ensures { result ≡ owes self.now };

    /// Gives back what is kept. Takes no memory, makes nothing and can't be refused.
    fn release(self, pass: &mut Pass)
        requires { pass.old.units + owes self ≤ SUPPLY }
        ensures released { releases self pass.old.units pass.new.units }
        ensures units { pass.new.units ≡ pass.old.units + owes self }
        ensures blocks { pass.new.blocks ≡ pass.old.blocks }
        ensures nodes { pass.new.nodes ≡ pass.old.nodes };
}
