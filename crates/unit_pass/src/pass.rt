//! Desks, the passes that they give out, and units.
ghost use Rattle.std.specs.Prelude.{◌≡◌, ◌+◌, ◌-◌, ◌*◌, ◌<◌, ◌≤◌};
ghost use Rattle.unit_pass.specs.promise.Tally.{risen, last_count};
ghost use Rattle.unit_pass.specs.declared.pass.TheConstants.{SUPPLY};

use std::marker::Model;

/// All units of a desk: the most live nodes and holds that there can be at once.
pub const SUPPLY: u64 = 1 << 32;
/// The units that a pass must have for a get call of a stream.
pub const ROOM: u64 = 1 << 26;
/// The most units that one chunk of a lawful stream costs.
pub const CHUNK: u64 = 1 << 15;

/// The counts of a closed desk: what was made through its passes.
#[derive(Clone, Copy, Debug, PartialEq, Eq)]
pub struct Audit {
    /// The blocks of bytes that were made.
    pub blocks: u64,
    /// The nodes of trees that were made.
    pub nodes: u64,
    /// The units that are still out. It is 0, since a desk closes only once all are back.
    pub left: u64,
}

/// The place where units come from. It can't be dropped: only [`Desk::close`] takes it.
pub struct Desk {
    sealed: (),
}

/// The right to one live node or one hold. It can't be dropped: only [`Pass::give_back`] takes it.
pub struct Unit {
    sealed: (),
}

/// Units, at most [`SUPPLY`], and the counts of the blocks and nodes that were made with it. Contracts see it as the
/// record of the three numbers with their bounds, so each proof about a pass has the bounds at hand, without a call.
///
/// It can't be dropped: only [`Pass::join`] and [`Desk::close`] take it. A count that has come to its last value, 2^64 - 1,
/// stays there. No call takes memory or can be refused.
pub struct Pass {
    units: u64,
    blocks: u64,
    nodes: u64,
    ghost supply: { units ≤ SUPPLY },
    ghost most_blocks: { blocks ≤ last_count },
    ghost most_nodes: { nodes ≤ last_count },
}

impl Model for Pass {
    ghost use Rattle.unit_pass.specs.Tally.{Tally};

    ghost Value = { Tally };

    ghost view = { λ p. record {
      units = p.units;
      blocks = p.blocks;
      nodes = p.nodes;
      supply = p.supply;
      most_blocks = p.most_blocks;
      most_nodes = p.most_nodes;
    } };
}

/// Opens a desk, with all its units in one pass that has counted nothing.
pub fn open_desk() -> (Desk, Pass)
    ensures units { result.1.units ≡ SUPPLY }
    ensures blocks { result.1.blocks ≡ 0 }
    ensures nodes { result.1.nodes ≡ 0 }
{
    let desk = Desk { sealed: () };
    let pass = Pass {
        units: SUPPLY,
        blocks: 0,
        nodes: 0,
    };
    (desk, pass)
}

impl Pass {
    /// The units that can still be drawn.
    pub fn units(&self) -> u64
        ensures exact { result ≡ self.now.units }
        ensures bounded { self.now.units ≤ SUPPLY }
    {
        self.units
    }

    /// The blocks that were counted in this pass and in those that it took in.
    pub fn blocks(&self) -> u64
        ensures { result ≡ self.now.blocks }
    {
        self.blocks
    }

    /// The nodes that were counted in this pass and in those that it took in.
    pub fn nodes(&self) -> u64
        ensures { result ≡ self.now.nodes }
    {
        self.nodes
    }

    /// Takes one unit out. The counts stay.
    pub fn draw(&mut self) -> Unit
        requires { 1 ≤ self.old.units }
        ensures units { self.new.units + 1 ≡ self.old.units }
        ensures blocks { self.new.blocks ≡ self.old.blocks }
        ensures nodes { self.new.nodes ≡ self.old.nodes }
    {
        self.units -= 1;
        Unit { sealed: () }
    }

    /// Puts one unit back. The counts stay.
    pub fn give_back(&mut self, unit: Unit)
        requires { self.old.units < SUPPLY }
        ensures units { self.new.units ≡ self.old.units + 1 }
        ensures blocks { self.new.blocks ≡ self.old.blocks }
        ensures nodes { self.new.nodes ≡ self.old.nodes }
    {
        let Unit { sealed: () } = unit;
        self.units += 1;
    }

    /// Counts one more block.
    pub fn count_block(&mut self)
        ensures units { self.new.units ≡ self.old.units }
        ensures blocks { self.new.blocks ≡ risen self.old.blocks 1 }
        ensures nodes { self.new.nodes ≡ self.old.nodes }
    {
        self.blocks = self.blocks.saturating_add(1);
    }

    /// Counts one more node.
    pub fn count_node(&mut self)
        ensures units { self.new.units ≡ self.old.units }
        ensures blocks { self.new.blocks ≡ self.old.blocks }
        ensures nodes { self.new.nodes ≡ risen self.old.nodes 1 }
    {
        self.nodes = self.nodes.saturating_add(1);
    }

    /// Parts some units off into a pass of their own, which has counted nothing, as for a thread.
    pub fn split(&mut self, units: u64) -> Pass
        requires { units ≤ self.old.units }
        ensures kept { self.new.units + units ≡ self.old.units }
        ensures blocks { self.new.blocks ≡ self.old.blocks }
        ensures nodes { self.new.nodes ≡ self.old.nodes }
        ensures parted { result.units ≡ units }
        ensures no_blocks { result.blocks ≡ 0 }
        ensures no_nodes { result.nodes ≡ 0 }
    {
        self.units -= units;
        Pass {
            units,
            blocks: 0,
            nodes: 0,
        }
    }

    /// Takes in the units and the counts of another pass, which is spent.
    pub fn join(&mut self, other: Pass)
        requires { self.old.units + other.units ≤ SUPPLY }
        ensures units { self.new.units ≡ self.old.units + other.units }
        ensures blocks { self.new.blocks ≡ risen self.old.blocks other.blocks }
        ensures nodes { self.new.nodes ≡ risen self.old.nodes other.nodes }
        ensures same_blocks { other.blocks ≡ 0 → self.new.blocks ≡ self.old.blocks }
        ensures same_nodes { other.nodes ≡ 0 → self.new.nodes ≡ self.old.nodes }
    {
        let Pass {
            units,
            blocks,
            nodes,
        } = other;
        self.units += units;
        self.blocks = self.blocks.saturating_add(blocks);
        self.nodes = self.nodes.saturating_add(nodes);
    }
}

impl Desk {
    /// Closes the desk, and answers what was counted. It needs all [`SUPPLY`] units to be back in the pass, so a run that
    /// lost a unit can't close its desk, and has no other way to spend it.
    pub fn close(self, pass: Pass) -> Audit
        requires { pass.units ≡ SUPPLY }
        ensures blocks { result.blocks ≡ pass.blocks }
        ensures nodes { result.nodes ≡ pass.nodes }
        ensures left { result.left ≡ 0 }
    {
        let Desk { sealed: () } = self;
        let Pass {
            units,
            blocks,
            nodes,
        } = pass;
        Audit {
            blocks,
            nodes,
            left: SUPPLY - units,
        }
    }
}
