//! A stream for tests. It gives the structures that it was handed, whatever they are, and then ends or refuses.
ghost use Rattle.std.specs.Prelude.{◌≡◌, ◌≢◌, ◌+◌, ◌≤◌, ◌≤ℤ◌, ◌↔◌, IsTrue, Some, is_some, true, false, pos, IfOk};
ghost use Rattle.data_types.specs.declared.row_fault.RowFault.{RowFault as RowFaultValue};
ghost use Rattle.tree_model.specs.promise.TreeData.{Released, trees};
ghost use Rattle.raw_array.specs.promise.Members.{Cost};
ghost use Rattle.raw_array.specs.Members.{cost_of_all};
ghost use Rattle.tree_model.specs.promise.TreeCost.{Nodes};
ghost use Rattle.unit_pass.specs.declared.pass.TheConstants.{ROOM, SUPPLY};
ghost use Rattle.stream_face.specs.Codes.{einval};
ghost use Rattle.stream_tests.specs.Strangers.{held_in, holding};

use data_types::RowFault;
use edge_io::Gate;
use raw_array::{Acted, RawArray, release_all};
use raw_schema::RawSchema;
use std::alloc::Global;
use std::marker::Model;
use std::process::Abort;
use std::snapshot::Snapshot;
use std::thread::Threads;
use stream_face::{ArrayStream, EINVAL, Tap};
use unit_pass::{Pass, ROOM, SUPPLY};

/// What a stream does behind its arrays.
#[derive(Clone, Copy, Debug)]
pub(crate) enum End {
    Ends,
    Code(i32),
    Row(RowFault),
}

/// Structures that are given from the last to the first, and a pass that takes the units of those that were given.
pub(crate) struct Holdings {
    schema: RawSchema,
    arrays: Vec<RawArray>,
    bank: Pass,
}

impl Model for Holdings {
    ghost use Rattle.std.specs.Prelude.{◌≡◌, ◌≤◌, ◌+◌};
    ghost use Rattle.std.specs.Coded.{codes};
    ghost use Rattle.tree_model.specs.promise.TreeData.{trees};
    ghost use Rattle.raw_array.specs.Members.{coded_array, cost_of_all};
    ghost use Rattle.tree_model.specs.promise.TreeCost.{Nodes};
    ghost use Rattle.raw_schema.specs.Members.{coded_schema};
    ghost use Rattle.stream_tests.specs.Strangers.{Holdings as HoldingsValue};

    ghost Value = { HoldingsValue };

    ghost coded = { Prim.hlevel (codes, coded_schema, coded_array) };

    ghost view = { λ s. record { schema = s.schema; arrays = s.arrays.items; units = s.bank.units } };

    ghost invariant = { λ s. (s.bank.blocks ≡ 0) × (s.bank.nodes ≡ 0) × (s.bank.units + (Nodes s.schema + cost_of_all (trees s.arrays.items)) ≤ 1000) };
}

impl Holdings {
    /// Gives the schema, for its units.
    fn give_schema(&mut self, out: &mut RawSchema, pass: &mut Pass)
        requires empty { out.old ≡ Released }
        requires room { ROOM ≤ pass.old.units }
        ensures held { holding self.new ≡ holding self.old }
        ensures units { pass.new.units + Nodes out.new ≡ pass.old.units }
    {
        let cost = self.schema.cost();
        self.bank.join(pass.split(cost));
        out.put(self.schema.move_out());
    }

    /// Gives the last array, for its units, and answers whether there was one.
    #[tactic(auto, using(tree_model::proofs::Measures::measures))]
    fn give_array(&mut self, out: &mut RawArray, pass: &mut Pass) -> bool
        requires empty { out.old ≡ Released }
        requires room { ROOM ≤ pass.old.units }
        ensures held { holding self.new ≡ holding self.old }
        ensures units { pass.new.units + Cost out.new ≡ pass.old.units }
        ensures none { result ≡ false → (self.new ≡ self.old) × (out.new ≡ Released) }
    {
        match self.arrays.pop() {
            None => false,
            Some(array) => {
                let cost = array.cost();
                self.bank.join(pass.split(cost));
                out.put(array);
                true
            }
        }
    }

    fn end(self, pass: &mut Pass)
        requires { pass.old.units + holding self ≤ SUPPLY }
        ensures units { pass.new.units ≡ pass.old.units + holding self }
        ensures blocks { pass.new.blocks ≡ pass.old.blocks }
        ensures nodes { pass.new.nodes ≡ pass.old.nodes }
    {
        let Holdings {
            schema,
            arrays,
            bank,
        } = self;
        schema.end(pass);
        release_all(arrays, pass);
        pass.join(bank);
    }
}

/// A stream that isn't lawful. Behind its arrays it ends, or answers a code, perhaps for a record.
pub(crate) struct Stranger {
    holdings: Option<Holdings>,
    /// Whether it refuses its schema.
    shy: bool,
    /// Whether it ends without a refusal.
    ends: bool,
    code: i32,
    row: Option<RowFault>,
    failed: bool,
    told: bool,
    // The last structure that it gave, for clauses. It has no bytes.
    gave: Snapshot<RawArray>,
    ghost refused: { code ≢ pos 0 },
    ghost from: { pos 0 ≤ℤ code },
    ghost to: { code ≤ℤ pos 4095 },
    ghost at_fault: { (fault : RowFaultValue) → row ≡ Some fault → code ≡ einval },
}

#[tactic(auto, using(tree_model::proofs::Measures::measures))]
fn costs_are_few(rt: &impl Abort, arrays: &[RawArray])
    ensures { cost_of_all (trees arrays.now) ≤ 900 }
{
    let mut total = 0u64;
    for array in arrays {
        total = total.saturating_add(array.cost());
    }
    assert!(rt; total <= 900);
}

impl Stranger {
    /// A stream that gives this schema, and these arrays from the last to the first. No unit was given for them yet.
    pub(crate) fn new(
        rt: &impl Abort,
        schema: RawSchema,
        arrays: Vec<RawArray>,
        bank: Pass,
        shy: bool,
        end: End,
    ) -> Stranger
        ensures live { IsTrue (is_some result.holdings) }
        ensures few { held_in result.holdings ≤ 1000 }
    {
        assert!(rt; bank.units() == 0 && bank.blocks() == 0 && bank.nodes() == 0);
        costs_are_few(rt, &arrays);
        assert!(rt; schema.cost() <= 100);
        let (ends, code, row) = match end {
            End::Ends => (true, 5, None),
            End::Code(code) => {
                assert!(rt; 1 <= code && code <= 4095);
                (false, code, None)
            }
            End::Row(row) => (false, EINVAL, Some(row)),
        };
        let none = RawArray::released();
        let gave = Snapshot::of(&none);
        none.discard();
        Stranger {
            holdings: Some(Holdings {
                schema,
                arrays,
                bank,
            }),
            shy,
            ends,
            code,
            row,
            failed: false,
            told: false,
            gave,
        }
    }
}

impl ArrayStream for Stranger {
    ghost use Rattle.stream_tests.specs.Strangers.{stranger};

    ghost state = { λ s. stranger s.holdings s.code s.row s.failed s.told s.gave.value };

    fn get_schema(&mut self, _alloc: Global, out: &mut RawSchema, pass: &mut Pass) -> i32 {
        self.told = self.shy;
        if self.shy {
            return self.code;
        }
        if let Some(holdings) = &mut self.holdings {
            holdings.give_schema(out, pass);
        }
        0
    }

    fn get_next<R: Threads + Sync, T: Tap>(
        &mut self,
        _rt: &R,
        _alloc: Global,
        out: &mut RawArray,
        pass: &mut Pass,
        _tap: &mut T,
        _gate: &(dyn Gate + Sync),
    ) -> i32 {
        if self.failed {
            self.told = true;
            return self.code;
        }
        let given = match &mut self.holdings {
            None => false,
            Some(holdings) => holdings.give_array(out, pass),
        };
        if given || self.ends {
            self.told = false;
            self.gave = Snapshot::of(out);
            return 0;
        }
        self.failed = true;
        self.told = true;
        self.code
    }

    fn get_last_error(&self) -> Option<&str> {
        if self.told { Some("refused") } else { None }
    }

    fn fault(&self) -> Option<RowFault> {
        if self.failed { self.row } else { None }
    }

    fn is_released(&self) -> bool {
        self.holdings.is_none()
    }

    fn release(&mut self, pass: &mut Pass) -> Acted {
        match self.holdings.take() {
            None => Acted::Was,
            Some(holdings) => {
                holdings.end(pass);
                Acted::Acted
            }
        }
    }

    fn discard(self) {
        let Stranger {
            holdings,
            shy: _,
            ends: _,
            code: _,
            row: _,
            failed: _,
            told: _,
            gave: _,
        } = self;
        match holdings {
            None => {}
            Some(_holdings) => unreachable!(),
        }
    }

    fn lawful_facts(&self) {}
}
