//! An owner that holds a block, and trees that it owns.
ghost use Rattle.std.specs.Prelude.{◌≡◌, ◌+◌, ◌≤◌};
ghost use Rattle.tree_model.specs.promise.TreeParts.{IsLive};
ghost use Rattle.raw_array.specs.promise.Members.{Cost};
ghost use Rattle.tree_model.specs.promise.TreeCost.{Nodes};
ghost use Rattle.unit_pass.specs.declared.pass.TheConstants.{ROOM};

use buf_block::{Hold, make};
use foreign_array::{Foreign, Owner};
use raw_array::{Acted, RawArray};
use raw_schema::RawSchema;
use std::alloc::Global;
use std::process::Abort;
use tree_text::read_tree;
use unit_pass::{Pass, ROOM, open_desk};

/// What a producer keeps: a block of its own, which its release lets go.
pub(crate) struct Kept {
    hold: Hold,
}

impl Owner for Kept {
    ghost owes = { λ _. 1 };

    ghost releases = { λ _ before after. after ≡ before + 1 };

    fn owes(&self) -> u64 {
        1
    }

    fn release(self, pass: &mut Pass) {
        let Kept { hold } = self;
        let _left = hold.let_go(pass);
    }
}

/// A producer that keeps nothing.
#[derive(Drop)]
struct Nothing;

impl Owner for Nothing {
    ghost owes = { λ _. 0 };

    ghost releases = { λ _ before after. after ≡ before };

    fn owes(&self) -> u64 {
        0
    }

    fn release(self, pass: &mut Pass) {
        let Nothing = self;
        let _pass = pass;
    }
}

/// An owner with a new block.
pub(crate) fn owner(rt: &impl Abort, alloc: Global, pass: &mut Pass) -> Kept
    requires { 1 ≤ pass.old.units }
    ensures { pass.new.units + 1 ≡ pass.old.units }
{
    let Ok(bytes) = Vec::from_slice(alloc, b"owner") else {
        panic!(rt; "memory");
    };
    match make(alloc, bytes, pass) {
        Ok(hold) => Kept { hold },
        Err(_refused) => panic!(rt; "memory"),
    }
}

/// The two trees of a text, of which the array is live.
pub(crate) fn trees(
    rt: &impl Abort,
    alloc: Global,
    text: &str,
    pass: &mut Pass,
) -> (RawSchema, RawArray)
    requires { ROOM ≤ pass.old.units }
    ensures live { IsLive result.1 }
    ensures units { pass.new.units + (Nodes result.0 + Cost result.1) ≡ pass.old.units }
{
    match read_tree(alloc, text.as_bytes(), pass) {
        Ok((schema, array)) => {
            assert!(rt; !array.is_released());
            (schema, array)
        }
        Err(fault) => panic!(rt; "{fault}"),
    }
}

#[test]
fn a_release_acts_once(rt: HostRuntime) {
    let alloc = rt.alloc();
    let (desk, mut pass) = open_desk();
    let (schema, array) = trees(
        &rt,
        alloc,
        "tree 1\nS =i ~ 0 0 0 ~\nA 1 0 0 2 0 0\nB ~\nB =05000000\n",
        &mut pass,
    );
    schema.end(&mut pass);
    assert!(rt; pass.units() >= 1);
    let owner = owner(&rt, alloc, &mut pass);
    let mut foreign = Foreign::new(array, owner);
    let owes = foreign.owes();
    let mut moved = foreign.move_out();
    assert_eq!(rt;
        (owes, foreign.is_released(), moved.is_released()),
        (1, true, false)
    );
    let acted = (
        foreign.release(&mut pass),
        moved.release(&mut pass),
        moved.release(&mut pass),
    );
    assert!(rt; acted == (Acted::Was, Acted::Acted, Acted::Was));
    foreign.discard();
    moved.discard();
    let audit = desk.close(pass);
    assert_eq!(rt; (audit.blocks, audit.nodes, audit.left), (2, 2, 0));
}

#[test]
fn an_owner_may_owe_nothing(rt: HostRuntime) {
    let alloc = rt.alloc();
    let (desk, mut pass) = open_desk();
    let (schema, array) = trees(
        &rt,
        alloc,
        "tree 1\nS =n ~ 0 0 0 ~\nA 1 0 0 0 0 0\n",
        &mut pass,
    );
    schema.end(&mut pass);
    let mut foreign = Foreign::new(array, Nothing);
    let owes = foreign.owes();
    assert!(rt; foreign.release(&mut pass) == Acted::Acted);
    foreign.discard();
    let audit = desk.close(pass);
    assert_eq!(rt; (owes, audit.blocks, audit.nodes, audit.left), (0, 0, 2, 0));
}

// The owner of a parted tree waits, also one that owes nothing and could be dropped.
#[test]
fn a_parted_owner_is_released_by_itself(rt: HostRuntime) {
    let alloc = rt.alloc();
    let (desk, mut pass) = open_desk();
    let (schema, array) = trees(
        &rt,
        alloc,
        "tree 1\nS =n ~ 0 0 0 ~\nA 1 0 0 0 0 0\n",
        &mut pass,
    );
    schema.end(&mut pass);
    let (array, idle) = Foreign::new(array, Nothing).part();
    assert!(rt; pass.units() >= 1);
    let owner = owner(&rt, alloc, &mut pass);
    let (array, keep) = Foreign::new(array, owner).part();
    array.end(&mut pass);
    let owes = (idle.owes(), keep.owes());
    idle.call(&mut pass);
    keep.call(&mut pass);
    let audit = desk.close(pass);
    assert_eq!(rt;
        (owes, audit.blocks, audit.nodes, audit.left),
        ((0, 1), 1, 2, 0)
    );
}
