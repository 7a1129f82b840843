//! A tree with its owner.
ghost use Rattle.std.specs.Prelude.{◌≡◌, ◌≢◌, ◌↔◌, ◌+◌, ◌≤◌, IsTrue, Option, None, Some};
ghost use Rattle.tree_model.specs.promise.TreeParts.{IsLive};
ghost use Rattle.tree_model.specs.promise.TreeData.{Released};
ghost use Rattle.unit_pass.specs.declared.pass.TheConstants.{SUPPLY};
ghost use Rattle.foreign_array.specs.Kept.{Kept, OwnerReleased, tree_in, owed, units_in};

use crate::keep::Keep;
use crate::owner::Owner;
use crate::pair::Pair;
use raw_array::{Acted, RawArray};
use std::marker::Model;
use std::mem;
use unit_pass::{Pass, SUPPLY};

/// A live tree with its owner, or nothing once they were moved away or released ("Released structure"). Contracts see the pair, or
/// none. It can't be dropped: it is released and then discarded, or parted.
pub struct Foreign<O: Owner> {
    pair: Option<Pair<O>>,
}

impl<O: Owner> Model for Foreign<O> {
    ghost use Rattle.std.specs.Coded.{coded×, coded_option};
    ghost use Rattle.raw_array.specs.Members.{coded_array};
    ghost use Rattle.foreign_array.specs.Kept.{Kept, LiveIn, kept_of};

    ghost Value = { Kept O };

    ghost coded = { coded_option (coded× coded_array O.code) };

    ghost view = { λ f. kept_of f.pair };

    ghost invariant = { λ f. LiveIn (kept_of f.pair) };
}

impl<O: Owner> Foreign<O> {
    /// A tree with its owner.
    pub fn new(array: RawArray, owner: O) -> Foreign<O>
        requires { IsLive array }
        ensures { result ≡ Some (array, owner) }
    {
        Foreign {
            pair: Some(Pair { array, owner }),
        }
    }

    /// Whether the tree and its owner were moved away or released.
    pub fn is_released(&self) -> bool
        ensures { IsTrue result ↔ (self.now ≡ None) }
    {
        self.pair.is_none()
    }

    /// The tree, lent.
    pub fn array(&self) -> &RawArray
        requires { self.now ≢ None }
        ensures tree { result.now ≡ tree_in self.now }
        ensures live { IsLive result.now }
    {
        match &self.pair {
            Some(pair) => &pair.array,
            None => unreachable!(),
        }
    }

    /// The units that the owner's release gives back.
    pub fn owes(&self) -> u64
        requires { self.now ≢ None }
        ensures { result ≡ owed O.owes self.now }
    {
        match &self.pair {
            Some(pair) => pair.owner.owes(),
            None => unreachable!(),
        }
    }

    /// Moves the tree and its owner; what is left is released ("Moving an array"). Takes no memory, and no unit changes hands.
    pub fn move_out(&mut self) -> Foreign<O>
        ensures moved { result ≡ self.old }
        ensures left { self.new ≡ None }
    {
        mem::replace(self, Foreign { pair: None })
    }

    /// Parts the tree from its owner, so that children can be moved out of the tree while the owner waits ("Moving child arrays").
    pub fn part(self) -> (RawArray, Keep<O>)
        requires { self ≢ None }
        ensures parts { self ≡ Some (result.0, result.1) }
        ensures live { IsLive result.0 }
    {
        let Foreign { pair } = self;
        match pair {
            Some(Pair { array, owner }) => (array, Keep::new(owner)),
            None => unreachable!(),
        }
    }

    /// Releases the tree and then its owner, once. A released one stays as it is, and the answer is `Was`. Takes no memory.
    pub fn release(&mut self, pass: &mut Pass) -> Acted
        requires { pass.old.units + units_in O.owes self.old ≤ SUPPLY }
        ensures acted { result ≡ Acted.Acted ↔ (self.old ≢ None) }
        ensures released { self.new ≡ None }
        ensures owner { OwnerReleased O.releases self.old pass.old.units pass.new.units }
        ensures units { pass.new.units ≡ pass.old.units + units_in O.owes self.old }
        ensures blocks { pass.new.blocks ≡ pass.old.blocks }
        ensures nodes { pass.new.nodes ≡ pass.old.nodes }
    {
        let Foreign { pair } = self.move_out();
        match pair {
            Some(Pair { array, owner }) => {
                array.end(pass);
                owner.release(pass);
                Acted::Acted
            }
            None => Acted::Was,
        }
    }

    /// Gives up a released one. Takes no memory.
    pub fn discard(self)
        requires { self ≡ None }
    {
        let Foreign { pair } = self;
        match pair {
            Some(_) => unreachable!(),
            None => {}
        }
    }
}
