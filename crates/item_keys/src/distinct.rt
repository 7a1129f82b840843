//! Distinct texts.
ghost use Rattle.std.specs.Prelude.{◌≡◌, ℕ, not, List, [], length, get_or, None, IfOk, OnOk};
ghost use Rattle.stage_model.specs.Dictionary.{has_bytes};
ghost use Rattle.item_keys.specs.Distinct.{Numbers, NumbersFew, found, number_of, texts_with};
ghost use Rattle.item_keys.specs.Slots.{second_hash_in};
ghost use Rattle.item_keys.specs.Search.{IsFree, IsFull, IsSearched};

use crate::hash::{hash_of, second_hash_of, slot_at, slots_for};
use std::alloc::Global;
use std::collections::BTreeMap;
use unit_pass::NoMemory;

/// Distinct texts that are lent, numbered from 0 on in the order in which they come.
///
/// A text's number is in one of eight slots that its hash names. Where other texts have all eight, it is in a tree, ordered
/// by a second hash and then by the text: so a look-up takes at most eight steps and those of a tree, whatever the texts are.
#[derive(Drop)]
pub struct Distinct<'a> {
    /// None, or one more than a number.
    slots: Vec<u32>,
    texts: Vec<&'a [u8]>,
    beside: BTreeMap<(u64, &'a [u8]), u32>,
}

/// Where a text's slots lead to.
#[derive(Clone, Copy)]
enum Place {
    /// The number that it has.
    At(u32),
    /// A slot for a text that is new.
    Free(usize),
    /// None of its slots is free or its own.
    Full,
}

/// No slot is taken.
fn free_slots(alloc: Global, count: usize) -> Result<Vec<u32>, NoMemory>
    ensures count { IfOk result (λ slots. length slots.items ≡ count) }
    ensures free { IfOk result (λ slots. (s : ℕ) → get_or slots.items s 0 ≡ 0) }
{
    let mut slots = Vec::new(alloc);
    match slots.resize(count, 0) {
        Ok(()) => Ok(slots),
        Err(_) => Err(NoMemory),
    }
}

impl<'a> Distinct<'a> {
    /// No texts yet. This many at most are found fast; there may be more.
    ///
    /// # Errors
    ///
    /// `NoMemory` where there is no memory for their slots.
    pub fn new(alloc: Global, most: u32) -> Result<Distinct<'a>, NoMemory>
        ensures { IfOk result (λ distinct. Numbers distinct []) }
    {
        let slots = free_slots(alloc, slots_for(most))?;
        Ok(Distinct {
            slots,
            texts: Vec::new(alloc),
            beside: BTreeMap::new(alloc),
        })
    }

    /// Looks at the slots of a text.
    #[inline(always)]
    fn place(&self, text: &[u8]) -> Place
        requires { (texts : List (List ℕ)) × Numbers self.now texts }
        ensures { (texts : List (List ℕ)) → Numbers self.now texts → IsSearched self.now texts text.now result }
    {
        let hash = hash_of(text);
        let slots = self.slots.as_slice();
        for step in 0..8usize {
            let at = slot_at(hash, step, slots.len());
            let first = slots[at];
            if first == 0 {
                return Place::Free(at);
            }
            if self.texts[first as usize - 1] == text {
                return Place::At(first - 1);
            }
        }
        Place::Full
    }

    /// The number of a text among them, behind which it goes where it is none of them; and whether it is new. Numbers are below
    /// 2^32.
    ///
    /// # Errors
    ///
    /// `NoMemory` where there is no memory for a text that is new. Nothing is known of the texts then.
    #[inline(always)]
    pub fn number(&mut self, text: &'a [u8]) -> Result<(u32, bool), NoMemory>
        requires { NumbersFew self.old }
        ensures number { IfOk result (λ found. (texts : List (List ℕ)) → Numbers self.old texts → found.0 ≡ number_of texts text.now) }
        ensures new { IfOk result (λ found. (texts : List (List ℕ)) → Numbers self.old texts → found.1 ≡ not (has_bytes texts text.now)) }
        ensures texts { OnOk result ((texts : List (List ℕ)) → Numbers self.old texts → Numbers self.new (texts_with texts text.now)) }
    {
        match self.place(text) {
            Place::At(number) => Ok((number, false)),
            Place::Free(at) => self.add_at(at, text),
            Place::Full => self.number_beside(text),
        }
    }

    /// Adds a text that is new. Its number is in this slot.
    #[inline(never)]
    fn add_at(&mut self, at: usize, text: &'a [u8]) -> Result<(u32, bool), NoMemory>
        requires few { NumbersFew self.old }
        requires free { (texts : List (List ℕ)) → Numbers self.old texts → IsFree self.old texts text.now at }
        ensures number { IfOk result (λ found. (texts : List (List ℕ)) → Numbers self.old texts → found.0 ≡ number_of texts text.now) }
        ensures new { IfOk result (λ found. (texts : List (List ℕ)) → Numbers self.old texts → found.1 ≡ not (has_bytes texts text.now)) }
        ensures texts { OnOk result ((texts : List (List ℕ)) → Numbers self.old texts → Numbers self.new (texts_with texts text.now)) }
    {
        let number = self.texts.len() as u32;
        match self.texts.push(text) {
            Ok(()) => {
                self.slots[at] = number + 1;
                Ok((number, true))
            }
            Err(_) => Err(NoMemory),
        }
    }

    /// The number of a text none of whose slots is free or its own.
    #[inline(never)]
    fn number_beside(&mut self, text: &'a [u8]) -> Result<(u32, bool), NoMemory>
        requires few { NumbersFew self.old }
        requires full { (texts : List (List ℕ)) → Numbers self.old texts → IsFull self.old texts text.now }
        ensures number { IfOk result (λ found. (texts : List (List ℕ)) → Numbers self.old texts → found.0 ≡ number_of texts text.now) }
        ensures new { IfOk result (λ found. (texts : List (List ℕ)) → Numbers self.old texts → found.1 ≡ not (has_bytes texts text.now)) }
        ensures texts { OnOk result ((texts : List (List ℕ)) → Numbers self.old texts → Numbers self.new (texts_with texts text.now)) }
    {
        let key = (second_hash_of(text), text);
        match self.beside.get(&key) {
            Some(number) => Ok((*number, false)),
            None => self.add_beside(key.0, text),
        }
    }

    /// Adds a text that is new. Its number is in the tree.
    fn add_beside(&mut self, second: u64, text: &'a [u8]) -> Result<(u32, bool), NoMemory>
        requires few { NumbersFew self.old }
        requires full { (texts : List (List ℕ)) → Numbers self.old texts → IsFull self.old texts text.now }
        requires second { second ≡ second_hash_in text.now }
        requires new { found self.old.beside text ≡ None }
        ensures number { IfOk result (λ found. (texts : List (List ℕ)) → Numbers self.old texts → found.0 ≡ number_of texts text.now) }
        ensures new { IfOk result (λ found. (texts : List (List ℕ)) → Numbers self.old texts → found.1 ≡ not (has_bytes texts text.now)) }
        ensures texts { OnOk result ((texts : List (List ℕ)) → Numbers self.old texts → Numbers self.new (texts_with texts text.now)) }
    {
        let number = self.texts.len() as u32;
        match self.texts.push(text) {
            Ok(()) => {}
            Err(_) => return Err(NoMemory),
        }
        match self.beside.insert((second, text), number) {
            Ok(_) => Ok((number, true)),
            Err(_) => Err(NoMemory),
        }
    }
}
