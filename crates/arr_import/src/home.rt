//! Where an item is once its dictionaries are followed.
ghost use Rattle.std.specs.Prelude.{◌≡◌, true, None, MatchOption, ◌+◌, ◌<◌, ◌≤ℤ◌, pos};
ghost use Rattle.tree_model.specs.promise.TreeParts.{dictionary_of};
ghost use Rattle.raw_array.specs.promise.Members.{members_of};
ghost use Rattle.data_types.specs.declared.storage.Storage.TheVariants as storages;
ghost use Rattle.data_types.specs.declared.typed.Typed.{out-Typed};
ghost use Rattle.data_types.specs.TypedView.{kind_of, dict_in};
ghost use Rattle.layout_rules.specs.promise.Layout.{is_valid as is_valid_at, natural};
ghost use Rattle.arr_import.specs.Window.{IsDictionary, home_of, index_at, item_at};
ghost use Rattle.arr_import.specs.Cols.{window_of};
ghost use Rattle.arr_import.specs.StoredItems.{IsIndexThere};
ghost use Rattle.arr_import.specs.Shown.{Shows};

use crate::col::Col;
use crate::stored::whole_at;
use crate::value_ref::ValueRef;
use data_types::{Storage, kinds_of_typed};
use layout_rules::{lawful_has_no_fault, lawful_items_lie_within, lawful_parts, lawful_root};

impl<'a> Col<'a> {
    /// The dictionary, where there is one.
    pub(crate) fn dictionary(&self) -> Option<Col<'a>>
        ensures { MatchOption result (dict_in (out-Typed self.now.typed.now).dict ≡ None)
            (λ col. IsDictionary (window_of col) (dict_in (out-Typed self.now.typed.now).dict) (dictionary_of self.now.array.now)) }
    {
        kinds_of_typed(self.typed);
        lawful_has_no_fault(self.typed, self.array);
        lawful_root(self.typed, self.array);
        lawful_parts(self.typed, self.array);
        match (&self.typed.dict, self.array.dictionary()) {
            (Some(dict), Some(dictionary)) => {
                lawful_has_no_fault(dict, dictionary);
                lawful_root(dict, dictionary);
                Some(Col::window(dict, dictionary, 0, dictionary.length() as u64))
            }
            _ => None,
        }
    }

    /// What holds of the index that stands for an item that isn't null.
    fn index_is_there(&self, i: u64, dictionary: &Col<'a>)
        requires inside { i < self.now.count }
        requires valid { is_valid_at (members_of self.now.array.now) (self.now.start + i) ≡ true }
        requires dictionary { IsDictionary (window_of dictionary.now) (dict_in (out-Typed self.now.typed.now).dict) (dictionary_of self.now.array.now) }
        ensures there { IsIndexThere self.now.storage (members_of self.now.array.now) (self.now.start + i)
            (index_at (kind_of self.now.typed.now) (members_of self.now.array.now) (self.now.start + i)) dictionary.now.count }
        ensures value { item_at (window_of dictionary.now) (index_at (kind_of self.now.typed.now) (members_of self.now.array.now) (self.now.start + i))
            ≡ item_at (window_of self.now) i }
    {
        kinds_of_typed(self.typed);
        lawful_has_no_fault(self.typed, self.array);
        lawful_root(self.typed, self.array);
        lawful_items_lie_within(self.typed, self.array);
    }

    /// The index that stands for an item that isn't null.
    pub(crate) fn entry(&self, i: u64, dictionary: &Col<'a>) -> u64
        requires inside { i < self.now.count }
        requires valid { is_valid_at (members_of self.now.array.now) (self.now.start + i) ≡ true }
        requires dictionary { IsDictionary (window_of dictionary.now) (dict_in (out-Typed self.now.typed.now).dict) (dictionary_of self.now.array.now) }
        ensures index { result ≡ index_at (kind_of self.now.typed.now) (members_of self.now.array.now) (self.now.start + i) }
        ensures inside { result < dictionary.now.count }
        ensures value { item_at (window_of dictionary.now) result ≡ item_at (window_of self.now) i }
    {
        self.index_is_there(i, dictionary);
        match self.storage {
            Storage::Wholes { bits, signed } => self.entry_in(i, bits, signed, dictionary),
            _ => 0,
        }
    }

    /// The same, where the indices are stored in this many bits.
    #[inline(always)]
    pub(crate) fn entry_in(&self, i: u64, bits: u8, signed: bool, dictionary: &Col<'a>) -> u64
        requires inside { i < self.now.count }
        requires valid { is_valid_at (members_of self.now.array.now) (self.now.start + i) ≡ true }
        requires storage { self.now.storage ≡ storages.Wholes bits signed }
        requires dictionary { IsDictionary (window_of dictionary.now) (dict_in (out-Typed self.now.typed.now).dict) (dictionary_of self.now.array.now) }
        ensures index { result ≡ index_at (kind_of self.now.typed.now) (members_of self.now.array.now) (self.now.start + i) }
        ensures inside { result < dictionary.now.count }
        ensures value { item_at (window_of dictionary.now) result ≡ item_at (window_of self.now) i }
    {
        self.index_is_there(i, dictionary);
        self.item_is_there(i);
        let index = whole_at(self.stored, self.place(i), bits / 8, signed);
        number_of(index, dictionary.count)
    }

    /// An item of a column without a dictionary, or a null one.
    pub(crate) fn own_value(&self, i: u64) -> ValueRef<'a>
        requires inside { i < self.now.count }
        requires own { is_valid_at (members_of self.now.array.now) (self.now.start + i) ≡ true → dict_in (out-Typed self.now.typed.now).dict ≡ None }
        ensures { Shows result (item_at (window_of self.now) i) }
    {
        kinds_of_typed(self.typed);
        lawful_has_no_fault(self.typed, self.array);
        lawful_root(self.typed, self.array);
        if self.is_valid(i) {
            self.item(i)
        } else {
            ValueRef::Null
        }
    }
}

impl<'a> Col<'a> {
    /// A column and an item's number in it.
    #[tactic(auto, using(crate::proofs::Reading::homes))]
    pub(crate) fn home_at(&self, i: u64) -> (Col<'a>, u64)
        requires { i < self.now.count }
        ensures window { window_of result.0 ≡ (home_of (window_of self.now) i).window }
        ensures place { result.1 ≡ (home_of (window_of self.now) i).place }
        ensures inside { result.1 < result.0.count }
        ensures value { item_at (window_of result.0) result.1 ≡ item_at (window_of self.now) i }
        ensures own { is_valid_at (members_of result.0.array.now) (result.0.start + result.1) ≡ true → dict_in (out-Typed result.0.typed.now).dict ≡ None }
    {
        kinds_of_typed(self.typed);
        lawful_has_no_fault(self.typed, self.array);
        lawful_root(self.typed, self.array);
        if !self.is_valid(i) {
            return (*self, i);
        }
        match self.dictionary() {
            Some(dictionary) => dictionary.home_at(self.entry(i, &dictionary)),
            None => (*self, i),
        }
    }
}

fn number_of(index: i128, total: u64) -> u64
    requires from { pos 0 ≤ℤ index }
    requires bound { natural index < total }
    ensures { result ≡ natural index }
{
    index as u64
}
