//! A column of indices with the column of its dictionary, which is found once and not for each item.
ghost use Rattle.std.specs.Prelude.{◌≡◌, true, false, None, ◌≤ℤ◌, ◌<ℤ◌, ℕ, List, IfSome, IfNone, pos, ◌<◌, ◌≢◌};
ghost use Rattle.data_types.specs.promise.Value.Value.{Null, Bytes};
ghost use Rattle.tree_model.specs.promise.TreeParts.{dictionary_of};
ghost use Rattle.data_types.specs.TypedView.{dict_in};
ghost use Rattle.data_types.specs.declared.typed.Typed.{out-Typed};
ghost use Rattle.layout_rules.specs.promise.Layout.{natural};
ghost use Rattle.arr_import.specs.Window.{IsDictionary, item_at};
ghost use Rattle.arr_import.specs.Cols.{window_of};
ghost use Rattle.arr_import.specs.Dictionaries.{IsDictionary-prop};

use crate::col::Col;
use data_types::Storage;
use layout_rules::{lawful_has_no_fault, lawful_root};

/// A column of indices with the column of its dictionary.
#[derive(Clone, Copy)]
pub struct Indexed<'a> {
    indices: Col<'a>,
    entries: Col<'a>,
    ghost behind: { IsDictionary (window_of entries) (dict_in (out-Typed indices.typed.now).dict) (dictionary_of indices.array.now) } by { IsDictionary-prop (window_of entries) (dict_in (out-Typed indices.typed.now).dict) (dictionary_of indices.array.now) },
}

impl<'a> Col<'a> {
    ghost use Rattle.arr_import.specs.Indexing.{shown_by, entries_of};

    /// The column as indices ("Arrow Columnar Format", "Dictionary-encoded Layout"); none where it has no dictionary.
    pub fn indexed(&self) -> Option<Indexed<'a>>
        ensures some { IfSome result (λ indexed. shown_by indexed ≡ window_of self.now) }
        ensures behind { IfSome result (λ indexed. IsDictionary (entries_of indexed) (dictionary_of (window_of self.now).typed)
            (dictionary_of (window_of self.now).array)) }
        ensures none { IfNone result (dictionary_of (window_of self.now).typed ≡ None) }
    {
        self.window_is();
        match self.dictionary() {
            Some(entries) => Some(Indexed {
                indices: *self,
                entries,
            }),
            None => None,
        }
    }
}

impl<'a> Indexed<'a> {
    ghost use Rattle.arr_import.specs.Indexing.{shown_by, entries_of, index_in, has_index};

    /// The dictionary's items, as a column.
    #[inline(always)]
    pub fn entries(&self) -> &Col<'a>
        ensures window { window_of result.now ≡ entries_of self.now }
        ensures behind { IsDictionary (window_of result.now) (dictionary_of (shown_by self.now).typed) (dictionary_of (shown_by self.now).array) }
    {
        self.indices.window_is();
        &self.entries
    }

    /// The index that is stored for item `i`, a number of the entries; none where item `i` is null. The entry may be null.
    #[inline(always)]
    pub fn index(&self, i: i64) -> Option<u64>
        requires from { pos 0 ≤ℤ i }
        requires below { i <ℤ pos (shown_by self.now).count }
        ensures some { IfSome result (λ index. index ≡ index_in (shown_by self.now) (natural i)) }
        ensures valid { IfSome result (λ index. has_index (shown_by self.now) (natural i) ≡ true) }
        ensures inside { IfSome result (λ index. index < (entries_of self.now).count) }
        ensures value { IfSome result (λ index. item_at (entries_of self.now) index ≡ item_at (shown_by self.now) (natural i)) }
        ensures none { IfNone result (has_index (shown_by self.now) (natural i) ≡ false) }
        ensures null { IfNone result (item_at (shown_by self.now) (natural i) ≡ Null) }
    {
        let i = i as u64;
        if !self.indices.is_valid(i) {
            self.indices.own_item_is(i);
            return None;
        }
        Some(self.entry(i))
    }

    /// The bytes of item `i`, as [`Col::bytes`] of the indices.
    #[inline(always)]
    pub fn bytes(&self, i: i64) -> Option<&'a [u8]>
        requires from { pos 0 ≤ℤ i }
        requires below { i <ℤ pos (shown_by self.now).count }
        ensures some { IfSome result (λ bytes. item_at (shown_by self.now) (natural i) ≡ Bytes bytes.now) }
        ensures none { IfNone result ((bytes : List ℕ) → item_at (shown_by self.now) (natural i) ≢ Bytes bytes) }
    {
        match self.index(i) {
            Some(index) => {
                lawful_has_no_fault(self.entries.typed, self.entries.array);
                lawful_root(self.entries.typed, self.entries.array);
                self.entries.bytes(index as i64)
            }
            None => None,
        }
    }
}

impl<'a> Indexed<'a> {
    ghost use Rattle.arr_import.specs.Indexing.{shown_by, entries_of, index_in, has_index};

    /// The index of an item that isn't null. The common ones, of 32 bits with a sign, are read in line.
    #[inline(always)]
    fn entry(&self, i: u64) -> u64
        requires inside { i < (shown_by self.now).count }
        requires valid { has_index (shown_by self.now) i ≡ true }
        ensures index { result ≡ index_in (shown_by self.now) i }
        ensures inside { result < (entries_of self.now).count }
        ensures value { item_at (entries_of self.now) result ≡ item_at (shown_by self.now) i }
    {
        self.indices.window_is();
        match self.indices.storage {
            Storage::Wholes {
                bits: 32,
                signed: true,
            } => self.indices.entry_in(i, 32, true, &self.entries),
            _ => self.rare_entry(i),
        }
    }

    /// The same of indices of any width.
    #[inline(never)]
    fn rare_entry(&self, i: u64) -> u64
        requires inside { i < (shown_by self.now).count }
        requires valid { has_index (shown_by self.now) i ≡ true }
        ensures index { result ≡ index_in (shown_by self.now) i }
        ensures inside { result < (entries_of self.now).count }
        ensures value { item_at (entries_of self.now) result ≡ item_at (shown_by self.now) i }
    {
        self.indices.window_is();
        self.indices.entry(i, &self.entries)
    }
}
