//! The format string of a union read, or the place of its first fault.
ghost use Rattle.std.specs.Prelude.{◌≡◌, ◌+◌, ◌<◌, ◌≤◌, ◌^◌, ◌++◌, ◌∷◌, [], length, IfOk, IfErr, IfSome, IfNone, IsTrue, ◌↔◌, decimal, map, codes, Bool};
ghost use Rattle.fmt_string.specs.promise.FormatString.{IsPrefix, StartsWith, StartsWithDigit};
ghost use Rattle.union_cols.specs.promise.UnionFormats.{UnionFormatIs, UnionFormatFault, AreIds, NoNewId, keyword, joined};
ghost use Rattle.union_cols.specs.UnionFormats.{IdsFault};
ghost use Rattle.union_cols.specs.FormatAnswers.{format_in, IsFormatFault, IsListFault, IsWithin};
ghost use Rattle.union_cols.specs.declared.format.FormatFault.TheVariants as faults;

use crate::number::{number_len, number_value};
use std::alloc::{AllocError, AllocFailed, Global};

/// What a union's format says.
#[derive(Drop)]
pub(crate) struct UnionFormat {
    pub(crate) dense: bool,
    pub(crate) ids: Vec<u8>,
}

/// Why a text is no union's format.
#[derive(Clone, Copy)]
pub(crate) enum FormatFault {
    At(usize),
    NoMemory,
}

impl From<AllocError> for FormatFault {
    ghost from_gives = { λ _ e. e ≡ faults.NoMemory };

    fn from(_e: AllocError) -> FormatFault {
        FormatFault::NoMemory
    }
}

impl<T: Drop> From<AllocFailed<T>> for FormatFault {
    ghost from_gives = { λ _ e. e ≡ faults.NoMemory };

    fn from(_e: AllocFailed<T>) -> FormatFault {
        FormatFault::NoMemory
    }
}

/// Whether the union is dense, and the list of ids behind the keyword.
fn keyword(text: &[u8]) -> Option<(bool, &[u8])>
    ensures some { IfSome result (λ found. text.now ≡ keyword found.0 ++ found.1.now) }
    ensures none { IfNone result ((dense : Bool) → IsPrefix (keyword dense) text.now → ⊥) }
{
    if text.len() < 4 {
        return None;
    }
    let (word, list) = text.split_at(4);
    if is_dense_word(word) {
        Some((true, list))
    } else if is_sparse_word(word) {
        Some((false, list))
    } else {
        None
    }
}

fn is_dense_word(word: &[u8]) -> bool
    ensures { IsTrue result ↔ (word.now ≡ codes "+ud:") }
{
    word == b"+ud:".as_slice()
}

fn is_sparse_word(word: &[u8]) -> bool
    ensures { IsTrue result ↔ (word.now ≡ codes "+us:") }
{
    word == b"+us:".as_slice()
}

/// The format of a union that a text spells, or the place of the text's first fault.
pub(crate) fn union_format(alloc: Global, text: &[u8]) -> Result<UnionFormat, FormatFault>
    ensures found { IfOk result (λ format. UnionFormatIs text.now (format_in format)) }
    ensures fault { IfErr result (IsFormatFault text.now) }
{
    let Some((dense, list)) = keyword(text) else {
        return Err(FormatFault::At(0));
    };
    match read_ids(alloc, list) {
        Ok(ids) => Ok(UnionFormat { dense, ids }),
        Err(FormatFault::At(place)) => Err(FormatFault::At(place + 4)),
        Err(FormatFault::NoMemory) => Err(FormatFault::NoMemory),
    }
}

/// The ids of a list, joined by commas, or the place of the list's first fault.
fn read_ids(alloc: Global, list: &[u8]) -> Result<Vec<u8>, FormatFault>
    ensures ids { IfOk result (λ ids. AreIds ids.items) }
    ensures spelled { IfOk result (λ ids. list.now ≡ joined (map decimal ids.items)) }
    ensures within { IfErr result (IsWithin (length list.now)) }
    ensures fault { IfErr result (IsListFault list.now) }
{
    let mut ids = Vec::new(alloc);
    if list.is_empty() {
        return Ok(ids);
    }
    let mut left = list;
    loop {
        let Some((id, rest)) = new_id(&ids, left) else {
            return Err(FormatFault::At(list.len() - left.len()));
        };
        ids.push(id)?;
        if rest.is_empty() {
            return Ok(ids);
        }
        let Some(more) = behind_comma(rest) else {
            return Err(FormatFault::At(list.len() - rest.len()));
        };
        left = more;
    }
}

/// What is behind a comma, where the text begins with one.
fn behind_comma(text: &[u8]) -> Option<&[u8]>
    ensures some { IfSome result (λ rest. text.now ≡ 44 ∷ rest.now) }
    ensures none { IfNone result (StartsWith 44 text.now → ⊥) }
{
    let (first, rest) = text.split_first()?;
    if *first == b',' { Some(rest) } else { None }
}

/// The id in front of a text, where it isn't among the ids before it, and what follows its digits.
fn new_id<'a>(ids: &[u8], text: &'a [u8]) -> Option<(u8, &'a [u8])>
    requires { AreIds ids.now }
    ensures ids { IfSome result (λ found. AreIds (ids.now ++ found.0 ∷ [])) }
    ensures split { IfSome result (λ found. text.now ≡ decimal found.0 ++ found.1.now) }
    ensures ends { IfSome result (λ found. StartsWithDigit found.1.now → ⊥) }
    ensures none { IfNone result (NoNewId ids.now text.now) }
{
    let len = number_len(text)?;
    let (digits, rest) = text.split_at(len);
    let value = number_value(digits);
    if value > 127 {
        return None;
    }
    let id = value as u8;
    if ids.contains(&id) {
        return None;
    }
    Some((id, rest))
}
