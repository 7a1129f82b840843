//! Distinct keys, numbered in the order in which they come.
ghost use Rattle.std.specs.Prelude.{◌≡◌, ◌<◌, ◌-◌, ◌^◌, [], List, Option, None, Some, IfOk, length};
ghost use Rattle.arr_import.specs.Lent.{lent_bytes};
ghost use Rattle.row_groups.specs.Numbering.{IsNumbered, IsNumbering, Key, shifted};

use item_keys::Distinct;
use std::alloc::Global;
use unit_pass::NoMemory;

/// Distinct keys, numbered from 0 on in the order in which they come: texts that are lent, and a null.
#[derive(Drop)]
pub(crate) struct Numbering<'a> {
    texts: Distinct<'a>,
    /// How many texts there are.
    known: u32,
    /// How many texts came before the null, which is its number, once it came.
    null: Option<u32>,
}

/// The number of a text among all keys.
fn shifted(null: Option<u32>, text: u32) -> u32
    requires { text < 2 ^ 32 - 1 }
    ensures { result ≡ shifted null text }
{
    match null {
        Some(first) if first <= text => text + 1,
        _ => text,
    }
}

impl<'a> Numbering<'a> {
    /// No keys yet. This many at most are found fast.
    pub(crate) fn new(alloc: Global, most: u32) -> Result<Numbering<'a>, NoMemory>
        ensures { IfOk result (λ numbering. IsNumbering numbering []) }
    {
        Ok(Numbering {
            texts: Distinct::new(alloc, most)?,
            known: 0,
            null: None,
        })
    }

    /// The number of a key among them, behind which it goes where it is none of them; and whether it is new.
    #[inline(always)]
    pub(crate) fn number(&mut self, key: Option<&'a [u8]>) -> Result<(u32, bool), NoMemory>
        requires { (keys : List Key) × IsNumbering self.old keys × (length keys < 2 ^ 32 - 1) }
        ensures { IfOk result (λ found. (keys : List Key) → IsNumbering self.old keys → IsNumbered self.new keys (lent_bytes key.entry) found.0 found.1) }
    {
        match key {
            Some(text) => self.text_number(text),
            None => Ok(self.null_number()),
        }
    }

    fn text_number(&mut self, text: &'a [u8]) -> Result<(u32, bool), NoMemory>
        requires { (keys : List Key) × IsNumbering self.old keys × (length keys < 2 ^ 32 - 1) }
        ensures { IfOk result (λ found. (keys : List Key) → IsNumbering self.old keys → IsNumbered self.new keys (Some text.now) found.0 found.1) }
    {
        let (number, new) = self.texts.number(text)?;
        self.known += u32::from(new);
        Ok((shifted(self.null, number), new))
    }

    fn null_number(&mut self) -> (u32, bool)
        ensures { (keys : List Key) → IsNumbering self.old keys → IsNumbered self.new keys None result.0 result.1 }
    {
        match self.null {
            Some(number) => (number, false),
            None => {
                self.null = Some(self.known);
                (self.known, true)
            }
        }
    }
}
