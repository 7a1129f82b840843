//! A text whose length has a bound.
ghost use Rattle.std.specs.Prelude.{◌≡◌, ◌+◌, ◌<◌, ◌≤◌, ◌++◌, ◌∷◌, [], OnOk, OnErr, length, vec_len};
ghost use Rattle.std.specs.Fmt.{signed_decimal};
ghost use Rattle.data_types.specs.promise.FieldText.{last_digits};
ghost use Rattle.data_types.specs.ValueTexts.{text_limit};

use field_codec::{bits_text, whole_text};
use std::alloc::Global;
use std::marker::Model;
use unit_pass::NoMemory;

/// The most bytes of a text.
const LIMIT: usize = 1 << 31;

/// A text of at most 2^31 bytes, and the room in which its numbers are made. What would make it longer is refused as out of
/// memory. Contracts see the bytes.
#[derive(Drop)]
pub struct BoundedText {
    bytes: Vec<u8>,
    room: Vec<u8>,
}

impl Model for BoundedText {
    ghost use Rattle.std.specs.Prelude.{ℕ, List, ◌≤◌, vec_len};
    ghost use Rattle.data_types.specs.ValueTexts.{text_limit};

    ghost Value = { List ℕ };

    ghost view = { λ text. text.bytes.items };

    ghost invariant = { λ text. vec_len text.bytes ≤ text_limit };
}

/// Appends a piece, unless the bytes would be too many.
#[inline(always)]
fn append(bytes: &mut Vec<u8>, piece: &[u8]) -> Result<(), NoMemory>
    requires { vec_len bytes.old ≤ text_limit }
    ensures appended { OnOk result (bytes.new.items ≡ bytes.old.items ++ piece.now) }
    ensures within { vec_len bytes.new ≤ text_limit }
{
    if piece.len() > LIMIT - bytes.len() {
        return Err(NoMemory);
    }
    bytes.extend_from_slice(piece)?;
    Ok(())
}

impl BoundedText {
    /// A text without bytes. Takes no memory.
    pub fn new(alloc: Global) -> BoundedText
        ensures { result ≡ [] }
    {
        BoundedText {
            bytes: Vec::new(alloc),
            room: Vec::new(alloc),
        }
    }

    /// Takes room for this many bytes more at once. `NoMemory` comes also where the text would be too long with them.
    pub fn take_room(&mut self, count: u32) -> Result<(), NoMemory>
        ensures text { self.new ≡ self.old }
        ensures fits { OnOk result (length self.old + count ≤ text_limit) }
    {
        self.has_room(u64::from(count))?;
        self.bytes.reserve_exact(count as usize)?;
        Ok(())
    }

    /// `NoMemory` where the text would be too long with this many bytes more, before any of them is made.
    pub fn has_room(&self, count: u64) -> Result<(), NoMemory>
        ensures fits { OnOk result (length self.now + count ≤ text_limit) }
        ensures long { OnErr result (text_limit < length self.now + count) }
    {
        if count > (LIMIT - self.bytes.len()) as u64 {
            return Err(NoMemory);
        }
        Ok(())
    }

    /// Appends a byte.
    #[inline(always)]
    pub fn push(&mut self, byte: u8) -> Result<(), NoMemory>
        ensures { OnOk result (self.new ≡ self.old ++ byte ∷ []) }
    {
        if self.bytes.len() >= LIMIT {
            return Err(NoMemory);
        }
        self.bytes.push(byte)?;
        Ok(())
    }

    /// Appends bytes as they are.
    #[inline(always)]
    pub fn push_bytes(&mut self, piece: &[u8]) -> Result<(), NoMemory>
        ensures { OnOk result (self.new ≡ self.old ++ piece.now) }
    {
        append(&mut self.bytes, piece)
    }

    /// Appends a whole number in decimal.
    #[inline(always)]
    pub fn push_whole(&mut self, number: i128) -> Result<(), NoMemory>
        ensures { OnOk result (self.new ≡ self.old ++ signed_decimal number) }
    {
        let text = whole_text(number, &mut self.room)?;
        append(&mut self.bytes, text)
    }

    /// Appends 64 bits as 16 hexadecimal digits in lower case.
    pub fn push_bits(&mut self, bits: u64) -> Result<(), NoMemory>
        ensures { OnOk result (self.new ≡ self.old ++ last_digits 16 16 bits) }
    {
        let text = bits_text(64, bits, &mut self.room)?;
        append(&mut self.bytes, text)
    }

    /// The bytes of the text.
    pub fn into_bytes(self) -> Vec<u8>
        ensures bytes { result.items ≡ self }
        ensures within { vec_len result ≤ text_limit }
    {
        let BoundedText { bytes, room: _ } = self;
        bytes
    }
}
