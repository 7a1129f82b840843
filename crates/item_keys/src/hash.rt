//! Where a text's number is.
ghost use Rattle.std.specs.Prelude.{◌≡◌, ◌<◌, ◌≤◌, ◌^◌};
ghost use Rattle.item_keys.specs.Slots.{hash_in, second_hash_in, slot_in};

use std::hash::{DefaultHasher, FoldHasher, Hasher};

/// The hash of a text, of 32 bits.
#[inline(always)]
pub(crate) fn hash_of(text: &[u8]) -> u32
    ensures { result ≡ hash_in text.now }
{
    let mut hasher = FoldHasher::default();
    hasher.write(text);
    (hasher.finish() >> 32) as u32
}

/// A second hash of a text, of 64 bits: SipHash-1-3, for which nobody can choose many texts with one hash.
#[inline(never)]
pub(crate) fn second_hash_of(text: &[u8]) -> u64
    ensures { result ≡ second_hash_in text.now }
{
    let mut hasher = DefaultHasher::default();
    hasher.write(text);
    hasher.finish()
}

/// The slot that comes this many steps behind the first one of a hash.
#[inline(always)]
pub(crate) fn slot_at(hash: u32, step: usize, slots: usize) -> usize
    requires some { 0 < slots }
    requires near { step ≤ 2 ^ 32 }
    ensures is { result ≡ slot_in slots hash step }
    ensures inside { result < slots }
{
    (hash as usize + step) & (slots - 1)
}

/// How many slots there are for this many texts: a power of two from 16 to 2^29, and up to that at least twice as many.
pub(crate) fn slots_for(most: u32) -> usize
    ensures { 0 < result }
{
    1usize << (33 - most.leading_zeros()).clamp(4, 29)
}
