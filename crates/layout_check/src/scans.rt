//! Scans over whole buffers that pass what is in order, so that items are looked at one by one only for a fault.
ghost use Rattle.std.specs.Prelude.{◌≡◌, None, is_none, IsTrue, true, false, ◌⊎◌, ◌+◌, ◌-◌, ◌*◌, ◌^◌, ◌<◌, ◌≤◌, length, Option};
ghost use Rattle.std.specs.Str.{IsCharBoundary};
ghost use Rattle.data_types.specs.promise.Packed.{offset_width};
ghost use Rattle.layout_rules.specs.promise.Layout.{natural};
ghost use Rattle.layout_rules.specs.promise.Rules.{first_below, falls_in};
ghost use Rattle.layout_check.specs.Scans.{outside_in, AreBorders};

use crate::runs;
use bit_pack::{int_at, offset_at};

#[tactic(auto, using(crate::proofs::Passes::one_more))]
fn narrow_rises(offsets: &[u8], start: usize, len: usize) -> bool
    requires fits { start + len + 1 < 2 ^ 64 }
    requires long { (start + len + 1) * 4 ≤ length offsets.now }
    ensures { result ≡ is_none (first_below (falls_in false offsets.now start) len) }
{
    let mut rises = true;
    for i in 0..len {
        if offset_at(offsets, start + i + 1, false) < offset_at(offsets, start + i, false) {
            rises = false;
        }
    }
    rises
}

#[tactic(auto, using(crate::proofs::Passes::one_more))]
fn wide_rises(offsets: &[u8], start: usize, len: usize) -> bool
    requires fits { start + len + 1 < 2 ^ 64 }
    requires long { (start + len + 1) * 8 ≤ length offsets.now }
    ensures { result ≡ is_none (first_below (falls_in true offsets.now start) len) }
{
    let mut rises = true;
    for i in 0..len {
        if offset_at(offsets, start + i + 1, true) < offset_at(offsets, start + i, true) {
            rises = false;
        }
    }
    rises
}

/// No item's offset is above the next one.
pub(crate) fn offsets_rise(wide: bool, offsets: &[u8], start: usize, len: usize) -> bool
    requires fits { start + len + 1 < 2 ^ 64 }
    requires long { (start + len + 1) * offset_width wide ≤ length offsets.now }
    ensures { result ≡ is_none (first_below (falls_in wide offsets.now start) len) }
{
    if wide {
        wide_rises(offsets, start, len)
    } else {
        narrow_rises(offsets, start, len)
    }
}

fn is_border(offset: i64, base: usize, text: &[u8]) -> bool
    ensures { IsTrue result → IsCharBoundary text.now (natural offset - base) }
{
    if offset < 0 {
        return false;
    }
    let place = offset as usize;
    place >= base && runs::is_border(text, place - base)
}

/// Each offset, counted from a base on, is at a border of two characters of a text.
#[tactic(auto, using(crate::proofs::Scanned::borders))]
pub(crate) fn cut_between_characters(
    wide: bool,
    offsets: &[u8],
    start: usize,
    len: usize,
    base: usize,
    text: &[u8],
) -> bool
    requires fits { start + len + 1 < 2 ^ 64 }
    requires long { (start + len + 1) * offset_width wide ≤ length offsets.now }
    ensures { IsTrue result → AreBorders wide offsets.now start base text.now (len + 1) }
{
    for i in 0..len + 1 {
        if !is_border(offset_at(offsets, start + i, wide), base, text) {
            return false;
        }
    }
    true
}

/// Each index, valid or not, is a place of a dictionary of this many items.
#[inline(always)]
fn inside(width: usize, signed: bool, stored: &[u8], start: usize, len: usize, total: i64) -> bool
    requires fits { start + len < 2 ^ 64 }
    requires width { (width ≡ 1) ⊎ (width ≡ 2) ⊎ (width ≡ 4) ⊎ (width ≡ 8) }
    requires long { (start + len) * width ≤ length stored.now }
    ensures { IsTrue result → first_below (outside_in width signed stored.now start total) len ≡ None }
{
    let mut inside = true;
    for i in 0..len {
        let index = int_at(stored, (start + i) * width, width, signed);
        if index < 0 || index >= i128::from(total) {
            inside = false;
        }
    }
    inside
}

/// Each index, valid or not, is a place of a dictionary of this many items.
pub(crate) fn indices_inside(
    width: usize,
    signed: bool,
    stored: &[u8],
    start: usize,
    len: usize,
    total: i64,
) -> bool
    requires fits { start + len < 2 ^ 64 }
    requires width { (width ≡ 1) ⊎ (width ≡ 2) ⊎ (width ≡ 4) ⊎ (width ≡ 8) }
    requires long { (start + len) * width ≤ length stored.now }
    ensures { IsTrue result → first_below (outside_in width signed stored.now start total) len ≡ None }
{
    if width == 4 && signed {
        inside(4, true, stored, start, len, total)
    } else {
        inside(width, signed, stored, start, len, total)
    }
}
