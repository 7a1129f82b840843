//! Items that are stored in place, or between offsets, read from the bytes of buffers. Places count items of the buffer.
ghost use Rattle.std.specs.Prelude.{◌≡◌, ◌≢◌, ◌==◌, ◌+◌, ◌-◌, ◌*◌, ◌<◌, ◌≤◌, ◌≤ℤ◌, ◌^◌, pos, true, IsTrue, length, take, drop};
ghost use Rattle.data_types.specs.promise.Packed.{bit, meant, number_at, offset_width};
ghost use Rattle.data_types.specs.Packed.{IsWidth};
ghost use Rattle.layout_rules.specs.promise.Layout.{natural, offset_in};

use bit_pack::{bit_at, int_at, offset_at, unsigned_at};

/// The truth value at a place ("Arrow Columnar Format", "Validity bitmaps": the least significant bit first).
#[inline(always)]
pub fn truth_at(stored: &[u8], place: u64) -> bool
    requires { place < 8 * length stored.now }
    ensures { result ≡ (bit stored.now place == 1) }
{
    bit_at(stored, place as usize)
}

/// The whole number at a place, of a width in bytes, with a sign or without.
#[inline(always)]
pub fn whole_at(stored: &[u8], place: u64, width: u8, signed: bool) -> i128
    requires width { IsWidth width }
    requires widest { width ≡ 16 → IsTrue signed }
    requires within { (place + 1) * width ≤ length stored.now }
    ensures { result ≡ meant width signed (number_at stored.now (place * width) width) }
{
    let width = usize::from(width);
    int_at(stored, place as usize * width, width, signed)
}

/// The number without sign at a place, of a width of at most 8 bytes.
#[inline(always)]
pub(crate) fn bits_at(stored: &[u8], place: u64, width: u8) -> u64
    requires width { IsWidth width }
    requires narrow { width ≢ 16 }
    requires within { (place + 1) * width ≤ length stored.now }
    ensures { result ≡ number_at stored.now (place * width) width }
{
    let width = usize::from(width);
    unsigned_at(stored, place as usize * width, width)
}

/// The bytes at a place, of items of a width in bytes.
#[inline(always)]
pub(crate) fn bytes_at(stored: &[u8], place: u64, width: u32) -> &[u8]
    requires within { (place + 1) * width ≤ length stored.now }
    ensures { result.now ≡ take width (drop (place * width) stored.now) }
{
    let width = width as usize;
    let from = place as usize * width;
    &stored[from..from + width]
}

/// The offset of a list or a text at a place, of 64 bits where offsets are wide and else of 32.
#[inline(always)]
pub fn start_at(wide: bool, offsets: &[u8], place: u64) -> u64
    requires there { (place + 1) * offset_width wide ≤ length offsets.now }
    requires from { pos 0 ≤ℤ offset_in wide offsets.now place }
    ensures { result ≡ natural (offset_in wide offsets.now place) }
{
    offset_at(offsets, place as usize, wide) as u64
}

/// The bytes between the offset at a place and the next one ("Arrow Columnar Format", "Variable-size binary layout").
#[inline(always)]
pub(crate) fn text_at<'a>(wide: bool, offsets: &[u8], text: &'a [u8], place: u64) -> &'a [u8]
    requires there { (place + 1 + 1) * offset_width wide ≤ length offsets.now }
    requires from { pos 0 ≤ℤ offset_in wide offsets.now place }
    requires rise { offset_in wide offsets.now place ≤ℤ offset_in wide offsets.now (place + 1) }
    requires within { offset_in wide offsets.now (place + 1) ≤ℤ pos (length text.now) }
    ensures { result.now ≡ take (natural (offset_in wide offsets.now (place + 1)) - natural (offset_in wide offsets.now place))
        (drop (natural (offset_in wide offsets.now place)) text.now) }
{
    let here = start_at(wide, offsets, place);
    let next = start_at(wide, offsets, place + 1);
    &text[here as usize..next as usize]
}
