//! The least and the greatest number of each width as its bytes, both ways, and bits and counts across bytes.
ghost use Rattle.std.specs.Prelude.{◌≡◌, length, IsTrue};
ghost use Rattle.data_types.specs.Packed.{IsWidth, FitsWidth};

use super::*;
use crate::bits::clear_bits;
use crate::plain::{put_unsigned, unsigned_at};
use std::process::Abort;
use std::test::*;

fn both_ways(rt: &impl Abort, width: usize, signed: bool, value: i128, stored: &[u8])
    requires width { IsWidth width }
    requires widest { width ≡ 16 → IsTrue signed }
    requires fits { FitsWidth width value }
    requires whole { length stored.now ≡ width }
{
    let mut buffer = [9u8; 18];
    put_int(&mut buffer, 1, width, value);
    assert_eq!(rt; &buffer[..1], [9].as_slice(), "before {value}");
    assert_eq!(rt; &buffer[1..1 + width], stored, "bytes of {value}");
    assert!(rt;
        buffer[1 + width..].iter().all(|byte| *byte == 9),
        "behind {value}"
    );
    assert_eq!(rt; int_at(&buffer, 1, width, signed), value, "back");
    let mut again = [9u8; 18];
    put_unsigned(&mut again, 1, width, unsigned_at(&buffer, 1, width));
    assert_eq!(rt; again.as_slice(), buffer.as_slice(), "{value} byte by byte");
}

#[test]
fn borders_of_each_width(rt: HostRuntime) {
    both_ways(&rt, 1, true, -128, &[0x80]);
    both_ways(&rt, 1, true, 127, &[0x7f]);
    both_ways(&rt, 1, true, -1, &[0xff]);
    both_ways(&rt, 1, false, 255, &[0xff]);
    both_ways(&rt, 2, true, -32_768, &[0, 0x80]);
    both_ways(&rt, 2, true, 32_767, &[0xff, 0x7f]);
    both_ways(&rt, 2, false, 65_535, &[0xff, 0xff]);
    both_ways(&rt, 2, false, 258, &[2, 1]);
    both_ways(&rt, 4, true, -2_147_483_648, &[0, 0, 0, 0x80]);
    both_ways(&rt, 4, true, 16_909_060, &[4, 3, 2, 1]);
    both_ways(&rt, 4, false, 4_294_967_295, &[0xff; 4]);
    both_ways(
        &rt,
        8,
        true,
        -9_223_372_036_854_775_808,
        &[0, 0, 0, 0, 0, 0, 0, 0x80],
    );
    both_ways(
        &rt,
        8,
        true,
        -2,
        &[0xfe, 0xff, 0xff, 0xff, 0xff, 0xff, 0xff, 0xff],
    );
    both_ways(&rt, 8, false, 18_446_744_073_709_551_615, &[0xff; 8]);
    both_ways(&rt, 16, true, -1, &[0xff; 16]);
    both_ways(
        &rt,
        16,
        true,
        -170_141_183_460_469_231_731_687_303_715_884_105_728,
        &[0, 0, 0, 0, 0, 0, 0, 0, 0, 0, 0, 0, 0, 0, 0, 0x80],
    );
    both_ways(
        &rt,
        16,
        true,
        18_446_744_073_709_551_617,
        &[1, 0, 0, 0, 0, 0, 0, 0, 1, 0, 0, 0, 0, 0, 0, 0],
    );
}

#[test]
fn offsets_of_both_widths(rt: HostRuntime) {
    let narrow = [0, 0, 0, 0, 3, 0, 0, 0, 0xff, 0xff, 0xff, 0xff];
    for (item, want) in [(0, 0), (1, 3), (2, -1)] {
        assert_eq!(rt; offset_at(&narrow, item, false), want);
    }
    let wide = [
        0, 0, 0, 0, 1, 0, 0, 0, 0xfe, 0xff, 0xff, 0xff, 0xff, 0xff, 0xff, 0xff,
    ];
    for (item, want) in [(0, 4_294_967_296), (1, -2)] {
        assert_eq!(rt; offset_at(&wide, item, true), want);
    }
}

#[test]
fn bits_are_least_significant_first(rt: HostRuntime) {
    let mut bytes = [0u8; 3];
    for at in [0, 2, 9, 23] {
        set_bit(&mut bytes, at, true);
    }
    assert_eq!(rt; bytes, [0x05, 0x02, 0x80]);
    set_bit(&mut bytes, 2, false);
    assert_eq!(rt; bytes, [0x01, 0x02, 0x80]);
    assert!(rt; bit_at(&bytes, 9) && !bit_at(&bytes, 8));
}

#[test]
fn clear_bits_are_counted_across_bytes(rt: HostRuntime) {
    let bytes = [0xff, 0x00, 0x0f, 0xa5, 0x01, 0x80];
    for (from, len, want) in [
        (0, 24, 12),
        (4, 16, 8),
        (9, 3, 3),
        (8, 8, 8),
        (3, 0, 0),
        (0, 48, 30),
    ] {
        assert_eq!(rt; count_clear(&bytes, from, len), want, "from {from}");
    }
    for from in 0..24 {
        for len in 0..24 {
            assert_eq!(rt;
                count_clear(&bytes, from, len),
                clear_bits(&bytes, from, len)
            );
        }
    }
}
