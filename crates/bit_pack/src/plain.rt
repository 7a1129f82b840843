//! The same numbers byte by byte, whatever the width: plain programs for the same definitions.
ghost use Rattle.std.specs.Prelude.{◌≡◌, ◌+◌, ◌*◌, ◌<◌, ◌≤◌, ◌^◌, ◌++◌, ℕ, length, take, drop};
ghost use Rattle.data_types.specs.promise.Packed.{number_at, le_bytes};

/// The number that this many bytes at a byte place are.
pub(crate) fn unsigned_at(bytes: &[u8], at: usize, width: usize) -> u128
    requires width { width ≤ 16 }
    requires within { at + width ≤ length bytes.now }
    ensures value { result ≡ number_at bytes.now at width }
    ensures bound { result < 2 ^ (8 * width) }
{
    let mut n = 0u128;
    for i in (0..width).rev() {
        n = n * 256 + u128::from(bytes[at + i]);
    }
    n
}

/// Writes the lowest bytes of a number, this many of them, at a byte place.
pub(crate) fn put_unsigned(bytes: &mut [u8], at: usize, width: usize, number: u128)
    requires { at + width ≤ length bytes.old }
    ensures { bytes.new ≡ take at bytes.old ++ le_bytes width number ++ drop (at + width) bytes.old }
{
    let mut n = number;
    for i in 0..width {
        bytes[at + i] = (n % 256) as u8;
        n /= 256;
    }
}
