//! Bytes by pairs of hexadecimal digits.
ghost use Rattle.std.specs.Prelude.{◌≡◌, ◌/◌, None, Some, length};
ghost use Rattle.std.specs.Bool.{OnTrue, OnFalse};
ghost use Rattle.data_types.specs.promise.FieldText.{hex_bytes};

use hex::decode_to_slice;

/// Whether a text is one of pairs of hexadecimal digits, in either case; then their bytes are put into the room, which has
/// one for each pair. Where it isn't, what the room has is left open.
pub fn decode_hex(text: &[u8], room: &mut [u8]) -> bool
    requires { length room.old ≡ length text.now / 2 }
    ensures found { OnTrue result (hex_bytes text.now ≡ Some room.new) }
    ensures none { OnFalse result (hex_bytes text.now ≡ None) }
{
    match decode_to_slice(text, room) {
        Ok(()) => true,
        Err(_) => false,
    }
}
