//! Text: bytes that are UTF-8.
ghost use Rattle.std.specs.Prelude.{◌≡◌};
ghost use Rattle.std.specs.Str.{is_utf8};

/// Whether bytes are UTF-8, as [`crate::Builder::push_text`] asks of its caller. Those that are ASCII alone are found by a
/// shorter test.
pub fn is_text(bytes: &[u8]) -> bool
    ensures { result ≡ is_utf8 bytes.now }
{
    if bytes.is_ascii() {
        return true;
    }
    is_text_beyond(bytes)
}

/// The same, behind the test of whether they are ASCII. All but a few bytes are tested by blocks of 64, the last of them with
/// zeros behind it.
pub fn is_text_beyond(bytes: &[u8]) -> bool
    ensures { result ≡ is_utf8 bytes.now }
{
    if bytes.len() < 16 {
        is_text_by_bytes(bytes)
    } else {
        is_text_by_blocks(bytes)
    }
}

fn is_text_by_bytes(bytes: &[u8]) -> bool
    ensures { result ≡ is_utf8 bytes.now }
{
    match str::from_utf8(bytes) {
        Ok(_) => true,
        Err(_) => false,
    }
}

fn is_text_by_blocks(bytes: &[u8]) -> bool
    ensures { result ≡ is_utf8 bytes.now }
{
    simdutf8::is_utf8(bytes)
}
