//! Truth values.
ghost use Rattle.std.specs.Prelude.{◌≡◌, codes, if◌then◌else◌, option_map};
ghost use Rattle.data_types.specs.promise.FieldText.{read_truth};
ghost use Rattle.data_types.specs.promise.Value.{Truth};

/// The truth value that a text names: in lower case, in upper case, or with one capital letter in front.
#[inline(always)]
pub fn read_truth(text: &[u8]) -> Option<bool>
    ensures { option_map Truth result ≡ read_truth text.now }
{
    match text {
        b"true" => Some(true),
        b"false" => Some(false),
        _ => rare_truth(text),
    }
}

/// The same, in any case.
#[inline(never)]
fn rare_truth(text: &[u8]) -> Option<bool>
    ensures { option_map Truth result ≡ read_truth text.now }
{
    match text {
        b"true" | b"True" | b"TRUE" => Some(true),
        b"false" | b"False" | b"FALSE" => Some(false),
        _ => None,
    }
}

/// The text of a truth value: `true` or `false`.
pub fn truth_text(truth: bool) -> &'static [u8]
    ensures { result.now ≡ (if truth then codes "true" else codes "false") }
{
    if truth { b"true" } else { b"false" }
}
