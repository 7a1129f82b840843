//! A text cut at a byte.
ghost use Rattle.std.specs.Prelude.{◌≡◌, ◌==◌, IfSome, IfNone, position, Some, None};
ghost use Rattle.stage_model.specs.promise.StageGrammar.{cut_at};
ghost use Rattle.stage_model.specs.StageGrammar.{cut_behind};

/// What precedes the first such byte of a text, and what follows it.
pub(crate) fn cut(text: &[u8], byte: u8) -> Option<(&[u8], &[u8])>
    ensures found { IfSome result (λ x. cut_at byte text.now ≡ Some (record { front = x.0.now; behind = x.1.now })) }
    ensures none { IfNone result (cut_at byte text.now ≡ None) }
{
    let place = place_of(text, byte)?;
    let (front, behind) = text.split_at(place);
    Some((front, &behind[1..]))
}

/// The first place of the byte.
fn place_of(text: &[u8], byte: u8) -> Option<usize>
    ensures { result ≡ position (λ b. b == byte) text.now }
{
    text.iter().position(|b| *b == byte)
}
